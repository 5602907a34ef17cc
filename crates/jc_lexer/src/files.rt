//! The tokens of all sources of a job, or its least break of the lexical stage.
ghost use Rattle.std.specs.Prelude.{◌≡◌, ◌+◌, ◌≤◌, length, IfOk, IfErr, IsTrue, Ok};
ghost use Rattle.jc_rules.specs.Rules.{is_rule};
ghost use Rattle.jc_lexer.specs.Faults.{rule_of, place_of};
ghost use Rattle.jc_lexer.specs.Files.{refusal, lexed_file, lexed_files, IsFileRefusal, IsRefusal};

use crate::LexFault;
use crate::lexing::tokens;
use crate::token::Token;
use jc_rules::{Items, Place, Refusal, Rule, Stop};
use std::alloc::Global;

/// The greatest number of bytes of a source together with the sources before it.
pub const MOST_BYTES: usize = 16_777_216;

/// The refusal of a file by the rule of this number.
fn refusal(number: u16, file: u64, at: u32) -> Refusal
    requires { IsTrue (is_rule number) }
    ensures { result ≡ refusal number file at }
{
    Refusal {
        rule: Rule::from_number(number).unwrap(),
        place: Place { file, at },
        have: 0,
    }
}

fn fault_refusal(file: u64, fault: LexFault) -> Refusal
    ensures { result ≡ refusal (rule_of fault) file (place_of fault) }
{
    refusal(fault.rule(), file, fault.at())
}

/// The tokens of a file, by its number and the number of bytes of the files before it.
#[tactic(auto, unfolding(crate::specs::Files::lexed_file))]
fn lex_file(
    alloc: Global,
    file: u64,
    before: usize,
    bytes: &[u8],
) -> Result<Items<Token>, Stop<Refusal>>
    requires { before ≤ MOST_BYTES }
    ensures found { IfOk result (λ list. lexed_file file before bytes.now ≡ Ok list) }
    ensures short { IfOk result (λ _. before + length bytes.now ≤ MOST_BYTES) }
    ensures refused { IfErr result (λ stop. IsFileRefusal file before bytes.now stop) }
{
    if MOST_BYTES - before < bytes.len() {
        return Err(Stop::Refused(refusal(101, file, 0)));
    }
    match tokens(alloc, bytes) {
        Ok(list) => Ok(list),
        Err(Stop::Refused(fault)) => Err(Stop::Refused(fault_refusal(file, fault))),
        Err(Stop::WantOfMemory) => Err(Stop::WantOfMemory),
    }
}

/// The tokens of each file, where the files count from 1: the lexical stage. A file that has together with those before it more
/// than 16,777,216 bytes is refused at its first byte; else the first fault of the first faulty file is the refusal.
pub fn lex_all(alloc: Global, files: &[Items<u8>]) -> Result<Items<Items<Token>>, Stop<Refusal>>
    ensures found { IfOk result (λ lists. lexed_files 1 0 files.now ≡ Ok lists) }
    ensures refused { IfErr result (λ stop. IsRefusal files.now stop) }
{
    let mut lists = Items::new(alloc);
    let mut before = 0;
    for (n, file) in files.iter().enumerate() {
        let list = lex_file(alloc, n as u64 + 1, before, file.slice())?;
        lists.push(list)?;
        before += file.len();
    }
    Ok(lists)
}
