//! The sources one behind the other.
ghost use Rattle.std.specs.Prelude.{◌≡◌, ◌+◌, ◌<◌, ◌^◌, length, IfErr, IfOk, Ok, false};
ghost use Rattle.jc_lexer.specs.Files.{lexed_files};
ghost use Rattle.jc_unit_laws.specs.UnitAnswers.{UnitStands};
ghost use Rattle.jc_syntax.specs.Stage.{HaveUnits, IsFileStop, IsStageStop, offset_of, refusal_of};

use jc_lexer::Token;
use jc_parse_unit::unit;
use jc_rules::{Items, Place, Refusal, Rule, Stop};
use jc_tree::{ParseFault, SourceFile};
use std::alloc::Global;

/// The offset of a token; the end of the file counts as a last one.
fn offset_of(tokens: &[Token], size: usize, token: u32) -> u32
    requires { size < 2 ^ 32 }
    ensures { result ≡ offset_of tokens.now size token }
{
    match tokens.get(token as usize) {
        Some(token) => token.from,
        None => size as u32,
    }
}

/// A fault of a file of so many bytes as a refusal.
pub fn refusal_of(file: u64, tokens: &[Token], size: usize, fault: &ParseFault) -> Refusal
    requires { size < 2 ^ 32 }
    ensures { result ≡ refusal_of file tokens.now size fault.now }
{
    let (rule, token) = match fault {
        ParseFault::Syntax { token } => (Rule::known(202), *token),
        ParseFault::LeftOut { rule, token } => (*rule, *token),
    };
    Refusal {
        rule,
        place: Place {
            file,
            at: offset_of(tokens, size, token),
        },
        have: 0,
    }
}

/// The tree of a file of so many bytes.
fn unit_of(
    alloc: Global,
    file: u64,
    tokens: &[Token],
    size: usize,
) -> Result<SourceFile, Stop<Refusal>>
    requires tokens { length tokens.now < 2 ^ 32 }
    requires size { size < 2 ^ 32 }
    ensures unit { IfOk result (λ unit. UnitStands false tokens.now unit) }
    ensures refused { IfErr result (λ stop. IsFileStop file tokens.now size stop) }
{
    match unit(alloc, tokens, false) {
        Ok(unit) => Ok(unit),
        Err(Stop::Refused(fault)) => Err(Stop::Refused(refusal_of(file, tokens, size, &fault))),
        Err(Stop::WantOfMemory) => Err(Stop::WantOfMemory),
    }
}

/// The trees of the sources with these texts and tokens. Of the sources that break a rule of the syntax the first one is refused, each
/// of which breaks one: 201 at its first word that the language leaves out; else 202 where no source file goes on; else 203 at its first
/// form that the language leaves out.
pub fn units_of(
    alloc: Global,
    texts: &[Items<u8>],
    lists: &[Items<Token>],
) -> Result<Items<SourceFile>, Stop<Refusal>>
    requires { lexed_files 1 0 texts.now ≡ Ok lists.now }
    ensures units { IfOk result (λ units. HaveUnits lists.now units) }
    ensures refused { IfErr result (λ stop. IsStageStop texts.now lists.now stop) }
{
    let mut units = Items::new(alloc);
    for (n, list) in lists.iter().enumerate() {
        let unit = unit_of(alloc, n as u64 + 1, list.slice(), texts[n].len())?;
        units.push(unit)?;
    }
    Ok(units)
}
