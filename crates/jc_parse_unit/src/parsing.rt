//! Source files (JLS 7.3).
ghost use Rattle.std.specs.Prelude.{◌≡◌, ◌-◌, ◌<◌, ◌≤◌, ◌^◌, length, IfErr, IfOk};
ghost use Rattle.jc_unit_laws.specs.UnitAnswers.{FileStands, NoUnitStands, NoWholeStands, UnitStands};

use crate::files::file;
use jc_left_out::{first_left_out_form, first_left_out_word};
use jc_lexer::Token;
use jc_rules::{Rule, Stop};
use jc_tree::{ParseFault, SourceFile};
use std::alloc::Global;

/// The source file that the tokens are, with no word and no form that the language leaves out. A fault is the first word that is left
/// out (rule 201), else the first token with which no file goes on, else the first form that is left out (rule 203).
#[tactic(auto, using(crate::proofs::UnitTurns::word_stands, crate::proofs::UnitTurns::form_stands, crate::proofs::UnitTurns::whole_stops, crate::proofs::UnitTurns::unit_stands))]
pub fn unit(alloc: Global, tokens: &[Token], prelude: bool) -> Result<SourceFile, Stop<ParseFault>>
    requires { length tokens.now < 2 ^ 32 }
    ensures unit { IfOk result (λ file. UnitStands prelude tokens.now file) }
    ensures none { IfErr result (λ stop. NoUnitStands prelude tokens.now stop) }
{
    if let Some(token) = first_left_out_word(tokens, prelude) {
        return Err(Stop::Refused(ParseFault::LeftOut {
            rule: Rule::known(201),
            token,
        }));
    }
    let file = whole(alloc, tokens)?;
    match first_left_out_form(tokens, &file) {
        Some(token) => Err(Stop::Refused(ParseFault::LeftOut {
            rule: Rule::known(203),
            token,
        })),
        None => Ok(file),
    }
}

/// The source file that all the tokens are.
#[tactic(auto, using(crate::proofs::UnitTurns::file_all, crate::proofs::UnitTurns::file_ended, crate::proofs::UnitTurns::reach_within))]
fn whole(alloc: Global, tokens: &[Token]) -> Result<SourceFile, Stop<ParseFault>>
    requires { length tokens.now < 2 ^ 32 }
    ensures file { IfOk result (λ file. FileStands tokens.now file) }
    ensures none { IfErr result (λ stop. NoWholeStands tokens.now stop) }
{
    let found = file(alloc, tokens)?;
    if found.rest.len() < 1 {
        return Ok(found.value);
    }
    Err(Stop::Refused(ParseFault::Syntax {
        token: place(tokens, found.left),
    }))
}

/// The number of the token at which so many are left.
fn place(tokens: &[Token], left: usize) -> u32
    requires { (left ≤ length tokens.now) × (length tokens.now < 2 ^ 32) }
    ensures { result ≡ length tokens.now - left }
{
    (tokens.len() - left) as u32
}
