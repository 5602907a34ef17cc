//! The class of a small program.
ghost use Rattle.std.specs.Prelude.{IfOk, MatchOption};
ghost use Rattle.jc_small.specs.Small.{IsNoProgram};
ghost use Rattle.jc_small.specs.Same.{Compiled};

use crate::emitting::emit;
use crate::reading::parse;
use jc_class_out::ClassModel;
use jc_lexer::Token;
use jc_rules::WantOfMemory;
use std::alloc::Global;

/// The class of a source's tokens. None where they are no small program.
#[tactic(auto, using(crate::proofs::Sameness::compiled))]
pub fn compile(alloc: Global, tokens: &[Token]) -> Result<Option<ClassModel>, WantOfMemory>
    ensures { IfOk result (λ class. MatchOption class (IsNoProgram tokens.now) (λ class. Compiled tokens.now class)) }
{
    match parse(alloc, tokens)? {
        Some(program) => Ok(Some(emit(alloc, &program)?)),
        None => Ok(None),
    }
}
