//! Conversion steps, operators between operands, and kinds of calls, in words.
ghost use Rattle.std.specs.Prelude.{◌<◌, IfOk};
ghost use Rattle.jc_typed.specs.Parts.{BelowStep};

use crate::types::erased_of;
use crate::words::{operator, place, primitive_at, word};
use crate::{Read, Unreadable};
use jc_rules::Stop;
use jc_running::Check;
use jc_typed::{CallKind, Joint, Printed, StepNode};
use jc_types::Table;
use std::alloc::Global;

fn check(word: &str) -> Check {
    match word {
        "cast" => Check::WrittenCast,
        "read" => Check::ReadGuard,
        "use" => Check::UseGuard,
        _ => Check::EntryGuard,
    }
}

/// A conversion step.
pub fn step(alloc: Global, table: &Table, words: &[&str], count: usize) -> Read<StepNode>
    ensures { IfOk result (λ node. BelowStep count node) }
{
    match word(words, 2) {
        "widen" => Ok(StepNode::Widen(primitive_at(words, 3)?)),
        "narrow" => Ok(StepNode::Narrow(primitive_at(words, 3)?)),
        "box" => Ok(StepNode::BoxUp(primitive_at(words, 3)?)),
        "unbox" => Ok(StepNode::Unbox(primitive_at(words, 3)?)),
        "up" => Ok(StepNode::Up {
            ty: place(words, 3, count)?,
            unchecked: false,
        }),
        "test" => Ok(StepNode::Test {
            check: check(word(words, 3)),
            to: erased_of(alloc, table, word(words, 4))?,
        }),
        _ => Err(Stop::Refused(Unreadable)),
    }
}

fn printed(word: &str) -> Printed {
    match word {
        "Z" => Printed::Boolean,
        "C" => Printed::Char,
        "I" => Printed::Int,
        "J" => Printed::Long,
        _ => Printed::Reference,
    }
}

/// What stands between two operands, over three words: an operator and two dots, or `cat` and how each is printed.
pub fn joint(words: &[&str], at: usize) -> Read<Joint> {
    if word(words, at) == "cat" {
        return Ok(Joint::Concat {
            left: printed(word(words, at.saturating_add(1))),
            right: printed(word(words, at.saturating_add(2))),
        });
    }
    Ok(Joint::Operator(operator(words, at)?))
}

/// The kind of a call.
pub fn kind(word: &str) -> CallKind {
    match word {
        "static" => CallKind::Static,
        "virtual" => CallKind::Virtual,
        _ => CallKind::Direct,
    }
}
