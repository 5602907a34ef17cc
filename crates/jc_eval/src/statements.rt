//! Forms of statements in words, over the places of their parts.
ghost use Rattle.std.specs.Prelude.{◌<◌, IfOk};
ghost use Rattle.jc_typed.specs.Parts.{BelowStmtForm};

use crate::words::{number, place, small, word};
use crate::{Read, Unreadable};
use jc_rules::Stop;
use jc_typed::StmtForm;
use jc_types::{FieldId, MethodId, Phase};

/// A form of a statement; its words begin with its name.
pub fn form(words: &[&str], count: usize) -> Read<StmtForm>
    ensures { IfOk result (λ form. BelowStmtForm count form) }
{
    match word(words, 0) {
        "empty" => Ok(StmtForm::Empty),
        "block" => Ok(StmtForm::Block {
            stmts: place(words, 1, count)?,
        }),
        "locals" => Ok(StmtForm::Locals {
            declared: place(words, 1, count)?,
        }),
        "effect" => Ok(StmtForm::Effect {
            of: place(words, 1, count)?,
        }),
        "if" => Ok(StmtForm::If {
            arms: place(words, 1, count)?,
            other: place(words, 2, count)?,
        }),
        "labelled" => Ok(StmtForm::Labelled {
            target: small(words, 1)?,
            body: place(words, 2, count)?,
        }),
        "switch" => Ok(StmtForm::Switch {
            target: small(words, 1)?,
            of: place(words, 2, count)?,
            cases: place(words, 3, count)?,
            stmts: place(words, 4, count)?,
        }),
        _ => loop_form(words, count),
    }
}

fn loop_form(words: &[&str], count: usize) -> Read<StmtForm>
    ensures { IfOk result (λ form. BelowStmtForm count form) }
{
    match word(words, 0) {
        "while" => Ok(StmtForm::While {
            target: small(words, 1)?,
            test: place(words, 2, count)?,
            body: place(words, 3, count)?,
        }),
        "do" => Ok(StmtForm::Do {
            target: small(words, 1)?,
            body: place(words, 2, count)?,
            test: place(words, 3, count)?,
        }),
        "for" => Ok(StmtForm::For {
            target: small(words, 1)?,
            declared: place(words, 2, count)?,
            before: place(words, 3, count)?,
            test: place(words, 4, count)?,
            update: place(words, 5, count)?,
            body: place(words, 6, count)?,
        }),
        _ => each_form(words, count),
    }
}

fn each_form(words: &[&str], count: usize) -> Read<StmtForm>
    ensures { IfOk result (λ form. BelowStmtForm count form) }
{
    match word(words, 0) {
        "forarray" => Ok(StmtForm::ForArray {
            target: small(words, 1)?,
            of: place(words, 2, count)?,
            ty: place(words, 3, count)?,
            captures: place(words, 4, count)?,
            steps: place(words, 5, count)?,
            local: small(words, 6)?,
            body: place(words, 7, count)?,
        }),
        "foriterable" => Ok(StmtForm::ForIterable {
            target: small(words, 1)?,
            of: place(words, 2, count)?,
            ty: place(words, 3, count)?,
            captures: place(words, 4, count)?,
            steps: place(words, 5, count)?,
            local: small(words, 6)?,
            body: place(words, 7, count)?,
        }),
        _ => leaving_form(words, count),
    }
}

fn leaving_form(words: &[&str], count: usize) -> Read<StmtForm>
    ensures { IfOk result (λ form. BelowStmtForm count form) }
{
    match word(words, 0) {
        "return" => Ok(StmtForm::Return {
            value: place(words, 1, count)?,
        }),
        "break" => Ok(StmtForm::Break {
            target: small(words, 1)?,
        }),
        "continue" => Ok(StmtForm::Continue {
            target: small(words, 1)?,
        }),
        "throw" => Ok(StmtForm::Throw {
            of: place(words, 1, count)?,
        }),
        "try" => Ok(StmtForm::Try {
            body: place(words, 1, count)?,
            catches: place(words, 2, count)?,
            last: place(words, 3, count)?,
            copies: 0,
        }),
        "construct" => Ok(StmtForm::Construct {
            constructor: MethodId(number(words, 1)),
            args: place(words, 2, count)?,
            phase: Phase::Subtyping,
            thrown: place(words, 3, count)?,
            is_raw: word(words, 4) == "raw",
        }),
        "initialise" => Ok(StmtForm::Initialise {
            field: FieldId(number(words, 1)),
            value: place(words, 2, count)?,
        }),
        _ => Err(Stop::Refused(Unreadable)),
    }
}
