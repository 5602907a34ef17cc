//! Forms of expressions in words, over the places of their parts.
ghost use Rattle.std.specs.Prelude.{◌<◌, IfOk};
ghost use Rattle.jc_typed.specs.Parts.{BelowForm};

use crate::parts::{joint, kind};
use crate::types::erased_of;
use crate::words::{number, operator, place, small, word};
use crate::{Read, Unreadable};
use jc_rules::Stop;
use jc_typed::ExprForm;
use jc_types::{FieldId, MethodId, Phase, Table};
use std::alloc::Global;

/// A form of an expression; its words begin with its name.
pub fn form(alloc: Global, table: &Table, words: &[&str], count: usize) -> Read<ExprForm>
    ensures { IfOk result (λ form. BelowForm count form) }
{
    match word(words, 0) {
        "const" => Ok(ExprForm::Constant {
            before: place(words, 1, count)?,
            value: place(words, 2, count)?,
            named: place(words, 3, count)?,
            casts: place(words, 4, count)?,
        }),
        "null" => Ok(ExprForm::Null),
        "local" => Ok(ExprForm::Local {
            local: small(words, 1)?,
        }),
        "this" => Ok(ExprForm::This),
        "static" => Ok(ExprForm::StaticField {
            before: place(words, 1, count)?,
            field: FieldId(number(words, 2)),
            is_simple: word(words, 3) == "simple",
        }),
        "field" => Ok(ExprForm::Field {
            of: place(words, 1, count)?,
            field: FieldId(number(words, 2)),
        }),
        "element" => Ok(ExprForm::Element {
            array: place(words, 1, count)?,
            index: place(words, 2, count)?,
        }),
        "length" => Ok(ExprForm::Length {
            array: place(words, 1, count)?,
        }),
        _ => operator_form(alloc, table, words, count),
    }
}

fn operator_form(alloc: Global, table: &Table, words: &[&str], count: usize) -> Read<ExprForm>
    ensures { IfOk result (λ form. BelowForm count form) }
{
    match word(words, 0) {
        "prefix" => Ok(ExprForm::Prefix {
            ops: place(words, 1, count)?,
            of: place(words, 2, count)?,
        }),
        "chain" => Ok(ExprForm::Chain {
            first: place(words, 1, count)?,
            links: place(words, 2, count)?,
        }),
        "all" => Ok(ExprForm::AllOf {
            operands: place(words, 1, count)?,
            from: number(words, 2),
            up_to: number(words, 3),
        }),
        "any" => Ok(ExprForm::AnyOf {
            operands: place(words, 1, count)?,
            from: number(words, 2),
            up_to: number(words, 3),
        }),
        "instanceof" => Ok(ExprForm::InstanceOf {
            of: place(words, 1, count)?,
            to: erased_of(alloc, table, word(words, 2))?,
        }),
        "conditional" => Ok(ExprForm::Conditional {
            test: place(words, 1, count)?,
            then: place(words, 2, count)?,
            other: place(words, 3, count)?,
            from: number(words, 4),
            up_to: number(words, 5),
        }),
        _ => assigning_form(words, count),
    }
}

fn assigning_form(words: &[&str], count: usize) -> Read<ExprForm>
    ensures { IfOk result (λ form. BelowForm count form) }
{
    match word(words, 0) {
        "assign" => Ok(ExprForm::Assign {
            variable: place(words, 1, count)?,
            value: place(words, 2, count)?,
            store: place(words, 3, count)?,
        }),
        "compound" => Ok(ExprForm::Compound {
            variable: place(words, 1, count)?,
            joint: joint(words, 2)?,
            left: place(words, 5, count)?,
            right: place(words, 6, count)?,
            into: place(words, 7, count)?,
        }),
        "change" => Ok(ExprForm::Change {
            variable: place(words, 1, count)?,
            op: operator(words, 2)?,
            from: place(words, 3, count)?,
            into: place(words, 4, count)?,
            is_prefix: word(words, 5) == "prefix",
        }),
        _ => calling_form(words, count),
    }
}

fn calling_form(words: &[&str], count: usize) -> Read<ExprForm>
    ensures { IfOk result (λ form. BelowForm count form) }
{
    match word(words, 0) {
        "call" => Ok(ExprForm::Call {
            kind: kind(word(words, 1)),
            receiver: place(words, 2, count)?,
            method: MethodId(number(words, 3)),
            type_args: place(words, 4, count)?,
            args: place(words, 5, count)?,
            phase: Phase::Subtyping,
            thrown: place(words, 6, count)?,
            is_raw: word(words, 7) == "raw",
        }),
        "new" => Ok(ExprForm::New {
            constructor: MethodId(number(words, 1)),
            args: place(words, 2, count)?,
            phase: Phase::Subtyping,
            thrown: place(words, 3, count)?,
            is_raw: word(words, 4) == "raw",
        }),
        "newarray" => Ok(ExprForm::NewArray {
            lengths: place(words, 1, count)?,
        }),
        "arrayof" => Ok(ExprForm::ArrayOf {
            elements: place(words, 1, count)?,
        }),
        "cast" => Ok(ExprForm::Cast {
            of: place(words, 1, count)?,
            to: place(words, 2, count)?,
            steps: place(words, 3, count)?,
            is_below: false,
        }),
        _ => Err(Stop::Refused(Unreadable)),
    }
}
