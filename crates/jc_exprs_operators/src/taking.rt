//! The table of binary operators (JLS 15.17 to 15.24).
ghost use Rattle.std.specs.Prelude.{◌≡◌, IfOk};
ghost use Rattle.jc_exprs_parts_spec.specs.Operators.{arithmetic, as_primitive, castable_either, comparison, conditional, equal_primitives, equality, logical, on_primitives, shift, sum, taken};
ghost use Rattle.jc_convert.specs.Casting.{cast};
ghost use Rattle.jc_exprs_operators.specs.Takings.{plain_of, rule_of, takes_by, verdict_in};

use crate::kinds::{is_string, printed_as};
use crate::primitives::{as_primitive, is_boolean, is_numeric, promoted, promoted_both};
use jc_convert::{Converts, cast};
use jc_exprs_nodes::Judging;
use jc_rules::WantOfMemory;
use jc_sub::is_primitive;
use jc_tree::BinaryOp;
use jc_typed::Printed;
use jc_types::{Op, Primitive, Ty};
use std::alloc::Global;

/// An operator on primitive types: what its operands are converted to, and the type of its result.
#[derive(Clone, Copy, Debug)]
pub struct Promoted {
    pub op: Op,
    pub left: Primitive,
    pub right: Primitive,
    pub result: Primitive,
}

/// What an operator does to operands that it takes. String `+` and the comparison of references convert none of them.
#[derive(Clone, Copy, Debug)]
pub enum Taking {
    Converted(Promoted),
    Concat { left: Printed, right: Printed },
    Compared(Op),
}

/// Whether an operator takes its operands: it does, it doesn't, or it can't be told (606).
#[derive(Clone, Copy, Debug)]
pub enum Verdict {
    Taken(Taking),
    Refused,
    Unknown,
}

// Which primitive operands an operator takes.
#[derive(Clone, Copy, Debug)]
pub enum Rule {
    Arithmetic,
    Shift,
    Comparison,
    Equality,
    Logical,
    Conditional,
}

// An operator, and which primitive operands it takes.
#[derive(Clone, Copy, Debug)]
pub struct Plain {
    pub rule: Rule,
    pub op: Op,
}

// Both operands and the result are of one type.
fn of_one(op: Op, ty: Primitive) -> Promoted
    ensures op { result.op ≡ op }
    ensures left { result.left ≡ ty }
    ensures right { result.right ≡ ty }
    ensures result { result.result ≡ ty }
{
    Promoted {
        op,
        left: ty,
        right: ty,
        result: ty,
    }
}

// JLS 15.17, 15.18.2.
fn arithmetic(op: Op, p: Primitive, q: Primitive) -> Option<Promoted>
    ensures { arithmetic op p q ≡ takes_by result }
{
    if is_numeric(p) && is_numeric(q) {
        Some(of_one(op, promoted_both(p, q)))
    } else {
        None
    }
}

// JLS 15.20.1.
fn comparison(op: Op, p: Primitive, q: Primitive) -> Option<Promoted>
    ensures { comparison op p q ≡ takes_by result }
{
    if is_numeric(p) && is_numeric(q) {
        let both = promoted_both(p, q);
        Some(Promoted {
            op,
            left: both,
            right: both,
            result: Primitive::Boolean,
        })
    } else {
        None
    }
}

// JLS 15.19: each operand is promoted by itself.
fn shift(op: Op, p: Primitive, q: Primitive) -> Option<Promoted>
    ensures { shift op p q ≡ takes_by result }
{
    if is_numeric(p) && is_numeric(q) {
        Some(Promoted {
            op,
            left: promoted(p),
            right: promoted(q),
            result: promoted(p),
        })
    } else {
        None
    }
}

// JLS 15.23, 15.24.
fn conditional(op: Op, p: Primitive, q: Primitive) -> Option<Promoted>
    ensures { conditional op p q ≡ takes_by result }
{
    if is_boolean(p) && is_boolean(q) {
        Some(of_one(op, Primitive::Boolean))
    } else {
        None
    }
}

// JLS 15.22: both boolean, or both numeric.
fn logical(op: Op, p: Primitive, q: Primitive) -> Option<Promoted>
    ensures { logical op p q ≡ takes_by result }
{
    if is_boolean(p) && is_boolean(q) {
        Some(of_one(op, Primitive::Boolean))
    } else {
        arithmetic(op, p, q)
    }
}

// JLS 15.21.1, 15.21.2.
fn equal_primitives(op: Op, p: Primitive, q: Primitive) -> Option<Promoted>
    ensures { equal_primitives op p q ≡ takes_by result }
{
    if is_boolean(p) && is_boolean(q) {
        Some(of_one(op, Primitive::Boolean))
    } else {
        comparison(op, p, q)
    }
}

fn by_rule(plain: Plain, p: Primitive, q: Primitive) -> Option<Promoted>
    ensures { rule_of plain.rule plain.op p q ≡ takes_by result }
{
    match plain.rule {
        Rule::Arithmetic => arithmetic(plain.op, p, q),
        Rule::Shift => shift(plain.op, p, q),
        Rule::Comparison => comparison(plain.op, p, q),
        Rule::Equality => equal_primitives(plain.op, p, q),
        Rule::Logical => logical(plain.op, p, q),
        Rule::Conditional => conditional(plain.op, p, q),
    }
}

// Of two primitive types, after unboxing.
fn promoted_operands(
    alloc: Global,
    judging: &Judging,
    plain: Plain,
    left: &Ty,
    right: &Ty,
) -> Result<Option<Promoted>, WantOfMemory>
    ensures { IfOk result (λ r. on_primitives plain.op (as_primitive judging.now.table.now judging.now.env.now.bounds left.now) (as_primitive judging.now.table.now judging.now.env.now.bounds right.now) (rule_of plain.rule) ≡ takes_by r) }
{
    let p = as_primitive(alloc, judging, left)?;
    let q = as_primitive(alloc, judging, right)?;
    match p {
        None => Ok(None),
        Some(p) => match q {
            None => Ok(None),
            Some(q) => Ok(by_rule(plain, p, q)),
        },
    }
}

fn on_primitives(
    alloc: Global,
    judging: &Judging,
    plain: Plain,
    left: &Ty,
    right: &Ty,
) -> Result<Verdict, WantOfMemory>
    ensures { IfOk result (λ r. on_primitives plain.op (as_primitive judging.now.table.now judging.now.env.now.bounds left.now) (as_primitive judging.now.table.now judging.now.env.now.bounds right.now) (rule_of plain.rule) ≡ verdict_in judging.now.table.now left.now right.now r) }
{
    match promoted_operands(alloc, judging, plain, left, right)? {
        None => Ok(Verdict::Refused),
        Some(to) => Ok(Verdict::Taken(Taking::Converted(to))),
    }
}

// JLS 15.18: string `+` where one operand is a String.
fn sum(alloc: Global, judging: &Judging, left: &Ty, right: &Ty) -> Result<Verdict, WantOfMemory>
    ensures { IfOk result (λ r. sum judging.now.table.now judging.now.env.now.bounds left.now right.now ≡ verdict_in judging.now.table.now left.now right.now r) }
{
    if is_string(alloc, judging.table, left) || is_string(alloc, judging.table, right) {
        return Ok(Verdict::Taken(Taking::Concat {
            left: printed_as(left),
            right: printed_as(right),
        }));
    }
    let plus = Plain {
        rule: Rule::Arithmetic,
        op: Op::Plus,
    };
    on_primitives(alloc, judging, plus, left, right)
}

// JLS 15.21.3: references, one of which casts to the type of the other.
fn references(
    alloc: Global,
    judging: &Judging,
    op: Op,
    left: &Ty,
    right: &Ty,
) -> Result<Verdict, WantOfMemory>
    ensures { IfOk result (λ r. castable_either op left.now right.now (cast judging.now.table.now judging.now.env.now.bounds left.now right.now) (cast judging.now.table.now judging.now.env.now.bounds right.now left.now) ≡ verdict_in judging.now.table.now left.now right.now r) }
{
    let there = cast(alloc, judging.table, judging.env, left, right)?;
    let back = cast(alloc, judging.table, judging.env, right, left)?;
    match &there {
        Converts::Yes(_) => Ok(Verdict::Taken(Taking::Compared(op))),
        Converts::NoConversion => match &back {
            Converts::Yes(_) => Ok(Verdict::Taken(Taking::Compared(op))),
            Converts::NoConversion => Ok(Verdict::Refused),
            Converts::Deep => Ok(Verdict::Unknown),
        },
        Converts::Deep => match &back {
            Converts::Yes(_) => Ok(Verdict::Taken(Taking::Compared(op))),
            _ => Ok(Verdict::Unknown),
        },
    }
}

// JLS 15.21: numbers or booleans where at least one of them is primitive, and else references.
fn equality(
    alloc: Global,
    judging: &Judging,
    op: Op,
    left: &Ty,
    right: &Ty,
) -> Result<Verdict, WantOfMemory>
    ensures { IfOk result (λ r. equality judging.now.table.now judging.now.env.now.bounds op left.now right.now ≡ verdict_in judging.now.table.now left.now right.now r) }
{
    if is_primitive(left) || is_primitive(right) {
        let plain = Plain {
            rule: Rule::Equality,
            op,
        };
        return on_primitives(alloc, judging, plain, left, right);
    }
    references(alloc, judging, op, left, right)
}

// Which primitive operands each operator takes; `+` takes strings as well, and `==` and `!=` references.
fn plain_of(op: BinaryOp) -> Plain
    ensures { plain_of op ≡ result }
{
    let (rule, op) = match op {
        BinaryOp::Times => (Rule::Arithmetic, Op::Times),
        BinaryOp::Divide => (Rule::Arithmetic, Op::Divide),
        BinaryOp::Remainder => (Rule::Arithmetic, Op::Remainder),
        BinaryOp::Plus => (Rule::Arithmetic, Op::Plus),
        BinaryOp::Minus => (Rule::Arithmetic, Op::Minus),
        BinaryOp::ShiftLeft => (Rule::Shift, Op::ShiftLeft),
        BinaryOp::ShiftRight => (Rule::Shift, Op::ShiftRight),
        BinaryOp::ShiftRightZero => (Rule::Shift, Op::ShiftRightUnsigned),
        BinaryOp::Less => (Rule::Comparison, Op::Less),
        BinaryOp::Greater => (Rule::Comparison, Op::Greater),
        BinaryOp::LessEqual => (Rule::Comparison, Op::AtMost),
        BinaryOp::GreaterEqual => (Rule::Comparison, Op::AtLeast),
        BinaryOp::Equal => (Rule::Equality, Op::Equal),
        BinaryOp::NotEqual => (Rule::Equality, Op::NotEqual),
        BinaryOp::And => (Rule::Logical, Op::And),
        BinaryOp::Xor => (Rule::Logical, Op::Xor),
        BinaryOp::Or => (Rule::Logical, Op::Or),
        BinaryOp::AndAlso => (Rule::Conditional, Op::ConditionalAnd),
        BinaryOp::OrElse => (Rule::Conditional, Op::ConditionalOr),
    };
    Plain { rule, op }
}

/// What an operator does to operands of two types.
pub fn taken(
    alloc: Global,
    judging: &Judging,
    op: BinaryOp,
    left: &Ty,
    right: &Ty,
) -> Result<Verdict, WantOfMemory>
    ensures { IfOk result (λ r. taken judging.now.table.now judging.now.env.now.bounds op left.now right.now ≡ verdict_in judging.now.table.now left.now right.now r) }
{
    match op {
        BinaryOp::Plus => sum(alloc, judging, left, right),
        BinaryOp::Equal => equality(alloc, judging, Op::Equal, left, right),
        BinaryOp::NotEqual => equality(alloc, judging, Op::NotEqual, left, right),
        _ => on_primitives(alloc, judging, plain_of(op), left, right),
    }
}
