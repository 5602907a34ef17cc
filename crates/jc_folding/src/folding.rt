//! Operators on constants (JLS 15.28).
ghost use Rattle.std.specs.Prelude.{◌≡◌, IfOk};
ghost use Rattle.jc_heaps.specs.Numbers.{is_shift};
ghost use Rattle.jc_folding.specs.Folding.{is_boolean, is_long, promoted, both_promoted, is_comparison, as_constant, given_constant, shifted, numbers, numeric, boolean_operator, booleans_by, wholes, fold};

use crate::spelling::{joined, spelled, texts};
use jc_heaps::Given;
use jc_numbers::{number_as, operated};
use jc_rules::WantOfMemory;
use jc_running::Value;
use jc_types::{Constant, Op, Primitive};
use std::alloc::Global;

fn is_boolean(p: Primitive) -> bool
    ensures { result ≡ is_boolean p }
{
    match p {
        Primitive::Boolean => true,
        _ => false,
    }
}

fn is_long(p: Primitive) -> bool
    ensures { result ≡ is_long p }
{
    match p {
        Primitive::Long => true,
        _ => false,
    }
}

// Unary numeric promotion (JLS 5.6.1).
fn promoted(p: Primitive) -> Primitive
    ensures { result ≡ promoted p }
{
    match p {
        Primitive::Long => Primitive::Long,
        _ => Primitive::Int,
    }
}

// Binary numeric promotion (JLS 5.6.2).
fn both_promoted(p: Primitive, q: Primitive) -> Primitive
    ensures { result ≡ both_promoted p q }
{
    if is_long(p) || is_long(q) {
        Primitive::Long
    } else {
        Primitive::Int
    }
}

fn is_comparison(op: Op) -> bool
    ensures { result ≡ is_comparison op }
{
    match op {
        Op::Less => true,
        Op::Greater => true,
        Op::AtMost => true,
        Op::AtLeast => true,
        Op::Equal => true,
        Op::NotEqual => true,
        _ => false,
    }
}

fn is_shift(op: Op) -> bool
    ensures { result ≡ is_shift op }
{
    match op {
        Op::ShiftLeft => true,
        Op::ShiftRight => true,
        Op::ShiftRightUnsigned => true,
        _ => false,
    }
}

fn given_constant(of: Primitive, given: Given) -> Option<Constant>
    ensures { result ≡ given_constant of given }
{
    match given {
        Given::Gives(value) => as_constant(of, value),
        Given::ByZero => None,
        Given::Unfit => None,
    }
}

fn as_constant(of: Primitive, value: Value) -> Option<Constant>
    ensures { result ≡ as_constant of value }
{
    match value {
        Value::Whole(n) => Some(Constant::Whole {
            value: n as i64,
            of,
        }),
        Value::Long(n) => Some(Constant::Whole { value: n, of }),
        Value::Address(_) => None,
        Value::Null => None,
    }
}

fn shifted(op: Op, n: i64, p: Primitive, m: i64, q: Primitive) -> Option<Constant>
    ensures { result ≡ shifted op n p m q }
{
    let left = number_as(promoted(p), n);
    let right = number_as(promoted(q), m);
    given_constant(promoted(p), operated(op, left, right))
}

fn numbers(op: Op, n: i64, m: i64, of: Primitive) -> Option<Constant>
    ensures { result ≡ numbers op n m of }
{
    let given = operated(op, number_as(of, n), number_as(of, m));
    if is_comparison(op) {
        return given_constant(Primitive::Boolean, given);
    }
    given_constant(of, given)
}

fn numeric(op: Op, n: i64, p: Primitive, m: i64, q: Primitive) -> Option<Constant>
    ensures { result ≡ numeric op n p m q }
{
    if is_shift(op) {
        return shifted(op, n, p, m, q);
    }
    numbers(op, n, m, both_promoted(p, q))
}

fn boolean_operator(op: Op) -> Option<Op>
    ensures { result ≡ boolean_operator op }
{
    match op {
        Op::And => Some(Op::And),
        Op::Or => Some(Op::Or),
        Op::Xor => Some(Op::Xor),
        Op::Equal => Some(Op::Equal),
        Op::NotEqual => Some(Op::NotEqual),
        Op::ConditionalAnd => Some(Op::And),
        Op::ConditionalOr => Some(Op::Or),
        _ => None,
    }
}

fn booleans(op: Op, n: i64, m: i64) -> Option<Constant>
    ensures { result ≡ booleans_by (boolean_operator op) n m }
{
    match boolean_operator(op) {
        None => None,
        Some(op) => {
            let left = number_as(Primitive::Boolean, n);
            let right = number_as(Primitive::Boolean, m);
            given_constant(Primitive::Boolean, operated(op, left, right))
        }
    }
}

fn wholes(op: Op, n: i64, p: Primitive, m: i64, q: Primitive) -> Option<Constant>
    ensures { result ≡ wholes op n p m q }
{
    if is_boolean(p) && is_boolean(q) {
        return booleans(op, n, m);
    }
    if is_boolean(p) || is_boolean(q) {
        return None;
    }
    numeric(op, n, p, m, q)
}

/// What an operator between two constants gives (JLS 15.28): None where it doesn't take them or divides by zero. A prefix operator
/// takes no two.
pub fn fold(
    alloc: Global,
    op: Op,
    left: &Constant,
    right: &Constant,
) -> Result<Option<Constant>, WantOfMemory>
    ensures { IfOk result (λ r. r ≡ fold op left.now right.now) }
{
    match left {
        Constant::Text(xs) => match right {
            Constant::Text(ys) => texts(alloc, op, xs.slice(), ys.slice()),
            Constant::Whole { value, of } => {
                let units = spelled(alloc, *value, *of)?;
                joined(alloc, op, xs.slice(), units.slice())
            }
        },
        Constant::Whole { value, of } => match right {
            Constant::Text(ys) => {
                let units = spelled(alloc, *value, *of)?;
                joined(alloc, op, units.slice(), ys.slice())
            }
            Constant::Whole {
                value: other,
                of: others,
            } => Ok(wholes(op, *value, *of, *other, *others)),
        },
    }
}
