//! Prefix operators but `++` and `--` (JLS 15.15.3 to 15.15.6).
ghost use Rattle.std.specs.Prelude.{◌≡◌};
ghost use Rattle.jc_folding.specs.Folding.{as_constant, given_constant};
ghost use Rattle.jc_exprs_parts_spec.specs.Operators.{only_boolean, only_numeric, prefix_on, prefix_taken};
ghost use Rattle.jc_exprs_parts_spec.specs.Constants.{prefixed_as, prefixed_constant};

use crate::primitives::{is_boolean, is_numeric, promoted};
use jc_heaps::Given;
use jc_numbers::{number_as, prefixed};
use jc_running::Value;
use jc_types::{Constant, Op, Primitive};

fn only_boolean(p: Primitive) -> Option<Primitive>
    ensures { only_boolean p ≡ result }
{
    if is_boolean(p) {
        Some(Primitive::Boolean)
    } else {
        None
    }
}

fn only_numeric(p: Primitive) -> Option<Primitive>
    ensures { only_numeric p ≡ result }
{
    if is_numeric(p) {
        Some(promoted(p))
    } else {
        None
    }
}

/// The primitive type that an operand of a primitive type is converted to, which is that of the result.
pub fn prefix_on(op: Op, p: Primitive) -> Option<Primitive>
    ensures { prefix_on op p ≡ result }
{
    match op {
        Op::Not => only_boolean(p),
        _ => only_numeric(p),
    }
}

/// The same of an operand that may have none.
pub fn prefix_taken(op: Op, p: Option<Primitive>) -> Option<Primitive>
    ensures { prefix_taken op p ≡ result }
{
    match p {
        None => None,
        Some(p) => prefix_on(op, p),
    }
}

fn as_constant(of: Primitive, value: Value) -> Option<Constant>
    ensures { as_constant of value ≡ result }
{
    match value {
        Value::Whole(n) => Some(Constant::Whole {
            value: n as i64,
            of,
        }),
        Value::Long(n) => Some(Constant::Whole { value: n, of }),
        Value::Address(_) => None,
        Value::Null => None,
    }
}

fn given_constant(of: Primitive, given: Given) -> Option<Constant>
    ensures { given_constant of given ≡ result }
{
    match given {
        Given::Gives(value) => as_constant(of, value),
        Given::ByZero => None,
        Given::Unfit => None,
    }
}

fn prefixed_as(op: Op, n: i64, to: Option<Primitive>) -> Option<Constant>
    ensures { prefixed_as op n to ≡ result }
{
    match to {
        None => None,
        Some(to) => given_constant(to, prefixed(op, number_as(to, n))),
    }
}

/// What the operator gives of a constant: None where it doesn't take it.
pub fn prefixed_constant(op: Op, constant: &Constant) -> Option<Constant>
    ensures { prefixed_constant op constant.now ≡ result }
{
    match constant {
        Constant::Whole { value, of } => prefixed_as(op, *value, prefix_on(op, *of)),
        Constant::Text(_) => None,
    }
}
