//! Operators on two numbers (JLS 15.17 to 15.22).
ghost use Rattle.std.specs.Prelude.{◌≡◌};
ghost use Rattle.std.specs.Int.{w32, w64};
ghost use Rattle.jc_heaps.specs.Numbers.{truth, of_numbers, of_references, matched, operated, is_shift, shifted_by};
ghost use Rattle.jc_running.specs.declared.value.Value.TheVariants.{Whole, Long};
ghost use Rattle.jc_types.specs.declared.constant.Op.TheVariants.{Divide, Remainder};

use crate::shifting::{is_shift, shifted_by};
use jc_heaps::Given;
use jc_running::Value;
use jc_types::Op;

/// A boolean as a value.
pub fn truth(holds: bool) -> Value
    ensures { result ≡ truth holds }
{
    if holds {
        Value::Whole(1)
    } else {
        Value::Whole(0)
    }
}

// Division by zero gives no number, and the least number over -1 is itself (JLS 15.17.2).
fn int_quotient(a: i32, b: i32) -> Given
    ensures { result ≡ of_numbers Divide w32 Whole a b }
{
    if b == 0 {
        return Given::ByZero;
    }
    Given::Gives(Value::Whole(a.wrapping_div(b)))
}

fn int_remainder(a: i32, b: i32) -> Given
    ensures { result ≡ of_numbers Remainder w32 Whole a b }
{
    if b == 0 {
        return Given::ByZero;
    }
    Given::Gives(Value::Whole(a.wrapping_rem(b)))
}

fn of_ints(op: Op, a: i32, b: i32) -> Given
    ensures { result ≡ of_numbers op w32 Whole a b }
{
    match op {
        Op::Times => Given::Gives(Value::Whole(a.wrapping_mul(b))),
        Op::Divide => int_quotient(a, b),
        Op::Remainder => int_remainder(a, b),
        Op::Plus => Given::Gives(Value::Whole(a.wrapping_add(b))),
        Op::Minus => Given::Gives(Value::Whole(a.wrapping_sub(b))),
        Op::And => Given::Gives(Value::Whole(a & b)),
        Op::Or => Given::Gives(Value::Whole(a | b)),
        Op::Xor => Given::Gives(Value::Whole(a ^ b)),
        Op::Less => Given::Gives(truth(a < b)),
        Op::Greater => Given::Gives(truth(a > b)),
        Op::AtMost => Given::Gives(truth(a <= b)),
        Op::AtLeast => Given::Gives(truth(a >= b)),
        Op::Equal => Given::Gives(truth(a == b)),
        Op::NotEqual => Given::Gives(truth(a != b)),
        _ => Given::Unfit,
    }
}

// Division by zero gives no number, and the least number over -1 is itself (JLS 15.17.2).
fn long_quotient(a: i64, b: i64) -> Given
    ensures { result ≡ of_numbers Divide w64 Long a b }
{
    if b == 0 {
        return Given::ByZero;
    }
    Given::Gives(Value::Long(a.wrapping_div(b)))
}

fn long_remainder(a: i64, b: i64) -> Given
    ensures { result ≡ of_numbers Remainder w64 Long a b }
{
    if b == 0 {
        return Given::ByZero;
    }
    Given::Gives(Value::Long(a.wrapping_rem(b)))
}

fn of_longs(op: Op, a: i64, b: i64) -> Given
    ensures { result ≡ of_numbers op w64 Long a b }
{
    match op {
        Op::Times => Given::Gives(Value::Long(a.wrapping_mul(b))),
        Op::Divide => long_quotient(a, b),
        Op::Remainder => long_remainder(a, b),
        Op::Plus => Given::Gives(Value::Long(a.wrapping_add(b))),
        Op::Minus => Given::Gives(Value::Long(a.wrapping_sub(b))),
        Op::And => Given::Gives(Value::Long(a & b)),
        Op::Or => Given::Gives(Value::Long(a | b)),
        Op::Xor => Given::Gives(Value::Long(a ^ b)),
        Op::Less => Given::Gives(truth(a < b)),
        Op::Greater => Given::Gives(truth(a > b)),
        Op::AtMost => Given::Gives(truth(a <= b)),
        Op::AtLeast => Given::Gives(truth(a >= b)),
        Op::Equal => Given::Gives(truth(a == b)),
        Op::NotEqual => Given::Gives(truth(a != b)),
        _ => Given::Unfit,
    }
}

// Whether two references are the same (JLS 15.21.3).
fn of_references(op: Op, same: bool) -> Given
    ensures { result ≡ of_references op same }
{
    match op {
        Op::Equal => Given::Gives(truth(same)),
        Op::NotEqual => Given::Gives(truth(!same)),
        _ => Given::Unfit,
    }
}

fn matched(op: Op, left: Value, right: Value) -> Given
    ensures { result ≡ matched op left right }
{
    match (left, right) {
        (Value::Whole(a), Value::Whole(b)) => of_ints(op, a, b),
        (Value::Long(a), Value::Long(b)) => of_longs(op, a, b),
        (Value::Address(a), Value::Address(b)) => of_references(op, a == b),
        (Value::Address(_), Value::Null) => of_references(op, false),
        (Value::Null, Value::Address(_)) => of_references(op, false),
        (Value::Null, Value::Null) => of_references(op, true),
        _ => Given::Unfit,
    }
}

/// An operator between two values (JLS 15.17 to 15.22).
pub fn operated(op: Op, left: Value, right: Value) -> Given
    ensures { result ≡ operated op left right }
{
    if is_shift(op) {
        shifted_by(op, left, right)
    } else {
        matched(op, left, right)
    }
}
