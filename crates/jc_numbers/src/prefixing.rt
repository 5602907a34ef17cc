//! Operators on one number (JLS 15.15).
ghost use Rattle.std.specs.Prelude.{◌≡◌};
ghost use Rattle.std.specs.Int.{w32, w64};
ghost use Rattle.jc_heaps.specs.Numbers.{of_number, prefixed, stepped, truth};
ghost use Rattle.jc_running.specs.declared.value.Value.TheVariants.{Whole, Long};

use crate::operating::truth;
use jc_heaps::Given;
use jc_running::Value;
use jc_types::Op;

fn of_int(op: Op, a: i32) -> Given
    ensures { result ≡ of_number op w32 Whole a }
{
    match op {
        Op::Positive => Given::Gives(Value::Whole(a)),
        Op::Negative => Given::Gives(Value::Whole(a.wrapping_neg())),
        Op::Complement => Given::Gives(Value::Whole(!a)),
        Op::Not => Given::Gives(truth(a == 0)),
        _ => Given::Unfit,
    }
}

fn of_long(op: Op, a: i64) -> Given
    ensures { result ≡ of_number op w64 Long a }
{
    match op {
        Op::Positive => Given::Gives(Value::Long(a)),
        Op::Negative => Given::Gives(Value::Long(a.wrapping_neg())),
        Op::Complement => Given::Gives(Value::Long(!a)),
        Op::Not => Given::Gives(truth(a == 0)),
        _ => Given::Unfit,
    }
}

/// A prefix operator but for `++` and `--` (JLS 15.15.3 to 15.15.6).
pub fn prefixed(op: Op, value: Value) -> Given
    ensures { result ≡ prefixed op value }
{
    match value {
        Value::Whole(a) => of_int(op, a),
        Value::Long(a) => of_long(op, a),
        Value::Address(_) => Given::Unfit,
        Value::Null => Given::Unfit,
    }
}

/// One more, or one less (JLS 15.14.2, 15.14.3, 15.15.1, 15.15.2).
pub fn stepped(op: Op, value: Value) -> Given
    ensures { result ≡ stepped op value }
{
    match op {
        Op::Increment => match value {
            Value::Whole(a) => Given::Gives(Value::Whole(a.wrapping_add(1))),
            Value::Long(a) => Given::Gives(Value::Long(a.wrapping_add(1))),
            Value::Address(_) => Given::Unfit,
            Value::Null => Given::Unfit,
        },
        Op::Decrement => match value {
            Value::Whole(a) => Given::Gives(Value::Whole(a.wrapping_sub(1))),
            Value::Long(a) => Given::Gives(Value::Long(a.wrapping_sub(1))),
            Value::Address(_) => Given::Unfit,
            Value::Null => Given::Unfit,
        },
        _ => Given::Unfit,
    }
}
