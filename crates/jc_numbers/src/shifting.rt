//! Shifts (JLS 15.19).
ghost use Rattle.std.specs.Prelude.{◌≡◌, ◌%◌};
ghost use Rattle.std.specs.Int.{w32, w64};
ghost use Rattle.jc_heaps.specs.Numbers.{shifted, shifted_by, is_shift, distance};
ghost use Rattle.jc_running.specs.declared.value.Value.TheVariants.{Whole, Long};

use jc_heaps::Given;
use jc_running::Value;
use jc_types::Op;

pub fn is_shift(op: Op) -> bool
    ensures { result ≡ is_shift op }
{
    match op {
        Op::ShiftLeft => true,
        Op::ShiftRight => true,
        Op::ShiftRightUnsigned => true,
        _ => false,
    }
}

// A shift of an int by a distance below 32.
fn int_shifted(op: Op, a: i32, by: u32) -> Given
    ensures { result ≡ shifted op w32 Whole a (by % 32) }
{
    match op {
        Op::ShiftLeft => Given::Gives(Value::Whole(a.wrapping_shl(by))),
        Op::ShiftRight => Given::Gives(Value::Whole(a.wrapping_shr(by))),
        Op::ShiftRightUnsigned => Given::Gives(Value::Whole(
            a.cast_unsigned().wrapping_shr(by).cast_signed(),
        )),
        _ => Given::Unfit,
    }
}

fn long_shifted(op: Op, a: i64, by: u32) -> Given
    ensures { result ≡ shifted op w64 Long a (by % 64) }
{
    match op {
        Op::ShiftLeft => Given::Gives(Value::Long(a.wrapping_shl(by))),
        Op::ShiftRight => Given::Gives(Value::Long(a.wrapping_shr(by))),
        Op::ShiftRightUnsigned => Given::Gives(Value::Long(
            a.cast_unsigned().wrapping_shr(by).cast_signed(),
        )),
        _ => Given::Unfit,
    }
}

fn distance(value: Value) -> Option<u64>
    ensures { result ≡ distance value }
{
    match value {
        Value::Whole(n) => Some(n.cast_unsigned() as u64),
        Value::Long(n) => Some(n.cast_unsigned()),
        Value::Address(_) => None,
        Value::Null => None,
    }
}

/// A shift (JLS 15.19).
pub fn shifted_by(op: Op, value: Value, by: Value) -> Given
    ensures { result ≡ shifted_by op value (distance by) }
{
    let Some(by) = distance(by) else {
        return Given::Unfit;
    };
    match value {
        Value::Whole(a) => int_shifted(op, a, (by % 32) as u32),
        Value::Long(a) => long_shifted(op, a, (by % 64) as u32),
        Value::Address(_) => Given::Unfit,
        Value::Null => Given::Unfit,
    }
}
