//! Conversions between primitive types (JLS 5.1.2, 5.1.3).
ghost use Rattle.std.specs.Prelude.{◌≡◌, ◌≤◌, ◌<◌, ◌^◌, pos};
ghost use Rattle.std.specs.Int.{w8, w16, w32, int_wrap, cast_unsigned};
ghost use Rattle.jc_heaps.specs.Numbers.{number_as, element_as, converted, boolean_of, whole_of};

use jc_running::Value;
use jc_types::Primitive;

/// A number as a value of a primitive type: its low bits.
pub fn number_as(to: Primitive, n: i64) -> Value
    ensures { result ≡ number_as to n }
{
    match to {
        Primitive::Boolean => Value::Whole(low_int(n)),
        Primitive::Byte => Value::Whole(low_byte(n)),
        Primitive::Short => Value::Whole(low_short(n)),
        Primitive::Char => Value::Whole(low_unit(n)),
        Primitive::Int => Value::Whole(low_int(n)),
        Primitive::Long => Value::Long(n),
    }
}

fn low_byte(n: i64) -> i32
    ensures { result ≡ int_wrap w8 n }
{
    let low = n.rem_euclid(256).unsigned_abs() as u8;
    low.cast_signed() as i32
}

fn low_short(n: i64) -> i32
    ensures { result ≡ int_wrap w16 n }
{
    let low = n.rem_euclid(65536).unsigned_abs() as u16;
    low.cast_signed() as i32
}

fn low_unit(n: i64) -> i32
    ensures { result ≡ pos (cast_unsigned w16 (int_wrap w16 n)) }
{
    let low = n.rem_euclid(65536).unsigned_abs() as u16;
    low.cast_signed().cast_unsigned() as i32
}

fn low_int(n: i64) -> i32
    ensures { result ≡ int_wrap w32 n }
{
    let low = n.rem_euclid(4294967296).unsigned_abs() as u32;
    low.cast_signed()
}

/// A value as one of a primitive type: the low bits of its number (JLS 5.1.2, 5.1.3). A reference has no number.
pub fn converted(to: Primitive, value: Value) -> Option<Value>
    ensures { result ≡ converted to value }
{
    match value {
        Value::Whole(n) => Some(number_as(to, n as i64)),
        Value::Long(n) => Some(number_as(to, n)),
        Value::Address(_) => None,
        Value::Null => None,
    }
}

/// A value as an element of an array of a primitive type keeps it: the low bits of an int, and of a boolean one of them (JVMS 6.5, bastore).
pub fn element_as(of: Primitive, value: Value) -> Value
    ensures { result ≡ element_as of value }
{
    match (of, value) {
        (Primitive::Boolean, Value::Whole(n)) => Value::Whole((n.cast_unsigned() % 2) as i32),
        (Primitive::Byte, Value::Whole(n)) => number_as(of, n as i64),
        (Primitive::Short, Value::Whole(n)) => number_as(of, n as i64),
        (Primitive::Char, Value::Whole(n)) => number_as(of, n as i64),
        _ => value,
    }
}

/// The truth of a value of type `boolean`.
pub fn boolean_of(value: Value) -> Option<bool>
    ensures { result ≡ boolean_of value }
{
    match value {
        Value::Whole(n) => Some(n != 0),
        Value::Long(_) => None,
        Value::Address(_) => None,
        Value::Null => None,
    }
}

/// The number of a value that is no long.
pub fn whole_of(value: Value) -> Option<i32>
    ensures { result ≡ whole_of value }
{
    match value {
        Value::Whole(n) => Some(n),
        Value::Long(_) => None,
        Value::Address(_) => None,
        Value::Null => None,
    }
}
