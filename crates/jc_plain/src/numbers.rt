//! Whole numbers of 32 and 64 bits.
ghost use Rattle.std.specs.Prelude.{◌≡◌, ◌%◌, ◌^◌, ◌<◌, false, pos};
ghost use Rattle.std.specs.Int.{w8, w16, w32, cast_signed, cast_unsigned};
ghost use Rattle.jc_jvm.specs.Plain.{int_shift, long_shift, compared, int_of_two, long_of_two, int_shifted, long_shifted, is_zero, int_quotient, long_quotient, low_int, of_int, of_long, holds};

use jc_jvm::{Comparison, Division, IntConversion, LongConversion, Operator, Shift, Value};

fn int_distance(by: i32) -> u32
    ensures value { result ≡ int_shift by }
    ensures small { result < 32 }
{
    by.cast_unsigned() % 32
}

fn long_distance(by: i32) -> u32
    ensures value { result ≡ long_shift by }
    ensures small { result < 64 }
{
    by.cast_unsigned() % 64
}

pub fn of_two_ints(how: Operator, a: i32, b: i32) -> i32
    ensures { result ≡ int_of_two how a b }
{
    match how {
        Operator::Add => a.wrapping_add(b),
        Operator::Subtract => a.wrapping_sub(b),
        Operator::Multiply => a.wrapping_mul(b),
        Operator::And => a & b,
        Operator::Or => a | b,
        Operator::Xor => a ^ b,
    }
}

pub fn of_two_longs(how: Operator, a: i64, b: i64) -> i64
    ensures { result ≡ long_of_two how a b }
{
    match how {
        Operator::Add => a.wrapping_add(b),
        Operator::Subtract => a.wrapping_sub(b),
        Operator::Multiply => a.wrapping_mul(b),
        Operator::And => a & b,
        Operator::Or => a | b,
        Operator::Xor => a ^ b,
    }
}

pub fn shifted_int(how: Shift, a: i32, b: i32) -> i32
    ensures { result ≡ int_shifted how a b }
{
    match how {
        Shift::Left => a << int_distance(b),
        Shift::Right => a >> int_distance(b),
        Shift::Unsigned => (a.cast_unsigned() >> int_distance(b)).cast_signed(),
    }
}

pub fn shifted_long(how: Shift, a: i64, b: i32) -> i64
    ensures { result ≡ long_shifted how a b }
{
    match how {
        Shift::Left => a << long_distance(b),
        Shift::Right => a >> long_distance(b),
        Shift::Unsigned => (a.cast_unsigned() >> long_distance(b)).cast_signed(),
    }
}

pub fn no_int(n: i32) -> bool
    ensures { result ≡ is_zero n }
{
    n == 0
}

pub fn no_long(n: i64) -> bool
    ensures { result ≡ is_zero n }
{
    n == 0
}

pub fn of_int_division(how: Division, a: i32, b: i32) -> i32
    requires { is_zero b ≡ false }
    ensures { result ≡ int_quotient how a b }
{
    match how {
        Division::Quotient => a.wrapping_div(b),
        Division::Remainder => a.wrapping_rem(b),
    }
}

pub fn of_long_division(how: Division, a: i64, b: i64) -> i64
    requires { is_zero b ≡ false }
    ensures { result ≡ long_quotient how a b }
{
    match how {
        Division::Quotient => a.wrapping_div(b),
        Division::Remainder => a.wrapping_rem(b),
    }
}

fn int_low(n: i64) -> i32
    ensures { result ≡ low_int n }
{
    ((n.cast_unsigned() % 4294967296) as u32).cast_signed()
}

/// An int cut to a smaller whole number.
pub fn low_byte(n: i32) -> i32
    ensures { result ≡ cast_signed w8 (cast_unsigned w32 n % 2 ^ 8) }
{
    i32::from(((n.cast_unsigned() % 256) as u8).cast_signed())
}

/// An int cut to a smaller whole number.
pub fn low_char(n: i32) -> i32
    ensures { result ≡ pos (cast_unsigned w32 n % 2 ^ 16) }
{
    (n.cast_unsigned() % 65536) as i32
}

/// An int cut to a smaller whole number.
pub fn low_short(n: i32) -> i32
    ensures { result ≡ cast_signed w16 (cast_unsigned w32 n % 2 ^ 16) }
{
    i32::from(((n.cast_unsigned() % 65536) as u16).cast_signed())
}

pub fn of_one_int(how: IntConversion, n: i32) -> Value
    ensures { result ≡ of_int how n }
{
    match how {
        IntConversion::Negated => Value::Whole(n.wrapping_neg()),
        IntConversion::Widened => Value::Long(i64::from(n)),
        IntConversion::ToByte => Value::Whole(low_byte(n)),
        IntConversion::ToChar => Value::Whole(low_char(n)),
        IntConversion::ToShort => Value::Whole(low_short(n)),
    }
}

pub fn of_one_long(how: LongConversion, n: i64) -> Value
    ensures { result ≡ of_long how n }
{
    match how {
        LongConversion::LongNegated => Value::Long(n.wrapping_neg()),
        LongConversion::Narrowed => Value::Whole(int_low(n)),
    }
}

pub fn order_of(a: i64, b: i64) -> i32
    ensures { result ≡ compared a b }
{
    if a < b {
        -1
    } else if b < a {
        1
    } else {
        0
    }
}

pub fn passes(test: Comparison, a: i32, b: i32) -> bool
    ensures { result ≡ holds test a b }
{
    match test {
        Comparison::Equal => a == b,
        Comparison::Unequal => a != b,
        Comparison::Less => a < b,
        Comparison::NotLess => b <= a,
        Comparison::Greater => b < a,
        Comparison::NotGreater => a <= b,
    }
}
