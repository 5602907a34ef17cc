//! Integer literals, and the forms of floating-point literals (JLS 3.10.1, 3.10.2).
ghost use Rattle.std.specs.Prelude.{◌≡◌, ◌+◌, ◌*◌, ◌^◌, ◌<◌, ◌≤◌, length};
ghost use Rattle.std.specs.Option.{SomeIff};
ghost use Rattle.jc_lexer.specs.Numbers.{whole_value, whole, exponent, fraction, power, hex_point, hex_tail, decimal_after, decimal_number, hex_after, hex_number, binary_after, binary_number, number, HasSymbols};

use crate::symbol::{
    Class, Symbol, behind, code_at, digit_value, front, is, is_break, is_decimal, run_length,
};

/// What a text that begins with a digit begins with.
#[derive(Clone, Copy, Debug)]
pub enum Numeral {
    /// A whole literal of this many symbols, its suffix left out.
    Whole {
        value: u64,
        decimal: bool,
        len: usize,
    },
    Malformed,
    Real,
    /// The text breaks off before that is known.
    Cut,
}

/// Whether there follows what makes a literal a floating-point one, or the text breaks off before that is known.
#[derive(Clone, Copy, Debug)]
pub enum Tail {
    Follows,
    Absent,
    Broken,
}

/// The value with one more digit behind it, if it is below 2^64.
fn appended(value: u64, base: u32, digit: u32) -> Option<u64>
    ensures { SomeIff result (value * base + digit < 2 ^ 64) (value * base + digit) }
{
    value
        .checked_mul(u64::from(base))?
        .checked_add(u64::from(digit))
}

/// The value that digits and underscores spell in a base, if each digit is below it and the value is below 2^64.
#[tactic(auto, unfolding(crate::specs::Numbers::whole_from))]
fn whole_value(base: u32, digits: &[Symbol]) -> Option<u64>
    requires { 2 ≤ base }
    ensures { result ≡ whole_value base digits.now }
{
    let mut value: u64 = 0;
    for digit in digits {
        if is(digit.code, b'_') {
            continue;
        }
        let next = digit_value(digit.code);
        if base <= next {
            return None;
        }
        value = appended(value, base, next)?;
    }
    Some(value)
}

fn whole(base: u32, decimal: bool, len: usize, digits: &[Symbol]) -> Numeral
    requires { 2 ≤ base }
    ensures value { result ≡ whole base decimal len digits.now }
    ensures some { 0 < len → HasSymbols result }
{
    match whole_value(base, digits) {
        Some(value) => Numeral::Whole {
            value,
            decimal,
            len,
        },
        None => Numeral::Malformed,
    }
}

/// Whether a text is the rest of an exponent behind its letter.
#[tactic(auto, unfolding(crate::specs::Numbers::exponent))]
fn exponent(text: &[Symbol]) -> Tail
    ensures { result ≡ exponent text.now }
{
    let first = code_at(text, 0);
    if is_decimal(first) {
        return Tail::Follows;
    }
    if is_break(first) {
        return Tail::Broken;
    }
    if !is(first, b'+') && !is(first, b'-') {
        return Tail::Absent;
    }
    let second = code_at(text, 1);
    if is_decimal(second) {
        Tail::Follows
    } else if is_break(second) {
        Tail::Broken
    } else {
        Tail::Absent
    }
}

/// What follows decimal digits.
#[tactic(auto, unfolding(crate::specs::Numbers::fraction))]
fn fraction(text: &[Symbol]) -> Tail
    ensures { result ≡ fraction text.now }
{
    let first = code_at(text, 0);
    if is_break(first) {
        return Tail::Broken;
    }
    if is(first, b'e') || is(first, b'E') {
        return exponent(behind(text, 1));
    }
    let letter = is(first, b'f') || is(first, b'F') || is(first, b'd') || is(first, b'D');
    if is(first, b'.') || letter {
        Tail::Follows
    } else {
        Tail::Absent
    }
}

/// What follows the digits of a hexadecimal floating-point literal.
#[tactic(auto, unfolding(crate::specs::Numbers::power))]
fn power(text: &[Symbol]) -> Tail
    ensures { result ≡ power text.now }
{
    let first = code_at(text, 0);
    if is_break(first) {
        return Tail::Broken;
    }
    if is(first, b'p') || is(first, b'P') {
        exponent(behind(text, 1))
    } else {
        Tail::Absent
    }
}

/// What follows the point behind hexadecimal digits, of which there are `some`.
#[tactic(auto, unfolding(crate::specs::Numbers::hex_point))]
fn hex_point(some: bool, text: &[Symbol]) -> Tail
    ensures { result ≡ hex_point some text.now }
{
    if is(code_at(text, 0), b'_') {
        return Tail::Absent;
    }
    let len = run_length(Class::HexDigits, text);
    let rest = behind(text, len);
    if is_break(code_at(rest, 0)) {
        return Tail::Broken;
    }
    let digits = if len == 0 {
        some
    } else {
        !is(code_at(text, len - 1), b'_')
    };
    if digits { power(rest) } else { Tail::Absent }
}

/// What follows hexadecimal digits, of which there are `some`.
#[tactic(auto, unfolding(crate::specs::Numbers::hex_tail))]
fn hex_tail(some: bool, text: &[Symbol]) -> Tail
    ensures { result ≡ hex_tail some text.now }
{
    let first = code_at(text, 0);
    if is(first, b'.') {
        return hex_point(some, behind(text, 1));
    }
    if some {
        return power(text);
    }
    if is_break(first) {
        Tail::Broken
    } else {
        Tail::Absent
    }
}

#[tactic(auto, unfolding(crate::specs::Numbers::decimal_after))]
fn decimal_after(tail: Tail, digits: &[Symbol]) -> Numeral
    ensures value { result ≡ decimal_after tail digits.now }
    ensures some { 0 < length digits.now → HasSymbols result }
{
    match tail {
        Tail::Follows => Numeral::Real,
        Tail::Broken => Numeral::Cut,
        Tail::Absent => {
            if is(code_at(digits, 0), b'0') && 1 < digits.len() {
                whole(8, false, digits.len(), digits)
            } else {
                whole(10, true, digits.len(), digits)
            }
        }
    }
}

/// The number of a text that begins with a digit and has no prefix of a base.
#[tactic(auto, unfolding(crate::specs::Numbers::decimal_number))]
fn decimal_number(text: &[Symbol]) -> Numeral
    ensures value { result ≡ decimal_number text.now }
    ensures some { HasSymbols result }
{
    let len = run_length(Class::Digits, text);
    let rest = behind(text, len);
    if is_break(code_at(rest, 0)) {
        return Numeral::Cut;
    }
    if len == 0 || is(code_at(text, len - 1), b'_') {
        return Numeral::Malformed;
    }
    decimal_after(fraction(rest), front(text, len))
}

#[tactic(auto, unfolding(crate::specs::Numbers::hex_after))]
fn hex_after(tail: Tail, digits: &[Symbol]) -> Numeral
    ensures value { result ≡ hex_after tail digits.now }
    ensures some { HasSymbols result }
{
    match tail {
        Tail::Follows => Numeral::Real,
        Tail::Broken => Numeral::Cut,
        Tail::Absent => {
            if digits.is_empty() {
                Numeral::Malformed
            } else {
                whole(16, false, digits.len() + 2, digits)
            }
        }
    }
}

/// The number of a text that stands behind `0x`.
#[tactic(auto, unfolding(crate::specs::Numbers::hex_number))]
fn hex_number(text: &[Symbol]) -> Numeral
    ensures value { result ≡ hex_number text.now }
    ensures some { HasSymbols result }
{
    if is(code_at(text, 0), b'_') {
        return Numeral::Malformed;
    }
    let len = run_length(Class::HexDigits, text);
    let rest = behind(text, len);
    if 0 < len && is(code_at(text, len - 1), b'_') {
        return if is_break(code_at(rest, 0)) {
            Numeral::Cut
        } else {
            Numeral::Malformed
        };
    }
    hex_after(hex_tail(0 < len, rest), front(text, len))
}

/// The number of a text that stands behind `0b`, by the value of its digits and their number.
#[tactic(auto, unfolding(crate::specs::Numbers::binary_after))]
fn binary_after(value: Option<u64>, len: usize, text: &[Symbol]) -> Numeral
    requires { len ≤ length text.now }
    ensures value { result ≡ binary_after value len text.now }
    ensures some { HasSymbols result }
{
    let Some(value) = value else {
        return Numeral::Malformed;
    };
    if is(code_at(text, 0), b'_') {
        return Numeral::Malformed;
    }
    if is_break(code_at(text, len)) {
        return Numeral::Cut;
    }
    if len == 0 || is(code_at(text, len - 1), b'_') {
        return Numeral::Malformed;
    }
    Numeral::Whole {
        value,
        decimal: false,
        len: len + 2,
    }
}

#[tactic(auto, unfolding(crate::specs::Numbers::binary_number))]
fn binary_number(text: &[Symbol]) -> Numeral
    ensures value { result ≡ binary_number text.now }
    ensures some { HasSymbols result }
{
    let len = run_length(Class::Digits, text);
    binary_after(whole_value(2, front(text, len)), len, text)
}

/// The number that a text begins with.
#[tactic(auto, unfolding(crate::specs::Numbers::number))]
pub fn number(text: &[Symbol]) -> Numeral
    ensures value { result ≡ number text.now }
    ensures some { HasSymbols result }
{
    let letter = code_at(text, 1);
    if !is(code_at(text, 0), b'0') {
        decimal_number(text)
    } else if is(letter, b'x') || is(letter, b'X') {
        hex_number(behind(text, 2))
    } else if is(letter, b'b') || is(letter, b'B') {
        binary_number(behind(text, 2))
    } else {
        decimal_number(text)
    }
}
