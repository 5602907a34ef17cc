//! UTF-8, read a character at a time.
ghost use Rattle.std.specs.Prelude.{◌≡◌, ◌<◌, ◌≤◌, ◌^◌, length, get_or, IfOk, IfSome, IsTrue};
ghost use Rattle.jc_lexer.specs.Symbols.{is_high};
ghost use Rattle.jc_lexer.specs.Decoding.{is_tail, two_bytes, three_bytes, four_bytes, utf8, hex_digit, four_digits, escape_marks, escape, unit, is_low, paired, character, text_of, Fits, IsShort};

use crate::symbol::{BAD_ESCAPE, END, NOT_UTF8, Symbol, digit_value, is_high};
use jc_rules::{Items, WantOfMemory};
use std::alloc::Global;

/// What bytes begin with: a code and how many bytes spell it, and whether these are a backslash before which another one
/// doesn't begin a Unicode escape.
#[derive(Clone, Copy, Debug)]
pub enum Reading {
    Read { code: u32, len: usize, odd: bool },
    NotUtf8,
    BadEscape,
}

fn byte(bytes: &[u8], place: usize) -> u8
    ensures { result ≡ get_or bytes.now place 0 }
{
    if place < bytes.len() { bytes[place] } else { 0 }
}

fn is_tail(byte: u8) -> bool
    ensures { result ≡ is_tail byte }
{
    0x80 <= byte && byte <= 0xBF
}

fn two_bytes(bytes: &[u8], odd: bool) -> Reading
    ensures value { result ≡ two_bytes bytes.now odd }
    ensures fits { Fits bytes.now result }
{
    let a = byte(bytes, 0);
    let b = byte(bytes, 1);
    if !is_tail(b) {
        return Reading::NotUtf8;
    }
    let code = u32::from(a % 32) * 64 + u32::from(b % 64);
    Reading::Read { code, len: 2, odd }
}

fn three_bytes(bytes: &[u8], odd: bool) -> Reading
    ensures value { result ≡ three_bytes bytes.now odd }
    ensures fits { Fits bytes.now result }
{
    let a = byte(bytes, 0);
    let b = byte(bytes, 1);
    let c = byte(bytes, 2);
    let least = if a == 0xE0 { 0xA0 } else { 0x80 };
    let greatest = if a == 0xED { 0x9F } else { 0xBF };
    if b < least || greatest < b || !is_tail(c) {
        return Reading::NotUtf8;
    }
    let code = u32::from(a % 16) * 4096 + u32::from(b % 64) * 64 + u32::from(c % 64);
    Reading::Read { code, len: 3, odd }
}

fn four_bytes(bytes: &[u8], odd: bool) -> Reading
    ensures value { result ≡ four_bytes bytes.now odd }
    ensures fits { Fits bytes.now result }
{
    let a = byte(bytes, 0);
    let b = byte(bytes, 1);
    let c = byte(bytes, 2);
    let d = byte(bytes, 3);
    let least = if a == 0xF0 { 0x90 } else { 0x80 };
    let greatest = if a == 0xF4 { 0x8F } else { 0xBF };
    if b < least || greatest < b || !is_tail(c) || !is_tail(d) {
        return Reading::NotUtf8;
    }
    let high = u32::from(a % 8) * 262_144 + u32::from(b % 64) * 4096;
    let code = high + u32::from(c % 64) * 64 + u32::from(d % 64);
    Reading::Read { code, len: 4, odd }
}

/// The character that the bytes begin with in UTF-8.
#[tactic(auto, unfolding(crate::specs::Decoding::utf8))]
fn utf8(bytes: &[u8], odd: bool) -> Reading
    requires { 0 < length bytes.now }
    ensures value { result ≡ utf8 bytes.now odd }
    ensures fits { Fits bytes.now result }
{
    let a = byte(bytes, 0);
    if a < 0x80 {
        Reading::Read {
            code: u32::from(a),
            len: 1,
            odd,
        }
    } else if a < 0xC2 {
        Reading::NotUtf8
    } else if a < 0xE0 {
        two_bytes(bytes, odd)
    } else if a < 0xF0 {
        three_bytes(bytes, odd)
    } else if a < 0xF5 {
        four_bytes(bytes, odd)
    } else {
        Reading::NotUtf8
    }
}

fn hex_digit(byte: u8) -> Option<u32>
    ensures value { result ≡ hex_digit byte }
    ensures small { IfSome result (λ v. v < 16) }
{
    let value = digit_value(u32::from(byte));
    if value < 16 { Some(value) } else { None }
}

/// The number that four hexadecimal digits spell.
#[tactic(auto, unfolding(crate::specs::Decoding::four_digits))]
fn four_digits(bytes: &[u8]) -> Option<u32>
    ensures value { result ≡ four_digits bytes.now }
    ensures fits { IfSome result (λ code. (code < 65536) × (4 ≤ length bytes.now)) }
{
    let a = hex_digit(byte(bytes, 0))?;
    let b = hex_digit(byte(bytes, 1))?;
    let c = hex_digit(byte(bytes, 2))?;
    let d = hex_digit(byte(bytes, 3))?;
    Some(a * 4096 + b * 256 + c * 16 + d)
}

/// How many `u` the bytes begin with.
fn escape_marks(bytes: &[u8]) -> usize
    ensures value { result ≡ escape_marks bytes.now }
    ensures within { result ≤ length bytes.now }
{
    for (n, byte) in bytes.iter().enumerate() {
        if *byte != b'u' {
            return n;
        }
    }
    bytes.len()
}

/// The Unicode escape that the bytes begin with.
#[tactic(auto, unfolding(crate::specs::Decoding::escape))]
fn escape(bytes: &[u8]) -> Reading
    requires { 0 < length bytes.now }
    ensures value { result ≡ escape bytes.now }
    ensures fits { Fits bytes.now result }
{
    let (_, behind) = bytes.split_at(1);
    let marks = escape_marks(behind);
    let (_, digits) = behind.split_at(marks);
    match four_digits(digits) {
        Some(code) => Reading::Read {
            code,
            len: marks + 5,
            odd: false,
        },
        None => Reading::BadEscape,
    }
}

/// The character or the UTF-16 unit that the bytes begin with, `odd` where an odd number of backslashes stands before them.
#[tactic(auto, unfolding(crate::specs::Decoding::unit))]
fn unit(bytes: &[u8], odd: bool) -> Reading
    requires { 0 < length bytes.now }
    ensures value { result ≡ unit bytes.now odd }
    ensures fits { Fits bytes.now result }
{
    let backslash = byte(bytes, 0) == b'\\';
    if backslash && !odd && byte(bytes, 1) == b'u' {
        return escape(bytes);
    }
    utf8(bytes, backslash && !odd)
}

fn is_low(code: u32) -> bool
    ensures { result ≡ is_low code }
{
    0xDC00 <= code && code <= 0xDFFF
}

/// The character that two units make, or the first one alone where the second is no low surrogate.
fn paired(first: Reading, high: u32, taken: usize, second: Reading) -> Reading
    requires pair { IsTrue (is_high high) }
    requires room { taken < 2 ^ 32 }
    requires rest { IsShort second }
    ensures { result ≡ paired first high taken second }
{
    match second {
        Reading::Read { code, len, odd } if is_low(code) => Reading::Read {
            code: 0x1_0000 + (high - 0xD800) * 1024 + (code - 0xDC00),
            len: taken + len,
            odd,
        },
        _ => first,
    }
}

/// The character that the bytes begin with: a unit, or the pair of surrogates that two units are.
#[tactic(auto, unfolding(crate::specs::Decoding::character))]
fn character(bytes: &[u8], odd: bool) -> Reading
    requires some { 0 < length bytes.now }
    requires short { length bytes.now ≤ 16777216 }
    ensures value { result ≡ character bytes.now odd }
    ensures fits { Fits bytes.now result }
{
    // Nearly each byte of a source is a character of its own, which begins no escape.
    let byte = byte(bytes, 0);
    if byte < 0x80 && byte != b'\\' {
        return Reading::Read {
            code: u32::from(byte),
            len: 1,
            odd: false,
        };
    }
    let first = unit(bytes, odd);
    match first {
        Reading::Read { code, len, odd } if is_high(code) && len < bytes.len() => {
            let (_, behind) = bytes.split_at(len);
            paired(first, code, len, unit(behind, odd))
        }
        _ => first,
    }
}

/// The text of a source, its end marked.
pub fn decoded(alloc: Global, bytes: &[u8]) -> Result<Items<Symbol>, WantOfMemory>
    requires { length bytes.now ≤ 16777216 }
    ensures { IfOk result (λ text. text ≡ text_of bytes.now) }
{
    let mut text = Vec::with_capacity(alloc, bytes.len() + 1)?;
    let mut rest = bytes;
    let mut from = 0;
    let mut odd = false;
    while rest.len() > 0 {
        let code = match character(rest, odd) {
            Reading::Read {
                code,
                len,
                odd: next,
            } => {
                text.push(Symbol { code, from })?;
                let (_, behind) = rest.split_at(len);
                rest = behind;
                from += len as u32;
                odd = next;
                continue;
            }
            Reading::NotUtf8 => NOT_UTF8,
            Reading::BadEscape => BAD_ESCAPE,
        };
        text.push(Symbol { code, from })?;
        return Ok(Items::of(text));
    }
    text.push(Symbol { code: END, from })?;
    Ok(Items::of(text))
}
