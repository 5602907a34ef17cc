//! A character of a source behind its Unicode escapes (JLS 3.3), and its class.
ghost use Rattle.std.specs.Prelude.{◌≡◌, true, ◌==◌, ◌&&◌, nat_le, ◌≤◌, length, take, drop};
ghost use Rattle.std.specs.Char.{digit_value};
ghost use Rattle.std.specs.Option.{SomeIff};
ghost use Rattle.jc_lexer.specs.Symbols.{is_word_start, is_word_part, is_decimal, is_high, is_line_end, is_break, is_space, passes, code_at, from_at, run_length};

/// A character of a decoded text: its code point, or a UTF-16 unit that is half of no pair, and the offset of its first byte
/// in the source. The last symbol of a text is a mark of how the text ends, at the offset behind what was decoded.
#[derive(Clone, Copy, Debug)]
pub struct Symbol {
    pub code: u32,
    pub from: u32,
}

/// The mark at the end of a source.
pub const END: u32 = 0x11_0000;
/// The mark where bytes are no UTF-8.
pub const NOT_UTF8: u32 = 0x11_0001;
/// The mark where a Unicode escape is malformed.
pub const BAD_ESCAPE: u32 = 0x11_0002;

/// A class of characters that stand in a row.
#[derive(Clone, Copy, Debug, PartialEq, Eq)]
pub enum Class {
    /// White space (JLS 3.6).
    Space,
    /// What a comment to the end of its line goes on with.
    Line,
    /// Decimal digits and underscores.
    Digits,
    /// Hexadecimal digits and underscores.
    HexDigits,
}

/// Whether the code is this ASCII character.
pub fn is(code: u32, ascii: u8) -> bool
    ensures { result ≡ (code == ascii) }
{
    code == u32::from(ascii)
}

/// Whether the code lies between these ASCII characters.
pub fn is_within(code: u32, first: u8, last: u8) -> bool
    ensures { result ≡ (nat_le first code && nat_le code last) }
{
    u32::from(first) <= code && code <= u32::from(last)
}

/// The character, if it may begin an identifier.
pub fn word_start(code: u32) -> Option<char>
    ensures { SomeIff result (is_word_start code ≡ true) code }
{
    let ch = char::from_u32(code)?;
    if unicode_ident::is_xid_start(ch) || ch == '_' {
        Some(ch)
    } else {
        None
    }
}

/// The character, if it may go on an identifier.
pub fn word_part(code: u32) -> Option<char>
    ensures { SomeIff result (is_word_part code ≡ true) code }
{
    let ch = char::from_u32(code)?;
    if unicode_ident::is_xid_continue(ch) {
        Some(ch)
    } else {
        None
    }
}

/// The value of a digit or a letter, from 0 for `0` to 35 for `z`, and 36 for any other character.
pub fn digit_value(code: u32) -> u32
    ensures { result ≡ digit_value code }
{
    if code < 48 {
        36
    } else if code < 58 {
        code - 48
    } else if code < 65 {
        36
    } else if code < 91 {
        code - 55
    } else if code < 97 {
        36
    } else if code < 123 {
        code - 87
    } else {
        36
    }
}

pub fn is_decimal(code: u32) -> bool
    ensures { result ≡ is_decimal code }
{
    is_within(code, b'0', b'9')
}

pub fn is_line_end(code: u32) -> bool
    ensures { result ≡ is_line_end code }
{
    is(code, b'\n') || is(code, b'\r') || code == END
}

pub fn is_break(code: u32) -> bool
    ensures { result ≡ is_break code }
{
    code == NOT_UTF8 || code == BAD_ESCAPE
}

/// Whether a UTF-16 unit is the first of a pair.
pub fn is_high(code: u32) -> bool
    ensures { result ≡ is_high code }
{
    0xD800 <= code && code <= 0xDBFF
}

pub fn is_space(code: u32) -> bool
    ensures { result ≡ is_space code }
{
    is(code, b' ') || is(code, b'\t') || is(code, b'\n') || is(code, b'\r') || is(code, 12)
}

fn passes(class: Class, code: u32) -> bool
    ensures { result ≡ passes class code }
{
    match class {
        Class::Space => is_space(code),
        Class::Line => !is_line_end(code) && !is_break(code),
        Class::Digits => digit_value(code) < 10 || is(code, b'_'),
        Class::HexDigits => digit_value(code) < 16 || is(code, b'_'),
    }
}

/// The code of a symbol, by its place, and that of an end behind them all.
pub fn code_at(text: &[Symbol], place: usize) -> u32
    ensures { result ≡ code_at text.now place }
{
    match text.get(place) {
        Some(symbol) => symbol.code,
        None => END,
    }
}

/// The offset of a symbol, by its place.
pub fn from_at(text: &[Symbol], place: usize) -> u32
    ensures { result ≡ from_at text.now place }
{
    match text.get(place) {
        Some(symbol) => symbol.from,
        None => 0,
    }
}

/// How many symbols from the first one on are of the class.
pub fn run_length(class: Class, text: &[Symbol]) -> usize
    ensures value { result ≡ run_length class text.now }
    ensures within { result ≤ length text.now }
{
    for (n, symbol) in text.iter().enumerate() {
        if !passes(class, symbol.code) {
            return n;
        }
    }
    text.len()
}

/// The first symbols, of which there may be fewer.
pub fn front(text: &[Symbol], len: usize) -> &[Symbol]
    ensures { result.now ≡ take len text.now }
{
    if len <= text.len() {
        text.split_at(len).0
    } else {
        text
    }
}

/// What stands behind the first symbols.
pub fn behind(text: &[Symbol], len: usize) -> &[Symbol]
    ensures { result.now ≡ drop len text.now }
{
    if len <= text.len() {
        text.split_at(len).1
    } else {
        text.split_at(text.len()).1
    }
}
