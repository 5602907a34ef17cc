//! Character and string literals, and their escapes (JLS 3.10.4 to 3.10.6).
ghost use Rattle.std.specs.Prelude.{◌≡◌, ◌<◌, ◌≤◌, length, IfOk, IsTrue};
ghost use Rattle.jc_lexer.specs.Symbols.{code_at};
ghost use Rattle.jc_lexer.specs.Literals.{is_octal, flaw_at, simple_escape, octal_escape, escape_sequence, element_at, FitsIn, char_after, char_body, string_body, IsWithin, IsBodyWithin};

use crate::symbol::{Symbol, behind, code_at, is, is_break, is_line_end, is_within};
use jc_rules::{Items, WantOfMemory};
use std::alloc::Global;

/// Why a text goes on no character or string literal.
#[derive(Clone, Copy, Debug)]
pub enum Flaw {
    /// What stands there can't.
    Wrong,
    /// The line or the source ends.
    Open,
    /// The text breaks off.
    Torn,
}

/// What a text begins with inside of a literal.
#[derive(Clone, Copy, Debug)]
pub enum Element {
    /// A unit, and how many symbols spell it.
    Unit { unit: u16, len: usize },
    /// The two units of a symbol.
    Pair { high: u16, low: u16 },
    Flawed(Flaw),
}

/// What stands behind the quote that begins a character literal: its unit, and how many symbols spell it and the closing quote.
#[derive(Clone, Copy, Debug)]
pub enum CharBody {
    Shut { unit: u16, len: usize },
    Amiss(Flaw),
}

/// What stands behind the quote that begins a string literal: its units, and how many symbols spell them and the closing quote.
#[derive(Debug, Drop)]
pub enum StringBody {
    Closed { units: Items<u16>, len: usize },
    Broken(Flaw),
}

fn is_octal(code: u32) -> bool
    ensures { result ≡ is_octal code }
{
    is_within(code, b'0', b'7')
}

fn flaw_at(code: u32) -> Flaw
    ensures { result ≡ flaw_at code }
{
    if is_line_end(code) {
        Flaw::Open
    } else if is_break(code) {
        Flaw::Torn
    } else {
        Flaw::Wrong
    }
}

/// The unit of an escape sequence that isn't octal, by its letter.
fn simple_escape(letter: u32) -> Option<u16>
    ensures { result ≡ simple_escape letter }
{
    match letter {
        98 => Some(8),
        116 => Some(9),
        110 => Some(10),
        102 => Some(12),
        114 => Some(13),
        34 => Some(34),
        39 => Some(39),
        92 => Some(92),
        _ => None,
    }
}

/// The octal escape that a text begins with.
#[tactic(auto, unfolding(crate::specs::Literals::octal_escape))]
fn octal_escape(text: &[Symbol]) -> Element
    requires { IsTrue (is_octal (code_at text.now 1)) }
    ensures value { result ≡ octal_escape text.now }
    ensures fits { FitsIn text.now result }
{
    let first = (code_at(text, 1) - 48) as u16;
    let second = code_at(text, 2);
    if !is_octal(second) {
        return Element::Unit {
            unit: first,
            len: 2,
        };
    }
    let two = first * 8 + (second - 48) as u16;
    let third = code_at(text, 3);
    if first < 4 && is_octal(third) {
        Element::Unit {
            unit: two * 8 + (third - 48) as u16,
            len: 4,
        }
    } else {
        Element::Unit { unit: two, len: 3 }
    }
}

/// The escape sequence of a text that begins with a backslash.
#[tactic(auto, unfolding(crate::specs::Literals::escape_sequence))]
fn escape_sequence(text: &[Symbol]) -> Element
    ensures value { result ≡ escape_sequence text.now }
    ensures fits { FitsIn text.now result }
{
    let letter = code_at(text, 1);
    if is_octal(letter) {
        return octal_escape(text);
    }
    match simple_escape(letter) {
        Some(unit) => Element::Unit { unit, len: 2 },
        None => Element::Flawed(flaw_at(letter)),
    }
}

/// What a text begins with inside of a literal.
#[tactic(auto, unfolding(crate::specs::Literals::element_at))]
fn element_at(text: &[Symbol]) -> Element
    ensures value { result ≡ element_at text.now }
    ensures fits { FitsIn text.now result }
{
    let code = code_at(text, 0);
    if is_line_end(code) {
        return Element::Flawed(Flaw::Open);
    }
    if is_break(code) {
        return Element::Flawed(Flaw::Torn);
    }
    if is(code, b'\\') {
        return escape_sequence(text);
    }
    if code < 0x1_0000 {
        return Element::Unit {
            unit: code as u16,
            len: 1,
        };
    }
    let offset = code - 0x1_0000;
    Element::Pair {
        high: 0xD800 + (offset / 1024 % 1024) as u16,
        low: 0xDC00 + (offset % 1024) as u16,
    }
}

fn char_after(element: Element, text: &[Symbol]) -> CharBody
    requires { FitsIn text.now element }
    ensures value { result ≡ char_after element text.now }
    ensures room { IsWithin (length text.now) result }
{
    match element {
        Element::Unit { unit, len } => {
            let next = code_at(text, len);
            if is(next, b'\'') {
                CharBody::Shut { unit, len: len + 1 }
            } else {
                CharBody::Amiss(flaw_at(next))
            }
        }
        Element::Pair { .. } => CharBody::Amiss(Flaw::Wrong),
        Element::Flawed(flaw) => CharBody::Amiss(flaw),
    }
}

/// The character literal whose opening quote stands before the text.
#[tactic(auto, unfolding(crate::specs::Literals::char_body))]
pub fn char_body(text: &[Symbol]) -> CharBody
    ensures value { result ≡ char_body text.now }
    ensures room { IsWithin (length text.now) result }
{
    if is(code_at(text, 0), b'\'') {
        CharBody::Amiss(Flaw::Wrong)
    } else {
        char_after(element_at(text), text)
    }
}

/// The string literal whose opening quote stands before the text.
pub fn string_body(alloc: Global, text: &[Symbol]) -> Result<StringBody, WantOfMemory>
    ensures value { IfOk result (λ body. body ≡ string_body text.now) }
    ensures room { IfOk result (λ body. IsBodyWithin (length text.now) body) }
{
    let mut units = Items::new(alloc);
    let mut len = 0;
    let mut rest = text;
    while !is(code_at(rest, 0), b'"') {
        match element_at(rest) {
            Element::Unit { unit, len: taken } => {
                units.push(unit)?;
                rest = behind(rest, taken);
                len += taken;
            }
            Element::Pair { high, low } => {
                units.push(high)?;
                units.push(low)?;
                rest = behind(rest, 1);
                len += 1;
            }
            Element::Flawed(flaw) => return Ok(StringBody::Broken(flaw)),
        }
    }
    Ok(StringBody::Closed {
        units,
        len: len + 1,
    })
}
