//! Separators and operators (JLS 3.11, 3.12): the longest one is read.
ghost use Rattle.std.specs.Prelude.{◌≡◌, ◌<◌, ◌≤◌, ◌==◌, not, List, take, IfSome, IsTrue};
ghost use Rattle.std.specs.List.{list_all};
ghost use Rattle.jc_lexer.specs.declared.signs.Spelling.{Spelling};
ghost use Rattle.jc_lexer.specs.declared.signs.TheConstants.{SIGNS};
ghost use Rattle.jc_lexer.specs.declared.symbol.Symbol.{Symbol};
ghost use Rattle.jc_lexer.specs.Symbols.{code_at};
ghost use Rattle.jc_lexer.specs.Signs.{begins, sign_in, sign_at, IsLongest};

use crate::symbol::{Symbol, code_at, is};
use crate::token::Sign;

/// A sign and how it is spelled: `len` characters, and no others.
#[derive(Clone, Copy, Debug)]
pub struct Spelling {
    pub sign: Sign,
    pub len: usize,
    pub first: u8,
    pub second: u8,
    pub third: u8,
}

/// The separators and operators of JLS 3.11 and 3.12, with `@` and `...`, by their first characters: of those with one, the longer ones first.
const SIGNS: [Spelling; 43] = [
    Spelling {
        sign: Sign::Ellipsis,
        len: 3,
        first: b'.',
        second: b'.',
        third: b'.',
    },
    Spelling {
        sign: Sign::Dot,
        len: 1,
        first: b'.',
        second: 0,
        third: 0,
    },
    Spelling {
        sign: Sign::ShiftLeftAssign,
        len: 3,
        first: b'<',
        second: b'<',
        third: b'=',
    },
    Spelling {
        sign: Sign::LessEqual,
        len: 2,
        first: b'<',
        second: b'=',
        third: 0,
    },
    Spelling {
        sign: Sign::ShiftLeft,
        len: 2,
        first: b'<',
        second: b'<',
        third: 0,
    },
    Spelling {
        sign: Sign::Less,
        len: 1,
        first: b'<',
        second: 0,
        third: 0,
    },
    Spelling {
        sign: Sign::Equal,
        len: 2,
        first: b'=',
        second: b'=',
        third: 0,
    },
    Spelling {
        sign: Sign::Assign,
        len: 1,
        first: b'=',
        second: 0,
        third: 0,
    },
    Spelling {
        sign: Sign::NotEqual,
        len: 2,
        first: b'!',
        second: b'=',
        third: 0,
    },
    Spelling {
        sign: Sign::Not,
        len: 1,
        first: b'!',
        second: 0,
        third: 0,
    },
    Spelling {
        sign: Sign::AndAnd,
        len: 2,
        first: b'&',
        second: b'&',
        third: 0,
    },
    Spelling {
        sign: Sign::AndAssign,
        len: 2,
        first: b'&',
        second: b'=',
        third: 0,
    },
    Spelling {
        sign: Sign::And,
        len: 1,
        first: b'&',
        second: 0,
        third: 0,
    },
    Spelling {
        sign: Sign::OrOr,
        len: 2,
        first: b'|',
        second: b'|',
        third: 0,
    },
    Spelling {
        sign: Sign::OrAssign,
        len: 2,
        first: b'|',
        second: b'=',
        third: 0,
    },
    Spelling {
        sign: Sign::Or,
        len: 1,
        first: b'|',
        second: 0,
        third: 0,
    },
    Spelling {
        sign: Sign::Increment,
        len: 2,
        first: b'+',
        second: b'+',
        third: 0,
    },
    Spelling {
        sign: Sign::PlusAssign,
        len: 2,
        first: b'+',
        second: b'=',
        third: 0,
    },
    Spelling {
        sign: Sign::Plus,
        len: 1,
        first: b'+',
        second: 0,
        third: 0,
    },
    Spelling {
        sign: Sign::Decrement,
        len: 2,
        first: b'-',
        second: b'-',
        third: 0,
    },
    Spelling {
        sign: Sign::MinusAssign,
        len: 2,
        first: b'-',
        second: b'=',
        third: 0,
    },
    Spelling {
        sign: Sign::Minus,
        len: 1,
        first: b'-',
        second: 0,
        third: 0,
    },
    Spelling {
        sign: Sign::StarAssign,
        len: 2,
        first: b'*',
        second: b'=',
        third: 0,
    },
    Spelling {
        sign: Sign::Star,
        len: 1,
        first: b'*',
        second: 0,
        third: 0,
    },
    Spelling {
        sign: Sign::SlashAssign,
        len: 2,
        first: b'/',
        second: b'=',
        third: 0,
    },
    Spelling {
        sign: Sign::Slash,
        len: 1,
        first: b'/',
        second: 0,
        third: 0,
    },
    Spelling {
        sign: Sign::CaretAssign,
        len: 2,
        first: b'^',
        second: b'=',
        third: 0,
    },
    Spelling {
        sign: Sign::Caret,
        len: 1,
        first: b'^',
        second: 0,
        third: 0,
    },
    Spelling {
        sign: Sign::PercentAssign,
        len: 2,
        first: b'%',
        second: b'=',
        third: 0,
    },
    Spelling {
        sign: Sign::Percent,
        len: 1,
        first: b'%',
        second: 0,
        third: 0,
    },
    Spelling {
        sign: Sign::Semicolon,
        len: 1,
        first: b';',
        second: 0,
        third: 0,
    },
    Spelling {
        sign: Sign::LeftParen,
        len: 1,
        first: b'(',
        second: 0,
        third: 0,
    },
    Spelling {
        sign: Sign::RightParen,
        len: 1,
        first: b')',
        second: 0,
        third: 0,
    },
    Spelling {
        sign: Sign::Comma,
        len: 1,
        first: b',',
        second: 0,
        third: 0,
    },
    Spelling {
        sign: Sign::LeftBrace,
        len: 1,
        first: b'{',
        second: 0,
        third: 0,
    },
    Spelling {
        sign: Sign::RightBrace,
        len: 1,
        first: b'}',
        second: 0,
        third: 0,
    },
    Spelling {
        sign: Sign::LeftBracket,
        len: 1,
        first: b'[',
        second: 0,
        third: 0,
    },
    Spelling {
        sign: Sign::RightBracket,
        len: 1,
        first: b']',
        second: 0,
        third: 0,
    },
    Spelling {
        sign: Sign::Greater,
        len: 1,
        first: b'>',
        second: 0,
        third: 0,
    },
    Spelling {
        sign: Sign::Question,
        len: 1,
        first: b'?',
        second: 0,
        third: 0,
    },
    Spelling {
        sign: Sign::Colon,
        len: 1,
        first: b':',
        second: 0,
        third: 0,
    },
    Spelling {
        sign: Sign::At,
        len: 1,
        first: b'@',
        second: 0,
        third: 0,
    },
    Spelling {
        sign: Sign::Tilde,
        len: 1,
        first: b'~',
        second: 0,
        third: 0,
    },
];

fn begins(spelling: &Spelling, text: &[Symbol]) -> bool
    ensures { result ≡ begins spelling.now text.now }
{
    is(code_at(text, 0), spelling.first)
        && (spelling.len < 2 || is(code_at(text, 1), spelling.second))
        && (spelling.len < 3 || is(code_at(text, 2), spelling.third))
}

/// The first sign of the table that the text begins with.
fn sign_in(signs: &[Spelling], text: &[Symbol]) -> Option<Spelling>
    ensures { result ≡ sign_in signs.now text.now }
{
    for spelling in signs {
        if begins(spelling, text) {
            return Some(*spelling);
        }
    }
    None
}

/// How many signs of the table stand before the first one with this first character; 0 where none has it.
fn place_of(code: u32) -> usize
    ensures others { IsTrue (list_all (λ (d : Spelling). not (d.first == code)) (take result SIGNS)) }
    ensures within { result ≤ 43 }
{
    match char::from_u32(code) {
        Some('<') => 2,
        Some('=') => 6,
        Some('!') => 8,
        Some('&') => 10,
        Some('|') => 13,
        Some('+') => 16,
        Some('-') => 19,
        Some('*') => 22,
        Some('/') => 24,
        Some('^') => 26,
        Some('%') => 28,
        Some(';') => 30,
        Some('(') => 31,
        Some(')') => 32,
        Some(',') => 33,
        Some('{') => 34,
        Some('}') => 35,
        Some('[') => 36,
        Some(']') => 37,
        Some('>') => 38,
        Some('?') => 39,
        Some(':') => 40,
        Some('@') => 41,
        Some('~') => 42,
        _ => 0,
    }
}

/// The signs of the table from the first one with this first character on.
fn signs_of(code: u32) -> &'static [Spelling]
    ensures { (text : List Symbol) → code_at text 0 ≡ code → sign_in result.now text ≡ sign_in SIGNS text }
{
    SIGNS.split_at(place_of(code)).1
}

/// The longest sign that the text begins with.
#[tactic(auto, unfolding(crate::specs::Signs::sign_at))]
pub fn sign_at(text: &[Symbol]) -> Option<Spelling>
    ensures value { result ≡ sign_at text.now }
    ensures longest { IsLongest text.now result }
    ensures some { IfSome result (λ found. 0 < found.len) }
{
    sign_in(signs_of(code_at(text, 0)), text)
}
