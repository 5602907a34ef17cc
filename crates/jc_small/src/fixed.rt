//! The tokens that stand in every small program.
// The fixed lexemes of the small language.
ghost use Rattle.std.specs.Prelude.{◌≡◌};
ghost use Rattle.jc_small.specs.Lexemes.{is, is_key, is_sign, is_word};

use jc_lexer::{Key, Sign, TokenKind};

/// A lexeme of the small language that isn't a number.
#[derive(Clone, Copy)]
pub enum Fixed {
    Class,
    Public,
    Static,
    Void,
    MainClass,
    MainMethod,
    StringClass,
    Args,
    System,
    Out,
    Write,
    Dot,
    Plus,
    Semicolon,
    LeftParen,
    RightParen,
    LeftBracket,
    RightBracket,
    LeftBrace,
    RightBrace,
}

fn is_key(fixed: Fixed, key: Key) -> bool
    ensures { result ≡ is_key fixed key }
{
    match fixed {
        Fixed::Class => matches!(key, Key::Class),
        Fixed::Public => matches!(key, Key::Public),
        Fixed::Static => matches!(key, Key::Static),
        Fixed::Void => matches!(key, Key::Void),
        _ => false,
    }
}

fn is_sign(fixed: Fixed, sign: Sign) -> bool
    ensures { result ≡ is_sign fixed sign }
{
    match fixed {
        Fixed::Dot => matches!(sign, Sign::Dot),
        Fixed::Plus => matches!(sign, Sign::Plus),
        Fixed::Semicolon => matches!(sign, Sign::Semicolon),
        Fixed::LeftParen => matches!(sign, Sign::LeftParen),
        Fixed::RightParen => matches!(sign, Sign::RightParen),
        Fixed::LeftBracket => matches!(sign, Sign::LeftBracket),
        Fixed::RightBracket => matches!(sign, Sign::RightBracket),
        Fixed::LeftBrace => matches!(sign, Sign::LeftBrace),
        Fixed::RightBrace => matches!(sign, Sign::RightBrace),
        _ => false,
    }
}

fn is_word(fixed: Fixed, text: &str) -> bool
    ensures { result ≡ is_word fixed text.now }
{
    match fixed {
        Fixed::MainClass => text == "Main",
        Fixed::MainMethod => text == "main",
        Fixed::StringClass => text == "String",
        Fixed::Args => text == "args",
        Fixed::System => text == "System",
        Fixed::Out => text == "out",
        Fixed::Write => text == "write",
        _ => false,
    }
}

/// Whether a token is this lexeme.
pub fn is(fixed: Fixed, kind: &TokenKind) -> bool
    ensures { result ≡ is fixed kind.now }
{
    match kind {
        TokenKind::Key(key) => is_key(fixed, *key),
        TokenKind::Sign(sign) => is_sign(fixed, *sign),
        TokenKind::Word(text) => is_word(fixed, text.str()),
        _ => false,
    }
}
