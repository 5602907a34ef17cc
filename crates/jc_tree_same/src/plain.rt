//! Names, literals and tokens.
ghost use Rattle.std.specs.Prelude.{◌≡◌, ◌↔◌, IsTrue};

use jc_lexer::{Key, TokenKind};
use jc_tree::{Ident, Literal, PrefixOp};

/// Whether two identifiers are the same, at the same place.
pub fn same_ident(a: &Ident, b: &Ident) -> bool
    ensures { IsTrue result ↔ (a.now ≡ b.now) }
{
    a.at == b.at && a.text.str() == b.text.str()
}

pub fn same_idents(xs: &[Ident], ys: &[Ident]) -> bool
    ensures { IsTrue result ↔ (xs.now ≡ ys.now) }
{
    if xs.len() != ys.len() {
        return false;
    }
    for i in 0..xs.len() {
        if !same_ident(&xs[i], &ys[i]) {
            return false;
        }
    }
    true
}

pub fn same_some_ident(a: &Option<Ident>, b: &Option<Ident>) -> bool
    ensures { IsTrue result ↔ (a.now ≡ b.now) }
{
    match (a, b) {
        (Some(it), Some(other)) => same_ident(it, other),
        (None, None) => true,
        _ => false,
    }
}

pub fn same_literal(a: &Literal, b: &Literal) -> bool
    ensures { IsTrue result ↔ (a.now ≡ b.now) }
{
    match (a, b) {
        (
            Literal::Number {
                value,
                long,
                decimal,
            },
            Literal::Number {
                value: other_value,
                long: other_long,
                decimal: other_decimal,
            },
        ) => value == other_value && long == other_long && decimal == other_decimal,
        (Literal::Char(it), Literal::Char(other)) => it == other,
        (Literal::String(it), Literal::String(other)) => it.slice() == other.slice(),
        (Literal::Boolean(it), Literal::Boolean(other)) => it == other,
        (Literal::Null, Literal::Null) => true,
        _ => false,
    }
}

pub fn same_prefix(a: &PrefixOp, b: &PrefixOp) -> bool
    ensures { IsTrue result ↔ (a.now ≡ b.now) }
{
    a.at == b.at && a.sign == b.sign
}

pub fn same_prefixes(xs: &[PrefixOp], ys: &[PrefixOp]) -> bool
    ensures { IsTrue result ↔ (xs.now ≡ ys.now) }
{
    if xs.len() != ys.len() {
        return false;
    }
    for i in 0..xs.len() {
        if !same_prefix(&xs[i], &ys[i]) {
            return false;
        }
    }
    true
}

fn same_key(a: Key, b: Key) -> bool
    ensures { IsTrue result ↔ (a ≡ b) }
{
    a == b
}

pub fn same_token(a: &TokenKind, b: &TokenKind) -> bool
    ensures { IsTrue result ↔ (a.now ≡ b.now) }
{
    match (a, b) {
        (TokenKind::Word(it), TokenKind::Word(other)) => it.str() == other.str(),
        (TokenKind::Key(it), TokenKind::Key(other)) => same_key(*it, *other),
        (
            TokenKind::Number {
                value,
                long,
                decimal,
            },
            TokenKind::Number {
                value: other_value,
                long: other_long,
                decimal: other_decimal,
            },
        ) => value == other_value && long == other_long && decimal == other_decimal,
        (TokenKind::CharLit(it), TokenKind::CharLit(other)) => it == other,
        (TokenKind::StringLit(it), TokenKind::StringLit(other)) => {
            it.get().slice() == other.get().slice()
        }
        (TokenKind::Sign(it), TokenKind::Sign(other)) => it == other,
        _ => false,
    }
}
