//! Literals, tokens, lists of names and of operators.
ghost use Rattle.std.specs.Prelude.{◌≡◌, IfOk};

use crate::together::{added, boxed};
use jc_lexer::TokenKind;
use jc_rules::{Items, WantOfMemory};
use jc_tree::{Ident, Literal, PrefixOp, copy_ident, copy_text};
use std::alloc::Global;

pub fn copy_idents(alloc: Global, idents: &[Ident]) -> Result<Items<Ident>, WantOfMemory>
    ensures { IfOk result (λ copy. copy ≡ idents.now) }
{
    let mut copies = Items::new(alloc);
    for i in 0..idents.len() {
        copies = added(copies, copy_ident(alloc, &idents[i]))?;
    }
    Ok(copies)
}

pub fn copy_some_ident(alloc: Global, ident: &Option<Ident>) -> Result<Option<Ident>, WantOfMemory>
    ensures { IfOk result (λ copy. copy ≡ ident.now) }
{
    match ident {
        Some(ident) => Ok(Some(copy_ident(alloc, ident)?)),
        None => Ok(None),
    }
}

fn copy_units(alloc: Global, units: &[u16]) -> Result<Items<u16>, WantOfMemory>
    ensures { IfOk result (λ copy. copy ≡ units.now) }
{
    let mut copies = Items::new(alloc);
    for i in 0..units.len() {
        copies = added(copies, Ok(units[i]))?;
    }
    Ok(copies)
}

pub fn copy_literal(alloc: Global, literal: &Literal) -> Result<Literal, WantOfMemory>
    ensures { IfOk result (λ copy. copy ≡ literal.now) }
{
    match literal {
        Literal::Number {
            value,
            long,
            decimal,
        } => Ok(Literal::Number {
            value: *value,
            long: *long,
            decimal: *decimal,
        }),
        Literal::Char(unit) => Ok(Literal::Char(*unit)),
        Literal::String(units) => Ok(Literal::String(copy_units(alloc, units.slice())?)),
        Literal::Boolean(value) => Ok(Literal::Boolean(*value)),
        Literal::Null => Ok(Literal::Null),
    }
}

pub fn copy_prefixes(alloc: Global, prefixes: &[PrefixOp]) -> Result<Items<PrefixOp>, WantOfMemory>
    ensures { IfOk result (λ copy. copy ≡ prefixes.now) }
{
    let mut copies = Items::new(alloc);
    for i in 0..prefixes.len() {
        copies = added(copies, Ok(prefixes[i]))?;
    }
    Ok(copies)
}

pub fn copy_token(alloc: Global, token: &TokenKind) -> Result<TokenKind, WantOfMemory>
    ensures { IfOk result (λ copy. copy ≡ token.now) }
{
    match token {
        TokenKind::Word(text) => Ok(TokenKind::Word(copy_text(alloc, text)?)),
        TokenKind::Key(key) => Ok(TokenKind::Key(*key)),
        TokenKind::Number {
            value,
            long,
            decimal,
        } => Ok(TokenKind::Number {
            value: *value,
            long: *long,
            decimal: *decimal,
        }),
        TokenKind::CharLit(unit) => Ok(TokenKind::CharLit(*unit)),
        TokenKind::StringLit(units) => {
            let units = boxed(alloc, copy_units(alloc, units.get().slice()))?;
            Ok(TokenKind::StringLit(units))
        }
        TokenKind::Sign(sign) => Ok(TokenKind::Sign(*sign)),
    }
}
