//! Single tokens.
ghost use Rattle.std.specs.Prelude.{◌≡◌, ◌==◌, [], ◌∷◌, length, MatchOption};
ghost use Rattle.std.specs.Option.{is_some};
ghost use Rattle.jc_reading.specs.Giving.{Gives};
ghost use Rattle.jc_reading.specs.Kinds.{kind_code, sign_code, key_code, one_of};
ghost use Rattle.jc_reading.specs.Reading.{Stopped, an_ident_at, at_kind, found, of_kind};

use crate::{Found, Halt};
use jc_lexer::{Key, Sign, Token, TokenKind};
use jc_tree::{Ident, copy_text};
use std::alloc::Global;

/// Whether a token is this sign.
fn is_sign(kind: &TokenKind, sign: Sign) -> bool
    ensures { result ≡ (kind_code kind.now == sign_code sign) }
{
    match kind {
        TokenKind::Sign(found) => *found == sign,
        _ => false,
    }
}

/// The number of a keyword.
fn key_code(key: Key) -> u32
    ensures { result ≡ key_code key }
{
    10 + key as u32
}

/// Whether a token is this keyword.
fn is_key(kind: &TokenKind, key: Key) -> bool
    ensures { result ≡ (kind_code kind.now == key_code key) }
{
    match kind {
        TokenKind::Key(found) => key_code(*found) == key_code(key),
        _ => false,
    }
}

/// The tokens behind a sign, where it stands at the front.
pub fn behind_sign(sign: Sign, tokens: &[Token]) -> Option<&[Token]>
    ensures read { MatchOption result (of_kind (sign_code sign) tokens.now ≡ Stopped (length tokens.now)) (λ r. of_kind (sign_code sign) tokens.now ≡ found tt r.now) }
    ensures front { one_of (sign_code sign ∷ []) tokens.now ≡ is_some result }
{
    match tokens {
        [first, rest @ ..] => {
            if is_sign(&first.kind, sign) {
                Some(rest)
            } else {
                None
            }
        }
        _ => None,
    }
}

/// The offset of a sign and the tokens behind it, where it stands at the front.
pub fn place_of_sign(sign: Sign, tokens: &[Token]) -> Option<(u32, &[Token])>
    ensures read { MatchOption result (at_kind (sign_code sign) tokens.now ≡ Stopped (length tokens.now)) (λ x. at_kind (sign_code sign) tokens.now ≡ found x.0 x.1.now) }
    ensures front { one_of (sign_code sign ∷ []) tokens.now ≡ is_some result }
{
    match tokens {
        [first, rest @ ..] => {
            if is_sign(&first.kind, sign) {
                Some((first.from, rest))
            } else {
                None
            }
        }
        _ => None,
    }
}

/// The tokens behind a keyword, where it stands at the front.
pub fn behind_key(key: Key, tokens: &[Token]) -> Option<&[Token]>
    ensures read { MatchOption result (of_kind (key_code key) tokens.now ≡ Stopped (length tokens.now)) (λ r. of_kind (key_code key) tokens.now ≡ found tt r.now) }
    ensures front { one_of (key_code key ∷ []) tokens.now ≡ is_some result }
{
    match tokens {
        [first, rest @ ..] => {
            if is_key(&first.kind, key) {
                Some(rest)
            } else {
                None
            }
        }
        _ => None,
    }
}

/// The offset of a keyword and the tokens behind it, where it stands at the front.
pub fn place_of_key(key: Key, tokens: &[Token]) -> Option<(u32, &[Token])>
    ensures read { MatchOption result (at_kind (key_code key) tokens.now ≡ Stopped (length tokens.now)) (λ x. at_kind (key_code key) tokens.now ≡ found x.0 x.1.now) }
    ensures front { one_of (key_code key ∷ []) tokens.now ≡ is_some result }
{
    match tokens {
        [first, rest @ ..] => {
            if is_key(&first.kind, key) {
                Some((first.from, rest))
            } else {
                None
            }
        }
        _ => None,
    }
}

/// The identifier at the front.
pub fn identifier(alloc: Global, tokens: &[Token]) -> Result<Found<'_, Ident>, Halt>
    ensures { Gives result (an_ident_at tokens.now) }
{
    match tokens {
        [first, rest @ ..] => match &first.kind {
            TokenKind::Word(text) => {
                let text = copy_text(alloc, text)?;
                let value = Ident {
                    at: first.from,
                    text,
                };
                Ok(Found {
                    value,
                    rest,
                    left: rest.len(),
                })
            }
            _ => Err(Halt::Stopped(tokens.len())),
        },
        _ => Err(Halt::Stopped(0)),
    }
}
