//! Single tokens and names (JLS 6.5).
ghost use Rattle.std.specs.Prelude.{◌≡◌, ◌≤◌, [], ◌∷◌, length, IfOk, IfSome, MatchOption};
ghost use Rattle.std.specs.Option.{is_some};
ghost use Rattle.jc_reading.specs.Giving.{Gives, Is};
ghost use Rattle.jc_reading.specs.Kinds.{key_code, one_of, sign_code};
ghost use Rattle.jc_reading.specs.Reading.{Stopped, an_ident_at, at_kind, found, of_kind};
ghost use Rattle.jc_part_laws.specs.PartReading.{more_names_run};

use crate::lists::each;
use jc_lexer::{Key, Sign, Token};
use jc_reading::{Found, Halt, behind_key, behind_sign, identifier, place_of_key, place_of_sign};
use jc_rules::{Items, WantOfMemory};
use jc_tree::Ident;
use std::alloc::Global;

/// The tokens behind a sign, where it stands at the front.
pub fn past_sign(sign: Sign, tokens: &[Token]) -> Option<&[Token]>
    ensures read { MatchOption result (of_kind (sign_code sign) tokens.now ≡ Stopped (length tokens.now)) (λ r. of_kind (sign_code sign) tokens.now ≡ found tt r.now) }
    ensures front { one_of (sign_code sign ∷ []) tokens.now ≡ is_some result }
    ensures shorter { IfSome result (λ r. length r.now ≤ length tokens.now) }
{
    behind_sign(sign, tokens)
}

/// The offset of a sign and the tokens behind it, where it stands at the front.
pub fn past_sign_at(sign: Sign, tokens: &[Token]) -> Option<(u32, &[Token])>
    ensures read { MatchOption result (at_kind (sign_code sign) tokens.now ≡ Stopped (length tokens.now)) (λ x. at_kind (sign_code sign) tokens.now ≡ found x.0 x.1.now) }
    ensures front { one_of (sign_code sign ∷ []) tokens.now ≡ is_some result }
    ensures shorter { IfSome result (λ x. length x.1.now ≤ length tokens.now) }
{
    place_of_sign(sign, tokens)
}

/// The tokens behind a keyword, where it stands at the front.
pub fn past_word(key: Key, tokens: &[Token]) -> Option<&[Token]>
    ensures read { MatchOption result (of_kind (key_code key) tokens.now ≡ Stopped (length tokens.now)) (λ r. of_kind (key_code key) tokens.now ≡ found tt r.now) }
    ensures front { one_of (key_code key ∷ []) tokens.now ≡ is_some result }
    ensures shorter { IfSome result (λ r. length r.now ≤ length tokens.now) }
{
    behind_key(key, tokens)
}

/// The offset of a keyword and the tokens behind it, where it stands at the front.
pub fn past_word_at(key: Key, tokens: &[Token]) -> Option<(u32, &[Token])>
    ensures read { MatchOption result (at_kind (key_code key) tokens.now ≡ Stopped (length tokens.now)) (λ x. at_kind (key_code key) tokens.now ≡ found x.0 x.1.now) }
    ensures front { one_of (key_code key ∷ []) tokens.now ≡ is_some result }
    ensures shorter { IfSome result (λ x. length x.1.now ≤ length tokens.now) }
{
    place_of_key(key, tokens)
}

/// A sign.
pub fn sign(sign: Sign, tokens: &[Token]) -> Result<Found<'_, ()>, Halt>
    ensures read { Gives result (of_kind (sign_code sign) tokens.now) }
    ensures shorter { IfOk result (λ f. length f.rest.now ≤ length tokens.now) }
{
    match past_sign(sign, tokens) {
        Some(rest) => Ok(Found {
            value: (),
            rest,
            left: rest.len(),
        }),
        None => Err(Halt::Stopped(tokens.len())),
    }
}

/// A sign with its place.
pub fn sign_at(sign: Sign, tokens: &[Token]) -> Result<Found<'_, u32>, Halt>
    ensures read { Gives result (at_kind (sign_code sign) tokens.now) }
    ensures shorter { IfOk result (λ f. length f.rest.now ≤ length tokens.now) }
{
    match past_sign_at(sign, tokens) {
        Some((value, rest)) => Ok(Found {
            value,
            rest,
            left: rest.len(),
        }),
        None => Err(Halt::Stopped(tokens.len())),
    }
}

/// A keyword.
pub fn word(key: Key, tokens: &[Token]) -> Result<Found<'_, ()>, Halt>
    ensures read { Gives result (of_kind (key_code key) tokens.now) }
    ensures shorter { IfOk result (λ f. length f.rest.now ≤ length tokens.now) }
{
    match past_word(key, tokens) {
        Some(rest) => Ok(Found {
            value: (),
            rest,
            left: rest.len(),
        }),
        None => Err(Halt::Stopped(tokens.len())),
    }
}

/// A keyword with its place.
pub fn word_at(key: Key, tokens: &[Token]) -> Result<Found<'_, u32>, Halt>
    ensures read { Gives result (at_kind (key_code key) tokens.now) }
    ensures shorter { IfOk result (λ f. length f.rest.now ≤ length tokens.now) }
{
    match past_word_at(key, tokens) {
        Some((value, rest)) => Ok(Found {
            value,
            rest,
            left: rest.len(),
        }),
        None => Err(Halt::Stopped(tokens.len())),
    }
}

/// An identifier.
pub fn name(alloc: Global, tokens: &[Token]) -> Result<Found<'_, Ident>, Halt>
    ensures read { Gives result (an_ident_at tokens.now) }
    ensures shorter { IfOk result (λ f. length f.rest.now ≤ length tokens.now) }
{
    identifier(alloc, tokens)
}

/// The parts of a name behind its first one.
pub fn more_names(alloc: Global, tokens: &[Token]) -> Result<Found<'_, Items<Ident>>, WantOfMemory>
    ensures read { IfOk result (λ f. Is f (more_names_run tokens.now)) }
    ensures shorter { IfOk result (λ f. length f.rest.now ≤ length tokens.now) }
{
    each(alloc, Sign::Dot, tokens, |ts| name(alloc, ts))
}
