//! Primaries with their selectors and postfix operators (JLS 15.8 to 15.14).
ghost use Rattle.std.specs.Prelude.{◌≡◌, ℕ, ◌+◌, ◌<◌, ◌^◌, min, false, [], ◌∷◌, length, IfOk, MatchOption};
ghost use Rattle.jc_lexer.specs.declared.token.Key.TheVariants as key_of;
ghost use Rattle.jc_lexer.specs.declared.token.Sign.TheVariants as sign_of;
ghost use Rattle.jc_tree.specs.declared.expression.Expr.{Expr};
ghost use Rattle.jc_tree.specs.declared.expression.Expr.TheVariants as expr_of;
ghost use Rattle.jc_tree.specs.Heights.{expr_height};
ghost use Rattle.jc_reading.specs.Giving.{Gives};
ghost use Rattle.jc_reading.specs.Kinds.{key_code, one_of, sign_code, word_code};
ghost use Rattle.jc_reading.specs.Reading.{Stopped as read_stopped, as_new, becoming, found, in_turn, of_kind};
ghost use Rattle.jc_expr_laws.specs.PrimeReading.{literal_codes};
ghost use Rattle.jc_expr_laws.specs.PostReading.{changed};
ghost use Rattle.jc_expr_laws.specs.StartReading.{dot_class_run, keyed_run, parens_run, plain_run, prime_run, special_run};
ghost use Rattle.jc_parse_expr.specs.BinaryLevels.{post_at};
ghost use Rattle.jc_parse_expr.specs.Measuring.{measured};
ghost use Rattle.jc_parse_expr.specs.PrimeCode.{IsMeasured, Measures, Reads, array_in, changed_on, expr_in, keyed_made, parens_made, void_made};

use crate::creations::created_at;
use crate::lists::inner;
use crate::measured::Measured;
use crate::members::{selectors, started_name, super_member};
use crate::pieces::{dot_class, is_word, literal, postfix};
use crate::primary_joints::noting_start;
use crate::primary_nodes::{changed_node, paren_node, this_node, void_node};
use crate::specials::special;
use jc_lexer::{Key, Sign, Token};
use jc_reading::{Found, Halt, behind_sign, place_of_key, place_of_sign, without};
use jc_rules::WantOfMemory;
use jc_tree::{Expr, PostfixOp};
use std::alloc::Global;

/// `void.class`, behind its word.
fn void_class(at: u32, tokens: &[Token]) -> Result<Found<'_, Measured<Expr>>, Halt>
    ensures { Measures expr_height result (as_new (void_made at) dot_class_run tokens.now) }
{
    match dot_class(tokens) {
        Ok(rest) => Ok(Found {
            value: void_node(at),
            rest,
            left: rest.len(),
        }),
        Err(left) => Err(Halt::Stopped(left)),
    }
}

/// A literal or `this`, where one stands there.
#[tactic(auto, using(crate::proofs::MemberSteps::plain_literal, crate::proofs::MemberSteps::plain_this))]
#[inline(never)]
fn short_start(
    alloc: Global,
    tokens: &[Token],
) -> Result<Option<(Measured<Expr>, &[Token])>, WantOfMemory>
    requires { one_of (word_code ∷ []) tokens.now ≡ false }
    ensures { IfOk result (λ o. MatchOption o ((one_of literal_codes tokens.now ≡ false) × (one_of (key_code key_of.This ∷ []) tokens.now ≡ false)) (λ x. ((h : ℕ) → plain_run h (expr_in h) (array_in h) tokens.now ≡ found x.0.tree x.1.now) × IsMeasured expr_height x.0)) }
{
    if let Some(start) = literal(alloc, tokens)? {
        return Ok(Some(start));
    }
    match place_of_key(Key::This, tokens) {
        Some((at, rest)) => Ok(Some((this_node(at), rest))),
        None => Ok(None),
    }
}

/// An expression and the parenthesis behind it, in parentheses.
#[cycle(expressions)]
#[tactic(auto, using(crate::proofs::PrimeCodes::closed_reads, crate::proofs::PrimeCodes::closed_open))]
#[inline(never)]
fn closed(
    alloc: Global,
    at: u32,
    tokens: &[Token],
    height: u32,
) -> Result<Found<'_, Measured<Expr>>, Halt>
    requires { length tokens.now < 2 ^ 32 }
    ensures { Measures expr_height result (as_new (λ (p : Expr × Unit {0}). expr_of.Paren at p.0) (in_turn (expr_in height) (of_kind (sign_code sign_of.RightParen))) tokens.now) }
{
    let value = inner(alloc, tokens, height)?;
    match behind_sign(Sign::RightParen, value.rest) {
        Some(rest) => Ok(Found {
            left: value.left.min(rest.len()),
            value: paren_node(alloc, at, value.value)?,
            rest,
        }),
        None => {
            let left = value.left.min(value.rest.len());
            Err(without(value, Halt::Stopped(left)))
        }
    }
}

/// An expression in parentheses.
#[cycle(expressions)]
#[tactic(auto, using(crate::proofs::MemberSteps::parens_inside, crate::proofs::MemberSteps::parens_open, crate::proofs::MemberSteps::parens_low))]
fn parens(alloc: Global, tokens: &[Token], height: u32) -> Result<Found<'_, Measured<Expr>>, Halt>
    requires { length tokens.now < 2 ^ 32 }
    ensures { Measures expr_height result (as_new parens_made (parens_run height (expr_in height)) tokens.now) }
{
    if height == 0 {
        return Err(Halt::Stopped(tokens.len()));
    }
    match place_of_sign(Sign::LeftParen, tokens) {
        Some((at, inside)) => closed(alloc, at, inside, height),
        None => Err(Halt::Stopped(tokens.len())),
    }
}

/// `super` with a member, a creation, `void.class`, or an expression in parentheses.
#[cycle(expressions)]
#[tactic(auto, using(crate::proofs::MemberSteps::keyed_super, crate::proofs::MemberSteps::keyed_new, crate::proofs::MemberSteps::keyed_void, crate::proofs::MemberSteps::keyed_parens))]
fn keyed(alloc: Global, tokens: &[Token], height: u32) -> Result<Found<'_, Measured<Expr>>, Halt>
    requires { length tokens.now < 2 ^ 32 }
    ensures { Measures expr_height result (as_new keyed_made (keyed_run height (expr_in height) (array_in height)) tokens.now) }
{
    if let Some((at, inside)) = place_of_key(Key::Super, tokens) {
        return super_member(alloc, at, inside, height);
    }
    if let Some((at, inside)) = place_of_key(Key::New, tokens) {
        return created_at(alloc, at, inside, height);
    }
    match place_of_key(Key::Void, tokens) {
        Some((at, inside)) => void_class(at, inside),
        None => parens(alloc, tokens, height),
    }
}

/// The start of a primary, but for class literals and outer `this`.
#[cycle(expressions)]
#[tactic(auto, using(crate::proofs::MemberSteps::plain_named, crate::proofs::MemberSteps::plain_keyed))]
fn plain_start(
    alloc: Global,
    tokens: &[Token],
    height: u32,
) -> Result<Found<'_, Measured<Expr>>, Halt>
    requires { length tokens.now < 2 ^ 32 }
    ensures { Measures expr_height result (plain_run height (expr_in height) (array_in height) tokens.now) }
{
    if is_word(tokens) {
        return started_name(alloc, tokens, height);
    }
    match short_start(alloc, tokens)? {
        Some((value, rest)) => Ok(Found {
            value,
            rest,
            left: rest.len(),
        }),
        None => keyed(alloc, tokens, height),
    }
}

/// A primary that no class literal and no outer `this` starts, where their reach is known.
#[cycle(expressions)]
#[tactic(auto, using(crate::proofs::PrimeSteps::prime_plain, crate::proofs::PrimeSteps::prime_stops))]
#[inline(never)]
fn plain_prime(
    alloc: Global,
    tokens: &[Token],
    height: u32,
    reach: usize,
) -> Result<Found<'_, Measured<Expr>>, Halt>
    requires short { length tokens.now < 2 ^ 32 }
    requires room { height + 1 < 2 ^ 32 }
    requires special { special_run height tokens.now ≡ read_stopped reach }
    ensures { Measures expr_height result (prime_run height (expr_in height) (array_in height) tokens.now) }
{
    match plain_start(alloc, tokens, height) {
        Ok(start) => Ok(selectors(alloc, noting_start(reach, start), height)?),
        Err(Halt::Stopped(left)) => Err(Halt::Stopped(reach.min(left))),
        Err(Halt::WantOfMemory) => Err(Halt::WantOfMemory),
    }
}

/// A primary: a start and the selectors behind it.
#[cycle(expressions)]
#[tactic(auto, using(crate::proofs::PrimeSteps::prime_special))]
fn prime(alloc: Global, tokens: &[Token], height: u32) -> Result<Found<'_, Measured<Expr>>, Halt>
    requires short { length tokens.now < 2 ^ 32 }
    requires room { height + 1 < 2 ^ 32 }
    ensures { Measures expr_height result (prime_run height (expr_in height) (array_in height) tokens.now) }
{
    match special(alloc, tokens, height) {
        Ok(start) => Ok(selectors(alloc, start, height)?),
        Err(Halt::Stopped(reach)) => plain_prime(alloc, tokens, height, reach),
        Err(Halt::WantOfMemory) => Err(Halt::WantOfMemory),
    }
}

/// A value with a postfix operator behind it.
fn changed_with<'a>(
    alloc: Global,
    value: Found<'_, Measured<Expr>>,
    op: PostfixOp,
    rest: &'a [Token],
) -> Result<Found<'a, Measured<Expr>>, WantOfMemory>
    requires { IsMeasured expr_height value.value }
    ensures { IfOk result (λ r. (r.value.tree ≡ changed value.entry.value.tree op) × (r.rest.now ≡ rest.now) × (r.left ≡ min value.entry.left (length rest.now)) × IsMeasured expr_height r.value) }
{
    let left = value.left.min(rest.len());
    Ok(Found {
        value: changed_node(alloc, value.value, op)?,
        rest,
        left,
    })
}

/// A value and the postfix operators behind it.
#[inline(never)]
fn changes<'a>(
    alloc: Global,
    first: Found<'a, Measured<Expr>>,
    height: u32,
) -> Result<Found<'a, Measured<Expr>>, WantOfMemory>
    requires measured { IsMeasured expr_height first.value }
    requires room { height + 1 < 2 ^ 32 }
    ensures { IfOk result (λ f. Reads expr_height f (changed_on height first.entry.value.tree first.entry.rest.now first.entry.left)) }
{
    let mut value = first;
    'signs: loop {
        match postfix(&value.value, value.rest, height) {
            Some((op, rest)) => {
                let next = changed_with(alloc, value, op, rest)?;
                value = next;
            }
            None => {
                return Ok(Found {
                    value: value.value,
                    rest: value.rest,
                    left: value.left.min(value.rest.len()),
                });
            }
        }
    }
}

/// A primary and the postfix operators behind it, of at most this height.
#[cycle(expressions)]
#[tactic(auto, using(crate::proofs::PrimeSteps::post_low, crate::proofs::PrimeSteps::post_made, crate::proofs::PrimeSteps::post_halts))]
pub fn post(alloc: Global, tokens: &[Token], height: u32) -> Result<Found<'_, Measured<Expr>>, Halt>
    requires { length tokens.now < 2 ^ 32 }
    ensures { Gives result (becoming measured (post_at height tokens.now)) }
{
    if height == 0 {
        return Err(Halt::Stopped(tokens.len()));
    }
    match prime(alloc, tokens, height - 1) {
        Ok(first) => Ok(changes(alloc, first, height - 1)?),
        Err(Halt::Stopped(left)) => Err(Halt::Stopped(left)),
        Err(Halt::WantOfMemory) => Err(Halt::WantOfMemory),
    }
}
