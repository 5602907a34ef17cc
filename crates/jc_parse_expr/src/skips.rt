//! What stands between braces and is skipped.
ghost use Rattle.std.specs.Prelude.{◌≡◌, IfOk};
ghost use Rattle.jc_tree.specs.declared.expression.Skip.{roll-Skip};
ghost use Rattle.jc_tree.specs.declared.expression.SkipPart.TheVariants as skip_part_of;
ghost use Rattle.jc_tree.specs.Heights.{skip_height, skip_part_height};
ghost use Rattle.jc_grammar.specs.Shapes.{is_brace};
ghost use Rattle.jc_reading.specs.Reading.{any_number, as_new, picking};
ghost use Rattle.jc_expr_laws.specs.PrimeReading.{body_run, picks_skipped, skip_run};
ghost use Rattle.jc_parse_expr.specs.PrimeCode.{IsMeasured, Measures, Reads, skip_item_run, skips_height, skip_parts_height, skipped_kind, skipped_token};

use crate::measured::Measured;
use crate::pieces::{copy_units, is_at};
use jc_lexer::{Sign, Token, TokenKind};
use jc_reading::{Found, Halt, behind_sign, pushed, without};
use jc_rules::{Boxed, Items, WantOfMemory};
use jc_tree::{Skip, SkipPart, copy_text};
use std::alloc::Global;

/// Whether a token is a brace.
fn is_brace(kind: &TokenKind) -> bool
    ensures { result ≡ is_brace kind.now }
{
    match kind {
        TokenKind::Sign(Sign::LeftBrace) => true,
        TokenKind::Sign(Sign::RightBrace) => true,
        _ => false,
    }
}

/// A copy of what a token is.
fn copy_kind(alloc: Global, kind: &TokenKind) -> Result<TokenKind, WantOfMemory>
    ensures { IfOk result (λ copy. copy ≡ kind.now) }
{
    match kind {
        TokenKind::Word(text) => Ok(TokenKind::Word(copy_text(alloc, text)?)),
        TokenKind::Key(key) => Ok(TokenKind::Key(*key)),
        TokenKind::Number {
            value,
            long,
            decimal,
        } => Ok(TokenKind::Number {
            value: *value,
            long: *long,
            decimal: *decimal,
        }),
        TokenKind::CharLit(unit) => Ok(TokenKind::CharLit(*unit)),
        TokenKind::StringLit(units) => {
            let units = Boxed::new(alloc, copy_units(alloc, units.get().slice())?)?;
            Ok(TokenKind::StringLit(units))
        }
        TokenKind::Sign(sign) => Ok(TokenKind::Sign(*sign)),
    }
}

/// What a token is, where it is no brace.
fn skipped_kind(alloc: Global, kind: &TokenKind) -> Result<Option<TokenKind>, WantOfMemory>
    ensures { IfOk result (λ o. o ≡ skipped_kind kind.now) }
{
    if is_brace(kind) {
        return Ok(None);
    }
    Ok(Some(copy_kind(alloc, kind)?))
}

/// A token that is no brace.
fn skipped(alloc: Global, tokens: &[Token]) -> Result<Found<'_, Measured<SkipPart>>, Halt>
    ensures { Measures skip_part_height result (as_new skipped_token (picking picks_skipped) tokens.now) }
{
    match tokens {
        [first, rest @ ..] => match skipped_kind(alloc, &first.kind)? {
            Some(kind) => Ok(Found {
                value: token_of(kind),
                rest,
                left: rest.len(),
            }),
            None => Err(Halt::Stopped(tokens.len())),
        },
        _ => Err(Halt::Stopped(0)),
    }
}

#[tactic(auto, using(crate::proofs::HeightSteps::skips))]
fn token_of(kind: TokenKind) -> Measured<SkipPart>
    ensures { (result.tree ≡ skip_part_of.Token kind) × IsMeasured skip_part_height result }
{
    Measured {
        tree: SkipPart::Token(kind),
        height: 0,
    }
}

/// A part of what is skipped: what stands between braces, or another token.
#[cycle(skips)]
#[tactic(auto, using(crate::proofs::SpecialSteps::skip_token, crate::proofs::SpecialSteps::skip_inner))]
fn skip_part(
    alloc: Global,
    tokens: &[Token],
    height: u32,
) -> Result<Found<'_, Measured<SkipPart>>, Halt>
    ensures { Measures skip_part_height result (skip_item_run height tokens.now) }
{
    if !is_at(Sign::LeftBrace, tokens) {
        return skipped(alloc, tokens);
    }
    let skip = skip(alloc, tokens, height)?;
    Ok(Found {
        value: inner_skip(skip.value),
        rest: skip.rest,
        left: skip.left,
    })
}

/// Parts of what is skipped.
#[cycle(skips)]
fn skip_parts(
    alloc: Global,
    tokens: &[Token],
    height: u32,
) -> Result<Found<'_, Measured<Items<SkipPart>>>, WantOfMemory>
    ensures { IfOk result (λ f. Reads skip_parts_height f (any_number (skip_item_run height) tokens.now)) }
{
    let mut parts = Items::new(alloc);
    let mut most = 0;
    let mut rest = tokens;
    let mut left = tokens.len();
    'parts: loop {
        match skip_part(alloc, rest, height) {
            Ok(found) => {
                let value = found.value;
                most = most.max(value.height);
                parts = pushed(parts, value.tree)?;
                left = left.min(found.left);
                rest = found.rest;
            }
            Err(Halt::Stopped(reach)) => {
                return Ok(Found {
                    value: Measured {
                        tree: parts,
                        height: most,
                    },
                    rest,
                    left: left.min(reach),
                });
            }
            Err(Halt::WantOfMemory) => return Err(without(parts, WantOfMemory)),
        }
    }
}

/// What stands between braces, of at most this height.
#[cycle(skips)]
#[tactic(auto, unfolding(jc_expr_laws::specs::PrimeReading::skip_run))]
pub fn skip(alloc: Global, tokens: &[Token], height: u32) -> Result<Found<'_, Measured<Skip>>, Halt>
    ensures { Measures skip_height result (skip_run height tokens.now) }
{
    if height == 0 {
        return Err(Halt::Stopped(tokens.len()));
    }
    let Some(inside) = behind_sign(Sign::LeftBrace, tokens) else {
        return Err(Halt::Stopped(tokens.len()));
    };
    let parts = skip_parts(alloc, inside, height - 1)?;
    match behind_sign(Sign::RightBrace, parts.rest) {
        Some(rest) => Ok(Found {
            value: skip_of(parts.value),
            rest,
            left: inside.len().min(parts.left.min(rest.len())),
        }),
        None => {
            let left = inside.len().min(parts.left.min(parts.rest.len()));
            Err(without(parts, Halt::Stopped(left)))
        }
    }
}

#[tactic(auto, using(crate::proofs::HeightSteps::skips))]
fn inner_skip(skip: Measured<Skip>) -> Measured<SkipPart>
    requires { IsMeasured skip_height skip }
    ensures { (result.tree ≡ skip_part_of.Inner skip.tree) × IsMeasured skip_part_height result }
{
    Measured {
        tree: SkipPart::Inner(skip.tree),
        height: skip.height,
    }
}

#[tactic(auto, using(crate::proofs::HeightSteps::skips))]
fn skip_of(parts: Measured<Items<SkipPart>>) -> Measured<Skip>
    requires { IsMeasured skip_parts_height parts }
    ensures { (result.tree ≡ roll-Skip (record { parts = parts.tree })) × IsMeasured skip_height result }
{
    Measured {
        tree: Skip { parts: parts.tree },
        height: parts.height.saturating_add(1),
    }
}

/// The body of an anonymous class, where one stands there: none, or one.
#[inline(never)]
pub fn body(
    alloc: Global,
    tokens: &[Token],
    height: u32,
) -> Result<Found<'_, Measured<Items<Skip>>>, WantOfMemory>
    ensures { IfOk result (λ f. Reads skips_height f (body_run height tokens.now)) }
{
    match skip(alloc, tokens, height) {
        Ok(skip) => {
            let value = skip.value;
            Ok(Found {
                value: Measured {
                    tree: pushed(Items::new(alloc), value.tree)?,
                    height: value.height,
                },
                rest: skip.rest,
                left: skip.left,
            })
        }
        Err(Halt::Stopped(left)) => Ok(Found {
            value: Measured {
                tree: Items::new(alloc),
                height: 0,
            },
            rest: tokens,
            left,
        }),
        Err(Halt::WantOfMemory) => Err(WantOfMemory),
    }
}
