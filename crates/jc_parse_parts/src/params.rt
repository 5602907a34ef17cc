//! Type parameters, and class types behind a keyword (JLS 4.4, 8.1.2, 8.1.5).
ghost use Rattle.std.specs.Prelude.{◌<◌, ◌≤◌, ◌^◌, length, map, IfOk};
ghost use Rattle.jc_lexer.specs.declared.token.Sign.TheVariants as sign_of;
ghost use Rattle.jc_reading.specs.Giving.{Gives, Is};
ghost use Rattle.jc_reading.specs.Reading.{as_new, behind_it, commas_run, each_behind};
ghost use Rattle.jc_parse_type.specs.TypeReading.{class_run};
ghost use Rattle.jc_part_laws.specs.PartReading.{bounds_run, keyed_run, param_run, params_of_run, params_run};
ghost use Rattle.jc_parse_parts.specs.Parts.{behind_word_run, classes_run};

use crate::kinds::class_within;
use crate::lists::{each, no_list, separated};
use crate::names::{name, past_sign, past_sign_at, past_word};
use jc_lexer::{Key, Sign, Token};
use jc_reading::{Found, Halt, without};
use jc_rules::{Items, WantOfMemory};
use jc_tree::{ClassTree, TypeParam, TypeParams};
use std::alloc::Global;

/// Class types with a sign between them.
fn classes(
    alloc: Global,
    sign: Sign,
    tokens: &[Token],
    height: u32,
) -> Result<Found<'_, Items<ClassTree>>, Halt>
    requires { length tokens.now < 2 ^ 32 }
    ensures read { Gives result (classes_run sign height tokens.now) }
    ensures shorter { IfOk result (λ f. length f.rest.now ≤ length tokens.now) }
{
    separated(alloc, sign, tokens, |ts| class_within(alloc, ts, height))
}

/// Class types behind a keyword with a sign between them, where the keyword stands there.
fn behind_word(
    alloc: Global,
    key: Key,
    sign: Sign,
    tokens: &[Token],
    height: u32,
) -> Result<Found<'_, Items<ClassTree>>, WantOfMemory>
    requires { length tokens.now < 2 ^ 32 }
    ensures read { IfOk result (λ f. Is f (behind_word_run key sign height tokens.now)) }
    ensures shorter { IfOk result (λ f. length f.rest.now ≤ length tokens.now) }
{
    let Some(inside) = past_word(key, tokens) else {
        return Ok(no_list(alloc, tokens, tokens.len()));
    };
    match classes(alloc, sign, inside, height) {
        Ok(found) => Ok(Found {
            value: found.value,
            rest: found.rest,
            left: inside.len().min(found.left),
        }),
        Err(Halt::Stopped(left)) => Ok(no_list(alloc, tokens, inside.len().min(left))),
        Err(Halt::WantOfMemory) => Err(WantOfMemory),
    }
}

/// Class types behind a keyword, where it stands there.
#[tactic(auto, unfolding(jc_part_laws::specs::PartReading::keyed_run))]
pub fn keyed_within(
    alloc: Global,
    key: Key,
    tokens: &[Token],
    height: u32,
) -> Result<Found<'_, Items<ClassTree>>, WantOfMemory>
    requires { length tokens.now < 2 ^ 32 }
    ensures read { IfOk result (λ f. Is f (keyed_run key (class_run height) tokens.now)) }
    ensures shorter { IfOk result (λ f. length f.rest.now ≤ length tokens.now) }
{
    behind_word(alloc, key, Sign::Comma, tokens, height)
}

/// The bounds of a type parameter.
pub fn bounds_within(
    alloc: Global,
    tokens: &[Token],
    height: u32,
) -> Result<Found<'_, Items<ClassTree>>, WantOfMemory>
    requires { length tokens.now < 2 ^ 32 }
    ensures read { IfOk result (λ f. Is f (bounds_run (class_run height) tokens.now)) }
    ensures shorter { IfOk result (λ f. length f.rest.now ≤ length tokens.now) }
{
    behind_word(alloc, Key::Extends, Sign::And, tokens, height)
}

/// A type parameter.
#[tactic(auto, unfolding(jc_part_laws::specs::PartReading::param_run))]
pub fn param_within(
    alloc: Global,
    tokens: &[Token],
    height: u32,
) -> Result<Found<'_, TypeParam>, Halt>
    requires { length tokens.now < 2 ^ 32 }
    ensures read { Gives result (param_run (class_run height) tokens.now) }
    ensures shorter { IfOk result (λ f. length f.rest.now ≤ length tokens.now) }
{
    let name = name(alloc, tokens)?;
    let bounds = bounds_within(alloc, name.rest, height)?;
    Ok(Found {
        value: TypeParam {
            name: name.value,
            bounds: bounds.value,
        },
        rest: bounds.rest,
        left: name.left.min(bounds.left),
    })
}

/// Type parameters with commas between them.
fn some_params(
    alloc: Global,
    tokens: &[Token],
    height: u32,
) -> Result<Found<'_, Items<TypeParam>>, Halt>
    requires { length tokens.now < 2 ^ 32 }
    ensures read { Gives result (commas_run (param_run (class_run height)) tokens.now) }
    ensures shorter { IfOk result (λ f. length f.rest.now ≤ length tokens.now) }
{
    separated(
        alloc,
        Sign::Comma,
        tokens,
        |ts| param_within(alloc, ts, height),
    )
}

/// Type parameters, each behind a comma.
fn more_params(
    alloc: Global,
    tokens: &[Token],
    height: u32,
) -> Result<Found<'_, Items<TypeParam>>, WantOfMemory>
    requires { length tokens.now < 2 ^ 32 }
    ensures read { IfOk result (λ f. Is f (as_new (map behind_it) (each_behind sign_of.Comma (param_run (class_run height))) tokens.now)) }
    ensures shorter { IfOk result (λ f. length f.rest.now ≤ length tokens.now) }
{
    each(
        alloc,
        Sign::Comma,
        tokens,
        |ts| param_within(alloc, ts, height),
    )
}

/// Type parameters between angle brackets, where they stand there.
#[tactic(auto, unfolding(jc_part_laws::specs::PartReading::params_run))]
pub fn params_within(
    alloc: Global,
    tokens: &[Token],
    height: u32,
) -> Result<Found<'_, Items<TypeParam>>, WantOfMemory>
    requires { length tokens.now < 2 ^ 32 }
    ensures read { IfOk result (λ f. Is f (params_run (class_run height) tokens.now)) }
    ensures shorter { IfOk result (λ f. length f.rest.now ≤ length tokens.now) }
{
    let Some(inside) = past_sign(Sign::Less, tokens) else {
        return Ok(no_list(alloc, tokens, tokens.len()));
    };
    match some_params(alloc, inside, height) {
        Ok(found) => match past_sign(Sign::Greater, found.rest) {
            Some(rest) => Ok(Found {
                value: found.value,
                rest,
                left: least!(inside.len(), found.left, rest.len()),
            }),
            None => {
                let left = least!(inside.len(), found.left, found.rest.len());
                Ok(without(found, no_list(alloc, tokens, left)))
            }
        },
        Err(Halt::Stopped(left)) => Ok(no_list(alloc, tokens, inside.len().min(left))),
        Err(Halt::WantOfMemory) => Err(WantOfMemory),
    }
}

/// Type parameters between angle brackets, with their place.
#[tactic(auto, using(crate::proofs::PartSteps::params_of_found, crate::proofs::PartSteps::params_of_open, crate::proofs::PartSteps::params_of_halts, crate::proofs::PartSteps::params_of_shut))]
pub fn params_of_within(
    alloc: Global,
    tokens: &[Token],
    height: u32,
) -> Result<Found<'_, TypeParams>, Halt>
    requires { length tokens.now < 2 ^ 32 }
    ensures read { Gives result (params_of_run (class_run height) tokens.now) }
    ensures shorter { IfOk result (λ f. length f.rest.now ≤ length tokens.now) }
{
    let Some((at, inside)) = past_sign_at(Sign::Less, tokens) else {
        return Err(Halt::Stopped(tokens.len()));
    };
    let first = after!(param_within(alloc, inside, height), inside.len());
    let Ok(more) = more_params(alloc, first.rest, height) else {
        return Err(without(first, Halt::WantOfMemory));
    };
    match past_sign(Sign::Greater, more.rest) {
        Some(rest) => Ok(Found {
            value: TypeParams {
                at,
                first: first.value,
                more: more.value,
            },
            rest,
            left: inside.len().min(first.left.min(more.left).min(rest.len())),
        }),
        None => {
            let left = inside
                .len()
                .min(first.left.min(more.left).min(more.rest.len()));
            Err(without((first, more), Halt::Stopped(left)))
        }
    }
}
