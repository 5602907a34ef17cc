//! Variables, effects, catches and resources (JLS 14.4, 14.8, 14.14, 14.20).
ghost use Rattle.std.specs.Prelude.{◌<◌, ◌≤◌, ◌^◌, length, IfOk};
ghost use Rattle.jc_reading.specs.Giving.{Gives};
ghost use Rattle.jc_expr_laws.specs.ExprReading.{exprs};
ghost use Rattle.jc_part_laws.specs.PartReading.{modifier_run};
ghost use Rattle.jc_unit_laws.specs.UnitReading.{local_run};
ghost use Rattle.jc_parse_heads.specs.UnitCode.{catch_opening_run, ended_effect_run, ended_strict_run, ended_vars_run, finally_opening_run, for_opening_run, local_or_effect_run, roomy_modifiers_run, roomy_resources_run, typed_or_run, typed_run};

use crate::catching::{catch_head, opened};
use crate::closing::closed;
use crate::fronts::name_stands;
use crate::looping::for_ended;
use crate::resourcing::some_resources;
use jc_lexer::{Key, Sign, Token};
use jc_parse_expr::effect_within;
use jc_parse_nodes::{
    ForOpening, Opening, Typed, Vars, bare_local_of, catch_opening_of, for_opening_of, local_of,
    reaching, typed_of,
};
use jc_parse_parts::{modifier_within, row, sign, type_within, vars_within, word_at};
use jc_reading::{Found, Halt, without};
use jc_rules::Items;
use jc_tree::{ClauseHead, Modifier, Resources, Stmt, TypeTree};
use std::alloc::Global;

/// `finally`.
#[tactic(auto, unfolding(crate::specs::UnitCode::finally_opening_run))]
pub fn finally_opening(tokens: &[Token]) -> Result<Found<'_, Opening>, Halt>
    ensures read { Gives result (finally_opening_run tokens.now) }
    ensures shorter { IfOk result (λ f. length f.rest.now ≤ length tokens.now) }
{
    let at = word_at(Key::Finally, tokens)?;
    Ok(Found {
        value: Opening {
            at: at.value,
            head: ClauseHead::Finally,
        },
        rest: at.rest,
        left: at.left,
    })
}

/// A catch up to its block.
#[inline(never)]
pub fn catch_opening(
    alloc: Global,
    tokens: &[Token],
    height: u32,
) -> Result<Found<'_, Opening>, Halt>
    requires { length tokens.now < 2 ^ 32 }
    ensures read { Gives result (catch_opening_run height tokens.now) }
    ensures shorter { IfOk result (λ f. length f.rest.now ≤ length tokens.now) }
{
    let at = opened(Key::Catch, tokens)?;
    let rest = at.rest;
    catch_opening_of(at, catch_head(alloc, rest, height))
}

/// A `for` up to its body.
#[inline(never)]
#[tactic(auto, using(crate::proofs::ForForms::for_opening_none))]
pub fn for_opening(
    alloc: Global,
    tokens: &[Token],
    height: u32,
) -> Result<Found<'_, ForOpening>, Halt>
    requires { length tokens.now < 2 ^ 32 }
    ensures read { Gives result (for_opening_run height tokens.now) }
    ensures shorter { IfOk result (λ f. length f.rest.now ≤ length tokens.now) }
{
    if height == 0 {
        return Err(Halt::Stopped(tokens.len()));
    }
    let at = opened(Key::For, tokens)?;
    let rest = at.rest;
    for_opening_of(at, for_ended(alloc, rest, height))
}

/// The resources of a `try`, where there is room for them.
#[inline(never)]
#[tactic(auto, using(crate::proofs::ResourceForms::resources_none))]
pub fn resources(alloc: Global, tokens: &[Token], height: u32) -> Result<Found<'_, Resources>, Halt>
    requires { length tokens.now < 2 ^ 32 }
    ensures read { Gives result (roomy_resources_run height tokens.now) }
    ensures shorter { IfOk result (λ f. length f.rest.now ≤ length tokens.now) }
{
    if height == 0 {
        return Err(Halt::Stopped(tokens.len()));
    }
    let open = sign(Sign::LeftParen, tokens)?;
    reaching(open.left, some_resources(alloc, open.rest, height))
}

/// An effect and a semicolon, as the code reads effects.
#[tactic(auto, unfolding(crate::specs::UnitCode::ended_strict_run))]
fn ended_strict(alloc: Global, tokens: &[Token], height: u32) -> Result<Found<'_, Stmt>, Halt>
    requires { length tokens.now < 2 ^ 32 }
    ensures { Gives result (ended_strict_run height tokens.now) }
{
    let effect = effect_within(alloc, tokens, height)?;
    let effect = closed(Sign::Semicolon, effect)?;
    Ok(Found {
        value: Stmt::Effect(effect.value),
        rest: effect.rest,
        left: effect.left,
    })
}

/// An effect and a semicolon.
#[inline(never)]
#[tactic(auto, using(crate::proofs::Effects::ended_effect_is))]
pub fn ended_effect(alloc: Global, tokens: &[Token], height: u32) -> Result<Found<'_, Stmt>, Halt>
    requires { length tokens.now < 2 ^ 32 }
    ensures { Gives result (ended_effect_run height tokens.now) }
{
    ended_strict(alloc, tokens, height)
}

/// Variables and a semicolon.
#[tactic(auto, unfolding(crate::specs::UnitCode::ended_vars_run))]
fn ended_vars(alloc: Global, tokens: &[Token], height: u32) -> Result<Found<'_, Vars>, Halt>
    requires { length tokens.now < 2 ^ 32 }
    ensures { Gives result (ended_vars_run height tokens.now) }
{
    let vars = vars_within(alloc, tokens, height)?;
    closed(Sign::Semicolon, vars)
}

/// A type, variables and a semicolon.
pub fn typed(alloc: Global, tokens: &[Token], height: u32) -> Result<Found<'_, Typed>, Halt>
    requires { length tokens.now < 2 ^ 32 }
    ensures { Gives result (typed_run height tokens.now) }
{
    let ty = type_within(alloc, tokens, height)?;
    let rest = ty.rest;
    typed_of(ty, ended_vars(alloc, rest, height))
}

/// Variables behind their type, where a name stands there, and else an effect in its place.
fn typed_or<'a>(
    alloc: Global,
    ty: Found<'a, TypeTree>,
    tokens: &'a [Token],
    height: u32,
) -> Result<Found<'a, Stmt>, Halt>
    requires { (length tokens.now < 2 ^ 32) × (length ty.rest.now < 2 ^ 32) }
    ensures { Gives result (typed_or_run height ty.entry.value ty.entry.rest.now ty.entry.left tokens.now) }
{
    let rest = ty.rest;
    if name_stands(rest) {
        return bare_local_of(alloc, ty, ended_vars(alloc, rest, height));
    }
    let left = ty.left;
    reaching(without(ty, left), ended_effect(alloc, tokens, height))
}

/// Variables without modifiers, or an effect.
#[inline(never)]
pub fn local_or_effect(
    alloc: Global,
    tokens: &[Token],
    height: u32,
) -> Result<Found<'_, Stmt>, Halt>
    requires { length tokens.now < 2 ^ 32 }
    ensures { Gives result (local_or_effect_run height tokens.now) }
{
    match type_within(alloc, tokens, height) {
        Ok(ty) => typed_or(alloc, ty, tokens, height),
        Err(Halt::Stopped(left)) => reaching(left, ended_effect(alloc, tokens, height)),
        Err(Halt::WantOfMemory) => Err(Halt::WantOfMemory),
    }
}

/// One modifier or more, where there is room for them.
fn some_modifiers(
    alloc: Global,
    tokens: &[Token],
    height: u32,
) -> Result<Found<'_, Items<Modifier>>, Halt>
    requires { length tokens.now < 2 ^ 32 }
    ensures read { Gives result (roomy_modifiers_run height tokens.now) }
    ensures shorter { IfOk result (λ f. length f.rest.now ≤ length tokens.now) }
{
    if height == 0 {
        return Err(Halt::Stopped(tokens.len()));
    }
    let first = modifier_within(alloc, tokens, height)?;
    Ok(row(
        alloc,
        first,
        |ts|
            requires { length ts.now < 2 ^ 32 }
            ensures { Gives result (modifier_run exprs height ts.now) }
        { modifier_within(alloc, ts, height) },
    )?)
}

/// Variables with modifiers.
#[inline(never)]
pub fn local(alloc: Global, tokens: &[Token], height: u32) -> Result<Found<'_, Stmt>, Halt>
    requires { length tokens.now < 2 ^ 32 }
    ensures { Gives result (local_run exprs height tokens.now) }
{
    let modifiers = some_modifiers(alloc, tokens, height)?;
    let rest = modifiers.rest;
    local_of(modifiers, typed(alloc, rest, height))
}
