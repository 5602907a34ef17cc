//! Resources of a `try` (JLS 14.20.3).
ghost use Rattle.std.specs.Prelude.{◌<◌, ◌≤◌, ◌^◌, length, IfOk};
ghost use Rattle.jc_lexer.specs.declared.token.Sign.TheVariants as sign_of;
ghost use Rattle.jc_reading.specs.Giving.{Gives};
ghost use Rattle.jc_part_laws.specs.PartReading.{closing_run};
ghost use Rattle.jc_parse_heads.specs.HeadCode.{assigned_name_run, more_resources_run, one_resource_run, some_resources_run, typed_value_run, valued_run};

use crate::closing::closed;
use jc_lexer::{Sign, Token};
use jc_parse_expr::expr_within;
use jc_parse_nodes::{
    MoreResources, TypedValue, Valued, more_resources_of, resource_of, resources_of,
    typed_value_of, valued_of,
};
use jc_parse_parts::{each, modifiers_within, name, past_sign, type_within};
use jc_reading::{Found, Halt};
use jc_tree::{Ident, Resource, Resources};
use std::alloc::Global;

/// A name and `=`.
#[tactic(auto, unfolding(crate::specs::HeadCode::assigned_name_run))]
fn assigned_name(alloc: Global, tokens: &[Token]) -> Result<Found<'_, Ident>, Halt>
    ensures read { Gives result (assigned_name_run tokens.now) }
    ensures shorter { IfOk result (λ f. length f.rest.now ≤ length tokens.now) }
{
    let label = name(alloc, tokens)?;
    closed(Sign::Assign, label)
}

/// A name and its value.
fn valued(alloc: Global, tokens: &[Token], height: u32) -> Result<Found<'_, Valued>, Halt>
    requires { length tokens.now < 2 ^ 32 }
    ensures { Gives result (valued_run height tokens.now) }
{
    let label = assigned_name(alloc, tokens)?;
    let rest = label.rest;
    valued_of(label, expr_within(alloc, rest, height))
}

/// A type, a name and its value.
fn typed_value(alloc: Global, tokens: &[Token], height: u32) -> Result<Found<'_, TypedValue>, Halt>
    requires { length tokens.now < 2 ^ 32 }
    ensures { Gives result (typed_value_run height tokens.now) }
{
    let ty = type_within(alloc, tokens, height)?;
    let rest = ty.rest;
    typed_value_of(ty, valued(alloc, rest, height))
}

/// A resource.
fn one_resource(alloc: Global, tokens: &[Token], height: u32) -> Result<Found<'_, Resource>, Halt>
    requires { length tokens.now < 2 ^ 32 }
    ensures { Gives result (one_resource_run height tokens.now) }
{
    let modifiers = modifiers_within(alloc, tokens, height)?;
    let rest = modifiers.rest;
    resource_of(modifiers, typed_value(alloc, rest, height))
}

/// The parenthesis that closes resources, and whether a semicolon stands before it.
fn resources_end(tokens: &[Token]) -> Result<Found<'_, bool>, Halt>
    ensures { Gives result (closing_run sign_of.Semicolon sign_of.RightParen tokens.now) }
{
    let Some(after) = past_sign(Sign::Semicolon, tokens) else {
        return match past_sign(Sign::RightParen, tokens) {
            Some(rest) => Ok(Found {
                value: false,
                rest,
                left: rest.len(),
            }),
            None => Err(Halt::Stopped(tokens.len())),
        };
    };
    match past_sign(Sign::RightParen, after) {
        Some(rest) => Ok(Found {
            value: true,
            rest,
            left: rest.len(),
        }),
        None => Err(Halt::Stopped(after.len())),
    }
}

/// The resources behind the first one.
fn more_resources(
    alloc: Global,
    tokens: &[Token],
    height: u32,
) -> Result<Found<'_, MoreResources>, Halt>
    requires { length tokens.now < 2 ^ 32 }
    ensures { Gives result (more_resources_run height tokens.now) }
{
    let more = each(
        alloc,
        Sign::Semicolon,
        tokens,
        |ts|
            requires { length ts.now < 2 ^ 32 }
            ensures { Gives result (one_resource_run height ts.now) }
        { one_resource(alloc, ts, height) },
    )?;
    let rest = more.rest;
    more_resources_of(more, resources_end(rest))
}

/// Resources, and the right parenthesis behind them.
pub fn some_resources(
    alloc: Global,
    tokens: &[Token],
    height: u32,
) -> Result<Found<'_, Resources>, Halt>
    requires { length tokens.now < 2 ^ 32 }
    ensures { Gives result (some_resources_run height tokens.now) }
{
    let first = one_resource(alloc, tokens, height)?;
    let rest = first.rest;
    resources_of(first, more_resources(alloc, rest, height))
}
