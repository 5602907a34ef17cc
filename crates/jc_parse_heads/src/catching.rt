//! Catches up to their blocks (JLS 14.20).
ghost use Rattle.std.specs.Prelude.{◌<◌, ◌≤◌, ◌^◌, length, IfOk};
ghost use Rattle.jc_reading.specs.Giving.{Gives};
ghost use Rattle.jc_parse_type.specs.TypeReading.{class_run};
ghost use Rattle.jc_parse_heads.specs.HeadCode.{catch_head_run, caught_run, caught_types_run, closed_name_run, opened_run};

use crate::closing::closed;
use jc_lexer::{Key, Sign, Token};
use jc_parse_nodes::{Caught, CaughtTypes, catch_head_of, caught_of, caught_types_of};
use jc_parse_parts::{class_within, each, modifiers_within, name, word_at};
use jc_reading::{Found, Halt};
use jc_tree::{ClauseHead, Ident};
use std::alloc::Global;

/// A keyword and a left parenthesis.
#[tactic(auto, unfolding(crate::specs::HeadCode::opened_run))]
pub fn opened(key: Key, tokens: &[Token]) -> Result<Found<'_, u32>, Halt>
    ensures read { Gives result (opened_run key tokens.now) }
    ensures shorter { IfOk result (λ f. length f.rest.now ≤ length tokens.now) }
{
    let at = word_at(key, tokens)?;
    closed(Sign::LeftParen, at)
}

/// A name and a right parenthesis.
#[tactic(auto, unfolding(crate::specs::HeadCode::closed_name_run))]
fn closed_name(alloc: Global, tokens: &[Token]) -> Result<Found<'_, Ident>, Halt>
    ensures { Gives result (closed_name_run tokens.now) }
{
    let label = name(alloc, tokens)?;
    closed(Sign::RightParen, label)
}

/// The types behind the first one, and the name.
fn caught(alloc: Global, tokens: &[Token], height: u32) -> Result<Found<'_, Caught>, Halt>
    requires { length tokens.now < 2 ^ 32 }
    ensures { Gives result (caught_run height tokens.now) }
{
    let more = each(
        alloc,
        Sign::Or,
        tokens,
        |ts|
            requires { length ts.now < 2 ^ 32 }
            ensures { Gives result (class_run height ts.now) }
        { class_within(alloc, ts, height) },
    )?;
    let rest = more.rest;
    caught_of(more, closed_name(alloc, rest))
}

/// The types and the name.
fn caught_types(
    alloc: Global,
    tokens: &[Token],
    height: u32,
) -> Result<Found<'_, CaughtTypes>, Halt>
    requires { length tokens.now < 2 ^ 32 }
    ensures { Gives result (caught_types_run height tokens.now) }
{
    let first = class_within(alloc, tokens, height)?;
    let rest = first.rest;
    caught_types_of(first, caught(alloc, rest, height))
}

/// What stands between the parentheses of a catch, and the right one.
pub fn catch_head(
    alloc: Global,
    tokens: &[Token],
    height: u32,
) -> Result<Found<'_, ClauseHead>, Halt>
    requires { length tokens.now < 2 ^ 32 }
    ensures { Gives result (catch_head_run height tokens.now) }
{
    let modifiers = modifiers_within(alloc, tokens, height)?;
    let rest = modifiers.rest;
    catch_head_of(modifiers, caught_types(alloc, rest, height))
}
