//! Statements without statements in them (JLS 14).
ghost use Rattle.std.specs.Prelude.{◌<◌, ◌^◌, length};
ghost use Rattle.jc_reading.specs.Giving.{Gives};
ghost use Rattle.jc_expr_laws.specs.ExprReading.{exprs};
ghost use Rattle.jc_unit_laws.specs.MemberReading.{levels};
ghost use Rattle.jc_unit_laws.specs.UnitReading.{break_run, continue_run, empty_run, return_run, throw_run};

use crate::openings::{ended_expr, ended_label, ended_value};
use jc_lexer::{Key, Sign, Token};
use jc_parse_nodes::{break_of, continue_of, return_of, throw_of};
use jc_parse_parts::{sign_at, word_at};
use jc_reading::{Found, Halt};
use jc_tree::Stmt;
use std::alloc::Global;

/// A semicolon alone.
#[tactic(auto, unfolding(jc_unit_laws::specs::UnitReading::empty_run))]
pub fn empty(tokens: &[Token], height: u32) -> Result<Found<'_, Stmt>, Halt>
    ensures { Gives result (empty_run exprs height (levels exprs height) tokens.now) }
{
    let at = sign_at(Sign::Semicolon, tokens)?;
    Ok(Found {
        value: Stmt::Empty { at: at.value },
        rest: at.rest,
        left: at.left,
    })
}

/// A `return`.
pub fn return_at(alloc: Global, tokens: &[Token], height: u32) -> Result<Found<'_, Stmt>, Halt>
    requires { length tokens.now < 2 ^ 32 }
    ensures { Gives result (return_run exprs height (levels exprs height) tokens.now) }
{
    let at = word_at(Key::Return, tokens)?;
    let rest = at.rest;
    return_of(at, ended_value(alloc, rest, height))
}

/// A `break`.
pub fn break_at(alloc: Global, tokens: &[Token], height: u32) -> Result<Found<'_, Stmt>, Halt>
    ensures { Gives result (break_run exprs height (levels exprs height) tokens.now) }
{
    let at = word_at(Key::Break, tokens)?;
    let rest = at.rest;
    break_of(at, ended_label(alloc, rest))
}

/// A `continue`.
pub fn continue_at(alloc: Global, tokens: &[Token], height: u32) -> Result<Found<'_, Stmt>, Halt>
    ensures { Gives result (continue_run exprs height (levels exprs height) tokens.now) }
{
    let at = word_at(Key::Continue, tokens)?;
    let rest = at.rest;
    continue_of(at, ended_label(alloc, rest))
}

/// A `throw`.
#[tactic(auto, using(crate::proofs::Starts::throw_none))]
pub fn throw_at(alloc: Global, tokens: &[Token], height: u32) -> Result<Found<'_, Stmt>, Halt>
    requires { length tokens.now < 2 ^ 32 }
    ensures { Gives result (throw_run exprs height (levels exprs height) tokens.now) }
{
    if height == 0 {
        return Err(Halt::Stopped(tokens.len()));
    }
    let at = word_at(Key::Throw, tokens)?;
    let rest = at.rest;
    throw_of(at, ended_expr(alloc, rest, height))
}
