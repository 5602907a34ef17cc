//! What ends members, and calls of other constructors (JLS 8.4.7, 8.8.7).
ghost use Rattle.std.specs.Prelude.{◌<◌, ◌≤◌, ◌^◌, length, Some, IfOk};
ghost use Rattle.jc_reading.specs.Giving.{Gives, Is};
ghost use Rattle.jc_reading.specs.Reading.{Read, becoming, commas_run};
ghost use Rattle.jc_expr_laws.specs.ExprReading.{exprs};
ghost use Rattle.jc_unit_laws.specs.MemberReading.{levels, super_run, this_run};
ghost use Rattle.jc_unit_laws.specs.UnitReading.{expr_in_run};
ghost use Rattle.jc_parse_heads.specs.MemberCode.{actual_list_run, ended_actuals_run, no_items_run, no_statements_run, some_exprs_run};

use crate::closing::closed;
use crate::openings::expr_in;
use jc_lexer::{Key, Sign, Token};
use jc_parse_nodes::{reaching, super_call_of, this_call_of};
use jc_parse_parts::{separated, sign, word_at};
use jc_reading::{Found, Halt};
use jc_rules::{Items, WantOfMemory};
use jc_tree::{Expr, Stmt};
use std::alloc::Global;

/// The same answer, of a part that may be left out.
pub fn in_some<'a, T>(read: Result<Found<'a, T>, Halt>) -> Result<Found<'a, Option<T>>, Halt>
    ensures { (m : Read T) → Gives read.entry m → Gives result (becoming Some m) }
{
    match read {
        Ok(found) => Ok(Found {
            value: Some(found.value),
            rest: found.rest,
            left: found.left,
        }),
        Err(halt) => Err(halt),
    }
}

/// A semicolon in the place of statements.
#[tactic(auto, unfolding(crate::specs::MemberCode::no_items_run))]
pub fn no_items(tokens: &[Token]) -> Result<Found<'_, Option<Items<Stmt>>>, Halt>
    ensures { Gives result (no_items_run tokens.now) }
{
    let end = sign(Sign::Semicolon, tokens)?;
    Ok(Found {
        value: None,
        rest: end.rest,
        left: end.left,
    })
}

/// A right brace, with no statements before it.
#[tactic(auto, unfolding(crate::specs::MemberCode::no_statements_run))]
pub fn no_statements(alloc: Global, tokens: &[Token]) -> Result<Found<'_, Items<Stmt>>, Halt>
    ensures { Gives result (no_statements_run tokens.now) }
{
    let end = sign(Sign::RightBrace, tokens)?;
    Ok(Found {
        value: Items::new(alloc),
        rest: end.rest,
        left: end.left,
    })
}

/// Expressions with commas between them.
fn exprs(alloc: Global, tokens: &[Token], height: u32) -> Result<Found<'_, Items<Expr>>, Halt>
    requires { length tokens.now < 2 ^ 32 }
    ensures read { Gives result (commas_run (expr_in_run exprs height) tokens.now) }
    ensures shorter { IfOk result (λ f. length f.rest.now ≤ length tokens.now) }
{
    separated(
        alloc,
        Sign::Comma,
        tokens,
        |ts|
            requires { length ts.now < 2 ^ 32 }
            ensures { Gives result (expr_in_run exprs height ts.now) }
        { expr_in(alloc, ts, height) },
    )
}

/// Expressions with commas between them, or none.
#[tactic(auto, unfolding(crate::specs::MemberCode::some_exprs_run))]
fn some_exprs(
    alloc: Global,
    tokens: &[Token],
    height: u32,
) -> Result<Found<'_, Items<Expr>>, WantOfMemory>
    requires { length tokens.now < 2 ^ 32 }
    ensures { IfOk result (λ f. Is f (some_exprs_run height tokens.now)) }
{
    match exprs(alloc, tokens, height) {
        Ok(found) => Ok(found),
        Err(Halt::Stopped(left)) => Ok(Found {
            value: Items::new(alloc),
            rest: tokens,
            left,
        }),
        Err(Halt::WantOfMemory) => Err(WantOfMemory),
    }
}

/// Actual arguments between parentheses.
#[tactic(auto, unfolding(crate::specs::MemberCode::actual_list_run))]
fn actual_list(alloc: Global, tokens: &[Token], height: u32) -> Result<Found<'_, Items<Expr>>, Halt>
    requires { length tokens.now < 2 ^ 32 }
    ensures { Gives result (actual_list_run height tokens.now) }
{
    let open = sign(Sign::LeftParen, tokens)?;
    let list = some_exprs(alloc, open.rest, height)?;
    reaching(open.left, closed(Sign::RightParen, list))
}

/// Actual arguments and a semicolon.
#[tactic(auto, unfolding(crate::specs::MemberCode::ended_actuals_run))]
fn ended_actuals(
    alloc: Global,
    tokens: &[Token],
    height: u32,
) -> Result<Found<'_, Items<Expr>>, Halt>
    requires { length tokens.now < 2 ^ 32 }
    ensures { Gives result (ended_actuals_run height tokens.now) }
{
    let actuals = actual_list(alloc, tokens, height)?;
    closed(Sign::Semicolon, actuals)
}

/// A call of another constructor of the class.
pub fn this_call(alloc: Global, tokens: &[Token], height: u32) -> Result<Found<'_, Stmt>, Halt>
    requires { length tokens.now < 2 ^ 32 }
    ensures { Gives result (this_run exprs height (levels exprs height) tokens.now) }
{
    let at = word_at(Key::This, tokens)?;
    let rest = at.rest;
    this_call_of(at, ended_actuals(alloc, rest, height))
}

/// A call of a constructor of the superclass.
pub fn super_call(alloc: Global, tokens: &[Token], height: u32) -> Result<Found<'_, Stmt>, Halt>
    requires { length tokens.now < 2 ^ 32 }
    ensures { Gives result (super_run exprs height (levels exprs height) tokens.now) }
{
    let at = word_at(Key::Super, tokens)?;
    let rest = at.rest;
    super_call_of(at, ended_actuals(alloc, rest, height))
}
