//! What statements begin with, up to the statements in them (JLS 14).
ghost use Rattle.std.specs.Prelude.{◌<◌, ◌≤◌, ◌^◌, length, IfOk};
ghost use Rattle.jc_reading.specs.Giving.{Gives, Is};
ghost use Rattle.jc_reading.specs.Reading.{perhaps};
ghost use Rattle.jc_expr_laws.specs.ExprReading.{exprs};
ghost use Rattle.jc_unit_laws.specs.UnitReading.{expr_in_run};
ghost use Rattle.jc_parse_heads.specs.UnitCode.{case_label_run, case_value_run, default_label_run, do_test_run, ended_expr_run, ended_label_run, ended_value_run, inner_run, label_run, named_label_run, roomy_tested_run, some_name_run, tested_run};

use crate::closing::closed;
use crate::fronts::word_stands;
use jc_lexer::{Key, Sign, Token};
use jc_parse_expr::{conditional_within, expr_within};
use jc_parse_nodes::{Opening, Tested, reaching};
use jc_parse_parts::{name, sign, word, word_at};
use jc_reading::{Found, Halt};
use jc_rules::WantOfMemory;
use jc_tree::{ClauseHead, Expr, Ident};
use std::alloc::Global;

/// An expression, where there is room for one.
#[tactic(auto, using(crate::proofs::Joinings::room_there, crate::proofs::Joinings::room_gone))]
pub fn expr_in(alloc: Global, tokens: &[Token], height: u32) -> Result<Found<'_, Expr>, Halt>
    requires { length tokens.now < 2 ^ 32 }
    ensures read { Gives result (expr_in_run exprs height tokens.now) }
    ensures shorter { IfOk result (λ f. length f.rest.now ≤ length tokens.now) }
{
    if height == 0 {
        return Err(Halt::Stopped(tokens.len()));
    }
    expr_within(alloc, tokens, height)
}

/// An expression, or none.
pub fn some_expr(
    alloc: Global,
    tokens: &[Token],
    height: u32,
) -> Result<Found<'_, Option<Expr>>, WantOfMemory>
    requires { length tokens.now < 2 ^ 32 }
    ensures read { IfOk result (λ f. Is f (perhaps (expr_in_run exprs height) tokens.now)) }
    ensures shorter { IfOk result (λ f. length f.rest.now ≤ length tokens.now) }
{
    match expr_in(alloc, tokens, height) {
        Ok(found) => Ok(Found {
            value: Some(found.value),
            rest: found.rest,
            left: found.left,
        }),
        Err(Halt::Stopped(left)) => Ok(Found {
            value: None,
            rest: tokens,
            left,
        }),
        Err(Halt::WantOfMemory) => Err(WantOfMemory),
    }
}

/// A name, or none.
#[tactic(auto, unfolding(crate::specs::UnitCode::some_name_run))]
pub fn some_name(alloc: Global, tokens: &[Token]) -> Result<Found<'_, Option<Ident>>, WantOfMemory>
    ensures { IfOk result (λ f. Is f (some_name_run tokens.now)) }
{
    match name(alloc, tokens) {
        Ok(found) => Ok(Found {
            value: Some(found.value),
            rest: found.rest,
            left: found.left,
        }),
        Err(Halt::Stopped(left)) => Ok(Found {
            value: None,
            rest: tokens,
            left,
        }),
        Err(Halt::WantOfMemory) => Err(WantOfMemory),
    }
}

/// A semicolon, with an expression before it or none.
#[tactic(auto, unfolding(crate::specs::UnitCode::ended_value_run))]
pub fn ended_value(
    alloc: Global,
    tokens: &[Token],
    height: u32,
) -> Result<Found<'_, Option<Expr>>, Halt>
    requires { length tokens.now < 2 ^ 32 }
    ensures { Gives result (ended_value_run height tokens.now) }
{
    let value = some_expr(alloc, tokens, height)?;
    closed(Sign::Semicolon, value)
}

/// A semicolon, with a name before it or none.
#[tactic(auto, unfolding(crate::specs::UnitCode::ended_label_run, crate::specs::UnitCode::some_name_run))]
pub fn ended_label(alloc: Global, tokens: &[Token]) -> Result<Found<'_, Option<Ident>>, Halt>
    ensures { Gives result (ended_label_run tokens.now) }
{
    let label = some_name(alloc, tokens)?;
    closed(Sign::Semicolon, label)
}

/// An expression and a semicolon.
#[tactic(auto, unfolding(crate::specs::UnitCode::ended_expr_run))]
pub fn ended_expr(alloc: Global, tokens: &[Token], height: u32) -> Result<Found<'_, Expr>, Halt>
    requires { length tokens.now < 2 ^ 32 }
    ensures { Gives result (ended_expr_run height tokens.now) }
{
    let value = expr_within(alloc, tokens, height)?;
    closed(Sign::Semicolon, value)
}

/// An expression in parentheses.
#[tactic(auto, unfolding(crate::specs::UnitCode::inner_run))]
pub fn inner(alloc: Global, tokens: &[Token], height: u32) -> Result<Found<'_, Expr>, Halt>
    requires { length tokens.now < 2 ^ 32 }
    ensures read { Gives result (inner_run height tokens.now) }
    ensures shorter { IfOk result (λ f. length f.rest.now ≤ length tokens.now) }
{
    let open = sign(Sign::LeftParen, tokens)?;
    let test = reaching(open.left, expr_within(alloc, open.rest, height))?;
    closed(Sign::RightParen, test)
}

/// A keyword and the test behind it.
#[tactic(auto, unfolding(crate::specs::UnitCode::tested_run, crate::specs::UnitCode::inner_run))]
pub fn tested(
    alloc: Global,
    key: Key,
    tokens: &[Token],
    height: u32,
) -> Result<Found<'_, Tested>, Halt>
    requires { length tokens.now < 2 ^ 32 }
    ensures read { Gives result (tested_run key height tokens.now) }
    ensures shorter { IfOk result (λ f. length f.rest.now ≤ length tokens.now) }
{
    let at = word_at(key, tokens)?;
    let test = reaching(at.left, inner(alloc, at.rest, height))?;
    Ok(Found {
        value: Tested {
            at: at.value,
            test: test.value,
        },
        rest: test.rest,
        left: test.left,
    })
}

/// A keyword and the test behind it, where there is room for them.
#[inline(never)]
#[tactic(auto, using(crate::proofs::Starts::roomy_none, crate::proofs::Starts::roomy_there))]
pub fn roomy_tested(
    alloc: Global,
    key: Key,
    tokens: &[Token],
    height: u32,
) -> Result<Found<'_, Tested>, Halt>
    requires { length tokens.now < 2 ^ 32 }
    ensures read { Gives result (roomy_tested_run key height tokens.now) }
    ensures shorter { IfOk result (λ f. length f.rest.now ≤ length tokens.now) }
{
    if height == 0 {
        return Err(Halt::Stopped(tokens.len()));
    }
    tested(alloc, key, tokens, height)
}

/// A name and a colon.
#[tactic(auto, unfolding(crate::specs::UnitCode::named_label_run))]
pub fn named_label(alloc: Global, tokens: &[Token]) -> Result<Found<'_, Ident>, Halt>
    ensures read { Gives result (named_label_run tokens.now) }
    ensures shorter { IfOk result (λ f. length f.rest.now ≤ length tokens.now) }
{
    let label = name(alloc, tokens)?;
    closed(Sign::Colon, label)
}

/// What stands behind the body of a `do`.
#[tactic(auto, unfolding(crate::specs::UnitCode::do_test_run, crate::specs::UnitCode::inner_run))]
pub fn do_test(alloc: Global, tokens: &[Token], height: u32) -> Result<Found<'_, Expr>, Halt>
    requires { length tokens.now < 2 ^ 32 }
    ensures { Gives result (do_test_run height tokens.now) }
{
    let key = word(Key::While, tokens)?;
    let test = reaching(key.left, inner(alloc, key.rest, height))?;
    closed(Sign::Semicolon, test)
}

/// The value of a case and its colon.
#[tactic(auto, unfolding(crate::specs::UnitCode::case_value_run))]
fn case_value(alloc: Global, tokens: &[Token], height: u32) -> Result<Found<'_, Expr>, Halt>
    requires { length tokens.now < 2 ^ 32 }
    ensures read { Gives result (case_value_run height tokens.now) }
    ensures shorter { IfOk result (λ f. length f.rest.now ≤ length tokens.now) }
{
    let value = conditional_within(alloc, tokens, height)?;
    closed(Sign::Colon, value)
}

/// The label of a case.
#[tactic(auto, unfolding(crate::specs::UnitCode::case_label_run, crate::specs::UnitCode::case_value_run), using(crate::proofs::Joinings::room_there, crate::proofs::Joinings::room_gone))]
fn case_label(alloc: Global, tokens: &[Token], height: u32) -> Result<Found<'_, Opening>, Halt>
    requires { length tokens.now < 2 ^ 32 }
    ensures read { Gives result (case_label_run height tokens.now) }
    ensures shorter { IfOk result (λ f. length f.rest.now ≤ length tokens.now) }
{
    if height == 0 {
        return Err(Halt::Stopped(tokens.len()));
    }
    let at = word_at(Key::Case, tokens)?;
    let value = reaching(at.left, case_value(alloc, at.rest, height))?;
    Ok(Found {
        value: Opening {
            at: at.value,
            head: ClauseHead::Case(value.value),
        },
        rest: value.rest,
        left: value.left,
    })
}

/// The label `default`.
#[tactic(auto, unfolding(crate::specs::UnitCode::default_label_run))]
fn default_label(tokens: &[Token]) -> Result<Found<'_, Opening>, Halt>
    ensures read { Gives result (default_label_run tokens.now) }
    ensures shorter { IfOk result (λ f. length f.rest.now ≤ length tokens.now) }
{
    let at = word_at(Key::Default, tokens)?;
    let end = reaching(at.left, sign(Sign::Colon, at.rest))?;
    Ok(Found {
        value: Opening {
            at: at.value,
            head: ClauseHead::Default,
        },
        rest: end.rest,
        left: end.left,
    })
}

/// A label of a switch.
#[inline(never)]
#[tactic(auto, using(crate::proofs::Starts::label_case, crate::proofs::Starts::label_default))]
pub fn label(alloc: Global, tokens: &[Token], height: u32) -> Result<Found<'_, Opening>, Halt>
    requires { length tokens.now < 2 ^ 32 }
    ensures read { Gives result (label_run height tokens.now) }
    ensures shorter { IfOk result (λ f. length f.rest.now ≤ length tokens.now) }
{
    if word_stands(Key::Case, tokens) {
        return case_label(alloc, tokens, height);
    }
    default_label(tokens)
}
