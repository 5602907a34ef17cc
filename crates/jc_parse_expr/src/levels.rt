//! The levels of expressions from assignments to binary operators (JLS 15.17 to 15.26), read from left to right where there is room for so
//! many heights.
ghost use Rattle.std.specs.Prelude.{◌<◌, ◌^◌, List, length, IfOk};
ghost use Rattle.jc_lexer.specs.declared.token.Token.{Token};
ghost use Rattle.jc_reading.specs.Giving.{Gives, Is};
ghost use Rattle.jc_reading.specs.Reading.{any_number, becoming, in_turn};
ghost use Rattle.jc_expr_laws.specs.LevelReading.{assign_run};
ghost use Rattle.jc_parse_expr.specs.Measuring.{measured, measured_operands};
ghost use Rattle.jc_parse_expr.specs.BinaryLevels.{level_run, levels_at, measured_operand, measured_right, next_operand_run, operand_run, operands_run, otherwise_run, then_run, tighter_run};
ghost use Rattle.jc_parse_expr.specs.declared.operators.Level.TheVariants as level_of;

use crate::compared::{ends_open, instance, is_barred, touched_before};
use crate::measured::Measured;
use crate::operator_joints::{
    alone, with_branches, with_operand, with_operands, with_right, with_value,
};
use crate::operators::{Level, assign_op, looser_level, may_operate, operator, tighter_level};
use crate::shapes::may_be_target;
use crate::unaries::unary;
use jc_lexer::{Key, Sign, Token};
use jc_reading::{Found, Halt, behind_key, behind_sign, pushed, without};
use jc_rules::{Items, WantOfMemory};
use jc_tree::{AssignOp, Expr, Operand};
use std::alloc::Global;

/// The longest expression of at most such a height.
#[cycle(expressions)]
#[inline(never)]
pub fn expr(alloc: Global, tokens: &[Token], height: u32) -> Result<Found<'_, Measured<Expr>>, Halt>
    requires { length tokens.now < 2 ^ 32 }
    ensures { Gives result (becoming measured ((levels_at height).expr tokens.now)) }
{
    match conditional(alloc, tokens, height) {
        Ok(target) => with_assignment(alloc, target, height),
        Err(halt) => Err(halt),
    }
}

/// A conditional, with an assignment operator and a value where they stand behind it.
#[cycle(expressions)]
#[inline(never)]
fn with_assignment<'a>(
    alloc: Global,
    target: Found<'a, Measured<Expr>>,
    height: u32,
) -> Result<Found<'a, Measured<Expr>>, Halt>
    requires { length target.rest.now < 2 ^ 32 }
    ensures { (ts : List Token) → Is target.entry (becoming measured ((levels_at height).conditional ts)) → Gives result (becoming measured ((levels_at height).expr ts)) }
{
    if target.value.height >= height {
        return Ok(target);
    }
    if !may_be_target(&target.value.tree) {
        return Ok(target);
    }
    let more = assigned(alloc, target.rest, height - 1);
    with_value(alloc, target, more)
}

/// An assignment operator and a value.
#[cycle(expressions)]
pub fn assigned(
    alloc: Global,
    tokens: &[Token],
    height: u32,
) -> Result<Found<'_, (AssignOp, Measured<Expr>)>, Halt>
    requires { length tokens.now < 2 ^ 32 }
    ensures { Gives result (becoming measured_right (in_turn assign_run (levels_at height).expr tokens.now)) }
{
    let op = assign_op(tokens)?;
    let more = expr(alloc, op.rest, height);
    with_right(op, more)
}

/// The longest conditional of at most such a height.
#[cycle(expressions)]
pub fn conditional(
    alloc: Global,
    tokens: &[Token],
    height: u32,
) -> Result<Found<'_, Measured<Expr>>, Halt>
    requires { length tokens.now < 2 ^ 32 }
    ensures { Gives result (becoming measured ((levels_at height).conditional tokens.now)) }
{
    match binary(alloc, Level::OrElse, tokens, height) {
        Ok(test) => with_choice(alloc, test, height),
        Err(halt) => Err(halt),
    }
}

/// A test, with two branches where they stand behind it.
#[cycle(expressions)]
#[inline(never)]
fn with_choice<'a>(
    alloc: Global,
    test: Found<'a, Measured<Expr>>,
    height: u32,
) -> Result<Found<'a, Measured<Expr>>, Halt>
    requires { length test.rest.now < 2 ^ 32 }
    ensures { (ts : List Token) → Is test.entry (becoming measured ((levels_at height).or_else ts)) → Gives result (becoming measured ((levels_at height).conditional ts)) }
{
    if test.value.height >= height {
        return Ok(test);
    }
    match first_branch(alloc, test.rest, height - 1) {
        Ok(chosen) => {
            let other = otherwise(alloc, chosen.rest, height - 1);
            with_branches(alloc, test, chosen, other)
        }
        Err(Halt::Stopped(left)) => Ok(alone(test, left)),
        Err(Halt::WantOfMemory) => Err(without(test, Halt::WantOfMemory)),
    }
}

/// A question mark and an expression.
#[cycle(expressions)]
fn first_branch(
    alloc: Global,
    tokens: &[Token],
    height: u32,
) -> Result<Found<'_, Measured<Expr>>, Halt>
    requires { length tokens.now < 2 ^ 32 }
    ensures { Gives result (becoming measured (then_run (levels_at height) tokens.now)) }
{
    match behind_sign(Sign::Question, tokens) {
        Some(after) => expr(alloc, after, height),
        None => Err(Halt::Stopped(tokens.len())),
    }
}

/// A colon and a conditional.
#[cycle(expressions)]
fn otherwise(
    alloc: Global,
    tokens: &[Token],
    height: u32,
) -> Result<Found<'_, Measured<Expr>>, Halt>
    requires { length tokens.now < 2 ^ 32 }
    ensures { Gives result (becoming measured (otherwise_run (levels_at height) tokens.now)) }
{
    match behind_sign(Sign::Colon, tokens) {
        Some(after) => conditional(alloc, after, height),
        None => Err(Halt::Stopped(tokens.len())),
    }
}

/// A chain of operators of a level, or an operand alone: the operand is read first, and then the operators of level after level behind it,
/// the tightest first.
#[cycle(expressions)]
fn binary(
    alloc: Global,
    level: Level,
    tokens: &[Token],
    height: u32,
) -> Result<Found<'_, Measured<Expr>>, Halt>
    requires { length tokens.now < 2 ^ 32 }
    ensures { Gives result (becoming measured (level_run level (levels_at height) tokens.now)) }
{
    let mut found = unary(alloc, tokens, height)?;
    let mut next = Level::Times;
    'levels: loop {
        if may_operate(next, found.rest) {
            found = chained(alloc, next, found, height)?;
        }
        match looser_level(next, level) {
            Some(looser) => next = looser,
            None => return Ok(found),
        }
    }
}

/// An operand, with the operators of a level and their operands behind it.
#[cycle(expressions)]
#[inline(never)]
fn chained<'a>(
    alloc: Global,
    level: Level,
    first: Found<'a, Measured<Expr>>,
    height: u32,
) -> Result<Found<'a, Measured<Expr>>, WantOfMemory>
    requires { length first.rest.now < 2 ^ 32 }
    ensures { IfOk result (λ f. (ts : List Token) → Is first.entry (becoming measured (tighter_run level (levels_at height) ts)) → Is f (becoming measured (level_run level (levels_at height) ts))) }
{
    if first.value.height >= height {
        return Ok(first);
    }
    match operands(alloc, level, first.rest, height - 1) {
        Ok(more) => with_operands(alloc, first, more),
        Err(fault) => Err(fault),
    }
}

/// An operand of a level.
#[cycle(expressions)]
fn tighter(
    alloc: Global,
    level: Level,
    tokens: &[Token],
    height: u32,
) -> Result<Found<'_, Measured<Expr>>, Halt>
    requires { length tokens.now < 2 ^ 32 }
    ensures { Gives result (becoming measured (tighter_run level (levels_at height) tokens.now)) }
{
    match tighter_level(level) {
        Some(next) => binary(alloc, next, tokens, height),
        None => unary(alloc, tokens, height),
    }
}

/// Any number of operators of a level, each with its operand.
#[cycle(expressions)]
fn operands(
    alloc: Global,
    level: Level,
    tokens: &[Token],
    height: u32,
) -> Result<Found<'_, Measured<Items<Operand>>>, WantOfMemory>
    requires { length tokens.now < 2 ^ 32 }
    ensures { IfOk result (λ f. Is f (becoming measured_operands (operands_run level height (tighter_run level (levels_at height)) tokens.now))) }
{
    match level {
        Level::Compared => comparisons(alloc, tokens, height),
        _ => same_operands(alloc, level, tokens, height),
    }
}

/// Any number of operators of a level that are told by themselves, each with its operand.
#[cycle(expressions)]
fn same_operands(
    alloc: Global,
    level: Level,
    tokens: &[Token],
    height: u32,
) -> Result<Found<'_, Measured<Items<Operand>>>, WantOfMemory>
    requires { length tokens.now < 2 ^ 32 }
    ensures { IfOk result (λ f. Is f (becoming measured_operands (any_number (operand_run level (tighter_run level (levels_at height))) tokens.now))) }
{
    let mut list = Items::new(alloc);
    let mut most = 0;
    let mut rest = tokens;
    let mut left = tokens.len();
    'operands: loop {
        match operand(alloc, level, rest, height) {
            Ok(found) => {
                let value = found.value;
                most = most.max(value.height);
                list = pushed(list, value.tree)?;
                left = left.min(found.left);
                rest = found.rest;
            }
            Err(Halt::Stopped(reach)) => {
                return Ok(Found {
                    value: Measured {
                        tree: list,
                        height: most,
                    },
                    rest,
                    left: left.min(reach),
                });
            }
            Err(Halt::WantOfMemory) => return Err(without(list, WantOfMemory)),
        }
    }
}

/// An operator of a level and its operand.
#[cycle(expressions)]
fn operand(
    alloc: Global,
    level: Level,
    tokens: &[Token],
    height: u32,
) -> Result<Found<'_, Measured<Operand>>, Halt>
    requires { length tokens.now < 2 ^ 32 }
    ensures { Gives result (becoming measured_operand (operand_run level (tighter_run level (levels_at height)) tokens.now)) }
{
    let op = operator(level, tokens)?;
    let right = tighter(alloc, level, op.rest, height);
    with_operand(op, right)
}

/// Any number of comparisons (JLS 15.20).
#[cycle(expressions)]
fn comparisons(
    alloc: Global,
    tokens: &[Token],
    height: u32,
) -> Result<Found<'_, Measured<Items<Operand>>>, WantOfMemory>
    requires { length tokens.now < 2 ^ 32 }
    ensures { IfOk result (λ f. Is f (becoming measured_operands (operands_run level_of.Compared height (levels_at height).shift tokens.now))) }
{
    let mut list = Items::new(alloc);
    let mut most = 0;
    let mut rest = tokens;
    let mut left = tokens.len();
    let mut opened = false;
    let mut touched = false;
    'links: loop {
        match comparison(alloc, rest, height, opened, touched) {
            Ok(found) => {
                let value = found.value;
                opened = ends_open(&value.tree);
                touched = touched_before(rest, found.rest.len());
                most = most.max(value.height);
                list = pushed(list, value.tree)?;
                left = left.min(found.left);
                rest = found.rest;
            }
            Err(Halt::Stopped(reach)) => {
                return Ok(Found {
                    value: Measured {
                        tree: list,
                        height: most,
                    },
                    rest,
                    left: left.min(reach),
                });
            }
            Err(Halt::WantOfMemory) => return Err(without(list, WantOfMemory)),
        }
    }
}

/// A comparison, where it may stand behind the one before it.
#[cycle(expressions)]
fn comparison(
    alloc: Global,
    tokens: &[Token],
    height: u32,
    opened: bool,
    touched: bool,
) -> Result<Found<'_, Measured<Operand>>, Halt>
    requires { length tokens.now < 2 ^ 32 }
    ensures { Gives result (becoming measured_operand (next_operand_run height (levels_at height).shift opened touched tokens.now)) }
{
    if is_barred(opened, touched, tokens) {
        return Err(Halt::Stopped(tokens.len()));
    }
    match behind_key(Key::Instanceof, tokens) {
        Some(after) => instance(alloc, after, height),
        None => operand(alloc, Level::Compared, tokens, height),
    }
}
