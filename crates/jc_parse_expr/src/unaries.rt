//! Prefix operators and casts (JLS 15.15, 15.16), read from left to right where there is room for so many heights.
ghost use Rattle.std.specs.Prelude.{◌<◌, ◌^◌, length};
ghost use Rattle.jc_reading.specs.Giving.{Gives};
ghost use Rattle.jc_tree.specs.declared.expression.Expr.TheVariants as expr_of;
ghost use Rattle.jc_reading.specs.Reading.{an_ident_at, as_new, becoming};
ghost use Rattle.jc_expr_laws.specs.LevelReading.{cast_run, operand_for};
ghost use Rattle.jc_parse_expr.specs.Measuring.{measured};
ghost use Rattle.jc_parse_expr.specs.BinaryLevels.{cast_made, levels_at, prefixed_run};

use crate::measured::Measured;
use crate::operator_joints::{with_prefixes, with_type};
use crate::operators::{plain_op, prefix_op};
use crate::pieces::{is_at, is_lone_name};
use crate::prefixes::{cast_type, noting, prefix_ops};
use crate::primary_nodes::name_node;
use crate::primes::post;
use crate::shapes::is_primitive;
use jc_lexer::{Sign, Token};
use jc_reading::{Found, Halt, identifier, place_of_sign};
use jc_tree::{Expr, PrefixOp};
use std::alloc::Global;

/// The name at the front.
#[inline(never)]
fn lone_name(alloc: Global, tokens: &[Token]) -> Result<Found<'_, Measured<Expr>>, Halt>
    ensures { Gives result (becoming measured (as_new expr_of.Name an_ident_at tokens.now)) }
{
    match identifier(alloc, tokens) {
        Ok(name) => Ok(Found {
            value: name_node(name.value),
            rest: name.rest,
            left: name.left,
        }),
        Err(halt) => Err(halt),
    }
}

/// Prefix operators before an operand, or an operand alone.
#[cycle(expressions)]
pub fn unary(
    alloc: Global,
    tokens: &[Token],
    height: u32,
) -> Result<Found<'_, Measured<Expr>>, Halt>
    requires { length tokens.now < 2 ^ 32 }
    ensures { Gives result (becoming measured ((levels_at height).unary tokens.now)) }
{
    if height < 2 {
        return bare(alloc, tokens, height);
    }
    if is_lone_name(tokens) {
        return lone_name(alloc, tokens);
    }
    match prefix_op(tokens) {
        Some((op, after)) => prefixed(alloc, op, after, height - 1),
        None => bare(alloc, tokens, height),
    }
}

/// The same, where the first operator is `!` or `~`.
#[cycle(expressions)]
fn plain(alloc: Global, tokens: &[Token], height: u32) -> Result<Found<'_, Measured<Expr>>, Halt>
    requires { length tokens.now < 2 ^ 32 }
    ensures { Gives result (becoming measured ((levels_at height).plain tokens.now)) }
{
    if height < 2 {
        return bare(alloc, tokens, height);
    }
    match plain_op(tokens) {
        Some((op, after)) => prefixed(alloc, op, after, height - 1),
        None => bare(alloc, tokens, height),
    }
}

/// More prefix operators and an operand, behind a first operator.
#[cycle(expressions)]
pub fn prefixed(
    alloc: Global,
    first: PrefixOp,
    tokens: &[Token],
    height: u32,
) -> Result<Found<'_, Measured<Expr>>, Halt>
    requires { length tokens.now < 2 ^ 32 }
    ensures { Gives result (becoming measured (prefixed_run first (levels_at height).bare tokens.now)) }
{
    let ops = prefix_ops(alloc, tokens)?;
    let operand = bare(alloc, ops.rest, height);
    with_prefixes(alloc, first, ops, operand)
}

/// A cast, or a primary with postfix operators.
#[cycle(expressions)]
fn bare(alloc: Global, tokens: &[Token], height: u32) -> Result<Found<'_, Measured<Expr>>, Halt>
    requires { length tokens.now < 2 ^ 32 }
    ensures { Gives result (becoming measured ((levels_at height).bare tokens.now)) }
{
    if height < 2 {
        return post(alloc, tokens, height);
    }
    if !is_at(Sign::LeftParen, tokens) {
        return post(alloc, tokens, height);
    }
    match cast(alloc, tokens, height - 1) {
        Ok(found) => Ok(found),
        Err(Halt::Stopped(left)) => noting(left, post(alloc, tokens, height)),
        Err(Halt::WantOfMemory) => Err(Halt::WantOfMemory),
    }
}

/// A cast, whose parts have at most such a height.
#[cycle(expressions)]
#[inline(never)]
fn cast(alloc: Global, tokens: &[Token], height: u32) -> Result<Found<'_, Measured<Expr>>, Halt>
    requires { length tokens.now < 2 ^ 32 }
    ensures { Gives result (becoming measured (becoming cast_made (cast_run height (levels_at height).unary (levels_at height).plain tokens.now))) }
{
    let Some((at, after)) = place_of_sign(Sign::LeftParen, tokens) else {
        return Err(Halt::Stopped(tokens.len()));
    };
    let ty = cast_type(alloc, after, height)?;
    let operand = cast_operand(alloc, is_primitive(&ty.value), ty.rest, height);
    with_type(alloc, at, ty, operand)
}

/// The operand of a cast: behind a primitive type it may begin with `+` or `-`.
#[cycle(expressions)]
fn cast_operand(
    alloc: Global,
    primitive: bool,
    tokens: &[Token],
    height: u32,
) -> Result<Found<'_, Measured<Expr>>, Halt>
    requires { length tokens.now < 2 ^ 32 }
    ensures { Gives result (becoming measured (operand_for primitive (levels_at height).unary (levels_at height).plain tokens.now)) }
{
    if primitive {
        unary(alloc, tokens, height)
    } else {
        plain(alloc, tokens, height)
    }
}
