//! Prefix operators and the types of casts (JLS 15.15, 15.16).
ghost use Rattle.std.specs.Prelude.{◌<◌, ◌^◌, length, IfOk};
ghost use Rattle.jc_reading.specs.Giving.{Gives, Is};
ghost use Rattle.jc_reading.specs.Reading.{Read, any_number, noting};
ghost use Rattle.jc_tree.specs.declared.expression.Expr.{Expr};
ghost use Rattle.jc_parse_expr.specs.declared.measured.Measured.{Measured};
ghost use Rattle.jc_expr_laws.specs.LevelReading.{prefix_op_run};
ghost use Rattle.jc_parse_expr.specs.BinaryLevels.{cast_type_run};

use crate::measured::Measured;
use crate::operators::prefix_op;
use jc_lexer::{Sign, Token};
use jc_parse_type::type_within;
use jc_reading::{Found, Halt, behind_sign, without};
use jc_rules::{Items, WantOfMemory};
use jc_tree::{Expr, PrefixOp, TypeTree};
use std::alloc::Global;

/// Any number of prefix operators.
pub fn prefix_ops(
    alloc: Global,
    tokens: &[Token],
) -> Result<Found<'_, Items<PrefixOp>>, WantOfMemory>
    ensures { IfOk result (λ f. Is f (any_number prefix_op_run tokens.now)) }
{
    let mut ops = Items::new(alloc);
    let mut rest = tokens;
    let mut left = tokens.len();
    'signs: loop {
        match prefix_op(rest) {
            Some((op, after)) => {
                ops.push(op)?;
                left = left.min(after.len());
                rest = after;
            }
            None => {
                return Ok(Found {
                    value: ops,
                    rest,
                    left: left.min(rest.len()),
                });
            }
        }
    }
}

/// A type and the parenthesis behind it.
pub fn cast_type(alloc: Global, tokens: &[Token], height: u32) -> Result<Found<'_, TypeTree>, Halt>
    requires { length tokens.now < 2 ^ 32 }
    ensures { Gives result (cast_type_run height tokens.now) }
{
    let ty = type_within(alloc, tokens, height)?;
    match behind_sign(Sign::RightParen, ty.rest) {
        Some(rest) => Ok(Found {
            value: ty.value,
            rest,
            left: ty.left.min(rest.len()),
        }),
        None => {
            let left = ty.left.min(ty.rest.len());
            Err(without(ty, Halt::Stopped(left)))
        }
    }
}

/// The same answer, with a reach at least so far.
pub fn noting<'a>(
    left: usize,
    read: Result<Found<'a, Measured<Expr>>, Halt>,
) -> Result<Found<'a, Measured<Expr>>, Halt>
    ensures { (m : Read (Measured Expr)) → Gives read.entry m → Gives result (noting left m) }
{
    match read {
        Ok(found) => Ok(Found {
            value: found.value,
            rest: found.rest,
            left: left.min(found.left),
        }),
        Err(Halt::Stopped(reach)) => Err(Halt::Stopped(left.min(reach))),
        Err(Halt::WantOfMemory) => Err(Halt::WantOfMemory),
    }
}
