//! Expressions, initialisers and effects where there is room for so many heights.
ghost use Rattle.std.specs.Prelude.{◌≡◌, ◌<◌, ◌≤◌, ◌^◌, cond, length, min, IfOk};
ghost use Rattle.jc_lexer.specs.declared.token.Token.{Token};
ghost use Rattle.jc_grammar.specs.Shapes.{is_effect};
ghost use Rattle.jc_tree.specs.declared.expression.AssignOp.{AssignOp};
ghost use Rattle.jc_tree.specs.declared.expression.Expr.{Expr};
ghost use Rattle.jc_tree.specs.declared.expression.Expr.TheVariants as expr_of;
ghost use Rattle.jc_reading.specs.Giving.{Gives};
ghost use Rattle.jc_reading.specs.Reading.{Found as read_found, Stopped as read_stopped, as_new, in_turn};
ghost use Rattle.jc_expr_laws.specs.EffectReading.{strictly_closing};
ghost use Rattle.jc_expr_laws.specs.ExprReading.{exprs, strict_effect};
ghost use Rattle.jc_expr_laws.specs.LevelReading.{assign_made, assign_run};
ghost use Rattle.jc_parse_expr.specs.Measuring.{measured};
ghost use Rattle.jc_parse_expr.specs.BinaryLevels.{levels_at, post_at};

use crate::levels::{assigned, conditional, expr};
use crate::lists::array_init;
use crate::measured::Measured;
use crate::operator_nodes::assign_node;
use crate::operators::crement_op;
use crate::pieces::is_at;
use crate::primes::post;
use crate::shapes::is_effect;
use crate::unaries::prefixed;
use jc_lexer::{Sign, Token};
use jc_reading::{Found, Halt, without};
use jc_tree::{AssignOp, Expr, Init};
use std::alloc::Global;

/// The longest expression of at most such a height.
pub fn expr_within(alloc: Global, tokens: &[Token], height: u32) -> Result<Found<'_, Expr>, Halt>
    requires { length tokens.now < 2 ^ 32 }
    ensures read { Gives result (exprs.expr height tokens.now) }
    ensures shorter { IfOk result (λ f. length f.rest.now ≤ length tokens.now) }
{
    let found = expr(alloc, tokens, height)?;
    Ok(without_height(found))
}

/// The longest conditional expression (JLS 15.25) of at most such a height: one that is no assignment.
pub fn conditional_within(
    alloc: Global,
    tokens: &[Token],
    height: u32,
) -> Result<Found<'_, Expr>, Halt>
    requires { length tokens.now < 2 ^ 32 }
    ensures read { Gives result (exprs.conditional height tokens.now) }
    ensures shorter { IfOk result (λ f. length f.rest.now ≤ length tokens.now) }
{
    let found = conditional(alloc, tokens, height)?;
    Ok(without_height(found))
}

/// A tree alone.
fn without_height<'a>(found: Found<'a, Measured<Expr>>) -> Found<'a, Expr>
    ensures { (result.value ≡ found.entry.value.tree) × (result.rest.now ≡ found.entry.rest.now) × (result.left ≡ found.entry.left) }
{
    Found {
        value: found.value.tree,
        rest: found.rest,
        left: found.left,
    }
}

/// The longest initialiser (JLS 8.3, 10.6) of at most such a height.
pub fn init_within(alloc: Global, tokens: &[Token], height: u32) -> Result<Found<'_, Init>, Halt>
    requires { length tokens.now < 2 ^ 32 }
    ensures read { Gives result (exprs.init height tokens.now) }
    ensures shorter { IfOk result (λ f. length f.rest.now ≤ length tokens.now) }
{
    if is_at(Sign::LeftBrace, tokens) {
        let array = array_init(alloc, tokens, height)?;
        return Ok(Found {
            value: Init::Nested(array.value.tree),
            rest: array.rest,
            left: array.left,
        });
    }
    let value = expr(alloc, tokens, height)?;
    Ok(Found {
        value: Init::Value(value.value.tree),
        rest: value.rest,
        left: value.left,
    })
}

/// An expression that may stand as a statement (JLS 14.8), with operands of at most such a height, where it ends before a sign that ends
/// it.
pub fn effect_within(alloc: Global, tokens: &[Token], height: u32) -> Result<Found<'_, Expr>, Halt>
    requires { length tokens.now < 2 ^ 32 }
    ensures read { Gives result (strict_effect height tokens.now) }
    ensures shorter { IfOk result (λ f. length f.rest.now ≤ length tokens.now) }
{
    match crement_op(tokens) {
        Some((op, after)) => {
            let found = prefixed(alloc, op, after, height)?;
            Ok(without_height(found))
        }
        None => changing(alloc, tokens, height),
    }
}

/// An assignment, or another expression of the postfix level that may stand as a statement.
fn changing(alloc: Global, tokens: &[Token], height: u32) -> Result<Found<'_, Expr>, Halt>
    requires { length tokens.now < 2 ^ 32 }
    ensures read { Gives result (as_new assign_made (strictly_closing is_effect (post_at height) (in_turn assign_run (levels_at height).expr)) tokens.now) }
    ensures shorter { IfOk result (λ f. length f.rest.now ≤ length tokens.now) }
{
    let value = post(alloc, tokens, height)?;
    match assigned(alloc, value.rest, height) {
        Ok(more) => changed(alloc, value, more),
        Err(Halt::Stopped(left)) => effect_alone(value, left),
        Err(Halt::WantOfMemory) => Err(without(value, Halt::WantOfMemory)),
    }
}

/// An assignment as a statement.
fn changed<'a>(
    alloc: Global,
    target: Found<'a, Measured<Expr>>,
    more: Found<'a, (AssignOp, Measured<Expr>)>,
) -> Result<Found<'a, Expr>, Halt>
    ensures read { Gives result (read_found (expr_of.Assign target.entry.value.tree more.entry.value.0 more.entry.value.1.tree) more.entry.rest.now (min target.entry.left more.entry.left)) }
    ensures rest { IfOk result (λ f. f.rest.now ≡ more.entry.rest.now) }
{
    let (op, value) = more.value;
    let left = target.left.min(more.left);
    let node = assign_node(alloc, target.value, op, value)?;
    Ok(Found {
        value: node.tree,
        rest: more.rest,
        left,
    })
}

/// A value that may stand as a statement.
fn effect_alone<'a>(value: Found<'a, Measured<Expr>>, left: usize) -> Result<Found<'a, Expr>, Halt>
    ensures read { Gives result (cond (is_effect value.entry.value.tree) (read_found value.entry.value.tree value.entry.rest.now (min value.entry.left left)) (read_stopped (min value.entry.left left))) }
    ensures rest { IfOk result (λ f. f.rest.now ≡ value.entry.rest.now) }
{
    let left = value.left.min(left);
    if !is_effect(&value.value.tree) {
        return Err(without(value, Halt::Stopped(left)));
    }
    Ok(Found {
        value: value.value.tree,
        rest: value.rest,
        left,
    })
}
