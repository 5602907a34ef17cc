//! Lists of expressions and of initialisers (JLS 10.6, 15.12).
ghost use Rattle.std.specs.Prelude.{◌≡◌, ◌<◌, ◌^◌, ◌∷◌, [], length, IfOk};
ghost use Rattle.jc_lexer.specs.declared.token.Sign.TheVariants as sign_of;
ghost use Rattle.jc_tree.specs.Heights.{expr_height, init_height};
ghost use Rattle.jc_reading.specs.Giving.{Gives};
ghost use Rattle.jc_reading.specs.Kinds.{sign_code};
ghost use Rattle.jc_reading.specs.Reading.{as_new, becoming, behind_it, commas_run, in_turn, of_kind};
ghost use Rattle.jc_part_laws.specs.PartReading.{closing_run};
ghost use Rattle.jc_expr_laws.specs.PrimeReading.{actuals_run};
ghost use Rattle.jc_expr_laws.specs.ExprReading.{readers};
ghost use Rattle.jc_parse_expr.specs.Measuring.{measured_array};
ghost use Rattle.jc_parse_expr.specs.PrimeCode.{IsMeasured, Measures, Reads, empty_row_tree, expr_in, exprs_height, init_in, init_row_run, inits_height, row_height, row_tree, some_exprs_run};

use crate::levels::expr;
use crate::measured::Measured;
use crate::parts::Row;
use crate::pieces::{closing, ends_row, is_at};
use crate::primary_nodes::{array_node, nested_init, value_init};
use jc_lexer::{Sign, Token};
use jc_reading::{Found, Halt, behind_sign, place_of_sign, pushed, without};
use jc_rules::{Items, WantOfMemory};
use jc_tree::{ArrayInit, Expr, Init};
use std::alloc::Global;

/// An expression in another.
#[cycle(expressions)]
#[tactic(auto, using(crate::proofs::Inners::expr_measures))]
pub fn inner(
    alloc: Global,
    tokens: &[Token],
    height: u32,
) -> Result<Found<'_, Measured<Expr>>, Halt>
    requires { length tokens.now < 2 ^ 32 }
    ensures { Measures expr_height result (expr_in height tokens.now) }
{
    expr(alloc, tokens, height)
}

/// A comma and an expression.
#[cycle(expressions)]
#[tactic(auto, using(crate::proofs::ListSteps::comma_expr_inside))]
fn comma_expr(
    alloc: Global,
    tokens: &[Token],
    height: u32,
) -> Result<Found<'_, Measured<Expr>>, Halt>
    requires { length tokens.now < 2 ^ 32 }
    ensures { Measures expr_height result (as_new behind_it (in_turn (of_kind (sign_code sign_of.Comma)) (expr_in height)) tokens.now) }
{
    match behind_sign(Sign::Comma, tokens) {
        Some(after) => inner(alloc, after, height),
        None => Err(Halt::Stopped(tokens.len())),
    }
}

/// One or more expressions with commas between them.
#[cycle(expressions)]
fn exprs(
    alloc: Global,
    tokens: &[Token],
    height: u32,
) -> Result<Found<'_, Measured<Items<Expr>>>, Halt>
    requires { length tokens.now < 2 ^ 32 }
    ensures { Measures exprs_height result (commas_run (expr_in height) tokens.now) }
{
    let first = inner(alloc, tokens, height)?;
    let mut rest = first.rest;
    let mut left = first.left;
    let value = first.value;
    let mut most = value.height;
    let mut list = pushed(Items::new(alloc), value.tree)?;
    'commas: loop {
        match comma_expr(alloc, rest, height) {
            Ok(found) => {
                let value = found.value;
                most = most.max(value.height);
                list = pushed(list, value.tree)?;
                left = left.min(found.left);
                rest = found.rest;
            }
            Err(Halt::Stopped(reach)) => {
                return Ok(Found {
                    value: Measured {
                        tree: list,
                        height: most,
                    },
                    rest,
                    left: left.min(reach),
                });
            }
            Err(Halt::WantOfMemory) => return Err(without(list, Halt::WantOfMemory)),
        }
    }
}

/// Expressions with commas between them, where some stand there.
#[cycle(expressions)]
fn some_exprs(
    alloc: Global,
    tokens: &[Token],
    height: u32,
) -> Result<Found<'_, Measured<Items<Expr>>>, WantOfMemory>
    requires { length tokens.now < 2 ^ 32 }
    ensures { IfOk result (λ f. Reads exprs_height f (some_exprs_run (expr_in height) tokens.now)) }
{
    match exprs(alloc, tokens, height) {
        Ok(found) => Ok(found),
        Err(Halt::Stopped(left)) => Ok(Found {
            value: Measured {
                tree: Items::new(alloc),
                height: 0,
            },
            rest: tokens,
            left,
        }),
        Err(Halt::WantOfMemory) => Err(WantOfMemory),
    }
}

/// Actual arguments between parentheses.
#[cycle(expressions)]
#[tactic(auto, using(crate::proofs::ListSteps::actuals_shut, crate::proofs::ListSteps::actuals_closed, crate::proofs::ListSteps::actuals_open))]
pub fn actuals(
    alloc: Global,
    tokens: &[Token],
    height: u32,
) -> Result<Found<'_, Measured<Items<Expr>>>, Halt>
    requires { length tokens.now < 2 ^ 32 }
    ensures { Measures exprs_height result (actuals_run (expr_in height) tokens.now) }
{
    let Some(inside) = behind_sign(Sign::LeftParen, tokens) else {
        return Err(Halt::Stopped(tokens.len()));
    };
    let list = some_exprs(alloc, inside, height)?;
    match behind_sign(Sign::RightParen, list.rest) {
        Some(rest) => Ok(Found {
            value: list.value,
            rest,
            left: inside.len().min(list.left.min(rest.len())),
        }),
        None => {
            let left = inside.len().min(list.left.min(list.rest.len()));
            Err(without(list, Halt::Stopped(left)))
        }
    }
}

/// An initialiser: an array initialiser or an expression.
#[cycle(expressions)]
#[tactic(auto, using(crate::proofs::Inners::init_array, crate::proofs::Inners::init_value, crate::proofs::Inners::array_measures))]
pub fn init(alloc: Global, tokens: &[Token], height: u32) -> Result<Found<'_, Measured<Init>>, Halt>
    requires { length tokens.now < 2 ^ 32 }
    ensures { Measures init_height result (init_in height tokens.now) }
{
    if is_at(Sign::LeftBrace, tokens) {
        let array = array_init(alloc, tokens, height)?;
        return Ok(Found {
            value: nested_init(array.value),
            rest: array.rest,
            left: array.left,
        });
    }
    let value = inner(alloc, tokens, height)?;
    Ok(Found {
        value: value_init(value.value),
        rest: value.rest,
        left: value.left,
    })
}

/// A comma and an initialiser.
#[cycle(expressions)]
#[tactic(auto, using(crate::proofs::ListSteps::comma_init_inside))]
fn comma_init(
    alloc: Global,
    tokens: &[Token],
    height: u32,
) -> Result<Found<'_, Measured<Init>>, Halt>
    requires { length tokens.now < 2 ^ 32 }
    ensures { Measures init_height result (as_new behind_it (in_turn (of_kind (sign_code sign_of.Comma)) (init_in height)) tokens.now) }
{
    match behind_sign(Sign::Comma, tokens) {
        Some(after) => init(alloc, after, height),
        None => Err(Halt::Stopped(tokens.len())),
    }
}

/// One or more initialisers with commas between them.
#[cycle(expressions)]
fn inits(
    alloc: Global,
    tokens: &[Token],
    height: u32,
) -> Result<Found<'_, Measured<Items<Init>>>, Halt>
    requires { length tokens.now < 2 ^ 32 }
    ensures { Measures inits_height result (commas_run (init_in height) tokens.now) }
{
    let first = init(alloc, tokens, height)?;
    let mut rest = first.rest;
    let mut left = first.left;
    let value = first.value;
    let mut most = value.height;
    let mut list = pushed(Items::new(alloc), value.tree)?;
    'commas: loop {
        match comma_init(alloc, rest, height) {
            Ok(found) => {
                let value = found.value;
                most = most.max(value.height);
                list = pushed(list, value.tree)?;
                left = left.min(found.left);
                rest = found.rest;
            }
            Err(Halt::Stopped(reach)) => {
                return Ok(Found {
                    value: Measured {
                        tree: list,
                        height: most,
                    },
                    rest,
                    left: left.min(reach),
                });
            }
            Err(Halt::WantOfMemory) => return Err(without(list, Halt::WantOfMemory)),
        }
    }
}

/// The parts of an array initialiser and its end.
#[cycle(expressions)]
#[tactic(auto, using(crate::proofs::ListSteps::row_empty, crate::proofs::Inners::row_closed, crate::proofs::Inners::row_open, crate::proofs::Inners::row_stops))]
fn row(alloc: Global, tokens: &[Token], height: u32) -> Result<Found<'_, Measured<Row>>, Halt>
    requires { length tokens.now < 2 ^ 32 }
    ensures { Measures row_height result (as_new row_tree (init_row_run (init_in height)) tokens.now) }
{
    if ends_row(tokens) {
        return empty_row(alloc, tokens);
    }
    let list = inits(alloc, tokens, height)?;
    match closing(list.rest) {
        Ok((trailing, rest)) => Ok(Found {
            value: row_of(list.value, trailing),
            rest,
            left: list.left.min(rest.len()),
        }),
        Err(left) => {
            let left = list.left.min(left);
            Err(without(list, Halt::Stopped(left)))
        }
    }
}

/// An array initialiser of at most this height.
#[cycle(expressions)]
#[tactic(auto, using(crate::proofs::Inners::array_gives, crate::proofs::Inners::array_stops, crate::proofs::Inners::array_closed, crate::proofs::Inners::array_lacks))]
pub fn array_init(
    alloc: Global,
    tokens: &[Token],
    height: u32,
) -> Result<Found<'_, Measured<ArrayInit>>, Halt>
    requires { length tokens.now < 2 ^ 32 }
    ensures { Gives result (becoming measured_array ((readers height).array tokens.now)) }
{
    if height == 0 {
        return Err(Halt::Stopped(tokens.len()));
    }
    let Some((at, inside)) = place_of_sign(Sign::LeftBrace, tokens) else {
        return Err(Halt::Stopped(tokens.len()));
    };
    match row(alloc, inside, height - 1) {
        Ok(row) => Ok(Found {
            value: array_node(at, row.value),
            rest: row.rest,
            left: row.left,
        }),
        Err(Halt::Stopped(left)) => Err(Halt::Stopped(left)),
        Err(Halt::WantOfMemory) => Err(Halt::WantOfMemory),
    }
}

/// The end of an array initialiser without parts.
fn empty_row(alloc: Global, tokens: &[Token]) -> Result<Found<'_, Measured<Row>>, Halt>
    ensures { Measures row_height result (as_new empty_row_tree (closing_run sign_of.Comma sign_of.RightBrace) tokens.now) }
{
    match closing(tokens) {
        Ok((trailing, rest)) => Ok(Found {
            value: Measured {
                tree: Row {
                    inits: Items::new(alloc),
                    trailing,
                },
                height: 0,
            },
            rest,
            left: rest.len(),
        }),
        Err(left) => Err(Halt::Stopped(left)),
    }
}

/// The parts of an array initialiser.
fn row_of(list: Measured<Items<Init>>, trailing: bool) -> Measured<Row>
    requires { IsMeasured inits_height list }
    ensures { (result.tree ≡ row_tree (list.tree, trailing)) × IsMeasured row_height result }
{
    Measured {
        tree: Row {
            inits: list.tree,
            trailing,
        },
        height: list.height,
    }
}
