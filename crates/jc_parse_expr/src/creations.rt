//! What stands behind `new` (JLS 15.9, 15.10).
ghost use Rattle.std.specs.Prelude.{◌<◌, ◌^◌, ◌∷◌, [], length, IfOk};
ghost use Rattle.jc_lexer.specs.declared.token.Sign.TheVariants as sign_of;
ghost use Rattle.jc_tree.specs.declared.expression.Expr.TheVariants as expr_of;
ghost use Rattle.jc_tree.specs.Heights.{creation_height, expr_height};
ghost use Rattle.jc_reading.specs.Kinds.{sign_code};
ghost use Rattle.jc_reading.specs.Reading.{any_number, as_new, before_it, in_turn, of_kind};
ghost use Rattle.jc_parse_type.specs.TypeReading.{dims_run};
ghost use Rattle.jc_expr_laws.specs.PrimeReading.{array_creation, array_tail_run, class_creation, class_tail_run, creation_run, object_run};
ghost use Rattle.jc_parse_expr.specs.PrimeCode.{Measures, Reads, array_in, expr_in, exprs_height, initial_made, length_run, object_made, sized_made, sized_run};

use crate::lists::{actuals, array_init, inner};
use crate::measured::Measured;
use crate::pieces::{diamond, is_at};
use crate::primary_joints::{noting_creation, object_with, sized_with};
use crate::primary_nodes::{initialised_node, new_node};
use crate::shapes::ends_bare;
use crate::skips::body;
use jc_lexer::{Sign, Token};
use jc_parse_type::{class_within, dims, primitive};
use jc_reading::{Found, Halt, behind_sign, pushed, without};
use jc_rules::{Items, WantOfMemory};
use jc_tree::{BaseTree, ClassTree, Creation, Expr};
use std::alloc::Global;

/// An expression and the bracket behind it.
#[cycle(expressions)]
pub fn index(
    alloc: Global,
    tokens: &[Token],
    height: u32,
) -> Result<Found<'_, Measured<Expr>>, Halt>
    requires { length tokens.now < 2 ^ 32 }
    ensures { Measures expr_height result (as_new before_it (in_turn (expr_in height) (of_kind (sign_code sign_of.RightBracket))) tokens.now) }
{
    let index = inner(alloc, tokens, height)?;
    match behind_sign(Sign::RightBracket, index.rest) {
        Some(rest) => Ok(Found {
            value: index.value,
            rest,
            left: index.left.min(rest.len()),
        }),
        None => {
            let left = index.left.min(index.rest.len());
            Err(without(index, Halt::Stopped(left)))
        }
    }
}

/// A length of an array in its brackets.
#[cycle(expressions)]
#[tactic(auto, using(crate::proofs::ListSteps::length_inside))]
fn length_in(
    alloc: Global,
    tokens: &[Token],
    height: u32,
) -> Result<Found<'_, Measured<Expr>>, Halt>
    requires { length tokens.now < 2 ^ 32 }
    ensures { Measures expr_height result (length_run (expr_in height) tokens.now) }
{
    match behind_sign(Sign::LeftBracket, tokens) {
        Some(inside) => index(alloc, inside, height),
        None => Err(Halt::Stopped(tokens.len())),
    }
}

/// Lengths of an array.
#[cycle(expressions)]
fn lengths(
    alloc: Global,
    tokens: &[Token],
    height: u32,
) -> Result<Found<'_, Measured<Items<Expr>>>, WantOfMemory>
    requires { length tokens.now < 2 ^ 32 }
    ensures read { IfOk result (λ f. Reads exprs_height f (any_number (length_run (expr_in height)) tokens.now)) }
    ensures near { IfOk result (λ f. length f.rest.now < 2 ^ 32) }
{
    let mut list = Items::new(alloc);
    let mut most = 0;
    let mut rest = tokens;
    let mut left = tokens.len();
    'lengths: loop {
        match length_in(alloc, rest, height) {
            Ok(found) => {
                let value = found.value;
                most = most.max(value.height);
                list = pushed(list, value.tree)?;
                left = left.min(found.left);
                rest = found.rest;
            }
            Err(Halt::Stopped(reach)) => {
                return Ok(Found {
                    value: Measured {
                        tree: list,
                        height: most,
                    },
                    rest,
                    left: left.min(reach),
                });
            }
            Err(Halt::WantOfMemory) => return Err(without(list, WantOfMemory)),
        }
    }
}

/// An array with lengths, behind its first bracket.
#[cycle(expressions)]
#[tactic(auto, using(crate::proofs::CreationSteps::sized_stops))]
#[inline(never)]
fn with_lengths(
    alloc: Global,
    element: BaseTree,
    tokens: &[Token],
    height: u32,
) -> Result<Found<'_, Measured<Creation>>, Halt>
    requires { length tokens.now < 2 ^ 32 }
    ensures { Measures creation_height result (as_new (sized_made element) (sized_run (expr_in height)) tokens.now) }
{
    match index(alloc, tokens, height) {
        Ok(first) => {
            let more = lengths(alloc, first.rest, height);
            sized_with(alloc, element, first, more)
        }
        Err(Halt::Stopped(left)) => Err(without(element, Halt::Stopped(left))),
        Err(Halt::WantOfMemory) => Err(without(element, Halt::WantOfMemory)),
    }
}

/// An array with an initialiser, behind its first pair of brackets.
#[cycle(expressions)]
#[tactic(auto, using(crate::proofs::CreationCode::initial_reads, crate::proofs::CreationCode::initial_stops))]
fn initial(
    alloc: Global,
    element: BaseTree,
    tokens: &[Token],
    height: u32,
) -> Result<Found<'_, Measured<Creation>>, Halt>
    requires { length tokens.now < 2 ^ 32 }
    ensures { Measures creation_height result (as_new (initial_made element) (in_turn dims_run (array_in height)) tokens.now) }
{
    let dims = dims(tokens);
    match array_init(alloc, dims.rest, height) {
        Ok(array) => Ok(Found {
            value: initialised_node(element, dims.value, array.value),
            rest: array.rest,
            left: dims.left.min(array.left),
        }),
        Err(Halt::Stopped(left)) => {
            let left = dims.left.min(left);
            Err(without(element, Halt::Stopped(left)))
        }
        Err(Halt::WantOfMemory) => Err(without(element, Halt::WantOfMemory)),
    }
}

/// What makes an array of an element type.
#[cycle(expressions)]
#[tactic(auto, using(crate::proofs::CreationSteps::tail_low, crate::proofs::CreationSteps::tail_open, crate::proofs::CreationSteps::tail_initial, crate::proofs::CreationSteps::tail_sized))]
fn array_tail(
    alloc: Global,
    element: BaseTree,
    tokens: &[Token],
    height: u32,
) -> Result<Found<'_, Measured<Creation>>, Halt>
    requires { length tokens.now < 2 ^ 32 }
    ensures { Measures creation_height result (as_new (array_creation element) (array_tail_run height (expr_in height) (array_in height)) tokens.now) }
{
    if height == 0 {
        return Err(without(element, Halt::Stopped(tokens.len())));
    }
    let Some(inside) = behind_sign(Sign::LeftBracket, tokens) else {
        return Err(without(element, Halt::Stopped(tokens.len())));
    };
    match behind_sign(Sign::RightBracket, inside) {
        Some(after) => initial(alloc, element, after, height),
        None => with_lengths(alloc, element, inside, height),
    }
}

/// What makes an object of a class, behind the diamond.
#[cycle(expressions)]
#[tactic(auto, using(crate::proofs::CreationCode::object_stops))]
fn object_parts(
    alloc: Global,
    class: ClassTree,
    diamond: bool,
    tokens: &[Token],
    height: u32,
) -> Result<Found<'_, Measured<Creation>>, Halt>
    requires { length tokens.now < 2 ^ 32 }
    ensures { Measures creation_height result (as_new (object_made class diamond) (object_run height (expr_in height)) tokens.now) }
{
    match actuals(alloc, tokens, height) {
        Ok(actuals) => {
            let body = body(alloc, actuals.rest, height);
            object_with(class, diamond, actuals, body)
        }
        Err(Halt::Stopped(left)) => Err(without(class, Halt::Stopped(left))),
        Err(Halt::WantOfMemory) => Err(without(class, Halt::WantOfMemory)),
    }
}

/// What makes an object or an array of a class.
#[cycle(expressions)]
#[tactic(auto, using(crate::proofs::CreationSteps::class_array, crate::proofs::CreationSteps::class_plain, crate::proofs::CreationSteps::class_diamond))]
fn class_tail(
    alloc: Global,
    class: ClassTree,
    tokens: &[Token],
    height: u32,
) -> Result<Found<'_, Measured<Creation>>, Halt>
    requires { length tokens.now < 2 ^ 32 }
    ensures { Measures creation_height result (as_new (class_creation class) (class_tail_run height (expr_in height) (array_in height) class) tokens.now) }
{
    if is_at(Sign::LeftBracket, tokens) {
        return array_tail(alloc, BaseTree::Class(class), tokens, height);
    }
    if !ends_bare(&class) {
        return object_parts(alloc, class, false, tokens, height);
    }
    let diamond = diamond(tokens);
    let object = object_parts(alloc, class, diamond.value, diamond.rest, height);
    noting_creation(diamond.left, object)
}

/// What stands behind `new`, of at most this height.
#[cycle(expressions)]
#[tactic(auto, using(crate::proofs::CreationSteps::creation_low, crate::proofs::CreationSteps::creation_word, crate::proofs::CreationSteps::creation_class, crate::proofs::CreationSteps::creation_stops))]
pub fn creation(
    alloc: Global,
    tokens: &[Token],
    height: u32,
) -> Result<Found<'_, Measured<Creation>>, Halt>
    requires { length tokens.now < 2 ^ 32 }
    ensures { Measures creation_height result (creation_run height (expr_in height) (array_in height) tokens.now) }
{
    if let Some((at, word, rest)) = primitive(tokens) {
        if height == 0 {
            return Err(Halt::Stopped(tokens.len()));
        }
        return array_tail(alloc, BaseTree::Primitive { at, word }, rest, height);
    }
    match class_within(alloc, tokens, height) {
        Ok(class) => {
            let creation = class_tail(alloc, class.value, class.rest, height);
            noting_creation(class.left, creation)
        }
        Err(Halt::Stopped(left)) => Err(Halt::Stopped(left)),
        Err(Halt::WantOfMemory) => Err(Halt::WantOfMemory),
    }
}

/// A creation whose `new` stands at an offset.
#[cycle(expressions)]
#[inline(never)]
pub fn created_at(
    alloc: Global,
    at: u32,
    tokens: &[Token],
    height: u32,
) -> Result<Found<'_, Measured<Expr>>, Halt>
    requires { length tokens.now < 2 ^ 32 }
    ensures { Measures expr_height result (as_new (expr_of.New at) (creation_run height (expr_in height) (array_in height)) tokens.now) }
{
    let creation = creation(alloc, tokens, height)?;
    Ok(Found {
        value: new_node(alloc, at, creation.value)?,
        rest: creation.rest,
        left: creation.left,
    })
}
