//! Formal parameters, variables and results of methods (JLS 8.3, 8.4.1, 8.4.5).
ghost use Rattle.std.specs.Prelude.{◌≡◌, ◌<◌, ◌≤◌, ◌^◌, length, IfOk, None};
ghost use Rattle.jc_lexer.specs.declared.token.Sign.TheVariants as sign_of;
ghost use Rattle.jc_reading.specs.Giving.{Gives, Is};
ghost use Rattle.jc_reading.specs.Kinds.{sign_code};
ghost use Rattle.jc_reading.specs.Reading.{Read, as_new, behind_it, becoming, in_turn, noting, of_kind, perhaps};
ghost use Rattle.jc_expr_laws.specs.ExprReading.{exprs};
ghost use Rattle.jc_part_laws.specs.PartReading.{formal_run, formals_run, var_run};
ghost use Rattle.jc_parse_parts.specs.Parts.{formal_tail_run, formal_with, initial_run, more_vars_run, perhaps_formals_run, some_formals_run, vars_tree_run};
ghost use Rattle.jc_parse_parts.specs.declared.trees.FormalTail.{FormalTail};

use crate::annotations::modifiers_within;
use crate::kinds::{dims, type_within};
use crate::lists::{each, no_list};
use crate::names::{name, past_sign};
use crate::trees::FormalTail;
use jc_lexer::{Sign, Token};
use jc_parse_expr::init_within;
use jc_parse_nodes::Vars;
use jc_reading::{Found, Halt, pushed, without};
use jc_rules::{Items, WantOfMemory};
use jc_tree::{Formal, Init, Modifier, Var};
use std::alloc::Global;

/// The sign of a variable arity, where it stands there.
fn arity(tokens: &[Token]) -> Found<'_, Option<()>>
    ensures read { Is result (perhaps (of_kind (sign_code sign_of.Ellipsis)) tokens.now) }
    ensures shorter { length result.rest.now ≤ length tokens.now }
{
    match past_sign(Sign::Ellipsis, tokens) {
        Some(rest) => Found {
            value: Some(()),
            rest,
            left: rest.len(),
        },
        None => Found {
            value: None,
            rest: tokens,
            left: tokens.len(),
        },
    }
}

/// What stands in a formal parameter behind its modifiers.
#[tactic(auto, using(crate::proofs::FormalSteps::tail_found, crate::proofs::FormalSteps::tail_unnamed, crate::proofs::FormalSteps::tail_halts))]
fn formal_tail(alloc: Global, tokens: &[Token], height: u32) -> Result<Found<'_, FormalTail>, Halt>
    requires { length tokens.now < 2 ^ 32 }
    ensures read { Gives result (formal_tail_run height tokens.now) }
    ensures shorter { IfOk result (λ f. length f.rest.now ≤ length tokens.now) }
{
    let ty = type_within(alloc, tokens, height)?;
    let arity = arity(ty.rest);
    let name = after_holding!(ty, name(alloc, arity.rest), ty.left, arity.left);
    let dims = dims(name.rest);
    Ok(Found {
        value: FormalTail {
            ty: ty.value,
            variable_arity: arity.value.is_some(),
            name: name.value,
            dims: dims.value,
        },
        rest: dims.rest,
        left: least!(ty.left, arity.left, name.left, dims.left),
    })
}

/// A formal parameter of these modifiers.
fn formal_of<'a>(
    modifiers: Found<'a, Items<Modifier>>,
    tail: Result<Found<'a, FormalTail>, Halt>,
) -> Result<Found<'a, Formal>, Halt>
    ensures read { (m : Read FormalTail) → Gives tail.entry m → Gives result (noting modifiers.entry.left (becoming (formal_with modifiers.entry.value) m)) }
    ensures shorter { (n : _) → IfOk tail.entry (λ f. length f.rest.now ≤ n) → IfOk result (λ f. length f.rest.now ≤ n) }
{
    match tail {
        Ok(found) => {
            let tail = found.value;
            Ok(Found {
                value: Formal {
                    modifiers: modifiers.value,
                    ty: tail.ty,
                    variable_arity: tail.variable_arity,
                    name: tail.name,
                    dims: tail.dims,
                },
                rest: found.rest,
                left: modifiers.left.min(found.left),
            })
        }
        Err(Halt::Stopped(left)) => {
            let left = modifiers.left.min(left);
            Err(without(modifiers, Halt::Stopped(left)))
        }
        Err(Halt::WantOfMemory) => Err(without(modifiers, Halt::WantOfMemory)),
    }
}

/// A formal parameter.
pub fn formal_within(
    alloc: Global,
    tokens: &[Token],
    height: u32,
) -> Result<Found<'_, Formal>, Halt>
    requires { length tokens.now < 2 ^ 32 }
    ensures read { Gives result (formal_run exprs height tokens.now) }
    ensures shorter { IfOk result (λ f. length f.rest.now ≤ length tokens.now) }
{
    if height == 0 {
        return Err(Halt::Stopped(tokens.len()));
    }
    let modifiers = modifiers_within(alloc, tokens, height)?;
    let rest = modifiers.rest;
    formal_of(modifiers, formal_tail(alloc, rest, height))
}

/// A formal parameter behind a comma.
fn comma_formal(alloc: Global, tokens: &[Token], height: u32) -> Result<Found<'_, Formal>, Halt>
    requires { length tokens.now < 2 ^ 32 }
    ensures read { Gives result (as_new behind_it (in_turn (of_kind (sign_code sign_of.Comma)) (formal_run exprs height)) tokens.now) }
    ensures shorter { IfOk result (λ f. length f.rest.now ≤ length tokens.now) }
{
    let Some(after) = past_sign(Sign::Comma, tokens) else {
        return Err(Halt::Stopped(tokens.len()));
    };
    let formal = after!(formal_within(alloc, after, height), after.len());
    Ok(Found {
        value: formal.value,
        rest: formal.rest,
        left: after.len().min(formal.left),
    })
}

/// Formal parameters with commas between them: behind one of variable arity none stands.
fn some_formals(
    alloc: Global,
    tokens: &[Token],
    height: u32,
) -> Result<Found<'_, Items<Formal>>, Halt>
    requires { length tokens.now < 2 ^ 32 }
    ensures read { Gives result (some_formals_run height tokens.now) }
    ensures shorter { IfOk result (λ f. length f.rest.now ≤ length tokens.now) }
{
    let first = formal_within(alloc, tokens, height)?;
    let mut last = first.value.variable_arity;
    let mut formals = pushed(Items::new(alloc), first.value)?;
    let mut rest = first.rest;
    let mut left = first.left;
    'commas: loop {
        if last {
            return Ok(Found {
                value: formals,
                rest,
                left: left.min(rest.len()),
            });
        }
        match comma_formal(alloc, rest, height) {
            Ok(found) => {
                last = found.value.variable_arity;
                formals = pushed(formals, found.value)?;
                left = left.min(found.left);
                rest = found.rest;
            }
            Err(Halt::Stopped(reach)) => {
                return Ok(Found {
                    value: formals,
                    rest,
                    left: left.min(reach),
                });
            }
            Err(Halt::WantOfMemory) => return Err(without(formals, Halt::WantOfMemory)),
        }
    }
}

/// Formal parameters, where they stand there.
fn perhaps_formals(
    alloc: Global,
    tokens: &[Token],
    height: u32,
) -> Result<Found<'_, Items<Formal>>, WantOfMemory>
    requires { length tokens.now < 2 ^ 32 }
    ensures read { IfOk result (λ f. Is f (perhaps_formals_run height tokens.now)) }
    ensures shorter { IfOk result (λ f. length f.rest.now ≤ length tokens.now) }
{
    match some_formals(alloc, tokens, height) {
        Ok(found) => Ok(found),
        Err(Halt::Stopped(left)) => Ok(no_list(alloc, tokens, left)),
        Err(Halt::WantOfMemory) => Err(WantOfMemory),
    }
}

/// Formal parameters between parentheses.
#[tactic(auto, using(crate::proofs::FormalSteps::formals_shut, crate::proofs::FormalSteps::formals_closed, crate::proofs::FormalSteps::formals_open))]
pub fn formals_within(
    alloc: Global,
    tokens: &[Token],
    height: u32,
) -> Result<Found<'_, Items<Formal>>, Halt>
    requires { length tokens.now < 2 ^ 32 }
    ensures read { Gives result (formals_run (formal_run exprs height) tokens.now) }
    ensures shorter { IfOk result (λ f. length f.rest.now ≤ length tokens.now) }
{
    let Some(inside) = past_sign(Sign::LeftParen, tokens) else {
        return Err(Halt::Stopped(tokens.len()));
    };
    let formals = perhaps_formals(alloc, inside, height)?;
    match past_sign(Sign::RightParen, formals.rest) {
        Some(rest) => Ok(Found {
            value: formals.value,
            rest,
            left: least!(inside.len(), formals.left, rest.len()),
        }),
        None => {
            let left = least!(inside.len(), formals.left, formals.rest.len());
            Err(without(formals, Halt::Stopped(left)))
        }
    }
}

/// No initialiser, with a reach.
fn no_initial(rest: &[Token], left: usize) -> Found<'_, Option<Init>>
    ensures { (result.value ≡ None) × (result.rest.now ≡ rest.now) × (result.left ≡ left) }
{
    Found {
        value: None,
        rest,
        left,
    }
}

/// An initialiser behind `=`, where they stand there and there is room for one.
#[tactic(auto, using(crate::proofs::PartSteps::initial_low, crate::proofs::PartSteps::initial_none, crate::proofs::PartSteps::initial_found, crate::proofs::PartSteps::initial_halts))]
pub fn initial_within(
    alloc: Global,
    tokens: &[Token],
    height: u32,
) -> Result<Found<'_, Option<Init>>, WantOfMemory>
    requires { length tokens.now < 2 ^ 32 }
    ensures read { IfOk result (λ f. Is f (initial_run height tokens.now)) }
    ensures shorter { IfOk result (λ f. length f.rest.now ≤ length tokens.now) }
{
    if height == 0 {
        return Ok(no_initial(tokens, tokens.len()));
    }
    let Some(inside) = past_sign(Sign::Assign, tokens) else {
        return Ok(no_initial(tokens, tokens.len()));
    };
    match init_within(alloc, inside, height) {
        Ok(found) => Ok(Found {
            value: Some(found.value),
            rest: found.rest,
            left: inside.len().min(found.left),
        }),
        Err(Halt::Stopped(left)) => Ok(no_initial(tokens, inside.len().min(left))),
        Err(Halt::WantOfMemory) => Err(WantOfMemory),
    }
}

/// A variable with its brackets and its initialiser.
#[tactic(auto, using(crate::proofs::PartSteps::var_found, crate::proofs::PartSteps::var_halts))]
pub fn var_within(alloc: Global, tokens: &[Token], height: u32) -> Result<Found<'_, Var>, Halt>
    requires { length tokens.now < 2 ^ 32 }
    ensures read { Gives result (var_run exprs height tokens.now) }
    ensures shorter { IfOk result (λ f. length f.rest.now ≤ length tokens.now) }
{
    let name = name(alloc, tokens)?;
    let dims = dims(name.rest);
    let init = initial_within(alloc, dims.rest, height)?;
    Ok(Found {
        value: Var {
            name: name.value,
            dims: dims.value,
            init: init.value,
        },
        rest: init.rest,
        left: least!(name.left, dims.left, init.left),
    })
}

/// Any number of variables, each behind a comma.
pub fn more_vars_within(
    alloc: Global,
    tokens: &[Token],
    height: u32,
) -> Result<Found<'_, Items<Var>>, WantOfMemory>
    requires { length tokens.now < 2 ^ 32 }
    ensures read { IfOk result (λ f. Is f (more_vars_run height tokens.now)) }
    ensures shorter { IfOk result (λ f. length f.rest.now ≤ length tokens.now) }
{
    each(
        alloc,
        Sign::Comma,
        tokens,
        |ts| var_within(alloc, ts, height),
    )
}

/// Variables with commas between them.
#[tactic(auto, using(crate::proofs::PartSteps::vars_found, crate::proofs::PartSteps::vars_halts))]
pub fn vars_within(alloc: Global, tokens: &[Token], height: u32) -> Result<Found<'_, Vars>, Halt>
    requires { length tokens.now < 2 ^ 32 }
    ensures read { Gives result (vars_tree_run height tokens.now) }
    ensures shorter { IfOk result (λ f. length f.rest.now ≤ length tokens.now) }
{
    let first = var_within(alloc, tokens, height)?;
    let Ok(more) = more_vars_within(alloc, first.rest, height) else {
        return Err(without(first, Halt::WantOfMemory));
    };
    Ok(Found {
        value: Vars {
            first: first.value,
            more: more.value,
        },
        rest: more.rest,
        left: first.left.min(more.left),
    })
}
