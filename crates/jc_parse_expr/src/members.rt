//! Members and selectors (JLS 15.9, 15.11 to 15.13).
ghost use Rattle.std.specs.Prelude.{◌≡◌, ◌+◌, ◌<◌, ◌^◌, ◌∷◌, [], length, IfOk};
ghost use Rattle.jc_lexer.specs.declared.token.Sign.TheVariants as sign_of;
ghost use Rattle.jc_tree.specs.Heights.{expr_height};
ghost use Rattle.jc_reading.specs.Giving.{Gives};
ghost use Rattle.jc_parse_expr.specs.declared.parts.SelectorTree.TheVariants as selector_of;
ghost use Rattle.jc_reading.specs.Kinds.{sign_code};
ghost use Rattle.jc_reading.specs.Reading.{an_ident_at, as_new, becoming, in_turn, of_kind};
ghost use Rattle.jc_expr_laws.specs.PrimeReading.{actuals_run, creation_run, dotted_run, member_run, named_run, some_args_run};
ghost use Rattle.jc_parse_expr.specs.PrimeCode.{IsMeasured, Measures, Reads, array_in, called_tree, dotted_inside, dotted_tree, expr_in, index_tree, member_height, member_tree, named_made, named_tree, pointed_tree, selected_on, selector_at, selector_height, some_args_list, super_made};

use crate::creations::{creation, index};
use crate::lists::actuals;
use crate::measured::Measured;
use crate::parts::{MemberTree, SelectorTree};
use crate::pieces::is_at;
use crate::primary_joints::{called_with, named_with, noting_member, selected_with, started_with};
use crate::primary_nodes::{index_part, member_part, new_part, super_node};
use crate::shapes::is_sized;
use jc_lexer::{Key, Sign, Token};
use jc_parse_type::more_args;
use jc_reading::{Found, Halt, behind_key, behind_sign, identifier, without};
use jc_rules::{Items, WantOfMemory};
use jc_tree::{Expr, TypeArg};
use std::alloc::Global;

/// Type arguments between angle brackets.
#[tactic(auto, using(crate::proofs::MemberCode::args_closed, crate::proofs::MemberCode::args_unclosed, crate::proofs::MemberCode::args_stop, crate::proofs::MemberSteps::args_open))]
fn some_args(
    alloc: Global,
    tokens: &[Token],
    height: u32,
) -> Result<Found<'_, Items<TypeArg>>, Halt>
    requires { length tokens.now < 2 ^ 32 }
    ensures { Gives result (as_new some_args_list (some_args_run height) tokens.now) }
{
    let Some(inside) = behind_sign(Sign::Less, tokens) else {
        return Err(Halt::Stopped(tokens.len()));
    };
    let args = more_args(alloc, inside, height)?;
    match behind_sign(Sign::Greater, args.rest) {
        Some(rest) => Ok(Found {
            value: args.value,
            rest,
            left: args.left.min(rest.len()),
        }),
        None => {
            let left = args.left.min(args.rest.len());
            Err(without(args, Halt::Stopped(left)))
        }
    }
}

/// A name with actual arguments, behind type arguments.
#[cycle(expressions)]
#[tactic(auto, using(crate::proofs::MemberCode::called_first))]
fn called(
    alloc: Global,
    type_args: Items<TypeArg>,
    tokens: &[Token],
    height: u32,
) -> Result<Found<'_, Measured<MemberTree>>, Halt>
    requires { length tokens.now < 2 ^ 32 }
    ensures { Measures member_height result (as_new (called_tree type_args) (in_turn an_ident_at (actuals_run (expr_in height))) tokens.now) }
{
    match identifier(alloc, tokens) {
        Ok(name) => {
            let actuals = actuals(alloc, name.rest, height);
            called_with(alloc, type_args, name, actuals)
        }
        Err(Halt::Stopped(left)) => Err(Halt::Stopped(left)),
        Err(Halt::WantOfMemory) => Err(Halt::WantOfMemory),
    }
}

/// A name, with actual arguments where they stand there.
#[cycle(expressions)]
#[tactic(auto, using(crate::proofs::MemberCode::named_first))]
fn named(
    alloc: Global,
    tokens: &[Token],
    height: u32,
) -> Result<Found<'_, Measured<MemberTree>>, Halt>
    requires { length tokens.now < 2 ^ 32 }
    ensures { Measures member_height result (as_new named_tree (named_run (expr_in height)) tokens.now) }
{
    match identifier(alloc, tokens) {
        Ok(name) => {
            let actuals = actuals(alloc, name.rest, height);
            named_with(alloc, name, actuals)
        }
        Err(Halt::Stopped(left)) => Err(Halt::Stopped(left)),
        Err(Halt::WantOfMemory) => Err(Halt::WantOfMemory),
    }
}

/// A name as a start, with actual arguments where they stand there.
#[cycle(expressions)]
#[tactic(auto, using(crate::proofs::MemberCode::started_first))]
#[inline(never)]
pub fn started_name(
    alloc: Global,
    tokens: &[Token],
    height: u32,
) -> Result<Found<'_, Measured<Expr>>, Halt>
    requires { length tokens.now < 2 ^ 32 }
    ensures { Measures expr_height result (as_new named_made (named_run (expr_in height)) tokens.now) }
{
    match identifier(alloc, tokens) {
        Ok(name) => {
            let actuals = actuals(alloc, name.rest, height);
            started_with(alloc, name, actuals)
        }
        Err(Halt::Stopped(left)) => Err(Halt::Stopped(left)),
        Err(Halt::WantOfMemory) => Err(Halt::WantOfMemory),
    }
}

/// What stands behind a point, but for a creation.
#[cycle(expressions)]
#[tactic(auto, using(crate::proofs::MemberSteps::member_named, crate::proofs::MemberSteps::member_called, crate::proofs::MemberSteps::member_stops))]
fn member(
    alloc: Global,
    tokens: &[Token],
    height: u32,
) -> Result<Found<'_, Measured<MemberTree>>, Halt>
    requires { length tokens.now < 2 ^ 32 }
    ensures { Measures member_height result (as_new member_tree (member_run height (expr_in height)) tokens.now) }
{
    if !is_at(Sign::Less, tokens) {
        return named(alloc, tokens, height);
    }
    match some_args(alloc, tokens, height) {
        Ok(args) => {
            let called = called(alloc, args.value, args.rest, height);
            noting_member(args.left, called)
        }
        Err(Halt::Stopped(left)) => Err(Halt::Stopped(left)),
        Err(Halt::WantOfMemory) => Err(Halt::WantOfMemory),
    }
}

/// A member behind a `super` at an offset.
#[cycle(expressions)]
#[tactic(auto, using(crate::proofs::MemberSteps::super_inside, crate::proofs::MemberSteps::super_open))]
#[inline(never)]
pub fn super_member(
    alloc: Global,
    at: u32,
    tokens: &[Token],
    height: u32,
) -> Result<Found<'_, Measured<Expr>>, Halt>
    requires { length tokens.now < 2 ^ 32 }
    ensures { Measures expr_height result (as_new (super_made at) (in_turn (of_kind (sign_code sign_of.Dot)) (member_run height (expr_in height))) tokens.now) }
{
    let Some(inside) = behind_sign(Sign::Dot, tokens) else {
        return Err(Halt::Stopped(tokens.len()));
    };
    let member = member(alloc, inside, height)?;
    Ok(Found {
        value: super_node(at, member.value),
        rest: member.rest,
        left: member.left,
    })
}

/// A creation as a selector, behind its `new`.
#[cycle(expressions)]
#[inline(never)]
fn new_selector(
    alloc: Global,
    tokens: &[Token],
    height: u32,
) -> Result<Found<'_, Measured<SelectorTree>>, Halt>
    requires { length tokens.now < 2 ^ 32 }
    ensures { Measures selector_height result (becoming selector_of.New (creation_run height (expr_in height) (array_in height) tokens.now)) }
{
    let creation = creation(alloc, tokens, height)?;
    Ok(Found {
        value: new_part(creation.value),
        rest: creation.rest,
        left: creation.left,
    })
}

/// A member as a selector.
#[cycle(expressions)]
fn member_selector(
    alloc: Global,
    tokens: &[Token],
    height: u32,
) -> Result<Found<'_, Measured<SelectorTree>>, Halt>
    requires { length tokens.now < 2 ^ 32 }
    ensures { Measures selector_height result (becoming selector_of.Member (as_new member_tree (member_run height (expr_in height)) tokens.now)) }
{
    let member = member(alloc, tokens, height)?;
    Ok(Found {
        value: member_part(member.value),
        rest: member.rest,
        left: member.left,
    })
}

/// What selects of a value behind its point.
#[cycle(expressions)]
#[tactic(auto, using(crate::proofs::MemberSteps::dotted_new, crate::proofs::MemberSteps::dotted_member))]
fn dotted(
    alloc: Global,
    tokens: &[Token],
    height: u32,
) -> Result<Found<'_, Measured<SelectorTree>>, Halt>
    requires { length tokens.now < 2 ^ 32 }
    ensures { Measures selector_height result (as_new dotted_tree (dotted_inside height (expr_in height) (array_in height)) tokens.now) }
{
    match behind_key(Key::New, tokens) {
        Some(inside) => new_selector(alloc, inside, height),
        None => member_selector(alloc, tokens, height),
    }
}

/// A point, and what selects of a value behind it.
#[cycle(expressions)]
#[tactic(auto, using(crate::proofs::MemberSteps::pointed_inside, crate::proofs::MemberSteps::pointed_open))]
fn pointed(
    alloc: Global,
    tokens: &[Token],
    height: u32,
) -> Result<Found<'_, Measured<SelectorTree>>, Halt>
    requires { length tokens.now < 2 ^ 32 }
    ensures { Measures selector_height result (as_new pointed_tree (dotted_run height (expr_in height) (array_in height)) tokens.now) }
{
    match behind_sign(Sign::Dot, tokens) {
        Some(inside) => dotted(alloc, inside, height),
        None => Err(Halt::Stopped(tokens.len())),
    }
}

/// An index, behind its first bracket.
#[cycle(expressions)]
#[tactic(auto, using(crate::proofs::MemberSteps::index_bracketed))]
#[inline(never)]
fn bracketed(
    alloc: Global,
    tokens: &[Token],
    height: u32,
) -> Result<Found<'_, Measured<SelectorTree>>, Halt>
    requires { length tokens.now < 2 ^ 32 }
    ensures { Measures selector_height result (as_new index_tree (in_turn (expr_in height) (of_kind (sign_code sign_of.RightBracket))) tokens.now) }
{
    let index = index(alloc, tokens, height)?;
    Ok(Found {
        value: index_part(index.value),
        rest: index.rest,
        left: index.left,
    })
}

/// What selects of a value, where the value may be selected from.
#[cycle(expressions)]
#[tactic(auto, using(crate::proofs::MemberSteps::selector_tall, crate::proofs::MemberSteps::selector_sized, crate::proofs::MemberSteps::selector_pointed, crate::proofs::MemberSteps::selector_index, crate::proofs::MemberSteps::selector_low))]
fn selector<'a>(
    alloc: Global,
    value: &Measured<Expr>,
    tokens: &'a [Token],
    height: u32,
) -> Result<Found<'a, Measured<SelectorTree>>, Halt>
    requires short { length tokens.now < 2 ^ 32 }
    requires measured { IsMeasured expr_height value.now }
    requires room { height + 1 < 2 ^ 32 }
    ensures { Measures selector_height result (selector_at height value.now.tree tokens.now) }
{
    if height < value.height {
        return Err(Halt::Stopped(tokens.len()));
    }
    if is_sized(&value.tree) {
        return pointed(alloc, tokens, height);
    }
    let Some(inside) = behind_sign(Sign::LeftBracket, tokens) else {
        return pointed(alloc, tokens, height);
    };
    if height == 0 {
        return Err(Halt::Stopped(tokens.len()));
    }
    bracketed(alloc, inside, height)
}

/// A value and the selectors behind it.
#[cycle(expressions)]
pub fn selectors<'a>(
    alloc: Global,
    first: Found<'a, Measured<Expr>>,
    height: u32,
) -> Result<Found<'a, Measured<Expr>>, WantOfMemory>
    requires short { length first.rest.now < 2 ^ 32 }
    requires measured { IsMeasured expr_height first.value }
    requires room { height + 1 < 2 ^ 32 }
    ensures { IfOk result (λ f. Reads expr_height f (selected_on height first.entry.value.tree first.entry.rest.now first.entry.left)) }
{
    let mut value = first;
    'parts: loop {
        match selector(alloc, &value.value, value.rest, height) {
            Ok(part) => {
                let next = selected_with(alloc, value, part)?;
                value = next;
            }
            Err(Halt::Stopped(reach)) => {
                return Ok(Found {
                    value: value.value,
                    rest: value.rest,
                    left: value.left.min(reach),
                });
            }
            Err(Halt::WantOfMemory) => return Err(without(value, WantOfMemory)),
        }
    }
}
