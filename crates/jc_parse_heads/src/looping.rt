//! Heads of `for` (JLS 14.14).
ghost use Rattle.std.specs.Prelude.{◌<◌, ◌≤◌, ◌≡◌, ◌^◌, List, length, IfOk};
ghost use Rattle.jc_reading.specs.Giving.{Gives};
ghost use Rattle.jc_reading.specs.Reading.{Read, becoming};
ghost use Rattle.jc_expr_laws.specs.ExprReading.{exprs, strict_effect};
ghost use Rattle.jc_part_laws.specs.PartReading.{modifier_run};
ghost use Rattle.jc_parse_heads.specs.HeadCode.{bare_head, closed_expr_run, each_kind, effects_in_run, effects_run, empty_head, first_modifiers_run, for_dims_run, for_each_run, for_effects_run, for_ended_run, for_kind_run, for_moded_run, for_more_run, for_name_run, for_other_run, for_tail_run, for_test_run, for_typed_or_run, for_typed_run, for_update_run, for_vars_run, named_head, no_updates, parens_end, typed_head, updates_run};
ghost use Rattle.jc_parse_nodes.specs.Joins.{Joined};
ghost use Rattle.jc_parse_nodes.specs.declared.head_parts.ForNamed.{ForNamed};
ghost use Rattle.jc_parse_nodes.specs.declared.head_parts.ForTyped.{ForTyped};
ghost use Rattle.jc_tree.specs.declared.statement.ForHead.{ForHead};
ghost use Rattle.jc_tree.specs.declared.statement.Modifier.{Modifier};
ghost use Rattle.jc_tree.specs.declared.types.TypeTree.{TypeTree};

use crate::closing::closed;
use crate::fronts::{modifier_stands, name_stands, sign_stands};
use crate::openings::some_expr;
use jc_lexer::{Sign, Token};
use jc_parse_expr::{effect_within, expr_within};
use jc_parse_nodes::{
    ForDims, ForKind, ForMore, ForNamed, ForTail, ForTyped, for_dims_of, for_effects_of,
    for_kind_of, for_more_of, for_named_of, for_tail_of, for_typed_of, join, reaching,
};
use jc_parse_parts::{
    dims, initial_within, modifier_within, more_vars_within, name, row, separated, sign,
    type_within,
};
use jc_reading::{Found, Halt, without};
use jc_rules::Items;
use jc_tree::{Expr, ForHead, ForInit, LocalVars, Modifier, TypeTree, Var};
use std::alloc::Global;

/// Effects with commas between them.
pub fn effects(alloc: Global, tokens: &[Token], height: u32) -> Result<Found<'_, Items<Expr>>, Halt>
    requires { (length tokens.now < 2 ^ 32) × (0 < height) }
    ensures read { Gives result (effects_run height tokens.now) }
    ensures shorter { IfOk result (λ f. length f.rest.now ≤ length tokens.now) }
{
    separated(
        alloc,
        Sign::Comma,
        tokens,
        |ts|
            requires { length ts.now < 2 ^ 32 }
            ensures { Gives result (strict_effect height ts.now) }
        { effect_within(alloc, ts, height) },
    )
}

/// Effects with commas between them, where there is room for them.
#[tactic(auto, using(crate::proofs::ForUpdates::effects_in_none, crate::proofs::ForUpdates::effects_in_there))]
fn effects_in(alloc: Global, tokens: &[Token], height: u32) -> Result<Found<'_, Items<Expr>>, Halt>
    requires { length tokens.now < 2 ^ 32 }
    ensures { Gives result (effects_in_run height tokens.now) }
{
    if height == 0 {
        return Err(Halt::Stopped(tokens.len()));
    }
    effects(alloc, tokens, height)
}

/// A right parenthesis without updates before it.
fn without_updates(alloc: Global, tokens: &[Token]) -> Result<Found<'_, Items<Expr>>, Halt>
    ensures { Gives result (becoming no_updates (parens_end tokens.now)) }
{
    let end = sign(Sign::RightParen, tokens)?;
    Ok(Found {
        value: Items::new(alloc),
        rest: end.rest,
        left: end.left,
    })
}

/// Updates, or none, and the right parenthesis.
fn updates(alloc: Global, tokens: &[Token], height: u32) -> Result<Found<'_, Items<Expr>>, Halt>
    requires { length tokens.now < 2 ^ 32 }
    ensures { Gives result (updates_run height tokens.now) }
{
    match effects_in(alloc, tokens, height) {
        Ok(found) => closed(Sign::RightParen, found),
        Err(Halt::Stopped(left)) => reaching(left, without_updates(alloc, tokens)),
        Err(Halt::WantOfMemory) => Err(Halt::WantOfMemory),
    }
}

/// What stands from the second semicolon on.
fn for_update(alloc: Global, tokens: &[Token], height: u32) -> Result<Found<'_, Items<Expr>>, Halt>
    requires { length tokens.now < 2 ^ 32 }
    ensures { Gives result (for_update_run height tokens.now) }
{
    let open = sign(Sign::Semicolon, tokens)?;
    reaching(open.left, updates(alloc, open.rest, height))
}

/// What stands behind the first semicolon.
fn for_test(alloc: Global, tokens: &[Token], height: u32) -> Result<Found<'_, ForTail>, Halt>
    requires { length tokens.now < 2 ^ 32 }
    ensures { Gives result (for_test_run height tokens.now) }
{
    let test = some_expr(alloc, tokens, height)?;
    let rest = test.rest;
    for_tail_of(test, for_update(alloc, rest, height))
}

/// What stands from the first semicolon on.
fn for_tail(alloc: Global, tokens: &[Token], height: u32) -> Result<Found<'_, ForTail>, Halt>
    requires { length tokens.now < 2 ^ 32 }
    ensures { Gives result (for_tail_run height tokens.now) }
{
    let open = sign(Sign::Semicolon, tokens)?;
    reaching(open.left, for_test(alloc, open.rest, height))
}

/// A head without a beginning.
fn empty_of<'a>(
    alloc: Global,
    read: Result<Found<'a, ForTail>, Halt>,
) -> Result<Found<'a, ForHead>, Halt>
    ensures { (m : Read ForTail) → Gives read.entry m → Gives result (becoming empty_head m) }
{
    match read {
        Ok(tail) => Ok(Found {
            value: ForHead::Basic {
                init: ForInit::Effects(Items::new(alloc)),
                test: tail.value.test,
                update: tail.value.update,
            },
            rest: tail.rest,
            left: tail.left,
        }),
        Err(halt) => Err(halt),
    }
}

/// An expression and the right parenthesis.
#[tactic(auto, unfolding(crate::specs::HeadCode::closed_expr_run))]
fn closed_expr(alloc: Global, tokens: &[Token], height: u32) -> Result<Found<'_, Expr>, Halt>
    requires { length tokens.now < 2 ^ 32 }
    ensures { Gives result (closed_expr_run height tokens.now) }
{
    let value = expr_within(alloc, tokens, height)?;
    closed(Sign::RightParen, value)
}

/// A colon, an expression and the right parenthesis.
fn for_each(alloc: Global, tokens: &[Token], height: u32) -> Result<Found<'_, Expr>, Halt>
    requires { length tokens.now < 2 ^ 32 }
    ensures { Gives result (for_each_run height tokens.now) }
{
    let colon = sign(Sign::Colon, tokens)?;
    reaching(colon.left, closed_expr(alloc, colon.rest, height))
}

/// The same answer, as what stands behind a variable.
fn each_of<'a>(read: Result<Found<'a, Expr>, Halt>) -> Result<Found<'a, ForKind>, Halt>
    ensures { (m : Read Expr) → Gives read.entry m → Gives result (becoming each_kind m) }
{
    match read {
        Ok(found) => Ok(Found {
            value: ForKind::Each(found.value),
            rest: found.rest,
            left: found.left,
        }),
        Err(halt) => Err(halt),
    }
}

/// Variables behind the first one, and what stands behind them.
fn for_more(alloc: Global, tokens: &[Token], height: u32) -> Result<Found<'_, ForMore>, Halt>
    requires { length tokens.now < 2 ^ 32 }
    ensures { Gives result (for_more_run height tokens.now) }
{
    let more = more_vars_within(alloc, tokens, height)?;
    let rest = more.rest;
    for_more_of(more, for_tail(alloc, rest, height))
}

/// An initialiser or none, and what stands behind it.
fn for_vars(alloc: Global, tokens: &[Token], height: u32) -> Result<Found<'_, ForKind>, Halt>
    requires { length tokens.now < 2 ^ 32 }
    ensures { Gives result (for_vars_run height tokens.now) }
{
    let init = initial_within(alloc, tokens, height)?;
    let rest = init.rest;
    for_kind_of(init, for_more(alloc, rest, height))
}

/// What stands behind the name and the brackets of the first variable.
#[tactic(auto, using(crate::proofs::ForForms::kind_each, crate::proofs::ForForms::kind_vars))]
fn for_kind(alloc: Global, tokens: &[Token], height: u32) -> Result<Found<'_, ForKind>, Halt>
    requires { length tokens.now < 2 ^ 32 }
    ensures { Gives result (for_kind_run height tokens.now) }
{
    if sign_stands(Sign::Colon, tokens) {
        return each_of(for_each(alloc, tokens, height));
    }
    for_vars(alloc, tokens, height)
}

/// What stands behind the name of the first variable.
fn for_dims(alloc: Global, tokens: &[Token], height: u32) -> Result<Found<'_, ForDims>, Halt>
    requires { length tokens.now < 2 ^ 32 }
    ensures { Gives result (for_dims_run height tokens.now) }
{
    let pairs = dims(tokens);
    let rest = pairs.rest;
    for_dims_of(pairs, for_kind(alloc, rest, height))
}

/// What begins with the name of the first variable.
fn for_name(alloc: Global, tokens: &[Token], height: u32) -> Result<Found<'_, ForNamed>, Halt>
    requires { length tokens.now < 2 ^ 32 }
    ensures { Gives result (for_name_run height tokens.now) }
{
    let label = name(alloc, tokens)?;
    let rest = label.rest;
    for_named_of(label, for_dims(alloc, rest, height))
}

/// What begins with the type of variables.
fn for_typed(alloc: Global, tokens: &[Token], height: u32) -> Result<Found<'_, ForTyped>, Halt>
    requires { length tokens.now < 2 ^ 32 }
    ensures { Gives result (for_typed_run height tokens.now) }
{
    let ty = type_within(alloc, tokens, height)?;
    let rest = ty.rest;
    for_typed_of(ty, for_name(alloc, rest, height))
}

/// The head of variables.
fn head_of(modifiers: Items<Modifier>, ty: TypeTree, named: ForNamed) -> ForHead
    ensures { result ≡ named_head modifiers ty named }
{
    let ForNamed { name, dims, kind } = named;
    match kind {
        ForKind::Each(iterable) => ForHead::Enhanced {
            modifiers,
            ty,
            name,
            dims,
            iterable,
        },
        ForKind::Basic { init, more } => ForHead::Basic {
            init: ForInit::Local(LocalVars {
                modifiers,
                ty,
                first: Var { name, dims, init },
                more: more.more,
            }),
            test: more.test,
            update: more.update,
        },
    }
}

/// The head of variables with modifiers.
fn for_moded_of<'a>(
    first: Found<'a, Items<Modifier>>,
    more: Result<Found<'a, ForTyped>, Halt>,
) -> Result<Found<'a, ForHead>, Halt>
    ensures { Joined {C = ForHead} (λ (a : List Modifier) (b : ForTyped). typed_head a b) first.entry more.entry result }
{
    join(first, more, |a, b| head_of(a, b.ty, b.named))
}

/// The head of variables without modifiers.
fn for_bare_of<'a>(
    alloc: Global,
    first: Found<'a, TypeTree>,
    more: Result<Found<'a, ForNamed>, Halt>,
) -> Result<Found<'a, ForHead>, Halt>
    ensures { Joined {C = ForHead} (λ (a : TypeTree) (b : ForNamed). bare_head a b) first.entry more.entry result }
{
    join(first, more, |a, b| head_of(Items::new(alloc), a, b))
}

/// One modifier or more.
fn first_modifiers(
    alloc: Global,
    tokens: &[Token],
    height: u32,
) -> Result<Found<'_, Items<Modifier>>, Halt>
    requires { length tokens.now < 2 ^ 32 }
    ensures read { Gives result (first_modifiers_run height tokens.now) }
    ensures shorter { IfOk result (λ f. length f.rest.now ≤ length tokens.now) }
{
    let first = modifier_within(alloc, tokens, height)?;
    Ok(row(
        alloc,
        first,
        |ts|
            requires { length ts.now < 2 ^ 32 }
            ensures { Gives result (modifier_run exprs height ts.now) }
        { modifier_within(alloc, ts, height) },
    )?)
}

/// A head of variables with modifiers, and the right parenthesis.
fn for_moded(alloc: Global, tokens: &[Token], height: u32) -> Result<Found<'_, ForHead>, Halt>
    requires { length tokens.now < 2 ^ 32 }
    ensures { Gives result (for_moded_run height tokens.now) }
{
    let modifiers = first_modifiers(alloc, tokens, height)?;
    let rest = modifiers.rest;
    for_moded_of(modifiers, for_typed(alloc, rest, height))
}

/// A head that begins with effects, and the right parenthesis.
fn for_effects(alloc: Global, tokens: &[Token], height: u32) -> Result<Found<'_, ForHead>, Halt>
    requires { (length tokens.now < 2 ^ 32) × (0 < height) }
    ensures { Gives result (for_effects_run height tokens.now) }
{
    let first = effects(alloc, tokens, height)?;
    let rest = first.rest;
    for_effects_of(first, for_tail(alloc, rest, height))
}

/// A variable behind its type, where a name stands there, and else effects in its place.
fn for_typed_or<'a>(
    alloc: Global,
    ty: Found<'a, TypeTree>,
    tokens: &'a [Token],
    height: u32,
) -> Result<Found<'a, ForHead>, Halt>
    requires { (length tokens.now < 2 ^ 32) × (length ty.rest.now < 2 ^ 32) × (0 < height) }
    ensures { Gives result (for_typed_or_run height ty.entry.value ty.entry.rest.now ty.entry.left tokens.now) }
{
    let rest = ty.rest;
    if name_stands(rest) {
        return for_bare_of(alloc, ty, for_name(alloc, rest, height));
    }
    let left = ty.left;
    reaching(without(ty, left), for_effects(alloc, tokens, height))
}

/// A head of variables without modifiers, or one that begins with effects.
fn for_other(alloc: Global, tokens: &[Token], height: u32) -> Result<Found<'_, ForHead>, Halt>
    requires { (length tokens.now < 2 ^ 32) × (0 < height) }
    ensures { Gives result (for_other_run height tokens.now) }
{
    match type_within(alloc, tokens, height) {
        Ok(ty) => for_typed_or(alloc, ty, tokens, height),
        Err(Halt::Stopped(left)) => reaching(left, for_effects(alloc, tokens, height)),
        Err(Halt::WantOfMemory) => Err(Halt::WantOfMemory),
    }
}

/// What stands between the parentheses of a `for`, and the right one.
#[tactic(auto, using(crate::proofs::ForForms::head_empty, crate::proofs::ForForms::head_moded, crate::proofs::ForForms::head_other))]
pub fn for_ended(alloc: Global, tokens: &[Token], height: u32) -> Result<Found<'_, ForHead>, Halt>
    requires { (length tokens.now < 2 ^ 32) × (0 < height) }
    ensures { Gives result (for_ended_run height tokens.now) }
{
    if sign_stands(Sign::Semicolon, tokens) {
        return empty_of(alloc, for_tail(alloc, tokens, height));
    }
    if modifier_stands(tokens) {
        return for_moded(alloc, tokens, height);
    }
    for_other(alloc, tokens, height)
}
