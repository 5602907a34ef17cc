//! Members up to their bodies, behind their modifiers (JLS 8.3, 8.4, 8.8).
ghost use Rattle.std.specs.Prelude.{◌<◌, ◌≤◌, ◌^◌, length};
ghost use Rattle.jc_reading.specs.Giving.{Gives};
ghost use Rattle.jc_parse_heads.specs.MemberCode.{code_head_run, generic_head_run, plain_head_run, constructor_shape_run, ended_more_run, fields_run, generic_shape_run, method_shape_run, named_shape_run, named_signature_run, named_tail_run, signature_run, typed_shape_run, void_shape_run};

use crate::closing::closed;
use crate::fronts::{behind_name, call_stands, sign_stands, word_stands};
use jc_lexer::{Key, Sign, Token};
use jc_parse_nodes::{
    CodeHead, FieldsTail, Named, NamedTail, Shape, Signature, fields_of, generic_of, method_of,
    method_tail_of, named_of, parts_of, reaching, signature_of, some, typed_shape_of, void_of,
};
use jc_parse_parts::{
    dims, formals_within, initial_within, keyed_within, more_vars_within, name, params_of_within,
    type_within, word_at,
};
use jc_reading::{Found, Halt};
use jc_rules::Items;
use jc_tree::Var;
use std::alloc::Global;

/// Formal parameters and what is thrown.
fn signature(alloc: Global, tokens: &[Token], height: u32) -> Result<Found<'_, Signature>, Halt>
    requires { length tokens.now < 2 ^ 32 }
    ensures { Gives result (signature_run height tokens.now) }
{
    let formals = formals_within(alloc, tokens, height)?;
    let rest = formals.rest;
    signature_of(
        formals,
        some(keyed_within(alloc, Key::Throws, rest, height)),
    )
}

/// A name and a signature.
fn named_signature(alloc: Global, tokens: &[Token], height: u32) -> Result<Found<'_, Named>, Halt>
    requires { length tokens.now < 2 ^ 32 }
    ensures { Gives result (named_signature_run height tokens.now) }
{
    let first = name(alloc, tokens)?;
    let rest = first.rest;
    named_of(first, signature(alloc, rest, height))
}

/// A method without a result.
fn void_shape(alloc: Global, tokens: &[Token], height: u32) -> Result<Found<'_, Shape>, Halt>
    requires { length tokens.now < 2 ^ 32 }
    ensures { Gives result (void_shape_run height tokens.now) }
{
    let at = word_at(Key::Void, tokens)?;
    let rest = at.rest;
    void_of(at, named_signature(alloc, rest, height))
}

/// A constructor.
#[tactic(auto, unfolding(crate::specs::MemberCode::constructor_shape_run))]
fn constructor_shape(alloc: Global, tokens: &[Token], height: u32) -> Result<Found<'_, Shape>, Halt>
    requires { length tokens.now < 2 ^ 32 }
    ensures { Gives result (constructor_shape_run height tokens.now) }
{
    let named = named_signature(alloc, tokens, height)?;
    Ok(Found {
        value: Shape::Constructor(named.value),
        rest: named.rest,
        left: named.left,
    })
}

/// A method with the type of its result.
fn method_shape(alloc: Global, tokens: &[Token], height: u32) -> Result<Found<'_, Shape>, Halt>
    requires { length tokens.now < 2 ^ 32 }
    ensures { Gives result (method_shape_run height tokens.now) }
{
    let ty = type_within(alloc, tokens, height)?;
    let rest = ty.rest;
    method_of(ty, named_signature(alloc, rest, height))
}

/// Variables behind a first one, and a semicolon.
#[tactic(auto, unfolding(crate::specs::MemberCode::ended_more_run))]
fn ended_more(alloc: Global, tokens: &[Token], height: u32) -> Result<Found<'_, Items<Var>>, Halt>
    requires { length tokens.now < 2 ^ 32 }
    ensures { Gives result (ended_more_run height tokens.now) }
{
    let more = more_vars_within(alloc, tokens, height)?;
    closed(Sign::Semicolon, more)
}

/// Fields behind the name of the first one.
fn fields(alloc: Global, tokens: &[Token], height: u32) -> Result<Found<'_, FieldsTail>, Halt>
    requires { length tokens.now < 2 ^ 32 }
    ensures { Gives result (fields_run height tokens.now) }
{
    let dims = dims(tokens);
    let init = reaching(dims.left, some(initial_within(alloc, dims.rest, height)))?;
    let rest = init.rest;
    parts_of(dims.value, init, ended_more(alloc, rest, height))
}

/// A name, and a signature or what stands behind the name of a field.
fn named_tail(alloc: Global, tokens: &[Token], height: u32) -> Result<Found<'_, NamedTail>, Halt>
    requires { length tokens.now < 2 ^ 32 }
    ensures { Gives result (named_tail_run height tokens.now) }
{
    let first = name(alloc, tokens)?;
    let rest = first.rest;
    if sign_stands(Sign::LeftParen, rest) {
        return method_tail_of(first, signature(alloc, rest, height));
    }
    fields_of(first, fields(alloc, rest, height))
}

/// A method with the type of its result, or fields.
fn typed_shape(alloc: Global, tokens: &[Token], height: u32) -> Result<Found<'_, Shape>, Halt>
    requires { length tokens.now < 2 ^ 32 }
    ensures { Gives result (typed_shape_run height tokens.now) }
{
    let ty = type_within(alloc, tokens, height)?;
    let rest = ty.rest;
    typed_shape_of(ty, named_tail(alloc, rest, height))
}

/// A method or a constructor behind type parameters.
#[tactic(auto, using(crate::proofs::Shaping::generic_void, crate::proofs::Shaping::generic_low, crate::proofs::Shaping::generic_call, crate::proofs::Shaping::generic_method))]
fn generic_shape(alloc: Global, tokens: &[Token], height: u32) -> Result<Found<'_, Shape>, Halt>
    requires { length tokens.now < 2 ^ 32 }
    ensures { Gives result (generic_shape_run height tokens.now) }
{
    if word_stands(Key::Void, tokens) {
        return void_shape(alloc, tokens, height);
    }
    if height == 0 {
        return constructor_shape(alloc, tokens, height);
    }
    if call_stands(tokens) {
        return constructor_shape(alloc, tokens, height);
    }
    behind_name(tokens, method_shape(alloc, tokens, height))
}

/// A method, a constructor or fields, without type parameters.
#[tactic(auto, using(crate::proofs::Shaping::named_void, crate::proofs::Shaping::named_low, crate::proofs::Shaping::named_call, crate::proofs::Shaping::named_typed))]
fn named_shape(alloc: Global, tokens: &[Token], height: u32) -> Result<Found<'_, Shape>, Halt>
    requires { length tokens.now < 2 ^ 32 }
    ensures { Gives result (named_shape_run height tokens.now) }
{
    if word_stands(Key::Void, tokens) {
        return void_shape(alloc, tokens, height);
    }
    if height == 0 {
        return constructor_shape(alloc, tokens, height);
    }
    if call_stands(tokens) {
        return constructor_shape(alloc, tokens, height);
    }
    behind_name(tokens, typed_shape(alloc, tokens, height))
}

/// The head of a member with type parameters.
fn generic_head(alloc: Global, tokens: &[Token], height: u32) -> Result<Found<'_, CodeHead>, Halt>
    requires { length tokens.now < 2 ^ 32 }
    ensures { Gives result (generic_head_run height tokens.now) }
{
    let params = params_of_within(alloc, tokens, height)?;
    let rest = params.rest;
    generic_of(params, generic_shape(alloc, rest, height))
}

/// The head of a member without type parameters.
#[tactic(auto, unfolding(crate::specs::MemberCode::plain_head_run))]
fn plain_head(alloc: Global, tokens: &[Token], height: u32) -> Result<Found<'_, CodeHead>, Halt>
    requires { length tokens.now < 2 ^ 32 }
    ensures { Gives result (plain_head_run height tokens.now) }
{
    let shape = named_shape(alloc, tokens, height)?;
    Ok(Found {
        value: CodeHead {
            params: None,
            shape: shape.value,
        },
        rest: shape.rest,
        left: shape.left,
    })
}

/// A member up to its body or its semicolon, behind its modifiers.
#[tactic(auto, using(crate::proofs::Shaping::head_generic, crate::proofs::Shaping::head_plain))]
pub fn code_head(alloc: Global, tokens: &[Token], height: u32) -> Result<Found<'_, CodeHead>, Halt>
    requires { length tokens.now < 2 ^ 32 }
    ensures { Gives result (code_head_run height tokens.now) }
{
    if sign_stands(Sign::Less, tokens) {
        return generic_head(alloc, tokens, height);
    }
    plain_head(alloc, tokens, height)
}
