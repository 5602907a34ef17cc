//! Heads of declarations of types (JLS 8.1, 9.1, 9.6).
ghost use Rattle.std.specs.Prelude.{◌≡◌, ◌<◌, ◌≤◌, ◌^◌, length, IfOk, None};
ghost use Rattle.jc_reading.specs.Giving.{Gives, Is};
ghost use Rattle.jc_reading.specs.Reading.{That, This, as_new};
ghost use Rattle.jc_parse_type.specs.TypeReading.{class_run};
ghost use Rattle.jc_part_laws.specs.PartReading.{HeadRest, annotation_head_run, class_head_run, head_made, head_rest_run, interface_head_run};
ghost use Rattle.jc_parse_parts.specs.Parts.{extended_run, head_tree, supers_run};

use crate::kinds::class_within;
use crate::names::{name, past_sign_at, past_word, past_word_at};
use crate::params::{keyed_within, params_within};
use crate::trees::SuperTrees;
use jc_lexer::{Key, Sign, Token};
use jc_parse_nodes::HeadTree;
use jc_reading::{Found, Halt, without};
use jc_rules::{Items, WantOfMemory};
use jc_tree::{ClassTree, DeclarationHead, Modifier};
use std::alloc::Global;

/// No class, with a reach.
fn no_class(rest: &[Token], left: usize) -> Found<'_, Option<ClassTree>>
    ensures { (result.value ≡ None) × (result.rest.now ≡ rest.now) × (result.left ≡ left) }
{
    Found {
        value: None,
        rest,
        left,
    }
}

/// The class that a class extends, where one stands there.
fn extended(
    alloc: Global,
    tokens: &[Token],
    height: u32,
) -> Result<Found<'_, Option<ClassTree>>, WantOfMemory>
    requires { length tokens.now < 2 ^ 32 }
    ensures read { IfOk result (λ f. Is f (extended_run height tokens.now)) }
    ensures shorter { IfOk result (λ f. length f.rest.now ≤ length tokens.now) }
{
    let Some(inside) = past_word(Key::Extends, tokens) else {
        return Ok(no_class(tokens, tokens.len()));
    };
    match class_within(alloc, inside, height) {
        Ok(found) => Ok(Found {
            value: Some(found.value),
            rest: found.rest,
            left: inside.len().min(found.left),
        }),
        Err(Halt::Stopped(left)) => Ok(no_class(tokens, inside.len().min(left))),
        Err(Halt::WantOfMemory) => Err(WantOfMemory),
    }
}

/// What a class extends and implements.
#[tactic(auto, using(crate::proofs::HeadSteps::supers_found))]
fn supers(
    alloc: Global,
    tokens: &[Token],
    height: u32,
) -> Result<Found<'_, SuperTrees>, WantOfMemory>
    requires { length tokens.now < 2 ^ 32 }
    ensures read { IfOk result (λ f. Is f (supers_run height tokens.now)) }
    ensures shorter { IfOk result (λ f. length f.rest.now ≤ length tokens.now) }
{
    let extends = extended(alloc, tokens, height)?;
    let Ok(implements) = keyed_within(alloc, Key::Implements, extends.rest, height) else {
        return Err(without(extends, WantOfMemory));
    };
    Ok(Found {
        value: SuperTrees {
            extends: extends.value,
            implements: implements.value,
        },
        rest: implements.rest,
        left: extends.left.min(implements.left),
    })
}

/// The head of a class behind its modifiers.
#[tactic(auto, using(crate::proofs::HeadSteps::class_shut, crate::proofs::HeadSteps::class_unnamed, crate::proofs::HeadSteps::class_found))]
fn class_head(alloc: Global, tokens: &[Token], height: u32) -> Result<Found<'_, HeadTree>, Halt>
    requires { length tokens.now < 2 ^ 32 }
    ensures read { Gives result (as_new head_tree (as_new This (class_head_run (class_run height))) tokens.now) }
    ensures shorter { IfOk result (λ f. length f.rest.now ≤ length tokens.now) }
{
    let Some((at, after)) = past_word_at(Key::Class, tokens) else {
        return Err(Halt::Stopped(tokens.len()));
    };
    let name = after!(name(alloc, after), after.len());
    let params = params_within(alloc, name.rest, height)?;
    let Ok(supers) = supers(alloc, params.rest, height) else {
        return Err(without(params, Halt::WantOfMemory));
    };
    let types = supers.value;
    Ok(Found {
        value: HeadTree::Class {
            at,
            name: name.value,
            params: params.value,
            extends: types.extends,
            implements: types.implements,
        },
        rest: supers.rest,
        left: least!(after.len(), name.left, params.left, supers.left),
    })
}

/// The head of an interface behind its modifiers.
#[tactic(auto, using(crate::proofs::HeadSteps::interface_shut, crate::proofs::HeadSteps::interface_unnamed, crate::proofs::HeadSteps::interface_found))]
fn interface_head(alloc: Global, tokens: &[Token], height: u32) -> Result<Found<'_, HeadTree>, Halt>
    requires { length tokens.now < 2 ^ 32 }
    ensures read { Gives result (as_new head_tree (as_new That (as_new This (interface_head_run (class_run height)))) tokens.now) }
    ensures shorter { IfOk result (λ f. length f.rest.now ≤ length tokens.now) }
{
    let Some((at, after)) = past_word_at(Key::Interface, tokens) else {
        return Err(Halt::Stopped(tokens.len()));
    };
    let name = after!(name(alloc, after), after.len());
    let params = params_within(alloc, name.rest, height)?;
    let Ok(extends) = keyed_within(alloc, Key::Extends, params.rest, height) else {
        return Err(without(params, Halt::WantOfMemory));
    };
    Ok(Found {
        value: HeadTree::Interface {
            at,
            name: name.value,
            params: params.value,
            extends: extends.value,
        },
        rest: extends.rest,
        left: least!(after.len(), name.left, params.left, extends.left),
    })
}

/// The head of an annotation's declaration behind its modifiers.
#[tactic(auto, unfolding(jc_part_laws::specs::PartReading::annotation_head_run))]
fn annotation_head(alloc: Global, tokens: &[Token]) -> Result<Found<'_, HeadTree>, Halt>
    ensures read { Gives result (as_new head_tree (as_new That (as_new That annotation_head_run)) tokens.now) }
    ensures shorter { IfOk result (λ f. length f.rest.now ≤ length tokens.now) }
{
    let Some((at, after)) = past_sign_at(Sign::At, tokens) else {
        return Err(Halt::Stopped(tokens.len()));
    };
    let Some(rest) = past_word(Key::Interface, after) else {
        return Err(Halt::Stopped(after.len()));
    };
    let name = after!(name(alloc, rest), after.len(), rest.len());
    Ok(Found {
        value: HeadTree::Annotation {
            at,
            name: name.value,
        },
        rest: name.rest,
        left: least!(after.len(), rest.len(), name.left),
    })
}

/// A head behind its modifiers.
#[tactic(auto, using(crate::proofs::HeadSteps::rest_class, crate::proofs::HeadSteps::rest_interface, crate::proofs::HeadSteps::rest_annotation))]
pub fn head_rest_within(
    alloc: Global,
    tokens: &[Token],
    height: u32,
) -> Result<Found<'_, HeadTree>, Halt>
    requires { length tokens.now < 2 ^ 32 }
    ensures read { Gives result (as_new head_tree (head_rest_run (class_run height)) tokens.now) }
    ensures shorter { IfOk result (λ f. length f.rest.now ≤ length tokens.now) }
{
    if past_word(Key::Class, tokens).is_some() {
        return class_head(alloc, tokens, height);
    }
    if past_word(Key::Interface, tokens).is_some() {
        return interface_head(alloc, tokens, height);
    }
    annotation_head(alloc, tokens)
}

/// A head with its modifiers.
pub fn head_of(modifiers: Items<Modifier>, rest: HeadTree) -> DeclarationHead
    ensures { (p : HeadRest) → head_tree p ≡ rest → result ≡ head_made modifiers p }
{
    match rest {
        HeadTree::Class {
            at,
            name,
            params,
            extends,
            implements,
        } => DeclarationHead::Class {
            modifiers,
            at,
            name,
            params,
            extends,
            implements,
        },
        HeadTree::Interface {
            at,
            name,
            params,
            extends,
        } => DeclarationHead::Interface {
            modifiers,
            at,
            name,
            params,
            extends,
        },
        HeadTree::Annotation { at, name } => DeclarationHead::Annotation {
            modifiers,
            at,
            name,
        },
    }
}
