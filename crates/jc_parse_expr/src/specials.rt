//! Class literals and outer `this` (JLS 15.8.2, 15.8.4).
ghost use Rattle.std.specs.Prelude.{◌≡◌, ℕ, ◌<◌, ◌^◌, [], ◌∷◌, List, length, map, IfOk, MatchOption, MatchResult};
ghost use Rattle.jc_lexer.specs.declared.token.Token.{Token};
ghost use Rattle.jc_tree.specs.declared.name.Ident.{Ident};
ghost use Rattle.jc_tree.specs.Heights.{expr_height};
ghost use Rattle.jc_reading.specs.Giving.{Gives, Is};
ghost use Rattle.jc_reading.specs.Reading.{Found as read_found, Stopped as read_stopped, an_ident_at, as_new, found, in_turn, noting};
ghost use Rattle.jc_parse_type.specs.TypeReading.{bracket_run, dims_run};
ghost use Rattle.jc_part_laws.specs.PartReading.{more_names_run};
ghost use Rattle.jc_expr_laws.specs.StartReading.{bare_class, bare_part, class_dims_run, dot_class_run, dot_key_run, special_run};
ghost use Rattle.jc_parse_expr.specs.PrimeCode.{IsMeasured, Measures, names_special_made, names_special_run, special_tail_run, word_class_made};
ghost use Rattle.jc_parse_expr.specs.SpecialCode.{dims_tail, dot_name_run, forgetting, key_tail, of_tail, tail_of};

use crate::measured::Measured;
use crate::parts::NamesTail;
use crate::pieces::{dot_class, is_at};
use crate::primary_nodes::{class_node, outer_node};
use jc_lexer::{Key, Sign, Token, TokenKind};
use jc_parse_type::{dims, primitive};
use jc_reading::{Found, Halt, behind_key, behind_sign, identifier, pushed, without};
use jc_rules::{Items, WantOfMemory};
use jc_tree::{BaseTree, ClassTree, Expr, Ident, PrimitiveWord, TypePart, TypeTree, copy_ident};
use std::alloc::Global;

/// A point and a name.
#[tactic(auto, using(crate::proofs::SpecialCodes::dot_name_inside))]
fn dot_name(alloc: Global, tokens: &[Token]) -> Result<Found<'_, Ident>, Halt>
    ensures { Gives result (dot_name_run tokens.now) }
{
    match behind_sign(Sign::Dot, tokens) {
        Some(after) => identifier(alloc, after),
        None => Err(Halt::Stopped(tokens.len())),
    }
}

/// Names behind points.
fn more_names(alloc: Global, tokens: &[Token]) -> Result<Found<'_, Items<Ident>>, WantOfMemory>
    ensures { IfOk result (λ f. Is f (more_names_run tokens.now)) }
{
    let mut names = Items::new(alloc);
    let mut rest = tokens;
    let mut left = tokens.len();
    'dots: loop {
        match dot_name(alloc, rest) {
            Ok(found) => {
                names.push(found.value)?;
                left = left.min(found.left);
                rest = found.rest;
            }
            Err(Halt::Stopped(reach)) => {
                return Ok(Found {
                    value: names,
                    rest,
                    left: left.min(reach),
                });
            }
            Err(Halt::WantOfMemory) => return Err(WantOfMemory),
        }
    }
}

/// The tokens behind a name, where one stands there.
fn behind_name(tokens: &[Token]) -> Option<&[Token]>
    ensures { MatchOption result (an_ident_at tokens.now ≡ read_stopped (length tokens.now)) (λ r. as_new forgetting an_ident_at tokens.now ≡ found tt r.now) }
{
    match tokens {
        [first, rest @ ..] => match &first.kind {
            TokenKind::Word(_) => Some(rest),
            _ => None,
        },
        _ => None,
    }
}

/// The tokens behind a point and a name, or how many are left from the reach on.
#[tactic(auto, using(crate::proofs::SpecialCodes::dot_name_inside))]
fn behind_dot_name(tokens: &[Token]) -> Result<&[Token], usize>
    ensures { MatchResult result (λ r. as_new forgetting dot_name_run tokens.now ≡ found tt r.now) (λ left. dot_name_run tokens.now ≡ read_stopped left) }
{
    let Some(after) = behind_sign(Sign::Dot, tokens) else {
        return Err(tokens.len());
    };
    match behind_name(after) {
        Some(rest) => Ok(rest),
        None => Err(after.len()),
    }
}

/// The tokens behind names that stand behind points.
fn behind_names(tokens: &[Token]) -> Found<'_, ()>
    ensures { as_new forgetting more_names_run tokens.now ≡ read_found tt result.rest.now result.left }
{
    let mut rest = tokens;
    let mut left = tokens.len();
    'dots: loop {
        match behind_dot_name(rest) {
            Ok(after) => {
                left = left.min(after.len());
                rest = after;
            }
            Err(reach) => {
                return Found {
                    value: (),
                    rest,
                    left: left.min(reach),
                };
            }
        }
    }
}

/// The tokens behind a pair of brackets, or how many are left from the reach on.
fn brackets(tokens: &[Token]) -> Result<&[Token], usize>
    ensures { MatchResult result (λ r. bracket_run tokens.now ≡ found (tt, tt) r.now) (λ left. bracket_run tokens.now ≡ read_stopped left) }
{
    let Some(inside) = behind_sign(Sign::LeftBracket, tokens) else {
        return Err(tokens.len());
    };
    match behind_sign(Sign::RightBracket, inside) {
        Some(rest) => Ok(rest),
        None => Err(inside.len()),
    }
}

/// Brackets and `.class`.
#[tactic(auto, using(crate::proofs::SpecialCodes::dims_low, crate::proofs::SpecialCodes::dims_open, crate::proofs::SpecialCodes::dims_stop, crate::proofs::SpecialCodes::dims_reads, crate::proofs::SpecialCodes::brackets_shorter, crate::proofs::Shorters::dims_count))]
fn class_dims(tokens: &[Token], height: u32) -> Result<Found<'_, NamesTail>, Halt>
    requires { length tokens.now < 2 ^ 32 }
    ensures { Gives result (as_new dims_tail (class_dims_run height) tokens.now) }
{
    if height == 0 {
        return Err(Halt::Stopped(tokens.len()));
    }
    let after = match brackets(tokens) {
        Ok(after) => after,
        Err(left) => return Err(Halt::Stopped(left)),
    };
    let dims = dims(after);
    match dot_class(dims.rest) {
        Ok(rest) => Ok(Found {
            value: NamesTail::Class(dims.value + 1),
            rest,
            left: after.len().min(dims.left.min(rest.len())),
        }),
        Err(left) => Err(Halt::Stopped(after.len().min(dims.left.min(left)))),
    }
}

/// `.this` or `.class`.
#[tactic(auto, using(crate::proofs::SpecialCodes::key_open, crate::proofs::SpecialCodes::key_this, crate::proofs::SpecialCodes::key_low, crate::proofs::SpecialCodes::key_class, crate::proofs::SpecialCodes::key_stop))]
fn dot_key(tokens: &[Token], height: u32) -> Result<Found<'_, NamesTail>, Halt>
    ensures { Gives result (as_new key_tail (dot_key_run height) tokens.now) }
{
    let Some(inside) = behind_sign(Sign::Dot, tokens) else {
        return Err(Halt::Stopped(tokens.len()));
    };
    if let Some(rest) = behind_key(Key::This, inside) {
        return Ok(Found {
            value: NamesTail::This,
            rest,
            left: rest.len(),
        });
    }
    if height == 0 {
        return Err(Halt::Stopped(inside.len()));
    }
    match behind_key(Key::Class, inside) {
        Some(rest) => Ok(Found {
            value: NamesTail::Class(0),
            rest,
            left: rest.len(),
        }),
        None => Err(Halt::Stopped(inside.len())),
    }
}

/// What makes a class literal or an outer `this` of names.
#[tactic(auto, using(crate::proofs::SpecialCodes::tail_dims, crate::proofs::SpecialCodes::tail_key))]
fn tail(tokens: &[Token], height: u32) -> Result<Found<'_, NamesTail>, Halt>
    requires { length tokens.now < 2 ^ 32 }
    ensures { Gives result (as_new tail_of (special_tail_run height) tokens.now) }
{
    if is_at(Sign::LeftBracket, tokens) {
        class_dims(tokens, height)
    } else {
        dot_key(tokens, height)
    }
}

/// A name as a part of a type without arguments.
fn bare_part(alloc: Global, name: Ident) -> TypePart
    ensures { result ≡ bare_part name }
{
    TypePart {
        name,
        args: Items::new(alloc),
    }
}

/// Names as parts of a type without arguments.
fn bare_parts(alloc: Global, names: &[Ident]) -> Result<Items<TypePart>, WantOfMemory>
    ensures { IfOk result (λ parts. parts ≡ map bare_part names.now) }
{
    let mut parts = Items::new(alloc);
    for i in 0..names.len() {
        match copy_ident(alloc, &names[i]) {
            Ok(name) => parts = pushed(parts, bare_part(alloc, name))?,
            Err(fault) => return Err(without(parts, fault)),
        }
    }
    Ok(parts)
}

/// Names as a class type without arguments.
fn bare_class(alloc: Global, first: Ident, more: &[Ident]) -> Result<ClassTree, WantOfMemory>
    ensures { IfOk result (λ class. class ≡ bare_class first more.now) }
{
    let more = bare_parts(alloc, more)?;
    Ok(ClassTree {
        first: bare_part(alloc, first),
        more,
    })
}

/// A class literal or an outer `this` of names.
fn named_node(
    alloc: Global,
    first: Ident,
    more: Items<Ident>,
    tail: NamesTail,
) -> Result<Measured<Expr>, WantOfMemory>
    ensures { IfOk result (λ r. (r.tree ≡ of_tail first more tail) × IsMeasured expr_height r) }
{
    match tail {
        NamesTail::This => outer_node(alloc, first, more),
        NamesTail::Class(dims) => class_node(
            alloc,
            TypeTree {
                base: BaseTree::Class(bare_class(alloc, first, more.slice())?),
                dims,
            },
        ),
    }
}

/// A class literal or an outer `this` of names that stand there.
fn node_at(alloc: Global, tokens: &[Token], tail: NamesTail) -> Result<Measured<Expr>, WantOfMemory>
    ensures { IfOk result (λ v. IsMeasured expr_height v × ((first : Ident) (q : List Token) (l : ℕ) (more : List Ident) (r : List Token) (k : ℕ) → an_ident_at tokens.now ≡ read_found first q l → more_names_run q ≡ read_found more r k → v.tree ≡ of_tail first more tail)) }
{
    match identifier(alloc, tokens) {
        Ok(first) => {
            let more = more_names(alloc, first.rest)?;
            named_node(alloc, first.value, more.value, tail)
        }
        Err(_) => Err(WantOfMemory),
    }
}

/// A class literal or an outer `this` that begins with a name: nothing is copied unless one stands there.
#[tactic(auto, using(crate::proofs::SpecialCodes::names_read, crate::proofs::SpecialCodes::names_stop, crate::proofs::SpecialCodes::names_none))]
fn named_special(
    alloc: Global,
    tokens: &[Token],
    height: u32,
) -> Result<Found<'_, Measured<Expr>>, Halt>
    requires { length tokens.now < 2 ^ 32 }
    ensures { Measures expr_height result (as_new names_special_made (names_special_run height) tokens.now) }
{
    let Some(inside) = behind_name(tokens) else {
        return Err(Halt::Stopped(tokens.len()));
    };
    let names = behind_names(inside);
    let reach = inside.len().min(names.left);
    match tail(names.rest, height) {
        Ok(tail) => {
            let value = node_at(alloc, tokens, tail.value)?;
            Ok(Found {
                value,
                rest: tail.rest,
                left: reach.min(tail.left),
            })
        }
        Err(Halt::Stopped(left)) => Err(Halt::Stopped(reach.min(left))),
        Err(Halt::WantOfMemory) => Err(Halt::WantOfMemory),
    }
}

/// A class literal of a primitive type, behind its word.
#[tactic(auto, using(crate::proofs::SpecialCodes::word_reads, crate::proofs::SpecialCodes::word_stops))]
fn word_special(
    alloc: Global,
    at: u32,
    word: PrimitiveWord,
    tokens: &[Token],
) -> Result<Found<'_, Measured<Expr>>, Halt>
    requires { length tokens.now < 2 ^ 32 }
    ensures { Measures expr_height result (noting (length tokens.now) (as_new (word_class_made at word) (in_turn dims_run dot_class_run) tokens.now)) }
{
    let dims = dims(tokens);
    match dot_class(dims.rest) {
        Ok(rest) => Ok(Found {
            value: class_node(
                alloc,
                TypeTree {
                    base: BaseTree::Primitive { at, word },
                    dims: dims.value,
                },
            )?,
            rest,
            left: tokens.len().min(dims.left.min(rest.len())),
        }),
        Err(left) => Err(Halt::Stopped(tokens.len().min(dims.left.min(left)))),
    }
}

/// A class literal or an outer `this`, of at most one more than this height.
#[tactic(auto, using(crate::proofs::SpecialSteps::special_names, crate::proofs::SpecialSteps::special_word, crate::proofs::SpecialSteps::special_low))]
#[inline(never)]
pub fn special(
    alloc: Global,
    tokens: &[Token],
    height: u32,
) -> Result<Found<'_, Measured<Expr>>, Halt>
    requires { length tokens.now < 2 ^ 32 }
    ensures { Measures expr_height result (special_run height tokens.now) }
{
    match primitive(tokens) {
        Some((at, word, rest)) => {
            if height == 0 {
                return Err(Halt::Stopped(tokens.len()));
            }
            word_special(alloc, at, word, rest)
        }
        None => named_special(alloc, tokens, height),
    }
}
