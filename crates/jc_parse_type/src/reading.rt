//! Types, read from left to right where there is room for so many heights.
ghost use Rattle.std.specs.Prelude.{◌≡◌, ◌<◌, ◌≤◌, ◌^◌, ◌∷◌, [], length, map, IfOk, MatchOption, MatchResult, None, Some};
ghost use Rattle.std.specs.Option.{is_some};
ghost use Rattle.jc_reading.specs.Giving.{Gives, Is};
ghost use Rattle.jc_reading.specs.Kinds.{one_of, sign_code};
ghost use Rattle.jc_lexer.specs.declared.token.Sign.TheVariants as sign_of;
ghost use Rattle.jc_tree.specs.declared.types.TypeArg.TheVariants as arg_of;
ghost use Rattle.jc_reading.specs.Reading.{as_new, behind_it, commas_run, each_behind, found, in_turn, of_kind};
ghost use Rattle.jc_reading.specs.Reading.{Stopped as read_stopped};
ghost use Rattle.jc_parse_type.specs.TypeReading.{arg_run, args_run, base_run, bound_run, bracket_run, class_run, dims_run, part_run, primitive_codes, type_run, wildcard, word_of_kind, word_run};

use jc_lexer::{Key, Sign, Token, TokenKind};
use jc_reading::{Found, Halt, behind_key, behind_sign, identifier, place_of_sign};
use jc_rules::{Items, WantOfMemory};
use jc_tree::{BaseTree, ClassTree, PrimitiveWord, TypeArg, TypePart, TypeTree};
use std::alloc::Global;

/// The word of a primitive type.
fn word_of(kind: &TokenKind) -> Option<PrimitiveWord>
    ensures { result ≡ word_of_kind kind.now }
{
    match kind {
        TokenKind::Key(Key::Boolean) => Some(PrimitiveWord::Boolean),
        TokenKind::Key(Key::Byte) => Some(PrimitiveWord::Byte),
        TokenKind::Key(Key::Short) => Some(PrimitiveWord::Short),
        TokenKind::Key(Key::Char) => Some(PrimitiveWord::Char),
        TokenKind::Key(Key::Int) => Some(PrimitiveWord::Int),
        TokenKind::Key(Key::Long) => Some(PrimitiveWord::Long),
        _ => None,
    }
}

/// The place and the word of a primitive type, where one stands at the front.
pub fn primitive(tokens: &[Token]) -> Option<(u32, PrimitiveWord, &[Token])>
    ensures read { MatchOption result (word_run tokens.now ≡ read_stopped (length tokens.now)) (λ x. word_run tokens.now ≡ found (x.0, x.1) x.2.now) }
    ensures front { one_of primitive_codes tokens.now ≡ is_some result }
{
    match tokens {
        [first, rest @ ..] => match word_of(&first.kind) {
            Some(word) => Some((first.from, word, rest)),
            None => None,
        },
        _ => None,
    }
}

/// The tokens behind a pair of brackets, or how many tokens are left where there is none.
fn brackets(tokens: &[Token]) -> Result<&[Token], usize>
    ensures { MatchResult result (λ r. bracket_run tokens.now ≡ found (tt, tt) r.now) (λ left. bracket_run tokens.now ≡ read_stopped left) }
{
    let Some(inside) = behind_sign(Sign::LeftBracket, tokens) else {
        return Err(tokens.len());
    };
    match behind_sign(Sign::RightBracket, inside) {
        Some(rest) => Ok(rest),
        None => Err(inside.len()),
    }
}

/// How many pairs of brackets stand there.
pub fn dims(tokens: &[Token]) -> Found<'_, u32>
    requires { length tokens.now < 2 ^ 32 }
    ensures { Is result (dims_run tokens.now) }
{
    let mut dims = 0;
    let mut rest = tokens;
    let mut left = tokens.len();
    'pairs: loop {
        match brackets(rest) {
            Ok(after) => {
                dims += 1;
                left = left.min(after.len());
                rest = after;
            }
            Err(reach) => {
                return Found {
                    value: dims,
                    rest,
                    left: left.min(reach),
                };
            }
        }
    }
}

/// A type argument (JLS 4.5.1).
#[cycle(types)]
#[tactic(auto, unfolding(crate::specs::TypeReading::arg_run), using(crate::proofs::CodeSteps::arg_exact))]
fn arg(alloc: Global, tokens: &[Token], height: u32) -> Result<Found<'_, TypeArg>, Halt>
    requires { length tokens.now < 2 ^ 32 }
    ensures { Gives result (arg_run height (type_run height) tokens.now) }
{
    let Some((at, after)) = place_of_sign(Sign::Question, tokens) else {
        return exact_arg(alloc, tokens, height);
    };
    if height == 0 {
        return Ok(Found {
            value: TypeArg::Any { at },
            rest: after,
            left: after.len(),
        });
    }
    let found = wildcard(alloc, at, after, height)?;
    Ok(Found {
        value: found.value,
        rest: found.rest,
        left: after.len().min(found.left),
    })
}

/// An argument that is a type, where there is room for one.
#[cycle(types)]
fn exact_arg(alloc: Global, tokens: &[Token], height: u32) -> Result<Found<'_, TypeArg>, Halt>
    requires { length tokens.now < 2 ^ 32 }
    ensures { Gives result (as_new arg_of.Exact (type_run height) tokens.now) }
{
    let found = type_within(alloc, tokens, height)?;
    Ok(Found {
        value: TypeArg::Exact(found.value),
        rest: found.rest,
        left: found.left,
    })
}

/// What stands behind the question mark at `at`.
#[cycle(types)]
#[tactic(auto, using(crate::proofs::CodeSteps::upper_found, crate::proofs::CodeSteps::upper_halts, crate::proofs::CodeSteps::lower_found, crate::proofs::CodeSteps::lower_halts, crate::proofs::CodeSteps::within_type))]
fn wildcard(
    alloc: Global,
    at: u32,
    tokens: &[Token],
    height: u32,
) -> Result<Found<'_, TypeArg>, WantOfMemory>
    requires { length tokens.now < 2 ^ 32 }
    ensures { IfOk result (λ f. Is f (as_new (λ b. wildcard (at, b)) (bound_run (type_run height)) tokens.now)) }
{
    if let Some(after) = behind_key(Key::Extends, tokens) {
        return match type_within(alloc, after, height) {
            Ok(found) => Ok(Found {
                value: TypeArg::Extends {
                    at,
                    bound: found.value,
                },
                rest: found.rest,
                left: found.left,
            }),
            Err(Halt::Stopped(left)) => Ok(unbounded(at, tokens, left)),
            Err(Halt::WantOfMemory) => Err(WantOfMemory),
        };
    }
    if let Some(after) = behind_key(Key::Super, tokens) {
        return match type_within(alloc, after, height) {
            Ok(found) => Ok(Found {
                value: TypeArg::Super {
                    at,
                    bound: found.value,
                },
                rest: found.rest,
                left: found.left,
            }),
            Err(Halt::Stopped(left)) => Ok(unbounded(at, tokens, left)),
            Err(Halt::WantOfMemory) => Err(WantOfMemory),
        };
    }
    Ok(unbounded(at, tokens, tokens.len()))
}

/// A wildcard without a bound.
fn unbounded(at: u32, rest: &[Token], left: usize) -> Found<'_, TypeArg>
    ensures { (result.value ≡ arg_of.Any at) × (result.rest.now ≡ rest.now) × (result.left ≡ left) }
{
    Found {
        value: TypeArg::Any { at },
        rest,
        left,
    }
}

/// One or more arguments with commas between them.
#[cycle(types)]
pub fn more_args(
    alloc: Global,
    tokens: &[Token],
    height: u32,
) -> Result<Found<'_, Items<TypeArg>>, Halt>
    requires { length tokens.now < 2 ^ 32 }
    ensures { Gives result (commas_run (arg_run height (type_run height)) tokens.now) }
{
    let first = arg(alloc, tokens, height)?;
    let mut args = Items::new(alloc);
    args.push(first.value)?;
    let mut rest = first.rest;
    let mut left = first.left;
    'commas: loop {
        match comma_arg(alloc, rest, height) {
            Ok(found) => {
                args.push(found.value)?;
                left = left.min(found.left);
                rest = found.rest;
            }
            Err(Halt::Stopped(reach)) => {
                return Ok(Found {
                    value: args,
                    rest,
                    left: left.min(reach),
                });
            }
            Err(Halt::WantOfMemory) => return Err(Halt::WantOfMemory),
        }
    }
}

/// A comma and an argument.
#[cycle(types)]
fn comma_arg(alloc: Global, tokens: &[Token], height: u32) -> Result<Found<'_, TypeArg>, Halt>
    requires { length tokens.now < 2 ^ 32 }
    ensures { Gives result (as_new behind_it (in_turn (of_kind (sign_code sign_of.Comma)) (arg_run height (type_run height))) tokens.now) }
{
    match behind_sign(Sign::Comma, tokens) {
        Some(after) => arg(alloc, after, height),
        None => Err(Halt::Stopped(tokens.len())),
    }
}

/// Arguments between angle brackets, where they stand there.
#[cycle(types)]
#[tactic(auto, unfolding(crate::specs::TypeReading::args_run), using(crate::proofs::CodeSteps::args_found, crate::proofs::CodeSteps::args_open, crate::proofs::CodeSteps::args_halt, crate::proofs::CodeSteps::within_row))]
pub fn args_within(
    alloc: Global,
    tokens: &[Token],
    height: u32,
) -> Result<Found<'_, Items<TypeArg>>, WantOfMemory>
    requires { length tokens.now < 2 ^ 32 }
    ensures { IfOk result (λ f. Is f (args_run (arg_run height (type_run height)) tokens.now)) }
{
    let Some(inside) = behind_sign(Sign::Less, tokens) else {
        return Ok(no_args(alloc, tokens, tokens.len()));
    };
    match more_args(alloc, inside, height) {
        Ok(found) => match behind_sign(Sign::Greater, found.rest) {
            Some(rest) => Ok(Found {
                value: found.value,
                rest,
                left: found.left.min(rest.len()),
            }),
            None => Ok(no_args(alloc, tokens, found.left.min(found.rest.len()))),
        },
        Err(Halt::Stopped(left)) => Ok(no_args(alloc, tokens, left)),
        Err(Halt::WantOfMemory) => Err(WantOfMemory),
    }
}

/// No arguments, with a reach.
fn no_args(alloc: Global, rest: &[Token], left: usize) -> Found<'_, Items<TypeArg>>
    ensures { (result.value ≡ []) × (result.rest.now ≡ rest.now) × (result.left ≡ left) }
{
    Found {
        value: Items::new(alloc),
        rest,
        left,
    }
}

/// A name with its arguments.
#[cycle(types)]
#[tactic(auto, unfolding(crate::specs::TypeReading::part_run))]
fn part(alloc: Global, tokens: &[Token], height: u32) -> Result<Found<'_, TypePart>, Halt>
    requires { length tokens.now < 2 ^ 32 }
    ensures { Gives result (part_run (args_run (arg_run height (type_run height))) tokens.now) }
{
    let name = identifier(alloc, tokens)?;
    let args = args_within(alloc, name.rest, height)?;
    Ok(Found {
        value: TypePart {
            name: name.value,
            args: args.value,
        },
        rest: args.rest,
        left: name.left.min(args.left),
    })
}

/// A point and a part.
#[cycle(types)]
fn dot_part(alloc: Global, tokens: &[Token], height: u32) -> Result<Found<'_, TypePart>, Halt>
    requires { length tokens.now < 2 ^ 32 }
    ensures { Gives result (as_new behind_it (in_turn (of_kind (sign_code sign_of.Dot)) (part_run (args_run (arg_run height (type_run height))))) tokens.now) }
{
    match behind_sign(Sign::Dot, tokens) {
        Some(after) => part(alloc, after, height),
        None => Err(Halt::Stopped(tokens.len())),
    }
}

/// The parts behind the first one.
#[cycle(types)]
fn more_parts(
    alloc: Global,
    tokens: &[Token],
    height: u32,
) -> Result<Found<'_, Items<TypePart>>, WantOfMemory>
    requires { length tokens.now < 2 ^ 32 }
    ensures { IfOk result (λ f. Is f (as_new (map behind_it) (each_behind sign_of.Dot (part_run (args_run (arg_run height (type_run height))))) tokens.now)) }
{
    let mut parts = Items::new(alloc);
    let mut rest = tokens;
    let mut left = tokens.len();
    'dots: loop {
        match dot_part(alloc, rest, height) {
            Ok(found) => {
                parts.push(found.value)?;
                left = left.min(found.left);
                rest = found.rest;
            }
            Err(Halt::Stopped(reach)) => {
                return Ok(Found {
                    value: parts,
                    rest,
                    left: left.min(reach),
                });
            }
            Err(Halt::WantOfMemory) => return Err(WantOfMemory),
        }
    }
}

/// The longest class type that begins there, whose arguments have at most this height.
#[cycle(types)]
#[tactic(auto, unfolding(crate::specs::TypeReading::class_run_of))]
pub fn class_within(
    alloc: Global,
    tokens: &[Token],
    height: u32,
) -> Result<Found<'_, ClassTree>, Halt>
    requires { length tokens.now < 2 ^ 32 }
    ensures { Gives result (class_run height tokens.now) }
{
    let first = part(alloc, tokens, height)?;
    let more = more_parts(alloc, first.rest, height)?;
    Ok(Found {
        value: ClassTree {
            first: first.value,
            more: more.value,
        },
        rest: more.rest,
        left: first.left.min(more.left),
    })
}

/// The longest type without brackets that begins there, whose arguments have at most this height.
#[cycle(types)]
#[tactic(auto, unfolding(crate::specs::TypeReading::base_run_of))]
pub fn base_within(
    alloc: Global,
    tokens: &[Token],
    height: u32,
) -> Result<Found<'_, BaseTree>, Halt>
    requires { length tokens.now < 2 ^ 32 }
    ensures { Gives result (base_run height tokens.now) }
{
    if let Some((at, word, rest)) = primitive(tokens) {
        return Ok(Found {
            value: BaseTree::Primitive { at, word },
            rest,
            left: rest.len(),
        });
    }
    let found = class_within(alloc, tokens, height)?;
    Ok(Found {
        value: BaseTree::Class(found.value),
        rest: found.rest,
        left: found.left,
    })
}

/// The longest type of at most this height that begins there.
#[cycle(types)]
#[tactic(auto, unfolding(crate::specs::TypeReading::type_run, crate::specs::TypeReading::type_run_of))]
pub fn type_within(
    alloc: Global,
    tokens: &[Token],
    height: u32,
) -> Result<Found<'_, TypeTree>, Halt>
    requires { length tokens.now < 2 ^ 32 }
    ensures { Gives result (type_run height tokens.now) }
{
    if height == 0 {
        return Err(Halt::Stopped(tokens.len()));
    }
    let base = base_within(alloc, tokens, height - 1)?;
    let dims = dims(base.rest);
    Ok(Found {
        value: TypeTree {
            base: base.value,
            dims: dims.value,
        },
        rest: dims.rest,
        left: base.left.min(dims.left),
    })
}
