//! Conditionals of numbers, and of constants (JLS 15.25, 15.28).
ghost use Rattle.std.specs.Prelude.{◌≡◌, IfOk, Some};
ghost use Rattle.jc_judge.specs.Kinds.{is_long};
ghost use Rattle.jc_convert.specs.Converting.{is_value, narrows};
ghost use Rattle.jc_exprs_parts_spec.specs.Constants.{chosen_as, chosen_constant, chosen_of, conditional_constant, fits, is_int, numeric_choice, small_sum, tested, whole_choice};
ghost use Rattle.jc_exprs_parts_spec.specs.Operators.{promoted_both};

use crate::casts::{cast_constant, copy_constant, is_boolean};
use jc_rules::WantOfMemory;
use jc_types::{Constant, Primitive};
use std::alloc::Global;

/// Whether each branch of a conditional is a constant int that fits the type of the other one.
#[derive(Clone, Copy, Debug)]
pub struct Fitting {
    pub first: bool,
    pub second: bool,
}

fn is_long(p: Primitive) -> bool
    ensures { result ≡ is_long p }
{
    match p {
        Primitive::Long => true,
        _ => false,
    }
}

fn is_int(p: Primitive) -> bool
    ensures { result ≡ is_int p }
{
    match p {
        Primitive::Int => true,
        _ => false,
    }
}

// byte with short
fn small_sum(p: Primitive, q: Primitive) -> bool
    ensures { result ≡ small_sum p q }
{
    match (p, q) {
        (Primitive::Byte, Primitive::Short) => true,
        (Primitive::Short, Primitive::Byte) => true,
        _ => false,
    }
}

// Binary numeric promotion (JLS 5.6.2).
fn promoted_both(p: Primitive, q: Primitive) -> Primitive
    ensures { result ≡ promoted_both p q }
{
    if is_long(p) || is_long(q) {
        Primitive::Long
    } else {
        Primitive::Int
    }
}

/// The type of a conditional whose branches are numbers of these types (JLS 15.25).
pub fn numeric_choice(p: Primitive, q: Primitive, fits: Fitting) -> Primitive
    ensures { result ≡ numeric_choice p q fits.second fits.first }
{
    if small_sum(p, q) {
        Primitive::Short
    } else if fits.second {
        p
    } else if fits.first {
        q
    } else {
        promoted_both(p, q)
    }
}

fn is_value(q: Primitive, n: i64) -> bool
    ensures { result ≡ is_value q n }
{
    match q {
        Primitive::Boolean => false,
        Primitive::Byte => -128 <= n && n <= 127,
        Primitive::Short => -32768 <= n && n <= 32767,
        Primitive::Char => 0 <= n && n <= 65535,
        Primitive::Int => false,
        Primitive::Long => false,
    }
}

/// Whether a constant int is a value of byte, short or char, which this is (JLS 5.2).
pub fn narrows_from_int(constant: &Constant, to: Primitive) -> bool
    ensures { result ≡ narrows (Some constant.now) Primitive.Int to }
{
    match constant {
        Constant::Whole { value, .. } => is_value(to, *value),
        Constant::Text(_) => false,
    }
}

fn fits(constant: &Constant, of: Primitive, to: Primitive) -> bool
    ensures { result ≡ fits constant.now of to }
{
    is_int(of) && narrows_from_int(constant, to)
}

// The type of two numbers or two booleans.
fn whole_choice(then: &Constant, p: Primitive, other: &Constant, q: Primitive) -> Option<Primitive>
    ensures { result ≡ whole_choice then.now p other.now q }
{
    if p == q {
        return Some(p);
    }
    if is_boolean(p) || is_boolean(q) {
        return None;
    }
    let fits = Fitting {
        first: fits(then, p, q),
        second: fits(other, q, p),
    };
    Some(numeric_choice(p, q, fits))
}

fn chosen_of<'a>(test: bool, then: &'a Constant, other: &'a Constant) -> &'a Constant
    ensures { result.now ≡ chosen_of test then.now other.now }
{
    if test { then } else { other }
}

fn chosen_whole(
    test: bool,
    then: &Constant,
    p: Primitive,
    other: &Constant,
    q: Primitive,
) -> Option<Constant>
    ensures { result ≡ chosen_as (chosen_of test then.now other.now) (whole_choice then.now p other.now q) }
{
    match whole_choice(then, p, other, q) {
        None => None,
        Some(to) => cast_constant(to, chosen_of(test, then, other)),
    }
}

fn chosen_constant(
    alloc: Global,
    test: bool,
    then: &Constant,
    other: &Constant,
) -> Result<Option<Constant>, WantOfMemory>
    ensures { IfOk result (λ r. r ≡ chosen_constant test then.now other.now) }
{
    match then {
        Constant::Whole { of: p, .. } => match other {
            Constant::Whole { of: q, .. } => Ok(chosen_whole(test, then, *p, other, *q)),
            Constant::Text(_) => Ok(None),
        },
        Constant::Text(_) => match other {
            Constant::Whole { .. } => Ok(None),
            Constant::Text(_) => Ok(Some(copy_constant(alloc, chosen_of(test, then, other))?)),
        },
    }
}

fn tested(value: i64) -> bool
    ensures { result ≡ tested value }
{
    value != 0
}

/// The constant of a conditional of constants, if it has one.
pub fn conditional_constant(
    alloc: Global,
    test: &Constant,
    then: &Constant,
    other: &Constant,
) -> Result<Option<Constant>, WantOfMemory>
    ensures { IfOk result (λ r. r ≡ conditional_constant test.now then.now other.now) }
{
    match test {
        Constant::Whole {
            value,
            of: Primitive::Boolean,
        } => chosen_constant(alloc, tested(*value), then, other),
        _ => Ok(None),
    }
}
