//! Operators on constants that may be missing (JLS 15.16, 15.18.1, 15.25, 15.28).
ghost use Rattle.std.specs.Prelude.{◌≡◌, ◌++◌, Some, true, IfOk, OnOk};
ghost use Rattle.jc_types.specs.declared.constant.Constant.TheVariants.{Text};
ghost use Rattle.jc_types.specs.declared.constant.Op.TheVariants.{Plus};
ghost use Rattle.jc_folding.specs.Folding.{fold, spelled};
ghost use Rattle.jc_exprs_parts_spec.specs.Constants.{cast_of, conditional_constant, from_some, prefixed_constant, prefixes, text_only};

use jc_exprs_constants::{cast_constant, conditional_constant};
use jc_exprs_operators::prefixed_constant;
use jc_folding::fold;
use jc_rules::{Items, WantOfMemory};
use jc_types::{Constant, ConstantType, Op, Primitive};
use std::alloc::Global;

fn text_only(constant: Constant) -> Option<Constant>
    ensures { result ≡ text_only true constant }
{
    match constant {
        Constant::Whole { .. } => None,
        Constant::Text(units) => Some(Constant::Text(units)),
    }
}

fn cast(to: ConstantType, constant: Constant) -> Option<Constant>
    ensures { result ≡ cast_of to constant }
{
    match to {
        ConstantType::Prim(to) => cast_constant(to, &constant),
        ConstantType::Text => text_only(constant),
    }
}

/// A cast of a constant expression.
pub fn cast_of(to: ConstantType, constant: Option<Constant>) -> Option<Constant>
    ensures { result ≡ from_some constant (cast_of to) }
{
    match constant {
        None => None,
        Some(constant) => cast(to, constant),
    }
}

fn prefixed(op: Op, constant: Option<Constant>) -> Option<Constant>
    ensures { result ≡ from_some constant (prefixed_constant op) }
{
    match constant {
        None => None,
        Some(constant) => prefixed_constant(op, &constant),
    }
}

/// Prefix operators, the outermost first.
#[tactic(auto, using(crate::proofs::Prefixes::last_laws))]
pub fn prefixes(ops: &[Op], constant: Option<Constant>) -> Option<Constant>
    ensures { result ≡ prefixes ops.now constant }
{
    let mut value = constant;
    let mut left = ops.len();
    while left > 0 {
        left -= 1;
        value = prefixed(ops[left], value);
    }
    value
}

// ---- chains

fn push_units(units: &[u16], out: &mut Items<u16>) -> Result<(), WantOfMemory>
    ensures { OnOk result (out.new ≡ out.old ++ units.now) }
{
    let mut rest = units;
    while let [unit, more @ ..] = rest {
        out.push(*unit)?;
        rest = more;
    }
    Ok(())
}

// The units of a value in a string: those of an empty string with it.
fn spelled(alloc: Global, value: i64, of: Primitive) -> Result<Items<u16>, WantOfMemory>
    ensures { IfOk result (λ r. r ≡ spelled value of) }
{
    let empty = Constant::Text(Items::new(alloc));
    match fold(alloc, Op::Plus, &empty, &Constant::Whole { value, of })? {
        Some(Constant::Text(units)) => Ok(units),
        _ => Ok(Items::new(alloc)),
    }
}

fn push_spelled(alloc: Global, right: &Constant, out: &mut Items<u16>) -> Result<(), WantOfMemory>
    ensures { OnOk result (fold Plus (Text out.old) right.now ≡ Some (Text out.new)) }
{
    match right {
        Constant::Text(units) => push_units(units.slice(), out),
        Constant::Whole { value, of } => out.append(spelled(alloc, *value, *of)?),
    }
}

fn grown(
    alloc: Global,
    units: Items<u16>,
    right: &Constant,
) -> Result<Option<Constant>, WantOfMemory>
    ensures { IfOk result (λ r. r ≡ fold Plus (Text units) right.now) }
{
    let mut units = units;
    push_spelled(alloc, right, &mut units)?;
    Ok(Some(Constant::Text(units)))
}

// What an operator gives of two constants. A string grows in its place, so that a chain of many costs no more than their length.
fn folded(
    alloc: Global,
    op: Op,
    left: Constant,
    right: &Constant,
) -> Result<Option<Constant>, WantOfMemory>
    ensures { IfOk result (λ r. r ≡ fold op left right.now) }
{
    match (left, op) {
        (Constant::Text(units), Op::Plus) => grown(alloc, units, right),
        (left, _) => fold(alloc, op, &left, right),
    }
}

/// A further operand of a chain.
pub fn joined(
    alloc: Global,
    op: Op,
    left: Option<Constant>,
    right: Option<Constant>,
) -> Result<Option<Constant>, WantOfMemory>
    ensures { IfOk result (λ r. r ≡ from_some left (λ x. from_some right (λ y. fold op x y))) }
{
    match (left, right) {
        (Some(left), Some(right)) => folded(alloc, op, left, &right),
        _ => Ok(None),
    }
}

/// A conditional, by the values of its three parts.
pub fn conditional(
    alloc: Global,
    test: Option<Constant>,
    then: Option<Constant>,
    other: Option<Constant>,
) -> Result<Option<Constant>, WantOfMemory>
    ensures { IfOk result (λ r. r ≡ from_some test (λ t. from_some then (λ x. from_some other (conditional_constant t x)))) }
{
    match (test, then, other) {
        (Some(test), Some(then), Some(other)) => {
            conditional_constant(alloc, &test, &then, &other)
        }
        _ => Ok(None),
    }
}
