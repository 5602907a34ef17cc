//! Constants as those of other types.
ghost use Rattle.std.specs.Prelude.{◌≡◌, ◌++◌, IfOk, OnOk};
ghost use Rattle.jc_judge.specs.Kinds.{is_boolean};
ghost use Rattle.jc_convert.specs.Casting.{is_numeric};
ghost use Rattle.jc_folding.specs.Folding.{as_constant};
ghost use Rattle.jc_exprs_parts_spec.specs.Operators.{is_string, string_type};
ghost use Rattle.jc_exprs_parts_spec.specs.Constants.{cast_constant, cast_number, constant_as, text_only};

use jc_numbers::number_as;
use jc_rules::{Items, WantOfMemory};
use jc_running::Value;
use jc_types::{Constant, Primitive, Table, Ty, class_named, same_type};
use std::alloc::Global;

/// `java.lang.String`.
pub fn string_type(alloc: Global, table: &Table) -> Ty
    ensures { result ≡ string_type table.now }
{
    Ty::Class {
        id: class_named(table, "java.lang.String"),
        args: Items::new(alloc),
    }
}

/// Whether a type is `java.lang.String`.
pub fn is_string(alloc: Global, table: &Table, ty: &Ty) -> bool
    ensures { result ≡ is_string table.now ty.now }
{
    let string = string_type(alloc, table);
    same_type(ty, &string)
}

fn push_units(units: &[u16], out: &mut Items<u16>) -> Result<(), WantOfMemory>
    ensures { OnOk result (out.new ≡ out.old ++ units.now) }
{
    let mut rest = units;
    while let [unit, more @ ..] = rest {
        out.push(*unit)?;
        rest = more;
    }
    Ok(())
}

fn copy_text(alloc: Global, units: &[u16]) -> Result<Constant, WantOfMemory>
    ensures { IfOk result (λ r. r ≡ Constant.Text units.now) }
{
    let mut out = Items::new(alloc);
    push_units(units, &mut out)?;
    Ok(Constant::Text(out))
}

pub fn copy_constant(alloc: Global, constant: &Constant) -> Result<Constant, WantOfMemory>
    ensures { IfOk result (λ r. r ≡ constant.now) }
{
    match constant {
        Constant::Whole { value, of } => Ok(Constant::Whole {
            value: *value,
            of: *of,
        }),
        Constant::Text(units) => copy_text(alloc, units.slice()),
    }
}

pub fn is_boolean(p: Primitive) -> bool
    ensures { result ≡ is_boolean p }
{
    match p {
        Primitive::Boolean => true,
        _ => false,
    }
}

/// Whether this is a primitive type but boolean.
pub fn is_numeric(p: Primitive) -> bool
    ensures { result ≡ is_numeric p }
{
    match p {
        Primitive::Boolean => false,
        _ => true,
    }
}

fn as_constant(of: Primitive, value: Value) -> Option<Constant>
    ensures { result ≡ as_constant of value }
{
    match value {
        Value::Whole(n) => Some(Constant::Whole {
            value: n as i64,
            of,
        }),
        Value::Long(n) => Some(Constant::Whole { value: n, of }),
        Value::Address(_) => None,
        Value::Null => None,
    }
}

// Between numbers, and from boolean to itself.
fn cast_number(to: Primitive, n: i64, from: Primitive) -> Option<Constant>
    ensures { result ≡ cast_number to n from }
{
    if (is_numeric(from) && is_numeric(to)) || (is_boolean(from) && is_boolean(to)) {
        as_constant(to, number_as(to, n))
    } else {
        None
    }
}

/// A constant as one of a primitive type (JLS 5.1.2, 5.1.3).
pub fn cast_constant(to: Primitive, constant: &Constant) -> Option<Constant>
    ensures { result ≡ cast_constant to constant.now }
{
    match constant {
        Constant::Whole { value, of } => cast_number(to, *value, *of),
        Constant::Text(_) => None,
    }
}

// A string stays one where it goes to String.
fn as_text(
    alloc: Global,
    table: &Table,
    ty: &Ty,
    constant: &Constant,
) -> Result<Option<Constant>, WantOfMemory>
    ensures { IfOk result (λ r. r ≡ text_only (is_string table.now ty.now) constant.now) }
{
    if !is_string(alloc, table, ty) {
        return Ok(None);
    }
    match constant {
        Constant::Whole { .. } => Ok(None),
        Constant::Text(units) => Ok(Some(copy_text(alloc, units.slice())?)),
    }
}

/// A constant as one of a type to which its expression is converted: only primitive types and String have constants.
#[tactic(auto, using(jc_types::proofs::Opened::opened))]
pub fn constant_as(
    alloc: Global,
    table: &Table,
    ty: &Ty,
    constant: &Constant,
) -> Result<Option<Constant>, WantOfMemory>
    ensures { IfOk result (λ r. r ≡ constant_as table.now ty.now constant.now) }
{
    match ty {
        Ty::Prim(to) => Ok(cast_constant(*to, constant)),
        _ => as_text(alloc, table, ty, constant),
    }
}
