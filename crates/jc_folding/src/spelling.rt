//! Strings in constant expressions (JLS 15.18.1).
ghost use Rattle.std.specs.Prelude.{◌≡◌, ◌++◌, IfOk, OnOk};
ghost use Rattle.std.specs.Fmt.{signed_decimal};
ghost use Rattle.std.specs.Int.{w16, cast_unsigned, int_wrap};
ghost use Rattle.jc_folding.specs.Folding.{spelled, same_units, truth_constant, texts, joined};

use jc_rules::{Items, WantOfMemory};
use jc_types::{Constant, Op, Primitive};
use std::alloc::Global;

fn push_bytes(bytes: &[u8], out: &mut Items<u16>) -> Result<(), WantOfMemory>
    ensures { OnOk result (out.new ≡ out.old ++ bytes.now) }
{
    let mut rest = bytes;
    while let [b, more @ ..] = rest {
        out.push(u16::from(*b))?;
        rest = more;
    }
    Ok(())
}

fn push_units(units: &[u16], out: &mut Items<u16>) -> Result<(), WantOfMemory>
    ensures { OnOk result (out.new ≡ out.old ++ units.now) }
{
    let mut rest = units;
    while let [u, more @ ..] = rest {
        out.push(*u)?;
        rest = more;
    }
    Ok(())
}

fn of_bytes(alloc: Global, bytes: &[u8]) -> Result<Items<u16>, WantOfMemory>
    ensures { IfOk result (λ r. r ≡ bytes.now) }
{
    let mut out = Items::new(alloc);
    push_bytes(bytes, &mut out)?;
    Ok(out)
}

fn decimal(alloc: Global, n: i64) -> Result<Items<u16>, WantOfMemory>
    ensures { IfOk result (λ r. r ≡ signed_decimal n) }
{
    let text = format!(in alloc; "{n}")?;
    of_bytes(alloc, text.as_str().as_bytes())
}

fn low_unit(n: i64) -> u16
    ensures { result ≡ cast_unsigned w16 (int_wrap w16 n) }
{
    let low = n.rem_euclid(65536).unsigned_abs() as u16;
    low.cast_signed().cast_unsigned()
}

fn of_unit(alloc: Global, n: i64) -> Result<Items<u16>, WantOfMemory>
    ensures { IfOk result (λ r. r ≡ spelled n Primitive.Char) }
{
    let mut out = Items::new(alloc);
    out.push(low_unit(n))?;
    Ok(out)
}

fn of_truth(alloc: Global, n: i64) -> Result<Items<u16>, WantOfMemory>
    ensures { IfOk result (λ r. r ≡ spelled n Primitive.Boolean) }
{
    if n == 0 {
        of_bytes(alloc, b"false")
    } else {
        of_bytes(alloc, b"true")
    }
}

/// The units of a value in a string (JLS 5.1.11).
pub fn spelled(alloc: Global, n: i64, of: Primitive) -> Result<Items<u16>, WantOfMemory>
    ensures { IfOk result (λ r. r ≡ spelled n of) }
{
    match of {
        Primitive::Boolean => of_truth(alloc, n),
        Primitive::Char => of_unit(alloc, n),
        Primitive::Byte => decimal(alloc, n),
        Primitive::Short => decimal(alloc, n),
        Primitive::Int => decimal(alloc, n),
        Primitive::Long => decimal(alloc, n),
    }
}

fn same_units(xs: &[u16], ys: &[u16]) -> bool
    ensures { result ≡ same_units xs.now ys.now }
{
    let mut left = xs;
    let mut right = ys;
    while let [x, more @ ..] = left {
        let [y, further @ ..] = right else {
            return false;
        };
        if *x != *y {
            return false;
        }
        left = more;
        right = further;
    }
    right.is_empty()
}

fn truth_constant(holds: bool) -> Constant
    ensures { result ≡ truth_constant holds }
{
    Constant::Whole {
        value: if holds { 1 } else { 0 },
        of: Primitive::Boolean,
    }
}

fn append(alloc: Global, xs: &[u16], ys: &[u16]) -> Result<Items<u16>, WantOfMemory>
    ensures { IfOk result (λ r. r ≡ xs.now ++ ys.now) }
{
    let mut out = Items::new(alloc);
    push_units(xs, &mut out)?;
    push_units(ys, &mut out)?;
    Ok(out)
}

/// An operator between two strings.
pub fn texts(
    alloc: Global,
    op: Op,
    xs: &[u16],
    ys: &[u16],
) -> Result<Option<Constant>, WantOfMemory>
    ensures { IfOk result (λ r. r ≡ texts op xs.now ys.now) }
{
    match op {
        Op::Plus => {
            let units = append(alloc, xs, ys)?;
            Ok(Some(Constant::Text(units)))
        }
        Op::Equal => Ok(Some(truth_constant(same_units(xs, ys)))),
        Op::NotEqual => Ok(Some(truth_constant(!same_units(xs, ys)))),
        _ => Ok(None),
    }
}

/// A string with the string of a value before or behind it.
pub fn joined(
    alloc: Global,
    op: Op,
    xs: &[u16],
    ys: &[u16],
) -> Result<Option<Constant>, WantOfMemory>
    ensures { IfOk result (λ r. r ≡ joined op xs.now ys.now) }
{
    match op {
        Op::Plus => {
            let units = append(alloc, xs, ys)?;
            Ok(Some(Constant::Text(units)))
        }
        _ => Ok(None),
    }
}
