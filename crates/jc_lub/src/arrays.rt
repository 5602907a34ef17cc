//! The dimensions that array types share.
ghost use Rattle.std.specs.Prelude.{◌≡◌, ◌+◌, ◌-◌, ◌++◌, ◌∷◌, [], filter, map, IfOk, OnOk};
ghost use Rattle.jc_types.specs.Arrays.{lowered};
ghost use Rattle.jc_lub.specs.Lubs.{all_same_types, depth, depth_over, shared, shared_with, stripped, over, not_null};

use jc_rules::{Boxed, Items, WantOfMemory};
use jc_sub::{is_null, is_primitive};
use jc_types::{Ty, array_over, copy_type, same_type};
use std::alloc::Global;

/// Whether all types are the first one.
pub fn all_same_types(first: &Ty, types: &[Ty]) -> bool
    ensures { result ≡ all_same_types first.now types.now }
{
    let mut rest = types;
    while let [t, more @ ..] = rest {
        if !same_type(t, first) {
            return false;
        }
        rest = more;
    }
    true
}

fn push_not_null(alloc: Global, t: &Ty, out: &mut Items<Ty>) -> Result<(), WantOfMemory>
    ensures { OnOk result (out.new ≡ out.old ++ filter not_null (t.now ∷ [])) }
{
    if is_null(t) {
        return Ok(());
    }
    let t = copy_type(alloc, t)?;
    out.push(t)
}

/// The types without the null type.
pub fn without_null(alloc: Global, types: &[Ty]) -> Result<Items<Ty>, WantOfMemory>
    ensures { IfOk result (λ r. r ≡ filter not_null types.now) }
{
    let mut out = Items::new(alloc);
    let mut rest = types;
    while let [t, more @ ..] = rest {
        push_not_null(alloc, t, &mut out)?;
        rest = more;
    }
    Ok(out)
}

// How many dimensions of an array type have references as elements. No memory holds 2^64 dimensions.
#[tactic(auto, using(jc_types::proofs::Opened::opened), unfolding(crate::specs::Lubs::depth))]
fn depth(t: &Ty) -> Result<u64, WantOfMemory>
    ensures { IfOk result (λ d. d ≡ depth t.now) }
{
    match t {
        Ty::Array { of, further } => depth_over(of.get(), *further),
        _ => Ok(0),
    }
}

fn depth_over(of: &Ty, further: u64) -> Result<u64, WantOfMemory>
    ensures { IfOk result (λ d. d ≡ depth_over of.now further) }
{
    if is_primitive(of) {
        return Ok(further);
    }
    match further.checked_add(1) {
        Some(dims) => Ok(dims),
        None => Err(WantOfMemory),
    }
}

fn shared_with(first: u64, types: &[Ty]) -> Result<u64, WantOfMemory>
    ensures { IfOk result (λ d. d ≡ shared_with first types.now) }
{
    let mut least = first;
    let mut rest = types;
    while let [t, more @ ..] = rest {
        let dims = depth(t)?;
        least = least.min(dims);
        rest = more;
    }
    Ok(least)
}

/// The number of dimensions in which all types are arrays of references.
pub fn shared(types: &[Ty]) -> Result<u64, WantOfMemory>
    ensures { IfOk result (λ d. d ≡ shared types.now) }
{
    match types {
        [] => Ok(0),
        [t, more @ ..] => {
            let dims = depth(t)?;
            shared_with(dims, more)
        }
    }
}

// An element type, so many dimensions down.
#[tactic(auto, using(jc_types::proofs::Opened::opened), unfolding(crate::specs::Lubs::stripped))]
fn stripped(alloc: Global, dims: u64, t: &Ty) -> Result<Ty, WantOfMemory>
    ensures { IfOk result (λ r. r ≡ stripped dims t.now) }
{
    match t {
        Ty::Array { of, further } => {
            let of = copy_type(alloc, of.get())?;
            lowered_by(alloc, dims, of, *further)
        }
        _ => copy_type(alloc, t),
    }
}

#[tactic(auto, using(crate::proofs::Stripping::stripped_whole, crate::proofs::Stripping::stripped_part))]
fn lowered_by(alloc: Global, dims: u64, of: Ty, further: u64) -> Result<Ty, WantOfMemory>
    ensures { IfOk result (λ r. r ≡ lowered of (further + 1 - dims)) }
{
    if further < dims {
        return Ok(of);
    }
    Ok(Ty::Array {
        of: Boxed::new(alloc, of)?,
        further: further - dims,
    })
}

/// The element types, so many dimensions down.
pub fn all_stripped(alloc: Global, dims: u64, types: &[Ty]) -> Result<Items<Ty>, WantOfMemory>
    ensures { IfOk result (λ r. r ≡ map (stripped dims) types.now) }
{
    let mut out = Items::new(alloc);
    for i in 0..types.len() {
        let t = stripped(alloc, dims, &types[i])?;
        out.push(t)?;
    }
    Ok(out)
}

/// The array type of so many dimensions, or the type itself.
pub fn over(alloc: Global, dims: u64, t: Ty) -> Result<Ty, WantOfMemory>
    ensures { IfOk result (λ r. r ≡ over dims t) }
{
    if dims == 0 {
        return Ok(t);
    }
    array_over(alloc, t, dims - 1)
}
