//! Array types (JLS 10.1).
ghost use Rattle.std.specs.Prelude.{◌≡◌, ◌+◌, IfOk};
ghost use Rattle.jc_types.specs.Arrays.{array_over, element, lowered};

use crate::copy::copy_type;
use crate::form::Ty;
use jc_rules::{Boxed, WantOfMemory};
use std::alloc::Global;

/// The array type of `further + 1` dimensions over a type (JLS 10.1). The dimensions of an array are counted with it. A number
/// of dimensions that a u64 doesn't hold is answered as want of memory: no memory holds the text of so many.
#[tactic(auto, using(crate::proofs::Opened::opened), unfolding(crate::specs::Arrays::array_over))]
pub fn array_over(alloc: Global, of: Ty, further: u64) -> Result<Ty, WantOfMemory>
    ensures { IfOk result (λ r. r ≡ array_over further of) }
{
    match of {
        Ty::Array {
            of: inner,
            further: more,
        } => {
            let further = all_further(more, further)?;
            Ok(Ty::Array { of: inner, further })
        }
        Ty::Prim(p) => over(alloc, Ty::Prim(p), further),
        Ty::Class { id, args } => over(alloc, Ty::Class { id, args }, further),
        Ty::Raw { id } => over(alloc, Ty::Raw { id }, further),
        Ty::Variable(v) => over(alloc, Ty::Variable(v), further),
        Ty::Captured(c) => over(alloc, Ty::Captured(c), further),
        Ty::Meet { parts } => over(alloc, Ty::Meet { parts }, further),
        Ty::NullTy => over(alloc, Ty::NullTy, further),
    }
}

fn over(alloc: Global, of: Ty, further: u64) -> Result<Ty, WantOfMemory>
    ensures { IfOk result (λ r. r ≡ Ty.Array of further) }
{
    Ok(Ty::Array {
        of: Boxed::new(alloc, of)?,
        further,
    })
}

// The dimensions of an array beyond the first, with `further + 1` dimensions more.
fn all_further(more: u64, further: u64) -> Result<u64, WantOfMemory>
    ensures { IfOk result (λ n. n ≡ more + further + 1) }
{
    match more.checked_add(further) {
        Some(sum) => match sum.checked_add(1) {
            Some(all) => Ok(all),
            None => Err(WantOfMemory),
        },
        None => Err(WantOfMemory),
    }
}

/// The type of the elements of an array type (JLS 10.1), which has one dimension less. None where the type is no array.
#[tactic(auto, using(crate::proofs::Opened::opened), unfolding(crate::specs::Arrays::element))]
pub fn element(alloc: Global, ty: &Ty) -> Result<Option<Ty>, WantOfMemory>
    ensures { IfOk result (λ r. r ≡ element ty.now) }
{
    match ty {
        Ty::Array { of, further } => {
            let of = copy_type(alloc, of.get())?;
            Ok(Some(lowered(alloc, of, *further)?))
        }
        _ => Ok(None),
    }
}

// An array of one dimension less, or what is no array any more.
fn lowered(alloc: Global, of: Ty, further: u64) -> Result<Ty, WantOfMemory>
    ensures { IfOk result (λ r. r ≡ lowered of further) }
{
    if further == 0 {
        return Ok(of);
    }
    over(alloc, of, further - 1)
}
