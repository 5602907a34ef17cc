//! The types of a method's parameters as a call has them (JLS 15.12.2.4).
ghost use Rattle.std.specs.Prelude.{◌≡◌, IfOk, replicate};
ghost use Rattle.jc_types.specs.Arrays.{element};
ghost use Rattle.jc_infer.specs.Formals.{formals, or_same, stretched};

use jc_rules::{Items, WantOfMemory};
use jc_types::{Phase, Ty, copy_type, copy_types, element};
use std::alloc::Global;

fn element_or_same(alloc: Global, t: &Ty) -> Result<Ty, WantOfMemory>
    ensures { IfOk result (λ r. r ≡ or_same t.now (element t.now)) }
{
    match element(alloc, t)? {
        Some(e) => Ok(e),
        None => copy_type(alloc, t),
    }
}

fn repeated(alloc: Global, t: &Ty, count: usize) -> Result<Items<Ty>, WantOfMemory>
    ensures { IfOk result (λ r. r ≡ replicate count t.now) }
{
    let mut list = Items::new(alloc);
    for i in 0..count {
        list.push(copy_type(alloc, t)?)?;
    }
    Ok(list)
}

fn stretched(alloc: Global, params: &[Ty], count: usize) -> Result<Items<Ty>, WantOfMemory>
    ensures { IfOk result (λ r. r ≡ stretched params.now count) }
{
    let mut list = Items::new(alloc);
    let mut rest = params;
    let mut left = count;
    while let [p, more @ ..] = rest {
        if more.is_empty() {
            let e = element_or_same(alloc, p)?;
            let last = repeated(alloc, &e, left)?;
            list.append(last)?;
            return Ok(list);
        }
        if left == 0 {
            return Ok(list);
        }
        list.push(copy_type(alloc, p)?)?;
        left -= 1;
        rest = more;
    }
    Ok(list)
}

/// The formal types for so many arguments: in the third phase the last one is stretched.
pub fn formals(
    alloc: Global,
    phase: Phase,
    params: &[Ty],
    count: usize,
) -> Result<Items<Ty>, WantOfMemory>
    ensures { IfOk result (λ r. r ≡ formals phase params.now count) }
{
    match phase {
        Phase::Subtyping => copy_types(alloc, params),
        Phase::Invocation => copy_types(alloc, params),
        Phase::VariableArity => stretched(alloc, params, count),
    }
}
