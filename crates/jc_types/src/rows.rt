//! Variables whose numbers follow one another.
ghost use Rattle.std.specs.Prelude.{◌≡◌, ◌+◌, true, length, IfOk};
ghost use Rattle.jc_types.specs.Substitution.{is_row, is_row_from, replacement};

use crate::copy::copy_type;
use crate::form::Ty;
use crate::ids::VarId;
use jc_rules::WantOfMemory;
use std::alloc::Global;

/// Whether each of these variables has the number after that of the one before it, as those of a class or method have where
/// they are added to a table one after the other. One of a row is found without a walk.
#[tactic(auto, unfolding(crate::specs::Substitution::is_row))]
pub fn is_row(vars: &[VarId]) -> bool
    ensures { result ≡ is_row vars.now }
{
    match vars {
        [] => true,
        [first, more @ ..] => follows(first.0, more),
    }
}

// Whether the variables go on from the number of the last one.
fn follows(last: u64, vars: &[VarId]) -> bool
    ensures { result ≡ is_row_from (last + 1) vars.now }
{
    let mut last = last;
    let mut rest = vars;
    while let [v, more @ ..] = rest {
        if v.0 == 0 || v.0 - 1 != last {
            return false;
        }
        last = v.0;
        rest = more;
    }
    true
}

/// What stands for a variable, where the variables are a row.
#[tactic(auto, unfolding(crate::specs::Substitution::is_row))]
pub fn put_in_row(alloc: Global, v: VarId, vars: &[VarId], by: &[Ty]) -> Result<Ty, WantOfMemory>
    requires same { length vars.now ≡ length by.now }
    requires row { is_row vars.now ≡ true }
    ensures { IfOk result (λ r. r ≡ replacement vars.now by.now v) }
{
    match vars {
        [] => Ok(Ty::Variable(v)),
        [first, ..] => put_from(alloc, v, first.0, vars, by),
    }
}

// The same, where the first variable has this number.
#[tactic(auto, using(crate::proofs::Placed::row_found, crate::proofs::Placed::row_before, crate::proofs::Placed::row_behind))]
fn put_from(
    alloc: Global,
    v: VarId,
    first: u64,
    vars: &[VarId],
    by: &[Ty],
) -> Result<Ty, WantOfMemory>
    requires same { length vars.now ≡ length by.now }
    requires row { is_row_from first vars.now ≡ true }
    ensures { IfOk result (λ r. r ≡ replacement vars.now by.now v) }
{
    if v.0 < first {
        return Ok(Ty::Variable(v));
    }
    let i = (v.0 - first) as usize;
    if i < by.len() {
        return copy_type(alloc, &by[i]);
    }
    Ok(Ty::Variable(v))
}
