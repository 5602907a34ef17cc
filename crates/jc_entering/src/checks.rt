//! Parameters that are checked.
ghost use Rattle.std.specs.Prelude.{◌≡◌, ◌+◌, IfOk};
ghost use Rattle.std.specs.Option.{option_copied};
ghost use Rattle.jc_members.specs.Named.{IsMethodIndex};
ghost use Rattle.jc_bridges_spec.specs.Entering.{differs_from, entry_checks};
ghost use Rattle.jc_entering.specs.Checked.{checked, other_differs};

use crate::overridden::overridden;
use jc_bridges::same_erasure;
use jc_members::MethodIndex;
use jc_rules::WantOfMemory;
use jc_types::{MethodId, Table, Ty, method_params};
use std::alloc::Global;

// Whether a type differs in its erasure from a parameter, if there is one.
fn differs_from(alloc: Global, table: &Table, ty: &Ty, other: Option<&Ty>) -> bool
    ensures { result ≡ differs_from table.now ty.now (option_copied other.entry) }
{
    match other {
        None => false,
        Some(other) => !same_erasure(alloc, table, ty, other),
    }
}

// Whether the parameter of this number has another erasure in one of these methods.
fn other_differs(alloc: Global, table: &Table, number: usize, ty: &Ty, others: &[MethodId]) -> bool
    ensures { result ≡ other_differs table.now number ty.now others.now }
{
    let mut rest = others;
    while let [other, more @ ..] = rest {
        let param = method_params(table, *other).get(number);
        if differs_from(alloc, table, ty, param) {
            return true;
        }
        rest = more;
    }
    false
}

// One more. No memory holds as many as would overflow.
fn next(n: usize) -> Result<usize, WantOfMemory>
    ensures { IfOk result (λ r. r ≡ n + 1) }
{
    match n.checked_add(1) {
        Some(n) => Ok(n),
        None => Err(WantOfMemory),
    }
}

// How many of these parameters are checked.
fn checked(
    alloc: Global,
    table: &Table,
    params: &[Ty],
    others: &[MethodId],
) -> Result<usize, WantOfMemory>
    ensures { IfOk result (λ n. n ≡ checked table.now 0 params.now others.now) }
{
    let mut count = 0;
    let mut number = 0;
    let mut rest = params;
    while let [ty, more @ ..] = rest {
        if other_differs(alloc, table, number, ty, others) {
            count = next(count)?;
        }
        number = next(number)?;
        rest = more;
    }
    Ok(count)
}

/// How many parameters of a method have another erasure than the same parameter of some method that it overrides. `index` has the table's methods by their names.
#[tactic(auto, using(crate::proofs::Named::checked_is))]
pub fn entry_checks(
    alloc: Global,
    table: &Table,
    index: &MethodIndex,
    method: MethodId,
) -> Result<u32, WantOfMemory>
    requires { IsMethodIndex table.now index.now }
    ensures { IfOk result (λ n. n ≡ entry_checks table.now method) }
{
    let others = overridden(alloc, table, index, method)?;
    let count = checked(alloc, table, method_params(table, method), others.slice())?;
    match u32::try_from(count) {
        Ok(count) => Ok(count),
        Err(_) => Err(WantOfMemory),
    }
}
