//! Unchecked conversion (JLS 5.1.9).
ghost use Rattle.std.specs.Prelude.{◌≡◌, IfOk};
ghost use Rattle.jc_types.specs.declared.form.Ty.{out-Ty};
ghost use Rattle.jc_lub.specs.Distinct.{is_parameterized};
ghost use Rattle.jc_convert.specs.Converting.{is_raw_view, unchecked_class, unchecked_array, same_further, converts_unchecked};

use jc_lub::up_view;
use jc_rules::WantOfMemory;
use jc_types::{Arg, Bounds, ClassId, Table, Ty, arguments, class_vars};
use std::alloc::Global;

fn is_parameterized(table: &Table, id: ClassId, args: &[Arg]) -> bool
    ensures { result ≡ is_parameterized table.now id args.now }
{
    !args.is_empty() && args.len() == class_vars(table, id).len()
}

fn is_raw_view(table: &Table, view: Option<Ty>) -> bool
    ensures { result ≡ is_raw_view table.now view }
{
    match view {
        None => false,
        Some(v) => arguments(table, &v).is_none(),
    }
}

#[tactic(auto, using(jc_types::proofs::Opened::opened))]
fn unchecked_class(
    alloc: Global,
    table: &Table,
    env: &[Bounds],
    s: &Ty,
    t: &Ty,
) -> Result<bool, WantOfMemory>
    ensures { IfOk result (λ r. r ≡ unchecked_class table.now env.now s.now (out-Ty t.now)) }
{
    match t {
        Ty::Class { id, args } => {
            if !is_parameterized(table, *id, args.slice()) {
                return Ok(false);
            }
            let view = up_view(alloc, table, env, *id, s)?;
            Ok(is_raw_view(table, view))
        }
        _ => Ok(false),
    }
}

#[tactic(auto, using(jc_types::proofs::Opened::opened))]
fn unchecked_array(
    alloc: Global,
    table: &Table,
    env: &[Bounds],
    s: &Ty,
    t: &Ty,
) -> Result<bool, WantOfMemory>
    ensures { IfOk result (λ r. r ≡ unchecked_array table.now env.now s.now (out-Ty t.now)) }
{
    match t {
        Ty::Array { of, .. } => unchecked_class(alloc, table, env, s, of.get()),
        _ => Ok(false),
    }
}

#[tactic(auto, using(jc_types::proofs::Opened::opened))]
fn same_further(s: &Ty, t: &Ty) -> bool
    ensures { result ≡ same_further (out-Ty s.now) (out-Ty t.now) }
{
    match s {
        Ty::Array { further, .. } => match t {
            Ty::Array {
                further: others,
                ..
            } => *further == *others,
            _ => false,
        },
        _ => false,
    }
}

/// Whether the second type is parameterized, and the first one has a supertype of its class that is raw; and the same of the
/// elements of arrays with as many dimensions.
#[tactic(auto, using(jc_types::proofs::Opened::opened), unfolding(crate::specs::Converting::converts_unchecked))]
pub fn converts_unchecked(
    alloc: Global,
    table: &Table,
    env: &[Bounds],
    s: &Ty,
    t: &Ty,
) -> Result<bool, WantOfMemory>
    ensures { IfOk result (λ r. r ≡ converts_unchecked table.now env.now s.now t.now) }
{
    match s {
        Ty::Array { of, .. } => {
            if !same_further(s, t) {
                return Ok(false);
            }
            unchecked_array(alloc, table, env, of.get(), t)
        }
        _ => unchecked_class(alloc, table, env, s, t),
    }
}
