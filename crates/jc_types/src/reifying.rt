//! Types that are wholly there at run time (JLS 4.7).
ghost use Rattle.std.specs.Prelude.{◌≡◌, map};
ghost use Rattle.std.specs.Option.{option_copied};
ghost use Rattle.jc_types.specs.Reifying.{counted, arguments, reifiable, is_unbounded, all_true, raw_or_all};

use crate::accessors::class_vars;
use crate::form::{Arg, Ty};
use crate::ids::VarId;
use crate::table::Table;

/// The arguments of a class or raw type. None where it is raw (JLS 4.8), and where it is no class or raw type: a class without
/// parameters has none, and a type with another number of arguments than its class has parameters counts as raw.
#[tactic(auto, using(crate::proofs::Opened::opened), unfolding(crate::specs::Reifying::arguments))]
pub fn arguments<'a>(table: &Table, ty: &'a Ty) -> Option<&'a [Arg]>
    ensures { option_copied result ≡ arguments table.now ty.now }
{
    match ty {
        Ty::Class { id, args } => counted(class_vars(table, *id), args.slice()),
        Ty::Raw { id } => counted(class_vars(table, *id), &[]),
        _ => None,
    }
}

// The arguments as they count for a class with these parameters.
fn counted<'a>(vars: &[VarId], args: &'a [Arg]) -> Option<&'a [Arg]>
    ensures { option_copied result ≡ counted vars.now args.now }
{
    match vars {
        [] => Some(&[]),
        _ => {
            if args.len() == vars.len() {
                Some(args)
            } else {
                None
            }
        }
    }
}

/// Whether a type is wholly there at run time (JLS 4.7).
#[tactic(auto, using(crate::proofs::Reified::reified))]
pub fn reifiable(table: &Table, ty: &Ty) -> bool
    ensures { result ≡ reifiable table.now ty.now }
{
    match ty {
        Ty::Prim(_) => true,
        Ty::Class { id, args } => is_raw_or_unbounded(class_vars(table, *id), args.slice()),
        Ty::Raw { .. } => true,
        Ty::Array { of, .. } => reifiable(table, of.get()),
        Ty::Variable(_) => false,
        Ty::Captured(_) => false,
        Ty::Meet { .. } => false,
        Ty::NullTy => false,
    }
}

fn is_raw_or_unbounded(vars: &[VarId], args: &[Arg]) -> bool
    ensures { result ≡ raw_or_all (counted vars.now (map is_unbounded args.now)) }
{
    match vars {
        [] => true,
        _ => {
            if args.len() == vars.len() {
                all_unbounded(args)
            } else {
                true
            }
        }
    }
}

fn all_unbounded(args: &[Arg]) -> bool
    ensures { result ≡ all_true (map is_unbounded args.now) }
{
    for i in 0..args.len() {
        if !is_unbounded(&args[i]) {
            return false;
        }
    }
    true
}

#[tactic(auto, using(crate::proofs::Opened::opened), unfolding(crate::specs::Reifying::is_unbounded))]
fn is_unbounded(arg: &Arg) -> bool
    ensures { result ≡ is_unbounded arg.now }
{
    match arg {
        Arg::Exact(_) => false,
        Arg::Any => true,
        Arg::Extends(_) => false,
        Arg::Super(_) => false,
    }
}
