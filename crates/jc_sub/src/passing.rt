//! Classes whose arguments go unchanged to a supertype.
ghost use Rattle.std.specs.Prelude.{◌≡◌, true, map, Some, IfSome, slice_get};
ghost use Rattle.jc_types.specs.Accessors.{vars_of};
ghost use Rattle.jc_types.specs.Reifying.{counted};
ghost use Rattle.jc_judge.specs.Views.{supers, class_supers};
ghost use Rattle.jc_sub.specs.Reaching.{own_arg, renamed};

use crate::meeting::are_exact;
use jc_types::{Arg, ClassId, Table, Ty, VarId, class_supers, class_vars, is_row};

/// The class of one of the direct supertypes, if that has the type's own arguments, as where a class passes its parameters on.
#[tactic(auto, using(jc_types::proofs::Opened::opened), unfolding(jc_judge::specs::Views::supers, crate::specs::Reaching::renamed))]
pub fn passed_to(table: &Table, t: &Ty, i: usize) -> Option<ClassId>
    ensures { IfSome result (λ k. slice_get (supers table.now t.now) i ≡ Some (renamed k t.now)) }
{
    match t {
        Ty::Class { id, args } => passed_by(table, *id, args.slice(), i),
        _ => None,
    }
}

fn passed_by(table: &Table, id: ClassId, args: &[Arg], i: usize) -> Option<ClassId>
    ensures { IfSome result (λ k. slice_get (class_supers table.now id (counted (vars_of table.now id) args.now)) i ≡ Some (Ty.Class k args.now)) }
{
    let vars = class_vars(table, id);
    if args.len() != vars.len() || !are_exact(args) || !is_row(vars) {
        return None;
    }
    match class_supers(table, id).get(i) {
        Some(declared) => own_class(declared, vars),
        None => None,
    }
}

// The class of a type whose arguments are these variables.
#[tactic(auto, using(jc_types::proofs::Opened::opened))]
fn own_class(t: &Ty, vars: &[VarId]) -> Option<ClassId>
    ensures { IfSome result (λ k. t.now ≡ Ty.Class k (map own_arg vars.now)) }
{
    match t {
        Ty::Class { id, args } => {
            if are_own(args.slice(), vars) {
                return Some(*id);
            }
            None
        }
        _ => None,
    }
}

fn are_own(args: &[Arg], vars: &[VarId]) -> bool
    ensures { result ≡ true → args.now ≡ map own_arg vars.now }
{
    let mut left = args;
    let mut right = vars;
    while let [arg, others @ ..] = left {
        match right {
            [] => return false,
            [v, more @ ..] => {
                if !is_own(arg, *v) {
                    return false;
                }
                right = more;
            }
        }
        left = others;
    }
    right.is_empty()
}

fn is_own(arg: &Arg, v: VarId) -> bool
    ensures { result ≡ true → arg.now ≡ own_arg v }
{
    match arg {
        Arg::Exact(t) => is_variable(t, v),
        _ => false,
    }
}

fn is_variable(t: &Ty, v: VarId) -> bool
    ensures { result ≡ true → t.now ≡ Ty.Variable v }
{
    match t {
        Ty::Variable(w) => w.0 == v.0,
        _ => false,
    }
}

/// A class type with another class.
#[tactic(auto, using(jc_types::proofs::Opened::opened), unfolding(crate::specs::Reaching::renamed))]
pub fn renamed(t: Ty, k: ClassId) -> Ty
    ensures { result ≡ renamed k t }
{
    match t {
        Ty::Class { args, .. } => Ty::Class { id: k, args },
        other => other,
    }
}
