//! Types for variables (JLS 4.5.2).
ghost use Rattle.std.specs.Prelude.{◌≡◌, true, IfOk, map, length};
ghost use Rattle.jc_types.specs.Substitution.{subst, subst_arg, replacement, is_row};

use crate::arrays::array_over;
use crate::copy::copy_type;
use crate::form::{Arg, Ty};
use crate::ids::VarId;
use crate::rows::{is_row, put_in_row};
use jc_rules::{Items, WantOfMemory};
use std::alloc::Global;

/// The type with the types of `by` for the variables of `vars`, place by place (JLS 4.5.2). Where these are a row this takes time
/// in the sizes of the type and of what stands for its variables, and in the number of variables once.
pub fn substitute(alloc: Global, ty: &Ty, vars: &[VarId], by: &[Ty]) -> Result<Ty, WantOfMemory>
    requires { length vars.now ≡ length by.now }
    ensures { IfOk result (λ r. r ≡ subst vars.now by.now ty.now) }
{
    put(alloc, ty, vars, by, is_row(vars))
}

// The type with the types of `by` for the variables, of which `row` tells whether they are known to be a row.
#[cycle(put)]
#[tactic(auto, using(crate::proofs::Substituted::substituted))]
fn put(alloc: Global, ty: &Ty, vars: &[VarId], by: &[Ty], row: bool) -> Result<Ty, WantOfMemory>
    requires same { length vars.now ≡ length by.now }
    requires row { row ≡ true → is_row vars.now ≡ true }
    ensures { IfOk result (λ r. r ≡ subst vars.now by.now ty.now) }
{
    match ty {
        Ty::Prim(p) => Ok(Ty::Prim(*p)),
        Ty::Class { id, args } => {
            let args = put_args(alloc, args.slice(), vars, by, row)?;
            Ok(Ty::Class { id: *id, args })
        }
        Ty::Raw { id } => Ok(Ty::Raw { id: *id }),
        Ty::Array { of, further } => {
            let of = put(alloc, of.get(), vars, by, row)?;
            array_over(alloc, of, *further)
        }
        Ty::Variable(v) => put_for(alloc, *v, vars, by, row),
        Ty::Captured(c) => Ok(Ty::Captured(*c)),
        Ty::Meet { parts } => {
            let parts = substitute_all(alloc, parts.slice(), vars, by, row)?;
            Ok(Ty::Meet { parts })
        }
        Ty::NullTy => Ok(Ty::NullTy),
    }
}

#[cycle(put)]
#[tactic(auto, using(crate::proofs::Substituted::substituted))]
fn put_arg(
    alloc: Global,
    arg: &Arg,
    vars: &[VarId],
    by: &[Ty],
    row: bool,
) -> Result<Arg, WantOfMemory>
    requires same { length vars.now ≡ length by.now }
    requires row { row ≡ true → is_row vars.now ≡ true }
    ensures { IfOk result (λ r. r ≡ subst_arg vars.now by.now arg.now) }
{
    match arg {
        Arg::Exact(t) => Ok(Arg::Exact(put(alloc, t, vars, by, row)?)),
        Arg::Any => Ok(Arg::Any),
        Arg::Extends(t) => Ok(Arg::Extends(put(alloc, t, vars, by, row)?)),
        Arg::Super(t) => Ok(Arg::Super(put(alloc, t, vars, by, row)?)),
    }
}

#[cycle(put)]
#[tactic(auto, using(crate::proofs::Substituted::substituted))]
fn put_args(
    alloc: Global,
    args: &[Arg],
    vars: &[VarId],
    by: &[Ty],
    row: bool,
) -> Result<Items<Arg>, WantOfMemory>
    requires same { length vars.now ≡ length by.now }
    requires row { row ≡ true → is_row vars.now ≡ true }
    ensures { IfOk result (λ r. r ≡ map (subst_arg vars.now by.now) args.now) }
{
    let mut out = Items::new(alloc);
    for i in 0..args.len() {
        let arg = put_arg(alloc, &args[i], vars, by, row)?;
        out.push(arg)?;
    }
    Ok(out)
}

/// `substitute` for each of the types, where `row` tells whether the variables are known to be a row.
#[cycle(put)]
#[tactic(auto, using(crate::proofs::Substituted::substituted))]
pub fn substitute_all(
    alloc: Global,
    types: &[Ty],
    vars: &[VarId],
    by: &[Ty],
    row: bool,
) -> Result<Items<Ty>, WantOfMemory>
    requires same { length vars.now ≡ length by.now }
    requires row { row ≡ true → is_row vars.now ≡ true }
    ensures { IfOk result (λ r. r ≡ map (subst vars.now by.now) types.now) }
{
    let mut out = Items::new(alloc);
    for i in 0..types.len() {
        let ty = put(alloc, &types[i], vars, by, row)?;
        out.push(ty)?;
    }
    Ok(out)
}

// What stands for a variable.
fn put_for(
    alloc: Global,
    v: VarId,
    vars: &[VarId],
    by: &[Ty],
    row: bool,
) -> Result<Ty, WantOfMemory>
    requires same { length vars.now ≡ length by.now }
    requires row { row ≡ true → is_row vars.now ≡ true }
    ensures { IfOk result (λ r. r ≡ replacement vars.now by.now v) }
{
    if row {
        return put_in_row(alloc, v, vars, by);
    }
    put_by_walk(alloc, v, vars, by)
}

fn put_by_walk(alloc: Global, v: VarId, vars: &[VarId], by: &[Ty]) -> Result<Ty, WantOfMemory>
    requires { length vars.now ≡ length by.now }
    ensures { IfOk result (λ r. r ≡ replacement vars.now by.now v) }
{
    for i in 0..vars.len() {
        if vars[i] == v {
            return copy_type(alloc, &by[i]);
        }
    }
    Ok(Ty::Variable(v))
}
