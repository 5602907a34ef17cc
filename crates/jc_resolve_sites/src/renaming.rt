//! Members whose type parameters are renamed.
ghost use Rattle.std.specs.Prelude.{◌≡◌, IfOk, length, map};
ghost use Rattle.std.specs.Option.{option_map};
ghost use Rattle.jc_types.specs.Substitution.{subst};
ghost use Rattle.jc_overriding.specs.Signatures.{variables};
ghost use Rattle.jc_resolve_sites.specs.Renaming.{numbered, put_in, renamed, seen};

use crate::above::{above_all, greater};
use jc_members::MethodView;
use jc_resolve::{put, put_all};
use jc_rules::{Items, WantOfMemory};
use jc_types::{Ty, VarId};
use std::alloc::Global;

fn numbered(alloc: Global, first: u64, like: &[VarId]) -> Result<Items<VarId>, WantOfMemory>
    ensures { IfOk result (λ r. r ≡ numbered first (length like.now)) }
{
    let mut list = Items::new(alloc);
    let mut next = first;
    let mut rest = like;
    while let [_, more @ ..] = rest {
        list.push(VarId(next))?;
        next = next.checked_add(1).ok_or(WantOfMemory)?;
        rest = more;
    }
    Ok(list)
}

fn variables(alloc: Global, vars: &[VarId]) -> Result<Items<Ty>, WantOfMemory>
    ensures { IfOk result (λ r. r ≡ variables vars.now) }
{
    let mut list = Items::new(alloc);
    let mut rest = vars;
    while let [v, more @ ..] = rest {
        list.push(Ty::Variable(*v))?;
        rest = more;
    }
    Ok(list)
}

fn put_bounds(
    alloc: Global,
    bounds: &[Items<Ty>],
    vars: &[VarId],
    by: &[Ty],
) -> Result<Items<Items<Ty>>, WantOfMemory>
    ensures { IfOk result (λ r. r ≡ map (map (subst vars.now by.now)) bounds.now) }
{
    let mut list = Items::new(alloc);
    let mut rest = bounds;
    while let [types, more @ ..] = rest {
        list.push(put_all(alloc, types.slice(), vars, by)?)?;
        rest = more;
    }
    Ok(list)
}

fn put_result(
    alloc: Global,
    t: &Option<Ty>,
    vars: &[VarId],
    by: &[Ty],
) -> Result<Option<Ty>, WantOfMemory>
    ensures { IfOk result (λ r. r ≡ option_map (subst vars.now by.now) t.now) }
{
    match t {
        None => Ok(None),
        Some(t) => Ok(Some(put(alloc, t, vars, by)?)),
    }
}

fn put_in(
    alloc: Global,
    own: Items<VarId>,
    vars: &[VarId],
    by: &[Ty],
    m: &MethodView,
) -> Result<MethodView, WantOfMemory>
    ensures { IfOk result (λ r. r ≡ put_in own vars.now by.now m.now) }
{
    let bounds = put_bounds(alloc, m.bounds.slice(), vars, by)?;
    let params = put_all(alloc, m.params.slice(), vars, by)?;
    let result = put_result(alloc, &m.result, vars, by)?;
    let thrown = put_all(alloc, m.thrown.slice(), vars, by)?;
    Ok(MethodView {
        id: m.id,
        vars: own,
        bounds,
        params,
        result,
        thrown,
        variable: m.variable,
    })
}

/// A member with its type parameters numbered from `first` on.
pub fn renamed(alloc: Global, first: u64, m: &MethodView) -> Result<MethodView, WantOfMemory>
    ensures { IfOk result (λ r. r ≡ renamed first m.now) }
{
    let own = numbered(alloc, first, m.vars.slice())?;
    let by = variables(alloc, own.slice())?;
    put_in(alloc, own, m.vars.slice(), by.slice(), m)
}

/// A declared member as a type has it that has these types for the parameters of the member's class.
pub fn seen(
    alloc: Global,
    first: u64,
    vars: &[VarId],
    by: &[Ty],
    declared: &MethodView,
) -> Result<MethodView, WantOfMemory>
    ensures { IfOk result (λ r. r ≡ seen first vars.now by.now declared.now) }
{
    let first = greater(first, above_all(by)?);
    let own = numbered(alloc, first, declared.vars.slice())?;
    let apart = renamed(alloc, first, declared)?;
    put_in(alloc, own, vars, by, &apart)
}
