//! Copies of members.
ghost use Rattle.std.specs.Prelude.{◌≡◌, IfOk};

use crate::applied::Candidate;
use jc_members::MethodView;
use jc_rules::{Items, WantOfMemory};
use jc_types::{Ty, VarId, copy_type, copy_types};
use std::alloc::Global;

fn copy_variables(alloc: Global, vars: &[VarId]) -> Result<Items<VarId>, WantOfMemory>
    ensures { IfOk result (λ r. r ≡ vars.now) }
{
    let mut list = Items::new(alloc);
    let mut rest = vars;
    while let [v, more @ ..] = rest {
        list.push(*v)?;
        rest = more;
    }
    Ok(list)
}

fn copy_bounds(alloc: Global, bounds: &[Items<Ty>]) -> Result<Items<Items<Ty>>, WantOfMemory>
    ensures { IfOk result (λ r. r ≡ bounds.now) }
{
    let mut list = Items::new(alloc);
    let mut rest = bounds;
    while let [b, more @ ..] = rest {
        list.push(copy_types(alloc, b.slice())?)?;
        rest = more;
    }
    Ok(list)
}

fn copy_result(alloc: Global, of: &Option<Ty>) -> Result<Option<Ty>, WantOfMemory>
    ensures { IfOk result (λ r. r ≡ of.now) }
{
    match of {
        None => Ok(None),
        Some(t) => Ok(Some(copy_type(alloc, t)?)),
    }
}

/// A copy.
pub fn copy_view(alloc: Global, m: &MethodView) -> Result<MethodView, WantOfMemory>
    ensures { IfOk result (λ r. r ≡ m.now) }
{
    let vars = copy_variables(alloc, m.vars.slice())?;
    let bounds = copy_bounds(alloc, m.bounds.slice())?;
    let params = copy_types(alloc, m.params.slice())?;
    let result = copy_result(alloc, &m.result)?;
    let thrown = copy_types(alloc, m.thrown.slice())?;
    Ok(MethodView {
        id: m.id,
        vars,
        bounds,
        params,
        result,
        thrown,
        variable: m.variable,
    })
}

/// A copy.
pub fn copy_candidate(alloc: Global, c: &Candidate) -> Result<Candidate, WantOfMemory>
    ensures { IfOk result (λ r. r ≡ c.now) }
{
    let member = copy_view(alloc, &c.member)?;
    let type_args = copy_types(alloc, c.type_args.slice())?;
    let formals = copy_types(alloc, c.formals.slice())?;
    Ok(Candidate {
        member,
        type_args,
        formals,
        unchecked: c.unchecked,
    })
}
