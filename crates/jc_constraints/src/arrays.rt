//! The elements of arrays whose elements are references.
ghost use Rattle.std.specs.Prelude.{◌≡◌, IfOk, option_and_then};
ghost use Rattle.jc_judge.specs.Views.{first_of};
ghost use Rattle.jc_constraints.specs.Constraints.{bounds, down, element_for, reference_element, up_element, up_element_within};

use crate::standing::Standing;
use jc_lub::view_steps;
use jc_rules::{Items, WantOfMemory};
use jc_sub::is_primitive;
use jc_types::{Bounds, Table, Ty, captured_uppers, copy_types, declared_bounds, element};
use std::alloc::Global;

fn reference_element(alloc: Global, t: &Ty) -> Result<Option<Ty>, WantOfMemory>
    ensures { IfOk result (λ r. r ≡ reference_element t.now) }
{
    match element(alloc, t)? {
        None => Ok(None),
        Some(e) => {
            if is_primitive(&e) {
                Ok(None)
            } else {
                Ok(Some(e))
            }
        }
    }
}

/// The bounds of a variable, and the parts of an intersection.
#[tactic(auto, using(jc_types::proofs::Opened::opened), unfolding(crate::specs::Constraints::bounds))]
fn bounds(alloc: Global, table: &Table, env: &[Bounds], t: &Ty) -> Result<Items<Ty>, WantOfMemory>
    ensures { IfOk result (λ r. r ≡ bounds table.now env.now t.now) }
{
    match t {
        Ty::Variable(v) => copy_types(alloc, declared_bounds(table, *v)),
        Ty::Captured(c) => copy_types(alloc, captured_uppers(env, *c)),
        Ty::Meet { parts } => copy_types(alloc, parts.slice()),
        _ => Ok(Items::new(alloc)),
    }
}

#[cycle(up_element)]
#[tactic(auto, using(crate::proofs::Elements::element_here, crate::proofs::Elements::element_up))]
fn up_element_within(
    alloc: Global,
    table: &Table,
    env: &[Bounds],
    steps: u128,
    t: &Ty,
) -> Result<Option<Ty>, WantOfMemory>
    ensures { IfOk result (λ r. r ≡ up_element_within table.now env.now steps t.now) }
{
    if steps == 0 {
        return Ok(None);
    }
    match reference_element(alloc, t)? {
        Some(e) => Ok(Some(e)),
        None => {
            let types = bounds(alloc, table, env, t)?;
            first_up_element(alloc, table, env, steps - 1, types.slice())
        }
    }
}

#[cycle(up_element)]
fn first_up_element(
    alloc: Global,
    table: &Table,
    env: &[Bounds],
    steps: u128,
    types: &[Ty],
) -> Result<Option<Ty>, WantOfMemory>
    ensures { IfOk result (λ r. r ≡ first_of (up_element_within table.now env.now steps) types.now) }
{
    let mut rest = types;
    while let [t, more @ ..] = rest {
        if let Some(e) = up_element_within(alloc, table, env, steps, t)? {
            return Ok(Some(e));
        }
        rest = more;
    }
    Ok(None)
}

/// The elements of an actual type, by how it stands.
#[tactic(auto, unfolding(crate::specs::Constraints::up_element))]
pub fn element_for(
    alloc: Global,
    table: &Table,
    env: &[Bounds],
    standing: Standing,
    t: &Ty,
) -> Result<Option<Ty>, WantOfMemory>
    ensures { IfOk result (λ r. r ≡ element_for table.now env.now standing t.now) }
{
    match standing {
        Standing::Below => up_element_within(alloc, table, env, view_steps(table, env), t),
        Standing::Same => reference_element(alloc, t),
        Standing::Above => reference_element(alloc, t),
    }
}

// One dimension further down, if there is one.
fn one_down(
    alloc: Global,
    table: &Table,
    env: &[Bounds],
    standing: Standing,
    rest: Option<Ty>,
) -> Result<Option<Ty>, WantOfMemory>
    ensures { IfOk result (λ r. r ≡ option_and_then (element_for table.now env.now standing) rest) }
{
    match rest {
        Some(t) => element_for(alloc, table, env, standing, &t),
        None => Ok(None),
    }
}

/// The elements that are so many dimensions further down.
#[tactic(auto, using(crate::proofs::Elements::down_more))]
pub fn elements_down(
    alloc: Global,
    table: &Table,
    env: &[Bounds],
    standing: Standing,
    further: u64,
    t: &Ty,
) -> Result<Option<Ty>, WantOfMemory>
    ensures { IfOk result (λ r. r ≡ down (element_for table.now env.now standing) further (element_for table.now env.now standing t.now)) }
{
    let mut rest = element_for(alloc, table, env, standing, t)?;
    for i in 0..further {
        rest = one_down(alloc, table, env, standing, rest)?;
    }
    Ok(rest)
}
