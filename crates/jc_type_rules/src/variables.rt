//! The rules on type parameters (JLS 4.4, 8.1.2): 407 and 409.
ghost use Rattle.std.specs.Prelude.{◌≡◌, ◌||◌, IfOk};
ghost use Rattle.jc_types.specs.Breaks.{least};
ghost use Rattle.jc_types.specs.declared.form.Ty.{out-Ty};
ghost use Rattle.jc_header_rules.specs.Places.{of_written};
ghost use Rattle.jc_header_rules.specs.Types.{bounds_broken, depends_on_itself, is_interface_type, is_variable_type, later_bound_broken, variable_broken};

use crate::written::types_broken;
use jc_header_rules::if_broken;
use jc_rules::{Refusal, Rule, WantOfMemory};
use jc_types::{Table, Ty, TypePlaces, VariableDecl, is_interface};
use std::alloc::Global;

#[tactic(auto, using(jc_types::proofs::Opened::opened))]
fn is_variable_type(t: &Ty) -> bool
    ensures { result ≡ is_variable_type (out-Ty t.now) }
{
    match t {
        Ty::Variable(_) => true,
        Ty::Prim(_) => false,
        Ty::Class { .. } => false,
        Ty::Raw { .. } => false,
        Ty::Array { .. } => false,
        Ty::Captured(_) => false,
        Ty::Meet { .. } => false,
        Ty::NullTy => false,
    }
}

#[tactic(auto, using(jc_types::proofs::Opened::opened))]
fn is_interface_type(table: &Table, t: &Ty) -> bool
    ensures { result ≡ is_interface_type table.now (out-Ty t.now) }
{
    match t {
        Ty::Class { id, .. } => is_interface(table, *id),
        Ty::Raw { id } => is_interface(table, *id),
        Ty::Prim(_) => false,
        Ty::Array { .. } => false,
        Ty::Variable(_) => false,
        Ty::Captured(_) => false,
        Ty::Meet { .. } => false,
        Ty::NullTy => false,
    }
}

// The bounds behind the first.
fn later_bounds_broken(
    table: &Table,
    found: Option<Refusal>,
    behind_variable: bool,
    types: &[Ty],
    places: &[TypePlaces],
) -> Option<Refusal>
    ensures { result ≡ least found (of_written (later_bound_broken table.now behind_variable) types.now places.now) }
{
    let mut found = found;
    let mut rest = types;
    let mut left = places;
    while let [t, more @ ..] = rest {
        match left {
            [] => return found,
            [at, others @ ..] => {
                let is_broken = behind_variable || !is_interface_type(table, t);
                found = if_broken(found, is_broken, Rule::known(409), at.first);
                left = others;
            }
        }
        rest = more;
    }
    found
}

fn bounds_broken(
    table: &Table,
    found: Option<Refusal>,
    types: &[Ty],
    places: &[TypePlaces],
) -> Option<Refusal>
    ensures { result ≡ least found (bounds_broken table.now types.now places.now) }
{
    match types {
        [] => found,
        [t, more @ ..] => match places {
            [] => found,
            [_, others @ ..] => {
                later_bounds_broken(table, found, is_variable_type(t), more, others)
            }
        },
    }
}

/// The rules that a type parameter and its bounds break, where `depends` tells whether it depends on itself.
#[tactic(auto, using(jc_header_rules::proofs::Turning::turning))]
pub fn variable_broken(
    alloc: Global,
    table: &Table,
    found: Option<Refusal>,
    number: u64,
    variable: &VariableDecl,
    depends: bool,
) -> Result<Option<Refusal>, WantOfMemory>
    requires { depends ≡ depends_on_itself table.now (record { 0 = number }) }
    ensures { IfOk result (λ r. r ≡ least found (variable_broken table.now number variable.now)) }
{
    let found = types_broken(alloc, table, found, &variable.bounds)?;
    let found = if_broken(found, depends, Rule::known(407), variable.place);
    Ok(bounds_broken(
        table,
        found,
        variable.bounds.types.slice(),
        variable.bounds.places.slice(),
    ))
}
