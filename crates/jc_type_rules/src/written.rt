//! The rules on written types (JLS 4.5): 401 to 406.
ghost use Rattle.std.specs.Prelude.{◌≡◌, [], IfOk};
ghost use Rattle.jc_types.specs.Breaks.{least};
ghost use Rattle.jc_types.specs.declared.form.Ty.{out-Ty};
ghost use Rattle.jc_types.specs.declared.form.Arg.{out-Arg};
ghost use Rattle.jc_header_rules.specs.Places.{of_written};
ghost use Rattle.jc_header_rules.specs.Types.{class_types_broken, faults_broken, has_wildcard_at, is_wildcard_at, rule_of_fault, supertype_broken, type_broken, types_broken};
ghost use Rattle.std.specs.List.{list_any};
ghost use Rattle.jc_judge.specs.Forming.{class_faults};

use jc_header_rules::{if_broken, or_break};
use jc_judge::TypeFault;
use jc_rules::{Items, Place, Refusal, Rule, WantOfMemory};
use jc_types::{Arg, Env, Table, Ty, TypePlaces, WrittenTypes, class_types};
use jc_wellformed::class_faults;
use std::alloc::Global;

fn rule_of_fault(fault: &TypeFault) -> Rule
    ensures { result ≡ rule_of_fault fault.now }
{
    match fault {
        TypeFault::Count => Rule::known(401),
        TypeFault::Bound { .. } => Rule::known(402),
        TypeFault::SuperBound { .. } => Rule::known(403),
        TypeFault::PrimitiveArgument { .. } => Rule::known(404),
        TypeFault::ClassesMeet { .. } => Rule::known(405),
        TypeFault::Deep => Rule::known(406),
    }
}

fn faults_broken(found: Option<Refusal>, place: Place, faults: &[TypeFault]) -> Option<Refusal>
    ensures { result ≡ least found (faults_broken place faults.now) }
{
    let mut found = found;
    let mut rest = faults;
    while let [fault, more @ ..] = rest {
        found = or_break(found, rule_of_fault(fault), place);
        rest = more;
    }
    found
}

fn class_type_broken(
    alloc: Global,
    table: &Table,
    found: Option<Refusal>,
    t: &Ty,
    place: Place,
) -> Result<Option<Refusal>, WantOfMemory>
    ensures { IfOk result (λ r. r ≡ least found (faults_broken place (class_faults table.now [] t.now))) }
{
    let env = Env {
        bounds: Items::new(alloc),
    };
    let faults = class_faults(alloc, table, &env, t)?;
    Ok(faults_broken(found, place, faults.slice()))
}

fn class_types_broken(
    alloc: Global,
    table: &Table,
    found: Option<Refusal>,
    types: &[Ty],
    places: &[Place],
) -> Result<Option<Refusal>, WantOfMemory>
    ensures { IfOk result (λ r. r ≡ least found (class_types_broken table.now types.now places.now)) }
{
    let mut found = found;
    let mut rest = types;
    let mut left = places;
    while let [t, more @ ..] = rest {
        match left {
            [] => return Ok(found),
            [place, others @ ..] => {
                found = class_type_broken(alloc, table, found, t, *place)?;
                left = others;
            }
        }
        rest = more;
    }
    Ok(found)
}

/// The rules that the class types inside a written type break.
pub fn type_broken(
    alloc: Global,
    table: &Table,
    found: Option<Refusal>,
    t: &Ty,
    places: &TypePlaces,
) -> Result<Option<Refusal>, WantOfMemory>
    ensures { IfOk result (λ r. r ≡ least found (type_broken table.now t.now places.now)) }
{
    let types = class_types(alloc, t)?;
    class_types_broken(alloc, table, found, types.slice(), places.classes.slice())
}

/// The rules that written types break.
pub fn types_broken(
    alloc: Global,
    table: &Table,
    found: Option<Refusal>,
    written: &WrittenTypes,
) -> Result<Option<Refusal>, WantOfMemory>
    ensures { IfOk result (λ r. r ≡ least found (types_broken table.now written.now)) }
{
    let mut found = found;
    let mut rest = written.types.slice();
    let mut left = written.places.slice();
    while let [t, more @ ..] = rest {
        match left {
            [] => return Ok(found),
            [places, others @ ..] => {
                found = type_broken(alloc, table, found, t, places)?;
                left = others;
            }
        }
        rest = more;
    }
    Ok(found)
}

#[tactic(auto, using(jc_types::proofs::Opened::opened))]
fn is_wildcard(arg: &Arg) -> bool
    ensures { result ≡ is_wildcard_at (out-Arg arg.now) }
{
    match arg {
        Arg::Exact(_) => false,
        Arg::Any => true,
        Arg::Extends(_) => true,
        Arg::Super(_) => true,
    }
}

fn has_wildcard_among(args: &[Arg]) -> bool
    ensures { result ≡ list_any (λ a. is_wildcard_at (out-Arg a)) args.now }
{
    let mut rest = args;
    while let [arg, more @ ..] = rest {
        if is_wildcard(arg) {
            return true;
        }
        rest = more;
    }
    false
}

#[tactic(auto, using(jc_types::proofs::Opened::opened))]
fn has_wildcard(t: &Ty) -> bool
    ensures { result ≡ has_wildcard_at (out-Ty t.now) }
{
    match t {
        Ty::Class { args, .. } => has_wildcard_among(args.slice()),
        Ty::Prim(_) => false,
        Ty::Raw { .. } => false,
        Ty::Array { .. } => false,
        Ty::Variable(_) => false,
        Ty::Captured(_) => false,
        Ty::Meet { .. } => false,
        Ty::NullTy => false,
    }
}

/// A supertype that has a wildcard as one of its own arguments: 408.
pub fn supertypes_broken(found: Option<Refusal>, written: &WrittenTypes) -> Option<Refusal>
    ensures { result ≡ least found (of_written supertype_broken written.now.types written.now.places) }
{
    let mut found = found;
    let mut rest = written.types.slice();
    let mut left = written.places.slice();
    while let [t, more @ ..] = rest {
        match left {
            [] => return found,
            [places, others @ ..] => {
                found = if_broken(found, has_wildcard(t), Rule::known(408), places.first);
                left = others;
            }
        }
        rest = more;
    }
    found
}
