//! The methods of each name that may clash, with what erasures tell of them, found once for all classes.
ghost use Rattle.std.specs.Prelude.{◌≡◌, ◌++◌, IfOk, OnOk, map, slice_get};
ghost use Rattle.std.specs.Option.{option_copied};
ghost use Rattle.jc_overriding.specs.Overriding.{owner};
ghost use Rattle.jc_overriding.specs.Viewing.{class_view, own_type};
ghost use Rattle.jc_header_rules.specs.Clashes.{erased_params};
ghost use Rattle.jc_members.specs.Below.{replaces};
ghost use Rattle.jc_members.specs.Named.{IsMethodIndex};
ghost use Rattle.jc_members.specs.Supertypes.{IsSupertypes};
ghost use Rattle.jc_clashes.specs.Shapes.{above_at, all_fixed, group_of, groups, leads, row_in, set_in, shapes_of};
ghost use Rattle.jc_clashes.specs.Spreading.{below_in, belows_of, erasures_within};

use crate::erasures::{Erasures, copied, erased_params};
use crate::marks::is_marked;
use crate::spreading::spread;
use jc_members::{
    MethodIndex, MethodView, Supertypes, is_fixed, method_in, own_supertypes, owner, replaces,
};
use jc_rules::{Items, WantOfMemory};
use jc_types::{MethodId, Table, method_name};
use std::alloc::Global;

/// A method beside those of its name: marks for those that it overrides or hides, which of them override or hide it, and the erased parameters
/// of itself and of all that it overrides or hides, directly or indirectly, each once.
#[derive(Drop)]
pub struct Shape {
    pub id: MethodId,
    pub below: Items<bool>,
    pub above: Items<MethodId>,
    pub erasures: Erasures,
}

// Whether these methods have no type parameters, and each of their parameters' types is its own erasure.
fn all_fixed(alloc: Global, table: &Table, ids: &[MethodId]) -> Result<bool, WantOfMemory>
    ensures { IfOk result (λ r. r ≡ all_fixed table.now ids.now) }
{
    let mut rest = ids;
    while let [m, more @ ..] = rest {
        if !is_fixed(alloc, table, *m)? {
            return Ok(false);
        }
        rest = more;
    }
    Ok(true)
}

// Which of these methods of its name method m overrides or hides, as its class has it.
fn below_in(
    alloc: Global,
    table: &Table,
    above: &Supertypes,
    a: Option<&MethodView>,
    all: &[MethodId],
    m: MethodId,
) -> Result<Items<bool>, WantOfMemory>
    requires known { IsSupertypes table.now above.now }
    requires own { above.now.of ≡ own_type table.now (owner table.now m) }
    requires is { option_copied a ≡ class_view table.now (owner table.now m) m }
    ensures { IfOk result (λ r. r ≡ below_in table.now all.now m) }
{
    let mut below = Items::new(alloc);
    let mut rest = all;
    while let [j, more @ ..] = rest {
        below.push(replaces(alloc, table, above, a, m, *j)?)?;
        rest = more;
    }
    Ok(below)
}

fn below_of(
    alloc: Global,
    table: &Table,
    all: &[MethodId],
    m: MethodId,
) -> Result<Items<bool>, WantOfMemory>
    ensures { IfOk result (λ r. r ≡ below_in table.now all.now m) }
{
    let above = own_supertypes(alloc, table, owner(table, m))?;
    let a = method_in(alloc, table, &above, m)?;
    below_in(alloc, table, &above, a.as_ref(), all, m)
}

// Marks for what each of these methods overrides or hides.
fn belows_of(
    alloc: Global,
    table: &Table,
    all: &[MethodId],
) -> Result<Items<Items<bool>>, WantOfMemory>
    ensures { IfOk result (λ r. r ≡ belows_of table.now all.now all.now) }
{
    let mut out = Items::new(alloc);
    let mut rest = all;
    while let [m, more @ ..] = rest {
        out.push(below_of(alloc, table, all, *m)?)?;
        rest = more;
    }
    Ok(out)
}

// Of these methods, each beside its marks, those that have one at this place.
fn above_at(
    alloc: Global,
    at: u64,
    ids: &[MethodId],
    belows: &[Items<bool>],
) -> Result<Items<MethodId>, WantOfMemory>
    ensures { IfOk result (λ r. r ≡ above_at at ids.now belows.now) }
{
    let mut out = Items::new(alloc);
    let mut rest = ids;
    let mut left = belows;
    while let [j, more @ ..] = rest {
        match left {
            [] => return Ok(out),
            [below, others @ ..] => {
                if is_marked(below.slice(), at) {
                    out.push(*j)?;
                }
                left = others;
            }
        }
        rest = more;
    }
    Ok(out)
}

// The erased parameters of each of these methods.
fn own_erasures(
    alloc: Global,
    table: &Table,
    ids: &[MethodId],
) -> Result<Items<Erasures>, WantOfMemory>
    ensures { IfOk result (λ r. r ≡ map (erasures_within table.now ids.now 0) ids.now) }
{
    let mut out = Items::new(alloc);
    let mut rest = ids;
    while let [m, more @ ..] = rest {
        let mut own = Items::new(alloc);
        own.push(erased_params(alloc, table, *m)?)?;
        out.push(own)?;
        rest = more;
    }
    Ok(out)
}

fn row_at(alloc: Global, belows: &[Items<bool>], at: usize) -> Result<Items<bool>, WantOfMemory>
    ensures { IfOk result (λ r. r ≡ row_in (slice_get belows.now at)) }
{
    match belows.get(at) {
        None => Ok(Items::new(alloc)),
        Some(below) => Ok(Items::of(Vec::from_slice(alloc, below.slice())?)),
    }
}

fn set_at(alloc: Global, sets: &[Erasures], at: usize) -> Result<Erasures, WantOfMemory>
    ensures { IfOk result (λ r. r ≡ set_in (slice_get sets.now at)) }
{
    match sets.get(at) {
        None => Ok(Items::new(alloc)),
        Some(set) => copied(alloc, set.slice()),
    }
}

fn shapes_of(alloc: Global, table: &Table, all: &[MethodId]) -> Result<Items<Shape>, WantOfMemory>
    ensures { IfOk result (λ r. r ≡ shapes_of table.now all.now all.now) }
{
    let belows = belows_of(alloc, table, all)?;
    let own = own_erasures(alloc, table, all)?;
    let sets = spread(alloc, belows.slice(), own, table.methods.len())?;
    let mut out = Items::new(alloc);
    for at in 0..all.len() {
        let below = row_at(alloc, belows.slice(), at)?;
        let above = above_at(alloc, at as u64, all, belows.slice())?;
        let erasures = set_at(alloc, sets.slice(), at)?;
        out.push(Shape {
            id: all[at],
            below,
            above,
            erasures,
        })?;
    }
    Ok(out)
}

// Whether a method is the first of these, which aren't all fixed.
fn leads(alloc: Global, table: &Table, m: MethodId, ids: &[MethodId]) -> Result<bool, WantOfMemory>
    ensures { IfOk result (λ r. r ≡ leads table.now m ids.now) }
{
    match ids {
        [] => Ok(false),
        [n, ..] => {
            if n.0 != m.0 {
                return Ok(false);
            }
            Ok(!all_fixed(alloc, table, ids)?)
        }
    }
}

// Adds the methods of the name of m, where it is the first of them, and they aren't all fixed.
fn push_group(
    alloc: Global,
    table: &Table,
    m: MethodId,
    ids: &[MethodId],
    out: &mut Items<Items<Shape>>,
) -> Result<(), WantOfMemory>
    ensures { OnOk result (out.new ≡ out.old ++ group_of table.now m ids.now) }
{
    if !leads(alloc, table, m, ids)? {
        return Ok(());
    }
    out.push(shapes_of(alloc, table, ids)?)
}

/// The methods of each name that has one whose parameters aren't the same in each class. Methods of other names don't clash.
pub fn groups(
    alloc: Global,
    table: &Table,
    index: &MethodIndex,
) -> Result<Items<Items<Shape>>, WantOfMemory>
    requires { IsMethodIndex table.now index.now }
    ensures { IfOk result (λ r. r ≡ groups table.now) }
{
    let mut out = Items::new(alloc);
    for number in 0..table.methods.len() {
        let m = MethodId(number as u64);
        let ids = index.named(method_name(table, m));
        push_group(alloc, table, m, ids, &mut out)?;
    }
    Ok(out)
}
