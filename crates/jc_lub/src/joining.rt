//! The least upper bound, level by level.
ghost use Rattle.std.specs.Prelude.{◌≡◌, ◌+◌, map, IfOk};
ghost use Rattle.jc_lub.specs.Columns.{joined, joined_from, joined_views};
ghost use Rattle.jc_lub.specs.Lubs.{joined_at, by_supers, arrays_and_supers, unless_same, through, join, lub};

use crate::arrays::{all_same_types, all_stripped, over, shared, without_null};
use crate::candidates::{candidates, views};
use crate::columns::{all_same, column, one_raw, uppers};
use jc_rules::{Items, WantOfMemory};
use jc_sub::as_one;
use jc_types::{Arg, Bounds, ClassId, Env, Table, Ty, VarId, class_vars, copy_arg, copy_type};
use std::alloc::Global;

// The argument for unequal types, at most so many levels deep.
#[cycle(lub)]
fn join(
    alloc: Global,
    table: &Table,
    env: &[Bounds],
    levels: u32,
    types: &[Ty],
) -> Result<Arg, WantOfMemory>
    ensures { IfOk result (λ r. r ≡ join table.now env.now levels types.now) }
{
    if levels == 0 {
        return Ok(Arg::Any);
    }
    let t = through(alloc, table, env, levels - 1, types)?;
    Ok(Arg::Extends(t))
}

// The one argument for those of one place.
#[cycle(lub)]
fn joined(
    alloc: Global,
    table: &Table,
    env: &[Bounds],
    levels: u32,
    args: &[Arg],
) -> Result<Arg, WantOfMemory>
    ensures { IfOk result (λ r. r ≡ joined (join table.now env.now levels) args.now) }
{
    let [first, more @ ..] = args else {
        return Ok(Arg::Any);
    };
    if all_same(first, more) {
        return copy_arg(alloc, first);
    }
    match uppers(alloc, args)? {
        Some(types) => join(alloc, table, env, levels, types.slice()),
        None => Ok(Arg::Any),
    }
}

#[cycle(lub)]
fn joined_columns(
    alloc: Global,
    table: &Table,
    env: &[Bounds],
    levels: u32,
    views: &[Ty],
    vars: &[VarId],
) -> Result<Items<Arg>, WantOfMemory>
    ensures { IfOk result (λ r. r ≡ joined_from (join table.now env.now levels) views.now 0 vars.now) }
{
    let mut out = Items::new(alloc);
    let mut place: usize = 0;
    let mut rest = vars;
    while let [_, more @ ..] = rest {
        let args = column(alloc, place, views)?;
        let arg = joined(alloc, table, env, levels, args.slice())?;
        out.push(arg)?;
        place = next_place(place)?;
        rest = more;
    }
    Ok(out)
}

// The next place. No memory holds as many as would overflow.
fn next_place(place: usize) -> Result<usize, WantOfMemory>
    ensures { IfOk result (λ n. n ≡ place + 1) }
{
    match place.checked_add(1) {
        Some(next) => Ok(next),
        None => Err(WantOfMemory),
    }
}

// One type for the views of several types as a class.
#[cycle(lub)]
#[tactic(auto, unfolding(crate::specs::Columns::joined_views, crate::specs::Lubs::joined_at))]
fn joined_at(
    alloc: Global,
    table: &Table,
    env: &[Bounds],
    levels: u32,
    types: &[Ty],
    k: ClassId,
) -> Result<Ty, WantOfMemory>
    ensures { IfOk result (λ r. r ≡ joined_at table.now env.now (join table.now env.now levels) types.now k) }
{
    let views = views(alloc, table, env, k, types)?;
    let vars = class_vars(table, k);
    if one_raw(vars.len(), views.slice()) {
        return Ok(Ty::Raw { id: k });
    }
    let args = joined_columns(alloc, table, env, levels, views.slice(), vars)?;
    Ok(Ty::Class { id: k, args })
}

#[cycle(lub)]
fn all_joined(
    alloc: Global,
    table: &Table,
    env: &[Bounds],
    levels: u32,
    types: &[Ty],
    ids: &[ClassId],
) -> Result<Items<Ty>, WantOfMemory>
    ensures { IfOk result (λ r. r ≡ map (joined_at table.now env.now (join table.now env.now levels) types.now) ids.now) }
{
    let mut out = Items::new(alloc);
    for i in 0..ids.len() {
        let t = joined_at(alloc, table, env, levels, types, ids[i])?;
        out.push(t)?;
    }
    Ok(out)
}

// The intersection of the least common supertypes.
#[cycle(lub)]
#[tactic(auto, unfolding(crate::specs::Lubs::by_supers))]
fn by_supers(
    alloc: Global,
    table: &Table,
    env: &[Bounds],
    levels: u32,
    types: &[Ty],
) -> Result<Ty, WantOfMemory>
    ensures { IfOk result (λ r. r ≡ by_supers table.now env.now (join table.now env.now levels) types.now) }
{
    let ids = candidates(alloc, table, env, types)?;
    let parts = all_joined(alloc, table, env, levels, types, ids.slice())?;
    Ok(as_one(alloc, parts))
}

// The same of arrays, over the dimensions that all have.
#[cycle(lub)]
fn arrays_and_supers(
    alloc: Global,
    table: &Table,
    env: &[Bounds],
    levels: u32,
    types: &[Ty],
) -> Result<Ty, WantOfMemory>
    ensures { IfOk result (λ r. r ≡ arrays_and_supers table.now env.now (join table.now env.now levels) types.now) }
{
    let dims = shared(types)?;
    let inner = all_stripped(alloc, dims, types)?;
    let of = by_supers(alloc, table, env, levels, inner.slice())?;
    over(alloc, dims, of)
}

#[cycle(lub)]
fn unless_same(
    alloc: Global,
    table: &Table,
    env: &[Bounds],
    levels: u32,
    types: &[Ty],
) -> Result<Ty, WantOfMemory>
    ensures { IfOk result (λ r. r ≡ unless_same (arrays_and_supers table.now env.now (join table.now env.now levels)) types.now) }
{
    let [first, more @ ..] = types else {
        return Ok(Ty::NullTy);
    };
    if all_same_types(first, more) {
        return copy_type(alloc, first);
    }
    arrays_and_supers(alloc, table, env, levels, types)
}

#[cycle(lub)]
#[tactic(auto, unfolding(crate::specs::Lubs::through))]
fn through(
    alloc: Global,
    table: &Table,
    env: &[Bounds],
    levels: u32,
    types: &[Ty],
) -> Result<Ty, WantOfMemory>
    ensures { IfOk result (λ r. r ≡ through table.now env.now (join table.now env.now levels) types.now) }
{
    let types = without_null(alloc, types)?;
    unless_same(alloc, table, env, levels, types.slice())
}

/// The least upper bound of reference types (JLS 15.12.2.7): equal types give that type, and null is dropped. Arrays of references give
/// the array of the lub of their elements. Else the least common supertypes are taken, each with its arguments joined: equal ones stay,
/// `U` or `? extends U` with `V` or `? extends V` give `? extends lub(U, V)`, and any others `?`, as all unequal ones do a level down.
pub fn lub(alloc: Global, table: &Table, env: &Env, types: &[Ty]) -> Result<Ty, WantOfMemory>
    ensures { IfOk result (λ r. r ≡ lub table.now env.now.bounds types.now) }
{
    through(alloc, table, env.bounds.slice(), 1, types)
}
