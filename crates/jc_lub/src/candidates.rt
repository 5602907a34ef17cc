//! The least classes above all of several types.
ghost use Rattle.std.specs.Prelude.{◌≡◌, ◌+◌, ◌++◌, ◌∷◌, [], filter, IfOk, OnOk};
ghost use Rattle.jc_lub.specs.Uncaptured.{up_view};
ghost use Rattle.jc_lub.specs.Lubs.{is_above_all, common, is_over, has_below, least_class, least_interface, candidates, views, if_there};

use crate::viewing::up_view;
use jc_rules::{Items, WantOfMemory};
use jc_sub::view;
use jc_types::{Bounds, ClassId, Table, Ty, is_interface};
use std::alloc::Global;

fn is_above_all(
    alloc: Global,
    table: &Table,
    env: &[Bounds],
    types: &[Ty],
    k: ClassId,
) -> Result<bool, WantOfMemory>
    ensures { IfOk result (λ r. r ≡ is_above_all table.now env.now types.now k) }
{
    let mut rest = types;
    while let [t, more @ ..] = rest {
        if up_view(alloc, table, env, k, t)?.is_none() {
            return Ok(false);
        }
        rest = more;
    }
    Ok(true)
}

fn push_if_above(
    alloc: Global,
    table: &Table,
    env: &[Bounds],
    types: &[Ty],
    k: ClassId,
    out: &mut Items<ClassId>,
) -> Result<(), WantOfMemory>
    ensures { OnOk result (out.new ≡ out.old ++ filter (is_above_all table.now env.now types.now) (k ∷ [])) }
{
    if is_above_all(alloc, table, env, types, k)? {
        return out.push(k);
    }
    Ok(())
}

// The number of the next class. No memory holds as many as would overflow.
pub fn after(number: u64) -> Result<u64, WantOfMemory>
    ensures { IfOk result (λ n. n ≡ number + 1) }
{
    match number.checked_add(1) {
        Some(next) => Ok(next),
        None => Err(WantOfMemory),
    }
}

// The classes that are above all types, in the order of the table.
#[tactic(auto, unfolding(crate::specs::Lubs::common))]
fn common(
    alloc: Global,
    table: &Table,
    env: &[Bounds],
    types: &[Ty],
) -> Result<Items<ClassId>, WantOfMemory>
    ensures { IfOk result (λ r. r ≡ common table.now env.now types.now) }
{
    let mut out = Items::new(alloc);
    let mut number: u64 = 0;
    let mut rest = table.classes.slice();
    while let [_, more @ ..] = rest {
        push_if_above(alloc, table, env, types, ClassId(number), &mut out)?;
        number = after(number)?;
        rest = more;
    }
    Ok(out)
}

fn is_over(alloc: Global, table: &Table, k: ClassId, j: ClassId) -> Result<bool, WantOfMemory>
    ensures { IfOk result (λ r. r ≡ is_over table.now k j) }
{
    if j.0 == k.0 {
        return Ok(false);
    }
    let above = view(alloc, table, k, &Ty::Raw { id: j })?;
    Ok(above.is_some())
}

fn has_below(
    alloc: Global,
    table: &Table,
    all: &[ClassId],
    k: ClassId,
) -> Result<bool, WantOfMemory>
    ensures { IfOk result (λ r. r ≡ has_below table.now all.now k) }
{
    let mut rest = all;
    while let [j, more @ ..] = rest {
        if is_over(alloc, table, k, *j)? {
            return Ok(true);
        }
        rest = more;
    }
    Ok(false)
}

fn push_least_class(
    alloc: Global,
    table: &Table,
    all: &[ClassId],
    k: ClassId,
    out: &mut Items<ClassId>,
) -> Result<(), WantOfMemory>
    ensures { OnOk result (out.new ≡ out.old ++ filter (least_class table.now all.now) (k ∷ [])) }
{
    if is_interface(table, k) {
        return Ok(());
    }
    if has_below(alloc, table, all, k)? {
        return Ok(());
    }
    out.push(k)
}

fn push_least_classes(
    alloc: Global,
    table: &Table,
    all: &[ClassId],
    out: &mut Items<ClassId>,
) -> Result<(), WantOfMemory>
    ensures { OnOk result (out.new ≡ out.old ++ filter (least_class table.now all.now) all.now) }
{
    let mut rest = all;
    while let [k, more @ ..] = rest {
        push_least_class(alloc, table, all, *k, out)?;
        rest = more;
    }
    Ok(())
}

fn push_least_interface(
    alloc: Global,
    table: &Table,
    all: &[ClassId],
    k: ClassId,
    out: &mut Items<ClassId>,
) -> Result<(), WantOfMemory>
    ensures { OnOk result (out.new ≡ out.old ++ filter (least_interface table.now all.now) (k ∷ [])) }
{
    if !is_interface(table, k) {
        return Ok(());
    }
    if has_below(alloc, table, all, k)? {
        return Ok(());
    }
    out.push(k)
}

fn push_least_interfaces(
    alloc: Global,
    table: &Table,
    all: &[ClassId],
    out: &mut Items<ClassId>,
) -> Result<(), WantOfMemory>
    ensures { OnOk result (out.new ≡ out.old ++ filter (least_interface table.now all.now) all.now) }
{
    let mut rest = all;
    while let [k, more @ ..] = rest {
        push_least_interface(alloc, table, all, *k, out)?;
        rest = more;
    }
    Ok(())
}

/// The least classes above all types, the class first.
#[tactic(auto, unfolding(crate::specs::Lubs::candidates))]
pub fn candidates(
    alloc: Global,
    table: &Table,
    env: &[Bounds],
    types: &[Ty],
) -> Result<Items<ClassId>, WantOfMemory>
    ensures { IfOk result (λ r. r ≡ candidates table.now (common table.now env.now types.now)) }
{
    let all = common(alloc, table, env, types)?;
    let mut out = Items::new(alloc);
    push_least_classes(alloc, table, all.slice(), &mut out)?;
    push_least_interfaces(alloc, table, all.slice(), &mut out)?;
    Ok(out)
}

fn push_view(
    alloc: Global,
    table: &Table,
    env: &[Bounds],
    k: ClassId,
    t: &Ty,
    out: &mut Items<Ty>,
) -> Result<(), WantOfMemory>
    ensures { OnOk result (out.new ≡ out.old ++ if_there (up_view table.now env.now k t.now)) }
{
    match up_view(alloc, table, env, k, t)? {
        None => Ok(()),
        Some(above) => out.push(above),
    }
}

/// The views of types as a class.
pub fn views(
    alloc: Global,
    table: &Table,
    env: &[Bounds],
    k: ClassId,
    types: &[Ty],
) -> Result<Items<Ty>, WantOfMemory>
    ensures { IfOk result (λ r. r ≡ views table.now env.now k types.now) }
{
    let mut out = Items::new(alloc);
    let mut rest = types;
    while let [t, more @ ..] = rest {
        push_view(alloc, table, env, k, t, &mut out)?;
        rest = more;
    }
    Ok(out)
}
