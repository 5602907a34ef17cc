//! Names whose inherited methods a class overrides or hides, each of them: there nothing meets.
ghost use Rattle.std.specs.Prelude.{◌≡◌, ◌++◌, ◌∷◌, [], cond, IfOk, OnOk};
ghost use Rattle.std.specs.List.{list_any};
ghost use Rattle.jc_overriding.specs.Overriding.{owner, same_class};
ghost use Rattle.jc_overriding.specs.Viewing.{own_type};
ghost use Rattle.jc_members.specs.Supertypes.{IsSupertypes};
ghost use Rattle.jc_class_rules.specs.Grouping.{all_covered, are_covered, is_covered, own_ids, own_replaces};

use jc_members::{Supertypes, owner, replaces_above, same_class};
use jc_rules::{Items, WantOfMemory};
use jc_types::{ClassId, MethodId, Table};
use std::alloc::Global;

fn push_own(
    table: &Table,
    k: ClassId,
    m: MethodId,
    out: &mut Items<MethodId>,
) -> Result<(), WantOfMemory>
    ensures { OnOk result (out.new ≡ out.old ++ cond (same_class (owner table.now m) k) (m ∷ []) []) }
{
    if !same_class(owner(table, m), k) {
        return Ok(());
    }
    out.push(m)
}

// Of these methods those that a class declares.
fn own_ids(
    alloc: Global,
    table: &Table,
    k: ClassId,
    ids: &[MethodId],
) -> Result<Items<MethodId>, WantOfMemory>
    ensures { IfOk result (λ r. r ≡ own_ids table.now k ids.now) }
{
    let mut out = Items::new(alloc);
    let mut rest = ids;
    while let [m, more @ ..] = rest {
        push_own(table, k, *m, &mut out)?;
        rest = more;
    }
    Ok(out)
}

// Whether method w of a class, of which these are the supertypes, overrides or hides method m.
#[tactic(auto, unfolding(crate::specs::Grouping::own_replaces))]
fn own_replaces(
    alloc: Global,
    table: &Table,
    above: &Supertypes,
    k: ClassId,
    m: MethodId,
    w: MethodId,
) -> Result<bool, WantOfMemory>
    requires known { IsSupertypes table.now above.now }
    requires own { above.now.of ≡ own_type table.now k }
    ensures { IfOk result (λ r. r ≡ own_replaces table.now k m w) }
{
    if !same_class(owner(table, w), k) {
        return Ok(false);
    }
    replaces_above(alloc, table, above, w, m)
}

fn some_replaces(
    alloc: Global,
    table: &Table,
    above: &Supertypes,
    k: ClassId,
    m: MethodId,
    own: &[MethodId],
) -> Result<bool, WantOfMemory>
    requires known { IsSupertypes table.now above.now }
    requires own { above.now.of ≡ own_type table.now k }
    ensures { IfOk result (λ r. r ≡ list_any (own_replaces table.now k m) own.now) }
{
    let mut rest = own;
    while let [w, more @ ..] = rest {
        if own_replaces(alloc, table, above, k, m, *w)? {
            return Ok(true);
        }
        rest = more;
    }
    Ok(false)
}

// Whether a class declares a method, or one of these methods of it overrides or hides that.
#[tactic(auto, unfolding(crate::specs::Grouping::is_covered))]
fn is_covered(
    alloc: Global,
    table: &Table,
    above: &Supertypes,
    k: ClassId,
    own: &[MethodId],
    m: MethodId,
) -> Result<bool, WantOfMemory>
    requires known { IsSupertypes table.now above.now }
    requires own { above.now.of ≡ own_type table.now k }
    ensures { IfOk result (λ r. r ≡ is_covered table.now k own.now m) }
{
    if same_class(owner(table, m), k) {
        return Ok(true);
    }
    some_replaces(alloc, table, above, k, m, own)
}

fn all_covered(
    alloc: Global,
    table: &Table,
    above: &Supertypes,
    k: ClassId,
    own: &[MethodId],
    ids: &[MethodId],
) -> Result<bool, WantOfMemory>
    requires known { IsSupertypes table.now above.now }
    requires own { above.now.of ≡ own_type table.now k }
    ensures { IfOk result (λ r. r ≡ all_covered table.now k own.now ids.now) }
{
    let mut rest = ids;
    while let [m, more @ ..] = rest {
        let is_covered = is_covered(alloc, table, above, k, own, *m)?;
        if !is_covered {
            return Ok(false);
        }
        rest = more;
    }
    Ok(true)
}

/// Whether a class, of which these are the supertypes, declares each of these methods, or overrides or hides it by one of them.
pub fn are_covered(
    alloc: Global,
    table: &Table,
    above: &Supertypes,
    k: ClassId,
    ids: &[MethodId],
) -> Result<bool, WantOfMemory>
    requires known { IsSupertypes table.now above.now }
    requires own { above.now.of ≡ own_type table.now k }
    ensures { IfOk result (λ r. r ≡ are_covered table.now k ids.now) }
{
    let own = own_ids(alloc, table, k, ids)?;
    all_covered(alloc, table, above, k, own.slice(), ids)
}
