//! Whether a class leaves an abstract method without a body (JLS 8.1.1.1).
ghost use Rattle.std.specs.Prelude.{◌≡◌, IfOk};
ghost use Rattle.std.specs.List.{list_any};
ghost use Rattle.jc_overriding.specs.Viewing.{own_type};
ghost use Rattle.jc_members.specs.Supertypes.{IsSupertypes};
ghost use Rattle.jc_header_rules.specs.Inheriting.{has_no_body, is_left_open, is_member_above, is_overridden_above, leaves_open};
ghost use Rattle.jc_method_rules.specs.Owned.{standing};
ghost use Rattle.jc_class_rules.specs.Lasting.{has_over};

use jc_members::{
    Supertypes, is_above, is_abstract, is_inheritable, is_instance, overrides, owner, same_class,
    select_in,
};
use jc_rules::WantOfMemory;
use jc_types::{ClassId, MethodId, Table};
use std::alloc::Global;

fn is_member_above(
    alloc: Global,
    table: &Table,
    above: &Supertypes,
    k: ClassId,
    m: MethodId,
) -> Result<bool, WantOfMemory>
    requires known { IsSupertypes table.now above.now }
    requires own { above.now.of ≡ own_type table.now k }
    ensures { IfOk result (λ r. r ≡ is_member_above table.now k m) }
{
    if same_class(owner(table, m), k) {
        return Ok(true);
    }
    if !is_above(alloc, table, above, k, owner(table, m))? {
        return Ok(false);
    }
    Ok(is_inheritable(table, k, m))
}

fn has_no_body(
    alloc: Global,
    table: &Table,
    above: &Supertypes,
    k: ClassId,
    m: MethodId,
) -> Result<bool, WantOfMemory>
    requires known { IsSupertypes table.now above.now }
    requires own { above.now.of ≡ own_type table.now k }
    ensures { IfOk result (λ r. r ≡ has_no_body table.now k m) }
{
    if !is_instance(table, m) || !is_abstract(table, m) {
        return Ok(false);
    }
    if !is_member_above(alloc, table, above, k, m)? {
        return Ok(false);
    }
    match select_in(alloc, table, above, k, m)? {
        Some(_) => Ok(false),
        None => Ok(true),
    }
}

// Whether a class has method w, and w overrides method m.
#[tactic(auto, unfolding(crate::specs::Lasting::has_over))]
fn has_over(
    alloc: Global,
    table: &Table,
    above: &Supertypes,
    k: ClassId,
    m: MethodId,
    w: MethodId,
) -> Result<bool, WantOfMemory>
    requires known { IsSupertypes table.now above.now }
    requires own { above.now.of ≡ own_type table.now k }
    ensures { IfOk result (λ r. r ≡ has_over table.now k m w) }
{
    if !is_member_above(alloc, table, above, k, w)? {
        return Ok(false);
    }
    overrides(alloc, table, w, m)
}

fn some_over(
    alloc: Global,
    table: &Table,
    above: &Supertypes,
    k: ClassId,
    m: MethodId,
    ids: &[MethodId],
) -> Result<bool, WantOfMemory>
    requires known { IsSupertypes table.now above.now }
    requires own { above.now.of ≡ own_type table.now k }
    ensures { IfOk result (λ r. r ≡ list_any (has_over table.now k m) ids.now) }
{
    let mut rest = ids;
    while let [w, more @ ..] = rest {
        if has_over(alloc, table, above, k, m, *w)? {
            return Ok(true);
        }
        rest = more;
    }
    Ok(false)
}

// Whether a method that a class has, which are `all`, overrides method m.
#[tactic(auto, using(crate::proofs::Lasting::over_told))]
fn is_overridden(
    alloc: Global,
    table: &Table,
    above: &Supertypes,
    k: ClassId,
    m: MethodId,
    all: &[MethodId],
) -> Result<bool, WantOfMemory>
    requires known { IsSupertypes table.now above.now }
    requires own { above.now.of ≡ own_type table.now k }
    requires all { all.now ≡ standing table.now k }
    ensures { IfOk result (λ r. r ≡ is_overridden_above table.now k m 0 table.now.methods) }
{
    some_over(alloc, table, above, k, m, all)
}

fn is_left_open(
    alloc: Global,
    table: &Table,
    above: &Supertypes,
    k: ClassId,
    m: MethodId,
    all: &[MethodId],
) -> Result<bool, WantOfMemory>
    requires known { IsSupertypes table.now above.now }
    requires own { above.now.of ≡ own_type table.now k }
    requires all { all.now ≡ standing table.now k }
    ensures { IfOk result (λ r. r ≡ is_left_open table.now k m) }
{
    if !has_no_body(alloc, table, above, k, m)? {
        return Ok(false);
    }
    let is_overridden = is_overridden(alloc, table, above, k, m, all)?;
    Ok(!is_overridden)
}

// Whether a class leaves one of these methods open, which are among all of it.
fn opens_some(
    alloc: Global,
    table: &Table,
    above: &Supertypes,
    k: ClassId,
    ids: &[MethodId],
    all: &[MethodId],
) -> Result<bool, WantOfMemory>
    requires known { IsSupertypes table.now above.now }
    requires own { above.now.of ≡ own_type table.now k }
    requires all { all.now ≡ standing table.now k }
    ensures { IfOk result (λ r. r ≡ list_any (is_left_open table.now k) ids.now) }
{
    let mut rest = ids;
    while let [m, more @ ..] = rest {
        if is_left_open(alloc, table, above, k, *m, all)? {
            return Ok(true);
        }
        rest = more;
    }
    Ok(false)
}

/// Whether a class declares or inherits an abstract method for which nothing stands that has a body. The supertypes are those of the class, and `all` are
/// the methods of it and of those above it.
#[tactic(auto, using(crate::proofs::Lasting::open_told))]
pub fn leaves_open(
    alloc: Global,
    table: &Table,
    above: &Supertypes,
    k: ClassId,
    all: &[MethodId],
) -> Result<bool, WantOfMemory>
    requires known { IsSupertypes table.now above.now }
    requires own { above.now.of ≡ own_type table.now k }
    requires all { all.now ≡ standing table.now k }
    ensures { IfOk result (λ r. r ≡ leaves_open table.now k 0 table.now.methods) }
{
    opens_some(alloc, table, above, k, all, all)
}
