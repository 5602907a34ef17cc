//! Whether a class has for a method a body that it inherits, whose result doesn't stand for the method's.
ghost use Rattle.std.specs.Prelude.{◌≡◌, Some, IfOk};
ghost use Rattle.std.specs.List.{list_any};
ghost use Rattle.jc_overriding.specs.Overriding.{superclass};
ghost use Rattle.jc_overriding.specs.Viewing.{own_type};
ghost use Rattle.jc_members.specs.Named.{IsMethodIndex};
ghost use Rattle.jc_members.specs.Supertypes.{IsSupertypes};
ghost use Rattle.jc_method_rules.specs.Owned.{standing};
ghost use Rattle.jc_unchecked_spec.specs.Heads.{is_open_selection, is_selected_by, selects_open};
ghost use Rattle.jc_unchecked_heads.specs.Asked.{AreAmong, is_rival, is_selected_open};

use crate::picking::shorter;
use crate::results::are_open;
use jc_members::{
    MethodIndex, Supertypes, is_abstract, is_instance, overrides, owner, same_class, select,
    select_in,
};
use jc_rules::WantOfMemory;
use jc_sub::class_of;
use jc_types::{ClassId, MethodId, Table, class_supers, method_name};
use std::alloc::Global;

fn superclass(table: &Table, k: ClassId) -> Option<ClassId>
    ensures { result ≡ superclass table.now k }
{
    match class_supers(table, k) {
        [] => None,
        [first, ..] => class_of(first),
    }
}

// Whether a superclass has body n for method m.
fn is_selected_by(
    alloc: Global,
    table: &Table,
    m: MethodId,
    n: MethodId,
    superclass: Option<ClassId>,
) -> Result<bool, WantOfMemory>
    ensures { IfOk result (λ r. r ≡ is_selected_by table.now m n superclass) }
{
    match superclass {
        None => Ok(false),
        Some(c) => match select(alloc, table, c, m)? {
            None => Ok(false),
            Some(b) => Ok(b.0 == n.0),
        },
    }
}

// Whether body n, which class k has for method m, is inherited by no other way, and its result isn't below m's.
fn is_open_selection(
    alloc: Global,
    table: &Table,
    above: &Supertypes,
    k: ClassId,
    m: MethodId,
    n: MethodId,
) -> Result<bool, WantOfMemory>
    requires known { IsSupertypes table.now above.now }
    requires own { above.now.of ≡ own_type table.now k }
    ensures { IfOk result (λ r. r ≡ is_open_selection table.now k m (Some n)) }
{
    if same_class(owner(table, n), k) || n.0 == m.0 {
        return Ok(false);
    }
    if overrides(alloc, table, n, m)? {
        return Ok(false);
    }
    if is_selected_by(alloc, table, m, n, superclass(table, k))? {
        return Ok(false);
    }
    are_open(alloc, table, above, k, n, m)
}

// Whether method n could be a body that class k inherits for method m: only beside such a one it pays to look for the body.
#[tactic(auto, unfolding(crate::specs::Asked::is_rival))]
fn is_rival(table: &Table, k: ClassId, m: MethodId, n: MethodId) -> bool
    ensures { result ≡ is_rival table.now k m n }
{
    if method_name(table, n) != method_name(table, m) {
        return false;
    }
    !same_class(owner(table, n), k) && n.0 != m.0 && !is_abstract(table, n) && is_instance(table, n)
}

fn has_rival(table: &Table, k: ClassId, m: MethodId, ids: &[MethodId]) -> bool
    ensures { result ≡ list_any (is_rival table.now k m) ids.now }
{
    let mut rest = ids;
    while let [n, more @ ..] = rest {
        if is_rival(table, k, m, *n) {
            return true;
        }
        rest = more;
    }
    false
}

#[tactic(auto, unfolding(crate::specs::Asked::is_selected_open))]
fn is_body_open(
    alloc: Global,
    table: &Table,
    above: &Supertypes,
    k: ClassId,
    m: MethodId,
) -> Result<bool, WantOfMemory>
    requires known { IsSupertypes table.now above.now }
    requires own { above.now.of ≡ own_type table.now k }
    ensures { IfOk result (λ r. r ≡ is_selected_open table.now k m) }
{
    match select_in(alloc, table, above, k, m)? {
        None => Ok(false),
        Some(n) => is_open_selection(alloc, table, above, k, m, n),
    }
}

// The same, where the body is among these methods.
#[tactic(auto, using(crate::proofs::Rivals::rivals))]
fn is_one_open(
    alloc: Global,
    table: &Table,
    above: &Supertypes,
    k: ClassId,
    m: MethodId,
    ids: &[MethodId],
) -> Result<bool, WantOfMemory>
    requires known { IsSupertypes table.now above.now }
    requires own { above.now.of ≡ own_type table.now k }
    requires among { AreAmong table.now k m ids.now }
    ensures { IfOk result (λ r. r ≡ is_selected_open table.now k m) }
{
    if has_rival(table, k, m, ids) {
        return is_body_open(alloc, table, above, k, m);
    }
    Ok(false)
}

// The same, where `all` are the methods of the class and of those above it.
fn is_selected_open(
    alloc: Global,
    table: &Table,
    index: &MethodIndex,
    above: &Supertypes,
    k: ClassId,
    all: &[MethodId],
    m: MethodId,
) -> Result<bool, WantOfMemory>
    requires index { IsMethodIndex table.now index.now }
    requires known { IsSupertypes table.now above.now }
    requires own { above.now.of ≡ own_type table.now k }
    requires all { all.now ≡ standing table.now k }
    ensures { IfOk result (λ r. r ≡ is_selected_open table.now k m) }
{
    let named = index.named(method_name(table, m));
    let ids = shorter(named, all);
    is_one_open(alloc, table, above, k, m, ids)
}

fn selects_open_one(
    alloc: Global,
    table: &Table,
    index: &MethodIndex,
    above: &Supertypes,
    k: ClassId,
    all: &[MethodId],
    ids: &[MethodId],
) -> Result<bool, WantOfMemory>
    requires index { IsMethodIndex table.now index.now }
    requires known { IsSupertypes table.now above.now }
    requires own { above.now.of ≡ own_type table.now k }
    requires all { all.now ≡ standing table.now k }
    ensures { IfOk result (λ r. r ≡ list_any (is_selected_open table.now k) ids.now) }
{
    let mut rest = ids;
    while let [m, more @ ..] = rest {
        if is_selected_open(alloc, table, index, above, k, all, *m)? {
            return Ok(true);
        }
        rest = more;
    }
    Ok(false)
}

/// Whether a class has for a method such a body. The supertypes are those of the class, and `all` are the methods of it and of those above it.
#[tactic(auto, using(crate::proofs::Standing::selects_told))]
pub fn selects_open(
    alloc: Global,
    table: &Table,
    index: &MethodIndex,
    above: &Supertypes,
    k: ClassId,
    all: &[MethodId],
) -> Result<bool, WantOfMemory>
    requires index { IsMethodIndex table.now index.now }
    requires known { IsSupertypes table.now above.now }
    requires own { above.now.of ≡ own_type table.now k }
    requires all { all.now ≡ standing table.now k }
    ensures { IfOk result (λ r. r ≡ selects_open table.now k 0 table.now.methods) }
{
    selects_open_one(alloc, table, index, above, k, all, all)
}
