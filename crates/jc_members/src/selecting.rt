//! The body that a class has for a method (JLS 15.12.4.4).
ghost use Rattle.std.specs.Prelude.{◌≡◌, ◌+◌, IfOk};
ghost use Rattle.std.specs.Option.{option_copied};
ghost use Rattle.jc_overriding.specs.Overriding.{body_for, declared_for, if_body, is_member_of, select, standing_in, standing_within, stands_for, subsignature_of, superclass};
ghost use Rattle.jc_overriding.specs.Viewing.{class_view, own_type, view_of_method};
ghost use Rattle.jc_members.specs.Supertypes.{IsSupertypes};

use crate::kinds::{is_abstract, is_inheritable, is_instance, owner, same_class};
use crate::overriding::subsignature_of;
use crate::supertypes::{Supertypes, method_in, own_supertypes};
use jc_overriding::MethodView;
use jc_rules::WantOfMemory;
use jc_sub::class_of;
use jc_types::{ClassId, MethodId, Table, class_methods, class_supers, method_name};
use std::alloc::Global;

fn superclass(table: &Table, k: ClassId) -> Option<ClassId>
    ensures { result ≡ superclass table.now k }
{
    match class_supers(table, k) {
        [] => None,
        [first, ..] => class_of(first),
    }
}

fn is_member_of(table: &Table, k: ClassId, n: MethodId) -> bool
    ensures { result ≡ is_member_of table.now k n }
{
    same_class(owner(table, n), k) || is_inheritable(table, k, n)
}

fn has_subsignature(
    alloc: Global,
    table: &Table,
    above: &Supertypes,
    n: MethodId,
    wanted: Option<&MethodView>,
) -> Result<bool, WantOfMemory>
    requires { IsSupertypes table.now above.now }
    ensures { IfOk result (λ r. r ≡ subsignature_of table.now (view_of_method table.now above.now.of n) (option_copied wanted.entry)) }
{
    let a = method_in(alloc, table, above, n)?;
    subsignature_of(alloc, table, a.as_ref(), wanted)
}

// Whether method n stands for m in class k, of which these are the supertypes, and which has m as `wanted`.
#[tactic(auto, using(crate::proofs::Standing::standing))]
fn stands_for(
    alloc: Global,
    table: &Table,
    above: &Supertypes,
    k: ClassId,
    n: MethodId,
    m: MethodId,
    wanted: Option<&MethodView>,
) -> Result<bool, WantOfMemory>
    requires known { IsSupertypes table.now above.now }
    requires own { above.now.of ≡ own_type table.now k }
    requires is { option_copied wanted ≡ class_view table.now k m }
    ensures { IfOk result (λ r. r ≡ stands_for table.now k n m) }
{
    if n.0 == m.0 {
        return Ok(true);
    }
    if method_name(table, n) != method_name(table, m) {
        return Ok(false);
    }
    if !is_instance(table, n) || !is_instance(table, m) {
        return Ok(false);
    }
    if !is_member_of(table, k, n) || !is_inheritable(table, owner(table, n), m) {
        return Ok(false);
    }
    has_subsignature(alloc, table, above, n, wanted)
}

// The first of these methods that stands for m.
fn declared_for(
    alloc: Global,
    table: &Table,
    above: &Supertypes,
    k: ClassId,
    m: MethodId,
    wanted: Option<&MethodView>,
    ids: &[MethodId],
) -> Result<Option<MethodId>, WantOfMemory>
    requires known { IsSupertypes table.now above.now }
    requires own { above.now.of ≡ own_type table.now k }
    requires is { option_copied wanted ≡ class_view table.now k m }
    ensures { IfOk result (λ r. r ≡ declared_for table.now k m ids.now) }
{
    let mut rest = ids;
    while let [n, more @ ..] = rest {
        if stands_for(alloc, table, above, k, *n, m, wanted)? {
            return Ok(Some(*n));
        }
        rest = more;
    }
    Ok(None)
}

// The first of these methods with a body that stands for m.
fn body_for(
    alloc: Global,
    table: &Table,
    above: &Supertypes,
    k: ClassId,
    m: MethodId,
    wanted: Option<&MethodView>,
    ids: &[MethodId],
) -> Result<Option<MethodId>, WantOfMemory>
    requires known { IsSupertypes table.now above.now }
    requires own { above.now.of ≡ own_type table.now k }
    requires is { option_copied wanted ≡ class_view table.now k m }
    ensures { IfOk result (λ r. r ≡ body_for table.now k m ids.now) }
{
    let mut rest = ids;
    while let [n, more @ ..] = rest {
        if !is_abstract(table, *n) && stands_for(alloc, table, above, k, *n, m, wanted)? {
            return Ok(Some(*n));
        }
        rest = more;
    }
    Ok(None)
}

// The one of these methods of a class that stands for m.
fn standing_in(
    alloc: Global,
    table: &Table,
    above: &Supertypes,
    k: ClassId,
    m: MethodId,
    wanted: Option<&MethodView>,
    ids: &[MethodId],
) -> Result<Option<MethodId>, WantOfMemory>
    requires known { IsSupertypes table.now above.now }
    requires own { above.now.of ≡ own_type table.now k }
    requires is { option_copied wanted ≡ class_view table.now k m }
    ensures { IfOk result (λ r. r ≡ standing_in table.now k m ids.now) }
{
    match body_for(alloc, table, above, k, m, wanted, ids)? {
        Some(n) => Ok(Some(n)),
        None => declared_for(alloc, table, above, k, m, wanted, ids),
    }
}

// The method that stands for m in the nearest class that has one, from class `from` upwards.
#[tactic(auto, unfolding(jc_overriding::specs::Overriding::standing_within))]
fn standing_within(
    alloc: Global,
    table: &Table,
    above: &Supertypes,
    steps: usize,
    k: ClassId,
    m: MethodId,
    wanted: Option<&MethodView>,
    from: ClassId,
) -> Result<Option<MethodId>, WantOfMemory>
    requires known { IsSupertypes table.now above.now }
    requires own { above.now.of ≡ own_type table.now k }
    requires is { option_copied wanted ≡ class_view table.now k m }
    ensures { IfOk result (λ r. r ≡ standing_within table.now steps k m from) }
{
    let mut left = steps;
    let mut at = from;
    while left > 0 {
        left -= 1;
        let ids = class_methods(table, at);
        match standing_in(alloc, table, above, k, m, wanted, ids)? {
            Some(n) => return Ok(Some(n)),
            None => match superclass(table, at) {
                None => return Ok(None),
                Some(up) => at = up,
            },
        }
    }
    Ok(None)
}

fn if_body(table: &Table, n: Option<MethodId>) -> Option<MethodId>
    ensures { result ≡ if_body table.now n }
{
    match n {
        None => None,
        Some(n) => { if is_abstract(table, n) { None } else { Some(n) } }
    }
}

/// The body that a class has for a method, where these are the class's supertypes.
pub fn select_in(
    alloc: Global,
    table: &Table,
    above: &Supertypes,
    k: ClassId,
    m: MethodId,
) -> Result<Option<MethodId>, WantOfMemory>
    requires known { IsSupertypes table.now above.now }
    requires own { above.now.of ≡ own_type table.now k }
    ensures { IfOk result (λ r. r ≡ select table.now k m) }
{
    let wanted = method_in(alloc, table, above, m)?;
    let steps = table.classes.slice().len() + 1;
    let standing = standing_within(alloc, table, above, steps, k, m, wanted.as_ref(), k)?;
    Ok(if_body(table, standing))
}

/// The body that a class has for a method that is called on its objects, by overriding alone: none where that is abstract, or nothing stands
/// for the method.
pub fn select(
    alloc: Global,
    table: &Table,
    k: ClassId,
    m: MethodId,
) -> Result<Option<MethodId>, WantOfMemory>
    ensures { IfOk result (λ r. r ≡ select table.now k m) }
{
    let above = own_supertypes(alloc, table, k)?;
    select_in(alloc, table, &above, k, m)
}
