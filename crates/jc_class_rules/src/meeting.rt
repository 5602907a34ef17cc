//! Inherited methods beside one another (JLS 8.4.8.4, 9.4.1): which of them meet, and whether their bodies, access and thrown types agree.
ghost use Rattle.std.specs.Prelude.{◌≡◌, IfOk};
ghost use Rattle.std.specs.List.{list_any};
ghost use Rattle.jc_header_rules.specs.Inheriting.{bodies_meet, disagrees, fits_badly, meets, meets_body, with_body};
ghost use Rattle.jc_class_rules.specs.Grouping.{disagrees_some, meets_badly, meets_with_body};

use jc_members::{
    MethodView, access_of, is_abstract, is_static, override_equivalent, owner, same_class,
};
use jc_method_rules::{is_weaker, thrown_fits};
use jc_rules::WantOfMemory;
use jc_types::{ClassId, Table};
use std::alloc::Global;

pub fn with_body(table: &Table, v: &MethodView) -> bool
    ensures { result ≡ with_body table.now v.now }
{
    !is_abstract(table, v.id)
}

/// Whether two members that a class inherits have override-equivalent signatures.
pub fn meets(
    alloc: Global,
    table: &Table,
    k: ClassId,
    v: &MethodView,
    w: &MethodView,
) -> Result<bool, WantOfMemory>
    ensures { IfOk result (λ r. r ≡ meets table.now k v.now w.now) }
{
    if v.id.0 == w.id.0 {
        return Ok(false);
    }
    if same_class(owner(table, v.id), k) || same_class(owner(table, w.id), k) {
        return Ok(false);
    }
    override_equivalent(alloc, table, v, w)
}

fn bodies_meet(table: &Table, v: &MethodView, w: &MethodView) -> bool
    ensures { result ≡ bodies_meet table.now v.now w.now }
{
    with_body(table, v) && (with_body(table, w) || is_static(table, v.id))
}

// Whether a body doesn't fit the abstract method beside it, for which it stands.
fn fits_badly(
    alloc: Global,
    table: &Table,
    v: &MethodView,
    w: &MethodView,
) -> Result<bool, WantOfMemory>
    ensures { IfOk result (λ r. r ≡ fits_badly table.now v.now w.now) }
{
    if !with_body(table, v) || with_body(table, w) {
        return Ok(false);
    }
    if is_weaker(access_of(table, v.id), access_of(table, w.id)) {
        return Ok(true);
    }
    let fits = thrown_fits(alloc, table, v, w)?;
    Ok(!fits)
}

fn disagrees(
    alloc: Global,
    table: &Table,
    v: &MethodView,
    w: &MethodView,
) -> Result<bool, WantOfMemory>
    ensures { IfOk result (λ r. r ≡ disagrees table.now v.now w.now) }
{
    if bodies_meet(table, v, w) {
        return Ok(true);
    }
    fits_badly(alloc, table, v, w)
}

#[tactic(auto, unfolding(crate::specs::Grouping::meets_badly))]
fn meets_badly(
    alloc: Global,
    table: &Table,
    k: ClassId,
    v: &MethodView,
    w: &MethodView,
) -> Result<bool, WantOfMemory>
    ensures { IfOk result (λ r. r ≡ meets_badly table.now k v.now w.now) }
{
    if !meets(alloc, table, k, v, w)? {
        return Ok(false);
    }
    disagrees(alloc, table, v, w)
}

/// Whether a member meets one of these that it disagrees with.
pub fn disagrees_some(
    alloc: Global,
    table: &Table,
    k: ClassId,
    members: &[MethodView],
    v: &MethodView,
) -> Result<bool, WantOfMemory>
    ensures { IfOk result (λ r. r ≡ disagrees_some table.now k members.now v.now) }
{
    let mut rest = members;
    while let [w, more @ ..] = rest {
        if meets_badly(alloc, table, k, v, w)? {
            return Ok(true);
        }
        rest = more;
    }
    Ok(false)
}

#[tactic(auto, unfolding(crate::specs::Grouping::meets_with_body))]
fn meets_with_body(
    alloc: Global,
    table: &Table,
    k: ClassId,
    v: &MethodView,
    w: &MethodView,
) -> Result<bool, WantOfMemory>
    ensures { IfOk result (λ r. r ≡ meets_with_body table.now k v.now w.now) }
{
    if !meets(alloc, table, k, v, w)? {
        return Ok(false);
    }
    Ok(with_body(table, w))
}

fn meets_some_body(
    alloc: Global,
    table: &Table,
    k: ClassId,
    v: &MethodView,
    members: &[MethodView],
) -> Result<bool, WantOfMemory>
    ensures { IfOk result (λ r. r ≡ list_any (meets_with_body table.now k v.now) members.now) }
{
    let mut rest = members;
    while let [w, more @ ..] = rest {
        if meets_with_body(alloc, table, k, v, w)? {
            return Ok(true);
        }
        rest = more;
    }
    Ok(false)
}

/// Whether a member meets one of these that has a body.
#[tactic(auto, using(crate::proofs::Joined::body_told))]
pub fn meets_body(
    alloc: Global,
    table: &Table,
    k: ClassId,
    v: &MethodView,
    members: &[MethodView],
) -> Result<bool, WantOfMemory>
    ensures { IfOk result (λ r. r ≡ meets_body table.now k v.now members.now) }
{
    meets_some_body(alloc, table, k, v, members)
}
