//! The members of a type by their names (JLS 8.2, 8.4.8, 9.2, 9.4).
ghost use Rattle.std.specs.Prelude.{◌≡◌, ◌++◌, ◌||◌, IfOk, OnOk};
ghost use Rattle.jc_judge.specs.Views.{view};
ghost use Rattle.jc_judge.specs.Kinds.{class_of};
ghost use Rattle.jc_overriding.specs.Overriding.{inherits_in, is_candidate, is_own, members, owner};
ghost use Rattle.std.specs.Option.{option_copied};
ghost use Rattle.jc_overriding.specs.Viewing.{class_view, own_type};
ghost use Rattle.jc_members.specs.Listing.{candidate_ids, has_method, if_candidate, kept_by, marked_by, marked_by_all, remaining_ids, unmarked, views_of};
ghost use Rattle.jc_members.specs.Named.{IsMethodIndex};
ghost use Rattle.jc_members.specs.Supertypes.{IsSupertypes};

use crate::kinds::{access_of, is_inheritable, is_method, is_open_to, owner};
use crate::named::MethodIndex;
use crate::overriding::replaces;
use crate::supertypes::{Supertypes, has_view, method_in, own_supertypes, supertypes_of};
use jc_overriding::MethodView;
use jc_rules::{Items, Text, WantOfMemory};
use jc_sub::{class_of, view};
use jc_types::{ClassId, MethodId, Table, Ty, copy_type, method_owner};
use std::alloc::Global;

/// The supertype of a captured type that is of this class, if there is one (JLS 4.10.2).
pub fn as_super(
    alloc: Global,
    table: &Table,
    ty: &Ty,
    class: ClassId,
) -> Result<Option<Ty>, WantOfMemory>
    ensures { IfOk result (λ r. r ≡ view table.now class ty.now) }
{
    view(alloc, table, class, ty)
}

fn is_own(table: &Table, t: &Ty, m: MethodId) -> bool
    ensures { result ≡ is_own table.now t.now m }
{
    match class_of(t) {
        None => false,
        Some(k) => k.0 == owner(table, m).0,
    }
}

fn is_inherited(table: &Table, t: &Ty, m: MethodId) -> bool
    ensures { result ≡ inherits_in table.now (class_of t.now) m }
{
    match class_of(t) {
        None => is_open_to(access_of(table, m), true),
        Some(k) => is_inheritable(table, k, m),
    }
}

// Whether a type declares a method, or may inherit it.
fn is_candidate(table: &Table, t: &Ty, m: MethodId) -> bool
    ensures { result ≡ is_candidate table.now t.now m }
{
    is_method(table, m) && (is_own(table, t, m) || is_inherited(table, t, m))
}

// Whether a type has a view as the class of a method.
fn has_method(
    alloc: Global,
    table: &Table,
    above: &Supertypes,
    m: MethodId,
) -> Result<bool, WantOfMemory>
    requires { IsSupertypes table.now above.now }
    ensures { IfOk result (λ r. r ≡ has_method table.now above.now.of m) }
{
    match method_owner(table, m) {
        None => Ok(false),
        Some(k) => has_view(alloc, table, above, k),
    }
}

fn push_candidate(
    alloc: Global,
    table: &Table,
    above: &Supertypes,
    m: MethodId,
    out: &mut Items<MethodId>,
) -> Result<(), WantOfMemory>
    requires { IsSupertypes table.now above.now }
    ensures { OnOk result (out.new ≡ out.old ++ if_candidate table.now above.now.of m) }
{
    if !is_candidate(table, &above.of, m) {
        return Ok(());
    }
    if !has_method(alloc, table, above, m)? {
        return Ok(());
    }
    out.push(m)
}

/// Of these methods those that the type declares or may inherit.
pub fn candidate_ids(
    alloc: Global,
    table: &Table,
    above: &Supertypes,
    ids: &[MethodId],
) -> Result<Items<MethodId>, WantOfMemory>
    requires { IsSupertypes table.now above.now }
    ensures { IfOk result (λ r. r ≡ candidate_ids table.now above.now.of ids.now) }
{
    let mut out = Items::new(alloc);
    let mut rest = ids;
    while let [m, more @ ..] = rest {
        push_candidate(alloc, table, above, *m, &mut out)?;
        rest = more;
    }
    Ok(out)
}

// Marks besides those of `marks` the methods that method w overrides or hides, where the supertypes are those of its class, and `a` is w as
// its class has it.
fn marked_in(
    alloc: Global,
    table: &Table,
    above: &Supertypes,
    a: Option<&MethodView>,
    w: MethodId,
    ids: &[MethodId],
    marks: &[bool],
) -> Result<Items<bool>, WantOfMemory>
    requires known { IsSupertypes table.now above.now }
    requires own { above.now.of ≡ own_type table.now (owner table.now w) }
    requires is { option_copied a ≡ class_view table.now (owner table.now w) w }
    ensures { IfOk result (λ r. r ≡ marked_by table.now w ids.now marks.now) }
{
    let mut out = Items::new(alloc);
    let mut rest = ids;
    let mut left = marks;
    while let [m, more @ ..] = rest {
        match left {
            [] => return Ok(out),
            [mark, others @ ..] => {
                let is_marked = *mark || replaces(alloc, table, above, a, w, *m)?;
                out.push(is_marked)?;
                left = others;
            }
        }
        rest = more;
    }
    Ok(out)
}

fn marked_by(
    alloc: Global,
    table: &Table,
    w: MethodId,
    ids: &[MethodId],
    marks: &[bool],
) -> Result<Items<bool>, WantOfMemory>
    ensures { IfOk result (λ r. r ≡ marked_by table.now w ids.now marks.now) }
{
    let above = own_supertypes(alloc, table, owner(table, w))?;
    let a = method_in(alloc, table, &above, w)?;
    marked_in(alloc, table, &above, a.as_ref(), w, ids, marks)
}

fn no_marks(alloc: Global, ids: &[MethodId]) -> Result<Items<bool>, WantOfMemory>
    ensures { IfOk result (λ r. r ≡ unmarked ids.now) }
{
    let mut marks = Items::new(alloc);
    let mut rest = ids;
    while let [_, more @ ..] = rest {
        marks.push(false)?;
        rest = more;
    }
    Ok(marks)
}

// Marks the methods that one of them overrides or hides.
fn all_marked(alloc: Global, table: &Table, ids: &[MethodId]) -> Result<Items<bool>, WantOfMemory>
    ensures { IfOk result (λ r. r ≡ marked_by_all table.now ids.now ids.now (unmarked ids.now)) }
{
    let mut marks = no_marks(alloc, ids)?;
    let mut rest = ids;
    while let [w, more @ ..] = rest {
        marks = marked_by(alloc, table, *w, ids, marks.slice())?;
        rest = more;
    }
    Ok(marks)
}

// Those that aren't marked.
fn kept_by(alloc: Global, ids: &[MethodId], marks: &[bool]) -> Result<Items<MethodId>, WantOfMemory>
    ensures { IfOk result (λ r. r ≡ kept_by ids.now marks.now) }
{
    let mut out = Items::new(alloc);
    let mut rest = ids;
    let mut left = marks;
    while let [m, more @ ..] = rest {
        match left {
            [] => return Ok(out),
            [mark, others @ ..] => {
                if !*mark {
                    out.push(*m)?;
                }
                left = others;
            }
        }
        rest = more;
    }
    Ok(out)
}

/// Of these methods those that no other one of them overrides or hides.
#[tactic(auto, using(crate::proofs::Remaining::remaining_laws))]
pub fn remaining_ids(
    alloc: Global,
    table: &Table,
    ids: &[MethodId],
) -> Result<Items<MethodId>, WantOfMemory>
    ensures { IfOk result (λ r. r ≡ remaining_ids table.now ids.now) }
{
    let marks = all_marked(alloc, table, ids)?;
    kept_by(alloc, ids, marks.slice())
}

/// These methods as the type has them.
pub fn views_of(
    alloc: Global,
    table: &Table,
    above: &Supertypes,
    ids: &[MethodId],
) -> Result<Items<MethodView>, WantOfMemory>
    requires { IsSupertypes table.now above.now }
    ensures { IfOk result (λ r. r ≡ views_of table.now above.now.of ids.now) }
{
    let mut out = Items::new(alloc);
    let mut rest = ids;
    while let [m, more @ ..] = rest {
        if let Some(v) = method_in(alloc, table, above, *m)? {
            out.push(v)?;
        }
        rest = more;
    }
    Ok(out)
}

/// The methods of a name that a captured type has, in the order of the table, without those that another one of them overrides or hides.
#[tactic(auto, using(crate::proofs::Remaining::members_told))]
pub fn members(
    alloc: Global,
    table: &Table,
    index: &MethodIndex,
    ty: &Ty,
    name: &Text,
) -> Result<Items<MethodView>, WantOfMemory>
    requires { IsMethodIndex table.now index.now }
    ensures { IfOk result (λ r. r ≡ members table.now ty.now name.now) }
{
    let above = supertypes_of(alloc, table, copy_type(alloc, ty)?)?;
    let ids = candidate_ids(alloc, table, &above, index.named(name.str()))?;
    let ids = remaining_ids(alloc, table, ids.slice())?;
    views_of(alloc, table, &above, ids.slice())
}
