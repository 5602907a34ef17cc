//! The constructors of a class as a creation has them (JLS 15.9.3), and whether a class may be created (JLS 15.9.1).
ghost use Rattle.std.specs.Prelude.{◌≡◌, ◌++◌, IfOk, map};
ghost use Rattle.jc_types.specs.declared.form.Ty.{out-Ty};
ghost use Rattle.jc_types.specs.Accessors.{class_modifiers_of};
ghost use Rattle.jc_judge.specs.Kinds.{class_of};
ghost use Rattle.jc_judge.specs.Meeting.{are_exact, is_exact_at};
ghost use Rattle.jc_types.specs.declared.form.Arg.{out-Arg};
ghost use Rattle.jc_resolve_sites.specs.Constructors.{diamond_view};
ghost use Rattle.jc_exprs_nodes_spec.specs.Told.{unless};
ghost use Rattle.jc_exprs_nodes.specs.Walks.{as_breaks};
ghost use Rattle.jc_exprs_spec.specs.Creations.{abstract_in, constructors, has_wildcard_at, is_abstract_class, is_creatable, is_generic, is_raw_type, or_object, views_of};
ghost use Rattle.jc_exprs_choosing.specs.Choosing.{diamond_breaks};

use jc_exprs_nodes::refusal;
use jc_members::{MethodView, view_of_method};
use jc_resolve_sites::{constructor_ids, diamond_view};
use jc_rules::{Items, Place, Refusal, WantOfMemory};
use jc_sub::class_of;
use jc_types::{Arg, ClassId, MethodId, Table, Ty, class_modifiers, class_vars, is_interface};
use std::alloc::Global;

// Whether a class has the modifier `abstract`; what is no class can't be created either.
fn has_abstract(table: &Table, class: ClassId) -> bool
    ensures { result ≡ abstract_in (class_modifiers_of table.now class) }
{
    match class_modifiers(table, class) {
        Some(modifiers) => modifiers.is_abstract,
        None => true,
    }
}

fn is_abstract_class(table: &Table, class: Option<ClassId>) -> bool
    ensures { result ≡ is_abstract_class table.now class }
{
    match class {
        None => true,
        Some(class) => is_interface(table, class) || has_abstract(table, class),
    }
}

#[tactic(auto, using(jc_types::proofs::Opened::opened))]
fn is_exact(arg: &Arg) -> bool
    ensures { result ≡ is_exact_at (out-Arg arg.now) }
{
    match arg {
        Arg::Exact(_) => true,
        _ => false,
    }
}

// Whether no argument is a wildcard.
fn are_exact(args: &[Arg]) -> bool
    ensures { result ≡ are_exact args.now }
{
    let mut rest = args;
    while let [arg, more @ ..] = rest {
        if !is_exact(arg) {
            return false;
        }
        rest = more;
    }
    true
}

#[tactic(auto, using(jc_types::proofs::Opened::opened))]
fn has_wildcard(ty: &Ty) -> bool
    ensures { result ≡ has_wildcard_at (out-Ty ty.now) }
{
    match ty {
        Ty::Class { args, .. } => !are_exact(args.slice()),
        _ => false,
    }
}

fn is_creatable(table: &Table, ty: &Ty) -> bool
    ensures { result ≡ is_creatable table.now ty.now }
{
    !is_abstract_class(table, class_of(ty)) && !has_wildcard(ty)
}

/// 613 where a type has no objects.
pub fn no_objects(table: &Table, place: Place, ty: &Ty) -> Option<Refusal>
    ensures { as_breaks result ≡ unless (is_creatable table.now ty.now) 613 place }
{
    if is_creatable(table, ty) {
        return None;
    }
    Some(refusal(613, place))
}

fn is_generic(table: &Table, class: Option<ClassId>) -> bool
    ensures { result ≡ is_generic table.now class }
{
    match class {
        None => false,
        Some(class) => match class_vars(table, class) {
            [] => false,
            [_, ..] => true,
        },
    }
}

/// 623 where a diamond stands behind a class without type parameters.
pub fn no_parameters(table: &Table, place: Place, ty: &Ty, diamond: bool) -> Option<Refusal>
    ensures { as_breaks result ≡ diamond_breaks table.now place ty.now diamond }
{
    if !diamond || is_generic(table, class_of(ty)) {
        return None;
    }
    Some(refusal(623, place))
}

/// The class of a class type, and Object of another type, which has no objects.
pub fn class_or_object(ty: &Ty) -> ClassId
    ensures { result ≡ or_object (class_of ty.now) }
{
    match class_of(ty) {
        Some(class) => class,
        None => ClassId(0),
    }
}

// These constructors as a type has them.
#[tactic(auto, using(jc_exprs_nodes::proofs::Appending::appended))]
fn views_of(
    alloc: Global,
    table: &Table,
    ty: &Ty,
    ids: &[MethodId],
) -> Result<Items<MethodView>, WantOfMemory>
    ensures { IfOk result (λ r. r ≡ views_of table.now ty.now ids.now) }
{
    let mut views = Items::new(alloc);
    let mut rest = ids;
    while let [id, more @ ..] = rest {
        if let Some(view) = view_of_method(alloc, table, ty, *id)? {
            views.push(view)?;
        }
        rest = more;
    }
    Ok(views)
}

// The generic methods that stand for these constructors behind a diamond.
#[tactic(auto, using(jc_exprs_nodes::proofs::Appending::appended))]
fn diamond_views(
    alloc: Global,
    table: &Table,
    class: ClassId,
    ids: &[MethodId],
) -> Result<Items<MethodView>, WantOfMemory>
    ensures { IfOk result (λ r. r ≡ map (diamond_view table.now class) ids.now) }
{
    let mut views = Items::new(alloc);
    let mut rest = ids;
    while let [id, more @ ..] = rest {
        views.push(diamond_view(alloc, table, class, *id)?)?;
        rest = more;
    }
    Ok(views)
}

/// The constructors of the class of a type, as the type has them, or as a creation with a diamond does.
pub fn constructors(
    alloc: Global,
    table: &Table,
    ty: &Ty,
    diamond: bool,
) -> Result<Items<MethodView>, WantOfMemory>
    ensures { IfOk result (λ r. r ≡ constructors table.now ty.now diamond) }
{
    let class = class_or_object(ty);
    let ids = constructor_ids(alloc, table, class)?;
    if diamond {
        return diamond_views(alloc, table, class, ids.slice());
    }
    views_of(alloc, table, ty, ids.slice())
}

/// Whether a type is raw.
#[tactic(auto, using(jc_types::proofs::Opened::opened))]
pub fn is_raw_type(ty: &Ty) -> bool
    ensures { result ≡ is_raw_type ty.now }
{
    match ty {
        Ty::Raw { .. } => true,
        _ => false,
    }
}
