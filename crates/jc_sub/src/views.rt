//! The supertype of a type that has a class (JLS 4.10.2).
ghost use Rattle.std.specs.Prelude.{◌≡◌, ◌+◌, ◌++◌, ◌∷◌, [], map, slice_get, Some, IfOk, OnOk};
ghost use Rattle.std.specs.Option.{option_copied};
ghost use Rattle.jc_types.specs.Accessors.{class_count};
ghost use Rattle.jc_judge.specs.Kinds.{class_of};
ghost use Rattle.jc_sub.specs.Reaching.{WayIs, follow, super_with};
ghost use Rattle.jc_judge.specs.Views.{view, view_within, first_of, is_class, supers, erased, exact_at, exacts, class_supers};
ghost use Rattle.jc_types.specs.declared.form.Arg.{out-Arg};

use crate::kinds::class_of;
use crate::passing::{passed_to, renamed};
use crate::reaching::{Turn, Way, way_to};
use jc_rules::{Items, WantOfMemory};
use jc_types::{
    Arg, ClassId, Table, Ty, arguments, class_supers, class_vars, copy_type, copy_types, is_row,
    substitute, substitute_all,
};
use std::alloc::Global;

/// The view of a type as class `k`: its supertype of that class, if there is one (JLS 4.10.2). That of an intersection is that
/// of its first part with one, and an array has one as `Object` alone. A type is to be captured first, since one with wildcards
/// counts as raw here.
#[tactic(auto, unfolding(jc_judge::specs::Views::view))]
pub fn view(alloc: Global, table: &Table, k: ClassId, t: &Ty) -> Result<Option<Ty>, WantOfMemory>
    ensures { IfOk result (λ r. r ≡ view table.now k t.now) }
{
    view_within(alloc, table, view_steps(table), k, t)
}

// The steps that are enough for each view.
fn view_steps(table: &Table) -> usize
    ensures { result ≡ class_count table.now + 1 }
{
    table.classes.slice().len() + 1
}

/// The view as class `k` of a type of class `from`, by the way that `way_to` found.
#[tactic(auto, unfolding(jc_judge::specs::Views::view))]
pub fn view_by(
    alloc: Global,
    table: &Table,
    way: Way,
    k: ClassId,
    from: ClassId,
    t: &Ty,
) -> Result<Option<Ty>, WantOfMemory>
    requires way { WayIs table.now k from.0 way }
    requires class { class_of t.now ≡ Some from }
    ensures { IfOk result (λ r. r ≡ view table.now k t.now) }
{
    view_along(alloc, table, way, view_steps(table), k, from, t)
}

// The view, in at most this many steps.
#[cycle(view)]
fn view_within(
    alloc: Global,
    table: &Table,
    steps: usize,
    k: ClassId,
    t: &Ty,
) -> Result<Option<Ty>, WantOfMemory>
    ensures { IfOk result (λ r. r ≡ view_within table.now steps k t.now) }
{
    match class_of(t) {
        None => view_up(alloc, table, steps, k, t),
        Some(from) => {
            let way = way_to(alloc, table, k, from)?;
            view_along(alloc, table, way, steps, k, from, t)
        }
    }
}

#[cycle(view)]
fn view_along(
    alloc: Global,
    table: &Table,
    way: Way,
    steps: usize,
    k: ClassId,
    from: ClassId,
    t: &Ty,
) -> Result<Option<Ty>, WantOfMemory>
    requires way { WayIs table.now k from.0 way }
    requires class { class_of t.now ≡ Some from }
    ensures { IfOk result (λ r. r ≡ view_within table.now steps k t.now) }
{
    match way {
        Way::Missing => Ok(None),
        Way::Found(turns) => {
            if turns.len() < steps {
                return follow(alloc, table, turns.slice(), t);
            }
            view_up(alloc, table, steps, k, t)
        }
        Way::Unknown => view_up(alloc, table, steps, k, t),
    }
}

// The view, asked of each direct supertype in turn.
#[cycle(view)]
fn view_up(
    alloc: Global,
    table: &Table,
    steps: usize,
    k: ClassId,
    t: &Ty,
) -> Result<Option<Ty>, WantOfMemory>
    ensures { IfOk result (λ r. r ≡ view_within table.now steps k t.now) }
{
    if steps == 0 {
        return Ok(None);
    }
    if is_of_class(t, k) {
        return Ok(Some(copy_type(alloc, t)?));
    }
    let types = supers(alloc, table, t)?;
    first_view(alloc, table, steps - 1, k, types.slice())
}

#[cycle(view)]
fn first_view(
    alloc: Global,
    table: &Table,
    steps: usize,
    k: ClassId,
    types: &[Ty],
) -> Result<Option<Ty>, WantOfMemory>
    ensures { IfOk result (λ r. r ≡ first_of (view_within table.now steps k) types.now) }
{
    let mut rest = types;
    while let [t, more @ ..] = rest {
        if let Some(v) = view_within(alloc, table, steps, k, t)? {
            return Ok(Some(v));
        }
        rest = more;
    }
    Ok(None)
}

// The type to which turns lead.
fn follow(alloc: Global, table: &Table, turns: &[Turn], t: &Ty) -> Result<Option<Ty>, WantOfMemory>
    ensures { IfOk result (λ r. r ≡ follow table.now turns.now t.now) }
{
    let mut at = copy_type(alloc, t)?;
    let mut rest = turns;
    while let [turn, more @ ..] = rest {
        match step(alloc, table, at, turn.next)? {
            None => return Ok(None),
            Some(up) => at = up,
        }
        rest = more;
    }
    Ok(Some(at))
}

// One of the direct supertypes, to which the arguments go over where it has the type's own.
fn step(alloc: Global, table: &Table, t: Ty, i: usize) -> Result<Option<Ty>, WantOfMemory>
    ensures { IfOk result (λ r. r ≡ slice_get (supers table.now t) i) }
{
    match passed_to(table, &t, i) {
        Some(k) => Ok(Some(renamed(t, k))),
        None => super_at(alloc, table, &t, i),
    }
}

// One of the direct supertypes.
#[tactic(auto, using(jc_types::proofs::Opened::opened), unfolding(jc_judge::specs::Views::supers, jc_types::specs::Reifying::arguments))]
fn super_at(alloc: Global, table: &Table, t: &Ty, i: usize) -> Result<Option<Ty>, WantOfMemory>
    ensures { IfOk result (λ r. r ≡ slice_get (supers table.now t.now) i) }
{
    match t {
        Ty::Class { id, .. } => super_of_class(alloc, table, *id, arguments(table, t), i),
        Ty::Raw { id } => super_of_class(alloc, table, *id, arguments(table, t), i),
        Ty::Meet { parts } => copied_at(alloc, parts.slice(), i),
        Ty::Array { .. } => Ok(object_at(alloc, i)),
        Ty::Prim(_) => Ok(None),
        Ty::Variable(_) => Ok(None),
        Ty::Captured(_) => Ok(None),
        Ty::NullTy => Ok(None),
    }
}

fn copied_at(alloc: Global, types: &[Ty], i: usize) -> Result<Option<Ty>, WantOfMemory>
    ensures { IfOk result (λ r. r ≡ slice_get types.now i) }
{
    match types.get(i) {
        Some(t) => Ok(Some(copy_type(alloc, t)?)),
        None => Ok(None),
    }
}

fn object_at(alloc: Global, i: usize) -> Option<Ty>
    ensures { result ≡ slice_get (Ty.Class (record { 0 = 0 }) [] ∷ []) i }
{
    if i == 0 { Some(object(alloc)) } else { None }
}

fn object(alloc: Global) -> Ty
    ensures { result ≡ Ty.Class (record { 0 = 0 }) [] }
{
    Ty::Class {
        id: ClassId(0),
        args: Items::new(alloc),
    }
}

#[tactic(auto, using(crate::proofs::Ups::super_got))]
fn super_of_class(
    alloc: Global,
    table: &Table,
    id: ClassId,
    args: Option<&[Arg]>,
    i: usize,
) -> Result<Option<Ty>, WantOfMemory>
    ensures { IfOk result (λ r. r ≡ slice_get (class_supers table.now id (option_copied args.entry)) i) }
{
    match class_supers(table, id).get(i) {
        None => Ok(None),
        Some(declared) => Ok(Some(super_with(alloc, table, id, args, declared)?)),
    }
}

fn super_with(
    alloc: Global,
    table: &Table,
    id: ClassId,
    args: Option<&[Arg]>,
    declared: &Ty,
) -> Result<Ty, WantOfMemory>
    ensures { IfOk result (λ r. r ≡ super_with table.now id (option_copied args.entry) declared.now) }
{
    match args {
        None => erased(alloc, declared),
        Some(args) => {
            let mut by = Items::new(alloc);
            push_exacts(alloc, args, &mut by)?;
            let vars = class_vars(table, id);
            if by.len() == vars.len() {
                substitute(alloc, declared, vars, by.slice())
            } else {
                erased(alloc, declared)
            }
        }
    }
}

fn is_of_class(t: &Ty, k: ClassId) -> bool
    ensures { result ≡ is_class k (class_of t.now) }
{
    match class_of(t) {
        None => false,
        Some(id) => id.0 == k.0,
    }
}

// The direct supertypes of a captured type.
#[tactic(auto, using(jc_types::proofs::Opened::opened), unfolding(jc_judge::specs::Views::supers, jc_types::specs::Reifying::arguments))]
fn supers(alloc: Global, table: &Table, t: &Ty) -> Result<Items<Ty>, WantOfMemory>
    ensures { IfOk result (λ r. r ≡ supers table.now t.now) }
{
    match t {
        Ty::Class { id, .. } => supers_of_class(alloc, table, *id, arguments(table, t)),
        Ty::Raw { id } => supers_of_class(alloc, table, *id, arguments(table, t)),
        Ty::Meet { parts } => copy_types(alloc, parts.slice()),
        Ty::Array { .. } => only_object(alloc),
        _ => Ok(Items::new(alloc)),
    }
}

fn only_object(alloc: Global) -> Result<Items<Ty>, WantOfMemory>
    ensures { IfOk result (λ r. r ≡ Ty.Class (record { 0 = 0 }) [] ∷ []) }
{
    let mut out = Items::new(alloc);
    out.push(object(alloc))?;
    Ok(out)
}

fn supers_of_class(
    alloc: Global,
    table: &Table,
    id: ClassId,
    args: Option<&[Arg]>,
) -> Result<Items<Ty>, WantOfMemory>
    ensures { IfOk result (λ r. r ≡ class_supers table.now id (option_copied args.entry)) }
{
    match args {
        None => all_erased(alloc, class_supers(table, id)),
        Some(args) => supers_with(alloc, table, id, args),
    }
}

fn supers_with(
    alloc: Global,
    table: &Table,
    id: ClassId,
    args: &[Arg],
) -> Result<Items<Ty>, WantOfMemory>
    ensures { IfOk result (λ r. r ≡ class_supers table.now id (Some args.now)) }
{
    let mut by = Items::new(alloc);
    push_exacts(alloc, args, &mut by)?;
    let vars = class_vars(table, id);
    if by.len() == vars.len() {
        substitute_all(
            alloc,
            class_supers(table, id),
            vars,
            by.slice(),
            is_row(vars),
        )
    } else {
        all_erased(alloc, class_supers(table, id))
    }
}

fn all_erased(alloc: Global, types: &[Ty]) -> Result<Items<Ty>, WantOfMemory>
    ensures { IfOk result (λ r. r ≡ map erased types.now) }
{
    let mut out = Items::new(alloc);
    for i in 0..types.len() {
        let t = erased(alloc, &types[i])?;
        out.push(t)?;
    }
    Ok(out)
}

#[tactic(auto, using(jc_types::proofs::Opened::opened), unfolding(jc_judge::specs::Views::erased))]
fn erased(alloc: Global, t: &Ty) -> Result<Ty, WantOfMemory>
    ensures { IfOk result (λ r. r ≡ erased t.now) }
{
    if let Ty::Class { id, args } = t {
        if !args.is_empty() {
            return Ok(Ty::Raw { id: *id });
        }
    }
    copy_type(alloc, t)
}

fn push_exacts(alloc: Global, args: &[Arg], out: &mut Items<Ty>) -> Result<(), WantOfMemory>
    ensures { OnOk result (out.new ≡ out.old ++ exacts args.now) }
{
    let mut rest = args;
    while let [arg, more @ ..] = rest {
        push_exact(alloc, arg, out)?;
        rest = more;
    }
    Ok(())
}

#[tactic(auto, using(jc_types::proofs::Opened::opened))]
fn push_exact(alloc: Global, arg: &Arg, out: &mut Items<Ty>) -> Result<(), WantOfMemory>
    ensures { OnOk result (out.new ≡ out.old ++ exact_at (out-Arg arg.now)) }
{
    match arg {
        Arg::Exact(t) => {
            let t = copy_type(alloc, t)?;
            out.push(t)
        }
        _ => Ok(()),
    }
}
