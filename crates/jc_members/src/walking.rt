//! The supertypes of a class type by their classes, found by one walk upwards.
ghost use Rattle.std.specs.Prelude.{◌≡◌, ◌+◌, ◌∷◌, ℕ, [], true, cond, nat_eq, slice_get, None, Some, IfOk, OnOk};
ghost use Rattle.std.specs.HashMap.{get};
ghost use Rattle.std.specs.HashSet.{contains};
ghost use Rattle.std.specs.Option.{option_copied};
ghost use Rattle.jc_types.specs.declared.form.Ty.{Ty};
ghost use Rattle.jc_judge.specs.Kinds.{class_of};
ghost use Rattle.jc_judge.specs.Supers.{numbered};
ghost use Rattle.jc_judge.specs.Views.{class_supers, erased, supers, view};
ghost use Rattle.jc_sub.specs.Reaching.{super_with};
ghost use Rattle.jc_members.specs.Walking.{SightIs};

use crate::viewing::push_exacts;
use jc_rules::{Items, WantOfMemory};
use jc_sub::class_of;
use jc_types::{
    Arg, ClassId, Table, Ty, arguments, class_supers, class_vars, copy_type, substitute,
};
use std::alloc::Global;
use std::collections::{HashMap, HashSet};

/// A turn on the walk: the class, and the number of its supertype to which the walk went on.
#[derive(Clone, Copy, Debug)]
pub struct Turn {
    pub from: ClassId,
    pub next: usize,
}

/// What stands at a supertype of a class: one that was left, one that is new, no further supertype, or what keeps the walk from telling all:
/// a type of no class, or a class above itself.
#[derive(Clone, Copy, Debug)]
pub enum Sight {
    Left,
    Open(ClassId),
    End,
    Odd,
}

/// The supertypes that a walk came to, by their classes, and whether these are all.
#[derive(Drop)]
pub struct Walk {
    pub views: HashMap<u64, Ty>,
    pub is_whole: bool,
}

// ---- one of the direct supertypes

#[tactic(auto, using(jc_types::proofs::Opened::opened), unfolding(jc_judge::specs::Views::erased))]
fn erased(alloc: Global, t: &Ty) -> Result<Ty, WantOfMemory>
    ensures { IfOk result (λ r. r ≡ erased t.now) }
{
    if let Ty::Class { id, args } = t {
        if !args.is_empty() {
            return Ok(Ty::Raw { id: *id });
        }
    }
    copy_type(alloc, t)
}

fn super_with(
    alloc: Global,
    table: &Table,
    id: ClassId,
    args: Option<&[Arg]>,
    declared: &Ty,
) -> Result<Ty, WantOfMemory>
    ensures { IfOk result (λ r. r ≡ super_with table.now id (option_copied args.entry) declared.now) }
{
    match args {
        None => erased(alloc, declared),
        Some(args) => {
            let mut by = Items::new(alloc);
            push_exacts(alloc, args, &mut by)?;
            let vars = class_vars(table, id);
            if by.len() == vars.len() {
                substitute(alloc, declared, vars, by.slice())
            } else {
                erased(alloc, declared)
            }
        }
    }
}

#[tactic(auto, using(crate::proofs::Reached::super_got, crate::proofs::Reached::super_missed))]
fn super_of_class(
    alloc: Global,
    table: &Table,
    id: ClassId,
    args: Option<&[Arg]>,
    i: usize,
) -> Result<Option<Ty>, WantOfMemory>
    ensures { IfOk result (λ r. r ≡ slice_get (class_supers table.now id (option_copied args.entry)) i) }
{
    match class_supers(table, id).get(i) {
        None => Ok(None),
        Some(declared) => Ok(Some(super_with(alloc, table, id, args, declared)?)),
    }
}

fn copied_at(alloc: Global, types: &[Ty], i: usize) -> Result<Option<Ty>, WantOfMemory>
    ensures { IfOk result (λ r. r ≡ slice_get types.now i) }
{
    match types.get(i) {
        Some(t) => Ok(Some(copy_type(alloc, t)?)),
        None => Ok(None),
    }
}

fn object_at(alloc: Global, i: usize) -> Option<Ty>
    ensures { result ≡ slice_get (Ty.Class (record { 0 = 0 }) [] ∷ []) i }
{
    if i == 0 {
        Some(Ty::Class {
            id: ClassId(0),
            args: Items::new(alloc),
        })
    } else {
        None
    }
}

// One of the direct supertypes (JLS 4.10.2).
#[tactic(auto, using(jc_types::proofs::Opened::opened), unfolding(jc_judge::specs::Views::supers, jc_types::specs::Reifying::arguments))]
fn super_at(alloc: Global, table: &Table, t: &Ty, i: usize) -> Result<Option<Ty>, WantOfMemory>
    ensures { IfOk result (λ r. r ≡ slice_get (supers table.now t.now) i) }
{
    match t {
        Ty::Class { id, .. } => super_of_class(alloc, table, *id, arguments(table, t), i),
        Ty::Raw { id } => super_of_class(alloc, table, *id, arguments(table, t), i),
        Ty::Meet { parts } => copied_at(alloc, parts.slice(), i),
        Ty::Array { .. } => Ok(object_at(alloc, i)),
        Ty::Prim(_) => Ok(None),
        Ty::Variable(_) => Ok(None),
        Ty::Captured(_) => Ok(None),
        Ty::NullTy => Ok(None),
    }
}

// ---- the walk

// The number of the next supertype. No memory holds as many as would overflow.
fn after(i: usize) -> Result<usize, WantOfMemory>
    ensures { IfOk result (λ n. n ≡ i + 1) }
{
    match i.checked_add(1) {
        Some(next) => Ok(next),
        None => Err(WantOfMemory),
    }
}

fn mark(left: &mut HashSet<u64>, class: ClassId) -> Result<(), WantOfMemory>
    ensures { OnOk result ((y : ℕ) → contains nat_eq left.new y ≡ cond (nat_eq class.0 y) true (contains nat_eq left.old y)) }
{
    left.insert(class.0)?;
    Ok(())
}

fn put_view(views: &mut HashMap<u64, Ty>, class: ClassId, v: Ty) -> Result<(), WantOfMemory>
    ensures { OnOk result ((l : ℕ) → get nat_eq views.new l ≡ cond (nat_eq class.0 l) (Some v) (get nat_eq views.old l)) }
{
    views.insert(class.0, v)?;
    Ok(())
}

fn seen_at(
    table: &Table,
    views: &HashMap<u64, Ty>,
    left: &HashSet<u64>,
    at: ClassId,
    next: usize,
) -> Sight
    ensures { SightIs table.now (λ y. get nat_eq views.now y) (λ y. contains nat_eq left.now y) at.0 next result }
{
    match class_supers(table, at).get(next) {
        None => Sight::End,
        Some(t) => match class_of(t) {
            None => Sight::Odd,
            Some(up) => {
                if left.contains(&up.0) {
                    Sight::Left
                } else if views.contains_key(&up.0) {
                    Sight::Odd
                } else {
                    Sight::Open(up)
                }
            }
        },
    }
}

// The supertype of the view as a class, where there is that.
fn super_of_view(
    alloc: Global,
    table: &Table,
    views: &HashMap<u64, Ty>,
    at: ClassId,
    next: usize,
) -> Result<Option<Ty>, WantOfMemory>
    ensures { IfOk result (λ r. (t : Ty) → get nat_eq views.now at.0 ≡ Some t → r ≡ slice_get (supers table.now t) next) }
{
    match views.get(&at.0) {
        None => Ok(None),
        Some(t) => super_at(alloc, table, t, next),
    }
}

// Notes a supertype of the view as a class.
fn note_up(
    alloc: Global,
    table: &Table,
    views: &mut HashMap<u64, Ty>,
    at: ClassId,
    next: usize,
    up: ClassId,
) -> Result<(), WantOfMemory>
    ensures { OnOk result ((t u : Ty) → get nat_eq views.old at.0 ≡ Some t → slice_get (supers table.now t) next ≡ Some u
        → (l : ℕ) → get nat_eq views.new l ≡ cond (nat_eq up.0 l) (Some u) (get nat_eq views.old l)) }
{
    match super_of_view(alloc, table, views, at, next)? {
        None => Ok(()),
        Some(u) => put_view(views, up, u),
    }
}

fn first_view(alloc: Global, from: ClassId, t: &Ty) -> Result<HashMap<u64, Ty>, WantOfMemory>
    ensures { IfOk result (λ views. (l : ℕ) → get nat_eq views l ≡ cond (nat_eq from.0 l) (Some t.now) None) }
{
    let mut views = HashMap::new(alloc);
    put_view(&mut views, from, copy_type(alloc, t)?)?;
    Ok(views)
}

/// The views of a type of a class. Each class above is passed once, by the first way to it.
pub fn views_above(
    alloc: Global,
    table: &Table,
    from: ClassId,
    t: &Ty,
) -> Result<Walk, WantOfMemory>
    requires class { class_of t.now ≡ Some from }
    ensures kept { IfOk result (λ w. (l : ℕ) (v : Ty) → get nat_eq w.views l ≡ Some v → view table.now (numbered l) t.now ≡ Some v) }
    ensures whole { IfOk result (λ w. w.is_whole ≡ true → (l : ℕ) → get nat_eq w.views l ≡ None → view table.now (numbered l) t.now ≡ None) }
{
    let mut views = first_view(alloc, from, t)?;
    let mut left: HashSet<u64> = HashSet::new(alloc);
    let mut turns = Items::new(alloc);
    let most = table.classes.len();
    let mut at = from;
    let mut next: usize = 0;
    for _turn in 0..u64::MAX {
        match seen_at(table, &views, &left, at, next) {
            Sight::Left => next = after(next)?,
            Sight::Open(up) => {
                if turns.len() >= most {
                    break;
                }
                note_up(alloc, table, &mut views, at, next, up)?;
                turns.push(Turn { from: at, next })?;
                at = up;
                next = 0;
            }
            Sight::End => {
                mark(&mut left, at)?;
                match turns.pop() {
                    None => {
                        return Ok(Walk {
                            views,
                            is_whole: true,
                        });
                    }
                    Some(turn) => {
                        at = turn.from;
                        next = after(turn.next)?;
                    }
                }
            }
            Sight::Odd => break,
        }
    }
    Ok(Walk {
        views,
        is_whole: false,
    })
}
