//! Intersections of types (JLS 4.9).
ghost use Rattle.std.specs.Prelude.{◌≡◌, ◌++◌, ◌∷◌, [], filter, not, if◌then◌else◌, IfOk, OnOk};
ghost use Rattle.jc_types.specs.declared.form.Ty.{out-Ty};
ghost use Rattle.jc_types.specs.declared.form.Arg.{out-Arg};
ghost use Rattle.jc_judge.specs.Kinds.{is_object, class_of};
ghost use Rattle.jc_judge.specs.Views.{view};
ghost use Rattle.jc_judge.specs.Meeting.{as_one, parts_at, flattened, is_listed, distinct, is_exact_at, are_exact, is_plain_at, covers, is_covered, without_object, uncovered, glb_parts, clash, clashes, classes_meet};

use crate::kinds::{class_of, is_object};
use crate::views::view;
use jc_rules::{Items, WantOfMemory};
use jc_types::{Arg, ClassId, Table, Ty, copy_type, copy_types, is_interface, same_type};
use std::alloc::Global;

/// Several types as one: an intersection where there are two or more, and `Object` where there is none.
pub fn as_one(alloc: Global, types: Items<Ty>) -> Ty
    ensures { result ≡ as_one types }
{
    let mut types = types;
    if 1 < types.len() {
        return Ty::Meet { parts: types };
    }
    match types.pop() {
        Some(t) => t,
        None => Ty::Class {
            id: ClassId(0),
            args: Items::new(alloc),
        },
    }
}

/// The parts of the greatest lower bound of types (JLS 5.1.10): intersections by their parts, of equal types the first, without
/// `Object` beside others, and without each that is the view of another one.
#[tactic(auto, unfolding(jc_judge::specs::Meeting::glb_parts))]
pub fn glb_parts(alloc: Global, table: &Table, types: &[Ty]) -> Result<Items<Ty>, WantOfMemory>
    ensures { IfOk result (λ r. r ≡ glb_parts table.now types.now) }
{
    let mut flat = Items::new(alloc);
    push_flat(alloc, types, &mut flat)?;
    let mut kept = Items::new(alloc);
    push_distinct(alloc, flat.slice(), &mut kept)?;
    let kept = without_object(alloc, kept)?;
    let mut out = Items::new(alloc);
    push_uncovered(alloc, table, kept.slice(), kept.slice(), &mut out)?;
    Ok(out)
}

fn push_flat(alloc: Global, types: &[Ty], out: &mut Items<Ty>) -> Result<(), WantOfMemory>
    ensures { OnOk result (out.new ≡ out.old ++ flattened types.now) }
{
    let mut rest = types;
    while let [t, more @ ..] = rest {
        let parts = parts_of(alloc, t)?;
        out.append(parts)?;
        rest = more;
    }
    Ok(())
}

/// A type, or the parts of an intersection.
#[tactic(auto, using(jc_types::proofs::Opened::opened))]
pub fn parts_of(alloc: Global, t: &Ty) -> Result<Items<Ty>, WantOfMemory>
    ensures { IfOk result (λ r. r ≡ parts_at t.now (out-Ty t.now)) }
{
    match t {
        Ty::Meet { parts } => copy_types(alloc, parts.slice()),
        _ => {
            let mut out = Items::new(alloc);
            let t = copy_type(alloc, t)?;
            out.push(t)?;
            Ok(out)
        }
    }
}

fn is_listed(t: &Ty, types: &[Ty]) -> bool
    ensures { result ≡ is_listed t.now types.now }
{
    let mut rest = types;
    while let [u, more @ ..] = rest {
        if same_type(t, u) {
            return true;
        }
        rest = more;
    }
    false
}

fn push_distinct(alloc: Global, types: &[Ty], out: &mut Items<Ty>) -> Result<(), WantOfMemory>
    ensures { OnOk result (out.new ≡ distinct out.old types.now) }
{
    let mut rest = types;
    while let [t, more @ ..] = rest {
        push_unlisted(alloc, t, out)?;
        rest = more;
    }
    Ok(())
}

fn push_unlisted(alloc: Global, t: &Ty, out: &mut Items<Ty>) -> Result<(), WantOfMemory>
    ensures { OnOk result (out.new ≡ (if is_listed t.now out.old then out.old else out.old ++ t.now ∷ [])) }
{
    if is_listed(t, out.slice()) {
        return Ok(());
    }
    let t = copy_type(alloc, t)?;
    out.push(t)
}

fn without_object(alloc: Global, types: Items<Ty>) -> Result<Items<Ty>, WantOfMemory>
    ensures { IfOk result (λ r. r ≡ without_object types) }
{
    if 1 < types.len() {
        let mut out = Items::new(alloc);
        push_others(alloc, types.slice(), &mut out)?;
        Ok(out)
    } else {
        Ok(types)
    }
}

fn push_others(alloc: Global, bounds: &[Ty], out: &mut Items<Ty>) -> Result<(), WantOfMemory>
    ensures { OnOk result (out.new ≡ out.old ++ filter (λ b. not (is_object b)) bounds.now) }
{
    let mut rest = bounds;
    while let [b, more @ ..] = rest {
        push_other(alloc, b, out)?;
        rest = more;
    }
    Ok(())
}

fn push_other(alloc: Global, b: &Ty, out: &mut Items<Ty>) -> Result<(), WantOfMemory>
    ensures { OnOk result (out.new ≡ out.old ++ filter (λ b. not (is_object b)) (b.now ∷ [])) }
{
    if is_object(b) {
        return Ok(());
    }
    let b = copy_type(alloc, b)?;
    out.push(b)
}

fn push_uncovered(
    alloc: Global,
    table: &Table,
    all: &[Ty],
    types: &[Ty],
    out: &mut Items<Ty>,
) -> Result<(), WantOfMemory>
    ensures { OnOk result (out.new ≡ out.old ++ uncovered table.now all.now types.now) }
{
    let mut rest = types;
    while let [t, more @ ..] = rest {
        push_one_uncovered(alloc, table, all, t, out)?;
        rest = more;
    }
    Ok(())
}

fn push_one_uncovered(
    alloc: Global,
    table: &Table,
    all: &[Ty],
    t: &Ty,
    out: &mut Items<Ty>,
) -> Result<(), WantOfMemory>
    ensures { OnOk result (out.new ≡ out.old ++ uncovered table.now all.now (t.now ∷ [])) }
{
    if is_covered(alloc, table, t, all)? {
        return Ok(());
    }
    let t = copy_type(alloc, t)?;
    out.push(t)
}

fn is_covered(alloc: Global, table: &Table, t: &Ty, others: &[Ty]) -> Result<bool, WantOfMemory>
    ensures { IfOk result (λ r. r ≡ is_covered table.now t.now others.now) }
{
    let mut rest = others;
    while let [o, more @ ..] = rest {
        if covers(alloc, table, t, o)? {
            return Ok(true);
        }
        rest = more;
    }
    Ok(false)
}

fn covers(alloc: Global, table: &Table, t: &Ty, o: &Ty) -> Result<bool, WantOfMemory>
    ensures { IfOk result (λ r. r ≡ covers table.now t.now o.now) }
{
    if same_type(o, t) || !is_plain(o) {
        return Ok(false);
    }
    match class_of(t) {
        None => Ok(false),
        Some(k) => match view(alloc, table, k, o)? {
            None => Ok(false),
            Some(v) => Ok(same_type(&v, t)),
        },
    }
}

#[tactic(auto, using(jc_types::proofs::Opened::opened))]
fn is_plain(t: &Ty) -> bool
    ensures { result ≡ is_plain_at (out-Ty t.now) }
{
    match t {
        Ty::Class { args, .. } => are_exact(args.slice()),
        Ty::Raw { .. } => true,
        _ => false,
    }
}

#[tactic(auto, using(jc_types::proofs::Opened::opened))]
fn is_exact(a: &Arg) -> bool
    ensures { result ≡ is_exact_at (out-Arg a.now) }
{
    match a {
        Arg::Exact(_) => true,
        _ => false,
    }
}

/// Whether no argument is a wildcard.
pub fn are_exact(args: &[Arg]) -> bool
    ensures { result ≡ are_exact args.now }
{
    let mut rest = args;
    while let [a, more @ ..] = rest {
        if !is_exact(a) {
            return false;
        }
        rest = more;
    }
    true
}

/// Whether both are of classes, neither a subclass of the other.
#[tactic(auto, unfolding(jc_judge::specs::Meeting::clash))]
pub fn clash(alloc: Global, table: &Table, t: &Ty, u: &Ty) -> Result<bool, WantOfMemory>
    ensures { IfOk result (λ r. r ≡ clash table.now t.now u.now) }
{
    match class_of(t) {
        None => Ok(false),
        Some(j) => match class_of(u) {
            None => Ok(false),
            Some(k) => {
                if is_interface(table, j) || is_interface(table, k) {
                    return Ok(false);
                }
                let up = view(alloc, table, k, t)?;
                let down = view(alloc, table, j, u)?;
                Ok(up.is_none() && down.is_none())
            }
        },
    }
}

fn clashes(alloc: Global, table: &Table, t: &Ty, types: &[Ty]) -> Result<bool, WantOfMemory>
    ensures { IfOk result (λ r. r ≡ clashes table.now t.now types.now) }
{
    let mut rest = types;
    while let [u, more @ ..] = rest {
        if clash(alloc, table, t, u)? {
            return Ok(true);
        }
        rest = more;
    }
    Ok(false)
}

/// Whether two classes, neither a subclass of the other, are among the types.
pub fn classes_meet(alloc: Global, table: &Table, types: &[Ty]) -> Result<bool, WantOfMemory>
    ensures { IfOk result (λ r. r ≡ classes_meet table.now types.now) }
{
    let mut rest = types;
    while let [t, more @ ..] = rest {
        if clashes(alloc, table, t, more)? {
            return Ok(true);
        }
        rest = more;
    }
    Ok(false)
}
