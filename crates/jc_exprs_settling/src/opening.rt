//! Type variables by their bounds (JLS 4.4, 4.9).
ghost use Rattle.std.specs.Prelude.{◌≡◌, ◌++◌, is_none, not, IfOk, OnOk};
ghost use Rattle.std.specs.Option.{option_copied};
ghost use Rattle.jc_types.specs.declared.form.Ty.{out-Ty};
ghost use Rattle.jc_types.specs.Erasing.{variable_bounds};
ghost use Rattle.jc_judge.specs.Meeting.{flattened, parts_at};
ghost use Rattle.jc_exprs_nodes_spec.specs.Typeds.{bounds_or, has_variable, is_by_bounds, is_meet, is_open, opened, opened_parts};

use jc_exprs_nodes::Judging;
use jc_rules::{Items, WantOfMemory};
use jc_sub::as_one;
use jc_types::{Ty, captured_uppers, copy_type, copy_types, declared_bounds};
use std::alloc::Global;

#[tactic(auto, using(jc_types::proofs::Opened::opened), unfolding(jc_types::specs::Erasing::variable_bounds))]
fn variable_bounds<'a>(judging: &Judging<'a>, ty: &Ty) -> Option<&'a [Ty]>
    ensures { option_copied result ≡ variable_bounds judging.now.table.now judging.now.env.now.bounds ty.now }
{
    match ty {
        Ty::Variable(v) => Some(declared_bounds(judging.table, *v)),
        Ty::Captured(c) => Some(captured_uppers(judging.env.bounds.slice(), *c)),
        _ => None,
    }
}

#[tactic(auto, using(jc_types::proofs::Opened::opened), unfolding(jc_types::specs::Erasing::variable_bounds))]
fn is_variable(judging: &Judging, ty: &Ty) -> bool
    ensures { result ≡ not (is_none (variable_bounds judging.now.table.now judging.now.env.now.bounds ty.now)) }
{
    match ty {
        Ty::Variable(_) => true,
        Ty::Captured(_) => true,
        _ => false,
    }
}

fn has_variable(judging: &Judging, types: &[Ty]) -> bool
    ensures { result ≡ has_variable judging.now.table.now judging.now.env.now.bounds types.now }
{
    let mut rest = types;
    while let [ty, more @ ..] = rest {
        if is_variable(judging, ty) {
            return true;
        }
        rest = more;
    }
    false
}

/// Whether a type is a variable, or has one as a part.
#[tactic(auto, using(jc_types::proofs::Opened::opened, crate::proofs::Choosing::or_false))]
pub fn is_open(judging: &Judging, ty: &Ty) -> bool
    ensures { result ≡ is_open judging.now.table.now judging.now.env.now.bounds ty.now }
{
    match ty {
        Ty::Meet { parts } => has_variable(judging, parts.slice()),
        _ => is_variable(judging, ty),
    }
}

#[tactic(auto, using(jc_types::proofs::Opened::opened))]
fn is_meet(ty: &Ty) -> bool
    ensures { result ≡ is_meet (out-Ty ty.now) }
{
    match ty {
        Ty::Meet { .. } => true,
        _ => false,
    }
}

/// Whether the members of a type are those of bounds, of which none is private: it is a type variable or an intersection.
pub fn is_by_bounds(judging: &Judging, ty: &Ty) -> bool
    ensures { result ≡ is_by_bounds judging.now.table.now judging.now.env.now.bounds ty.now }
{
    is_meet(ty) || is_open(judging, ty)
}

#[tactic(auto, using(jc_types::proofs::Opened::opened))]
fn push_parts(alloc: Global, ty: &Ty, out: &mut Items<Ty>) -> Result<(), WantOfMemory>
    ensures { OnOk result (out.new ≡ out.old ++ parts_at ty.now (out-Ty ty.now)) }
{
    match ty {
        Ty::Meet { parts } => out.append(copy_types(alloc, parts.slice())?),
        _ => out.push(copy_type(alloc, ty)?),
    }
}

#[tactic(auto, using(jc_exprs_nodes::proofs::Appending::appended))]
fn push_flat(alloc: Global, types: &[Ty], out: &mut Items<Ty>) -> Result<(), WantOfMemory>
    ensures { OnOk result (out.new ≡ out.old ++ flattened types.now) }
{
    let mut rest = types;
    while let [ty, more @ ..] = rest {
        push_parts(alloc, ty, out)?;
        rest = more;
    }
    Ok(())
}

// The bounds of a variable, or a type itself.
fn push_bounds(
    alloc: Global,
    judging: &Judging,
    ty: &Ty,
    out: &mut Items<Ty>,
) -> Result<(), WantOfMemory>
    ensures { OnOk result (out.new ≡ out.old ++ bounds_or ty.now (variable_bounds judging.now.table.now judging.now.env.now.bounds ty.now)) }
{
    match variable_bounds(judging, ty) {
        Some(bounds) => out.append(copy_types(alloc, bounds)?),
        None => out.push(copy_type(alloc, ty)?),
    }
}

#[tactic(auto, using(jc_exprs_nodes::proofs::Appending::appended))]
fn push_opened(
    alloc: Global,
    judging: &Judging,
    types: &[Ty],
    out: &mut Items<Ty>,
) -> Result<(), WantOfMemory>
    ensures { OnOk result (out.new ≡ out.old ++ opened_parts judging.now.table.now judging.now.env.now.bounds types.now) }
{
    let mut rest = types;
    while let [ty, more @ ..] = rest {
        push_bounds(alloc, judging, ty, out)?;
        rest = more;
    }
    Ok(())
}

#[tactic(auto, using(jc_types::proofs::Opened::opened, jc_exprs_nodes::proofs::Appending::appended))]
fn push_opened_type(
    alloc: Global,
    judging: &Judging,
    ty: &Ty,
    out: &mut Items<Ty>,
) -> Result<(), WantOfMemory>
    ensures { OnOk result (out.new ≡ out.old ++ opened_parts judging.now.table.now judging.now.env.now.bounds (parts_at ty.now (out-Ty ty.now))) }
{
    match ty {
        Ty::Meet { parts } => push_opened(alloc, judging, parts.slice(), out),
        _ => push_bounds(alloc, judging, ty, out),
    }
}

/// The intersection of the parts of a type, where each variable stands for its upper bounds.
pub fn opened(alloc: Global, judging: &Judging, ty: &Ty) -> Result<Ty, WantOfMemory>
    ensures { IfOk result (λ r. r ≡ opened judging.now.table.now judging.now.env.now.bounds ty.now) }
{
    let mut bounds = Items::new(alloc);
    push_opened_type(alloc, judging, ty, &mut bounds)?;
    let mut parts = Items::new(alloc);
    push_flat(alloc, bounds.slice(), &mut parts)?;
    Ok(as_one(alloc, parts))
}
