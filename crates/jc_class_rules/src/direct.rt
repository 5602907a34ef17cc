//! The direct supertypes of a type (JLS 4.8, 4.10.2).
ghost use Rattle.std.specs.Prelude.{◌≡◌, ◌++◌, ◌∷◌, [], map, Some, IfOk, OnOk};
ghost use Rattle.std.specs.Option.{option_copied};
ghost use Rattle.jc_types.specs.declared.form.Arg.{out-Arg};
ghost use Rattle.jc_types.specs.declared.form.Ty.{Ty};
ghost use Rattle.jc_judge.specs.Views.{class_supers, erased, exact_at, exacts, supers};
ghost use Rattle.jc_class_rules.specs.Climbing.{all_supers};

use jc_rules::{Items, WantOfMemory};
use jc_types::{
    Arg, ClassId, Table, Ty, arguments, class_supers, class_vars, copy_type, copy_types, is_row,
    substitute_all,
};
use std::alloc::Global;

#[tactic(auto, unfolding(jc_judge::specs::Views::erased))]
fn erased(alloc: Global, t: &Ty) -> Result<Ty, WantOfMemory>
    ensures { IfOk result (λ r. r ≡ erased t.now) }
{
    if let Ty::Class { id, args } = t {
        if !args.is_empty() {
            return Ok(Ty::Raw { id: *id });
        }
    }
    copy_type(alloc, t)
}

fn all_erased(alloc: Global, types: &[Ty]) -> Result<Items<Ty>, WantOfMemory>
    ensures { IfOk result (λ r. r ≡ map erased types.now) }
{
    let mut out = Items::new(alloc);
    for i in 0..types.len() {
        let t = erased(alloc, &types[i])?;
        out.push(t)?;
    }
    Ok(out)
}

#[tactic(auto, using(jc_types::proofs::Opened::opened))]
fn push_exact(alloc: Global, arg: &Arg, out: &mut Items<Ty>) -> Result<(), WantOfMemory>
    ensures { OnOk result (out.new ≡ out.old ++ exact_at (out-Arg arg.now)) }
{
    match arg {
        Arg::Exact(t) => {
            let t = copy_type(alloc, t)?;
            out.push(t)
        }
        _ => Ok(()),
    }
}

fn push_exacts(alloc: Global, args: &[Arg], out: &mut Items<Ty>) -> Result<(), WantOfMemory>
    ensures { OnOk result (out.new ≡ out.old ++ exacts args.now) }
{
    let mut rest = args;
    while let [arg, more @ ..] = rest {
        push_exact(alloc, arg, out)?;
        rest = more;
    }
    Ok(())
}

// The supertypes of a class that has these arguments.
fn supers_with(
    alloc: Global,
    table: &Table,
    id: ClassId,
    args: &[Arg],
) -> Result<Items<Ty>, WantOfMemory>
    ensures { IfOk result (λ r. r ≡ class_supers table.now id (Some args.now)) }
{
    let mut by = Items::new(alloc);
    push_exacts(alloc, args, &mut by)?;
    let vars = class_vars(table, id);
    let declared = class_supers(table, id);
    if by.len() == vars.len() {
        substitute_all(alloc, declared, vars, by.slice(), is_row(vars))
    } else {
        all_erased(alloc, declared)
    }
}

fn supers_of_class(
    alloc: Global,
    table: &Table,
    id: ClassId,
    args: Option<&[Arg]>,
) -> Result<Items<Ty>, WantOfMemory>
    ensures { IfOk result (λ r. r ≡ class_supers table.now id (option_copied args.entry)) }
{
    match args {
        None => all_erased(alloc, class_supers(table, id)),
        Some(args) => supers_with(alloc, table, id, args),
    }
}

fn only_object(alloc: Global) -> Result<Items<Ty>, WantOfMemory>
    ensures { IfOk result (λ r. r ≡ Ty.Class (record { 0 = 0 }) [] ∷ []) }
{
    let mut out = Items::new(alloc);
    out.push(Ty::Class {
        id: ClassId(0),
        args: Items::new(alloc),
    })?;
    Ok(out)
}

// The direct supertypes of a captured type.
#[tactic(auto, using(jc_types::proofs::Opened::opened), unfolding(jc_judge::specs::Views::supers, jc_types::specs::Reifying::arguments))]
fn supers(alloc: Global, table: &Table, t: &Ty) -> Result<Items<Ty>, WantOfMemory>
    ensures { IfOk result (λ r. r ≡ supers table.now t.now) }
{
    match t {
        Ty::Class { id, .. } => supers_of_class(alloc, table, *id, arguments(table, t)),
        Ty::Raw { id } => supers_of_class(alloc, table, *id, arguments(table, t)),
        Ty::Meet { parts } => copy_types(alloc, parts.slice()),
        Ty::Array { .. } => only_object(alloc),
        _ => Ok(Items::new(alloc)),
    }
}

/// The direct supertypes of each of these.
pub fn all_supers(alloc: Global, table: &Table, types: &[Ty]) -> Result<Items<Ty>, WantOfMemory>
    ensures { IfOk result (λ r. r ≡ all_supers table.now types.now) }
{
    let mut out = Items::new(alloc);
    let mut rest = types;
    while let [t, more @ ..] = rest {
        out.append(supers(alloc, table, t)?)?;
        rest = more;
    }
    Ok(out)
}
