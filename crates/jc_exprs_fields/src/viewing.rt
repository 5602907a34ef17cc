//! Fields as a type has them (JLS 4.5.2, 4.8).
ghost use Rattle.std.specs.Prelude.{◌≡◌, ◌++◌, IfOk, OnOk};
ghost use Rattle.jc_types.specs.declared.form.Arg.{out-Arg};
ghost use Rattle.jc_types.specs.declared.form.Ty.{out-Ty};
ghost use Rattle.jc_types.specs.Substitution.{subst};
ghost use Rattle.jc_judge.specs.Views.{exact_at, exacts};
ghost use Rattle.jc_overriding.specs.Viewing.{seeing_of, vars_at};
ghost use Rattle.jc_exprs_parts_spec.specs.Fields.{field_in, is_raw_as, is_raw_view, seen, type_by_view};

use crate::declared::{declared_field, field_class, is_static_field};
use jc_members::plain;
use jc_rules::{Items, WantOfMemory};
use jc_sub::view;
use jc_types::{
    Arg, ClassId, FieldId, Table, Ty, VarId, arguments, class_vars, copy_type, substitute,
};
use std::alloc::Global;

#[tactic(auto, using(jc_types::proofs::Opened::opened))]
fn push_exact(alloc: Global, arg: &Arg, out: &mut Items<Ty>) -> Result<(), WantOfMemory>
    ensures { OnOk result (out.new ≡ out.old ++ exact_at (out-Arg arg.now)) }
{
    match arg {
        Arg::Exact(ty) => {
            let ty = copy_type(alloc, ty)?;
            out.push(ty)
        }
        _ => Ok(()),
    }
}

// The arguments that are no wildcards.
fn push_exacts(alloc: Global, args: &[Arg], out: &mut Items<Ty>) -> Result<(), WantOfMemory>
    ensures { OnOk result (out.new ≡ out.old ++ exacts args.now) }
{
    let mut rest = args;
    while let [arg, more @ ..] = rest {
        push_exact(alloc, arg, out)?;
        rest = more;
    }
    Ok(())
}

#[tactic(auto, using(jc_types::proofs::Opened::opened))]
fn vars_at<'a>(table: &'a Table, ty: &Ty) -> &'a [VarId]
    ensures { result.now ≡ vars_at table.now (out-Ty ty.now) }
{
    match ty {
        Ty::Class { id, .. } => class_vars(table, *id),
        _ => &[],
    }
}

// With types for variables, of those that have each other.
#[tactic(auto, using(jc_members::proofs::Short::subst_short))]
fn put(alloc: Global, ty: &Ty, vars: &[VarId], by: &[Ty]) -> Result<Ty, WantOfMemory>
    ensures { IfOk result (λ t. t ≡ subst vars.now by.now ty.now) }
{
    let most = vars.len().min(by.len());
    substitute(alloc, ty, &vars[..most], &by[..most])
}

// A declared type as a type of the class that declares it has it.
fn seen(alloc: Global, table: &Table, view: &Ty, ty: &Ty) -> Result<Ty, WantOfMemory>
    ensures { IfOk result (λ t. t ≡ seen table.now (seeing_of table.now view.now) ty.now) }
{
    match arguments(table, view) {
        None => plain(alloc, table, ty),
        Some(args) => {
            let mut by = Items::new(alloc);
            push_exacts(alloc, args, &mut by)?;
            put(alloc, ty, vars_at(table, view), by.slice())
        }
    }
}

// .. where there is such a view.
fn by_view(alloc: Global, table: &Table, ty: Ty, view: Option<Ty>) -> Result<Ty, WantOfMemory>
    ensures { IfOk result (λ t. t ≡ type_by_view table.now ty view) }
{
    match view {
        None => Ok(ty),
        Some(view) => seen(alloc, table, &view, &ty),
    }
}

/// The type of a field as a type has it: by the arguments of its view as the field's class, or erased where that is raw. Static ones are as they are declared.
pub fn field_in(alloc: Global, table: &Table, ty: &Ty, field: FieldId) -> Result<Ty, WantOfMemory>
    ensures { IfOk result (λ t. t ≡ field_in table.now ty.now field) }
{
    let declared = declared_field(alloc, table, field)?;
    if is_static_field(table, field) {
        return Ok(declared);
    }
    let view = view(alloc, table, field_class(table, field), ty)?;
    by_view(alloc, table, declared, view)
}

fn is_raw_view(table: &Table, view: Option<Ty>) -> bool
    ensures { result ≡ is_raw_view table.now view }
{
    match view {
        None => false,
        Some(view) => arguments(table, &view).is_none(),
    }
}

/// Whether a type is raw as a class.
pub fn is_raw_as(
    alloc: Global,
    table: &Table,
    ty: &Ty,
    class: ClassId,
) -> Result<bool, WantOfMemory>
    ensures { IfOk result (λ r. r ≡ is_raw_as table.now ty.now class) }
{
    let view = view(alloc, table, class, ty)?;
    Ok(is_raw_view(table, view))
}
