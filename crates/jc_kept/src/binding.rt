//! What the type variables of an object or a call stand for.
ghost use Rattle.std.specs.Prelude.{◌≡◌, ◌++◌, [], IfOk, if◌then◌else◌, replicate};
ghost use Rattle.std.specs.Option.{option_copied};
ghost use Rattle.jc_types.specs.declared.form.Ty.{Ty as Typ, out-Ty};
ghost use Rattle.jc_types.specs.declared.form.Ty.TheVariants.{NullTy};
ghost use Rattle.jc_types.specs.declared.form.Arg.{out-Arg};
ghost use Rattle.jc_types.specs.declared.form.Arg.TheVariants.{Exact};
ghost use Rattle.jc_kept.specs.Arguments.{after_first};
ghost use Rattle.jc_meaning.specs.Kept.{arguments_as, arguments_at, bindings, class_bindings, exact_or_null, exact_types, born, kept_by, lower_or_null, unsaid, unsaid_all};

use crate::closing::close;
use jc_meaning::Binding;
use jc_rules::{Items, WantOfMemory};
use jc_sub::view;
use jc_types::{
    Arg, Bounds, CaptureId, ClassId, Table, Ty, VarId, captured_lower, class_vars, copy_type,
};
use std::alloc::Global;

/// Type variables with what they are bound to; where there is nothing for one, it is the null type.
pub fn bindings(alloc: Global, vars: &[VarId], types: &[Ty]) -> Result<Items<Binding>, WantOfMemory>
    ensures { IfOk result (λ r. r ≡ bindings vars.now types.now) }
{
    let mut out = Items::new(alloc);
    let mut rest = vars;
    let mut others = types;
    while let [v, more @ ..] = rest {
        let stands_for = match others {
            [t, ..] => copy_type(alloc, t)?,
            [] => Ty::NullTy,
        };
        out.push(Binding {
            variable: *v,
            stands_for,
        })?;
        others = after_first(others);
        rest = more;
    }
    Ok(out)
}

fn after_first(types: &[Ty]) -> &[Ty]
    ensures { result.now ≡ after_first types.now }
{
    match types {
        [_, more @ ..] => more,
        [] => types,
    }
}

#[tactic(auto, using(jc_types::proofs::Opened::opened))]
fn exact_or_null(alloc: Global, arg: &Arg) -> Result<Ty, WantOfMemory>
    ensures { IfOk result (λ r. r ≡ exact_or_null (out-Arg arg.now)) }
{
    match arg {
        Arg::Exact(t) => copy_type(alloc, t),
        Arg::Any => Ok(Ty::NullTy),
        Arg::Extends(_) => Ok(Ty::NullTy),
        Arg::Super(_) => Ok(Ty::NullTy),
    }
}

fn exact_types(alloc: Global, args: &[Arg]) -> Result<Items<Ty>, WantOfMemory>
    ensures { IfOk result (λ r. r ≡ exact_types args.now) }
{
    let mut out = Items::new(alloc);
    for i in 0..args.len() {
        let ty = exact_or_null(alloc, &args[i])?;
        out.push(ty)?;
    }
    Ok(out)
}

#[tactic(auto, using(jc_types::proofs::Opened::opened))]
fn arguments_at(alloc: Global, ty: &Ty) -> Result<Items<Ty>, WantOfMemory>
    ensures { IfOk result (λ r. r ≡ arguments_at (out-Ty ty.now)) }
{
    match ty {
        Ty::Class { args, .. } => exact_types(alloc, args.slice()),
        Ty::Prim(_) => Ok(Items::new(alloc)),
        Ty::Raw { .. } => Ok(Items::new(alloc)),
        Ty::Array { .. } => Ok(Items::new(alloc)),
        Ty::Variable(_) => Ok(Items::new(alloc)),
        Ty::Captured(_) => Ok(Items::new(alloc)),
        Ty::Meet { .. } => Ok(Items::new(alloc)),
        Ty::NullTy => Ok(Items::new(alloc)),
    }
}

/// The arguments that a kept type has as a class (JLS 4.10.2).
pub fn arguments_as(
    alloc: Global,
    table: &Table,
    k: ClassId,
    kept: &Ty,
) -> Result<Items<Ty>, WantOfMemory>
    ensures { IfOk result (λ r. r ≡ arguments_as table.now k kept.now) }
{
    match view(alloc, table, k, kept)? {
        Some(v) => arguments_at(alloc, &v),
        None => Ok(Items::new(alloc)),
    }
}

/// What the parameters of a class stand for in an object of a kept type.
pub fn class_bindings(
    alloc: Global,
    table: &Table,
    k: ClassId,
    kept: &Ty,
) -> Result<Items<Binding>, WantOfMemory>
    ensures { IfOk result (λ r. r ≡ class_bindings table.now k kept.now) }
{
    let arguments = arguments_as(alloc, table, k, kept)?;
    bindings(alloc, class_vars(table, k), arguments.slice())
}

fn null_args(alloc: Global, count: usize) -> Result<Items<Arg>, WantOfMemory>
    ensures { IfOk result (λ r. r ≡ replicate count (Exact NullTy)) }
{
    let mut out = Items::new(alloc);
    for i in 0..count {
        out.push(Arg::Exact(Ty::NullTy))?;
    }
    Ok(out)
}

/// What a new object of a closed class type keeps: a raw one keeps the null type for each parameter of its class.
#[tactic(auto, using(jc_types::proofs::Opened::opened), unfolding(jc_meaning::specs::Kept::kept_by))]
pub fn kept_by(alloc: Global, table: &Table, ty: &Ty) -> Result<Ty, WantOfMemory>
    ensures { IfOk result (λ r. r ≡ kept_by table.now ty.now) }
{
    match ty {
        Ty::Raw { id } => {
            let args = null_args(alloc, class_vars(table, *id).len())?;
            Ok(Ty::Class { id: *id, args })
        }
        Ty::Prim(_) => copy_type(alloc, ty),
        Ty::Class { .. } => copy_type(alloc, ty),
        Ty::Array { .. } => copy_type(alloc, ty),
        Ty::Variable(_) => copy_type(alloc, ty),
        Ty::Captured(_) => copy_type(alloc, ty),
        Ty::Meet { .. } => copy_type(alloc, ty),
        Ty::NullTy => copy_type(alloc, ty),
    }
}

/// Whether an object keeps its class alone, since nothing refers to it yet.
#[tactic(auto, using(jc_types::proofs::Opened::opened), unfolding(jc_meaning::specs::Kept::born))]
pub fn is_unborn(k: ClassId, kept: &Ty) -> bool
    ensures { (t : Typ) → born k t kept.now ≡ (if result then t else kept.now) }
{
    match kept {
        Ty::Raw { id } => id.0 == k.0,
        Ty::Prim(_) => false,
        Ty::Class { .. } => false,
        Ty::Array { .. } => false,
        Ty::Variable(_) => false,
        Ty::Captured(_) => false,
        Ty::Meet { .. } => false,
        Ty::NullTy => false,
    }
}

fn lower_or_null(
    alloc: Global,
    vars: &[Binding],
    captured: &[Ty],
    lower: Option<&Ty>,
) -> Result<Ty, WantOfMemory>
    ensures { IfOk result (λ r. r ≡ lower_or_null vars.now captured.now (option_copied lower.entry)) }
{
    match lower {
        Some(l) => close(alloc, l, vars, captured),
        None => Ok(Ty::NullTy),
    }
}

/// What a captured variable stands for where no value says it: its lower bound, or the null type.
pub fn unsaid(
    alloc: Global,
    vars: &[Binding],
    captured: &[Ty],
    env: &[Bounds],
    c: CaptureId,
) -> Result<Ty, WantOfMemory>
    ensures { IfOk result (λ r. r ≡ unsaid vars.now captured.now env.now c) }
{
    lower_or_null(alloc, vars, captured, captured_lower(env, c))
}

/// `unsaid` for each captured variable of a method, as the method begins.
pub fn unsaid_all(
    alloc: Global,
    vars: &[Binding],
    env: &[Bounds],
) -> Result<Items<Ty>, WantOfMemory>
    ensures { IfOk result (λ r. r ≡ unsaid_all vars.now env.now) }
{
    let mut captured = Items::new(alloc);
    let mut rest = env;
    while let [bounds, more @ ..] = rest {
        let ty = lower_or_null(alloc, vars, captured.slice(), bounds.lower.as_ref())?;
        captured.push(ty)?;
        rest = more;
    }
    Ok(captured)
}
