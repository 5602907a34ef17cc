//! What a new array keeps where its type is raw.
ghost use Rattle.std.specs.Prelude.{◌≡◌, IfOk, map, length, replicate};
ghost use Rattle.jc_types.specs.Accessors.{vars_of};
ghost use Rattle.jc_types.specs.declared.form.Arg.TheVariants.{Any};
ghost use Rattle.jc_meaning.specs.Kept.{kept_array};
ghost use Rattle.jc_kept.specs.Arguments.{unbounded_arg};

use jc_rules::{Boxed, Items, WantOfMemory};
use jc_types::{Arg, ClassId, Table, Ty, class_vars};
use std::alloc::Global;

fn any_args(alloc: Global, count: usize) -> Result<Items<Arg>, WantOfMemory>
    ensures { IfOk result (λ r. r ≡ replicate count Any) }
{
    let mut out = Items::new(alloc);
    for i in 0..count {
        out.push(Arg::Any)?;
    }
    Ok(out)
}

fn unbounded_class(alloc: Global, table: &Table, id: ClassId) -> Result<Ty, WantOfMemory>
    ensures { IfOk result (λ r. r ≡ Ty.Class id (replicate (length (vars_of table.now id)) Any)) }
{
    let args = any_args(alloc, class_vars(table, id).len())?;
    Ok(Ty::Class { id, args })
}

/// What a new array of a closed array type keeps: a raw type inside keeps `?` for each parameter of its class.
#[cycle(unbounded)]
#[tactic(auto, using(crate::proofs::Raws::unbounded))]
pub fn kept_array(alloc: Global, table: &Table, ty: &Ty) -> Result<Ty, WantOfMemory>
    ensures { IfOk result (λ r. r ≡ kept_array table.now ty.now) }
{
    match ty {
        Ty::Prim(p) => Ok(Ty::Prim(*p)),
        Ty::Class { id, args } => {
            let args = unbounded_args(alloc, table, args.slice())?;
            Ok(Ty::Class { id: *id, args })
        }
        Ty::Raw { id } => unbounded_class(alloc, table, *id),
        Ty::Array { of, further } => {
            let of = kept_array(alloc, table, of.get())?;
            Ok(Ty::Array {
                of: Boxed::new(alloc, of)?,
                further: *further,
            })
        }
        Ty::Variable(v) => Ok(Ty::Variable(*v)),
        Ty::Captured(c) => Ok(Ty::Captured(*c)),
        Ty::Meet { parts } => {
            let parts = unbounded_types(alloc, table, parts.slice())?;
            Ok(Ty::Meet { parts })
        }
        Ty::NullTy => Ok(Ty::NullTy),
    }
}

#[cycle(unbounded)]
#[tactic(auto, using(crate::proofs::Raws::unbounded))]
fn unbounded_arg(alloc: Global, table: &Table, arg: &Arg) -> Result<Arg, WantOfMemory>
    ensures { IfOk result (λ r. r ≡ unbounded_arg table.now arg.now) }
{
    match arg {
        Arg::Exact(t) => Ok(Arg::Exact(kept_array(alloc, table, t)?)),
        Arg::Any => Ok(Arg::Any),
        Arg::Extends(t) => Ok(Arg::Extends(kept_array(alloc, table, t)?)),
        Arg::Super(t) => Ok(Arg::Super(kept_array(alloc, table, t)?)),
    }
}

#[cycle(unbounded)]
#[tactic(auto, using(crate::proofs::Raws::unbounded))]
fn unbounded_args(alloc: Global, table: &Table, args: &[Arg]) -> Result<Items<Arg>, WantOfMemory>
    ensures { IfOk result (λ r. r ≡ map (unbounded_arg table.now) args.now) }
{
    let mut out = Items::new(alloc);
    for i in 0..args.len() {
        let arg = unbounded_arg(alloc, table, &args[i])?;
        out.push(arg)?;
    }
    Ok(out)
}

#[cycle(unbounded)]
#[tactic(auto, using(crate::proofs::Raws::unbounded))]
fn unbounded_types(alloc: Global, table: &Table, types: &[Ty]) -> Result<Items<Ty>, WantOfMemory>
    ensures { IfOk result (λ r. r ≡ map (kept_array table.now) types.now) }
{
    let mut out = Items::new(alloc);
    for i in 0..types.len() {
        let ty = kept_array(alloc, table, &types[i])?;
        out.push(ty)?;
    }
    Ok(out)
}
