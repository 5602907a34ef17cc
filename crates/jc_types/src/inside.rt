//! The class types inside a type.
ghost use Rattle.std.specs.Prelude.{◌≡◌, ◌++◌, IfOk, OnOk};
ghost use Rattle.jc_types.specs.Inside.{inside, inside_arg, inside_args, inside_types};

use crate::copy::copy_type;
use crate::form::{Arg, Ty};
use jc_rules::{Items, WantOfMemory};
use std::alloc::Global;

/// The class and raw types in a type, itself first, in the order in which they are written.
pub fn class_types(alloc: Global, ty: &Ty) -> Result<Items<Ty>, WantOfMemory>
    ensures { IfOk result (λ r. r ≡ inside ty.now) }
{
    let mut out = Items::new(alloc);
    push_inside(alloc, ty, &mut out)?;
    Ok(out)
}

#[cycle(inside)]
#[tactic(auto, using(crate::proofs::Insides::insides))]
fn push_inside(alloc: Global, ty: &Ty, out: &mut Items<Ty>) -> Result<(), WantOfMemory>
    ensures { OnOk result (out.new ≡ out.old ++ inside ty.now) }
{
    match ty {
        Ty::Class { args, .. } => {
            let copy = copy_type(alloc, ty)?;
            out.push(copy)?;
            push_inside_args(alloc, args.slice(), out)
        }
        Ty::Array { of, .. } => push_inside(alloc, of.get(), out),
        Ty::Meet { parts } => push_inside_types(alloc, parts.slice(), out),
        Ty::Prim(_) => Ok(()),
        Ty::Raw { id } => out.push(Ty::Raw { id: *id }),
        Ty::Variable(_) => Ok(()),
        Ty::Captured(_) => Ok(()),
        Ty::NullTy => Ok(()),
    }
}

#[cycle(inside)]
#[tactic(auto, using(crate::proofs::Insides::insides))]
fn push_inside_arg(alloc: Global, arg: &Arg, out: &mut Items<Ty>) -> Result<(), WantOfMemory>
    ensures { OnOk result (out.new ≡ out.old ++ inside_arg arg.now) }
{
    match arg {
        Arg::Exact(t) => push_inside(alloc, t, out),
        Arg::Any => Ok(()),
        Arg::Extends(t) => push_inside(alloc, t, out),
        Arg::Super(t) => push_inside(alloc, t, out),
    }
}

#[cycle(inside)]
fn push_inside_args(alloc: Global, args: &[Arg], out: &mut Items<Ty>) -> Result<(), WantOfMemory>
    ensures { OnOk result (out.new ≡ out.old ++ inside_args args.now) }
{
    for i in 0..args.len() {
        push_inside_arg(alloc, &args[i], out)?;
    }
    Ok(())
}

#[cycle(inside)]
fn push_inside_types(alloc: Global, types: &[Ty], out: &mut Items<Ty>) -> Result<(), WantOfMemory>
    ensures { OnOk result (out.new ≡ out.old ++ inside_types types.now) }
{
    for i in 0..types.len() {
        push_inside(alloc, &types[i], out)?;
    }
    Ok(())
}
