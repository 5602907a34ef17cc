//! Copies of types.
ghost use Rattle.std.specs.Prelude.{◌≡◌, IfOk};

use crate::environment::Bounds;
use crate::form::{Arg, Ty};
use jc_rules::{Boxed, Items, WantOfMemory};
use std::alloc::Global;

/// A copy.
#[cycle(copy)]
pub fn copy_type(alloc: Global, ty: &Ty) -> Result<Ty, WantOfMemory>
    ensures { IfOk result (λ r. r ≡ ty.now) }
{
    match ty {
        Ty::Prim(p) => Ok(Ty::Prim(*p)),
        Ty::Class { id, args } => {
            let args = copy_args(alloc, args.slice())?;
            Ok(Ty::Class { id: *id, args })
        }
        Ty::Raw { id } => Ok(Ty::Raw { id: *id }),
        Ty::Array { of, further } => {
            let of = copy_type(alloc, of.get())?;
            Ok(Ty::Array {
                of: Boxed::new(alloc, of)?,
                further: *further,
            })
        }
        Ty::Variable(v) => Ok(Ty::Variable(*v)),
        Ty::Captured(c) => Ok(Ty::Captured(*c)),
        Ty::Meet { parts } => {
            let parts = copy_types(alloc, parts.slice())?;
            Ok(Ty::Meet { parts })
        }
        Ty::NullTy => Ok(Ty::NullTy),
    }
}

/// A copy.
#[cycle(copy)]
pub fn copy_arg(alloc: Global, arg: &Arg) -> Result<Arg, WantOfMemory>
    ensures { IfOk result (λ r. r ≡ arg.now) }
{
    match arg {
        Arg::Exact(t) => Ok(Arg::Exact(copy_type(alloc, t)?)),
        Arg::Any => Ok(Arg::Any),
        Arg::Extends(t) => Ok(Arg::Extends(copy_type(alloc, t)?)),
        Arg::Super(t) => Ok(Arg::Super(copy_type(alloc, t)?)),
    }
}

/// A copy of each.
#[cycle(copy)]
pub fn copy_args(alloc: Global, args: &[Arg]) -> Result<Items<Arg>, WantOfMemory>
    ensures { IfOk result (λ r. r ≡ args.now) }
{
    let mut out = Items::new(alloc);
    for i in 0..args.len() {
        let arg = copy_arg(alloc, &args[i])?;
        out.push(arg)?;
    }
    Ok(out)
}

/// A copy of each.
#[cycle(copy)]
pub fn copy_types(alloc: Global, types: &[Ty]) -> Result<Items<Ty>, WantOfMemory>
    ensures { IfOk result (λ r. r ≡ types.now) }
{
    let mut out = Items::new(alloc);
    for i in 0..types.len() {
        let ty = copy_type(alloc, &types[i])?;
        out.push(ty)?;
    }
    Ok(out)
}

/// A copy.
pub fn copy_bounds(alloc: Global, bounds: &Bounds) -> Result<Bounds, WantOfMemory>
    ensures { IfOk result (λ r. r ≡ bounds.now) }
{
    let uppers = copy_types(alloc, bounds.uppers.slice())?;
    match &bounds.lower {
        Some(lower) => {
            let lower = copy_type(alloc, lower)?;
            Ok(Bounds {
                uppers,
                lower: Some(lower),
            })
        }
        None => Ok(Bounds {
            uppers,
            lower: None,
        }),
    }
}
