//! Types with what their variables stand for in their places.
ghost use Rattle.std.specs.Prelude.{◌≡◌, IfOk, map, get_or};
ghost use Rattle.jc_types.specs.declared.form.Ty.TheVariants.{NullTy};
ghost use Rattle.jc_meaning.specs.Kept.{bound_to, close};
ghost use Rattle.jc_kept.specs.Arguments.{close_arg};

use jc_meaning::Binding;
use jc_rules::{Items, WantOfMemory};
use jc_types::{Arg, CaptureId, Ty, VarId, array_over, copy_type};
use std::alloc::Global;

// What a variable stands for: what it is bound to, or the null type.
fn bound_to(alloc: Global, v: VarId, vars: &[Binding]) -> Result<Ty, WantOfMemory>
    ensures { IfOk result (λ r. r ≡ bound_to v vars.now) }
{
    let mut rest = vars;
    while let [first, more @ ..] = rest {
        if first.variable.0 == v.0 {
            return copy_type(alloc, &first.stands_for);
        }
        rest = more;
    }
    Ok(Ty::NullTy)
}

fn captured_as(alloc: Global, c: CaptureId, captured: &[Ty]) -> Result<Ty, WantOfMemory>
    ensures { IfOk result (λ r. r ≡ get_or captured.now c.0 NullTy) }
{
    match captured.get(c.0 as usize) {
        Some(t) => copy_type(alloc, t),
        None => Ok(Ty::NullTy),
    }
}

/// The type with what its variables stand for in their places.
#[cycle(closing)]
#[tactic(auto, using(crate::proofs::Closed::closed))]
pub fn close(alloc: Global, ty: &Ty, vars: &[Binding], captured: &[Ty]) -> Result<Ty, WantOfMemory>
    ensures { IfOk result (λ r. r ≡ close vars.now captured.now ty.now) }
{
    match ty {
        Ty::Prim(p) => Ok(Ty::Prim(*p)),
        Ty::Class { id, args } => {
            let args = close_args(alloc, args.slice(), vars, captured)?;
            Ok(Ty::Class { id: *id, args })
        }
        Ty::Raw { id } => Ok(Ty::Raw { id: *id }),
        Ty::Array { of, further } => {
            let of = close(alloc, of.get(), vars, captured)?;
            array_over(alloc, of, *further)
        }
        Ty::Variable(v) => bound_to(alloc, *v, vars),
        Ty::Captured(c) => captured_as(alloc, *c, captured),
        Ty::Meet { parts } => {
            let parts = close_all(alloc, parts.slice(), vars, captured)?;
            Ok(Ty::Meet { parts })
        }
        Ty::NullTy => Ok(Ty::NullTy),
    }
}

#[cycle(closing)]
#[tactic(auto, using(crate::proofs::Closed::closed))]
fn close_arg(
    alloc: Global,
    arg: &Arg,
    vars: &[Binding],
    captured: &[Ty],
) -> Result<Arg, WantOfMemory>
    ensures { IfOk result (λ r. r ≡ close_arg vars.now captured.now arg.now) }
{
    match arg {
        Arg::Exact(t) => Ok(Arg::Exact(close(alloc, t, vars, captured)?)),
        Arg::Any => Ok(Arg::Any),
        Arg::Extends(t) => Ok(Arg::Extends(close(alloc, t, vars, captured)?)),
        Arg::Super(t) => Ok(Arg::Super(close(alloc, t, vars, captured)?)),
    }
}

#[cycle(closing)]
#[tactic(auto, using(crate::proofs::Closed::closed))]
fn close_args(
    alloc: Global,
    args: &[Arg],
    vars: &[Binding],
    captured: &[Ty],
) -> Result<Items<Arg>, WantOfMemory>
    ensures { IfOk result (λ r. r ≡ map (close_arg vars.now captured.now) args.now) }
{
    let mut out = Items::new(alloc);
    for i in 0..args.len() {
        let arg = close_arg(alloc, &args[i], vars, captured)?;
        out.push(arg)?;
    }
    Ok(out)
}

/// `close` for each of the types.
#[cycle(closing)]
#[tactic(auto, using(crate::proofs::Closed::closed))]
pub fn close_all(
    alloc: Global,
    types: &[Ty],
    vars: &[Binding],
    captured: &[Ty],
) -> Result<Items<Ty>, WantOfMemory>
    ensures { IfOk result (λ r. r ≡ map (close vars.now captured.now) types.now) }
{
    let mut out = Items::new(alloc);
    for i in 0..types.len() {
        let ty = close(alloc, &types[i], vars, captured)?;
        out.push(ty)?;
    }
    Ok(out)
}
