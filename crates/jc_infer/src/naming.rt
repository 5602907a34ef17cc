//! Whether a type names one of some type variables.
ghost use Rattle.std.specs.Prelude.{◌≡◌, map};
ghost use Rattle.jc_infer.specs.Naming.{any_true, names, names_in_arg};

use jc_constraints::is_unknown;
use jc_types::{Arg, Ty, VarId};

/// Whether a type names one of these type variables, at any depth. Bounds of captured variables aren't looked into.
#[cycle(names)]
#[tactic(auto, using(crate::proofs::Named::named))]
pub fn names(vars: &[VarId], t: &Ty) -> bool
    ensures { result ≡ names vars.now t.now }
{
    match t {
        Ty::Variable(v) => is_unknown(vars, *v),
        Ty::Class { args, .. } => some_arg_names(vars, args.slice()),
        Ty::Array { of, .. } => names(vars, of.get()),
        Ty::Meet { parts } => some_names(vars, parts.slice()),
        Ty::Prim(_) => false,
        Ty::Raw { .. } => false,
        Ty::Captured(_) => false,
        Ty::NullTy => false,
    }
}

#[cycle(names)]
#[tactic(auto, using(crate::proofs::Named::named))]
fn names_in_arg(vars: &[VarId], arg: &Arg) -> bool
    ensures { result ≡ names_in_arg vars.now arg.now }
{
    match arg {
        Arg::Exact(t) => names(vars, t),
        Arg::Any => false,
        Arg::Extends(t) => names(vars, t),
        Arg::Super(t) => names(vars, t),
    }
}

#[cycle(names)]
fn some_arg_names(vars: &[VarId], args: &[Arg]) -> bool
    ensures { result ≡ any_true (map (names_in_arg vars.now) args.now) }
{
    for i in 0..args.len() {
        if names_in_arg(vars, &args[i]) {
            return true;
        }
    }
    false
}

#[cycle(names)]
fn some_names(vars: &[VarId], types: &[Ty]) -> bool
    ensures { result ≡ any_true (map (names vars.now) types.now) }
{
    for i in 0..types.len() {
        if names(vars, &types[i]) {
            return true;
        }
    }
    false
}
