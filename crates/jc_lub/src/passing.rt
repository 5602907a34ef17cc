//! The arguments of a class type in the supertypes of its class.
ghost use Rattle.std.specs.Prelude.{◌≡◌, length, IfOk};
ghost use Rattle.jc_types.specs.declared.form.Arg.{out-Arg};
ghost use Rattle.jc_types.specs.declared.form.Ty.{out-Ty};
ghost use Rattle.jc_types.specs.declared.form.Ty.TheVariants.{Class};
ghost use Rattle.jc_types.specs.Substitution.{subst};
ghost use Rattle.jc_lub.specs.Uncaptured.{same_args, filled_at, filled, arg_for, parameter_at, whole, passed, all_passed, args_of, put};

use jc_rules::{Items, WantOfMemory};
use jc_types::{Arg, ClassId, Ty, VarId, copy_arg, copy_type, same_type, substitute};
use std::alloc::Global;

/// Whether two arguments are the same (JLS 4.5.1).
#[tactic(auto, using(jc_types::proofs::Opened::opened), unfolding(crate::specs::Uncaptured::same_args))]
pub fn same_args(a: &Arg, b: &Arg) -> bool
    ensures { result ≡ same_args a.now b.now }
{
    match a {
        Arg::Exact(t) => match b {
            Arg::Exact(u) => same_type(t, u),
            _ => false,
        },
        Arg::Any => match b {
            Arg::Any => true,
            _ => false,
        },
        Arg::Extends(t) => match b {
            Arg::Extends(u) => same_type(t, u),
            _ => false,
        },
        Arg::Super(t) => match b {
            Arg::Super(u) => same_type(t, u),
            _ => false,
        },
    }
}

/// The arguments of a class type.
#[tactic(auto, using(jc_types::proofs::Opened::opened), unfolding(crate::specs::Uncaptured::args_of))]
pub fn args_of(t: &Ty) -> &[Arg]
    ensures { result.now ≡ args_of t.now }
{
    match t {
        Ty::Class { args, .. } => args.slice(),
        _ => &[],
    }
}

#[tactic(auto, using(jc_types::proofs::Opened::opened))]
fn fill(alloc: Global, x: &Ty, arg: &Arg) -> Result<Ty, WantOfMemory>
    ensures { IfOk result (λ r. r ≡ filled_at x.now (out-Arg arg.now)) }
{
    match arg {
        Arg::Exact(t) => copy_type(alloc, t),
        _ => copy_type(alloc, x),
    }
}

// The types of arguments, and this one for each wildcard.
fn filled(alloc: Global, x: &Ty, args: &[Arg]) -> Result<Items<Ty>, WantOfMemory>
    ensures types { IfOk result (λ r. r ≡ filled x.now args.now) }
    ensures length { IfOk result (λ r. length r ≡ length args.now) }
{
    let mut out = Items::new(alloc);
    let mut rest = args;
    while let [arg, more @ ..] = rest {
        let t = fill(alloc, x, arg)?;
        out.push(t)?;
        rest = more;
    }
    Ok(out)
}

// The argument for a parameter.
fn arg_for(
    alloc: Global,
    vars: &[VarId],
    args: &[Arg],
    v: VarId,
) -> Result<Option<Arg>, WantOfMemory>
    ensures { IfOk result (λ r. r ≡ arg_for vars.now args.now v) }
{
    let mut left = vars;
    let mut rest = args;
    while let [w, others @ ..] = left {
        match rest {
            [] => return Ok(None),
            [arg, more @ ..] => {
                if w.0 == v.0 {
                    return Ok(Some(copy_arg(alloc, arg)?));
                }
                rest = more;
            }
        }
        left = others;
    }
    Ok(None)
}

#[tactic(auto, using(jc_types::proofs::Opened::opened))]
fn parameter(
    alloc: Global,
    vars: &[VarId],
    args: &[Arg],
    t: &Ty,
) -> Result<Option<Arg>, WantOfMemory>
    ensures { IfOk result (λ r. r ≡ parameter_at vars.now args.now (out-Ty t.now)) }
{
    match t {
        Ty::Variable(v) => arg_for(alloc, vars, args, *v),
        _ => Ok(None),
    }
}

// The argument that stands for a parameter which is this whole argument.
#[tactic(auto, using(jc_types::proofs::Opened::opened), unfolding(crate::specs::Uncaptured::whole))]
fn whole(alloc: Global, vars: &[VarId], args: &[Arg], x: &Arg) -> Result<Option<Arg>, WantOfMemory>
    ensures { IfOk result (λ r. r ≡ whole vars.now args.now x.now) }
{
    match x {
        Arg::Exact(t) => parameter(alloc, vars, args, t),
        _ => Ok(None),
    }
}

fn passed(alloc: Global, whole: Option<Arg>, one: &Arg, other: &Arg) -> Result<Arg, WantOfMemory>
    ensures { IfOk result (λ r. r ≡ passed whole one.now other.now) }
{
    match whole {
        Some(arg) => Ok(arg),
        None => {
            if same_args(one, other) {
                copy_arg(alloc, one)
            } else {
                Ok(Arg::Any)
            }
        }
    }
}

// The arguments of a supertype, of which `ones` and `others` are what they are with two different types for the wildcards.
fn all_passed(
    alloc: Global,
    vars: &[VarId],
    args: &[Arg],
    declared: &[Arg],
    ones: &[Arg],
    others: &[Arg],
) -> Result<Items<Arg>, WantOfMemory>
    ensures { IfOk result (λ r. r ≡ all_passed vars.now args.now declared.now ones.now others.now) }
{
    let mut out = Items::new(alloc);
    let mut left = declared;
    let mut first = ones;
    let mut second = others;
    while let [x, later @ ..] = left {
        let [one, further @ ..] = first else {
            return Ok(out);
        };
        let [other, more @ ..] = second else {
            return Ok(out);
        };
        let whole = whole(alloc, vars, args, x)?;
        let arg = passed(alloc, whole, one, other)?;
        out.push(arg)?;
        left = later;
        first = further;
        second = more;
    }
    Ok(out)
}

// The type with the arguments for the parameters, and this type for each wildcard.
fn put_with(alloc: Global, vars: &[VarId], args: &[Arg], x: &Ty, t: &Ty) -> Result<Ty, WantOfMemory>
    requires { length vars.now ≡ length args.now }
    ensures { IfOk result (λ r. r ≡ subst vars.now (filled x.now args.now) t.now) }
{
    let by = filled(alloc, x, args)?;
    substitute(alloc, t, vars, by.slice())
}

// The arguments of a supertype.
fn put_args(
    alloc: Global,
    vars: &[VarId],
    args: &[Arg],
    declared: &[Arg],
    t: &Ty,
) -> Result<Items<Arg>, WantOfMemory>
    requires { length vars.now ≡ length args.now }
    ensures { IfOk result (λ r. r ≡ all_passed vars.now args.now declared.now (args_of (subst vars.now (filled Ty.NullTy args.now) t.now)) (args_of (subst vars.now (filled (Ty.Raw (record { 0 = 0 })) args.now) t.now))) }
{
    let one = put_with(alloc, vars, args, &Ty::NullTy, t)?;
    let other = put_with(alloc, vars, args, &Ty::Raw { id: ClassId(0) }, t)?;
    all_passed(alloc, vars, args, declared, args_of(&one), args_of(&other))
}

/// A supertype of a class, with these arguments for the class's parameters.
#[tactic(auto, using(jc_types::proofs::Opened::opened), unfolding(crate::specs::Uncaptured::put))]
pub fn put(alloc: Global, vars: &[VarId], args: &[Arg], t: &Ty) -> Result<Ty, WantOfMemory>
    requires { length vars.now ≡ length args.now }
    ensures { IfOk result (λ r. r ≡ put vars.now args.now t.now) }
{
    match t {
        Ty::Class { id, args: declared } => {
            let args = put_args(alloc, vars, args, declared.slice(), t)?;
            Ok(Ty::Class { id: *id, args })
        }
        _ => copy_type(alloc, t),
    }
}
