//! The view of a type as a class, without capture.
ghost use Rattle.std.specs.Prelude.{◌≡◌, ◌∷◌, [], map, IfOk};
ghost use Rattle.jc_judge.specs.Views.{first_of};
ghost use Rattle.jc_sub.specs.Reaching.{own_arg};
ghost use Rattle.jc_lub.specs.Uncaptured.{object, class_view, up_view_within, up_view, view_steps};

use crate::passing::put;
use jc_rules::{Items, WantOfMemory};
use jc_sub::view;
use jc_types::{
    Arg, Bounds, ClassId, Table, Ty, VarId, captured_uppers, class_vars, declared_bounds,
};
use std::alloc::Global;

/// `java.lang.Object`.
pub fn object(alloc: Global) -> Ty
    ensures { result ≡ object }
{
    Ty::Class {
        id: ClassId(0),
        args: Items::new(alloc),
    }
}

// The parameters of a class as arguments.
fn own_args(alloc: Global, vars: &[VarId]) -> Result<Items<Arg>, WantOfMemory>
    ensures { IfOk result (λ r. r ≡ map own_arg vars.now) }
{
    let mut out = Items::new(alloc);
    for i in 0..vars.len() {
        out.push(Arg::Exact(Ty::Variable(vars[i])))?;
    }
    Ok(out)
}

// The view of a class type, its wildcards included.
fn class_view(
    alloc: Global,
    table: &Table,
    k: ClassId,
    id: ClassId,
    args: &[Arg],
) -> Result<Option<Ty>, WantOfMemory>
    ensures { IfOk result (λ r. r ≡ class_view table.now k id args.now) }
{
    let vars = class_vars(table, id);
    if args.len() != vars.len() {
        return view(alloc, table, k, &Ty::Raw { id });
    }
    let own = Ty::Class {
        id,
        args: own_args(alloc, vars)?,
    };
    match view(alloc, table, k, &own)? {
        None => Ok(None),
        Some(above) => Ok(Some(put(alloc, vars, args, &above)?)),
    }
}

#[cycle(up_view)]
#[tactic(auto, using(jc_types::proofs::Opened::opened, crate::proofs::Ups::up_once))]
fn up_view_within(
    alloc: Global,
    table: &Table,
    env: &[Bounds],
    steps: u128,
    k: ClassId,
    t: &Ty,
) -> Result<Option<Ty>, WantOfMemory>
    ensures { IfOk result (λ r. r ≡ up_view_within table.now env.now steps k t.now) }
{
    if steps == 0 {
        return Ok(None);
    }
    match t {
        Ty::Prim(_) => Ok(None),
        Ty::Class { id, args } => class_view(alloc, table, k, *id, args.slice()),
        Ty::Raw { .. } => view(alloc, table, k, t),
        Ty::Array { .. } => view(alloc, table, k, t),
        Ty::Variable(v) => first_up_view(
            alloc,
            table,
            env,
            steps - 1,
            k,
            declared_bounds(table, *v),
        ),
        Ty::Captured(c) => first_up_view(alloc, table, env, steps - 1, k, captured_uppers(env, *c)),
        Ty::Meet { parts } => first_up_view(alloc, table, env, steps - 1, k, parts.slice()),
        Ty::NullTy => Ok(None),
    }
}

#[cycle(up_view)]
fn first_up_view(
    alloc: Global,
    table: &Table,
    env: &[Bounds],
    steps: u128,
    k: ClassId,
    types: &[Ty],
) -> Result<Option<Ty>, WantOfMemory>
    ensures { IfOk result (λ r. r ≡ first_of (up_view_within table.now env.now steps k) types.now) }
{
    let mut rest = types;
    while let [t, more @ ..] = rest {
        if let Some(v) = up_view_within(alloc, table, env, steps, k, t)? {
            return Ok(Some(v));
        }
        rest = more;
    }
    Ok(None)
}

/// Steps enough for each view: twice as many as there are variables.
pub fn view_steps(table: &Table, env: &[Bounds]) -> u128
    ensures { result ≡ view_steps table.now env.now }
{
    let variables = table.variables.slice().len() as u128 + env.len() as u128;
    2 * variables + 2
}

/// The supertype of class `k` that a type has as it stands, wildcards included (JLS 4.10.2). That of a variable is that of its first
/// bound with one, and that of an intersection that of its first such part. A wildcard goes over where its parameter is a whole
/// argument there, and an argument that names the parameter deeper is `?`.
#[tactic(auto, unfolding(crate::specs::Uncaptured::up_view))]
pub fn up_view(
    alloc: Global,
    table: &Table,
    env: &[Bounds],
    k: ClassId,
    t: &Ty,
) -> Result<Option<Ty>, WantOfMemory>
    ensures { IfOk result (λ r. r ≡ up_view table.now env.now k t.now) }
{
    up_view_within(alloc, table, env, view_steps(table, env), k, t)
}
