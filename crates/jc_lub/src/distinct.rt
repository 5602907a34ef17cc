//! Provably distinct types (JLS 4.5.1).
ghost use Rattle.std.specs.Prelude.{◌≡◌, ◌++◌, length, IfOk, OnOk};
ghost use Rattle.jc_types.specs.Accessors.{vars_of};
ghost use Rattle.jc_judge.specs.Capturing.{fresh_args};
ghost use Rattle.jc_lub.specs.Distinct.{base_below, is_object_base, erased_below, is_variable, is_settled, unrelated, pair_distinct, some_distinct, args_distinct, is_parameterized, classes_distinct, provably_distinct};

use jc_rules::{Items, WantOfMemory};
use jc_sub::{captured_args, fresh_bounds, view};
use jc_types::{
    Arg, Base, Bounds, ClassId, Env, Erased, Table, Ty, VarId, class_vars, copy_bounds, erasure,
    same_type,
};
use std::alloc::Global;

fn class_below(alloc: Global, table: &Table, j: ClassId, k: ClassId) -> Result<bool, WantOfMemory>
    ensures { IfOk result (λ r. r ≡ base_below table.now (Base.Class j) (Base.Class k)) }
{
    let above = view(alloc, table, k, &Ty::Raw { id: j })?;
    Ok(above.is_some())
}

fn base_below(alloc: Global, table: &Table, below: Base, above: Base) -> Result<bool, WantOfMemory>
    ensures { IfOk result (λ r. r ≡ base_below table.now below above) }
{
    match below {
        Base::Prim(p) => match above {
            Base::Prim(q) => Ok(p == q),
            Base::Class(_) => Ok(false),
            Base::NullTy => Ok(false),
        },
        Base::Class(j) => match above {
            Base::Prim(_) => Ok(false),
            Base::Class(k) => class_below(alloc, table, j, k),
            Base::NullTy => Ok(false),
        },
        Base::NullTy => match above {
            Base::Prim(_) => Ok(false),
            Base::Class(_) => Ok(true),
            Base::NullTy => Ok(true),
        },
    }
}

fn is_object_base(base: Base) -> bool
    ensures { result ≡ is_object_base base }
{
    match base {
        Base::Prim(_) => false,
        Base::Class(k) => k.0 == 0,
        Base::NullTy => false,
    }
}

/// Whether an erased type is below another (JLS 4.10).
pub fn erased_below(
    alloc: Global,
    table: &Table,
    below: Erased,
    above: Erased,
) -> Result<bool, WantOfMemory>
    ensures { IfOk result (λ r. r ≡ erased_below table.now below above) }
{
    if below.dims == above.dims {
        return base_below(alloc, table, below.base, above.base);
    }
    Ok(above.dims < below.dims && is_object_base(above.base))
}

fn unrelated(alloc: Global, table: &Table, one: Erased, other: Erased) -> Result<bool, WantOfMemory>
    ensures { IfOk result (λ r. r ≡ unrelated table.now one other) }
{
    if erased_below(alloc, table, one, other)? {
        return Ok(false);
    }
    let up = erased_below(alloc, table, other, one)?;
    Ok(!up)
}

#[tactic(auto, using(jc_types::proofs::Opened::opened), unfolding(crate::specs::Distinct::is_variable))]
fn is_variable(t: &Ty) -> bool
    ensures { result ≡ is_variable t.now }
{
    match t {
        Ty::Variable(_) => true,
        Ty::Captured(_) => true,
        _ => false,
    }
}

#[tactic(auto, using(jc_types::proofs::Opened::opened), unfolding(crate::specs::Distinct::is_settled))]
fn is_settled(arg: &Arg) -> bool
    ensures { result ≡ is_settled arg.now }
{
    match arg {
        Arg::Exact(t) => !is_variable(t),
        _ => false,
    }
}

fn pair_distinct(
    alloc: Global,
    table: &Table,
    left: &Env,
    right: &Env,
    a: &Arg,
    s: &Ty,
    b: &Arg,
    t: &Ty,
) -> Result<bool, WantOfMemory>
    ensures { IfOk result (λ r. r ≡ pair_distinct table.now left.now.bounds right.now.bounds a.now s.now b.now t.now) }
{
    if is_settled(a) && is_settled(b) {
        return Ok(!same_type(s, t));
    }
    let one = erasure(table, left, s);
    let other = erasure(table, right, t);
    unrelated(alloc, table, one, other)
}

fn some_distinct(
    alloc: Global,
    table: &Table,
    left: &Env,
    right: &Env,
    args: &[Arg],
    types: &[Ty],
    other_args: &[Arg],
    other_types: &[Ty],
) -> Result<bool, WantOfMemory>
    ensures { IfOk result (λ r. r ≡ some_distinct table.now left.now.bounds right.now.bounds args.now types.now other_args.now other_types.now) }
{
    let mut xs = args;
    let mut ss = types;
    let mut ys = other_args;
    let mut ts = other_types;
    while let [a, more_args @ ..] = xs {
        let [s, more_types @ ..] = ss else {
            return Ok(false);
        };
        let [b, further_args @ ..] = ys else {
            return Ok(false);
        };
        let [t, further_types @ ..] = ts else {
            return Ok(false);
        };
        if pair_distinct(alloc, table, left, right, a, s, b, t)? {
            return Ok(true);
        }
        xs = more_args;
        ss = more_types;
        ys = further_args;
        ts = further_types;
    }
    Ok(false)
}

fn push_bounds(
    alloc: Global,
    bounds: &[Bounds],
    out: &mut Items<Bounds>,
) -> Result<(), WantOfMemory>
    ensures { OnOk result (out.new ≡ out.old ++ bounds.now) }
{
    let mut rest = bounds;
    while let [b, more @ ..] = rest {
        let b = copy_bounds(alloc, b)?;
        out.push(b)?;
        rest = more;
    }
    Ok(())
}

// An env with further variables behind its own.
fn extended(alloc: Global, env: &[Bounds], fresh: Items<Bounds>) -> Result<Env, WantOfMemory>
    ensures { IfOk result (λ e. e.bounds ≡ env.now ++ fresh) }
{
    let mut bounds = Items::new(alloc);
    push_bounds(alloc, env, &mut bounds)?;
    bounds.append(fresh)?;
    Ok(Env { bounds })
}

// The env in which the arguments of a type are captured.
fn captured_env(
    alloc: Global,
    table: &Table,
    env: &[Bounds],
    vars: &[VarId],
    by: &[Ty],
    args: &[Arg],
) -> Result<Env, WantOfMemory>
    requires { length vars.now ≡ length by.now }
    ensures { IfOk result (λ e. e.bounds ≡ env.now ++ fresh_args table.now vars.now by.now vars.now args.now) }
{
    let fresh = fresh_bounds(alloc, table, vars, by, args)?;
    extended(alloc, env, fresh)
}

fn args_distinct(
    alloc: Global,
    table: &Table,
    env: &[Bounds],
    id: ClassId,
    args: &[Arg],
    others: &[Arg],
) -> Result<bool, WantOfMemory>
    requires count { length args.now ≡ length (vars_of table.now id) }
    requires same { length others.now ≡ length (vars_of table.now id) }
    ensures { IfOk result (λ r. r ≡ args_distinct table.now env.now id args.now others.now) }
{
    let vars = class_vars(table, id);
    let types = captured_args(alloc, env.len() as u64, args)?;
    let other_types = captured_args(alloc, env.len() as u64, others)?;
    let left = captured_env(alloc, table, env, vars, types.slice(), args)?;
    let right = captured_env(alloc, table, env, vars, other_types.slice(), others)?;
    some_distinct(
        alloc,
        table,
        &left,
        &right,
        args,
        types.slice(),
        others,
        other_types.slice(),
    )
}

fn is_parameterized(table: &Table, id: ClassId, args: &[Arg]) -> bool
    ensures { result ≡ is_parameterized table.now id args.now }
{
    !args.is_empty() && args.len() == class_vars(table, id).len()
}

fn classes_distinct(
    alloc: Global,
    table: &Table,
    env: &[Bounds],
    i: ClassId,
    args: &[Arg],
    j: ClassId,
    others: &[Arg],
) -> Result<bool, WantOfMemory>
    ensures { IfOk result (λ r. r ≡ classes_distinct table.now env.now i args.now j others.now) }
{
    if !is_parameterized(table, i, args) || !is_parameterized(table, j, others) {
        return Ok(false);
    }
    if i.0 != j.0 {
        return Ok(true);
    }
    args_distinct(alloc, table, env, i, args, others)
}

/// Whether two types are provably distinct parameterized types (JLS 4.5.1): their classes differ, or two arguments at one place are
/// distinct. Two that are neither wildcards nor variables are distinct where they are not the same type. Else a wildcard or a variable
/// stands for its upper bound, a wildcard's after capture, and they are distinct where neither erasure is below the other.
#[tactic(auto, using(jc_types::proofs::Opened::opened), unfolding(crate::specs::Distinct::provably_distinct))]
pub fn provably_distinct(
    alloc: Global,
    table: &Table,
    env: &Env,
    a: &Ty,
    b: &Ty,
) -> Result<bool, WantOfMemory>
    ensures { IfOk result (λ r. r ≡ provably_distinct table.now env.now.bounds a.now b.now) }
{
    match a {
        Ty::Class { id: i, args } => match b {
            Ty::Class {
                id: j,
                args: others,
            } => classes_distinct(
                alloc,
                table,
                env.bounds.slice(),
                *i,
                args.slice(),
                *j,
                others.slice(),
            ),
            _ => Ok(false),
        },
        _ => Ok(false),
    }
}
