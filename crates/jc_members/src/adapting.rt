//! Types of a signature for those of another one, and leftmost bounds for its type parameters (JLS 4.6, 8.4.2).
ghost use Rattle.std.specs.Prelude.{◌≡◌, ◌+◌, IfOk, length, map};
ghost use Rattle.jc_types.specs.Substitution.{subst};
ghost use Rattle.jc_overriding.specs.Signatures.{adapted, erased_in, erased_within, first_bound, first_or, leftmost, variables};
ghost use Rattle.jc_overriding.specs.Viewing.{with_dims};

use crate::erasing::{plain_within, with_dims};
use crate::viewing::put_all;
use jc_overriding::MethodView;
use jc_rules::{Items, WantOfMemory};
use jc_types::{Env, Table, Ty, VarId, copy_type, substitute};
use std::alloc::Global;

/// These type variables as types.
pub fn variables(alloc: Global, vars: &[VarId]) -> Result<Items<Ty>, WantOfMemory>
    ensures { IfOk result (λ r. r ≡ variables vars.now) }
{
    let mut out = Items::new(alloc);
    for i in 0..vars.len() {
        out.push(Ty::Variable(vars[i]))?;
    }
    Ok(out)
}

// As many of the ones as there are of the others, each for each.
#[tactic(auto, using(crate::proofs::Short::subst_short))]
fn put_short(alloc: Global, vars: &[VarId], by: &[Ty], t: &Ty) -> Result<Ty, WantOfMemory>
    ensures { IfOk result (λ r. r ≡ subst vars.now by.now t.now) }
{
    let most = vars.len().min(by.len());
    substitute(alloc, t, &vars[..most], &by[..most])
}

/// A type of b's signature with a's type parameters for b's.
pub fn adapted(alloc: Global, a: &MethodView, b: &MethodView, t: &Ty) -> Result<Ty, WantOfMemory>
    ensures { IfOk result (λ r. r ≡ adapted a.now b.now t.now) }
{
    let by = variables(alloc, a.vars.slice())?;
    put_short(alloc, b.vars.slice(), by.slice(), t)
}

/// Each of these types of b's signature with a's type parameters for b's, where there are as many.
pub fn adapted_all(
    alloc: Global,
    a: &MethodView,
    b: &MethodView,
    types: &[Ty],
) -> Result<Items<Ty>, WantOfMemory>
    requires { length b.now.vars ≡ length a.now.vars }
    ensures { IfOk result (λ r. r ≡ map (adapted a.now b.now) types.now) }
{
    let by = variables(alloc, a.vars.slice())?;
    put_all(alloc, types, b.vars.slice(), by.slice())
}

fn first_or<'a>(t: &'a Ty, bounds: &'a [Ty]) -> &'a Ty
    ensures { result.now ≡ first_or t.now bounds.now }
{
    match bounds {
        [] => t,
        [first, ..] => first,
    }
}

// The first bound of a type parameter, and the type itself where it is none of these.
fn first_bound<'a>(t: &'a Ty, v: VarId, vars: &[VarId], bounds: &'a [Items<Ty>]) -> &'a Ty
    ensures { result.now ≡ first_bound t.now v vars.now bounds.now }
{
    let mut left = vars;
    let mut rest = bounds;
    while let [w, others @ ..] = left {
        match rest {
            [] => return t,
            [of, more @ ..] => {
                if v.0 == w.0 {
                    return first_or(t, of.slice());
                }
                rest = more;
            }
        }
        left = others;
    }
    t
}

// So many dimensions, and `further + 1` more. No memory holds the text of as many as would overflow.
fn more_dims(dims: u64, further: u64) -> Result<u64, WantOfMemory>
    ensures { IfOk result (λ n. n ≡ dims + (further + 1)) }
{
    match dims.checked_add(further) {
        Some(sum) => match sum.checked_add(1) {
            Some(all) => Ok(all),
            None => Err(WantOfMemory),
        },
        None => Err(WantOfMemory),
    }
}

fn lifted(alloc: Global, dims: u64, t: &Ty) -> Result<Ty, WantOfMemory>
    ensures { IfOk result (λ r. r ≡ with_dims dims t.now) }
{
    with_dims(alloc, dims, copy_type(alloc, t)?)
}

// A type with leftmost bounds for a method's type parameters, in at most so many steps.
#[tactic(auto, using(jc_types::proofs::Opened::opened, crate::proofs::Dims::dims_laws), unfolding(jc_overriding::specs::Signatures::leftmost))]
fn leftmost(alloc: Global, b: &MethodView, steps: usize, t: &Ty) -> Result<Ty, WantOfMemory>
    ensures { IfOk result (λ r. r ≡ leftmost b.now steps t.now) }
{
    let mut dims: u64 = 0;
    let mut at = t;
    let mut left = steps;
    while left > 0 {
        left -= 1;
        match at {
            Ty::Variable(v) => at = first_bound(at, *v, b.vars.slice(), b.bounds.slice()),
            Ty::Array { of, further } => {
                dims = more_dims(dims, *further)?;
                at = of.get();
            }
            Ty::Prim(_) => return lifted(alloc, dims, at),
            Ty::Class { .. } => return lifted(alloc, dims, at),
            Ty::Raw { .. } => return lifted(alloc, dims, at),
            Ty::Captured(_) => return lifted(alloc, dims, at),
            Ty::Meet { .. } => return lifted(alloc, dims, at),
            Ty::NullTy => return lifted(alloc, dims, at),
        }
    }
    lifted(alloc, dims, at)
}

/// A type of a signature, erased with leftmost bounds for its type parameters as the view has them, and with those of captured variables (JLS 4.6).
pub fn erased_within(
    alloc: Global,
    table: &Table,
    env: &Env,
    b: &MethodView,
    t: &Ty,
) -> Result<Ty, WantOfMemory>
    ensures { IfOk result (λ r. r ≡ erased_within table.now env.now.bounds b.now t.now) }
{
    let t = leftmost(alloc, b, b.vars.slice().len() + 1, t)?;
    plain_within(alloc, table, env, &t)
}

/// The same of a type without captured variables.
pub fn erased_in(alloc: Global, table: &Table, b: &MethodView, t: &Ty) -> Result<Ty, WantOfMemory>
    ensures { IfOk result (λ r. r ≡ erased_in table.now b.now t.now) }
{
    let env = Env {
        bounds: Items::new(alloc),
    };
    erased_within(alloc, table, &env, b, t)
}
