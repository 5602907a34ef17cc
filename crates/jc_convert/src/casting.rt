//! Casting conversion (JLS 5.5).
ghost use Rattle.std.specs.Prelude.{◌≡◌, ◌-◌, None, IfOk};
ghost use Rattle.jc_types.specs.declared.form.Ty.{out-Ty};
ghost use Rattle.jc_judge.specs.Meeting.{as_one};
ghost use Rattle.jc_convert.specs.Rows.{first_row};
ghost use Rattle.jc_convert.specs.Converting.{unboxed};
ghost use Rattle.jc_convert.specs.Casting.{is_numeric, primitive_casts, narrowing_casts, reference_casts, bound_within, bound_of, unboxing_check, unboxing_casts, casts_from_primitive, casts_from_reference, cast};

use crate::answer::Converts;
use crate::boxing::{box_type, primitive_below, unboxed, unboxing};
use crate::converting::{boxing_conversion, up_to};
use crate::legal::{is_legal, one_bound};
use crate::steps::{identity, one_step, two_steps, unchecked_step};
use crate::unchecked::converts_unchecked;
use jc_judge::Answer;
use jc_rules::WantOfMemory;
use jc_sub::below;
use jc_types::{
    Env, Primitive, Step, Table, Ty, captured_uppers, copy_type, declared_bounds, same_type,
};
use std::alloc::Global;

fn is_numeric(p: Primitive) -> bool
    ensures { result ≡ is_numeric p }
{
    p != Primitive::Boolean
}

fn primitive_cast(alloc: Global, p: Primitive, q: Primitive) -> Result<Converts, WantOfMemory>
    ensures { IfOk result (λ r. r ≡ first_row (primitive_casts p q)) }
{
    if p == q {
        return Ok(identity(alloc));
    }
    if primitive_below(p, q) {
        return one_step(alloc, Step::Widen(q));
    }
    if is_numeric(p) && is_numeric(q) {
        return one_step(alloc, Step::Narrow(q));
    }
    Ok(Converts::NoConversion)
}

// Unchecked, or narrowing.
fn narrowing_cast(
    alloc: Global,
    table: &Table,
    env: &Env,
    s: &Ty,
    t: &Ty,
) -> Result<Converts, WantOfMemory>
    ensures { IfOk result (λ r. r ≡ first_row (narrowing_casts table.now env.now.bounds s.now t.now)) }
{
    if converts_unchecked(alloc, table, env.bounds.slice(), s, t)? {
        let up = up_to(alloc, t)?;
        return unchecked_step(alloc, up);
    }
    if is_legal(alloc, table, env, s, t)? {
        let t = copy_type(alloc, t)?;
        return one_step(alloc, Step::Check(t));
    }
    Ok(Converts::NoConversion)
}

fn reference_cast(
    alloc: Global,
    table: &Table,
    env: &Env,
    s: &Ty,
    t: &Ty,
) -> Result<Converts, WantOfMemory>
    ensures { IfOk result (λ r. r ≡ first_row (reference_casts table.now env.now.bounds s.now t.now)) }
{
    if same_type(s, t) {
        return Ok(identity(alloc));
    }
    match below(alloc, table, env, s, t)? {
        Answer::Yes => {
            let up = up_to(alloc, t)?;
            one_step(alloc, up)
        }
        Answer::Deep => Ok(Converts::Deep),
        Answer::No => narrowing_cast(alloc, table, env, s, t),
    }
}

#[cycle(bound)]
#[tactic(auto, using(jc_types::proofs::Opened::opened, crate::proofs::Bounds::bound_once))]
fn bound_within(
    alloc: Global,
    table: &Table,
    env: &Env,
    steps: u128,
    t: &Ty,
) -> Result<Ty, WantOfMemory>
    ensures { IfOk result (λ r. r ≡ bound_within table.now env.now.bounds steps t.now) }
{
    if steps == 0 {
        return copy_type(alloc, t);
    }
    match t {
        Ty::Variable(v) => bound_of_all(alloc, table, env, steps - 1, declared_bounds(table, *v)),
        Ty::Captured(c) => bound_of_all(
            alloc,
            table,
            env,
            steps - 1,
            captured_uppers(env.bounds.slice(), *c),
        ),
        Ty::Prim(_) => copy_type(alloc, t),
        Ty::Class { .. } => copy_type(alloc, t),
        Ty::Raw { .. } => copy_type(alloc, t),
        Ty::Array { .. } => copy_type(alloc, t),
        Ty::Meet { .. } => copy_type(alloc, t),
        Ty::NullTy => copy_type(alloc, t),
    }
}

#[cycle(bound)]
fn bound_of_all(
    alloc: Global,
    table: &Table,
    env: &Env,
    steps: u128,
    bounds: &[Ty],
) -> Result<Ty, WantOfMemory>
    ensures { IfOk result (λ r. r ≡ bound_within table.now env.now.bounds steps (as_one bounds.now)) }
{
    let bound = one_bound(alloc, bounds)?;
    bound_within(alloc, table, env, steps, &bound)
}

// What a variable is bound by.
#[tactic(auto, unfolding(crate::specs::Casting::bound_of))]
fn bound_of(alloc: Global, table: &Table, env: &Env, t: &Ty) -> Result<Ty, WantOfMemory>
    ensures { IfOk result (λ r. r ≡ bound_of table.now env.now.bounds t.now) }
{
    let steps = table.variables.slice().len() as u128 + env.bounds.len() as u128 + 1;
    bound_within(alloc, table, env, steps, t)
}

// Narrowing to the class of a primitive type, and unboxing.
fn unboxing_check(
    alloc: Global,
    table: &Table,
    env: &Env,
    s: &Ty,
    q: Primitive,
) -> Result<Converts, WantOfMemory>
    ensures { IfOk result (λ r. r ≡ first_row (unboxing_casts table.now env.now.bounds s.now None q)) }
{
    let bound = bound_of(alloc, table, env, s)?;
    let class = box_type(alloc, table, q);
    match below(alloc, table, env, &class, &bound)? {
        Answer::Yes => two_steps(alloc, Step::Check(class), Step::Unbox),
        Answer::Deep => Ok(Converts::Deep),
        Answer::No => Ok(Converts::NoConversion),
    }
}

fn unboxing_cast(
    alloc: Global,
    table: &Table,
    env: &Env,
    s: &Ty,
    q: Primitive,
) -> Result<Converts, WantOfMemory>
    ensures { IfOk result (λ r. r ≡ first_row (unboxing_casts table.now env.now.bounds s.now (unboxed table.now env.now.bounds s.now) q)) }
{
    match unboxed(alloc, table, env.bounds.slice(), s)? {
        None => unboxing_check(alloc, table, env, s, q),
        Some(p) => {
            if primitive_below(p, q) {
                return unboxing(alloc, table, s, p, q);
            }
            unboxing_check(alloc, table, env, s, q)
        }
    }
}

#[tactic(auto, using(jc_types::proofs::Opened::opened))]
fn cast_from_primitive(
    alloc: Global,
    table: &Table,
    env: &Env,
    p: Primitive,
    t: &Ty,
) -> Result<Converts, WantOfMemory>
    ensures { IfOk result (λ r. r ≡ first_row (casts_from_primitive table.now env.now.bounds p t.now (out-Ty t.now))) }
{
    match t {
        Ty::Prim(q) => primitive_cast(alloc, p, *q),
        _ => boxing_conversion(alloc, table, env, None, p, t),
    }
}

#[tactic(auto, using(jc_types::proofs::Opened::opened))]
fn cast_from_reference(
    alloc: Global,
    table: &Table,
    env: &Env,
    s: &Ty,
    t: &Ty,
) -> Result<Converts, WantOfMemory>
    ensures { IfOk result (λ r. r ≡ first_row (casts_from_reference table.now env.now.bounds s.now t.now (out-Ty t.now))) }
{
    match t {
        Ty::Prim(q) => unboxing_cast(alloc, table, env, s, *q),
        _ => reference_cast(alloc, table, env, s, t),
    }
}

/// Casting conversion (JLS 5.5): identity, widening and narrowing of primitive types; widening, unchecked and narrowing conversion of
/// references; boxing and widening behind it; unboxing and widening behind it; and narrowing to the class of a primitive type that is
/// below the operand's type, and unboxing. The first row of the table that isn't refuted decides.
#[tactic(auto, using(jc_types::proofs::Opened::opened), unfolding(crate::specs::Casting::cast_rows))]
pub fn cast(
    alloc: Global,
    table: &Table,
    env: &Env,
    from: &Ty,
    to: &Ty,
) -> Result<Converts, WantOfMemory>
    ensures { IfOk result (λ r. r ≡ cast table.now env.now.bounds from.now to.now) }
{
    match from {
        Ty::Prim(p) => cast_from_primitive(alloc, table, env, *p, to),
        _ => cast_from_reference(alloc, table, env, from, to),
    }
}
