//! Assignment conversion (JLS 5.2) and method invocation conversion (JLS 5.3).
ghost use Rattle.std.specs.Prelude.{◌≡◌, None, IfOk};
ghost use Rattle.std.specs.Option.{option_copied};
ghost use Rattle.jc_types.specs.declared.form.Ty.{out-Ty};
ghost use Rattle.jc_convert.specs.Rows.{first_row};
ghost use Rattle.jc_convert.specs.Converting.{primitive_rows, constant_rows, reference_rows, boxing_rows, unboxing_rows, unboxed, rows_from_primitive, rows_from_reference, rows, assignment, invocation};

use crate::answer::Converts;
use crate::boxing::{
    box_type, boxing, narrows, narrows_to_box, primitive_below, unboxed, unboxing,
};
use crate::steps::{identity, one_step, two_steps, unchecked_step, unchecked_steps};
use crate::unchecked::converts_unchecked;
use jc_judge::Answer;
use jc_rules::WantOfMemory;
use jc_sub::below;
use jc_types::{Constant, Env, Primitive, Step, Table, Ty, copy_type, same_type};
use std::alloc::Global;

fn primitive_conversion(
    alloc: Global,
    constant: Option<&Constant>,
    p: Primitive,
    q: Primitive,
) -> Result<Converts, WantOfMemory>
    ensures { IfOk result (λ r. r ≡ first_row (primitive_rows (option_copied constant.entry) p q)) }
{
    if p == q {
        return Ok(identity(alloc));
    }
    if primitive_below(p, q) {
        return one_step(alloc, Step::Widen(q));
    }
    if narrows(constant, p, q) {
        return one_step(alloc, Step::Narrow(q));
    }
    Ok(Converts::NoConversion)
}

/// A step up to a type.
pub fn up_to(alloc: Global, t: &Ty) -> Result<Step, WantOfMemory>
    ensures { IfOk result (λ r. r ≡ Step.Up t.now) }
{
    let t = copy_type(alloc, t)?;
    Ok(Step::Up(t))
}

fn reference_conversion(
    alloc: Global,
    table: &Table,
    env: &Env,
    s: &Ty,
    t: &Ty,
) -> Result<Converts, WantOfMemory>
    ensures { IfOk result (λ r. r ≡ first_row (reference_rows table.now env.now.bounds s.now t.now)) }
{
    if same_type(s, t) {
        return Ok(identity(alloc));
    }
    match below(alloc, table, env, s, t)? {
        Answer::Yes => {
            let up = up_to(alloc, t)?;
            return one_step(alloc, up);
        }
        Answer::Deep => return Ok(Converts::Deep),
        Answer::No => {}
    }
    if converts_unchecked(alloc, table, env.bounds.slice(), s, t)? {
        let up = up_to(alloc, t)?;
        return unchecked_step(alloc, up);
    }
    Ok(Converts::NoConversion)
}

// A constant that narrows, and is boxed.
fn constant_boxing(
    alloc: Global,
    table: &Table,
    constant: Option<&Constant>,
    p: Primitive,
    t: &Ty,
) -> Result<Converts, WantOfMemory>
    ensures { IfOk result (λ r. r ≡ first_row (constant_rows table.now (option_copied constant.entry) p t.now)) }
{
    if narrows_to_box(alloc, table, constant, p, t, Primitive::Byte) {
        return two_steps(alloc, Step::Narrow(Primitive::Byte), Step::BoxUp);
    }
    if narrows_to_box(alloc, table, constant, p, t, Primitive::Short) {
        return two_steps(alloc, Step::Narrow(Primitive::Short), Step::BoxUp);
    }
    if narrows_to_box(alloc, table, constant, p, t, Primitive::Char) {
        return two_steps(alloc, Step::Narrow(Primitive::Char), Step::BoxUp);
    }
    Ok(Converts::NoConversion)
}

/// Boxing, and what may stand behind it.
pub fn boxing_conversion(
    alloc: Global,
    table: &Table,
    env: &Env,
    constant: Option<&Constant>,
    p: Primitive,
    t: &Ty,
) -> Result<Converts, WantOfMemory>
    ensures { IfOk result (λ r. r ≡ first_row (boxing_rows table.now env.now.bounds (option_copied constant.entry) p t.now)) }
{
    let class = box_type(alloc, table, p);
    match below(alloc, table, env, &class, t)? {
        Answer::Yes => return boxing(alloc, &class, t),
        Answer::Deep => return Ok(Converts::Deep),
        Answer::No => {}
    }
    if converts_unchecked(alloc, table, env.bounds.slice(), &class, t)? {
        let up = up_to(alloc, t)?;
        return unchecked_steps(alloc, Step::BoxUp, up);
    }
    constant_boxing(alloc, table, constant, p, t)
}

fn unboxing_conversion(
    alloc: Global,
    table: &Table,
    env: &Env,
    s: &Ty,
    q: Primitive,
) -> Result<Converts, WantOfMemory>
    ensures { IfOk result (λ r. r ≡ first_row (unboxing_rows table.now s.now (unboxed table.now env.now.bounds s.now) q)) }
{
    match unboxed(alloc, table, env.bounds.slice(), s)? {
        None => Ok(Converts::NoConversion),
        Some(p) => {
            if primitive_below(p, q) {
                return unboxing(alloc, table, s, p, q);
            }
            Ok(Converts::NoConversion)
        }
    }
}

#[tactic(auto, using(jc_types::proofs::Opened::opened))]
fn from_primitive(
    alloc: Global,
    table: &Table,
    env: &Env,
    constant: Option<&Constant>,
    p: Primitive,
    t: &Ty,
) -> Result<Converts, WantOfMemory>
    ensures { IfOk result (λ r. r ≡ first_row (rows_from_primitive table.now env.now.bounds (option_copied constant.entry) p t.now (out-Ty t.now))) }
{
    match t {
        Ty::Prim(q) => primitive_conversion(alloc, constant, p, *q),
        _ => boxing_conversion(alloc, table, env, constant, p, t),
    }
}

#[tactic(auto, using(jc_types::proofs::Opened::opened))]
fn from_reference(
    alloc: Global,
    table: &Table,
    env: &Env,
    s: &Ty,
    t: &Ty,
) -> Result<Converts, WantOfMemory>
    ensures { IfOk result (λ r. r ≡ first_row (rows_from_reference table.now env.now.bounds s.now t.now (out-Ty t.now))) }
{
    match t {
        Ty::Prim(q) => unboxing_conversion(alloc, table, env, s, *q),
        _ => reference_conversion(alloc, table, env, s, t),
    }
}

/// Assignment conversion (JLS 5.2) of an expression of type `from`, which has this constant value if it has one: identity, widening
/// and unchecked conversion, boxing and unboxing with widening behind them, and narrowing of a constant of type byte, short, char or
/// int that is a value of byte, short or char, to that type or to its class. The first row of the table that isn't refuted decides.
#[tactic(auto, using(jc_types::proofs::Opened::opened), unfolding(crate::specs::Converting::rows))]
pub fn assignment(
    alloc: Global,
    table: &Table,
    env: &Env,
    from: &Ty,
    constant: Option<&Constant>,
    to: &Ty,
) -> Result<Converts, WantOfMemory>
    ensures { IfOk result (λ r. r ≡ assignment table.now env.now.bounds from.now (option_copied constant.entry) to.now) }
{
    match from {
        Ty::Prim(p) => from_primitive(alloc, table, env, constant, *p, to),
        _ => from_reference(alloc, table, env, from, to),
    }
}

/// Method invocation conversion (JLS 5.3): that of an assignment, of an expression without a constant value.
pub fn invocation(
    alloc: Global,
    table: &Table,
    env: &Env,
    from: &Ty,
    to: &Ty,
) -> Result<Converts, WantOfMemory>
    ensures { IfOk result (λ r. r ≡ invocation table.now env.now.bounds from.now to.now) }
{
    assignment(alloc, table, env, from, None, to)
}
