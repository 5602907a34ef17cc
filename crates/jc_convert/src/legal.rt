//! Legal casts of references (JLS 5.5.1).
ghost use Rattle.std.specs.Prelude.{◌≡◌, ◌+◌, IfOk};
ghost use Rattle.jc_types.specs.declared.form.Ty.{out-Ty};
ghost use Rattle.jc_judge.specs.Meeting.{as_one};
ghost use Rattle.jc_convert.specs.Casting.{is_final, are_related, may_share, views_distinct, distinct_as, distinct_from, classes_legal, elements_legal, arrays_legal, array_legal, class_legal, settled_legal, all_legal, legal_from_all, target_legal, source_legal, legal_within, legal_steps, is_legal};

use jc_lub::{provably_distinct, up_view};
use jc_rules::{Boxed, WantOfMemory};
use jc_sub::{as_one, class_of, is_object, is_primitive, view};
use jc_types::{
    ClassId, Env, Table, Ty, captured_uppers, class_modifiers, class_vars, copy_type, copy_types,
    declared_bounds, is_interface, same_type,
};
use std::alloc::Global;

fn is_final(table: &Table, k: ClassId) -> bool
    ensures { result ≡ is_final table.now k }
{
    match class_modifiers(table, k) {
        None => false,
        Some(modifiers) => modifiers.is_final,
    }
}

fn are_related(alloc: Global, table: &Table, j: ClassId, k: ClassId) -> Result<bool, WantOfMemory>
    ensures { IfOk result (λ r. r ≡ are_related table.now j k) }
{
    if view(alloc, table, k, &Ty::Raw { id: j })?.is_some() {
        return Ok(true);
    }
    let down = view(alloc, table, j, &Ty::Raw { id: k })?;
    Ok(down.is_some())
}

fn may_share(table: &Table, j: ClassId, k: ClassId) -> bool
    ensures { result ≡ may_share table.now j k }
{
    (is_interface(table, j) && !is_final(table, k))
        || (is_interface(table, k) && !is_final(table, j))
}

fn views_distinct(
    alloc: Global,
    table: &Table,
    env: &Env,
    one: Option<Ty>,
    other: Option<Ty>,
) -> Result<bool, WantOfMemory>
    ensures { IfOk result (λ r. r ≡ views_distinct table.now env.now.bounds one other) }
{
    match one {
        None => Ok(false),
        Some(v) => match other {
            None => Ok(false),
            Some(w) => provably_distinct(alloc, table, env, &v, &w),
        },
    }
}

fn distinct_as(
    alloc: Global,
    table: &Table,
    env: &Env,
    s: &Ty,
    t: &Ty,
    k: ClassId,
) -> Result<bool, WantOfMemory>
    ensures { IfOk result (λ r. r ≡ distinct_as table.now env.now.bounds s.now t.now k) }
{
    if class_vars(table, k).is_empty() {
        return Ok(false);
    }
    let one = up_view(alloc, table, env.bounds.slice(), k, s)?;
    let other = up_view(alloc, table, env.bounds.slice(), k, t)?;
    views_distinct(alloc, table, env, one, other)
}

// The number of the next class. No memory holds as many as would overflow.
fn after(number: u64) -> Result<u64, WantOfMemory>
    ensures { IfOk result (λ n. n ≡ number + 1) }
{
    match number.checked_add(1) {
        Some(next) => Ok(next),
        None => Err(WantOfMemory),
    }
}

fn are_distinct(
    alloc: Global,
    table: &Table,
    env: &Env,
    s: &Ty,
    t: &Ty,
) -> Result<bool, WantOfMemory>
    ensures { IfOk result (λ r. r ≡ distinct_from table.now env.now.bounds s.now t.now 0 table.now.classes) }
{
    let mut number: u64 = 0;
    let mut rest = table.classes.slice();
    while let [_, more @ ..] = rest {
        if distinct_as(alloc, table, env, s, t, ClassId(number))? {
            return Ok(true);
        }
        number = after(number)?;
        rest = more;
    }
    Ok(false)
}

fn classes_legal(
    alloc: Global,
    table: &Table,
    env: &Env,
    s: &Ty,
    t: &Ty,
    one: Option<ClassId>,
    other: Option<ClassId>,
) -> Result<bool, WantOfMemory>
    ensures { IfOk result (λ r. r ≡ classes_legal table.now env.now.bounds s.now t.now one other) }
{
    match one {
        None => Ok(false),
        Some(j) => match other {
            None => Ok(false),
            Some(k) => {
                if !may_share(table, j, k) && !are_related(alloc, table, j, k)? {
                    return Ok(false);
                }
                let distinct = are_distinct(alloc, table, env, s, t)?;
                Ok(!distinct)
            }
        },
    }
}

#[tactic(auto, using(jc_types::proofs::Opened::opened))]
fn class_legal(
    alloc: Global,
    table: &Table,
    env: &Env,
    s: &Ty,
    t: &Ty,
) -> Result<bool, WantOfMemory>
    ensures { IfOk result (λ r. r ≡ class_legal table.now env.now.bounds s.now t.now (out-Ty t.now)) }
{
    match t {
        Ty::Array { .. } => Ok(is_object(s)),
        _ => classes_legal(alloc, table, env, s, t, class_of(s), class_of(t)),
    }
}

/// Several bounds as one type.
pub fn one_bound(alloc: Global, bounds: &[Ty]) -> Result<Ty, WantOfMemory>
    ensures { IfOk result (λ r. r ≡ as_one bounds.now) }
{
    let bounds = copy_types(alloc, bounds)?;
    Ok(as_one(alloc, bounds))
}

#[cycle(legal)]
#[tactic(auto, using(crate::proofs::Legals::legal_once))]
fn legal_within(
    alloc: Global,
    table: &Table,
    env: &Env,
    steps: u128,
    s: &Ty,
    t: &Ty,
) -> Result<bool, WantOfMemory>
    ensures { IfOk result (λ r. r ≡ legal_within table.now env.now.bounds steps s.now t.now) }
{
    if steps == 0 {
        return Ok(false);
    }
    source_legal(alloc, table, env, steps - 1, s, t)
}

#[cycle(legal)]
#[tactic(auto, using(jc_types::proofs::Opened::opened))]
fn source_legal(
    alloc: Global,
    table: &Table,
    env: &Env,
    steps: u128,
    s: &Ty,
    t: &Ty,
) -> Result<bool, WantOfMemory>
    ensures { IfOk result (λ r. r ≡ source_legal (legal_within table.now env.now.bounds steps) table.now env.now.bounds s.now t.now (out-Ty s.now) (out-Ty t.now)) }
{
    match s {
        Ty::Variable(v) => bounds_legal(alloc, table, env, steps, declared_bounds(table, *v), t),
        Ty::Captured(c) => bounds_legal(
            alloc,
            table,
            env,
            steps,
            captured_uppers(env.bounds.slice(), *c),
            t,
        ),
        Ty::Meet { parts } => legal_from_all(alloc, table, env, steps, parts.slice(), t),
        Ty::Prim(_) => target_legal(alloc, table, env, steps, s, t),
        Ty::Class { .. } => target_legal(alloc, table, env, steps, s, t),
        Ty::Raw { .. } => target_legal(alloc, table, env, steps, s, t),
        Ty::Array { .. } => target_legal(alloc, table, env, steps, s, t),
        Ty::NullTy => target_legal(alloc, table, env, steps, s, t),
    }
}

// From a variable with these bounds.
#[cycle(legal)]
fn bounds_legal(
    alloc: Global,
    table: &Table,
    env: &Env,
    steps: u128,
    bounds: &[Ty],
    t: &Ty,
) -> Result<bool, WantOfMemory>
    ensures { IfOk result (λ r. r ≡ legal_within table.now env.now.bounds steps (as_one bounds.now) t.now) }
{
    let bound = one_bound(alloc, bounds)?;
    legal_within(alloc, table, env, steps, &bound, t)
}

// To a variable with these bounds.
#[cycle(legal)]
fn legal_to_bounds(
    alloc: Global,
    table: &Table,
    env: &Env,
    steps: u128,
    s: &Ty,
    bounds: &[Ty],
) -> Result<bool, WantOfMemory>
    ensures { IfOk result (λ r. r ≡ legal_within table.now env.now.bounds steps s.now (as_one bounds.now)) }
{
    let bound = one_bound(alloc, bounds)?;
    legal_within(alloc, table, env, steps, s, &bound)
}

#[cycle(legal)]
fn legal_from_all(
    alloc: Global,
    table: &Table,
    env: &Env,
    steps: u128,
    types: &[Ty],
    t: &Ty,
) -> Result<bool, WantOfMemory>
    ensures { IfOk result (λ r. r ≡ legal_from_all (legal_within table.now env.now.bounds steps) types.now t.now) }
{
    let mut rest = types;
    while let [s, more @ ..] = rest {
        if !legal_within(alloc, table, env, steps, s, t)? {
            return Ok(false);
        }
        rest = more;
    }
    Ok(true)
}

#[cycle(legal)]
fn all_legal(
    alloc: Global,
    table: &Table,
    env: &Env,
    steps: u128,
    s: &Ty,
    types: &[Ty],
) -> Result<bool, WantOfMemory>
    ensures { IfOk result (λ r. r ≡ all_legal (legal_within table.now env.now.bounds steps) s.now types.now) }
{
    let mut rest = types;
    while let [t, more @ ..] = rest {
        if !legal_within(alloc, table, env, steps, s, t)? {
            return Ok(false);
        }
        rest = more;
    }
    Ok(true)
}

#[cycle(legal)]
#[tactic(auto, using(jc_types::proofs::Opened::opened))]
fn target_legal(
    alloc: Global,
    table: &Table,
    env: &Env,
    steps: u128,
    s: &Ty,
    t: &Ty,
) -> Result<bool, WantOfMemory>
    ensures { IfOk result (λ r. r ≡ target_legal (legal_within table.now env.now.bounds steps) table.now env.now.bounds s.now t.now (out-Ty s.now) (out-Ty t.now)) }
{
    match t {
        Ty::Variable(v) => legal_to_bounds(alloc, table, env, steps, s, declared_bounds(table, *v)),
        Ty::Captured(c) => legal_to_bounds(
            alloc,
            table,
            env,
            steps,
            s,
            captured_uppers(env.bounds.slice(), *c),
        ),
        Ty::Meet { parts } => all_legal(alloc, table, env, steps, s, parts.slice()),
        Ty::Prim(_) => settled_legal(alloc, table, env, steps, s, t),
        Ty::Class { .. } => settled_legal(alloc, table, env, steps, s, t),
        Ty::Raw { .. } => settled_legal(alloc, table, env, steps, s, t),
        Ty::Array { .. } => settled_legal(alloc, table, env, steps, s, t),
        Ty::NullTy => settled_legal(alloc, table, env, steps, s, t),
    }
}

#[cycle(legal)]
#[tactic(auto, using(jc_types::proofs::Opened::opened))]
fn settled_legal(
    alloc: Global,
    table: &Table,
    env: &Env,
    steps: u128,
    s: &Ty,
    t: &Ty,
) -> Result<bool, WantOfMemory>
    ensures { IfOk result (λ r. r ≡ settled_legal (legal_within table.now env.now.bounds steps) table.now env.now.bounds s.now t.now (out-Ty s.now) (out-Ty t.now)) }
{
    match s {
        Ty::Array { of, further } => {
            array_legal(alloc, table, env, steps, of.get(), *further, t)
        }
        _ => class_legal(alloc, table, env, s, t),
    }
}

#[cycle(legal)]
#[tactic(auto, using(jc_types::proofs::Opened::opened))]
fn array_legal(
    alloc: Global,
    table: &Table,
    env: &Env,
    steps: u128,
    of: &Ty,
    further: u64,
    t: &Ty,
) -> Result<bool, WantOfMemory>
    ensures { IfOk result (λ r. r ≡ array_legal (legal_within table.now env.now.bounds steps) of.now further t.now (out-Ty t.now)) }
{
    match t {
        Ty::Array {
            of: other,
            further: others,
        } => arrays_legal(alloc, table, env, steps, of, further, other.get(), *others),
        _ => Ok(is_object(t)),
    }
}

// An array of a type.
fn over(alloc: Global, of: &Ty, further: u64) -> Result<Ty, WantOfMemory>
    ensures { IfOk result (λ r. r ≡ Ty.Array of.now further) }
{
    let of = copy_type(alloc, of)?;
    Ok(Ty::Array {
        of: Boxed::new(alloc, of)?,
        further,
    })
}

#[cycle(legal)]
fn arrays_legal(
    alloc: Global,
    table: &Table,
    env: &Env,
    steps: u128,
    of: &Ty,
    further: u64,
    other: &Ty,
    others: u64,
) -> Result<bool, WantOfMemory>
    ensures { IfOk result (λ r. r ≡ arrays_legal (legal_within table.now env.now.bounds steps) of.now further other.now others) }
{
    if further == others {
        return elements_legal(alloc, table, env, steps, of, other);
    }
    if further < others {
        let element = over(alloc, other, others - further - 1)?;
        return elements_legal(alloc, table, env, steps, of, &element);
    }
    let element = over(alloc, of, further - others - 1)?;
    elements_legal(alloc, table, env, steps, &element, other)
}

#[cycle(legal)]
fn elements_legal(
    alloc: Global,
    table: &Table,
    env: &Env,
    steps: u128,
    one: &Ty,
    other: &Ty,
) -> Result<bool, WantOfMemory>
    ensures { IfOk result (λ r. r ≡ elements_legal (legal_within table.now env.now.bounds steps) one.now other.now) }
{
    if is_primitive(one) || is_primitive(other) {
        return Ok(same_type(one, other));
    }
    legal_within(alloc, table, env, steps, one, other)
}

fn legal_steps(table: &Table, env: &Env) -> u128
    ensures { result ≡ legal_steps table.now env.now.bounds }
{
    let variables = table.variables.slice().len() as u128 + env.bounds.len() as u128;
    4 * variables + 8
}

/// Whether a reference type may be cast to another as far as their classes tell (JLS 5.5.1). A variable stands for the intersection
/// of its bounds, and all parts of an intersection are asked. Of two classes one has to be below the other; an interface casts to and
/// from what isn't final. No supertypes of one class may be provably distinct. Arrays cast as their elements do, and to and from
/// `Object`.
#[tactic(auto, unfolding(crate::specs::Casting::is_legal))]
pub fn is_legal(
    alloc: Global,
    table: &Table,
    env: &Env,
    s: &Ty,
    t: &Ty,
) -> Result<bool, WantOfMemory>
    ensures { IfOk result (λ r. r ≡ is_legal table.now env.now.bounds s.now t.now) }
{
    legal_within(alloc, table, env, legal_steps(table, env), s, t)
}
