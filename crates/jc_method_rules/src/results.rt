//! Whether the result of a method may stand for that of another one (JLS 8.4.5).
ghost use Rattle.std.specs.Prelude.{◌≡◌, [], IfOk};
ghost use Rattle.jc_judge.specs.Deciding.{answer_of};
ghost use Rattle.std.specs.Option.{option_copied};
ghost use Rattle.jc_types.specs.declared.form.Ty.{out-Ty};
ghost use Rattle.jc_header_rules.specs.Results.{class_converts, converts_unchecked, elements_convert, has_parameters, is_raw_at, is_raw_view, reference_answer, result_answer, type_answer, yes_if};

use jc_judge::Answer;
use jc_lub::up_view;
use jc_members::{MethodView, adapted, erased_in};
use jc_rules::{Items, WantOfMemory};
use jc_sub::{below, is_primitive};
use jc_types::{Env, Table, Ty, VarId, class_vars, same_type};
use std::alloc::Global;

pub fn has_parameters(vars: &[VarId]) -> bool
    ensures { result ≡ has_parameters vars.now }
{
    match vars {
        [] => false,
        [_, ..] => true,
    }
}

#[tactic(auto, using(jc_types::proofs::Opened::opened))]
fn is_raw(table: &Table, t: &Ty) -> bool
    ensures { result ≡ is_raw_at table.now (out-Ty t.now) }
{
    match t {
        Ty::Raw { id } => has_parameters(class_vars(table, *id)),
        Ty::Prim(_) => false,
        Ty::Class { .. } => false,
        Ty::Array { .. } => false,
        Ty::Variable(_) => false,
        Ty::Captured(_) => false,
        Ty::Meet { .. } => false,
        Ty::NullTy => false,
    }
}

fn is_raw_view(table: &Table, v: Option<&Ty>) -> bool
    ensures { result ≡ is_raw_view table.now (option_copied v.entry) }
{
    match v {
        None => false,
        Some(v) => is_raw(table, v),
    }
}

// Whether a type is raw as the class of a parameterized type.
#[tactic(auto, using(jc_types::proofs::Opened::opened))]
fn class_converts(alloc: Global, table: &Table, s: &Ty, t: &Ty) -> Result<bool, WantOfMemory>
    ensures { IfOk result (λ r. r ≡ class_converts table.now s.now (out-Ty t.now)) }
{
    match t {
        Ty::Class { id, .. } => {
            let v = up_view(alloc, table, &[], *id, s)?;
            Ok(is_raw_view(table, v.as_ref()))
        }
        Ty::Prim(_) => Ok(false),
        Ty::Raw { .. } => Ok(false),
        Ty::Array { .. } => Ok(false),
        Ty::Variable(_) => Ok(false),
        Ty::Captured(_) => Ok(false),
        Ty::Meet { .. } => Ok(false),
        Ty::NullTy => Ok(false),
    }
}

#[tactic(auto, using(jc_types::proofs::Opened::opened))]
fn elements_convert(
    alloc: Global,
    table: &Table,
    s: &Ty,
    further: u64,
    t: &Ty,
) -> Result<bool, WantOfMemory>
    ensures { IfOk result (λ r. r ≡ elements_convert table.now (out-Ty s.now) further t.now) }
{
    match s {
        Ty::Array { of, further: own } => {
            if *own != further {
                return Ok(false);
            }
            class_converts(alloc, table, of.get(), t)
        }
        Ty::Prim(_) => Ok(false),
        Ty::Class { .. } => Ok(false),
        Ty::Raw { .. } => Ok(false),
        Ty::Variable(_) => Ok(false),
        Ty::Captured(_) => Ok(false),
        Ty::Meet { .. } => Ok(false),
        Ty::NullTy => Ok(false),
    }
}

// Whether a type becomes a subtype of another one by an unchecked conversion (JLS 5.1.9).
#[tactic(auto, using(jc_types::proofs::Opened::opened))]
fn converts_unchecked(alloc: Global, table: &Table, s: &Ty, t: &Ty) -> Result<bool, WantOfMemory>
    ensures { IfOk result (λ r. r ≡ converts_unchecked table.now s.now t.now) }
{
    match t {
        Ty::Array { of, further } => elements_convert(alloc, table, s, *further, of.get()),
        Ty::Prim(_) => class_converts(alloc, table, s, t),
        Ty::Class { .. } => class_converts(alloc, table, s, t),
        Ty::Raw { .. } => class_converts(alloc, table, s, t),
        Ty::Variable(_) => class_converts(alloc, table, s, t),
        Ty::Captured(_) => class_converts(alloc, table, s, t),
        Ty::Meet { .. } => class_converts(alloc, table, s, t),
        Ty::NullTy => class_converts(alloc, table, s, t),
    }
}

fn is_below(alloc: Global, table: &Table, s: &Ty, t: &Ty) -> Result<Answer, WantOfMemory>
    ensures { IfOk result (λ r. r ≡ answer_of table.now 64 [] s.now t.now) }
{
    let env = Env {
        bounds: Items::new(alloc),
    };
    below(alloc, table, &env, s, t)
}

fn reference_answer(
    alloc: Global,
    table: &Table,
    a: &MethodView,
    b: &MethodView,
    s: &Ty,
    t: &Ty,
) -> Result<Answer, WantOfMemory>
    ensures { IfOk result (λ r. r ≡ reference_answer table.now a.now b.now s.now t.now) }
{
    let erased = erased_in(alloc, table, b, t)?;
    if same_type(s, &erased) {
        return Ok(Answer::Yes);
    }
    let t = adapted(alloc, a, b, t)?;
    if converts_unchecked(alloc, table, s, &t)? {
        return Ok(Answer::Yes);
    }
    is_below(alloc, table, s, &t)
}

fn yes_if(holds: bool) -> Answer
    ensures { result ≡ yes_if holds }
{
    if holds { Answer::Yes } else { Answer::No }
}

fn type_answer(
    alloc: Global,
    table: &Table,
    a: &MethodView,
    b: &MethodView,
    s: &Ty,
    t: &Ty,
) -> Result<Answer, WantOfMemory>
    ensures { IfOk result (λ r. r ≡ type_answer table.now a.now b.now s.now t.now) }
{
    if is_primitive(s) || is_primitive(t) {
        return Ok(yes_if(same_type(s, t)));
    }
    reference_answer(alloc, table, a, b, s, t)
}

/// Whether a's result may stand for b's, as the class has both.
pub fn result_answer(
    alloc: Global,
    table: &Table,
    a: &MethodView,
    b: &MethodView,
) -> Result<Answer, WantOfMemory>
    ensures { IfOk result (λ r. r ≡ result_answer table.now a.now b.now) }
{
    match &a.result {
        None => Ok(yes_if(b.result.is_none())),
        Some(s) => match &b.result {
            None => Ok(Answer::No),
            Some(t) => type_answer(alloc, table, a, b, s, t),
        },
    }
}
