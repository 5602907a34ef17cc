//! Calls as typed expressions: the result is captured, and read as of another type than the declared one it is tested (JLS 15.12.3, 5.1.10).
ghost use Rattle.std.specs.Prelude.{◌≡◌, ◌<◌, IfOk, OnOk, length};
ghost use Rattle.jc_types.specs.declared.form.Ty.TheVariants.{NullTy};
ghost use Rattle.jc_types.specs.Accessors.{result_of};
ghost use Rattle.jc_typed.specs.Parts.{BelowForm, Grows, form_over, parts};
ghost use Rattle.jc_exprs_nodes_spec.specs.Told.{fine, ran};
ghost use Rattle.jc_exprs_nodes_spec.specs.Typeds.{captured, node, read_guard};
ghost use Rattle.jc_exprs_nodes.specs.Walks.{has, now};
ghost use Rattle.jc_exprs_spec.specs.Calls.{result_erasure};

use jc_exprs_nodes::{Formed, Judging, Walk, captured, push_read_guard, uncaptured};
use jc_exprs_passing::declared_erasure;
use jc_rules::{Place, WantOfMemory};
use jc_typed::{ExprForm, form_below, same_form};
use jc_types::{Erased, MethodId, Table, Ty, method_result};
use std::alloc::Global;

// The erasure of a method's declared result.
fn result_erasure(alloc: Global, table: &Table, method: MethodId) -> Erased
    ensures { result ≡ result_erasure table.now method (result_of table.now method) }
{
    match method_result(table, method) {
        None => {
            let none = Ty::NullTy;
            declared_erasure(alloc, table, &none)
        }
        Some(ty) => declared_erasure(alloc, table, ty),
    }
}

/// A call of a method without a result, which has the null type.
#[tactic(auto, using(jc_typed::proofs::Growing::growing))]
pub fn void_call(walk: &mut Walk, place: Place, form: ExprForm) -> Result<u32, WantOfMemory>
    requires { BelowForm (length walk.old.nodes) form }
    ensures state { OnOk result ((ran (fine (node place NullTy (form_over (parts walk.old.nodes) form))) (now walk.old)).state ≡ now walk.new) }
    ensures value { IfOk result (λ at. (ran (fine (node place NullTy (form_over (parts walk.old.nodes) form))) (now walk.old)).has ≡ has walk.new.nodes at) }
    ensures within { IfOk result (λ at. at < length walk.new.nodes) }
    ensures grows { Grows walk.old.nodes walk.new.nodes }
{
    same_form();
    form_below();
    let ty = walk.nodes.push_type(Ty::NullTy)?;
    uncaptured(walk, place, ty, form)
}

/// A call of a method with a result of a type.
#[tactic(auto, using(jc_typed::proofs::Growing::growing))]
pub fn valued_call(
    alloc: Global,
    table: &Table,
    walk: &mut Walk,
    place: Place,
    method: MethodId,
    ty: &Ty,
    form: ExprForm,
) -> Result<u32, WantOfMemory>
    requires { BelowForm (length walk.old.nodes) form }
    ensures state { OnOk result ((ran (captured table.now place ty.now (form_over (parts walk.old.nodes) form) (read_guard table.now walk.old.env.bounds (result_erasure table.now method (result_of table.now method)) ty.now)) (now walk.old)).state ≡ now walk.new) }
    ensures value { IfOk result (λ at. (ran (captured table.now place ty.now (form_over (parts walk.old.nodes) form) (read_guard table.now walk.old.env.bounds (result_erasure table.now method (result_of table.now method)) ty.now)) (now walk.old)).has ≡ has walk.new.nodes at) }
    ensures within { IfOk result (λ at. at < length walk.new.nodes) }
    ensures grows { Grows walk.old.nodes walk.new.nodes }
{
    same_form();
    form_below();
    let declared = result_erasure(alloc, table, method);
    let judging = Judging {
        table,
        env: &walk.env,
    };
    let lead = push_read_guard(alloc, &mut walk.nodes, &judging, declared, ty)?;
    captured(alloc, table, walk, ty, Formed { place, form, lead })
}
