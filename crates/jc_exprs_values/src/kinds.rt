//! Kinds of types.
ghost use Rattle.std.specs.Prelude.{◌≡◌, ◌&&◌, not, IfOk};
ghost use Rattle.jc_types.specs.declared.form.Ty.{out-Ty};
ghost use Rattle.jc_types.specs.Sameness.{same};
ghost use Rattle.jc_judge.specs.Kinds.{is_null, is_primitive};
ghost use Rattle.jc_judge.specs.Deciding.{answer_of};
ghost use Rattle.jc_boxes.specs.Boxes.{boxed};
ghost use Rattle.jc_exprs_parts_spec.specs.Operators.{as_primitive};
ghost use Rattle.jc_exprs_parts_spec.specs.Values.{is_below, is_int_at, is_yes};

use jc_boxes::boxed;
use jc_convert::unboxed;
use jc_exprs_nodes::Judging;
use jc_rules::WantOfMemory;
use jc_sub::{Answer, below, is_null, is_primitive};
use jc_types::{Primitive, Table, Ty, same_type};
use std::alloc::Global;

/// The primitive type of an operand, after unboxing (JLS 5.1.8).
#[tactic(auto, using(jc_types::proofs::Opened::opened), unfolding(jc_exprs_parts_spec::specs::Operators::as_primitive))]
pub fn as_primitive(
    alloc: Global,
    judging: &Judging,
    ty: &Ty,
) -> Result<Option<Primitive>, WantOfMemory>
    ensures { IfOk result (λ r. r ≡ as_primitive judging.now.table.now judging.now.env.now.bounds ty.now) }
{
    match ty {
        Ty::Prim(p) => Ok(Some(*p)),
        _ => unboxed(alloc, judging.table, judging.env.bounds.slice(), ty),
    }
}

#[tactic(auto, using(jc_types::proofs::Opened::opened))]
pub fn is_int(ty: &Ty) -> bool
    ensures { result ≡ is_int_at (out-Ty ty.now) }
{
    match ty {
        Ty::Prim(Primitive::Int) => true,
        _ => false,
    }
}

/// Whether a primitive type has this class.
pub fn has_class(alloc: Global, table: &Table, ty: &Ty, class: &Ty) -> Result<bool, WantOfMemory>
    ensures { IfOk result (λ r. r ≡ (is_primitive ty.now && same (boxed table.now ty.now) class.now)) }
{
    if !is_primitive(ty) {
        return Ok(false);
    }
    let boxed = boxed(alloc, table, ty)?;
    Ok(same_type(&boxed, class))
}

/// Whether this is the null type, and the other one a reference type.
pub fn is_null_beside(null: &Ty, other: &Ty) -> bool
    ensures { result ≡ (is_null null.now && not (is_primitive other.now)) }
{
    is_null(null) && !is_primitive(other)
}

fn is_reference_below(
    alloc: Global,
    judging: &Judging,
    from: &Ty,
    to: &Ty,
) -> Result<bool, WantOfMemory>
    ensures { IfOk result (λ r. r ≡ is_yes (answer_of judging.now.table.now 64 judging.now.env.now.bounds from.now to.now)) }
{
    match below(alloc, judging.table, judging.env, from, to)? {
        Answer::Yes => Ok(true),
        Answer::No => Ok(false),
        Answer::Deep => Ok(false),
    }
}

/// Whether this is a reference type below another one.
pub fn is_below(alloc: Global, judging: &Judging, from: &Ty, to: &Ty) -> Result<bool, WantOfMemory>
    ensures { IfOk result (λ r. r ≡ is_below judging.now.table.now judging.now.env.now.bounds from.now to.now) }
{
    if is_primitive(from) || is_primitive(to) {
        return Ok(false);
    }
    is_reference_below(alloc, judging, from, to)
}
