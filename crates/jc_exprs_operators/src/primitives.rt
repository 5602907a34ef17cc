//! Primitive types of operands (JLS 5.1.8, 5.6).
ghost use Rattle.std.specs.Prelude.{◌≡◌, IfOk};
ghost use Rattle.jc_judge.specs.Kinds.{is_boolean, is_long};
ghost use Rattle.jc_convert.specs.Casting.{is_numeric};
ghost use Rattle.jc_exprs_parts_spec.specs.Operators.{as_primitive, promoted, promoted_both};

use jc_convert::unboxed;
use jc_exprs_nodes::Judging;
use jc_rules::WantOfMemory;
use jc_types::{Primitive, Ty};
use std::alloc::Global;

/// Whether this is `boolean`.
pub fn is_boolean(p: Primitive) -> bool
    ensures { is_boolean p ≡ result }
{
    match p {
        Primitive::Boolean => true,
        _ => false,
    }
}

/// Whether this is `long`.
pub fn is_long(p: Primitive) -> bool
    ensures { is_long p ≡ result }
{
    match p {
        Primitive::Long => true,
        _ => false,
    }
}

/// Whether this is a number.
pub fn is_numeric(p: Primitive) -> bool
    ensures { is_numeric p ≡ result }
{
    p != Primitive::Boolean
}

/// Unary numeric promotion (JLS 5.6.1).
pub fn promoted(p: Primitive) -> Primitive
    ensures { promoted p ≡ result }
{
    if is_long(p) {
        Primitive::Long
    } else {
        Primitive::Int
    }
}

/// Binary numeric promotion (JLS 5.6.2).
pub fn promoted_both(p: Primitive, q: Primitive) -> Primitive
    ensures { promoted_both p q ≡ result }
{
    if is_long(p) || is_long(q) {
        Primitive::Long
    } else {
        Primitive::Int
    }
}

/// The primitive type of an operand, after unboxing (JLS 5.1.8).
#[tactic(auto, using(jc_types::proofs::Opened::opened), unfolding(jc_exprs_parts_spec::specs::Operators::as_primitive))]
pub fn as_primitive(
    alloc: Global,
    judging: &Judging,
    ty: &Ty,
) -> Result<Option<Primitive>, WantOfMemory>
    ensures { IfOk result (λ r. as_primitive judging.now.table.now judging.now.env.now.bounds ty.now ≡ r) }
{
    match ty {
        Ty::Prim(p) => Ok(Some(*p)),
        _ => unboxed(alloc, judging.table, judging.env.bounds.slice(), ty),
    }
}
