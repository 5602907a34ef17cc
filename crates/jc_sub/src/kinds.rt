//! The kinds of types.
ghost use Rattle.std.specs.Prelude.{◌≡◌};
ghost use Rattle.jc_judge.specs.Kinds.{is_primitive, is_null, is_object, class_of, primitive_below, primitives_below};

use jc_types::{ClassId, Primitive, Ty};

#[tactic(auto, using(jc_types::proofs::Opened::opened), unfolding(jc_judge::specs::Kinds::is_primitive))]
pub fn is_primitive(t: &Ty) -> bool
    ensures { result ≡ is_primitive t.now }
{
    match t {
        Ty::Prim(_) => true,
        _ => false,
    }
}

#[tactic(auto, using(jc_types::proofs::Opened::opened), unfolding(jc_judge::specs::Kinds::is_null))]
pub fn is_null(t: &Ty) -> bool
    ensures { result ≡ is_null t.now }
{
    match t {
        Ty::NullTy => true,
        _ => false,
    }
}

/// Whether a type is `java.lang.Object`, the first class of a table.
#[tactic(auto, using(jc_types::proofs::Opened::opened), unfolding(jc_judge::specs::Kinds::is_object))]
pub fn is_object(t: &Ty) -> bool
    ensures { result ≡ is_object t.now }
{
    match t {
        Ty::Class { id, .. } => id.0 == 0,
        Ty::Raw { id } => id.0 == 0,
        _ => false,
    }
}

/// The class of a class or raw type.
#[tactic(auto, using(jc_types::proofs::Opened::opened), unfolding(jc_judge::specs::Kinds::class_of))]
pub fn class_of(t: &Ty) -> Option<ClassId>
    ensures { result ≡ class_of t.now }
{
    match t {
        Ty::Class { id, .. } => Some(*id),
        Ty::Raw { id } => Some(*id),
        _ => None,
    }
}

fn primitive_below(p: Primitive, q: Primitive) -> bool
    ensures { result ≡ primitive_below p q }
{
    match p {
        Primitive::Boolean => q == Primitive::Boolean,
        Primitive::Byte => q != Primitive::Boolean && q != Primitive::Char,
        Primitive::Short => q == Primitive::Short || q == Primitive::Int || q == Primitive::Long,
        Primitive::Char => q == Primitive::Char || q == Primitive::Int || q == Primitive::Long,
        Primitive::Int => q == Primitive::Int || q == Primitive::Long,
        Primitive::Long => q == Primitive::Long,
    }
}

/// Whether both are primitive types, and the first is below the second (JLS 4.10.1).
#[tactic(auto, using(jc_types::proofs::Opened::opened), unfolding(jc_judge::specs::Kinds::primitives_below))]
pub fn primitives_below(s: &Ty, t: &Ty) -> bool
    ensures { result ≡ primitives_below s.now t.now }
{
    match s {
        Ty::Prim(p) => match t {
            Ty::Prim(q) => primitive_below(*p, *q),
            _ => false,
        },
        _ => false,
    }
}
