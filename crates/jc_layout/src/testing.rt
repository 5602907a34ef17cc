//! Which classes are below which, as a running program tests them.
ghost use Rattle.std.specs.Prelude.{◌≡◌, ◌+◌, ◌<◌, ◌^◌};
ghost use Rattle.jc_heaps.specs.Classes.{any_of, class_of, element_of, in_class, is_array, is_base_of, is_object_base, is_of, is_subclass, is_within, methods_class, same_base, same_erased, same_primitive, superclass_of};

use jc_types::{Base, ClassId, Erased, Primitive, Table, Ty, class_supers};

/// The class of a class type, with arguments or raw.
#[tactic(auto, using(jc_types::proofs::Opened::opened))]
pub fn class_of(ty: &Ty) -> Option<ClassId>
    ensures { result ≡ class_of ty.now }
{
    match ty {
        Ty::Class { id, .. } => Some(*id),
        Ty::Raw { id } => Some(*id),
        Ty::Prim(_) => None,
        Ty::Array { .. } => None,
        Ty::Variable(_) => None,
        Ty::Captured(_) => None,
        Ty::Meet { .. } => None,
        Ty::NullTy => None,
    }
}

/// The superclass; an interface has Object, which has none (JLS 8.1.4, 9.2).
pub fn superclass_of(table: &Table, k: ClassId) -> Option<ClassId>
    ensures { result ≡ superclass_of table.now k }
{
    match class_supers(table, k) {
        [] => None,
        [first, ..] => class_of(first),
    }
}

#[cycle(within)]
#[tactic(auto, unfolding(jc_heaps::specs::Classes::is_within))]
fn is_within(table: &Table, steps: usize, c: ClassId, k: ClassId) -> bool
    ensures { result ≡ is_within table.now steps c k }
{
    if steps == 0 {
        return false;
    }
    if k.0 == c.0 {
        return true;
    }
    any_within(table, steps - 1, c, class_supers(table, k))
}

#[cycle(within)]
fn any_within(table: &Table, steps: usize, c: ClassId, types: &[Ty]) -> bool
    ensures { result ≡ any_of (is_within table.now steps c) types.now }
{
    let mut rest = types;
    while let [ty, more @ ..] = rest {
        if class_within(table, steps, c, class_of(ty)) {
            return true;
        }
        rest = more;
    }
    false
}

#[cycle(within)]
fn class_within(table: &Table, steps: usize, c: ClassId, k: Option<ClassId>) -> bool
    ensures { result ≡ in_class (is_within table.now steps c) k }
{
    match k {
        Some(k) => is_within(table, steps, c, k),
        None => false,
    }
}

/// Whether `k` is `c` or a subclass of it, interfaces counted.
#[tactic(auto, unfolding(jc_heaps::specs::Classes::is_subclass))]
pub fn is_subclass(table: &Table, k: ClassId, c: ClassId) -> bool
    ensures { result ≡ is_subclass table.now k c }
{
    is_within(table, table.classes.slice().len() + 1, c, k)
}

fn is_object_base(base: Base) -> bool
    ensures { result ≡ is_object_base base }
{
    match base {
        Base::Class(k) => k.0 == 0,
        Base::Prim(_) => false,
        Base::NullTy => false,
    }
}

fn same_primitive(p: Primitive, q: Primitive) -> bool
    ensures { result ≡ same_primitive p q }
{
    match (p, q) {
        (Primitive::Boolean, Primitive::Boolean) => true,
        (Primitive::Byte, Primitive::Byte) => true,
        (Primitive::Short, Primitive::Short) => true,
        (Primitive::Char, Primitive::Char) => true,
        (Primitive::Int, Primitive::Int) => true,
        (Primitive::Long, Primitive::Long) => true,
        _ => false,
    }
}

fn is_base_of(table: &Table, e: Base, f: Base) -> bool
    ensures { result ≡ is_base_of table.now e f }
{
    match (e, f) {
        (Base::Prim(p), Base::Prim(q)) => same_primitive(p, q),
        (Base::Class(k), Base::Class(c)) => is_subclass(table, k, c),
        _ => false,
    }
}

fn same_base(e: Base, f: Base) -> bool
    ensures { result ≡ same_base e f }
{
    match (e, f) {
        (Base::Prim(p), Base::Prim(q)) => same_primitive(p, q),
        (Base::Class(k), Base::Class(c)) => k.0 == c.0,
        (Base::NullTy, Base::NullTy) => true,
        _ => false,
    }
}

pub fn same_erased(e: Erased, f: Erased) -> bool
    ensures { result ≡ same_erased e f }
{
    e.dims == f.dims && same_base(e.base, f.base)
}

/// Whether an object of the one erased type is of the other (JLS 4.10.3, 15.20.2).
pub fn is_of(table: &Table, e: Erased, f: Erased) -> bool
    ensures { result ≡ is_of table.now e f }
{
    if f.dims < e.dims {
        return is_object_base(f.base);
    }
    e.dims == f.dims && is_base_of(table, e.base, f.base)
}

/// The element type of an array type.
pub fn element_of(e: Erased) -> Erased
    ensures { result ≡ element_of e }
{
    Erased {
        base: e.base,
        dims: e.dims.saturating_sub(1),
    }
}

pub fn is_array(e: Erased) -> bool
    ensures { result ≡ is_array e }
{
    e.dims != 0
}

/// The class whose methods an object has: an array has those of Object (JLS 10.7).
pub fn methods_class(e: Erased) -> ClassId
    ensures { result ≡ methods_class e }
{
    if is_array(e) {
        return ClassId(0);
    }
    match e.base {
        Base::Class(k) => k,
        Base::Prim(_) => ClassId(0),
        Base::NullTy => ClassId(0),
    }
}
