//! Primitive types and their classes (JLS 5.1.7, 5.1.8).
ghost use Rattle.std.specs.Prelude.{◌≡◌, IfOk};
ghost use Rattle.jc_boxes.specs.Boxes.{box_of, boxed, unboxed};

use jc_rules::{Items, WantOfMemory};
use jc_types::{ClassId, Primitive, Table, Ty, class_named, copy_type};
use std::alloc::Global;

/// The class of a primitive type, and `Object` where the table has none of its name.
pub fn box_class(table: &Table, primitive: Primitive) -> ClassId
    ensures { result ≡ box_of table.now primitive }
{
    match primitive {
        Primitive::Boolean => class_named(table, "java.lang.Boolean"),
        Primitive::Byte => class_named(table, "java.lang.Byte"),
        Primitive::Short => class_named(table, "java.lang.Short"),
        Primitive::Char => class_named(table, "java.lang.Character"),
        Primitive::Int => class_named(table, "java.lang.Integer"),
        Primitive::Long => class_named(table, "java.lang.Long"),
    }
}

/// A primitive type's class, and any other type itself.
#[tactic(auto, using(jc_types::proofs::Opened::opened), unfolding(crate::specs::Boxes::boxed))]
pub fn boxed(alloc: Global, table: &Table, ty: &Ty) -> Result<Ty, WantOfMemory>
    ensures { IfOk result (λ r. r ≡ boxed table.now ty.now) }
{
    match ty {
        Ty::Prim(p) => Ok(Ty::Class {
            id: box_class(table, *p),
            args: Items::new(alloc),
        }),
        _ => copy_type(alloc, ty),
    }
}

/// The primitive type whose class this is.
pub fn unboxed(table: &Table, class: ClassId) -> Option<Primitive>
    ensures { result ≡ unboxed table.now class }
{
    if class == box_class(table, Primitive::Boolean) {
        Some(Primitive::Boolean)
    } else if class == box_class(table, Primitive::Byte) {
        Some(Primitive::Byte)
    } else if class == box_class(table, Primitive::Short) {
        Some(Primitive::Short)
    } else if class == box_class(table, Primitive::Char) {
        Some(Primitive::Char)
    } else if class == box_class(table, Primitive::Int) {
        Some(Primitive::Int)
    } else if class == box_class(table, Primitive::Long) {
        Some(Primitive::Long)
    } else {
        None
    }
}
