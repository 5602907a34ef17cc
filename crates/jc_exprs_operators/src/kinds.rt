//! Kinds of the types of operands.
ghost use Rattle.std.specs.Prelude.{◌≡◌};
ghost use Rattle.jc_types.specs.declared.form.Ty.{out-Ty};
ghost use Rattle.jc_exprs_parts_spec.specs.Operators.{is_string, printed_as, string_type};
ghost use Rattle.jc_exprs_parts_spec.specs.Assigning.{exact_primitive};

use jc_boxes::unboxed;
use jc_rules::Items;
use jc_typed::Printed;
use jc_types::{Primitive, Table, Ty, class_named, same_type};
use std::alloc::Global;

/// The type String.
pub fn string_type(alloc: Global, table: &Table) -> Ty
    ensures { string_type table.now ≡ result }
{
    Ty::Class {
        id: class_named(table, "java.lang.String"),
        args: Items::new(alloc),
    }
}

/// Whether this is String.
pub fn is_string(alloc: Global, table: &Table, ty: &Ty) -> bool
    ensures { is_string table.now ty.now ≡ result }
{
    let string = string_type(alloc, table);
    same_type(ty, &string)
}

/// By which `String.valueOf` an operand of string `+` becomes a string (JLS 15.18.1).
#[tactic(auto, using(jc_types::proofs::Opened::opened))]
pub fn printed_as(ty: &Ty) -> Printed
    ensures { printed_as (out-Ty ty.now) ≡ result }
{
    match ty {
        Ty::Prim(Primitive::Boolean) => Printed::Boolean,
        Ty::Prim(Primitive::Char) => Printed::Char,
        Ty::Prim(Primitive::Long) => Printed::Long,
        Ty::Prim(_) => Printed::Int,
        _ => Printed::Reference,
    }
}

/// The primitive type of a type that is one, or is exactly its class: of a variable that `++`, `--` or a compound assignment changes.
#[tactic(auto, using(jc_types::proofs::Opened::opened), unfolding(jc_exprs_parts_spec::specs::Assigning::exact_primitive))]
pub fn exact_primitive(table: &Table, ty: &Ty) -> Option<Primitive>
    ensures { exact_primitive table.now ty.now ≡ result }
{
    match ty {
        Ty::Prim(p) => Some(*p),
        Ty::Class { id, args } => match args.slice() {
            [] => unboxed(table, *id),
            [_, ..] => None,
        },
        _ => None,
    }
}
