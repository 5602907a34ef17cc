//! The declarations of a table by their ids.
ghost use Rattle.std.specs.Prelude.{◌≡◌, slice_get};
ghost use Rattle.std.specs.Option.{option_copied};
ghost use Rattle.jc_types.specs.Accessors.{class_name_of, binary_of, package_of, class_modifiers_of, is_interface, vars_of, supers_of, methods_of, fields_of, bounds_of, method_owner_of, method_name_of, method_kind_of, method_modifiers_of, method_vars_of, params_of, result_of, thrown_of, is_variable_arity, has_body, field_owner_of, field_modifiers_of, field_type_of, class_named, uppers_of, lower_bound_of};

use crate::declarations::{
    ClassDecl, FieldDecl, Kind, MethodDecl, MethodKind, Modifiers, VariableDecl,
};
use crate::environment::Bounds;
use crate::form::Ty;
use crate::ids::{CaptureId, ClassId, FieldId, MethodId, VarId};
use crate::table::Table;

/// The declaration of a class, with its places.
pub fn class_at(table: &Table, id: ClassId) -> Option<&ClassDecl>
    ensures { option_copied result ≡ slice_get table.now.classes id.0 }
{
    table.classes.get(id.0 as usize)
}

/// The declaration of a method, with its places.
pub fn method_at(table: &Table, id: MethodId) -> Option<&MethodDecl>
    ensures { option_copied result ≡ slice_get table.now.methods id.0 }
{
    table.methods.get(id.0 as usize)
}

/// The declaration of a field, with its places.
pub fn field_at(table: &Table, id: FieldId) -> Option<&FieldDecl>
    ensures { option_copied result ≡ slice_get table.now.fields id.0 }
{
    table.fields.get(id.0 as usize)
}

/// The declaration of a type variable, with its places.
pub fn variable_at(table: &Table, id: VarId) -> Option<&VariableDecl>
    ensures { option_copied result ≡ slice_get table.now.variables id.0 }
{
    table.variables.get(id.0 as usize)
}

/// The class of this binary name with dots: the first one in the table, and `Object` where there is none.
pub fn class_named(table: &Table, name: &str) -> ClassId
    ensures { result ≡ class_named table.now name.now }
{
    match table.index.find(name) {
        Some(place) => ClassId(place),
        None => ClassId(0),
    }
}

/// The simple name of a class.
pub fn class_name(table: &Table, id: ClassId) -> &str
    ensures { result.now ≡ class_name_of table.now id }
{
    match table.classes.get(id.0 as usize) {
        Some(class) => class.name.str(),
        None => "",
    }
}

/// The binary name of a class, with dots (JLS 13.1).
pub fn class_binary(table: &Table, id: ClassId) -> &str
    ensures { result.now ≡ binary_of table.now id }
{
    match table.classes.get(id.0 as usize) {
        Some(class) => class.binary.str(),
        None => "",
    }
}

/// The name of the package of a class, which is empty for the unnamed one.
pub fn class_package(table: &Table, id: ClassId) -> &str
    ensures { result.now ≡ package_of table.now id }
{
    match table.classes.get(id.0 as usize) {
        Some(class) => class.package.str(),
        None => "",
    }
}

/// The modifiers of a class.
pub fn class_modifiers(table: &Table, id: ClassId) -> Option<Modifiers>
    ensures { result ≡ class_modifiers_of table.now id }
{
    match table.classes.get(id.0 as usize) {
        Some(class) => Some(class.modifiers),
        None => None,
    }
}

pub fn is_interface(table: &Table, id: ClassId) -> bool
    ensures { result ≡ is_interface table.now id }
{
    match table.classes.get(id.0 as usize) {
        Some(class) => match class.kind {
            Kind::Class => false,
            Kind::Interface => true,
        },
        None => false,
    }
}

/// The type parameters of a class. An id that is no place in the table has none.
pub fn class_vars(table: &Table, id: ClassId) -> &[VarId]
    ensures { result.now ≡ vars_of table.now id }
{
    match table.classes.get(id.0 as usize) {
        Some(class) => class.vars.slice(),
        None => &[],
    }
}

/// The direct supertypes of a class as they are declared, the superclass first.
pub fn class_supers(table: &Table, id: ClassId) -> &[Ty]
    ensures { result.now ≡ supers_of table.now id }
{
    match table.classes.get(id.0 as usize) {
        Some(class) => class.supers.types.slice(),
        None => &[],
    }
}

/// The methods that a class declares, in their order.
pub fn class_methods(table: &Table, id: ClassId) -> &[MethodId]
    ensures { result.now ≡ methods_of table.now id }
{
    match table.classes.get(id.0 as usize) {
        Some(class) => class.methods.slice(),
        None => &[],
    }
}

/// The fields that a class declares, in their order.
pub fn class_fields(table: &Table, id: ClassId) -> &[FieldId]
    ensures { result.now ≡ fields_of table.now id }
{
    match table.classes.get(id.0 as usize) {
        Some(class) => class.fields.slice(),
        None => &[],
    }
}

/// The declared bounds of a type variable (JLS 4.4), the leftmost first.
pub fn declared_bounds(table: &Table, var: VarId) -> &[Ty]
    ensures { result.now ≡ bounds_of table.now var }
{
    match table.variables.get(var.0 as usize) {
        Some(variable) => variable.bounds.types.slice(),
        None => &[],
    }
}

/// The class that declares a method.
pub fn method_owner(table: &Table, id: MethodId) -> Option<ClassId>
    ensures { result ≡ method_owner_of table.now id }
{
    match table.methods.get(id.0 as usize) {
        Some(method) => Some(method.class),
        None => None,
    }
}

/// The name of a method.
pub fn method_name(table: &Table, id: MethodId) -> &str
    ensures { result.now ≡ method_name_of table.now id }
{
    match table.methods.get(id.0 as usize) {
        Some(method) => method.name.str(),
        None => "",
    }
}

/// What a method of the table is.
pub fn method_kind(table: &Table, id: MethodId) -> Option<MethodKind>
    ensures { result ≡ method_kind_of table.now id }
{
    match table.methods.get(id.0 as usize) {
        Some(method) => Some(method.kind),
        None => None,
    }
}

/// The modifiers of a method.
pub fn method_modifiers(table: &Table, id: MethodId) -> Option<Modifiers>
    ensures { result ≡ method_modifiers_of table.now id }
{
    match table.methods.get(id.0 as usize) {
        Some(method) => Some(method.modifiers),
        None => None,
    }
}

/// The type parameters of a method.
pub fn method_vars(table: &Table, id: MethodId) -> &[VarId]
    ensures { result.now ≡ method_vars_of table.now id }
{
    match table.methods.get(id.0 as usize) {
        Some(method) => method.vars.slice(),
        None => &[],
    }
}

/// The types of a method's parameters, as they are declared.
pub fn method_params(table: &Table, id: MethodId) -> &[Ty]
    ensures { result.now ≡ params_of table.now id }
{
    match table.methods.get(id.0 as usize) {
        Some(method) => method.params.types.slice(),
        None => &[],
    }
}

/// The result of a method. None for `void`, for a constructor and for a static initialiser.
pub fn method_result(table: &Table, id: MethodId) -> Option<&Ty>
    ensures { option_copied result ≡ result_of table.now id }
{
    match table.methods.get(id.0 as usize) {
        Some(method) => match &method.result {
            Some(written) => Some(&written.ty),
            None => None,
        },
        None => None,
    }
}

/// The types that a method says it throws (JLS 8.4.6).
pub fn method_thrown(table: &Table, id: MethodId) -> &[Ty]
    ensures { result.now ≡ thrown_of table.now id }
{
    match table.methods.get(id.0 as usize) {
        Some(method) => method.thrown.types.slice(),
        None => &[],
    }
}

/// Whether a method's last parameter takes any number of arguments (JLS 8.4.1).
pub fn is_variable_arity(table: &Table, id: MethodId) -> bool
    ensures { result ≡ is_variable_arity table.now id }
{
    match table.methods.get(id.0 as usize) {
        Some(method) => method.is_variable_arity,
        None => false,
    }
}

/// Whether a method is written with a body.
pub fn has_body(table: &Table, id: MethodId) -> bool
    ensures { result ≡ has_body table.now id }
{
    match table.methods.get(id.0 as usize) {
        Some(method) => method.has_body,
        None => false,
    }
}

/// The class that declares a field.
pub fn field_owner(table: &Table, id: FieldId) -> Option<ClassId>
    ensures { result ≡ field_owner_of table.now id }
{
    match table.fields.get(id.0 as usize) {
        Some(field) => Some(field.class),
        None => None,
    }
}

/// The modifiers of a field.
pub fn field_modifiers(table: &Table, id: FieldId) -> Option<Modifiers>
    ensures { result ≡ field_modifiers_of table.now id }
{
    match table.fields.get(id.0 as usize) {
        Some(field) => Some(field.modifiers),
        None => None,
    }
}

/// The type of a field, as it is declared.
pub fn field_type(table: &Table, id: FieldId) -> Option<&Ty>
    ensures { option_copied result ≡ field_type_of table.now id }
{
    match table.fields.get(id.0 as usize) {
        Some(field) => Some(&field.ty.ty),
        None => None,
    }
}

/// The upper bounds of a captured variable.
pub fn captured_uppers(env: &[Bounds], id: CaptureId) -> &[Ty]
    ensures { result.now ≡ uppers_of env.now id }
{
    match env.get(id.0 as usize) {
        Some(bounds) => bounds.uppers.slice(),
        None => &[],
    }
}

/// The lower bound of a captured variable.
pub fn captured_lower(env: &[Bounds], id: CaptureId) -> Option<&Ty>
    ensures { option_copied result ≡ lower_bound_of env.now id }
{
    match env.get(id.0 as usize) {
        Some(bounds) => bounds.lower.as_ref(),
        None => None,
    }
}
