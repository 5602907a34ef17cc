//! What a field's declaration says.
ghost use Rattle.std.specs.Prelude.{◌≡◌, IfOk, slice_get};
ghost use Rattle.jc_types.specs.Accessors.{field_modifiers_of};
ghost use Rattle.jc_exprs_parts_spec.specs.Fields.{declared_field, field_access_in, field_class, field_erasure, is_private, is_static_field};
ghost use Rattle.jc_exprs_parts_spec.specs.Names.{field_offset};

use jc_rules::{Items, WantOfMemory};
use jc_types::{
    Access, ClassId, Env, Erased, FieldId, Table, Ty, copy_type, erasure, field_at,
    field_modifiers, field_owner, field_type,
};
use std::alloc::Global;

/// The class that declares a field, and Object where there is no such field.
pub fn field_class(table: &Table, field: FieldId) -> ClassId
    ensures { result ≡ field_class table.now field }
{
    match field_owner(table, field) {
        Some(class) => class,
        None => ClassId(0),
    }
}

pub fn field_access(table: &Table, field: FieldId) -> Access
    ensures { result ≡ field_access_in (field_modifiers_of table.now field) }
{
    match field_modifiers(table, field) {
        Some(modifiers) => modifiers.access,
        None => Access::Private,
    }
}

/// Whether a member of this access is private.
pub fn is_private(access: Access) -> bool
    ensures { result ≡ is_private access }
{
    match access {
        Access::Private => true,
        _ => false,
    }
}

pub fn is_static_field(table: &Table, field: FieldId) -> bool
    ensures { result ≡ is_static_field table.now field }
{
    match field_modifiers(table, field) {
        Some(modifiers) => modifiers.is_static,
        None => false,
    }
}

/// The type of a field as it is declared.
pub fn declared_field(alloc: Global, table: &Table, field: FieldId) -> Result<Ty, WantOfMemory>
    ensures { IfOk result (λ t. t ≡ declared_field table.now field) }
{
    match field_type(table, field) {
        Some(ty) => copy_type(alloc, ty),
        None => Ok(Ty::NullTy),
    }
}

/// The erasure of the type of a field (JLS 4.6).
pub fn field_erasure(alloc: Global, table: &Table, field: FieldId) -> Result<Erased, WantOfMemory>
    ensures { IfOk result (λ e. e ≡ field_erasure table.now field) }
{
    let env = Env {
        bounds: Items::new(alloc),
    };
    let declared = declared_field(alloc, table, field)?;
    Ok(erasure(table, &env, &declared))
}

/// Where a field's name stands in its file.
pub fn field_offset(table: &Table, field: FieldId) -> u32
    ensures { result ≡ field_offset (slice_get table.now.fields field.0) }
{
    match field_at(table, field) {
        Some(declaration) => declaration.place.at,
        None => 0,
    }
}
