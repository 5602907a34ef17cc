//! The fields of objects, and what new ones hold (JLS 4.12.5).
ghost use Rattle.std.specs.Prelude.{◌≡◌, ◌+◌, ◌++◌, IfOk, OnOk, map};
ghost use Rattle.jc_heaps.specs.Layout.{default_erased, default_of, default_value, field_class, fields_above, fields_within, instance_only, is_static, new_fields, object_fields, place_in, slot_of, zero_of};

use crate::testing::superclass_of;
use jc_rules::{Items, WantOfMemory};
use jc_running::Value;
use jc_types::{
    Base, ClassId, Erased, FieldId, Primitive, Table, Ty, class_fields, field_modifiers,
    field_owner, field_type,
};
use std::alloc::Global;

fn zero_of(p: Primitive) -> Value
    ensures { result ≡ zero_of p }
{
    match p {
        Primitive::Long => Value::Long(0),
        _ => Value::Whole(0),
    }
}

/// The value of a new variable of a type (JLS 4.12.5).
#[tactic(auto, using(jc_types::proofs::Opened::opened))]
pub fn default_value(ty: &Ty) -> Value
    ensures { result ≡ default_value ty.now }
{
    match ty {
        Ty::Prim(p) => zero_of(*p),
        Ty::Class { .. } => Value::Null,
        Ty::Raw { .. } => Value::Null,
        Ty::Array { .. } => Value::Null,
        Ty::Variable(_) => Value::Null,
        Ty::Captured(_) => Value::Null,
        Ty::Meet { .. } => Value::Null,
        Ty::NullTy => Value::Null,
    }
}

/// The value of a new variable of an erased type.
pub fn default_erased(e: Erased) -> Value
    ensures { result ≡ default_erased e }
{
    if e.dims != 0 {
        return Value::Null;
    }
    match e.base {
        Base::Prim(p) => zero_of(p),
        Base::Class(_) => Value::Null,
        Base::NullTy => Value::Null,
    }
}

pub fn is_static(table: &Table, f: FieldId) -> bool
    ensures { result ≡ is_static table.now f }
{
    match field_modifiers(table, f) {
        Some(modifiers) => modifiers.is_static,
        None => false,
    }
}

/// The value of a field of a new object or class.
pub fn default_of(table: &Table, f: FieldId) -> Value
    ensures { result ≡ default_of table.now f }
{
    match field_type(table, f) {
        Some(ty) => default_value(ty),
        None => Value::Null,
    }
}

/// The class that declares a field.
pub fn field_class(table: &Table, f: FieldId) -> ClassId
    ensures { result ≡ field_class table.now f }
{
    match field_owner(table, f) {
        Some(k) => k,
        None => ClassId(0),
    }
}

// Adds those fields that are no static ones.
fn add_instance(
    table: &Table,
    out: &mut Items<FieldId>,
    fields: &[FieldId],
) -> Result<(), WantOfMemory>
    ensures { OnOk result (out.new ≡ out.old ++ instance_only table.now fields.now) }
{
    let mut rest = fields;
    while let [f, more @ ..] = rest {
        if !is_static(table, *f) {
            out.push(*f)?;
        }
        rest = more;
    }
    Ok(())
}

#[cycle(fields)]
#[tactic(auto, unfolding(jc_heaps::specs::Layout::fields_within))]
fn fields_within(
    alloc: Global,
    table: &Table,
    steps: usize,
    k: ClassId,
) -> Result<Items<FieldId>, WantOfMemory>
    ensures { IfOk result (λ r. r ≡ fields_within table.now steps k) }
{
    if steps == 0 {
        return Ok(Items::new(alloc));
    }
    let mut out = fields_above(alloc, table, steps - 1, superclass_of(table, k))?;
    add_instance(table, &mut out, class_fields(table, k))?;
    Ok(out)
}

#[cycle(fields)]
fn fields_above(
    alloc: Global,
    table: &Table,
    steps: usize,
    above: Option<ClassId>,
) -> Result<Items<FieldId>, WantOfMemory>
    ensures { IfOk result (λ r. r ≡ fields_above (fields_within table.now steps) above) }
{
    match above {
        Some(k) => fields_within(alloc, table, steps, k),
        None => Ok(Items::new(alloc)),
    }
}

/// The fields of an object, in the order in which it has them (JLS 8.3, 12.5).
#[tactic(auto, unfolding(jc_heaps::specs::Layout::object_fields))]
pub fn object_fields(
    alloc: Global,
    table: &Table,
    k: ClassId,
) -> Result<Items<FieldId>, WantOfMemory>
    ensures { IfOk result (λ r. r ≡ object_fields table.now k) }
{
    fields_within(alloc, table, table.classes.slice().len() + 1, k)
}

#[tactic(auto, using(crate::proofs::Places::further_next, crate::proofs::Places::further_none))]
fn place_in(f: FieldId, fields: &[FieldId]) -> Option<u64>
    ensures { result ≡ place_in f fields.now }
{
    let mut at: u64 = 0;
    let mut rest = fields;
    while let [g, more @ ..] = rest {
        if f.0 == g.0 {
            return Some(at);
        }
        at += 1;
        rest = more;
    }
    None
}

/// The place of a field in each object of its class or of a subclass.
pub fn slot_of(alloc: Global, table: &Table, f: FieldId) -> Result<Option<u64>, WantOfMemory>
    ensures { IfOk result (λ r. r ≡ slot_of table.now f) }
{
    let fields = object_fields(alloc, table, field_class(table, f))?;
    Ok(place_in(f, fields.slice()))
}

/// The fields of a new object.
pub fn new_fields(alloc: Global, table: &Table, k: ClassId) -> Result<Items<Value>, WantOfMemory>
    ensures { IfOk result (λ r. r ≡ new_fields table.now k) }
{
    let fields = object_fields(alloc, table, k)?;
    defaults(alloc, table, fields.slice())
}

fn defaults(alloc: Global, table: &Table, fields: &[FieldId]) -> Result<Items<Value>, WantOfMemory>
    ensures { IfOk result (λ r. r ≡ map (default_of table.now) fields.now) }
{
    let mut out = Items::new(alloc);
    for i in 0..fields.len() {
        out.push(default_of(table, fields[i]))?;
    }
    Ok(out)
}
