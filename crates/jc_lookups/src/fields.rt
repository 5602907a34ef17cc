//! Fields by name.
ghost use Rattle.std.specs.Prelude.{◌≡◌, IfOk, position};
ghost use Rattle.jc_jvm.specs.Classes.{is_field, field_of, field_at};
ghost use Rattle.jc_jvm.specs.Table.{static_if, static_field};
ghost use Rattle.std.specs.Option.{option_copied};
ghost use Rattle.jc_lookups.specs.Interfaces.{interface_names};

use crate::seeking::seek;
use jc_class_out::FieldModel;
use jc_heap::{NamedClasses, class_named, fields_in, is_static_field};
use jc_rules::{Items, WantOfMemory};
use std::alloc::Global;

/// Whether a field has a name and a descriptor.
pub fn is_named(name: &[u16], descriptor: &[u16], field: &FieldModel) -> bool
    ensures { result ≡ is_field name.now descriptor.now field.now }
{
    field.name.slice() == name && field.descriptor.slice() == descriptor
}

/// The names of the superinterfaces of a class.
pub fn interfaces_in(classes: &NamedClasses, class: u64) -> &[Items<u16>]
    ensures { result.now ≡ interface_names classes.now class }
{
    match classes.get(class as usize) {
        Some(model) => model.interfaces.slice(),
        None => &[],
    }
}

/// The number of a field among some.
pub fn place_in(fields: &[FieldModel], name: &[u16], descriptor: &[u16]) -> Option<usize>
    ensures { result ≡ position (is_field name.now descriptor.now) fields.now }
{
    fields
        .iter()
        .position(|field| is_named(name, descriptor, field))
}

/// The class that declares a field and the field's number there: in the class of that name, then its superinterfaces, then its
/// superclass.
pub fn find_field(
    alloc: Global,
    classes: &NamedClasses,
    class: &[u16],
    name: &[u16],
    descriptor: &[u16],
) -> Result<Option<(u64, u64)>, WantOfMemory>
    ensures { IfOk result (λ found. found ≡ field_of classes.now class.now name.now descriptor.now) }
{
    match class_named(classes, class) {
        Some(number) => seek(alloc, classes, number, name, descriptor),
        None => Ok(None),
    }
}

// The field of that number in the class of that number.
fn field_at_place(classes: &NamedClasses, class: u64, field: u64) -> Option<&FieldModel>
    ensures { option_copied result ≡ field_at classes.now (class, field) }
{
    fields_in(classes, class).get(field as usize)
}

fn static_at(classes: &NamedClasses, class: u64, field: u64) -> Option<(u64, u64)>
    ensures { result ≡ static_if classes.now (class, field) (field_at classes.now (class, field)) }
{
    match field_at_place(classes, class, field) {
        Some(found) => {
            if is_static_field(found) {
                Some((class, field))
            } else {
                None
            }
        }
        None => None,
    }
}

/// A static field: the class that declares it, and its number there.
pub fn find_static_field(
    alloc: Global,
    classes: &NamedClasses,
    class: &[u16],
    name: &[u16],
    descriptor: &[u16],
) -> Result<Option<(u64, u64)>, WantOfMemory>
    ensures { IfOk result (λ found. found ≡ static_field classes.now class.now name.now descriptor.now) }
{
    match find_field(alloc, classes, class, name, descriptor)? {
        Some((declaring, field)) => Ok(static_at(classes, declaring, field)),
        None => Ok(None),
    }
}
