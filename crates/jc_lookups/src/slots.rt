//! Where a field stands in objects.
ghost use Rattle.std.specs.Prelude.{◌≡◌, ◌==◌, ◌++◌, ◌&&◌, reverse, IfOk, OnOk};
ghost use Rattle.std.specs.List.{flat_map};
ghost use Rattle.jc_jvm.specs.Classes.{fields_of, line_of, slot_of};
ghost use Rattle.jc_jvm.specs.Table.{instance_slot};
ghost use Rattle.jc_lookups.specs.FieldMarks.{own_marks};

use crate::fields::{find_field, is_named};
use jc_class_out::FieldModel;
use jc_heap::{NamedClasses, fields_in, first_mark, is_static_field, reversed_line};
use jc_rules::{Items, WantOfMemory};
use std::alloc::Global;

fn add_marks(
    found: &mut Items<bool>,
    fields: &[FieldModel],
    name: &[u16],
    descriptor: &[u16],
    here: bool,
) -> Result<(), WantOfMemory>
    ensures { OnOk result (found.new ≡ found.old ++ own_marks here name.now descriptor.now fields.now) }
{
    for field in fields {
        if !is_static_field(field) {
            found.push(here && is_named(name, descriptor, field))?;
        }
    }
    Ok(())
}

// Of each instance field of a class, its superclasses' first, whether it is the one that is looked for.
fn marks(
    alloc: Global,
    classes: &NamedClasses,
    class: u64,
    name: &[u16],
    descriptor: &[u16],
) -> Result<Items<bool>, WantOfMemory>
    ensures { IfOk result (λ found. found ≡ flat_map (λ k. own_marks (k == class) name.now descriptor.now (fields_of classes.now k)) (reverse (line_of classes.now class))) }
{
    let line = reversed_line(alloc, classes, class)?;
    let mut found = Items::new(alloc);
    for number in line.slice() {
        add_marks(
            &mut found,
            fields_in(classes, *number),
            name,
            descriptor,
            *number == class,
        )?;
    }
    Ok(found)
}

fn slot_in(
    alloc: Global,
    classes: &NamedClasses,
    class: u64,
    name: &[u16],
    descriptor: &[u16],
) -> Result<Option<usize>, WantOfMemory>
    ensures { IfOk result (λ slot. slot ≡ slot_of classes.now name.now descriptor.now class) }
{
    let marks = marks(alloc, classes, class, name, descriptor)?;
    Ok(first_mark(marks.slice()))
}

/// The slot of an instance field in objects.
pub fn find_slot(
    alloc: Global,
    classes: &NamedClasses,
    class: &[u16],
    name: &[u16],
    descriptor: &[u16],
) -> Result<Option<usize>, WantOfMemory>
    ensures { IfOk result (λ slot. slot ≡ instance_slot classes.now class.now name.now descriptor.now) }
{
    match find_field(alloc, classes, class, name, descriptor)? {
        Some((declaring, _)) => slot_in(alloc, classes, declaring, name, descriptor),
        None => Ok(None),
    }
}
