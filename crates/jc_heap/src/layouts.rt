//! The fields of objects.
ghost use Rattle.std.specs.Prelude.{◌≡◌, ◌++◌, reverse, position, IfOk, OnOk};
ghost use Rattle.jc_jvm.specs.Classes.{super_of, line_of, fields_of, is_static_field as static_by};
ghost use Rattle.jc_jvm.specs.Types.{zero_of_field, new_fields};
ghost use Rattle.jc_jvm.specs.Worlds.{chars_slot};
ghost use Rattle.jc_heap.specs.Layouts.{own_zeros, all_fields};
ghost use Rattle.jc_heap.specs.Strings.{is_chars, own_marks, string_place};
ghost use Rattle.std.specs.List.{flat_map};

use crate::StringPlace;
use crate::arrays::zero;
use crate::named::{NamedClasses, class_named};
use crate::names::{class_spelled, field_sort, has_flag, spells};
use jc_class_out::FieldModel;
use jc_jvm::Value;
use jc_rules::{Items, WantOfMemory};
use std::alloc::Global;

/// Whether a field is static.
pub fn is_static_field(field: &FieldModel) -> bool
    ensures { result ≡ static_by field.now }
{
    has_flag(8, field.flags)
}

fn field_zero(field: &FieldModel) -> Value
    ensures { result ≡ zero_of_field field.now }
{
    zero(field_sort(field.descriptor.slice()))
}

/// The superclass of a class, where the classes have it.
pub fn superclass(classes: &NamedClasses, class: u64) -> Option<u64>
    ensures { result ≡ super_of classes.now class }
{
    let model = classes.get(class as usize)?;
    let Some(name) = &model.superclass else {
        return None;
    };
    class_named(classes, name.slice())
}

// A class and its superclasses, itself first.
#[tactic(auto, using(crate::proofs::FieldLayouts::line_rules))]
fn line(alloc: Global, classes: &NamedClasses, class: u64) -> Result<Items<u64>, WantOfMemory>
    ensures { IfOk result (λ found. found ≡ line_of classes.now class) }
{
    let mut found = Items::new(alloc);
    let mut here = Some(class);
    for done in 0..classes.len() {
        match here {
            Some(number) => {
                found.push(number)?;
                here = superclass(classes, number);
            }
            None => return Ok(found),
        }
    }
    Ok(found)
}

/// A class and its superclasses, itself last.
pub fn reversed_line(
    alloc: Global,
    classes: &NamedClasses,
    class: u64,
) -> Result<Items<u64>, WantOfMemory>
    ensures { IfOk result (λ found. found ≡ reverse (line_of classes.now class)) }
{
    let mut found = line(alloc, classes, class)?.into_vec();
    found.reverse();
    Ok(Items::of(found))
}

fn add_zeros(found: &mut Items<Value>, fields: &[FieldModel]) -> Result<(), WantOfMemory>
    ensures { OnOk result (found.new ≡ found.old ++ own_zeros fields.now) }
{
    for field in fields {
        if !is_static_field(field) {
            found.push(field_zero(field))?;
        }
    }
    Ok(())
}

/// The fields of a class.
pub fn fields_in(classes: &NamedClasses, class: u64) -> &[FieldModel]
    ensures { result.now ≡ fields_of classes.now class }
{
    match classes.get(class as usize) {
        Some(model) => model.fields.slice(),
        None => &[],
    }
}

fn class_zeros(
    alloc: Global,
    classes: &NamedClasses,
    class: u64,
) -> Result<Items<Value>, WantOfMemory>
    ensures { IfOk result (λ found. found ≡ new_fields classes.now class) }
{
    let line = reversed_line(alloc, classes, class)?;
    let mut found = Items::new(alloc);
    for number in line.slice() {
        add_zeros(&mut found, fields_in(classes, *number))?;
    }
    Ok(found)
}

/// The values with which the fields of new objects begin, for each class.
#[tactic(auto, using(crate::proofs::FieldLayouts::ranges_more), unfolding(crate::specs::Layouts::all_fields))]
pub fn zeros_of_all(
    alloc: Global,
    classes: &NamedClasses,
) -> Result<Items<Items<Value>>, WantOfMemory>
    ensures { IfOk result (λ found. found ≡ all_fields classes.now) }
{
    let mut found = Items::new(alloc);
    for class in 0..classes.len() {
        found.push(class_zeros(alloc, classes, class as u64)?)?;
    }
    Ok(found)
}

fn may_hold_chars(field: &FieldModel) -> bool
    ensures { result ≡ is_chars field.now }
{
    spells(field.descriptor.slice(), "[C")
}

fn add_marks(found: &mut Items<bool>, fields: &[FieldModel]) -> Result<(), WantOfMemory>
    ensures { OnOk result (found.new ≡ found.old ++ own_marks fields.now) }
{
    for field in fields {
        if !is_static_field(field) {
            found.push(may_hold_chars(field))?;
        }
    }
    Ok(())
}

fn marks(alloc: Global, classes: &NamedClasses, class: u64) -> Result<Items<bool>, WantOfMemory>
    ensures { IfOk result (λ found. found ≡ flat_map (λ k. own_marks (fields_of classes.now k)) (reverse (line_of classes.now class))) }
{
    let line = reversed_line(alloc, classes, class)?;
    let mut found = Items::new(alloc);
    for number in line.slice() {
        add_marks(&mut found, fields_in(classes, *number))?;
    }
    Ok(found)
}

fn slot_for_chars(
    alloc: Global,
    classes: &NamedClasses,
    class: u64,
) -> Result<Option<usize>, WantOfMemory>
    ensures { IfOk result (λ slot. slot ≡ chars_slot classes.now class) }
{
    let marks = marks(alloc, classes, class)?;
    Ok(first_mark(marks.slice()))
}

/// The first mark that is set.
pub fn first_mark(marks: &[bool]) -> Option<usize>
    ensures { result ≡ position (λ b. b) marks.now }
{
    marks.iter().position(|mark| *mark)
}

/// Where strings are, if the classes have a String with a slot for its chars.
#[tactic(auto, unfolding(crate::specs::Strings::string_place))]
pub fn find_string(
    alloc: Global,
    classes: &NamedClasses,
) -> Result<Option<StringPlace>, WantOfMemory>
    ensures { IfOk result (λ place. place ≡ string_place classes.now) }
{
    let Some(class) = class_spelled(classes.models(), "java/lang/String") else {
        return Ok(None);
    };
    let class = class as u64;
    match slot_for_chars(alloc, classes, class)? {
        Some(slot) => Ok(Some(StringPlace { class, slot })),
        None => Ok(None),
    }
}
