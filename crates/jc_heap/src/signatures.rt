//! Numbers that stand for the names and descriptors of methods.
ghost use Rattle.std.specs.Prelude.{◌≡◌, ◌++◌, ◌+◌, List, IfOk, OnOk, length};
ghost use Rattle.jc_class_out.specs.declared.model.MethodModel.{MethodModel as Method};
ghost use Rattle.jc_heap.specs.Signatures.{AreSignatures, SignaturesMore, all_methods, joined, marked};

use crate::numbers::add_name;
use jc_class_out::{ClassModel, MethodModel};
use jc_jvm::Texts;
use jc_rules::{Items, WantOfMemory};
use std::alloc::Global;

fn add_unit(text: &mut Items<u16>, unit: u16) -> Result<(), WantOfMemory>
    ensures { OnOk result (text.new ≡ text.old ++ marked unit) }
{
    text.push(1)?;
    text.push(unit)
}

/// A name and a descriptor as one text, of which both can be told.
pub fn join(alloc: Global, name: &[u16], descriptor: &[u16]) -> Result<Items<u16>, WantOfMemory>
    ensures { IfOk result (λ text. text ≡ joined name.now descriptor.now) }
{
    let mut text = Items::new(alloc);
    for unit in name {
        add_unit(&mut text, *unit)?;
    }
    text.push(0)?;
    add_units(&mut text, descriptor)?;
    Ok(text)
}

fn add_units(text: &mut Items<u16>, units: &[u16]) -> Result<(), WantOfMemory>
    ensures { OnOk result (text.new ≡ text.old ++ units.now) }
{
    for unit in units {
        text.push(*unit)?;
    }
    Ok(())
}

// Adds the number of a method with this name and descriptor, unless they have a number.
fn add_signature(
    alloc: Global,
    numbers: &mut Texts,
    name: &[u16],
    descriptor: &[u16],
    number: u64,
) -> Result<(), WantOfMemory>
    ensures { OnOk result (SignaturesMore numbers.old numbers.new name.now descriptor.now number) }
{
    let text = join(alloc, name, descriptor)?;
    add_name(alloc, numbers, text.slice(), number)?;
    Ok(())
}

// The next number.
fn after(number: u64) -> Result<u64, WantOfMemory>
    ensures { IfOk result (λ next. next ≡ number + 1) }
{
    match number.checked_add(1) {
        Some(next) => Ok(next),
        None => Err(WantOfMemory),
    }
}

// Adds the methods of a class, of which the first has this number, and tells the next number.
fn add_methods(
    alloc: Global,
    numbers: &mut Texts,
    methods: &[MethodModel],
    from: u64,
) -> Result<u64, WantOfMemory>
    ensures next { IfOk result (λ next. next ≡ from + length methods.now) }
    ensures numbers { IfOk result (λ next. (before : List Method) → from ≡ length before → AreSignatures before numbers.old → AreSignatures (before ++ methods.now) numbers.new) }
{
    let mut next = from;
    for method in methods {
        add_signature(
            alloc,
            numbers,
            method.name.slice(),
            method.descriptor.slice(),
            next,
        )?;
        next = after(next)?;
    }
    Ok(next)
}

/// The numbers of all methods by their names and descriptors: methods of one name and descriptor have one number.
pub fn signatures_of(alloc: Global, classes: &[ClassModel]) -> Result<Texts, WantOfMemory>
    ensures { IfOk result (λ numbers. AreSignatures (all_methods classes.now) numbers) }
{
    let mut numbers = Texts::new(alloc);
    let mut next = 0;
    for class in classes {
        next = add_methods(alloc, &mut numbers, class.methods.slice(), next)?;
    }
    Ok(numbers)
}
