//! The numbers by which calls select methods.
ghost use Rattle.std.specs.Prelude.{◌≡◌, IfOk};
ghost use Rattle.jc_jvm.specs.Classes.{is_selectable};
ghost use Rattle.jc_heap.specs.Signatures.{all_numbers, number_of, numbers_in, signature_of};

use crate::named::NamedClasses;
use crate::names::has_flag;
use crate::signatures::join;
use jc_class_out::{ClassModel, MethodModel};
use jc_rules::{Items, WantOfMemory};
use std::alloc::Global;

/// The number that stands for a name and a descriptor, where a method has them.
pub fn find_signature(
    alloc: Global,
    classes: &NamedClasses,
    name: &[u16],
    descriptor: &[u16],
) -> Result<Option<u64>, WantOfMemory>
    ensures { IfOk result (λ number. number ≡ signature_of classes.now name.now descriptor.now) }
{
    let text = join(alloc, name, descriptor)?;
    Ok(classes.number_for(text.slice()))
}

// Whether a call may select a method by the class of its object: one that is neither private nor static.
fn may_be_selected(method: &MethodModel) -> bool
    ensures { result ≡ is_selectable method.now }
{
    !has_flag(2, method.flags) && !has_flag(8, method.flags)
}

fn number_for(
    alloc: Global,
    classes: &NamedClasses,
    method: &MethodModel,
) -> Result<Option<u64>, WantOfMemory>
    ensures { IfOk result (λ number. number ≡ number_of classes.now method.now) }
{
    if may_be_selected(method) {
        find_signature(
            alloc,
            classes,
            method.name.slice(),
            method.descriptor.slice(),
        )
    } else {
        Ok(None)
    }
}

fn numbers_for(
    alloc: Global,
    classes: &NamedClasses,
    class: &ClassModel,
) -> Result<Items<Option<u64>>, WantOfMemory>
    ensures { IfOk result (λ found. found ≡ numbers_in classes.now class.now) }
{
    let mut found = Items::new(alloc);
    for method in class.methods.slice() {
        found.push(number_for(alloc, classes, method)?)?;
    }
    Ok(found)
}

/// Of each class the numbers of its methods, where they may be selected.
#[tactic(auto, unfolding(crate::specs::Signatures::all_numbers))]
pub fn numbers_of_all(
    alloc: Global,
    classes: &NamedClasses,
) -> Result<Items<Items<Option<u64>>>, WantOfMemory>
    ensures { IfOk result (λ found. found ≡ all_numbers classes.now) }
{
    let mut found = Items::new(alloc);
    for class in classes.models() {
        found.push(numbers_for(alloc, classes, class)?)?;
    }
    Ok(found)
}
