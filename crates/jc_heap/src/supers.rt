//! The direct supertypes of classes.
ghost use Rattle.std.specs.Prelude.{◌≡◌, ◌++◌, IfOk, OnOk, option_and_then};
ghost use Rattle.std.specs.List.{filter_map};
ghost use Rattle.jc_jvm.specs.Classes.{class_named as class_by_name, listed};
ghost use Rattle.jc_heap.specs.Supers.{supers_in, all_supers, all_parents};

use crate::named::{NamedClasses, class_named};
use jc_class_out::ClassModel;
use jc_rules::{Items, WantOfMemory};
use std::alloc::Global;

fn add_named(
    found: &mut Items<u64>,
    classes: &NamedClasses,
    name: &[u16],
) -> Result<(), WantOfMemory>
    ensures { OnOk result (found.new ≡ found.old ++ listed (class_by_name classes.now name.now)) }
{
    match class_named(classes, name) {
        Some(number) => found.push(number),
        None => Ok(()),
    }
}

fn add_super(
    found: &mut Items<u64>,
    classes: &NamedClasses,
    class: &ClassModel,
) -> Result<(), WantOfMemory>
    ensures { OnOk result (found.new ≡ found.old ++ listed (option_and_then (class_by_name classes.now) class.now.superclass)) }
{
    match &class.superclass {
        Some(name) => add_named(found, classes, name.slice()),
        None => Ok(()),
    }
}

#[tactic(auto, using(crate::proofs::Below::filter_map_more))]
fn add_interfaces(
    found: &mut Items<u64>,
    classes: &NamedClasses,
    class: &ClassModel,
) -> Result<(), WantOfMemory>
    ensures { OnOk result (found.new ≡ found.old ++ filter_map (class_by_name classes.now) class.now.interfaces) }
{
    for name in class.interfaces.slice() {
        add_named(found, classes, name.slice())?;
    }
    Ok(())
}

fn supers_of(
    alloc: Global,
    classes: &NamedClasses,
    class: &ClassModel,
) -> Result<Items<u64>, WantOfMemory>
    ensures { IfOk result (λ found. found ≡ supers_in classes.now class.now) }
{
    let mut found = Items::new(alloc);
    add_super(&mut found, classes, class)?;
    add_interfaces(&mut found, classes, class)?;
    Ok(found)
}

/// The direct supertypes of each class, by number.
#[tactic(auto, unfolding(crate::specs::Supers::all_supers))]
pub fn supers_of_all(
    alloc: Global,
    classes: &NamedClasses,
) -> Result<Items<Items<u64>>, WantOfMemory>
    ensures { IfOk result (λ found. found ≡ all_supers classes.now) }
{
    let mut found = Items::new(alloc);
    for class in classes.models() {
        found.push(supers_of(alloc, classes, class)?)?;
    }
    Ok(found)
}

fn parent_of(classes: &NamedClasses, class: &ClassModel) -> Option<u64>
    ensures { result ≡ option_and_then (class_by_name classes.now) class.now.superclass }
{
    let Some(name) = &class.superclass else {
        return None;
    };
    class_named(classes, name.slice())
}

/// The superclass of each class, where the classes have it.
#[tactic(auto, unfolding(crate::specs::Supers::all_parents))]
pub fn parents_of_all(
    alloc: Global,
    classes: &NamedClasses,
) -> Result<Items<Option<u64>>, WantOfMemory>
    ensures { IfOk result (λ found. found ≡ all_parents classes.now) }
{
    let mut found = Items::new(alloc);
    for class in classes.models() {
        found.push(parent_of(classes, class))?;
    }
    Ok(found)
}
