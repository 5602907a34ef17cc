//! Names of types, as Class.getName gives them.
ghost use Rattle.std.specs.Prelude.{◌≡◌, ◌++◌, ◌==◌, IfOk, OnOk, replicate, if◌then◌else◌};
ghost use Rattle.jc_jvm.specs.Classes.{name_of as name_by_number};
ghost use Rattle.jc_jvm.specs.Types.{letter_of, dotted, descriptor_of_base, name_of_base, name_of_shape};

use jc_class_out::ClassModel;
use jc_jvm::{Base, Shape};
use jc_rules::{Items, WantOfMemory};
use std::alloc::Global;

fn letter(base: Base) -> u16
    ensures { result ≡ letter_of base }
{
    match base {
        Base::Boolean => 90,
        Base::Char => 67,
        Base::Byte => 66,
        Base::Short => 83,
        Base::Int => 73,
        Base::Long => 74,
        Base::Class(_) => 76,
    }
}

/// The name of the class of a number; nothing where there is none.
pub fn name_of_class(classes: &[ClassModel], class: u64) -> &[u16]
    ensures { result.now ≡ name_by_number classes.now class }
{
    match classes.get(class as usize) {
        Some(model) => model.name.slice(),
        None => &[],
    }
}

fn dot(unit: u16) -> u16
    ensures { result ≡ (if unit == 47 then 46 else unit) }
{
    if unit == 47 { 46 } else { unit }
}

fn add_dotted(found: &mut Items<u16>, name: &[u16]) -> Result<(), WantOfMemory>
    ensures { OnOk result (found.new ≡ found.old ++ dotted name.now) }
{
    for unit in name {
        found.push(dot(*unit))?;
    }
    Ok(())
}

fn add_descriptor(
    found: &mut Items<u16>,
    classes: &[ClassModel],
    base: Base,
) -> Result<(), WantOfMemory>
    ensures { OnOk result (found.new ≡ found.old ++ descriptor_of_base classes.now base) }
{
    found.push(letter(base))?;
    match base {
        Base::Class(class) => {
            add_dotted(found, name_of_class(classes, class))?;
            found.push(59)?;
            Ok(())
        }
        Base::Boolean | Base::Char | Base::Byte | Base::Short | Base::Int | Base::Long => Ok(()),
    }
}

fn add_base_name(
    found: &mut Items<u16>,
    classes: &[ClassModel],
    base: Base,
) -> Result<(), WantOfMemory>
    ensures { OnOk result (found.new ≡ found.old ++ name_of_base classes.now base) }
{
    match base {
        Base::Class(class) => add_dotted(found, name_of_class(classes, class)),
        Base::Boolean | Base::Char | Base::Byte | Base::Short | Base::Int | Base::Long => {
            found.push(letter(base))
        }
    }
}

fn add_brackets(found: &mut Items<u16>, dims: u64) -> Result<(), WantOfMemory>
    ensures { OnOk result (found.new ≡ found.old ++ replicate dims 91) }
{
    for done in 0..dims {
        found.push(91)?;
    }
    Ok(())
}

/// The name of a type as Class.getName gives it.
pub fn type_name(
    alloc: Global,
    classes: &[ClassModel],
    shape: Shape,
) -> Result<Items<u16>, WantOfMemory>
    ensures { IfOk result (λ name. name ≡ name_of_shape classes.now shape) }
{
    let mut found = Items::new(alloc);
    if shape.dims == 0 {
        add_base_name(&mut found, classes, shape.base)?;
    } else {
        add_brackets(&mut found, shape.dims)?;
        add_descriptor(&mut found, classes, shape.base)?;
    }
    Ok(found)
}
