//! The types at a method's entry (JVMS 4.10.1.6, methodInitialStackFrame).
ghost use Rattle.std.specs.Prelude.{◌≡◌, ◌++◌, IfOk, OnOk, map};
ghost use Rattle.jc_class_out.specs.Descriptors.{is_static as is_static_by, this_item};
ghost use Rattle.jc_frames_types.specs.Items.{item_of};
ghost use Rattle.jc_frames_check.specs.Frames.{entry_frame as entry_frame_by};

use jc_class_out::{ClassModel, Frame, Item, MethodModel};
use jc_frames_steps::parameters_of;
use jc_frames_types::UnitType;
use jc_rules::{Items, WantOfMemory};
use std::alloc::Global;

static OBJECT: [u16; 16] = [
    106, 97, 118, 97, 47, 108, 97, 110, 103, 47, 79, 98, 106, 101, 99, 116,
];

static INIT: [u16; 6] = [60, 105, 110, 105, 116, 62];

fn item_from(alloc: Global, unit: UnitType<'_>) -> Result<Item, WantOfMemory>
    ensures { IfOk result (λ item. item ≡ item_of unit.entry) }
{
    match unit {
        UnitType::Top => Ok(Item::Top),
        UnitType::Integer => Ok(Item::Integer),
        UnitType::Long => Ok(Item::Long),
        UnitType::NullItem => Ok(Item::NullItem),
        UnitType::UninitializedThis => Ok(Item::UninitializedThis),
        UnitType::Object(name) => Ok(Item::Object(Items::of(name.to_vec(alloc)?))),
        UnitType::Uninitialized(at) => Ok(Item::Uninitialized(at)),
    }
}

fn add_items(
    alloc: Global,
    items: &mut Items<Item>,
    units: &[UnitType<'_>],
) -> Result<(), WantOfMemory>
    ensures { OnOk result (items.new ≡ items.old ++ map item_of units.now) }
{
    let mut rest = units;
    while let [unit, more @ ..] = rest {
        items.push(item_from(alloc, *unit)?)?;
        rest = more;
    }
    Ok(())
}

fn is_static(flags: u16) -> bool
    ensures { result ≡ is_static_by flags }
{
    flags / 8 % 2 == 1
}

fn this_of<'a>(class: &'a [u16], name: &[u16]) -> UnitType<'a>
    ensures { item_of result ≡ this_item class.now name.now }
{
    if name == INIT.as_slice() && class != OBJECT.as_slice() {
        UnitType::UninitializedThis
    } else {
        UnitType::Object(class)
    }
}

/// The types of the parameters, behind that of `this`, as a frame at the entry.
pub fn entry_frame(
    alloc: Global,
    class: &ClassModel,
    method: &MethodModel,
) -> Result<Frame, WantOfMemory>
    ensures { IfOk result (λ frame. frame ≡ entry_frame_by class.now method.now) }
{
    let mut locals = Items::new(alloc);
    if !is_static(method.flags) {
        locals.push(item_from(alloc, this_of(class.name.slice(), method.name.slice()))?)?;
    }
    let units = parameters_of(alloc, method.descriptor.slice())?;
    add_items(alloc, &mut locals, units.as_slice())?;
    Ok(Frame {
        at: 0,
        locals,
        stack: Items::new(alloc),
    })
}
