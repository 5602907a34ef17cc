//! Verification types (JVMS 4.10.1.2).
ghost use Rattle.std.specs.Prelude.{◌≡◌, ◌&&◌};
ghost use Rattle.std.specs.Option.{option_map};
ghost use Rattle.jc_class_out.specs.Descriptors.{item_of_type};
ghost use Rattle.jc_class_out.specs.Forms.{same_item};
ghost use Rattle.jc_frames_types.specs.Items.{item_of, is_assignable as assignable, is_one_unit, is_reference as is_reference_item, is_array as is_array_item, is_byte_array as is_byte_array_item, is_reference_type, element_of as element_by};

use crate::Supertypes;
use crate::below::is_name_below;
use crate::names::{class_part, names_array};
use jc_class_out::Item;

/// What is known of a unit of the locals or of the stack: an `Item` whose name lies in a class model or in a descriptor of one. A Long has a
/// Top behind it.
#[derive(Clone, Copy, Debug)]
pub enum UnitType<'a> {
    Top,
    Integer,
    Long,
    NullItem,
    UninitializedThis,
    Object(&'a [u16]),
    Uninitialized(u32),
}

/// The same of an item of a frame.
pub fn unit_of(item: &Item) -> UnitType<'_>
    ensures { item_of result ≡ item.now }
{
    match item {
        Item::Top => UnitType::Top,
        Item::Integer => UnitType::Integer,
        Item::Long => UnitType::Long,
        Item::NullItem => UnitType::NullItem,
        Item::UninitializedThis => UnitType::UninitializedThis,
        Item::Object(name) => UnitType::Object(name.slice()),
        Item::Uninitialized(at) => UnitType::Uninitialized(*at),
    }
}

/// Whether both are the same.
pub fn is_same(one: UnitType<'_>, other: UnitType<'_>) -> bool
    ensures { result ≡ same_item (item_of one.entry) (item_of other.entry) }
{
    match (one, other) {
        (UnitType::Top, UnitType::Top) => true,
        (UnitType::Integer, UnitType::Integer) => true,
        (UnitType::Long, UnitType::Long) => true,
        (UnitType::NullItem, UnitType::NullItem) => true,
        (UnitType::UninitializedThis, UnitType::UninitializedThis) => true,
        (UnitType::Object(name), UnitType::Object(of)) => name == of,
        (UnitType::Uninitialized(at), UnitType::Uninitialized(of)) => at == of,
        _ => false,
    }
}

/// Whether the first may stand where the second is wanted.
#[tactic(auto, unfolding(crate::specs::Items::is_assignable))]
pub fn is_assignable(types: &Supertypes<'_>, from: UnitType<'_>, to: UnitType<'_>) -> bool
    ensures { result ≡ assignable types.now (item_of from.entry) (item_of to.entry) }
{
    match (from, to) {
        (_, UnitType::Top) => true,
        (UnitType::Integer, UnitType::Integer) => true,
        (UnitType::Long, UnitType::Long) => true,
        (UnitType::NullItem, UnitType::NullItem) => true,
        (UnitType::NullItem, UnitType::Object(_)) => true,
        (UnitType::UninitializedThis, UnitType::UninitializedThis) => true,
        (UnitType::Object(from), UnitType::Object(to)) => is_name_below(types, from, to),
        (UnitType::Uninitialized(at), UnitType::Uninitialized(to)) => at == to,
        _ => false,
    }
}

/// Whether it has one unit and is no Top.
pub fn has_one_unit(unit: UnitType<'_>) -> bool
    ensures { result ≡ is_one_unit (item_of unit.entry) }
{
    !matches!(unit, UnitType::Top | UnitType::Long)
}

/// Whether it is a reference, initialised or not.
pub fn is_reference(unit: UnitType<'_>) -> bool
    ensures { result ≡ is_reference_item (item_of unit.entry) }
{
    matches!(
        unit,
        UnitType::NullItem
            | UnitType::UninitializedThis
            | UnitType::Object(_)
            | UnitType::Uninitialized(_)
    )
}

/// Whether it is null or an array.
pub fn is_array(unit: UnitType<'_>) -> bool
    ensures { result ≡ is_array_item (item_of unit.entry) }
{
    match unit {
        UnitType::NullItem => true,
        UnitType::Object(name) => names_array(name),
        _ => false,
    }
}

static BYTES: [u16; 2] = [91, 66];

static BOOLEANS: [u16; 2] = [91, 90];

/// Whether it is null or an array of bytes or booleans.
pub fn is_byte_array(unit: UnitType<'_>) -> bool
    ensures { result ≡ is_byte_array_item (item_of unit.entry) }
{
    match unit {
        UnitType::NullItem => true,
        UnitType::Object(name) => name == BYTES.as_slice() || name == BOOLEANS.as_slice(),
        _ => false,
    }
}

fn is_of_reference(units: &[u16]) -> bool
    ensures { result ≡ is_reference_type units.now }
{
    match units {
        [] => false,
        [unit, ..] => *unit == 76 || *unit == 91,
    }
}

/// What a value of the type is, by its descriptor.
pub fn unit_of_type(units: &[u16]) -> UnitType<'_>
    ensures { item_of result ≡ item_of_type units.now }
{
    match units {
        [] => UnitType::Integer,
        [unit, name @ ..] => match *unit {
            74 => UnitType::Long,
            76 => UnitType::Object(class_part(name)),
            91 => UnitType::Object(units),
            _ => UnitType::Integer,
        },
    }
}

fn element_named(name: &[u16]) -> Option<UnitType<'_>>
    ensures { option_map item_of result ≡ element_by (Item.Object name.now) }
{
    match name {
        [] => None,
        [unit, element @ ..] => {
            if *unit == 91 && is_of_reference(element) {
                Some(unit_of_type(element))
            } else {
                None
            }
        }
    }
}

/// What an array of references has as elements.
pub fn element_of(unit: UnitType<'_>) -> Option<UnitType<'_>>
    ensures { option_map item_of result ≡ element_by (item_of unit.entry) }
{
    match unit {
        UnitType::NullItem => Some(UnitType::NullItem),
        UnitType::Object(name) => element_named(name),
        _ => None,
    }
}
