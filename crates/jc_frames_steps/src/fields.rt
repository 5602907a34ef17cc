//! Loads and stores of fields.
ghost use Rattle.std.specs.Prelude.{◌≡◌};
ghost use Rattle.jc_frames_types.specs.Items.{item_of, is_assignable as assignable};
ghost use Rattle.jc_frames_types.specs.States.{Does};
ghost use Rattle.jc_frames_steps.specs.Rules.{is_init as is_init_name, is_owner as is_owner_by, is_put_owner as is_put_owner_by, owner_taken, put_owner_taken, field_loaded, field_stored};

use crate::Environment;
use crate::guards::{Named, passes};
use jc_class_out::Item;
use jc_frames_types::{
    Supertypes, TypeState, UnitType, is_assignable, push, take_as, unit_of_type,
};

static INIT: [u16; 6] = [60, 105, 110, 105, 116, 62];

/// Whether it is the name of constructors.
pub fn is_init(name: &[u16]) -> bool
    ensures { result ≡ is_init_name name.now }
{
    name == INIT.as_slice()
}

/// Whether a type may stand where the class of this name is wanted.
pub fn is_object_of(types: &Supertypes<'_>, unit: UnitType<'_>, name: &[u16]) -> bool
    ensures { result ≡ assignable types.now (item_of unit.entry) (Item.Object name.now) }
{
    is_assignable(types, unit, UnitType::Object(name))
}

fn is_owner(e: &Environment<'_>, member: Named<'_>, unit: UnitType<'_>) -> bool
    ensures { result ≡ is_owner_by e.now member.entry.class.now member.entry.name.now member.entry.descriptor.now (item_of unit.entry) }
{
    is_object_of(e.types(), unit, member.class) && passes(e, member, unit)
}

fn is_put_owner(e: &Environment<'_>, member: Named<'_>, unit: UnitType<'_>) -> bool
    ensures { result ≡ is_put_owner_by e.now member.entry.class.now member.entry.name.now member.entry.descriptor.now (item_of unit.entry) }
{
    is_owner(e, member, unit)
        || (matches!(unit, UnitType::UninitializedThis)
            && (is_init(e.method().name.slice()) && member.class == e.class().name.slice()))
}

/// Takes the object of which a member is used.
pub fn take_owner(e: &Environment<'_>, member: Named<'_>, state: &mut TypeState<'_>) -> bool
    ensures { Does result (owner_taken e.now member.entry.class.now member.entry.name.now member.entry.descriptor.now state.old) state.new }
{
    match state.pop_unit() {
        Some(unit) => is_owner(e, member, unit),
        None => false,
    }
}

fn take_put_owner(e: &Environment<'_>, member: Named<'_>, state: &mut TypeState<'_>) -> bool
    ensures { Does result (put_owner_taken e.now member.entry.class.now member.entry.name.now member.entry.descriptor.now state.old) state.new }
{
    match state.pop_unit() {
        Some(unit) => is_put_owner(e, member, unit),
        None => false,
    }
}

/// getfield
pub fn load_field<'a>(e: &Environment<'_>, member: Named<'a>, state: &mut TypeState<'a>) -> bool
    ensures { Does result (field_loaded e.now member.entry.class.now member.entry.name.now member.entry.descriptor.now state.old) state.new }
{
    take_owner(e, member, state) && push(state, unit_of_type(member.descriptor))
}

/// putfield
pub fn store_field(e: &Environment<'_>, member: Named<'_>, state: &mut TypeState<'_>) -> bool
    ensures { Does result (field_stored e.now member.entry.class.now member.entry.name.now member.entry.descriptor.now state.old) state.new }
{
    take_as(e.types(), unit_of_type(member.descriptor), state) && take_put_owner(e, member, state)
}
