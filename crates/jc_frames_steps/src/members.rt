//! Instructions on members, on classes and on what stands in the constant pool.
ghost use Rattle.std.specs.Prelude.{◌≡◌, IfOk};
ghost use Rattle.jc_frames_types.specs.Names.{array_of};
ghost use Rattle.jc_frames_types.specs.States.{Does};
ghost use Rattle.jc_frames_steps.specs.Rules.{member_typed, class_typed, bare_typed, text_typed};

use crate::Environment;
use crate::arrays::make_references;
use crate::calls::{call_statically, call_virtually};
use crate::constructors::call_specially;
use crate::elements::{load_element, store_element};
use crate::fields::{load_field, store_field};
use crate::guards::Named;
use crate::objects::make_object;
use crate::returns::return_of;
use crate::takings::change;
use jc_class_out::Loaded;
use jc_frames_types::{TypeState, UnitType, Wanted, push, take, take_as, unit_of_type};
use jc_jvm::Group;
use jc_rules::WantOfMemory;
use std::alloc::Global;

static STRING: [u16; 16] = [
    106, 97, 118, 97, 47, 108, 97, 110, 103, 47, 83, 116, 114, 105, 110, 103,
];

/// An instruction on a field or a method.
pub fn step_member<'a>(
    alloc: Global,
    e: &Environment<'a>,
    group: Group,
    member: Named<'a>,
    state: &mut TypeState<'a>,
) -> Result<bool, WantOfMemory>
    ensures { IfOk result (λ done. Does done (member_typed e.now group member.entry.class.now member.entry.name.now member.entry.descriptor.now state.old) state.new) }
{
    match group {
        Group::StaticLoads => Ok(push(state, unit_of_type(member.descriptor))),
        Group::StaticStores => Ok(take_as(e.types(), unit_of_type(member.descriptor), state)),
        Group::FieldLoads => Ok(load_field(e, member, state)),
        Group::FieldStores => Ok(store_field(e, member, state)),
        Group::VirtualCalls => call_virtually(alloc, e, member, state),
        Group::SpecialCalls => call_specially(alloc, e, member, state),
        Group::StaticCalls => call_statically(alloc, e, member, state),
        _ => Ok(false),
    }
}

/// An instruction on a class or an array type; `made` is the type of arrays of those.
pub fn step_class<'a>(
    e: &Environment<'a>,
    at: u32,
    group: Group,
    class: &'a [u16],
    made: &'a [u16],
    state: &mut TypeState<'a>,
) -> bool
    requires { made.now ≡ array_of class.now }
    ensures { Does result (class_typed e.now at group class.now state.old) state.new }
{
    match group {
        Group::News => make_object(at, class, state),
        Group::NewReferenceArrays => make_references(e.types(), class, made, state),
        Group::Casts => change(e.types(), Wanted::AnyObject, UnitType::Object(class), state),
        Group::Tests => change(e.types(), Wanted::AnyObject, UnitType::Integer, state),
        _ => false,
    }
}

/// An instruction without an operand that doesn't touch its frame alone.
pub fn step_bare(e: &Environment<'_>, group: Group, state: &mut TypeState<'_>) -> bool
    ensures { Does result (bare_typed e.now group state.old) state.new }
{
    match group {
        Group::ElementLoads(element) => load_element(e.types(), element, state),
        Group::ElementStores(element) => store_element(e.types(), element, state),
        Group::Returns(sort) => return_of(e, sort, state),
        Group::Lengths => change(e.types(), Wanted::AnyArray, UnitType::Integer, state),
        Group::Throws => take(e.types(), Wanted::AnyThrowable, state),
        _ => false,
    }
}

/// A constant that isn't a number.
pub fn step_text(group: Group, constant: &Loaded, state: &mut TypeState<'_>) -> bool
    ensures { Does result (text_typed group constant.now state.old) state.new }
{
    match (group, constant) {
        (Group::Literals, Loaded::Text(_)) => push(state, UnitType::Object(STRING.as_slice())),
        _ => false,
    }
}
