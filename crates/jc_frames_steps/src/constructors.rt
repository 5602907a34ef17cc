//! Calls of constructors.
ghost use Rattle.std.specs.Prelude.{◌≡◌, ◌||◌, IfOk};
ghost use Rattle.std.specs.Str.{bytes_eq};
ghost use Rattle.std.specs.Option.{option_map, option_copied};
ghost use Rattle.jc_frames_types.specs.Items.{item_of};
ghost use Rattle.jc_frames_types.specs.States.{Does};
ghost use Rattle.jc_frames_steps.specs.Rules.{is_name_of as is_name_of_class, names_class as names_class_by, makes as makes_by, initialised_as, initialised_to, initialised, settled, constructed, called_specially};

use crate::Environment;
use crate::calls::{call_directly, is_special, take_arguments};
use crate::fields::is_init;
use crate::guards::{Named, passes};
use crate::signatures::{is_void, result_of};
use jc_class_out::{ClassModel, Ins, Operand};
use jc_frames_types::{TypeState, UnitType};
use jc_opcodes::{Opcode, by_number};
use jc_rules::WantOfMemory;
use std::alloc::Global;

fn is_superclass_of(class: &[u16], below: &ClassModel) -> bool
    ensures { result ≡ is_name_of_class class.now below.now.superclass }
{
    match &below.superclass {
        Some(name) => class == name.slice(),
        None => false,
    }
}

fn names_class(class: &[u16], operand: &Operand) -> bool
    ensures { result ≡ names_class_by class.now operand.now }
{
    match operand {
        Operand::Class(name) => class == name.slice(),
        _ => false,
    }
}

fn makes(class: &[u16], ins: Option<&Ins>) -> bool
    ensures { result ≡ makes_by class.now (option_copied ins.entry) }
{
    match ins {
        Some(ins) => {
            matches!(by_number(ins.code), Some(Opcode::New)) && names_class(class, &ins.operand)
        }
        None => false,
    }
}

fn is_constructed_by(e: &Environment<'_>, class: &[u16]) -> bool
    ensures { result ≡ (bytes_eq class.now e.now.class.name || is_name_of_class class.now e.now.class.superclass) }
{
    class == e.class().name.slice() || is_superclass_of(class, e.class())
}

/// What an object is behind the call of a constructor of this class.
fn initialise_as<'a>(
    e: &Environment<'a>,
    class: &'a [u16],
    unit: UnitType<'_>,
) -> Option<UnitType<'a>>
    ensures { option_map item_of result ≡ initialised_as e.now class.now (item_of unit.entry) }
{
    match unit {
        UnitType::UninitializedThis => {
            if is_constructed_by(e, class) {
                Some(UnitType::Object(e.class().name.slice()))
            } else {
                None
            }
        }
        UnitType::Uninitialized(at) => {
            if makes(class, e.ins_at(at)) {
                Some(UnitType::Object(class))
            } else {
                None
            }
        }
        _ => None,
    }
}

fn settle(unit: UnitType<'_>, state: &mut TypeState<'_>)
    ensures { state.new ≡ settled (item_of unit.entry) state.old }
{
    if matches!(unit, UnitType::UninitializedThis) {
        state.settle();
    }
}

fn initialise_to<'a>(
    e: &Environment<'a>,
    member: Named<'a>,
    unit: UnitType<'a>,
    new: Option<UnitType<'a>>,
    state: &mut TypeState<'a>,
) -> bool
    ensures { Does result (initialised_to e.now member.entry.class.now member.entry.name.now member.entry.descriptor.now (item_of unit.entry) state.old (option_map item_of new.entry)) state.new }
{
    match new {
        Some(new) => {
            if !passes(e, member, new) {
                return false;
            }
            state.substitute(unit, new);
            settle(unit, state);
            true
        }
        None => false,
    }
}

fn initialise<'a>(e: &Environment<'a>, member: Named<'a>, state: &mut TypeState<'a>) -> bool
    ensures { Does result (initialised e.now member.entry.class.now member.entry.name.now member.entry.descriptor.now state.old) state.new }
{
    match state.pop_unit() {
        Some(unit) => {
            initialise_to(e, member, unit, initialise_as(e, member.class, unit), state)
        }
        None => false,
    }
}

fn construct<'a>(
    alloc: Global,
    e: &Environment<'a>,
    member: Named<'a>,
    state: &mut TypeState<'a>,
) -> Result<bool, WantOfMemory>
    ensures { IfOk result (λ done. Does done (constructed e.now member.entry.class.now member.entry.name.now member.entry.descriptor.now state.old) state.new) }
{
    if !is_void(result_of(member.descriptor)) {
        return Ok(false);
    }
    if !take_arguments(alloc, e.types(), member.descriptor, state)? {
        return Ok(false);
    }
    Ok(initialise(e, member, state))
}

/// invokespecial
pub fn call_specially<'a>(
    alloc: Global,
    e: &Environment<'a>,
    member: Named<'a>,
    state: &mut TypeState<'a>,
) -> Result<bool, WantOfMemory>
    ensures { IfOk result (λ done. Does done (called_specially e.now member.entry.class.now member.entry.name.now member.entry.descriptor.now state.old) state.new) }
{
    if is_init(member.name) {
        return construct(alloc, e, member, state);
    }
    if is_special(member.name) {
        return Ok(false);
    }
    call_directly(alloc, e, member, state)
}
