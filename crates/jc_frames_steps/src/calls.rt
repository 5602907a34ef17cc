//! Calls of methods.
ghost use Rattle.std.specs.Prelude.{◌≡◌, IfOk, map, option_and_then};
ghost use Rattle.jc_jvm.specs.Types.{behind_parameters};
ghost use Rattle.jc_frames_types.specs.Items.{item_of};
ghost use Rattle.jc_frames_types.specs.States.{Does};
ghost use Rattle.jc_frames_steps.specs.Rules.{all_taken, arguments_taken, result_given, is_special as is_special_name, called_statically, called_virtually, owner_taken, is_own as is_own_by, own_taken, called_directly};

use crate::Environment;
use crate::fields::{is_init, is_object_of, take_owner};
use crate::guards::Named;
use crate::signatures::{is_void, parameters_of, result_of};
use jc_frames_types::{
    Supertypes, TypeState, UnitType, is_name_below, push, take_as, unit_of_type,
};
use jc_rules::WantOfMemory;
use std::alloc::Global;

static CLINIT: [u16; 8] = [60, 99, 108, 105, 110, 105, 116, 62];

/// Whether no method of this name may be called by it.
pub fn is_special(name: &[u16]) -> bool
    ensures { result ≡ is_special_name name.now }
{
    is_init(name) || name == CLINIT.as_slice()
}

/// Takes the last of these types first.
#[tactic(auto, using(crate::proofs::Arguments::argument_rules))]
fn take_all<'a>(
    types: &Supertypes<'_>,
    units: &mut Vec<UnitType<'a>>,
    state: &mut TypeState<'_>,
) -> bool
    ensures { Does result (all_taken types.now (map item_of units.old.items) state.old) state.new }
{
    'taking: while let Some(unit) = units.pop() {
        if !take_as(types, unit, state) {
            return false;
        }
    }
    true
}

/// Takes the arguments of a call.
pub fn take_arguments(
    alloc: Global,
    types: &Supertypes<'_>,
    descriptor: &[u16],
    state: &mut TypeState<'_>,
) -> Result<bool, WantOfMemory>
    ensures { IfOk result (λ done. Does done (arguments_taken types.now descriptor.now state.old) state.new) }
{
    let mut units = parameters_of(alloc, descriptor)?;
    Ok(take_all(types, &mut units, state))
}

/// Puts what a call gives on the stack, if it gives anything.
fn give_result<'a>(result_type: &'a [u16], state: &mut TypeState<'a>) -> bool
    ensures { Does result (result_given result_type.now state.old) state.new }
{
    is_void(result_type) || push(state, unit_of_type(result_type))
}

/// invokestatic
pub fn call_statically<'a>(
    alloc: Global,
    e: &Environment<'_>,
    member: Named<'a>,
    state: &mut TypeState<'a>,
) -> Result<bool, WantOfMemory>
    ensures { IfOk result (λ done. Does done (called_statically e.now member.entry.name.now member.entry.descriptor.now state.old) state.new) }
{
    if is_special(member.name) {
        return Ok(false);
    }
    if !take_arguments(alloc, e.types(), member.descriptor, state)? {
        return Ok(false);
    }
    Ok(give_result(result_of(member.descriptor), state))
}

fn call_owner<'a>(e: &Environment<'_>, member: Named<'a>, state: &mut TypeState<'a>) -> bool
    ensures { Does result (option_and_then (result_given (behind_parameters member.entry.descriptor.now)) (owner_taken e.now member.entry.class.now member.entry.name.now member.entry.descriptor.now state.old)) state.new }
{
    take_owner(e, member, state) && give_result(result_of(member.descriptor), state)
}

/// invokevirtual and invokeinterface
pub fn call_virtually<'a>(
    alloc: Global,
    e: &Environment<'_>,
    member: Named<'a>,
    state: &mut TypeState<'a>,
) -> Result<bool, WantOfMemory>
    ensures { IfOk result (λ done. Does done (called_virtually e.now member.entry.class.now member.entry.name.now member.entry.descriptor.now state.old) state.new) }
{
    if is_special(member.name) {
        return Ok(false);
    }
    if !take_arguments(alloc, e.types(), member.descriptor, state)? {
        return Ok(false);
    }
    Ok(call_owner(e, member, state))
}

fn is_own(e: &Environment<'_>, class: &[u16], unit: UnitType<'_>) -> bool
    ensures { result ≡ is_own_by e.now class.now (item_of unit.entry) }
{
    is_object_of(e.types(), unit, e.class().name.slice()) && is_object_of(e.types(), unit, class)
}

fn take_own(e: &Environment<'_>, class: &[u16], state: &mut TypeState<'_>) -> bool
    ensures { Does result (own_taken e.now class.now state.old) state.new }
{
    match state.pop_unit() {
        Some(unit) => is_own(e, class, unit),
        None => false,
    }
}

fn call_own<'a>(e: &Environment<'_>, member: Named<'a>, state: &mut TypeState<'a>) -> bool
    ensures { Does result (option_and_then (result_given (behind_parameters member.entry.descriptor.now)) (own_taken e.now member.entry.class.now state.old)) state.new }
{
    take_own(e, member.class, state) && give_result(result_of(member.descriptor), state)
}

/// invokespecial of a method that is no constructor
pub fn call_directly<'a>(
    alloc: Global,
    e: &Environment<'_>,
    member: Named<'a>,
    state: &mut TypeState<'a>,
) -> Result<bool, WantOfMemory>
    ensures { IfOk result (λ done. Does done (called_directly e.now member.entry.class.now member.entry.descriptor.now state.old) state.new) }
{
    if !is_name_below(e.types(), e.class().name.slice(), member.class) {
        return Ok(false);
    }
    if !take_arguments(alloc, e.types(), member.descriptor, state)? {
        return Ok(false);
    }
    Ok(call_own(e, member, state))
}
