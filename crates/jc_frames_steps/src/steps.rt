//! Every instruction, by its group and its operand.
ghost use Rattle.std.specs.Prelude.{◌≡◌, IfOk};
ghost use Rattle.jc_frames_types.specs.States.{Does};
ghost use Rattle.jc_frames_steps.specs.Placed.{array_by, array_made};
ghost use Rattle.jc_frames_steps.specs.Rules.{number_typed, nest_typed, switch_typed, other_typed, group_typed, typed_by, typed, goes_on as goes_on_by, falls_by, falls_through as falls_through_by};

use crate::Environment;
use crate::arrays::{make_array, make_nest};
use crate::guards::Named;
use crate::jumps::switch;
use crate::members::{step_bare, step_class, step_member, step_text};
use crate::plain::step_plain;
use jc_class_out::{Ins, Operand, SwitchCase};
use jc_frames_types::TypeState;
use jc_jvm::Group;
use jc_opcodes::{Opcode, by_number};
use jc_plain::{group_of, plain_of};
use jc_rules::WantOfMemory;
use std::alloc::Global;

fn step_number(e: &Environment<'_>, group: Group, n: i32, state: &mut TypeState<'_>) -> bool
    ensures { Does result (number_typed e.now group n state.old) state.new }
{
    match group {
        Group::NewArrays => make_array(e.types(), n, state),
        _ => false,
    }
}

fn step_nest<'a>(
    e: &Environment<'a>,
    group: Group,
    class: &'a [u16],
    dims: u8,
    state: &mut TypeState<'a>,
) -> bool
    ensures { Does result (nest_typed e.now group class.now dims state.old) state.new }
{
    match group {
        Group::NewNests => make_nest(e.types(), class, dims, state),
        _ => false,
    }
}

fn step_switch(
    e: &Environment<'_>,
    group: Group,
    otherwise: u32,
    cases: &[SwitchCase],
    state: &mut TypeState<'_>,
) -> bool
    ensures { Does result (switch_typed e.now group otherwise cases.now state.old) state.new }
{
    match group {
        Group::Switches => switch(e, otherwise, cases, state),
        _ => false,
    }
}

fn step_other<'a>(
    alloc: Global,
    e: &Environment<'a>,
    at: u32,
    group: Group,
    operand: &'a Operand,
    made: &'a [u16],
    state: &mut TypeState<'a>,
) -> Result<bool, WantOfMemory>
    requires { made.now ≡ array_by operand.now }
    ensures { IfOk result (λ done. Does done (other_typed e.now at group operand.now state.old) state.new) }
{
    match operand {
        Operand::Nothing => Ok(step_bare(e, group, state)),
        Operand::Number(n) => Ok(step_number(e, group, *n, state)),
        Operand::Load(constant) => Ok(step_text(group, constant, state)),
        Operand::Member {
            class,
            name,
            descriptor,
        } => {
            let member = Named {
                class: class.slice(),
                name: name.slice(),
                descriptor: descriptor.slice(),
            };
            step_member(alloc, e, group, member, state)
        }
        Operand::Class(class) => Ok(step_class(e, at, group, class.slice(), made, state)),
        Operand::Dims { class, dims } => Ok(step_nest(e, group, class.slice(), *dims, state)),
        Operand::Switch { otherwise, cases } => {
            Ok(step_switch(e, group, *otherwise, cases.slice(), state))
        }
        Operand::Local(_) | Operand::Step { .. } | Operand::Jump(_) => Ok(false),
    }
}

fn step_group<'a>(
    alloc: Global,
    e: &Environment<'a>,
    at: u32,
    group: Group,
    operand: &'a Operand,
    made: &'a [u16],
    state: &mut TypeState<'a>,
) -> Result<bool, WantOfMemory>
    requires { made.now ≡ array_by operand.now }
    ensures { IfOk result (λ done. Does done (group_typed e.now at group operand.now state.old) state.new) }
{
    match plain_of(group, operand) {
        Some(plain) => Ok(step_plain(e, plain, state)),
        None => step_other(alloc, e, at, group, operand, made, state),
    }
}

/// What an instruction at this offset does to the type state; it tells whether the instruction is type safe. `made` is the type of arrays of
/// the class that the instruction names, if it names one.
#[tactic(auto, unfolding(crate::specs::Rules::typed))]
pub fn step<'a>(
    alloc: Global,
    e: &Environment<'a>,
    at: u32,
    ins: &'a Ins,
    made: &'a [u16],
    state: &mut TypeState<'a>,
) -> Result<bool, WantOfMemory>
    requires { made.now ≡ array_made ins.now }
    ensures { IfOk result (λ done. Does done (typed e.now at ins.now state.old) state.new) }
{
    match by_number(ins.code) {
        Some(code) => step_group(alloc, e, at, group_of(code), &ins.operand, made, state),
        None => Ok(false),
    }
}

fn goes_on(group: Group) -> bool
    ensures { result ≡ goes_on_by group }
{
    !matches!(
        group,
        Group::Returns(_) | Group::Jumps | Group::Switches | Group::Throws
    )
}

/// Whether what stands behind an instruction comes from it, and not only by a jump.
#[tactic(auto, unfolding(crate::specs::Rules::falls_through))]
pub fn falls_through(ins: &Ins) -> bool
    ensures { result ≡ falls_through_by ins.now }
{
    match by_number(ins.code) {
        Some(code) => goes_on(group_of(code)),
        None => false,
    }
}
