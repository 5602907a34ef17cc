//! From one instruction to the next (JVMS 4.10.1.6, mergedCodeIsTypeSafe).
ghost use Rattle.std.specs.Prelude.{◌≡◌, IfOk, MatchBool, map, drop, None, Some, true, if◌then◌else◌};
ghost use Rattle.jc_frames_check.specs.Frames.{passed_in, left_by, ends_well as ends_well_by, code_fault};
ghost use Rattle.jc_frames_check.specs.Told.{coming, first_name};
ghost use Rattle.jc_frames_steps.specs.Placed.{array_made};

use crate::handlers::are_satisfied;
use crate::merged::{behind_frame, enter, next_frame};
use jc_class_out::{Frame, Ins};
use jc_frames_steps::{Environment, falls_through, place_behind, step};
use jc_frames_types::TypeState;
use jc_rules::{Items, WantOfMemory};
use std::alloc::Global;

static NOTHING: [u16; 0] = [];

fn first_of<'a>(names: &'a [Items<u16>]) -> &'a [u16]
    ensures { result.now ≡ first_name names.now }
{
    match names {
        [] => NOTHING.as_slice(),
        [name, ..] => name.slice(),
    }
}

fn behind_first<'a>(names: &'a [Items<u16>]) -> &'a [Items<u16>]
    ensures { result.now ≡ drop 1 names.now }
{
    match names {
        [] => names,
        [_, more @ ..] => more,
    }
}

/// Over one instruction; it tells whether the instruction is type safe, and its handlers are satisfied.
fn pass<'a>(
    alloc: Global,
    e: &Environment<'a>,
    at: u32,
    ins: &'a Ins,
    made: &'a [u16],
    state: &mut TypeState<'a>,
) -> Result<bool, WantOfMemory>
    requires { made.now ≡ array_made ins.now }
    ensures { IfOk result (λ done. MatchBool done (passed_in e.now at ins.now state.old ≡ Some (left_by ins.now state.new)) (passed_in e.now at ins.now state.old ≡ None)) }
{
    if !are_satisfied(e, at, state, e.code().handlers.slice()) {
        return Ok(false);
    }
    step(alloc, e, at, ins, made, state)
}

/// At the end of the code, where a state comes or none does.
fn end(frames: &[Frame], at: u32, comes: bool, state: &TypeState<'_>) -> Option<u32>
    ensures { result ≡ (if ends_well_by frames.now (coming comes state.now) then None else Some at) }
{
    let _state = state;
    if !comes && frames.is_empty() {
        None
    } else {
        Some(at)
    }
}

/// The first offset at which the code isn't type safe.
#[tactic(auto, unfolding(crate::specs::Frames::code_fault))]
pub fn walk<'a>(
    alloc: Global,
    e: &Environment<'a>,
    made: &'a [Items<u16>],
    state: &mut TypeState<'a>,
) -> Result<Option<u32>, WantOfMemory>
    requires { made.now ≡ map array_made e.now.code.ins }
    ensures { IfOk result (λ fault. fault ≡ code_fault e.now e.now.code.frames 0 (Some state.old) e.now.code.ins) }
{
    let mut comes = true;
    let mut frames = e.code().frames.slice();
    let mut rest = e.code().ins.slice();
    let mut names = made;
    let mut at = 0;
    while let [ins, more @ ..] = rest {
        if !enter(alloc, e, comes, next_frame(at, frames), state)? {
            return Ok(Some(at));
        }
        if !pass(alloc, e, at, ins, first_of(names), state)? {
            return Ok(Some(at));
        }
        comes = falls_through(ins);
        frames = behind_frame(at, frames);
        at = place_behind(at, ins)?;
        names = behind_first(names);
        rest = more;
    }
    Ok(end(frames, at, comes, state))
}
