//! Frames merged with instructions (JVMS 4.10.1.5, mergeStackMapAndCode).
ghost use Rattle.std.specs.Prelude.{◌≡◌, IfOk, MatchOption, None, Some};
ghost use Rattle.std.specs.Option.{option_copied};
ghost use Rattle.jc_frames_types.specs.States.{Does, state_of};
ghost use Rattle.jc_frames_check.specs.Frames.{next_frame as next_frame_by, behind_frame as behind_frame_by, goes_from as goes_from_by, entered};
ghost use Rattle.jc_frames_check.specs.Told.{coming};

use jc_class_out::{CodeModel, Frame};
use jc_frames_steps::Environment;
use jc_frames_types::TypeState;
use jc_rules::WantOfMemory;
use std::alloc::Global;

/// The frame of the offset, if it is the next one.
pub fn next_frame<'a>(at: u32, frames: &'a [Frame]) -> Option<&'a Frame>
    ensures { option_copied result ≡ next_frame_by at frames.now }
{
    match frames {
        [] => None,
        [frame, ..] => { if frame.at == at { Some(frame) } else { None } }
    }
}

/// The frames behind that of the offset.
pub fn behind_frame<'a>(at: u32, frames: &'a [Frame]) -> &'a [Frame]
    ensures { result.now ≡ behind_frame_by at frames.now }
{
    match frames {
        [] => frames,
        [frame, more @ ..] => { if frame.at == at { more } else { frames } }
    }
}

fn goes_from(e: &Environment<'_>, comes: bool, frame: &Frame, state: &TypeState<'_>) -> bool
    ensures { result ≡ goes_from_by e.now (coming comes state.now) frame.now }
{
    !comes || state.goes_to(e.types(), frame)
}

/// The state that a frame tells, where it has room.
pub fn state_at<'a>(
    alloc: Global,
    code: &CodeModel,
    frame: &'a Frame,
) -> Result<Option<TypeState<'a>>, WantOfMemory>
    ensures { IfOk result (λ state. MatchOption state (state_of code.now.locals code.now.stack frame.now ≡ None) (λ s. state_of code.now.locals code.now.stack frame.now ≡ Some s)) }
{
    TypeState::of_frame(alloc, code.locals as usize, code.stack as usize, frame)
}

fn enter_frame<'a>(
    alloc: Global,
    e: &Environment<'a>,
    frame: &'a Frame,
    state: &mut TypeState<'a>,
) -> Result<bool, WantOfMemory>
    ensures { IfOk result (λ done. Does done (state_of e.now.code.locals e.now.code.stack frame.now) state.new) }
{
    match state_at(alloc, e.code(), frame)? {
        None => Ok(false),
        Some(told) => {
            let _former = std::mem::replace(state, told);
            Ok(true)
        }
    }
}

/// Makes the state that of an instruction, from what comes there, if anything does, and from its frame; it tells whether there is one.
pub fn enter<'a>(
    alloc: Global,
    e: &Environment<'a>,
    comes: bool,
    frame: Option<&'a Frame>,
    state: &mut TypeState<'a>,
) -> Result<bool, WantOfMemory>
    ensures { IfOk result (λ done. Does done (entered e.now (coming comes state.old) (option_copied frame.entry)) state.new) }
{
    match frame {
        None => Ok(comes),
        Some(frame) => {
            if !goes_from(e, comes, frame, state) {
                return Ok(false);
            }
            enter_frame(alloc, e, frame, state)
        }
    }
}
