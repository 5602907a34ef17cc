//! Exception handlers (JVMS 4.10.1.6).
ghost use Rattle.std.specs.Prelude.{◌≡◌};
ghost use Rattle.std.specs.Option.{option_copied};
ghost use Rattle.jc_frames_check.specs.Frames.{throwable, caught_class as caught_class_by, is_there as is_there_by, is_legal as is_legal_by, first_illegal as first_illegal_by, thrown, is_satisfied as is_satisfied_by, are_satisfied as are_satisfied_by};
ghost use Rattle.jc_frames_steps.specs.Rules.{goes_where};
ghost use Rattle.jc_frames_types.specs.Names.{is_name_below};
ghost use Rattle.jc_jvm.specs.Thrown.{covers as covers_by};

use jc_class_out::{Frame, Handler};
use jc_frames_steps::Environment;
use jc_frames_types::{Supertypes, TypeState, is_name_below as is_below};

static THROWABLE: [u16; 19] = [
    106, 97, 118, 97, 47, 108, 97, 110, 103, 47, 84, 104, 114, 111, 119, 97, 98, 108, 101,
];

fn caught_class(handler: &Handler) -> &[u16]
    ensures { result.now ≡ caught_class_by handler.now.class }
{
    match &handler.class {
        None => THROWABLE.as_slice(),
        Some(name) => name.slice(),
    }
}

fn is_there(frame: Option<&Frame>) -> bool
    ensures { result ≡ is_there_by (option_copied frame.entry) }
{
    frame.is_some()
}

fn is_throwable(types: &Supertypes<'_>, handler: &Handler) -> bool
    ensures { result ≡ is_name_below types.now (caught_class_by handler.now.class) throwable }
{
    is_below(types, caught_class(handler), THROWABLE.as_slice())
}

fn is_legal(e: &Environment<'_>, handler: &Handler) -> bool
    ensures { result ≡ is_legal_by e.now handler.now }
{
    handler.from < handler.to
        && (is_there(e.frame_at(handler.at)) && is_throwable(e.types(), handler))
}

/// Where the first handler begins that isn't legal.
#[tactic(auto, unfolding(crate::specs::Frames::first_illegal))]
pub fn first_illegal(e: &Environment<'_>, handlers: &[Handler]) -> Option<u32>
    ensures { result ≡ first_illegal_by e.now handlers.now }
{
    let mut rest = handlers;
    while let [handler, more @ ..] = rest {
        if !is_legal(e, handler) {
            return Some(handler.from);
        }
        rest = more;
    }
    None
}

fn covers(handler: &Handler, at: u32) -> bool
    ensures { result ≡ covers_by at handler.now }
{
    handler.from <= at && at < handler.to
}

fn catches(
    types: &Supertypes<'_>,
    state: &TypeState<'_>,
    handler: &Handler,
    frame: Option<&Frame>,
) -> bool
    ensures { result ≡ goes_where types.now (thrown handler.now state.now) (option_copied frame.entry) }
{
    match frame {
        Some(frame) => state.throws_to(types, state.is_pending(), caught_class(handler), frame),
        None => false,
    }
}

fn is_satisfied(e: &Environment<'_>, at: u32, state: &TypeState<'_>, handler: &Handler) -> bool
    ensures { result ≡ is_satisfied_by e.now at state.now handler.now }
{
    !covers(handler, at)
        || (state.has_room() && catches(e.types(), state, handler, e.frame_at(handler.at)))
}

/// Whether the state goes to each handler that covers the offset.
#[tactic(auto, unfolding(crate::specs::Frames::are_satisfied))]
pub fn are_satisfied(
    e: &Environment<'_>,
    at: u32,
    state: &TypeState<'_>,
    handlers: &[Handler],
) -> bool
    ensures { result ≡ are_satisfied_by e.now at state.now handlers.now }
{
    let mut rest = handlers;
    while let [handler, more @ ..] = rest {
        if !is_satisfied(e, at, state, handler) {
            return false;
        }
        rest = more;
    }
    true
}
