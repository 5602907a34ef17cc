//! Jumps (JVMS 4.10.1.8, targetIsTypeSafe).
ghost use Rattle.std.specs.Prelude.{◌≡◌, Some, None};
ghost use Rattle.jc_frames_types.specs.States.{Does};
ghost use Rattle.jc_frames_steps.specs.Rules.{reaches as reaches_by, if_reaches, reached, keys_ascend, cases_reach, switched};
ghost use Rattle.jc_frames_types.specs.States.{taken};
ghost use Rattle.jc_frames_steps.specs.Rules.{taken_two};

use crate::Environment;
use crate::takings::take_two;
use jc_class_out::{SwitchCase, above};
use jc_frames_types::{TypeState, Wanted, take};

/// Whether the state goes where a place is.
pub fn reaches(e: &Environment<'_>, to: u32, state: &TypeState<'_>) -> bool
    ensures { result ≡ reaches_by e.now to state.now }
{
    match e.frame_at(to) {
        Some(frame) => state.goes_to(e.types(), frame),
        None => false,
    }
}

/// A jump that always goes.
pub fn jump(e: &Environment<'_>, to: u32, state: &mut TypeState<'_>) -> bool
    ensures { Does result (if_reaches e.now to state.old) state.new }
{
    reaches(e, to, state)
}

/// A jump by one value.
pub fn jump_by(e: &Environment<'_>, wanted: Wanted, to: u32, state: &mut TypeState<'_>) -> bool
    ensures { Does result (reached e.now to (taken e.now.classes wanted state.old)) state.new }
{
    take(e.types(), wanted, state) && reaches(e, to, state)
}

/// A jump by two values of the same sort.
pub fn jump_by_two(e: &Environment<'_>, wanted: Wanted, to: u32, state: &mut TypeState<'_>) -> bool
    ensures { Does result (reached e.now to (taken_two e.now.classes wanted wanted state.old)) state.new }
{
    take_two(e.types(), wanted, wanted, state) && reaches(e, to, state)
}

#[tactic(auto, unfolding(crate::specs::Rules::keys_ascend))]
fn are_ascending(cases: &[SwitchCase]) -> bool
    ensures { result ≡ keys_ascend None cases.now }
{
    let mut before = None;
    let mut rest = cases;
    while let [case, more @ ..] = rest {
        if !above(before, case.key) {
            return false;
        }
        before = Some(case.key);
        rest = more;
    }
    true
}

#[tactic(auto, unfolding(crate::specs::Rules::cases_reach))]
fn all_reach(e: &Environment<'_>, state: &TypeState<'_>, cases: &[SwitchCase]) -> bool
    ensures { result ≡ cases_reach e.now state.now cases.now }
{
    let mut rest = cases;
    while let [case, more @ ..] = rest {
        if !reaches(e, case.at, state) {
            return false;
        }
        rest = more;
    }
    true
}

/// A jump by an int to one of several places.
pub fn switch(
    e: &Environment<'_>,
    otherwise: u32,
    cases: &[SwitchCase],
    state: &mut TypeState<'_>,
) -> bool
    ensures { Does result (switched e.now otherwise cases.now state.old) state.new }
{
    take(e.types(), Wanted::Whole, state)
        && (reaches(e, otherwise, state) && (all_reach(e, state, cases) && are_ascending(cases)))
}
