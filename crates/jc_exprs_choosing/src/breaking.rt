//! Rules that may be broken, before a member is chosen and by the choice.
ghost use Rattle.std.specs.Prelude.{◌≡◌, ◌++◌, ◌<◌, IfOk, IsTrue, None, OnOk, Some, length};
ghost use Rattle.jc_rules.specs.Rules.{is_rule};
ghost use Rattle.jc_resolve.specs.declared.choice.Chosen.{Chosen};
ghost use Rattle.jc_typed.specs.Parts.{Grows};
ghost use Rattle.jc_exprs_nodes_spec.specs.Told.{by_rule, fine, ran};
ghost use Rattle.jc_exprs_nodes.specs.Walks.{as_breaks, has, now};
ghost use Rattle.jc_exprs_spec.specs.Calls.{by_choice, members_breaks};
ghost use Rattle.jc_exprs_choosing.specs.Breaking.{breaks_of, noted};

use jc_exprs_nodes::{Walk, missing, note, refusal};
use jc_members::MethodView;
use jc_resolve::{Choice, Chosen};
use jc_rules::{Place, Refusal, WantOfMemory};

/// Rules that are broken before anything else is asked: one, and perhaps another.
#[derive(Clone, Copy, Debug)]
pub struct Broken {
    pub first: Refusal,
    pub other: Option<Refusal>,
}

/// Which of two rules are broken.
pub fn broken_of(first: Option<Refusal>, second: Option<Refusal>) -> Option<Broken>
    ensures { as_breaks first ++ as_breaks second ≡ breaks_of result }
{
    match first {
        Some(first) => Some(Broken {
            first,
            other: second,
        }),
        None => match second {
            Some(first) => Some(Broken { first, other: None }),
            None => None,
        },
    }
}

/// The walk keeps the least break.
pub fn note_broken(walk: &mut Walk, broken: Broken)
    ensures state { noted (breaks_of (Some broken)) (now walk.old) ≡ now walk.new }
    ensures nodes { walk.new.nodes ≡ walk.old.nodes }
{
    note(walk, broken.first);
    if let Some(other) = broken.other {
        note(walk, other);
    }
}

/// Nothing stands for a node that breaks these rules.
pub fn refused_by(walk: &mut Walk, broken: Broken) -> Result<u32, WantOfMemory>
    ensures state { OnOk result (noted (breaks_of (Some broken)) (now walk.old) ≡ now walk.new) }
    ensures value { IfOk result (λ at. None ≡ has walk.new.nodes at) }
    ensures within { IfOk result (λ at. at < length walk.new.nodes) }
    ensures grows { Grows walk.old.nodes walk.new.nodes }
{
    note_broken(walk, broken);
    missing(walk)
}

/// 603 where there is no member, and 618 where none may be named at the place.
pub fn members_break(
    place: Place,
    members: &[MethodView],
    nameable: &[MethodView],
) -> Option<Refusal>
    ensures { as_breaks result ≡ members_breaks place members.now nameable.now }
{
    match members {
        [] => Some(refusal(603, place)),
        [_, ..] => match nameable {
            [] => Some(refusal(618, place)),
            [_, ..] => None,
        },
    }
}

// No member is chosen, by the rule of this number.
#[tactic(auto, unfolding(jc_exprs_nodes_spec::specs::Told::ran))]
fn unchosen(walk: &mut Walk, number: u16, place: Place) -> Option<Chosen>
    requires { IsTrue (is_rule number) }
    ensures state { (ran (by_rule {A = Chosen} number place) (now walk.old)).state ≡ now walk.new }
    ensures value { (ran (by_rule {A = Chosen} number place) (now walk.old)).has ≡ result }
    ensures nodes { walk.new.nodes ≡ walk.old.nodes }
{
    note(walk, refusal(number, place));
    None
}

/// The chosen member; 604, 605 or 606 where there is none.
#[tactic(auto, unfolding(jc_exprs_nodes_spec::specs::Told::ran))]
pub fn by_choice(walk: &mut Walk, place: Place, choice: Choice) -> Option<Chosen>
    ensures state { (ran (by_choice {A = Chosen} place choice fine) (now walk.old)).state ≡ now walk.new }
    ensures value { (ran (by_choice {A = Chosen} place choice fine) (now walk.old)).has ≡ result }
    ensures nodes { walk.new.nodes ≡ walk.old.nodes }
{
    match choice {
        Choice::Chosen(chosen) => Some(chosen),
        Choice::NoMember => unchosen(walk, 603, place),
        Choice::NoneApplicable => unchosen(walk, 604, place),
        Choice::Ambiguous { .. } => unchosen(walk, 605, place),
        Choice::Deep => unchosen(walk, 606, place),
    }
}
