//! Nodes that break rules.
ghost use Rattle.std.specs.Prelude.{◌≡◌, ◌<◌, None, Some, length, IfOk, OnOk, IsTrue};
ghost use Rattle.jc_rules.specs.Rules.{is_rule};
ghost use Rattle.jc_types.specs.Breaks.{sooner};
ghost use Rattle.jc_typed.specs.Parts.{Grows};
ghost use Rattle.jc_exprs_nodes_spec.specs.Told.{breaking, by_rule, ran, standing};
ghost use Rattle.jc_exprs_nodes_spec.specs.Typeds.{Typed, unconverted};
ghost use Rattle.jc_exprs_nodes.specs.Walks.{as_breaks, broken_by, has, now};

use crate::walk::Walk;
use jc_convert::Converts;
use jc_rules::{Place, Refusal, Rule, WantOfMemory};
use jc_typed::OperandNode;
use jc_types::sooner;

/// A rule that is broken at a place.
pub fn refusal(number: u16, place: Place) -> Refusal
    requires { IsTrue (is_rule number) }
    ensures { result ≡ breaking number place }
{
    Refusal {
        rule: Rule::from_number(number).unwrap(),
        place,
        have: 0,
    }
}

/// The rule that is broken at a place where there is no conversion: this one, or 606 where that can't be told.
pub fn unconverted(number: u16, place: Place, converts: &Converts) -> Option<Refusal>
    requires { IsTrue (is_rule number) }
    ensures { as_breaks result ≡ unconverted number place converts.now }
{
    match converts {
        Converts::Yes(_) => None,
        Converts::NoConversion => Some(refusal(number, place)),
        Converts::Deep => Some(refusal(606, place)),
    }
}

/// One of several breaks of a node: the walk keeps the least one.
pub fn note(walk: &mut Walk, break_of: Refusal)
    ensures state { standing walk.old.env.bounds (sooner walk.old.found (Some break_of)) ≡ now walk.new }
    ensures nodes { walk.new.nodes ≡ walk.old.nodes }
{
    walk.found = sooner(walk.found, Some(break_of));
}

/// Nothing stands for a node.
#[tactic(auto, unfolding(crate::specs::Walks::typed_in))]
pub fn missing(walk: &mut Walk) -> Result<u32, WantOfMemory>
    ensures state { OnOk result (now walk.old ≡ now walk.new) }
    ensures value { IfOk result (λ at. None ≡ has walk.new.nodes at) }
    ensures within { IfOk result (λ at. at < length walk.new.nodes) }
    ensures grows { Grows walk.old.nodes walk.new.nodes }
{
    walk.nodes.push_operand(OperandNode::Missing)
}

/// A node that breaks a rule: the walk keeps the least break, and nothing stands for the node.
#[tactic(auto, unfolding(jc_exprs_nodes_spec::specs::Told::ran))]
pub fn refused(walk: &mut Walk, break_of: Refusal) -> Result<u32, WantOfMemory>
    ensures state { OnOk result ((ran (broken_by {A = Typed} break_of) (now walk.old)).state ≡ now walk.new) }
    ensures value { IfOk result (λ at. (ran (broken_by {A = Typed} break_of) (now walk.old)).has ≡ has walk.new.nodes at) }
    ensures within { IfOk result (λ at. at < length walk.new.nodes) }
    ensures grows { Grows walk.old.nodes walk.new.nodes }
{
    note(walk, break_of);
    missing(walk)
}

/// A node that breaks the rule of this number at a place.
#[tactic(auto, unfolding(jc_exprs_nodes_spec::specs::Told::ran))]
pub fn broken(walk: &mut Walk, number: u16, place: Place) -> Result<u32, WantOfMemory>
    requires { IsTrue (is_rule number) }
    ensures state { OnOk result ((ran (by_rule {A = Typed} number place) (now walk.old)).state ≡ now walk.new) }
    ensures value { IfOk result (λ at. (ran (by_rule {A = Typed} number place) (now walk.old)).has ≡ has walk.new.nodes at) }
    ensures within { IfOk result (λ at. at < length walk.new.nodes) }
    ensures grows { Grows walk.old.nodes walk.new.nodes }
{
    note(walk, refusal(number, place));
    missing(walk)
}
