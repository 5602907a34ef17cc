//! Names that break rules: nothing is found.
ghost use Rattle.std.specs.Prelude.{◌≡◌, None, IsTrue};
ghost use Rattle.jc_rules.specs.Rules.{is_rule};
ghost use Rattle.jc_exprs_nodes_spec.specs.Told.{by_rule, ran};
ghost use Rattle.jc_exprs_nodes.specs.Walks.{broken_by, now};
ghost use Rattle.jc_exprs_parts_spec.specs.Names.{Located};
ghost use Rattle.jc_exprs_located.specs.Locations.{has_located};

use crate::located::LocatedAt;
use jc_exprs_nodes::{Walk, note, refusal};
use jc_rules::{Place, Refusal};

/// Nothing is found by a name that breaks a rule, of which the walk keeps the least break.
#[tactic(auto, using(jc_typed::proofs::Growing::growing), unfolding(jc_exprs_nodes_spec::specs::Told::ran))]
pub fn refused<'a>(walk: &mut Walk, break_of: Refusal) -> Option<LocatedAt<'a>>
    ensures state { (ran (broken_by {A = Located} break_of) (now walk.old)).state ≡ now walk.new }
    ensures value { (ran (broken_by {A = Located} break_of) (now walk.old)).has ≡ has_located walk.new.nodes result }
    ensures none { result ≡ None }
    ensures nodes { walk.new.nodes ≡ walk.old.nodes }
{
    note(walk, break_of);
    None
}

/// The same of the rule of this number at a place.
#[tactic(auto, using(jc_typed::proofs::Growing::growing), unfolding(jc_exprs_nodes_spec::specs::Told::ran))]
pub fn broken<'a>(walk: &mut Walk, number: u16, place: Place) -> Option<LocatedAt<'a>>
    requires { IsTrue (is_rule number) }
    ensures state { (ran (by_rule {A = Located} number place) (now walk.old)).state ≡ now walk.new }
    ensures value { (ran (by_rule {A = Located} number place) (now walk.old)).has ≡ has_located walk.new.nodes result }
    ensures none { result ≡ None }
    ensures nodes { walk.new.nodes ≡ walk.old.nodes }
{
    note(walk, refusal(number, place));
    None
}
