//! What stands before a point that is no value.
ghost use Rattle.std.specs.Prelude.{◌≡◌, IsTrue, None};
ghost use Rattle.jc_rules.specs.Rules.{is_rule};
ghost use Rattle.jc_exprs_nodes_spec.specs.Told.{by_rule, ran};
ghost use Rattle.jc_exprs_nodes.specs.Walks.{now};
ghost use Rattle.jc_exprs_parts_spec.specs.Names.{Meaning, other};
ghost use Rattle.jc_exprs_parts_spec.specs.Senses.{OfClass};
ghost use Rattle.jc_exprs_senses.specs.Sensed.{sense_of};
ghost use Rattle.jc_exprs_worlds.specs.Scenes.{world_of};
ghost use Rattle.jc_exprs_meanings.specs.Meant.{MeaningBelow, has_meaning};

use jc_exprs_fields::may_name_class;
use jc_exprs_meanings::MeaningAt;
use jc_exprs_nodes::{Walk, note, refusal};
use jc_exprs_senses::NameSense;
use jc_exprs_worlds::Scene;
use jc_rules::Place;
use jc_types::ClassId;

/// Nothing is meant by a name that breaks the rule of this number, of which the walk keeps the least break.
#[tactic(auto, unfolding(jc_exprs_nodes_spec::specs::Told::ran))]
pub fn meaningless(walk: &mut Walk, number: u16, place: Place) -> Option<MeaningAt>
    requires { IsTrue (is_rule number) }
    ensures state { (ran (by_rule {A = Meaning} number place) (now walk.old)).state ≡ now walk.new }
    ensures value { (ran (by_rule {A = Meaning} number place) (now walk.old)).has ≡ has_meaning walk.new.nodes result }
    ensures none { result ≡ None }
    ensures nodes { walk.new.nodes ≡ walk.old.nodes }
{
    note(walk, refusal(number, place));
    None
}

#[tactic(auto, using(jc_exprs_nodes_spec::proofs::Runs::runs))]
fn class_meant(scene: &Scene, walk: &mut Walk, place: Place, class: ClassId) -> Option<MeaningAt>
    ensures state { (ran (other (world_of scene.now) place (OfClass class)) (now walk.old)).state ≡ now walk.new }
    ensures value { (ran (other (world_of scene.now) place (OfClass class)) (now walk.old)).has ≡ has_meaning walk.new.nodes result }
    ensures within { MeaningBelow walk.new.nodes result }
    ensures nodes { walk.new.nodes ≡ walk.old.nodes }
{
    if may_name_class(scene, class) {
        return Some(MeaningAt::Other(NameSense::Class(class)));
    }
    meaningless(walk, 618, place)
}

/// What is no value: 618 at a class that may not be named there.
#[tactic(auto, using(jc_exprs_nodes_spec::proofs::Runs::runs))]
pub fn other(scene: &Scene, walk: &mut Walk, place: Place, sense: NameSense) -> Option<MeaningAt>
    ensures state { (ran (other (world_of scene.now) place (sense_of sense)) (now walk.old)).state ≡ now walk.new }
    ensures value { (ran (other (world_of scene.now) place (sense_of sense)) (now walk.old)).has ≡ has_meaning walk.new.nodes result }
    ensures within { MeaningBelow walk.new.nodes result }
    ensures nodes { walk.new.nodes ≡ walk.old.nodes }
{
    match sense {
        NameSense::Fields { .. } => Some(MeaningAt::Other(sense)),
        NameSense::Class(class) => class_meant(scene, walk, place, class),
        NameSense::Package(_) => Some(MeaningAt::Other(sense)),
        NameSense::Nothing => Some(MeaningAt::Other(sense)),
    }
}
