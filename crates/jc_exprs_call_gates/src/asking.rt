//! What stands before the point of a call, where what the name or value there means is told.
ghost use Rattle.std.specs.Prelude.{◌≡◌, IfOk, OnOk};
ghost use Rattle.jc_typed.specs.Parts.{Grows};
ghost use Rattle.jc_exprs_nodes_spec.specs.Gates.{gated};
ghost use Rattle.jc_exprs_nodes.specs.Walks.{now};
ghost use Rattle.jc_exprs_spec.specs.Calls.{asked};
ghost use Rattle.jc_exprs_worlds.specs.Scenes.{world_of};
ghost use Rattle.jc_exprs_meanings.specs.Meant.{MeaningBelow, has_meaning};
ghost use Rattle.jc_exprs_calls.specs.Placing.{AreBefore, has_before};

use jc_exprs_calls::{BeforeAt, asked_value};
use jc_exprs_meanings::MeaningAt;
use jc_exprs_nodes::Walk;
use jc_exprs_worlds::Scene;
use jc_rules::WantOfMemory;
use std::alloc::Global;

/// What stands before the point: a value by its settled type, and none where two unrelated classes meet (624); or what is no value as it is.
#[tactic(auto, using(jc_typed::proofs::Growing::growing, jc_exprs_nodes_spec::proofs::Runs::runs))]
pub fn asked_or(
    alloc: Global,
    scene: &Scene,
    walk: &mut Walk,
    meaning: Option<MeaningAt>,
) -> Result<Option<BeforeAt>, WantOfMemory>
    requires { MeaningBelow walk.old.nodes meaning }
    ensures state { OnOk result ((gated (asked (world_of scene.now)) (has_meaning walk.old.nodes meaning) (now walk.old)).state ≡ now walk.new) }
    ensures value { IfOk result (λ b. (gated (asked (world_of scene.now)) (has_meaning walk.old.nodes meaning) (now walk.old)).has ≡ has_before walk.new.nodes b) }
    ensures within { IfOk result (λ b. AreBefore walk.new.nodes b) }
    ensures grows { Grows walk.old.nodes walk.new.nodes }
{
    match meaning {
        None => Ok(None),
        Some(MeaningAt::Value(value)) => asked_value(alloc, scene, walk, value),
        Some(MeaningAt::Other(sense)) => Ok(Some(BeforeAt::OfSense(sense))),
    }
}
