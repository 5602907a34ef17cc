//! Values before a point.
ghost use Rattle.std.specs.Prelude.{◌≡◌, ◌<◌, length};
ghost use Rattle.jc_exprs_nodes_spec.specs.Gates.{gated};
ghost use Rattle.jc_exprs_nodes_spec.specs.Told.{fine};
ghost use Rattle.jc_exprs_nodes.specs.Walks.{has, now};
ghost use Rattle.jc_exprs_parts_spec.specs.Names.{Value};
ghost use Rattle.jc_exprs_meanings.specs.Meant.{MeaningBelow, has_meaning};

use crate::meaning::MeaningAt;
use jc_exprs_nodes::{Walk, part};

/// What stands at a place of the arena, as what stands before a point, if it has a typing.
#[tactic(auto, using(jc_exprs_nodes_spec::proofs::Runs::runs))]
pub fn value_meant(walk: &Walk, at: u32) -> Option<MeaningAt>
    requires { at < length walk.now.nodes }
    ensures state { (gated (λ t. fine (Value t)) (has walk.now.nodes at) (now walk.now)).state ≡ now walk.now }
    ensures value { (gated (λ t. fine (Value t)) (has walk.now.nodes at) (now walk.now)).has ≡ has_meaning walk.now.nodes result }
    ensures within { MeaningBelow walk.now.nodes result }
{
    match part(&walk.nodes, at) {
        None => None,
        Some(value) => Some(MeaningAt::Value(value)),
    }
}
