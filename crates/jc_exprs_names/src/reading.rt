//! Values of what earlier walks found, if they found something.
ghost use Rattle.std.specs.Prelude.{◌≡◌, ◌<◌, Some, length, IfOk, OnOk};
ghost use Rattle.jc_typed.specs.Parts.{Grows};
ghost use Rattle.jc_exprs_nodes_spec.specs.Gates.{gated};
ghost use Rattle.jc_exprs_nodes_spec.specs.Told.{fine, onward, ran};
ghost use Rattle.jc_exprs_nodes.specs.Walks.{has, now};
ghost use Rattle.jc_exprs_parts_spec.specs.Names.{Value, value_of};
ghost use Rattle.jc_exprs_worlds.specs.Scenes.{world_of};
ghost use Rattle.jc_exprs_located.specs.Locations.{LocatedBelow, has_located, located_of};
ghost use Rattle.jc_exprs_meanings.specs.Meant.{MeaningBelow, has_meaning};

use jc_exprs_located::{LocatedAt, value_of};
use jc_exprs_meanings::{MeaningAt, value_meant};
use jc_exprs_nodes::{Walk, missing};
use jc_exprs_worlds::Scene;
use jc_rules::WantOfMemory;
use std::alloc::Global;

/// The value of what is found.
pub fn value_or(
    alloc: Global,
    scene: &Scene,
    walk: &mut Walk,
    located: Option<LocatedAt>,
) -> Result<u32, WantOfMemory>
    requires { LocatedBelow (length walk.old.nodes) located }
    ensures state { OnOk result ((gated (value_of (world_of scene.now)) (has_located walk.old.nodes located.entry) (now walk.old)).state ≡ now walk.new) }
    ensures value { IfOk result (λ at. (gated (value_of (world_of scene.now)) (has_located walk.old.nodes located.entry) (now walk.old)).has ≡ has walk.new.nodes at) }
    ensures within { IfOk result (λ at. at < length walk.new.nodes) }
    ensures grows { Grows walk.old.nodes walk.new.nodes }
{
    match located {
        None => missing(walk),
        Some(located) => value_of(alloc, walk, scene, located),
    }
}

/// The value of what is found there, as what stands before a point.
#[tactic(auto, using(jc_exprs_nodes_spec::proofs::Runs::runs))]
pub fn meaning_of_value(
    alloc: Global,
    scene: &Scene,
    walk: &mut Walk,
    located: LocatedAt,
) -> Result<Option<MeaningAt>, WantOfMemory>
    requires { LocatedBelow (length walk.old.nodes) (Some located) }
    ensures state { OnOk result ((ran (onward (value_of (world_of scene.now) (located_of walk.old.nodes located.entry)) (λ t. fine (Value t))) (now walk.old)).state ≡ now walk.new) }
    ensures value { IfOk result (λ m. (ran (onward (value_of (world_of scene.now) (located_of walk.old.nodes located.entry)) (λ t. fine (Value t))) (now walk.old)).has ≡ has_meaning walk.new.nodes m) }
    ensures within { IfOk result (λ m. MeaningBelow walk.new.nodes m) }
    ensures grows { Grows walk.old.nodes walk.new.nodes }
{
    let at = value_of(alloc, walk, scene, located)?;
    Ok(value_meant(walk, at))
}

/// The value of what is found, as what stands before a point.
#[tactic(auto, using(jc_typed::proofs::Growing::growing))]
pub fn meaning_or(
    alloc: Global,
    scene: &Scene,
    walk: &mut Walk,
    located: Option<LocatedAt>,
) -> Result<Option<MeaningAt>, WantOfMemory>
    requires { LocatedBelow (length walk.old.nodes) located }
    ensures state { OnOk result ((gated (λ l. onward (value_of (world_of scene.now) l) (λ t. fine (Value t))) (has_located walk.old.nodes located.entry) (now walk.old)).state ≡ now walk.new) }
    ensures value { IfOk result (λ m. (gated (λ l. onward (value_of (world_of scene.now) l) (λ t. fine (Value t))) (has_located walk.old.nodes located.entry) (now walk.old)).has ≡ has_meaning walk.new.nodes m) }
    ensures within { IfOk result (λ m. MeaningBelow walk.new.nodes m) }
    ensures grows { Grows walk.old.nodes walk.new.nodes }
{
    match located {
        None => Ok(None),
        Some(located) => meaning_of_value(alloc, scene, walk, located),
    }
}
