//! Casts (JLS 15.16).
ghost use Rattle.std.specs.Prelude.{◌<◌, ◌≡◌, IfOk, length, OnOk};
ghost use Rattle.jc_typed.specs.Parts.{Grows};
ghost use Rattle.jc_exprs_nodes_spec.specs.Gates.{gated};
ghost use Rattle.jc_exprs_nodes.specs.Walks.{has, now};
ghost use Rattle.jc_exprs_worlds.specs.Scenes.{IsWorldly, world_of};
ghost use Rattle.jc_exprs_parts_spec.specs.Worlds.{written};
ghost use Rattle.jc_exprs_parts_spec.specs.Values.{cast_to};

use jc_exprs_nodes::Walk;
use jc_exprs_values::cast_or;
use jc_exprs_worlds::{Scene, written};
use jc_rules::{Place, WantOfMemory};
use jc_tree::TypeTree;
use std::alloc::Global;

/// A cast to a written type, where its operand has a typing.
#[tactic(auto, using(jc_exprs_worlds::proofs::Told::worlds))]
pub fn cast(
    alloc: Global,
    scene: &Scene,
    walk: &mut Walk,
    place: Place,
    ty: &TypeTree,
    operand: u32,
) -> Result<u32, WantOfMemory>
    requires scene { IsWorldly scene.now }
    requires operand { operand < length walk.old.nodes }
    ensures state { OnOk result ((gated (cast_to (world_of scene.now).table place (written (world_of scene.now) ty.now)) (has walk.old.nodes operand) (now walk.old)).state ≡ now walk.new) }
    ensures value { IfOk result (λ at. (gated (cast_to (world_of scene.now).table place (written (world_of scene.now) ty.now)) (has walk.old.nodes operand) (now walk.old)).has ≡ has walk.new.nodes at) }
    ensures within { IfOk result (λ at. at < length walk.new.nodes) }
    ensures grows { Grows walk.old.nodes walk.new.nodes }
{
    let ty = written(alloc, scene, ty)?;
    cast_or(alloc, scene.table, walk, place, &ty, operand)
}
