//! The same over what earlier walks have of the parts, if it is there.
ghost use Rattle.std.specs.Prelude.{◌≡◌, ◌<◌, ℕ, List, None, Some, length, option_map, IfOk, OnOk};
ghost use Rattle.jc_typed.specs.Parts.{Grows};
ghost use Rattle.jc_typed.specs.declared.nodes.Node.{Node};
ghost use Rattle.jc_exprs_nodes_spec.specs.Gates.{gated, gated_two};
ghost use Rattle.jc_exprs_nodes_spec.specs.Told.{by_rule, fine, onward, ran};
ghost use Rattle.jc_exprs_nodes.specs.Walks.{has, now};
ghost use Rattle.jc_exprs_parts_spec.specs.Assigning.{Target};
ghost use Rattle.jc_exprs_parts_spec.specs.Names.{Located, element_of, located_behind, next_meant, target_of};
ghost use Rattle.jc_exprs_targets.specs.Targets.{TargetBelow, has_target};
ghost use Rattle.jc_exprs_worlds.specs.Scenes.{IsWorldly, world_of};
ghost use Rattle.jc_exprs_located.specs.Locations.{LocatedBelow, has_located, located_of};
ghost use Rattle.jc_exprs_meanings.specs.Meant.{MeaningBelow, has_meaning};

use crate::behind::{located_behind, next_meant};
use jc_exprs_located::{LocatedAt, broken, element_of, target_of};
use jc_exprs_meanings::MeaningAt;
use jc_exprs_nodes::{Walk, part};
use jc_exprs_targets::TargetAt;
use jc_exprs_worlds::Scene;
use jc_rules::{Place, WantOfMemory};
use std::alloc::Global;

/// What a further part means behind what was meant before.
#[tactic(auto, using(jc_typed::proofs::Growing::growing))]
pub fn next_meant_or(
    alloc: Global,
    scene: &Scene,
    walk: &mut Walk,
    place: Place,
    name: &str,
    meaning: Option<MeaningAt>,
) -> Result<Option<MeaningAt>, WantOfMemory>
    requires scene { IsWorldly scene.now }
    requires meaning { MeaningBelow walk.old.nodes meaning }
    ensures state { OnOk result ((gated (next_meant (world_of scene.now) place name.now) (has_meaning walk.old.nodes meaning) (now walk.old)).state ≡ now walk.new) }
    ensures value { IfOk result (λ m. (gated (next_meant (world_of scene.now) place name.now) (has_meaning walk.old.nodes meaning) (now walk.old)).has ≡ has_meaning walk.new.nodes m) }
    ensures within { IfOk result (λ m. MeaningBelow walk.new.nodes m) }
    ensures grows { Grows walk.old.nodes walk.new.nodes }
{
    match meaning {
        None => Ok(None),
        Some(meaning) => next_meant(alloc, scene, walk, place, name, meaning),
    }
}

/// What the last part of a name finds behind what was meant before.
#[tactic(auto, using(jc_typed::proofs::Growing::growing))]
pub fn located_behind_or<'a>(
    alloc: Global,
    scene: &Scene<'a>,
    walk: &mut Walk,
    place: Place,
    name: &str,
    meaning: Option<MeaningAt>,
) -> Result<Option<LocatedAt<'a>>, WantOfMemory>
    requires { MeaningBelow walk.old.nodes meaning }
    ensures state { OnOk result ((gated (located_behind (world_of scene.now) place name.now) (has_meaning walk.old.nodes meaning) (now walk.old)).state ≡ now walk.new) }
    ensures value { IfOk result (λ l. (gated (located_behind (world_of scene.now) place name.now) (has_meaning walk.old.nodes meaning) (now walk.old)).has ≡ has_located walk.new.nodes l) }
    ensures below { IfOk result (λ l. LocatedBelow (length walk.new.nodes) l) }
    ensures grows { Grows walk.old.nodes walk.new.nodes }
{
    match meaning {
        None => Ok(None),
        Some(meaning) => located_behind(alloc, scene, walk, place, name, meaning),
    }
}

// A variable by where its expression begins.
fn started(found: Option<TargetAt>, start: Place) -> Option<TargetAt>
    ensures value { (ns : List Node) → has_target ns result ≡ option_map (λ (v : Target). record v { start = start }) (has_target ns found) }
    ensures below { (n : ℕ) → TargetBelow n found → TargetBelow n result }
{
    match found {
        None => None,
        Some(target) => Some(TargetAt { start, ..target }),
    }
}

#[tactic(auto, using(jc_exprs_nodes_spec::proofs::Runs::runs))]
fn target_from(
    alloc: Global,
    scene: &Scene,
    walk: &mut Walk,
    start: Place,
    located: LocatedAt,
) -> Result<Option<TargetAt>, WantOfMemory>
    requires { LocatedBelow (length walk.old.nodes) (Some located) }
    ensures state { OnOk result ((ran (onward (target_of (world_of scene.now) (located_of walk.old.nodes located.entry)) (λ (v : Target). fine (record v { start = start }))) (now walk.old)).state ≡ now walk.new) }
    ensures value { IfOk result (λ v. (ran (onward (target_of (world_of scene.now) (located_of walk.old.nodes located.entry)) (λ (v : Target). fine (record v { start = start }))) (now walk.old)).has ≡ has_target walk.new.nodes v) }
    ensures below { IfOk result (λ v. TargetBelow (length walk.new.nodes) v) }
    ensures grows { Grows walk.old.nodes walk.new.nodes }
{
    let found = target_of(alloc, walk, scene, located)?;
    Ok(started(found, start))
}

/// The variable that is found, by where its expression begins: none at the length of an array (610).
#[tactic(auto, using(jc_typed::proofs::Growing::growing))]
pub fn target_or(
    alloc: Global,
    scene: &Scene,
    walk: &mut Walk,
    start: Place,
    located: Option<LocatedAt>,
) -> Result<Option<TargetAt>, WantOfMemory>
    requires { LocatedBelow (length walk.old.nodes) located }
    ensures state { OnOk result ((gated (λ l. onward (target_of (world_of scene.now) l) (λ (v : Target). fine (record v { start = start }))) (has_located walk.old.nodes located.entry) (now walk.old)).state ≡ now walk.new) }
    ensures value { IfOk result (λ v. (gated (λ l. onward (target_of (world_of scene.now) l) (λ (v : Target). fine (record v { start = start }))) (has_located walk.old.nodes located.entry) (now walk.old)).has ≡ has_target walk.new.nodes v) }
    ensures below { IfOk result (λ v. TargetBelow (length walk.new.nodes) v) }
    ensures grows { Grows walk.old.nodes walk.new.nodes }
{
    match located {
        None => Ok(None),
        Some(located) => target_from(alloc, scene, walk, start, located),
    }
}

/// An element of an array: 617 at what is no array, 607 at an index that isn't promoted to int.
#[tactic(auto, using(jc_typed::proofs::Growing::growing))]
pub fn element_or<'a>(
    alloc: Global,
    scene: &Scene<'a>,
    walk: &mut Walk,
    array: u32,
    index: u32,
) -> Result<Option<LocatedAt<'a>>, WantOfMemory>
    requires array { array < length walk.old.nodes }
    requires index { index < length walk.old.nodes }
    ensures state { OnOk result ((gated_two (element_of (world_of scene.now)) (has walk.old.nodes array) (has walk.old.nodes index) (now walk.old)).state ≡ now walk.new) }
    ensures value { IfOk result (λ l. (gated_two (element_of (world_of scene.now)) (has walk.old.nodes array) (has walk.old.nodes index) (now walk.old)).has ≡ has_located walk.new.nodes l) }
    ensures below { IfOk result (λ l. LocatedBelow (length walk.new.nodes) l) }
    ensures grows { Grows walk.old.nodes walk.new.nodes }
{
    let Some(array) = part(&walk.nodes, array) else {
        return Ok(None);
    };
    let Some(index) = part(&walk.nodes, index) else {
        return Ok(None);
    };
    element_of(alloc, walk, scene, array, index)
}

/// An expression that is no variable (610), if it has a typing.
pub fn no_variable<'a>(walk: &mut Walk, at: u32) -> Option<LocatedAt<'a>>
    requires { at < length walk.old.nodes }
    ensures state { (gated (λ t. by_rule {A = Located} 610 t.place) (has walk.old.nodes at) (now walk.old)).state ≡ now walk.new }
    ensures value { (gated (λ t. by_rule {A = Located} 610 t.place) (has walk.old.nodes at) (now walk.old)).has ≡ has_located walk.new.nodes result }
    ensures none { result ≡ None }
    ensures nodes { walk.new.nodes ≡ walk.old.nodes }
{
    match part(&walk.nodes, at) {
        None => None,
        Some(part) => broken(walk, 610, part.place),
    }
}
