//! Simple names (JLS 6.5.2, 6.5.6.1).
ghost use Rattle.std.specs.Prelude.{◌≡◌, length, IfOk, OnOk};
ghost use Rattle.jc_typed.specs.Parts.{Grows};
ghost use Rattle.jc_exprs_nodes_spec.specs.Told.{fine, ran};
ghost use Rattle.jc_exprs_nodes.specs.Walks.{now};
ghost use Rattle.jc_exprs_locals.specs.Scoped.{local_of};
ghost use Rattle.jc_exprs_parts_spec.specs.Names.{AtLocal, as_value, field_here, first_meant, located_sense, sense_meant, simple_located};
ghost use Rattle.jc_exprs_parts_spec.specs.Senses.{simple_sense};
ghost use Rattle.jc_exprs_senses.specs.Sensed.{sense_of};
ghost use Rattle.jc_exprs_worlds.specs.Scenes.{IsWorldly, world_of};
ghost use Rattle.jc_exprs_located.specs.Locations.{LocatedBelow, has_located};
ghost use Rattle.jc_exprs_meanings.specs.Meant.{MeaningBelow, has_meaning};

use crate::fields::field_here;
use crate::meanings::other;
use crate::reading::{meaning_of_value, meaning_or};
use jc_exprs_locals::ScopedLocal;
use jc_exprs_located::{LocatedAt, broken};
use jc_exprs_meanings::MeaningAt;
use jc_exprs_nodes::Walk;
use jc_exprs_senses::{NameSense, simple_sense};
use jc_exprs_worlds::{Scene, local_named};
use jc_rules::{Place, WantOfMemory};
use jc_types::FieldId;
use std::alloc::Global;

// ---- as a value

#[tactic(auto, using(jc_typed::proofs::Growing::growing))]
fn located_sense<'a>(
    alloc: Global,
    scene: &Scene<'a>,
    walk: &mut Walk,
    place: Place,
    sense: NameSense,
) -> Result<Option<LocatedAt<'a>>, WantOfMemory>
    ensures state { OnOk result ((ran (located_sense (world_of scene.now) place (sense_of sense)) (now walk.old)).state ≡ now walk.new) }
    ensures value { IfOk result (λ l. (ran (located_sense (world_of scene.now) place (sense_of sense)) (now walk.old)).has ≡ has_located walk.new.nodes l) }
    ensures below { IfOk result (λ l. LocatedBelow (length walk.new.nodes) l) }
    ensures grows { Grows walk.old.nodes walk.new.nodes }
{
    match sense {
        NameSense::Fields { is_own, fields, .. } => {
            field_here(alloc, scene, walk, place, is_own, fields.slice())
        }
        NameSense::Class(_) => Ok(broken(walk, 602, place)),
        NameSense::Package(_) => Ok(broken(walk, 602, place)),
        NameSense::Nothing => Ok(broken(walk, 602, place)),
    }
}

#[tactic(auto, using(jc_typed::proofs::Growing::growing))]
fn located_outside<'a>(
    alloc: Global,
    scene: &Scene<'a>,
    walk: &mut Walk,
    place: Place,
    name: &str,
) -> Result<Option<LocatedAt<'a>>, WantOfMemory>
    requires { IsWorldly scene.now }
    ensures state { OnOk result ((ran (located_sense (world_of scene.now) place (simple_sense (world_of scene.now) name.now)) (now walk.old)).state ≡ now walk.new) }
    ensures value { IfOk result (λ l. (ran (located_sense (world_of scene.now) place (simple_sense (world_of scene.now) name.now)) (now walk.old)).has ≡ has_located walk.new.nodes l) }
    ensures below { IfOk result (λ l. LocatedBelow (length walk.new.nodes) l) }
    ensures grows { Grows walk.old.nodes walk.new.nodes }
{
    let sense = simple_sense(alloc, scene, name)?;
    located_sense(alloc, scene, walk, place, sense)
}

/// What a simple name finds: a local, or a field of the class of the place or of one round it; 602 where it names no value.
#[tactic(auto, using(jc_typed::proofs::Growing::growing, jc_exprs_nodes_spec::proofs::Runs::runs), unfolding(jc_exprs_parts_spec::specs::Names::simple_located))]
pub fn simple_located<'a>(
    alloc: Global,
    scene: &Scene<'a>,
    walk: &mut Walk,
    place: Place,
    name: &str,
) -> Result<Option<LocatedAt<'a>>, WantOfMemory>
    requires { IsWorldly scene.now }
    ensures state { OnOk result ((ran (simple_located (world_of scene.now) place name.now) (now walk.old)).state ≡ now walk.new) }
    ensures value { IfOk result (λ l. (ran (simple_located (world_of scene.now) place name.now) (now walk.old)).has ≡ has_located walk.new.nodes l) }
    ensures below { IfOk result (λ l. LocatedBelow (length walk.new.nodes) l) }
    ensures grows { Grows walk.old.nodes walk.new.nodes }
{
    match local_named(scene, name) {
        Some(local) => Ok(Some(LocatedAt::Local { place, local })),
        None => located_outside(alloc, scene, walk, place, name),
    }
}

// ---- before a point

#[tactic(auto, using(jc_exprs_nodes_spec::proofs::Runs::runs))]
fn field_meant(
    alloc: Global,
    scene: &Scene,
    walk: &mut Walk,
    place: Place,
    is_own: bool,
    fields: &[FieldId],
) -> Result<Option<MeaningAt>, WantOfMemory>
    ensures state { OnOk result ((ran (as_value (world_of scene.now) (field_here (world_of scene.now) place is_own fields.now)) (now walk.old)).state ≡ now walk.new) }
    ensures value { IfOk result (λ m. (ran (as_value (world_of scene.now) (field_here (world_of scene.now) place is_own fields.now)) (now walk.old)).has ≡ has_meaning walk.new.nodes m) }
    ensures within { IfOk result (λ m. MeaningBelow walk.new.nodes m) }
    ensures grows { Grows walk.old.nodes walk.new.nodes }
{
    let found = field_here(alloc, scene, walk, place, is_own, fields)?;
    meaning_or(alloc, scene, walk, found)
}

#[tactic(auto, using(jc_typed::proofs::Growing::growing))]
fn sense_meant(
    alloc: Global,
    scene: &Scene,
    walk: &mut Walk,
    place: Place,
    sense: NameSense,
) -> Result<Option<MeaningAt>, WantOfMemory>
    ensures state { OnOk result ((ran (sense_meant (world_of scene.now) place (sense_of sense)) (now walk.old)).state ≡ now walk.new) }
    ensures value { IfOk result (λ m. (ran (sense_meant (world_of scene.now) place (sense_of sense)) (now walk.old)).has ≡ has_meaning walk.new.nodes m) }
    ensures within { IfOk result (λ m. MeaningBelow walk.new.nodes m) }
    ensures grows { Grows walk.old.nodes walk.new.nodes }
{
    match sense {
        NameSense::Fields { is_own, fields, .. } => {
            field_meant(alloc, scene, walk, place, is_own, fields.slice())
        }
        NameSense::Class(_) => Ok(other(scene, walk, place, sense)),
        NameSense::Package(_) => Ok(other(scene, walk, place, sense)),
        NameSense::Nothing => Ok(other(scene, walk, place, sense)),
    }
}

#[tactic(auto, using(jc_typed::proofs::Growing::growing))]
fn meant_outside(
    alloc: Global,
    scene: &Scene,
    walk: &mut Walk,
    place: Place,
    name: &str,
) -> Result<Option<MeaningAt>, WantOfMemory>
    requires { IsWorldly scene.now }
    ensures state { OnOk result ((ran (sense_meant (world_of scene.now) place (simple_sense (world_of scene.now) name.now)) (now walk.old)).state ≡ now walk.new) }
    ensures value { IfOk result (λ m. (ran (sense_meant (world_of scene.now) place (simple_sense (world_of scene.now) name.now)) (now walk.old)).has ≡ has_meaning walk.new.nodes m) }
    ensures within { IfOk result (λ m. MeaningBelow walk.new.nodes m) }
    ensures grows { Grows walk.old.nodes walk.new.nodes }
{
    let sense = simple_sense(alloc, scene, name)?;
    sense_meant(alloc, scene, walk, place, sense)
}

#[tactic(auto, using(jc_exprs_nodes_spec::proofs::Runs::runs))]
fn local_meant(
    alloc: Global,
    scene: &Scene,
    walk: &mut Walk,
    place: Place,
    local: &ScopedLocal,
) -> Result<Option<MeaningAt>, WantOfMemory>
    ensures state { OnOk result ((ran (as_value (world_of scene.now) (fine (AtLocal place (local_of local.now)))) (now walk.old)).state ≡ now walk.new) }
    ensures value { IfOk result (λ m. (ran (as_value (world_of scene.now) (fine (AtLocal place (local_of local.now)))) (now walk.old)).has ≡ has_meaning walk.new.nodes m) }
    ensures within { IfOk result (λ m. MeaningBelow walk.new.nodes m) }
    ensures grows { Grows walk.old.nodes walk.new.nodes }
{
    meaning_of_value(alloc, scene, walk, LocatedAt::Local { place, local })
}

/// What a simple name before a point means: the value of a local or of a field, a class, or the beginning of a package's name.
#[tactic(auto, using(jc_typed::proofs::Growing::growing), unfolding(jc_exprs_parts_spec::specs::Names::first_meant))]
pub fn first_meant(
    alloc: Global,
    scene: &Scene,
    walk: &mut Walk,
    place: Place,
    name: &str,
) -> Result<Option<MeaningAt>, WantOfMemory>
    requires { IsWorldly scene.now }
    ensures state { OnOk result ((ran (first_meant (world_of scene.now) place name.now) (now walk.old)).state ≡ now walk.new) }
    ensures value { IfOk result (λ m. (ran (first_meant (world_of scene.now) place name.now) (now walk.old)).has ≡ has_meaning walk.new.nodes m) }
    ensures within { IfOk result (λ m. MeaningBelow walk.new.nodes m) }
    ensures grows { Grows walk.old.nodes walk.new.nodes }
{
    match local_named(scene, name) {
        Some(local) => local_meant(alloc, scene, walk, place, local),
        None => meant_outside(alloc, scene, walk, place, name),
    }
}
