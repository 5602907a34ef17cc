//! Names behind a point (JLS 6.5.2, 6.5.6.2).
ghost use Rattle.std.specs.Prelude.{◌≡◌, length, IfOk, OnOk, Some};
ghost use Rattle.jc_typed.specs.Parts.{Grows};
ghost use Rattle.jc_exprs_nodes_spec.specs.Told.{ran};
ghost use Rattle.jc_exprs_nodes.specs.Walks.{IsPart, known, now};
ghost use Rattle.jc_exprs_parts_spec.specs.Fields.{class_fields};
ghost use Rattle.jc_exprs_parts_spec.specs.Names.{Other, as_value, field_behind, located_behind, next_meant, other, sense_behind, value_member};
ghost use Rattle.jc_exprs_parts_spec.specs.Senses.{OfClass, next_sense};
ghost use Rattle.jc_exprs_senses.specs.Sensed.{sense_of};
ghost use Rattle.jc_exprs_worlds.specs.Scenes.{IsWorldly, world_of};
ghost use Rattle.jc_exprs_located.specs.Locations.{LocatedBelow, has_located};
ghost use Rattle.jc_exprs_meanings.specs.Meant.{MeaningBelow, has_meaning, meaning_of};

use crate::classes::field_behind;
use crate::meanings::{meaningless, other};
use crate::reading::meaning_or;
use jc_exprs_fields::class_fields;
use jc_exprs_located::{LocatedAt, broken, value_member};
use jc_exprs_meanings::MeaningAt;
use jc_exprs_nodes::{Part, Walk};
use jc_exprs_senses::{NameSense, field_or_member, next_sense};
use jc_exprs_worlds::Scene;
use jc_rules::{Place, WantOfMemory};
use jc_types::{ClassId, FieldId};
use std::alloc::Global;

// ---- further parts

// A field of a value, or the length of an array.
#[tactic(auto, using(jc_exprs_nodes_spec::proofs::Runs::runs))]
fn member_meant(
    alloc: Global,
    scene: &Scene,
    walk: &mut Walk,
    name: &str,
    value: Part,
) -> Result<Option<MeaningAt>, WantOfMemory>
    requires { IsPart walk.old.nodes value }
    ensures state { OnOk result ((ran (as_value (world_of scene.now) (value_member (world_of scene.now) name.now (known walk.old.nodes value.at))) (now walk.old)).state ≡ now walk.new) }
    ensures value { IfOk result (λ m. (ran (as_value (world_of scene.now) (value_member (world_of scene.now) name.now (known walk.old.nodes value.at))) (now walk.old)).has ≡ has_meaning walk.new.nodes m) }
    ensures within { IfOk result (λ m. MeaningBelow walk.new.nodes m) }
    ensures grows { Grows walk.old.nodes walk.new.nodes }
{
    let found = value_member(alloc, walk, scene, name, value)?;
    meaning_or(alloc, scene, walk, found)
}

#[tactic(auto, using(jc_exprs_nodes_spec::proofs::Runs::runs))]
fn field_meant(
    alloc: Global,
    scene: &Scene,
    walk: &mut Walk,
    place: Place,
    class: ClassId,
    fields: &[FieldId],
) -> Result<Option<MeaningAt>, WantOfMemory>
    ensures state { OnOk result ((ran (as_value (world_of scene.now) (field_behind (world_of scene.now) place class fields.now)) (now walk.old)).state ≡ now walk.new) }
    ensures value { IfOk result (λ m. (ran (as_value (world_of scene.now) (field_behind (world_of scene.now) place class fields.now)) (now walk.old)).has ≡ has_meaning walk.new.nodes m) }
    ensures within { IfOk result (λ m. MeaningBelow walk.new.nodes m) }
    ensures grows { Grows walk.old.nodes walk.new.nodes }
{
    let found = field_behind(alloc, scene, walk, place, class, fields)?;
    meaning_or(alloc, scene, walk, found)
}

// What a name means behind that of a class.
#[tactic(auto, using(jc_typed::proofs::Growing::growing))]
fn sense_behind(
    alloc: Global,
    scene: &Scene,
    walk: &mut Walk,
    place: Place,
    class: ClassId,
    sense: NameSense,
) -> Result<Option<MeaningAt>, WantOfMemory>
    ensures state { OnOk result ((ran (sense_behind (world_of scene.now) place class (sense_of sense)) (now walk.old)).state ≡ now walk.new) }
    ensures value { IfOk result (λ m. (ran (sense_behind (world_of scene.now) place class (sense_of sense)) (now walk.old)).has ≡ has_meaning walk.new.nodes m) }
    ensures within { IfOk result (λ m. MeaningBelow walk.new.nodes m) }
    ensures grows { Grows walk.old.nodes walk.new.nodes }
{
    match sense {
        NameSense::Fields { fields, .. } => {
            field_meant(alloc, scene, walk, place, class, fields.slice())
        }
        NameSense::Class(_) => Ok(other(scene, walk, place, sense)),
        NameSense::Package(_) => Ok(other(scene, walk, place, sense)),
        NameSense::Nothing => Ok(meaningless(walk, 603, place)),
    }
}

#[tactic(auto, using(jc_typed::proofs::Growing::growing))]
fn behind_class(
    alloc: Global,
    scene: &Scene,
    walk: &mut Walk,
    place: Place,
    name: &str,
    class: ClassId,
) -> Result<Option<MeaningAt>, WantOfMemory>
    requires { IsWorldly scene.now }
    ensures state { OnOk result ((ran (sense_behind (world_of scene.now) place class (next_sense (world_of scene.now) name.now (OfClass class))) (now walk.old)).state ≡ now walk.new) }
    ensures value { IfOk result (λ m. (ran (sense_behind (world_of scene.now) place class (next_sense (world_of scene.now) name.now (OfClass class))) (now walk.old)).has ≡ has_meaning walk.new.nodes m) }
    ensures within { IfOk result (λ m. MeaningBelow walk.new.nodes m) }
    ensures grows { Grows walk.old.nodes walk.new.nodes }
{
    let sense = field_or_member(alloc, scene, class, name)?;
    sense_behind(alloc, scene, walk, place, class, sense)
}

// What no value is behind what is no value and no class.
#[tactic(auto, using(jc_typed::proofs::Growing::growing))]
fn behind_other(
    alloc: Global,
    scene: &Scene,
    walk: &mut Walk,
    place: Place,
    name: &str,
    sense: NameSense,
) -> Result<Option<MeaningAt>, WantOfMemory>
    requires { IsWorldly scene.now }
    ensures state { OnOk result ((ran (other (world_of scene.now) place (next_sense (world_of scene.now) name.now (sense_of sense))) (now walk.old)).state ≡ now walk.new) }
    ensures value { IfOk result (λ m. (ran (other (world_of scene.now) place (next_sense (world_of scene.now) name.now (sense_of sense))) (now walk.old)).has ≡ has_meaning walk.new.nodes m) }
    ensures within { IfOk result (λ m. MeaningBelow walk.new.nodes m) }
    ensures grows { Grows walk.old.nodes walk.new.nodes }
{
    let next = next_sense(alloc, scene, name, sense)?;
    Ok(other(scene, walk, place, next))
}

// What a name means behind one that means no value.
#[tactic(auto, using(jc_typed::proofs::Growing::growing), unfolding(jc_exprs_parts_spec::specs::Names::next_meant))]
fn behind_sense(
    alloc: Global,
    scene: &Scene,
    walk: &mut Walk,
    place: Place,
    name: &str,
    sense: NameSense,
) -> Result<Option<MeaningAt>, WantOfMemory>
    requires { IsWorldly scene.now }
    ensures state { OnOk result ((ran (next_meant (world_of scene.now) place name.now (Other (sense_of sense))) (now walk.old)).state ≡ now walk.new) }
    ensures value { IfOk result (λ m. (ran (next_meant (world_of scene.now) place name.now (Other (sense_of sense))) (now walk.old)).has ≡ has_meaning walk.new.nodes m) }
    ensures within { IfOk result (λ m. MeaningBelow walk.new.nodes m) }
    ensures grows { Grows walk.old.nodes walk.new.nodes }
{
    match sense {
        NameSense::Fields { .. } => behind_other(alloc, scene, walk, place, name, sense),
        NameSense::Class(class) => behind_class(alloc, scene, walk, place, name, class),
        NameSense::Package(_) => behind_other(alloc, scene, walk, place, name, sense),
        NameSense::Nothing => behind_other(alloc, scene, walk, place, name, sense),
    }
}

/// What a further part means that something stands behind: of a value a field's value, of a class that or a member type, of a package a type or a longer package.
#[tactic(auto, using(jc_typed::proofs::Growing::growing), unfolding(jc_exprs_parts_spec::specs::Names::next_meant))]
pub fn next_meant(
    alloc: Global,
    scene: &Scene,
    walk: &mut Walk,
    place: Place,
    name: &str,
    meaning: MeaningAt,
) -> Result<Option<MeaningAt>, WantOfMemory>
    requires scene { IsWorldly scene.now }
    requires meaning { MeaningBelow walk.old.nodes (Some meaning) }
    ensures state { OnOk result ((ran (next_meant (world_of scene.now) place name.now (meaning_of walk.old.nodes meaning)) (now walk.old)).state ≡ now walk.new) }
    ensures value { IfOk result (λ m. (ran (next_meant (world_of scene.now) place name.now (meaning_of walk.old.nodes meaning)) (now walk.old)).has ≡ has_meaning walk.new.nodes m) }
    ensures within { IfOk result (λ m. MeaningBelow walk.new.nodes m) }
    ensures grows { Grows walk.old.nodes walk.new.nodes }
{
    match meaning {
        MeaningAt::Value(value) => member_meant(alloc, scene, walk, name, value),
        MeaningAt::Other(sense) => behind_sense(alloc, scene, walk, place, name, sense),
    }
}

// ---- the last part

#[tactic(auto, using(jc_typed::proofs::Growing::growing))]
fn member_behind<'a>(
    alloc: Global,
    scene: &Scene<'a>,
    walk: &mut Walk,
    place: Place,
    name: &str,
    class: ClassId,
) -> Result<Option<LocatedAt<'a>>, WantOfMemory>
    ensures state { OnOk result ((ran (field_behind (world_of scene.now) place class (class_fields scene.now.table.now class name.now)) (now walk.old)).state ≡ now walk.new) }
    ensures value { IfOk result (λ l. (ran (field_behind (world_of scene.now) place class (class_fields scene.now.table.now class name.now)) (now walk.old)).has ≡ has_located walk.new.nodes l) }
    ensures below { IfOk result (λ l. LocatedBelow (length walk.new.nodes) l) }
    ensures grows { Grows walk.old.nodes walk.new.nodes }
{
    let fields = class_fields(alloc, scene.table, class, name)?;
    field_behind(alloc, scene, walk, place, class, fields.slice())
}

#[tactic(auto, using(jc_typed::proofs::Growing::growing), unfolding(jc_exprs_parts_spec::specs::Names::located_behind, jc_exprs_worlds::specs::Scenes::world_of))]
fn located_sense<'a>(
    alloc: Global,
    scene: &Scene<'a>,
    walk: &mut Walk,
    place: Place,
    name: &str,
    sense: NameSense,
) -> Result<Option<LocatedAt<'a>>, WantOfMemory>
    ensures state { OnOk result ((ran (located_behind (world_of scene.now) place name.now (Other (sense_of sense))) (now walk.old)).state ≡ now walk.new) }
    ensures value { IfOk result (λ l. (ran (located_behind (world_of scene.now) place name.now (Other (sense_of sense))) (now walk.old)).has ≡ has_located walk.new.nodes l) }
    ensures below { IfOk result (λ l. LocatedBelow (length walk.new.nodes) l) }
    ensures grows { Grows walk.old.nodes walk.new.nodes }
{
    match sense {
        NameSense::Fields { .. } => Ok(broken(walk, 602, place)),
        NameSense::Class(class) => member_behind(alloc, scene, walk, place, name, class),
        NameSense::Package(_) => Ok(broken(walk, 602, place)),
        NameSense::Nothing => Ok(broken(walk, 602, place)),
    }
}

/// What the last part finds, which names a value: 602 behind a package.
#[tactic(auto, using(jc_typed::proofs::Growing::growing), unfolding(jc_exprs_parts_spec::specs::Names::located_behind))]
pub fn located_behind<'a>(
    alloc: Global,
    scene: &Scene<'a>,
    walk: &mut Walk,
    place: Place,
    name: &str,
    meaning: MeaningAt,
) -> Result<Option<LocatedAt<'a>>, WantOfMemory>
    requires { MeaningBelow walk.old.nodes (Some meaning) }
    ensures state { OnOk result ((ran (located_behind (world_of scene.now) place name.now (meaning_of walk.old.nodes meaning)) (now walk.old)).state ≡ now walk.new) }
    ensures value { IfOk result (λ l. (ran (located_behind (world_of scene.now) place name.now (meaning_of walk.old.nodes meaning)) (now walk.old)).has ≡ has_located walk.new.nodes l) }
    ensures below { IfOk result (λ l. LocatedBelow (length walk.new.nodes) l) }
    ensures grows { Grows walk.old.nodes walk.new.nodes }
{
    match meaning {
        MeaningAt::Value(value) => value_member(alloc, walk, scene, name, value),
        MeaningAt::Other(sense) => located_sense(alloc, scene, walk, place, name, sense),
    }
}
