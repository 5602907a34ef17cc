//! What names mean that aren't locals (JLS 6.5.2, 6.5.6).
ghost use Rattle.std.specs.Prelude.{◌≡◌, None, true, false, IfOk, string_bytes};
ghost use Rattle.jc_exprs_parts_spec.specs.Senses.{OfClass, OfPackage, field_round, next_sense, sense_of_fields, sense_of_look, simple_sense};
ghost use Rattle.jc_exprs_parts_spec.specs.Worlds.{class_ids, reading, round};
ghost use Rattle.jc_exprs_worlds.specs.Scenes.{IsWorldly, world_of};
ghost use Rattle.jc_exprs_senses.specs.Sensed.{has_sense, member_of_sight, sense_of, sense_of_sight};

use crate::sense::NameSense;
use jc_exprs_fields::class_fields;
use jc_exprs_worlds::{Scene, reading};
use jc_looking::{Sight, first_meaning, member, round_of};
use jc_rules::{Items, WantOfMemory};
use jc_types::{ClassId, FieldId, Table};
use std::alloc::Global;

fn sense_of_fields(class: ClassId, is_own: bool, fields: Items<FieldId>) -> Option<NameSense>
    ensures { has_sense result ≡ sense_of_fields class is_own fields None }
{
    if fields.is_empty() {
        return None;
    }
    Some(NameSense::Fields {
        class,
        is_own,
        fields,
    })
}

// The fields of a name that the first of these classes has that has one.
#[tactic(auto, using(crate::proofs::Sensing::rounds))]
fn field_outside(
    alloc: Global,
    table: &Table,
    name: &str,
    classes: &[u64],
) -> Result<Option<NameSense>, WantOfMemory>
    ensures { IfOk result (λ s. has_sense s ≡ field_round table.now name.now false (class_ids classes.now)) }
{
    let mut rest = classes;
    while let [class, more @ ..] = rest {
        let class = ClassId(*class);
        let fields = class_fields(alloc, table, class, name)?;
        if let Some(sense) = sense_of_fields(class, false, fields) {
            return Ok(Some(sense));
        }
        rest = more;
    }
    Ok(None)
}

#[tactic(auto, using(crate::proofs::Sensing::rounds), unfolding(jc_exprs_worlds::specs::Scenes::world_of))]
fn field_round(alloc: Global, scene: &Scene, name: &str) -> Result<Option<NameSense>, WantOfMemory>
    ensures { IfOk result (λ s. has_sense s ≡ field_round scene.now.table.now name.now true (round (world_of scene.now))) }
{
    let fields = class_fields(alloc, scene.table, scene.class, name)?;
    if let Some(sense) = sense_of_fields(scene.class, true, fields) {
        return Ok(Some(sense));
    }
    let round = round_of(scene.names.declared.heads, scene.class.0);
    field_outside(alloc, scene.table, name, round)
}

// A class of a name; where the name means nothing it is a package.
fn sense_of_sight(alloc: Global, name: &str, sight: Sight) -> Result<NameSense, WantOfMemory>
    ensures { IfOk result (λ s. sense_of s ≡ sense_of_sight name.now sight) }
{
    match sight {
        Sight::Class(class) => Ok(NameSense::Class(ClassId(class))),
        Sight::Variable(_) => Ok(NameSense::Nothing),
        Sight::Several => Ok(NameSense::Nothing),
        Sight::Nothing => Ok(NameSense::Package(String::from_str(alloc, name)?)),
        Sight::Asks => Ok(NameSense::Package(String::from_str(alloc, name)?)),
    }
}

#[tactic(auto, using(crate::proofs::Sensing::looks), unfolding(jc_exprs_worlds::specs::Scenes::world_of))]
fn class_or_package(alloc: Global, scene: &Scene, name: &str) -> Result<NameSense, WantOfMemory>
    requires { IsWorldly scene.now }
    ensures { IfOk result (λ s. sense_of s ≡ sense_of_look name.now ((reading (world_of scene.now)).find name.now)) }
{
    let sight = first_meaning(&scene.names, reading(scene).standing, name);
    sense_of_sight(alloc, name, sight)
}

/// What a simple name means that is no local: a field of the first class round the place that has one, a class, or a package.
#[tactic(auto, unfolding(jc_exprs_worlds::specs::Scenes::world_of, jc_exprs_parts_spec::specs::Senses::simple_sense))]
pub fn simple_sense(alloc: Global, scene: &Scene, name: &str) -> Result<NameSense, WantOfMemory>
    requires { IsWorldly scene.now }
    ensures { IfOk result (λ s. sense_of s ≡ simple_sense (world_of scene.now) name.now) }
{
    match field_round(alloc, scene, name)? {
        Some(sense) => Ok(sense),
        None => class_or_package(alloc, scene, name),
    }
}

// ---- further parts

fn member_of_sight(sight: Sight) -> NameSense
    ensures { sense_of result ≡ member_of_sight sight }
{
    match sight {
        Sight::Class(class) => NameSense::Class(ClassId(class)),
        _ => NameSense::Nothing,
    }
}

/// A further part behind a class: a field, or else a member type.
#[tactic(auto, using(crate::proofs::Sensing::looks), unfolding(jc_exprs_worlds::specs::Scenes::world_of))]
pub fn field_or_member(
    alloc: Global,
    scene: &Scene,
    class: ClassId,
    name: &str,
) -> Result<NameSense, WantOfMemory>
    requires { IsWorldly scene.now }
    ensures { IfOk result (λ s. sense_of s ≡ next_sense (world_of scene.now) name.now (OfClass class)) }
{
    let fields = class_fields(alloc, scene.table, class, name)?;
    if let Some(sense) = sense_of_fields(class, false, fields) {
        return Ok(sense);
    }
    Ok(member_of_sight(member(&scene.names, class.0, name)))
}

/// A further part behind a package: a type, or else a longer package.
#[tactic(auto, unfolding(jc_exprs_worlds::specs::Scenes::world_of))]
pub fn type_or_longer(scene: &Scene, package: String, name: &str) -> Result<NameSense, WantOfMemory>
    requires { IsWorldly scene.now }
    ensures { IfOk result (λ s. sense_of s ≡ next_sense (world_of scene.now) name.now (OfPackage (string_bytes «package»))) }
{
    let found = scene.names.declared.type_of_package(package.as_str(), name);
    if let Some(class) = found {
        return Ok(NameSense::Class(ClassId(class)));
    }
    let mut longer = package;
    longer.push_str(".")?;
    longer.push_str(name)?;
    Ok(NameSense::Package(longer))
}

/// What a name means behind a class or a package; behind a field stands no name of a type.
pub fn next_sense(
    alloc: Global,
    scene: &Scene,
    name: &str,
    before: NameSense,
) -> Result<NameSense, WantOfMemory>
    requires { IsWorldly scene.now }
    ensures { IfOk result (λ s. sense_of s ≡ next_sense (world_of scene.now) name.now (sense_of before)) }
{
    match before {
        NameSense::Fields { .. } => Ok(NameSense::Nothing),
        NameSense::Class(class) => field_or_member(alloc, scene, class, name),
        NameSense::Package(package) => type_or_longer(scene, package, name),
        NameSense::Nothing => Ok(NameSense::Nothing),
    }
}
