//! The fields that constant expressions name (JLS 6.5.6, 15.28).
ghost use Rattle.std.specs.Prelude.{◌≡◌, IfOk};
ghost use Rattle.std.specs.Option.{option_copied};
ghost use Rattle.jc_exprs_parts_spec.specs.Constants.{constant_named};
ghost use Rattle.jc_exprs_parts_spec.specs.Senses.{next_senses, simple_sense};
ghost use Rattle.jc_exprs_worlds.specs.Scenes.{IsWorldly, world_of};
ghost use Rattle.jc_exprs_senses.specs.Sensed.{sense_of};
ghost use Rattle.jc_exprs_known_fields.specs.Rounds.{field_in_sense, field_named, only_field};

use jc_exprs_constants::copy_constant;
use jc_exprs_senses::{NameSense, next_sense, simple_sense};
use jc_exprs_worlds::{Scene, constant_field};
use jc_rules::{Text, WantOfMemory};
use jc_types::{Constant, FieldId};
use std::alloc::Global;

fn only_field(fields: &[FieldId]) -> Option<FieldId>
    ensures { result ≡ only_field fields.now }
{
    match fields {
        [field] => Some(*field),
        _ => None,
    }
}

fn field_in_sense(sense: &NameSense) -> Option<FieldId>
    ensures { result ≡ field_in_sense (sense_of sense.now) }
{
    match sense {
        NameSense::Fields { fields, .. } => only_field(fields.slice()),
        _ => None,
    }
}

fn sense_named(
    alloc: Global,
    scene: &Scene,
    first: &Text,
    more: &[Text],
) -> Result<NameSense, WantOfMemory>
    requires { IsWorldly scene.now }
    ensures { IfOk result (λ s. sense_of s ≡ next_senses (world_of scene.now) (simple_sense (world_of scene.now) first.now) more.now) }
{
    let mut sense = simple_sense(alloc, scene, first.str())?;
    let mut rest = more;
    while let [name, more @ ..] = rest {
        sense = next_sense(alloc, scene, name.str(), sense)?;
        rest = more;
    }
    Ok(sense)
}

/// The field that a simple or qualified name means, where it means one.
pub fn field_named(
    alloc: Global,
    scene: &Scene,
    parts: &[Text],
) -> Result<Option<FieldId>, WantOfMemory>
    requires { IsWorldly scene.now }
    ensures { IfOk result (λ f. f ≡ field_named (world_of scene.now) parts.now) }
{
    match parts {
        [] => Ok(None),
        [first, more @ ..] => {
            let sense = sense_named(alloc, scene, first, more)?;
            Ok(field_in_sense(&sense))
        }
    }
}

fn copied(alloc: Global, constant: Option<&Constant>) -> Result<Option<Constant>, WantOfMemory>
    ensures { IfOk result (λ c. c ≡ option_copied constant.entry) }
{
    match constant {
        None => Ok(None),
        Some(constant) => Ok(Some(copy_constant(alloc, constant)?)),
    }
}

/// The value of a constant variable that a name means.
#[tactic(auto, using(crate::proofs::Named::named_laws))]
pub fn constant_named(
    alloc: Global,
    scene: &Scene,
    parts: &[Text],
) -> Result<Option<Constant>, WantOfMemory>
    requires { IsWorldly scene.now }
    ensures { IfOk result (λ c. c ≡ constant_named (world_of scene.now) parts.now) }
{
    match field_named(alloc, scene, parts)? {
        None => Ok(None),
        Some(field) => copied(alloc, constant_field(scene, field)),
    }
}
