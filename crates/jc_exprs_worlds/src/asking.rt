//! What is asked of a place in a body: its class and those round it, locals by their names, and constant fields.
ghost use Rattle.std.specs.Prelude.{◌≡◌, ◌++◌, IfOk, OnOk, option_map};
ghost use Rattle.std.specs.Option.{option_copied};
ghost use Rattle.jc_exprs_locals.specs.Scoped.{local_of};
ghost use Rattle.jc_exprs_parts_spec.specs.Worlds.{at, class_ids, constant_field, local_named, named_class, round, this_type};
ghost use Rattle.jc_exprs_worlds.specs.Scenes.{world_of};

use crate::heads::class_file;
use crate::scene::Scene;
use jc_exprs_locals::ScopedLocal;
use jc_looking::round_of;
use jc_members::own_type;
use jc_rules::{Items, Place, WantOfMemory};
use jc_types::{ClassId, Constant, FieldId, Table, Ty, class_vars};
use std::alloc::Global;

/// The place of an offset of the class's file.
#[tactic(auto, unfolding(crate::specs::Scenes::world_of))]
pub fn at(scene: &Scene, offset: u32) -> Place
    ensures { result ≡ at (world_of scene.now) offset }
{
    Place {
        file: class_file(scene.names.declared.heads, scene.class.0),
        at: offset,
    }
}

/// The type of `this` (JLS 15.8.3).
#[tactic(auto, unfolding(crate::specs::Scenes::world_of))]
pub fn this_type(alloc: Global, scene: &Scene) -> Result<Ty, WantOfMemory>
    ensures { IfOk result (λ t. t ≡ this_type (world_of scene.now)) }
{
    own_type(alloc, scene.table, scene.class)
}

#[tactic(auto, using(crate::proofs::Appending::appended))]
fn push_classes(out: &mut Items<ClassId>, classes: &[u64]) -> Result<(), WantOfMemory>
    ensures { OnOk result (out.new ≡ out.old ++ class_ids classes.now) }
{
    let mut rest = classes;
    while let [class, more @ ..] = rest {
        out.push(ClassId(*class))?;
        rest = more;
    }
    Ok(())
}

/// The classes round the place, its own first.
#[tactic(auto, unfolding(crate::specs::Scenes::world_of))]
pub fn round(alloc: Global, scene: &Scene) -> Result<Items<ClassId>, WantOfMemory>
    ensures { IfOk result (λ classes. classes ≡ round (world_of scene.now)) }
{
    let mut classes = Items::new(alloc);
    classes.push(scene.class)?;
    push_classes(
        &mut classes,
        round_of(scene.names.declared.heads, scene.class.0),
    )?;
    Ok(classes)
}

/// A class by its name alone, as static members are named through it: raw where it has parameters (JLS 4.8).
pub fn named_class(alloc: Global, table: &Table, class: ClassId) -> Ty
    ensures { result ≡ named_class table.now class }
{
    if class_vars(table, class).is_empty() {
        return Ty::Class {
            id: class,
            args: Items::new(alloc),
        };
    }
    Ty::Raw { id: class }
}

/// The local of a name that was declared last.
#[tactic(auto, unfolding(crate::specs::Scenes::world_of))]
pub fn local_named<'a>(scene: &Scene<'a>, name: &str) -> Option<&'a ScopedLocal>
    ensures { option_map local_of (option_copied result) ≡ local_named (world_of scene.now) name.now }
{
    scene.locals.find(name)
}

/// The value of a field that is a constant variable.
#[tactic(auto, unfolding(crate::specs::Scenes::world_of))]
pub fn constant_field<'a>(scene: &Scene<'a>, field: FieldId) -> Option<&'a Constant>
    ensures { option_copied result ≡ constant_field (world_of scene.now) field }
{
    match scene.constants.get(field.0 as usize) {
        Some(Some(constant)) => Some(constant),
        _ => None,
    }
}
