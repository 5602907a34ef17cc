//! Lists of written types.
ghost use Rattle.std.specs.Prelude.{◌≡◌, ◌∷◌, [], IfOk, OnOk};
ghost use Rattle.jc_declares.specs.Making.{types, implied_object, written_classes};
ghost use Rattle.jc_looking.specs.Members.{known_in};
ghost use Rattle.jc_looking.specs.Scenes.{IsScene};
ghost use Rattle.jc_written.specs.At.{reading_at};
ghost use Rattle.jc_declared.specs.Types.{with_types};

use jc_looking::Scene;
use jc_rules::{Items, Place, WantOfMemory};
use jc_tree::ClassTree;
use jc_types::{ClassId, Ty, TypePlaces, Written, WrittenTypes};
use jc_written::{Reading, written_class};
use std::alloc::Global;

/// No types.
pub fn no_types(alloc: Global) -> WrittenTypes
    ensures { result ≡ types [] }
{
    WrittenTypes {
        types: Items::new(alloc),
        places: Items::new(alloc),
    }
}

/// Adds a written type.
#[tactic(auto, unfolding(crate::specs::Types::with_types))]
pub fn push_written(list: &mut WrittenTypes, written: Written) -> Result<(), WantOfMemory>
    ensures { OnOk result (list.new ≡ with_types list.old (written ∷ [])) }
{
    let Written { ty, places } = written;
    list.types.push(ty)?;
    list.places.push(places)
}

/// Adds Object, as it is implied at a place.
pub fn push_object(alloc: Global, list: &mut WrittenTypes, first: Place) -> Result<(), WantOfMemory>
    ensures { OnOk result (list.new ≡ with_types list.old (implied_object first.file first.at ∷ [])) }
{
    let object = Ty::Class {
        id: ClassId(0),
        args: Items::new(alloc),
    };
    let classes = Items::new(alloc);
    push_written(
        list,
        Written {
            ty: object,
            places: TypePlaces { first, classes },
        },
    )
}

/// Adds class types as they are written in a file.
#[tactic(auto, using(crate::proofs::Behind::behinds))]
pub fn push_classes(
    alloc: Global,
    scene: &Scene,
    reading: Reading,
    file: u64,
    trees: &[ClassTree],
    list: &mut WrittenTypes,
) -> Result<(), WantOfMemory>
    requires { IsScene scene.now.declared.heads.now scene.now.declared.index.now scene.now.imports.now }
    ensures { let H = scene.now.declared.heads.now in let K = known_in scene.now.known.now in OnOk result (list.new ≡ with_types list.old (written_classes H K file (reading_at H K reading) trees.now)) }
{
    for tree in trees {
        push_written(list, written_class(alloc, scene, reading, file, tree)?)?;
    }
    Ok(())
}

/// Object alone, as it is implied at a place.
#[tactic(auto, using(crate::proofs::Behind::behinds))]
pub fn object_alone(alloc: Global, first: Place) -> Result<WrittenTypes, WantOfMemory>
    ensures { IfOk result (λ it. it ≡ types (implied_object first.file first.at ∷ [])) }
{
    let mut list = no_types(alloc);
    push_object(alloc, &mut list, first)?;
    Ok(list)
}

/// Class types as they are written in a file.
#[tactic(auto, using(crate::proofs::Behind::behinds))]
pub fn class_types(
    alloc: Global,
    scene: &Scene,
    reading: Reading,
    file: u64,
    trees: &[ClassTree],
) -> Result<WrittenTypes, WantOfMemory>
    requires { IsScene scene.now.declared.heads.now scene.now.declared.index.now scene.now.imports.now }
    ensures { let H = scene.now.declared.heads.now in let K = known_in scene.now.known.now in IfOk result (λ it. it ≡ types (written_classes H K file (reading_at H K reading) trees.now)) }
{
    let mut list = no_types(alloc);
    push_classes(alloc, scene, reading, file, trees, &mut list)?;
    Ok(list)
}
