//! Type variables with their bounds (JLS 4.4).
ghost use Rattle.std.specs.Prelude.{◌≡◌, ℕ, ◌++◌, ◌∷◌, [], map, IfOk, OnOk};
ghost use Rattle.jc_types.specs.declared.ids.VarId.{VarId};
ghost use Rattle.jc_declares.specs.HeadBreaks.{owner_file};
ghost use Rattle.jc_declares.specs.Looking.{Knowledge};
ghost use Rattle.jc_declares.specs.Making.{owner_reading, or_object, types, written_classes, numbered, variable_decl};
ghost use Rattle.jc_declared.specs.Parts.{variable_in};
ghost use Rattle.jc_looking.specs.Members.{known_in};
ghost use Rattle.jc_looking.specs.Scenes.{IsScene};
ghost use Rattle.jc_written.specs.At.{reading_at};

use crate::places::{class_file, class_of_method};
use crate::types::{class_types, object_alone};
use jc_declares::Heads;
use jc_looking::Scene;
use jc_rules::{Items, Place, WantOfMemory};
use jc_sites::VariableSite;
use jc_tree::{ClassTree, TypeParam, copy_text};
use jc_types::{Owner, VarId, VariableDecl, WrittenTypes};
use jc_written::{Reading, head_reading, method_reading};
use std::alloc::Global;

/// The numbers of type variables as ids.
pub fn variable_ids(alloc: Global, numbers: &[u64]) -> Result<Items<VarId>, WantOfMemory>
    ensures { IfOk result (λ it. it ≡ map (λ v. let id : VarId = record { 0 = v } in id) numbers.now) }
{
    let mut ids = Items::new(alloc);
    for number in numbers {
        ids.push(VarId(*number))?;
    }
    Ok(ids)
}

fn owner_file(heads: &Heads, owner: Owner) -> u64
    ensures { result ≡ owner_file heads.now owner }
{
    match owner {
        Owner::Class(class) => class_file(heads, class.0),
        Owner::Method(method) => class_file(heads, class_of_method(heads, method.0)),
    }
}

/// How the bounds of a type variable are read.
fn owner_reading(heads: &Heads, owner: Owner) -> Reading
    ensures { (K : Knowledge) → reading_at heads.now K result ≡ owner_reading heads.now K owner }
{
    match owner {
        Owner::Class(class) => head_reading(class.0),
        Owner::Method(method) => method_reading(method.0, class_of_method(heads, method.0), false),
    }
}

/// The bounds of a type variable at a place, which are Object where none is written.
fn bounds(
    alloc: Global,
    scene: &Scene,
    reading: Reading,
    first: Place,
    trees: &[ClassTree],
) -> Result<WrittenTypes, WantOfMemory>
    requires { IsScene scene.now.declared.heads.now scene.now.declared.index.now scene.now.imports.now }
    ensures { let H = scene.now.declared.heads.now in let K = known_in scene.now.known.now in IfOk result (λ it. it ≡ types (or_object first.file first.at (written_classes H K first.file (reading_at H K reading) trees.now))) }
{
    if trees.is_empty() {
        return object_alone(alloc, first);
    }
    class_types(alloc, scene, reading, first.file, trees)
}

/// A type parameter at a place, whose bounds are read in one way.
fn variable_at(
    alloc: Global,
    scene: &Scene,
    reading: Reading,
    place: Place,
    owner: Owner,
    param: &TypeParam,
) -> Result<VariableDecl, WantOfMemory>
    requires { IsScene scene.now.declared.heads.now scene.now.declared.index.now scene.now.imports.now }
    ensures { let H = scene.now.declared.heads.now in let K = known_in scene.now.known.now in IfOk result (λ it. it ≡ variable_in H K (reading_at H K reading) place owner param.now) }
{
    Ok(VariableDecl {
        place,
        name: copy_text(alloc, &param.name.text)?,
        owner,
        bounds: bounds(alloc, scene, reading, place, param.bounds.slice())?,
    })
}

/// A type parameter of a class or a method.
fn variable_decl(
    alloc: Global,
    scene: &Scene,
    owner: Owner,
    param: &TypeParam,
) -> Result<VariableDecl, WantOfMemory>
    requires { IsScene scene.now.declared.heads.now scene.now.declared.index.now scene.now.imports.now }
    ensures { (k : ℕ) → let H = scene.now.declared.heads.now in let K = known_in scene.now.known.now in IfOk result (λ it. it ≡ variable_decl H K k (record { owner = owner; param = param.now })) }
{
    let file = owner_file(scene.declared.heads, owner);
    let at = param.name.at;
    let reading = owner_reading(scene.declared.heads, owner);
    let variable = variable_at(alloc, scene, reading, Place { file, at }, owner, param)?;
    Ok(variable)
}

/// Adds a type variable.
fn push_variable(
    alloc: Global,
    list: &mut Items<VariableDecl>,
    scene: &Scene,
    site: &VariableSite,
) -> Result<(), WantOfMemory>
    requires { IsScene scene.now.declared.heads.now scene.now.declared.index.now scene.now.imports.now }
    ensures { (k : ℕ) → let H = scene.now.declared.heads.now in let K = known_in scene.now.known.now in OnOk result (list.new ≡ list.old ++ variable_decl H K k site.now ∷ []) }
{
    let variable = variable_decl(alloc, scene, site.owner, site.param)?;
    list.push(variable)?;
    Ok(())
}

/// Adds all type variables of a program.
pub fn push_variables(
    alloc: Global,
    list: &mut Items<VariableDecl>,
    scene: &Scene,
    sites: &[VariableSite],
) -> Result<(), WantOfMemory>
    requires { IsScene scene.now.declared.heads.now scene.now.declared.index.now scene.now.imports.now }
    ensures { let H = scene.now.declared.heads.now in let K = known_in scene.now.known.now in OnOk result (list.new ≡ list.old ++ numbered (variable_decl H K) 0 sites.now) }
{
    for site in sites {
        push_variable(alloc, list, scene, site)?;
    }
    Ok(())
}
