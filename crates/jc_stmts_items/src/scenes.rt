//! The scene of an item, and what is written there.
ghost use Rattle.std.specs.Prelude.{◌≡◌, ◌++◌, IfOk, OnOk, map};
ghost use Rattle.jc_members.specs.Named.{IsMethodIndex};
ghost use Rattle.jc_overriding.specs.Viewing.{with_dims};
ghost use Rattle.jc_exprs_parts_spec.specs.Worlds.{at, written, written_class};
ghost use Rattle.jc_exprs_locals.specs.Scoped.{locals_of};
ghost use Rattle.jc_exprs_worlds.specs.Scenes.{IsWorldly, world_of};
ghost use Rattle.jc_stmts_spec.specs.Courses.{types_caught};
ghost use Rattle.jc_stmts_items.specs.Settings.{IsSetting, world_within};

use crate::setting::Setting;
use jc_exprs_locals::Locals;
use jc_exprs_worlds::{Scene, class_file, written, written_class};
use jc_rules::{Items, Place, WantOfMemory};
use jc_tree::{ClassTree, TypeTree};
use jc_types::{Ty, array_over};
use std::alloc::Global;

/// The scene with these locals in scope.
#[tactic(auto, unfolding(jc_exprs_worlds::specs::Scenes::world_of, crate::specs::Settings::world_within))]
pub fn scene_in<'a>(setting: &Setting<'a>, locals: &'a Locals) -> Scene<'a>
    requires { IsSetting setting.now }
    ensures world { world_of result ≡ world_within setting.now (locals_of locals.now) }
    ensures worldly { IsWorldly result }
    ensures methods { IsMethodIndex result.table.now setting.now.index.now }
    ensures table { result.table.now ≡ setting.now.table.now }
{
    Scene {
        table: setting.table,
        names: setting.names,
        constants: setting.constants,
        class: setting.class,
        scope: setting.scope,
        here: setting.here,
        initialising: setting.initialising,
        locals,
    }
}

/// The place of an offset of the class's file.
#[tactic(auto, unfolding(crate::specs::Settings::world_within))]
pub fn place_in(setting: &Setting, locals: &Locals, offset: u32) -> Place
    ensures { result ≡ at (world_within setting.now (locals_of locals.now)) offset }
{
    Place {
        file: class_file(setting.names.declared.heads, setting.class.0),
        at: offset,
    }
}

// An array type of so many dimensions over a type, which is itself where there are none.
#[tactic(auto, using(jc_members::proofs::Dims::with_some_dims))]
fn with_dims(alloc: Global, dims: u32, ty: Ty) -> Result<Ty, WantOfMemory>
    ensures { IfOk result (λ t. t ≡ with_dims dims ty) }
{
    if dims == 0 {
        return Ok(ty);
    }
    array_over(alloc, ty, (dims - 1) as u64)
}

/// The type of a local that is written there, with the dimensions behind its name.
pub fn declared_type(
    alloc: Global,
    scene: &Scene,
    ty: &TypeTree,
    dims: u32,
) -> Result<Ty, WantOfMemory>
    requires { IsWorldly scene.now }
    ensures { IfOk result (λ t. t ≡ with_dims dims (written (world_of scene.now) ty.now)) }
{
    let base = written(alloc, scene, ty)?;
    with_dims(alloc, dims, base)
}

// More types of a catch clause.
#[tactic(auto, using(jc_exprs_nodes::proofs::Appending::appended))]
fn push_caught(
    alloc: Global,
    scene: &Scene,
    types: &mut Items<Ty>,
    trees: &[ClassTree],
) -> Result<(), WantOfMemory>
    requires { IsWorldly scene.now }
    ensures { OnOk result (types.new ≡ types.old ++ map (written_class (world_of scene.now)) trees.now) }
{
    let mut rest = trees;
    while let [tree, more @ ..] = rest {
        types.push(written_class(alloc, scene, tree)?)?;
        rest = more;
    }
    Ok(())
}

/// The types of a catch clause that is written there.
pub fn caught_types(
    alloc: Global,
    scene: &Scene,
    first: &ClassTree,
    more: &[ClassTree],
) -> Result<Items<Ty>, WantOfMemory>
    requires { IsWorldly scene.now }
    ensures { IfOk result (λ ts. ts ≡ types_caught (world_of scene.now) first.now more.now) }
{
    let mut types = Items::new(alloc);
    types.push(written_class(alloc, scene, first)?)?;
    push_caught(alloc, scene, &mut types, more)?;
    Ok(types)
}
