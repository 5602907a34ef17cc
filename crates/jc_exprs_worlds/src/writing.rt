//! Types that are written in a body (JLS 6.5.5).
ghost use Rattle.std.specs.Prelude.{◌≡◌, IfOk};
ghost use Rattle.jc_exprs_parts_spec.specs.Worlds.{is_static_here, reading, written, written_arg, written_base, written_class};
ghost use Rattle.jc_written.specs.At.{reading_at};
ghost use Rattle.jc_exprs_worlds.specs.Scenes.{IsWorldly, here_of, world_of};

use crate::heads::is_interface;
use crate::scene::{Here, Scene};
use jc_rules::WantOfMemory;
use jc_tree::{BaseTree, ClassTree, TypeArg, TypeTree};
use jc_types::{Arg, Ty, Written};
use jc_written::{
    Reading, reading_in_scope, written_base as base_written, written_class as class_written,
    written_type,
};
use std::alloc::Global;

// The places of a written type are those of the names in it, which were looked at with the heads: here they are dropped, and count from file 0.
const ANY_FILE: u64 = 0;

fn is_static_here(here: Here) -> bool
    ensures { result ≡ is_static_here (here_of here) }
{
    match here {
        Here::Static => true,
        _ => false,
    }
}

/// How types are read that are written there.
#[tactic(auto, unfolding(crate::specs::Scenes::world_of))]
pub fn reading(scene: &Scene) -> Reading
    ensures { reading_at (world_of scene.now).heads (world_of scene.now).knowledge result ≡ reading (world_of scene.now) }
{
    let heads = scene.names.declared.heads;
    let is_static = is_static_here(scene.here) || is_interface(heads, scene.class.0);
    reading_in_scope(heads, scene.scope, is_static)
}

fn without_places(written: Written) -> Ty
    ensures { result ≡ written.ty }
{
    let Written {
        ty,
        places: _places,
    } = written;
    ty
}

/// A type that is written there.
#[tactic(auto, unfolding(crate::specs::Scenes::world_of))]
pub fn written(alloc: Global, scene: &Scene, tree: &TypeTree) -> Result<Ty, WantOfMemory>
    requires { IsWorldly scene.now }
    ensures { IfOk result (λ t. t ≡ written (world_of scene.now) tree.now) }
{
    let written = written_type(alloc, &scene.names, reading(scene), ANY_FILE, tree, 0)?;
    Ok(without_places(written))
}

/// A class type that is written there.
#[tactic(auto, unfolding(crate::specs::Scenes::world_of))]
pub fn written_class(alloc: Global, scene: &Scene, tree: &ClassTree) -> Result<Ty, WantOfMemory>
    requires { IsWorldly scene.now }
    ensures { IfOk result (λ t. t ≡ written_class (world_of scene.now) tree.now) }
{
    let written = class_written(alloc, &scene.names, reading(scene), ANY_FILE, tree)?;
    Ok(without_places(written))
}

/// What an array is over, as it is written there.
#[tactic(auto, unfolding(crate::specs::Scenes::world_of))]
pub fn written_base(alloc: Global, scene: &Scene, tree: &BaseTree) -> Result<Ty, WantOfMemory>
    requires { IsWorldly scene.now }
    ensures { IfOk result (λ t. t ≡ written_base (world_of scene.now) tree.now) }
{
    let written = base_written(alloc, &scene.names, reading(scene), ANY_FILE, tree)?;
    Ok(without_places(written))
}

/// A type argument that is written there.
#[tactic(auto, using(jc_written::proofs::WrotesByParts::parts), unfolding(crate::specs::Scenes::world_of))]
pub fn written_arg(alloc: Global, scene: &Scene, tree: &TypeArg) -> Result<Arg, WantOfMemory>
    requires { IsWorldly scene.now }
    ensures { IfOk result (λ a. a ≡ written_arg (world_of scene.now) tree.now) }
{
    match tree {
        TypeArg::Exact(ty) => Ok(Arg::Exact(written(alloc, scene, ty)?)),
        TypeArg::Any { .. } => Ok(Arg::Any),
        TypeArg::Extends { bound, .. } => Ok(Arg::Extends(written(alloc, scene, bound)?)),
        TypeArg::Super { bound, .. } => Ok(Arg::Super(written(alloc, scene, bound)?)),
    }
}
