//! Creations of objects and calls of another constructor, where all arguments are there (JLS 15.9, 8.8.7.1).
ghost use Rattle.std.specs.Prelude.{◌≡◌, ◌<◌, IfOk, OnOk, length};
ghost use Rattle.jc_typed.specs.Parts.{Grows};
ghost use Rattle.jc_exprs_nodes_spec.specs.Gates.{gated};
ghost use Rattle.jc_exprs_nodes.specs.Walks.{AllBelow, has, now};
ghost use Rattle.jc_exprs_gathering.specs.Gathered.{has_all};
ghost use Rattle.jc_exprs_spec.specs.Creations.{created};
ghost use Rattle.jc_exprs_starts.specs.Wanted.{WantedBelow, wanted_in};
ghost use Rattle.jc_exprs_worlds.specs.Scenes.{world_of};
ghost use Rattle.jc_exprs_calls.specs.Creating.{StmtBelow, constructed_by, has_stmt_form};

use jc_exprs_calls::{Creating, constructed, created};
use jc_exprs_gathering::are_typed;
use jc_exprs_nodes::{Walk, missing};
use jc_exprs_worlds::Scene;
use jc_rules::{Place, WantOfMemory};
use jc_typed::StmtForm;
use jc_types::Ty;
use std::alloc::Global;

/// The creation of an object, where all of its arguments have typings.
#[tactic(auto, using(jc_exprs_gathering::proofs::Gathering::gathering))]
pub fn created_or(
    alloc: Global,
    scene: &Scene,
    walk: &mut Walk,
    creation: &Creating,
    args: &[u32],
    target: Option<u32>,
) -> Result<u32, WantOfMemory>
    requires args { AllBelow (length walk.old.nodes) args.now }
    requires target { WantedBelow (length walk.old.nodes) target }
    ensures state { OnOk result ((gated (created (world_of scene.now) creation.now.place creation.now.ty.now creation.now.diamond (wanted_in walk.old.nodes target)) (has_all walk.old.nodes args.now) (now walk.old)).state ≡ now walk.new) }
    ensures value { IfOk result (λ at. (gated (created (world_of scene.now) creation.now.place creation.now.ty.now creation.now.diamond (wanted_in walk.old.nodes target)) (has_all walk.old.nodes args.now) (now walk.old)).has ≡ has walk.new.nodes at) }
    ensures within { IfOk result (λ at. at < length walk.new.nodes) }
    ensures grows { Grows walk.old.nodes walk.new.nodes }
{
    if !are_typed(&walk.nodes, args) {
        return missing(walk);
    }
    created(alloc, scene, walk, creation, args, target)
}

/// The call of another constructor, where all of its arguments have typings.
#[tactic(auto, using(jc_typed::proofs::Growing::growing, jc_exprs_gathering::proofs::Gathering::gathering))]
pub fn constructed_or(
    alloc: Global,
    scene: &Scene,
    walk: &mut Walk,
    place: Place,
    ty: &Ty,
    args: &[u32],
) -> Result<Option<StmtForm>, WantOfMemory>
    requires { AllBelow (length walk.old.nodes) args.now }
    ensures state { OnOk result ((gated (constructed_by (world_of scene.now) place ty.now) (has_all walk.old.nodes args.now) (now walk.old)).state ≡ now walk.new) }
    ensures value { IfOk result (λ form. (gated (constructed_by (world_of scene.now) place ty.now) (has_all walk.old.nodes args.now) (now walk.old)).has ≡ has_stmt_form walk.new.nodes form) }
    ensures within { IfOk result (λ form. StmtBelow (length walk.new.nodes) form) }
    ensures grows { Grows walk.old.nodes walk.new.nodes }
{
    if !are_typed(&walk.nodes, args) {
        return Ok(None);
    }
    constructed(alloc, scene, walk, place, ty, args)
}
