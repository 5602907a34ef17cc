//! The constructor that a creation means (JLS 15.9.3).
ghost use Rattle.std.specs.Prelude.{◌≡◌, IfOk, OnOk, map};
ghost use Rattle.jc_exprs_nodes_spec.specs.Told.{ran};
ghost use Rattle.jc_exprs_nodes.specs.Walks.{known, now};
ghost use Rattle.jc_exprs_gathering.specs.Gathered.{AllParts};
ghost use Rattle.jc_exprs_choosing.specs.Choosing.{TypeBelow, type_if};
ghost use Rattle.jc_exprs_worlds.specs.Scenes.{world_of};
ghost use Rattle.jc_exprs_calls.specs.Creating.{constructor_in, diamond_in};

use crate::explicit::accessible;
use crate::news::Creating;
use jc_exprs_choosing::{Among, call_site, chosen, chosen_by_diamond, constructors};
use jc_exprs_nodes::Walk;
use jc_exprs_worlds::Scene;
use jc_resolve::Chosen;
use jc_rules::{Items, Place, WantOfMemory};
use jc_types::Ty;
use std::alloc::Global;

/// The constructor of the class of a type, as the type has it.
#[tactic(auto, unfolding(jc_exprs_worlds::specs::Scenes::world_of))]
pub fn chosen_constructor(
    alloc: Global,
    scene: &Scene,
    walk: &mut Walk,
    place: Place,
    ty: &Ty,
    args: &[u32],
) -> Result<Option<Chosen>, WantOfMemory>
    requires { AllParts walk.old.nodes args.now }
    ensures state { OnOk result ((ran (constructor_in (world_of scene.now) place ty.now (map (known walk.old.nodes) args.now)) (now walk.old)).state ≡ now walk.new) }
    ensures value { IfOk result (λ c. (ran (constructor_in (world_of scene.now) place ty.now (map (known walk.old.nodes) args.now)) (now walk.old)).has ≡ c) }
    ensures nodes { walk.new.nodes ≡ walk.old.nodes }
{
    let all = constructors(alloc, scene.table, ty, false)?;
    let found = all.slice();
    let nameable = accessible(alloc, scene, ty, found)?;
    let none: Items<Ty> = Items::new(alloc);
    let site = call_site(alloc, &walk.nodes, nameable, none, args, None)?;
    let among = Among {
        place,
        ty,
        members: found,
    };
    chosen(alloc, scene, walk, &among, None, site)
}

/// The constructor of a class for a creation with a diamond, which has a target where its value is assigned.
#[tactic(auto, unfolding(jc_exprs_worlds::specs::Scenes::world_of))]
pub fn chosen_for_diamond(
    alloc: Global,
    scene: &Scene,
    walk: &mut Walk,
    creation: &Creating,
    args: &[u32],
    target: Option<u32>,
) -> Result<Option<Chosen>, WantOfMemory>
    requires args { AllParts walk.old.nodes args.now }
    requires target { TypeBelow walk.old.nodes target }
    ensures state { OnOk result ((ran (diamond_in (world_of scene.now) creation.now.place creation.now.ty.now (map (known walk.old.nodes) args.now) (type_if walk.old.nodes target)) (now walk.old)).state ≡ now walk.new) }
    ensures value { IfOk result (λ c. (ran (diamond_in (world_of scene.now) creation.now.place creation.now.ty.now (map (known walk.old.nodes) args.now) (type_if walk.old.nodes target)) (now walk.old)).has ≡ c) }
    ensures nodes { walk.new.nodes ≡ walk.old.nodes }
{
    let all = constructors(alloc, scene.table, creation.ty, true)?;
    let found = all.slice();
    let nameable = accessible(alloc, scene, creation.ty, found)?;
    let none: Items<Ty> = Items::new(alloc);
    let site = call_site(alloc, &walk.nodes, nameable, none, args, target)?;
    let among = Among {
        place: creation.place,
        ty: creation.ty,
        members: found,
    };
    chosen_by_diamond(alloc, scene, walk, &among, site)
}
