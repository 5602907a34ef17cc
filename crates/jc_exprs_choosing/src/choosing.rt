//! The choice of a member, where nothing is broken before.
ghost use Rattle.std.specs.Prelude.{◌≡◌, IfOk, OnOk};
ghost use Rattle.jc_resolve.specs.Choosing.{resolved};
ghost use Rattle.jc_resolve_sites.specs.Sites.{apart_site, renamed_site};
ghost use Rattle.jc_exprs_nodes_spec.specs.Told.{ran};
ghost use Rattle.jc_exprs_spec.specs.Calls.{open_choice};
ghost use Rattle.jc_exprs_worlds.specs.Scenes.{world_of};
ghost use Rattle.jc_exprs_nodes.specs.Walks.{as_breaks, now};
ghost use Rattle.jc_exprs_choosing.specs.Choosing.{choosing_in, creating_in};

use crate::breaking::{broken_of, by_choice, members_break, note_broken};
use crate::opening::open_choice;
use jc_exprs_nodes::Walk;
use jc_exprs_worlds::Scene;
use jc_members::MethodView;
use jc_resolve::{CallSite, Choice, Chosen, resolve};
use jc_resolve_sites::{apart_site, renamed_site};
use jc_rules::{Place, Refusal, WantOfMemory};
use jc_types::Ty;
use std::alloc::Global;

/// Where a call stands, the type whose members it asks, and all members of the name, those that may not be named there among them.
#[derive(Clone, Copy)]
pub struct Among<'a> {
    pub place: Place,
    pub ty: &'a Ty,
    pub members: &'a [MethodView],
}

#[tactic(auto, unfolding(jc_exprs_worlds::specs::Scenes::world_of))]
fn resolved_apart(
    alloc: Global,
    scene: &Scene,
    walk: &mut Walk,
    ty: &Ty,
    site: CallSite,
) -> Result<Choice, WantOfMemory>
    ensures choice { IfOk result (λ r. r ≡ open_choice (world_of scene.now) walk.old.env.bounds (resolved (world_of scene.now).table walk.old.env.bounds (apart_site (world_of scene.now).table ty.now site))) }
    ensures state { now walk.new ≡ now walk.old }
    ensures nodes { walk.new.nodes ≡ walk.old.nodes }
{
    let site = apart_site(alloc, scene.table, ty, site)?;
    let choice = resolve(alloc, scene.table, &mut walk.env, &site)?;
    Ok(open_choice(scene, &walk.env, choice))
}

#[tactic(auto, unfolding(jc_exprs_worlds::specs::Scenes::world_of))]
fn resolved_renamed(
    alloc: Global,
    scene: &Scene,
    walk: &mut Walk,
    site: CallSite,
) -> Result<Choice, WantOfMemory>
    ensures choice { IfOk result (λ r. r ≡ open_choice (world_of scene.now) walk.old.env.bounds (resolved (world_of scene.now).table walk.old.env.bounds (renamed_site (world_of scene.now).table site))) }
    ensures state { now walk.new ≡ now walk.old }
    ensures nodes { walk.new.nodes ≡ walk.old.nodes }
{
    let site = renamed_site(alloc, scene.table, site)?;
    let choice = resolve(alloc, scene.table, &mut walk.env, &site)?;
    Ok(open_choice(scene, &walk.env, choice))
}

/// The member of a type that a call means, by its site, whose members are those that may be named there. None, and the least break is kept, where `broken` is, where there is no member
/// (603), where none may be named (618), and where none, or none alone, is applicable (604, 605) or that can't be told (606).
#[tactic(auto, using(crate::proofs::Chooses::chooses))]
pub fn chosen(
    alloc: Global,
    scene: &Scene,
    walk: &mut Walk,
    among: &Among,
    broken: Option<Refusal>,
    site: CallSite,
) -> Result<Option<Chosen>, WantOfMemory>
    ensures state { OnOk result ((ran (choosing_in (world_of scene.now) among.now.place among.now.ty.now (as_breaks broken) among.now.members.now site) (now walk.old)).state ≡ now walk.new) }
    ensures value { IfOk result (λ c. (ran (choosing_in (world_of scene.now) among.now.place among.now.ty.now (as_breaks broken) among.now.members.now site) (now walk.old)).has ≡ c) }
    ensures nodes { walk.new.nodes ≡ walk.old.nodes }
{
    let missing = members_break(among.place, among.members, site.members.slice());
    match broken_of(broken, missing) {
        Some(broken) => {
            note_broken(walk, broken);
            Ok(None)
        }
        None => {
            let choice = resolved_apart(alloc, scene, walk, among.ty, site)?;
            Ok(by_choice(walk, among.place, choice))
        }
    }
}

/// The constructor that a creation with a diamond means, by its site.
#[tactic(auto, using(crate::proofs::Chooses::chooses))]
pub fn chosen_by_diamond(
    alloc: Global,
    scene: &Scene,
    walk: &mut Walk,
    among: &Among,
    site: CallSite,
) -> Result<Option<Chosen>, WantOfMemory>
    ensures state { OnOk result ((ran (creating_in (world_of scene.now) among.now.place among.now.members.now site) (now walk.old)).state ≡ now walk.new) }
    ensures value { IfOk result (λ c. (ran (creating_in (world_of scene.now) among.now.place among.now.members.now site) (now walk.old)).has ≡ c) }
    ensures nodes { walk.new.nodes ≡ walk.old.nodes }
{
    let missing = members_break(among.place, among.members, site.members.slice());
    match broken_of(None, missing) {
        Some(broken) => {
            note_broken(walk, broken);
            Ok(None)
        }
        None => {
            let choice = resolved_renamed(alloc, scene, walk, site)?;
            Ok(by_choice(walk, among.place, choice))
        }
    }
}
