//! Creations of objects (JLS 15.9).
ghost use Rattle.std.specs.Prelude.{◌≡◌, ◌<◌, IfOk, OnOk, false, length, map, true};
ghost use Rattle.jc_typed.specs.Parts.{BelowForm, Grows, form_over, parts};
ghost use Rattle.jc_exprs_nodes_spec.specs.Told.{ran};
ghost use Rattle.jc_exprs_nodes_spec.specs.Typeds.{captured};
ghost use Rattle.jc_exprs_nodes.specs.Walks.{has, known, now};
ghost use Rattle.jc_exprs_gathering.specs.Gathered.{AllParts};
ghost use Rattle.jc_exprs_spec.specs.Creations.{created, created_by, created_lead, created_of, created_type};
ghost use Rattle.jc_exprs_choosing.specs.Choosing.{TypeBelow, type_if};
ghost use Rattle.jc_exprs_worlds.specs.Scenes.{world_of};

use crate::choosing::{chosen_constructor, chosen_for_diamond};
use crate::news::{Creating, created_type, push_created_lead, push_new_form};
use jc_exprs_choosing::{broken_of, no_objects, no_parameters, refused_by};
use jc_exprs_nodes::{Formed, Judging, Walk, captured, missing};
use jc_exprs_worlds::Scene;
use jc_resolve::Chosen;
use jc_rules::WantOfMemory;
use jc_typed::{ExprForm, form_below, same_form};
use jc_types::Table;
use std::alloc::Global;

// A creation of this form.
#[tactic(auto, using(jc_typed::proofs::Growing::growing))]
fn created_form(
    alloc: Global,
    table: &Table,
    walk: &mut Walk,
    creation: &Creating,
    chosen: &Chosen,
    form: ExprForm,
) -> Result<u32, WantOfMemory>
    requires { BelowForm (length walk.old.nodes) form }
    ensures state { OnOk result ((ran (captured table.now creation.now.place (created_type creation.now.ty.now creation.now.diamond chosen.now.kept) (form_over (parts walk.old.nodes) form) (created_lead (created_type creation.now.ty.now creation.now.diamond chosen.now.kept) creation.now.diamond chosen.now.result)) (now walk.old)).state ≡ now walk.new) }
    ensures value { IfOk result (λ at. (ran (captured table.now creation.now.place (created_type creation.now.ty.now creation.now.diamond chosen.now.kept) (form_over (parts walk.old.nodes) form) (created_lead (created_type creation.now.ty.now creation.now.diamond chosen.now.kept) creation.now.diamond chosen.now.result)) (now walk.old)).has ≡ has walk.new.nodes at) }
    ensures within { IfOk result (λ at. at < length walk.new.nodes) }
    ensures grows { Grows walk.old.nodes walk.new.nodes }
{
    same_form();
    form_below();
    let ty = created_type(alloc, creation, &chosen.kept)?;
    let lead = push_created_lead(
        alloc,
        &mut walk.nodes,
        &ty,
        creation.diamond,
        &chosen.result,
    )?;
    let formed = Formed {
        place: creation.place,
        form,
        lead,
    };
    captured(alloc, table, walk, &ty, formed)
}

// A creation by a chosen constructor.
#[tactic(auto, using(jc_typed::proofs::Growing::growing), unfolding(jc_exprs_worlds::specs::Scenes::world_of))]
fn created_by(
    alloc: Global,
    scene: &Scene,
    walk: &mut Walk,
    creation: &Creating,
    args: &[u32],
    chosen: &Chosen,
) -> Result<u32, WantOfMemory>
    requires { AllParts walk.old.nodes args.now }
    ensures state { OnOk result ((ran (created_by (world_of scene.now) creation.now.place creation.now.ty.now creation.now.diamond (map (known walk.old.nodes) args.now) chosen.now) (now walk.old)).state ≡ now walk.new) }
    ensures value { IfOk result (λ at. (ran (created_by (world_of scene.now) creation.now.place creation.now.ty.now creation.now.diamond (map (known walk.old.nodes) args.now) chosen.now) (now walk.old)).has ≡ has walk.new.nodes at) }
    ensures within { IfOk result (λ at. at < length walk.new.nodes) }
    ensures grows { Grows walk.old.nodes walk.new.nodes }
{
    let judging = Judging {
        table: scene.table,
        env: &walk.env,
    };
    let form = push_new_form(alloc, &mut walk.nodes, &judging, creation, args, chosen)?;
    created_form(alloc, scene.table, walk, creation, chosen, form)
}

// A creation without a diamond.
#[tactic(auto, using(crate::proofs::Creates::creates))]
fn created_plain(
    alloc: Global,
    scene: &Scene,
    walk: &mut Walk,
    creation: &Creating,
    args: &[u32],
    target: Option<u32>,
) -> Result<u32, WantOfMemory>
    requires args { AllParts walk.old.nodes args.now }
    requires plain { creation.now.diamond ≡ false }
    ensures state { OnOk result ((ran (created_of (world_of scene.now) creation.now.place creation.now.ty.now false (type_if walk.old.nodes target) (map (known walk.old.nodes) args.now)) (now walk.old)).state ≡ now walk.new) }
    ensures value { IfOk result (λ at. (ran (created_of (world_of scene.now) creation.now.place creation.now.ty.now false (type_if walk.old.nodes target) (map (known walk.old.nodes) args.now)) (now walk.old)).has ≡ has walk.new.nodes at) }
    ensures within { IfOk result (λ at. at < length walk.new.nodes) }
    ensures grows { Grows walk.old.nodes walk.new.nodes }
{
    match chosen_constructor(alloc, scene, walk, creation.place, creation.ty, args)? {
        None => missing(walk),
        Some(chosen) => created_by(alloc, scene, walk, creation, args, &chosen),
    }
}

// A creation with a diamond.
#[tactic(auto, using(crate::proofs::Creates::creates))]
fn created_by_diamond(
    alloc: Global,
    scene: &Scene,
    walk: &mut Walk,
    creation: &Creating,
    args: &[u32],
    target: Option<u32>,
) -> Result<u32, WantOfMemory>
    requires args { AllParts walk.old.nodes args.now }
    requires target { TypeBelow walk.old.nodes target }
    requires diamond { creation.now.diamond ≡ true }
    ensures state { OnOk result ((ran (created_of (world_of scene.now) creation.now.place creation.now.ty.now true (type_if walk.old.nodes target) (map (known walk.old.nodes) args.now)) (now walk.old)).state ≡ now walk.new) }
    ensures value { IfOk result (λ at. (ran (created_of (world_of scene.now) creation.now.place creation.now.ty.now true (type_if walk.old.nodes target) (map (known walk.old.nodes) args.now)) (now walk.old)).has ≡ has walk.new.nodes at) }
    ensures within { IfOk result (λ at. at < length walk.new.nodes) }
    ensures grows { Grows walk.old.nodes walk.new.nodes }
{
    match chosen_for_diamond(alloc, scene, walk, creation, args, target)? {
        None => missing(walk),
        Some(chosen) => created_by(alloc, scene, walk, creation, args, &chosen),
    }
}

// A creation of what has objects.
fn created_of(
    alloc: Global,
    scene: &Scene,
    walk: &mut Walk,
    creation: &Creating,
    args: &[u32],
    target: Option<u32>,
) -> Result<u32, WantOfMemory>
    requires args { AllParts walk.old.nodes args.now }
    requires target { TypeBelow walk.old.nodes target }
    ensures state { OnOk result ((ran (created_of (world_of scene.now) creation.now.place creation.now.ty.now creation.now.diamond (type_if walk.old.nodes target) (map (known walk.old.nodes) args.now)) (now walk.old)).state ≡ now walk.new) }
    ensures value { IfOk result (λ at. (ran (created_of (world_of scene.now) creation.now.place creation.now.ty.now creation.now.diamond (type_if walk.old.nodes target) (map (known walk.old.nodes) args.now)) (now walk.old)).has ≡ has walk.new.nodes at) }
    ensures within { IfOk result (λ at. at < length walk.new.nodes) }
    ensures grows { Grows walk.old.nodes walk.new.nodes }
{
    if creation.diamond {
        return created_by_diamond(alloc, scene, walk, creation, args, target);
    }
    created_plain(alloc, scene, walk, creation, args, target)
}

/// The creation of an object by its typed arguments and a target: 613 of what has no objects, 623 behind a diamond without type parameters, and 603, 618, 604, 605 and 606 where no
/// constructor is chosen.
#[tactic(auto, using(crate::proofs::Creates::created_laws))]
pub fn created(
    alloc: Global,
    scene: &Scene,
    walk: &mut Walk,
    creation: &Creating,
    args: &[u32],
    target: Option<u32>,
) -> Result<u32, WantOfMemory>
    requires args { AllParts walk.old.nodes args.now }
    requires target { TypeBelow walk.old.nodes target }
    ensures state { OnOk result ((ran (created (world_of scene.now) creation.now.place creation.now.ty.now creation.now.diamond (type_if walk.old.nodes target) (map (known walk.old.nodes) args.now)) (now walk.old)).state ≡ now walk.new) }
    ensures value { IfOk result (λ at. (ran (created (world_of scene.now) creation.now.place creation.now.ty.now creation.now.diamond (type_if walk.old.nodes target) (map (known walk.old.nodes) args.now)) (now walk.old)).has ≡ has walk.new.nodes at) }
    ensures within { IfOk result (λ at. at < length walk.new.nodes) }
    ensures grows { Grows walk.old.nodes walk.new.nodes }
{
    let first = no_objects(scene.table, creation.place, creation.ty);
    let second = no_parameters(scene.table, creation.place, creation.ty, creation.diamond);
    match broken_of(first, second) {
        Some(broken) => refused_by(walk, broken),
        None => created_of(alloc, scene, walk, creation, args, target),
    }
}
