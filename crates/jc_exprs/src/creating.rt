//! Creations of objects and arrays (JLS 15.9, 15.10).
ghost use Rattle.std.specs.Prelude.{◌+◌, ◌<◌, ◌≡◌, IfOk, length, OnOk};
ghost use Rattle.jc_members.specs.Named.{IsMethodIndex};
ghost use Rattle.jc_typed.specs.Parts.{Grows};
ghost use Rattle.jc_exprs_nodes_spec.specs.Told.{every, onward, ran};
ghost use Rattle.jc_exprs_nodes.specs.Walks.{has, now};
ghost use Rattle.jc_exprs_starts.specs.Wanted.{wanted_in, WantedBelow};
ghost use Rattle.jc_exprs_worlds.specs.Scenes.{IsWorldly, world_of};
ghost use Rattle.jc_exprs_forms.specs.Forms.{creating, typings};
ghost use Rattle.jc_exprs_parts_spec.specs.Worlds.{written_base};
ghost use Rattle.jc_exprs_spec.specs.Creations.{created};
ghost use Rattle.jc_overriding.specs.Viewing.{with_dims};
ghost use Rattle.jc_exprs.specs.Rests.{sized_behind};

use crate::initialisers::listed;
use crate::lists::{typed_all, typed_onto};
use crate::typing::typed;
use jc_exprs_call_gates::created_or;
use jc_exprs_calls::{Creating, Methods};
use jc_exprs_nodes::Walk;
use jc_exprs_values::sized_or;
use jc_exprs_worlds::{Scene, written_base, written_class};
use jc_rules::{Items, Place, WantOfMemory};
use jc_tree::{BaseTree, Creation, Expr};
use jc_types::{Ty, array_over};
use std::alloc::Global;

// The type of an array over a written type, with so many dimensions beyond the first.
fn array_type(
    alloc: Global,
    scene: &Scene,
    element: &BaseTree,
    further: u64,
) -> Result<Ty, WantOfMemory>
    requires { IsWorldly scene.now }
    ensures { IfOk result (λ t. t ≡ with_dims (further + 1) (written_base (world_of scene.now) element.now)) }
{
    let element = written_base(alloc, scene, element)?;
    array_over(alloc, element, further)
}

// .. with dimensions of which the length is told, the first and more, and others.
fn sized_type(
    alloc: Global,
    scene: &Scene,
    element: &BaseTree,
    more: &[Expr],
    dims: u32,
) -> Result<Ty, WantOfMemory>
    requires { IsWorldly scene.now }
    ensures { IfOk result (λ t. t ≡ with_dims (length more.now + 1 + dims) (written_base (world_of scene.now) element.now)) }
{
    let further = more.len() as u64 + u64::from(dims);
    array_type(alloc, scene, element, further)
}

// An object.
#[cycle(expressions)]
#[tactic(auto, using(jc_typed::proofs::Growing::growing, jc_exprs_nodes_spec::proofs::Runs::runs, jc_exprs_nodes::proofs::Staying::staying, jc_exprs_starts::proofs::Staying::wanted))]
fn object_created(
    alloc: Global,
    methods: &Methods,
    walk: &mut Walk,
    actuals: &[Expr],
    creation: &Creating,
    wanted: Option<u32>,
) -> Result<u32, WantOfMemory>
    requires index { IsMethodIndex methods.now.scene.now.table.now methods.now.index.now }
    requires scene { IsWorldly methods.now.scene.now }
    requires wanted { WantedBelow (length walk.old.nodes) wanted }
    ensures state { OnOk result ((ran (onward (every (typings (world_of methods.now.scene.now) actuals.now)) (λ ts. created (world_of methods.now.scene.now) creation.now.place creation.now.ty.now creation.now.diamond (wanted_in walk.old.nodes wanted) ts)) (now walk.old)).state ≡ now walk.new) }
    ensures value { IfOk result (λ at. (ran (onward (every (typings (world_of methods.now.scene.now) actuals.now)) (λ ts. created (world_of methods.now.scene.now) creation.now.place creation.now.ty.now creation.now.diamond (wanted_in walk.old.nodes wanted) ts)) (now walk.old)).has ≡ has walk.new.nodes at) }
    ensures within { IfOk result (λ at. at < length walk.new.nodes) }
    ensures grows { Grows walk.old.nodes walk.new.nodes }
{
    let args = typed_all(alloc, methods, walk, actuals)?;
    created_or(alloc, methods.scene, walk, creation, args.slice(), wanted)
}

// An array, whose first length is there, by the others.
#[cycle(expressions)]
#[tactic(auto, using(jc_typed::proofs::Growing::growing, jc_exprs_nodes_spec::proofs::Runs::runs, jc_exprs_nodes::proofs::Staying::staying, jc_exprs_gathering::proofs::Gathering::gathering, jc_exprs_worlds::proofs::Told::worlds), unfolding(crate::specs::Rests::sized_behind))]
fn array_sized(
    alloc: Global,
    methods: &Methods,
    walk: &mut Walk,
    more: &[Expr],
    first: u32,
    place: Place,
    ty: &Ty,
) -> Result<u32, WantOfMemory>
    requires index { IsMethodIndex methods.now.scene.now.table.now methods.now.index.now }
    requires scene { IsWorldly methods.now.scene.now }
    requires first { first < length walk.old.nodes }
    ensures state { OnOk result ((sized_behind (world_of methods.now.scene.now) place ty.now (has walk.old.nodes first) more.now (now walk.old)).state ≡ now walk.new) }
    ensures value { IfOk result (λ at. (sized_behind (world_of methods.now.scene.now) place ty.now (has walk.old.nodes first) more.now (now walk.old)).has ≡ has walk.new.nodes at) }
    ensures within { IfOk result (λ at. at < length walk.new.nodes) }
    ensures grows { Grows walk.old.nodes walk.new.nodes }
{
    let mut lengths = Items::new(alloc);
    lengths.push(first)?;
    let lengths = typed_onto(alloc, methods, walk, more, lengths)?;
    sized_or(alloc, methods.scene.table, walk, place, ty, lengths.slice())
}

/// What stands behind `new`, by the place of that.
#[cycle(expressions)]
#[tactic(auto, using(jc_typed::proofs::Growing::growing, jc_exprs_nodes_spec::proofs::Runs::runs, jc_exprs_nodes::proofs::Staying::staying, jc_exprs_forms::proofs::ByForms::by_creating, crate::proofs::Through::rests))]
pub fn creation_of(
    alloc: Global,
    methods: &Methods,
    walk: &mut Walk,
    creation: &Creation,
    place: Place,
    wanted: Option<u32>,
) -> Result<u32, WantOfMemory>
    requires index { IsMethodIndex methods.now.scene.now.table.now methods.now.index.now }
    requires scene { IsWorldly methods.now.scene.now }
    requires wanted { WantedBelow (length walk.old.nodes) wanted }
    ensures state { OnOk result ((ran (creating (world_of methods.now.scene.now) place (wanted_in walk.old.nodes wanted) creation.now) (now walk.old)).state ≡ now walk.new) }
    ensures value { IfOk result (λ at. (ran (creating (world_of methods.now.scene.now) place (wanted_in walk.old.nodes wanted) creation.now) (now walk.old)).has ≡ has walk.new.nodes at) }
    ensures within { IfOk result (λ at. at < length walk.new.nodes) }
    ensures grows { Grows walk.old.nodes walk.new.nodes }
{
    let scene = methods.scene;
    match creation {
        Creation::Object {
            class,
            diamond,
            actuals,
            ..
        } => {
            let ty = written_class(alloc, scene, class)?;
            let diamond = *diamond;
            let creation = Creating {
                place,
                ty: &ty,
                diamond,
            };
            object_created(alloc, methods, walk, actuals.slice(), &creation, wanted)
        }
        Creation::Sized {
            element,
            first,
            more,
            dims,
        } => {
            let ty = sized_type(alloc, scene, element, more.slice(), *dims)?;
            let at = typed(alloc, methods, walk, None, first.get())?;
            array_sized(alloc, methods, walk, more.slice(), at, place, &ty)
        }
        Creation::Initialised {
            element,
            dims,
            init,
        } => {
            let ty = array_type(alloc, scene, element, u64::from(*dims))?;
            let ty = walk.nodes.push_type(ty)?;
            listed(alloc, methods, walk, init, Some(ty), place)
        }
    }
}
