//! Elements of arrays (JLS 15.13).
ghost use Rattle.std.specs.Prelude.{◌≡◌, ◌<◌, ◌++◌, length, IfOk, OnOk};
ghost use Rattle.jc_typed.specs.Parts.{Grows};
ghost use Rattle.jc_types.specs.declared.form.Primitive.TheVariants.{Int};
ghost use Rattle.jc_types.specs.declared.form.Ty.TheVariants.{Prim};
ghost use Rattle.jc_types.specs.Arrays.{element};
ghost use Rattle.jc_exprs_nodes_spec.specs.Told.{fine, provided, ran};
ghost use Rattle.jc_exprs_nodes_spec.specs.Typeds.{converted, plain};
ghost use Rattle.jc_exprs_nodes.specs.Walks.{IsPart, as_breaks, known, now};
ghost use Rattle.jc_exprs_parts_spec.specs.Names.{AtElement, element_breaks, element_by, element_of, indexed, or_int};
ghost use Rattle.jc_exprs_worlds.specs.Scenes.{world_of};
ghost use Rattle.jc_exprs_located.specs.Locations.{LocatedBelow, array_breaks, has_located};

use crate::located::LocatedAt;
use crate::premises::{both_hold, refused_both};
use jc_convert::{Converts, invocation};
use jc_exprs_nodes::{Judging, Part, Walk, converted, refusal, unconverted};
use jc_exprs_worlds::Scene;
use jc_rules::{Place, Refusal, WantOfMemory};
use jc_types::{Primitive, Table, Ty, element};
use std::alloc::Global;

fn array_break(place: Place, element: &Option<Ty>) -> Option<Refusal>
    ensures { as_breaks result ≡ array_breaks place element.now }
{
    match element {
        None => Some(refusal(617, place)),
        Some(_) => None,
    }
}

fn or_int(element: Option<Ty>) -> Ty
    ensures { result ≡ or_int element }
{
    match element {
        Some(ty) => ty,
        None => Ty::Prim(Primitive::Int),
    }
}

// An element of an array, where no premise fails.
#[tactic(auto, using(jc_typed::proofs::Growing::growing, jc_exprs_nodes::proofs::Staying::staying, jc_exprs_nodes_spec::proofs::Runs::runs))]
fn element_at<'a>(
    alloc: Global,
    walk: &mut Walk,
    table: &Table,
    array: Part,
    index: Part,
    converts: &Converts,
    element: Option<Ty>,
) -> Result<Option<LocatedAt<'a>>, WantOfMemory>
    requires array { IsPart walk.old.nodes array }
    requires index { IsPart walk.old.nodes index }
    ensures state { OnOk result ((ran (fine (AtElement (known walk.old.nodes array.at).start (plain (known walk.old.nodes array.at)) (converted table.now walk.old.env.bounds (known walk.old.nodes index.at) converts.now) (or_int element))) (now walk.old)).state ≡ now walk.new) }
    ensures value { IfOk result (λ l. (ran (fine (AtElement (known walk.old.nodes array.at).start (plain (known walk.old.nodes array.at)) (converted table.now walk.old.env.bounds (known walk.old.nodes index.at) converts.now) (or_int element))) (now walk.old)).has ≡ has_located walk.new.nodes l) }
    ensures below { IfOk result (λ l. LocatedBelow (length walk.new.nodes) l) }
    ensures grows { Grows walk.old.nodes walk.new.nodes }
{
    let judging = Judging {
        table,
        env: &walk.env,
    };
    let index = converted(alloc, &mut walk.nodes, &judging, index, converts)?;
    let ty = walk.nodes.push_type(or_int(element))?;
    Ok(Some(LocatedAt::Element {
        place: array.start,
        array: array.at,
        index,
        ty,
    }))
}

#[tactic(auto, using(jc_typed::proofs::Growing::growing))]
fn element_with<'a>(
    alloc: Global,
    walk: &mut Walk,
    table: &Table,
    array: Part,
    index: Part,
    converts: &Converts,
    element: Option<Ty>,
) -> Result<Option<LocatedAt<'a>>, WantOfMemory>
    requires array { IsPart walk.old.nodes array }
    requires index { IsPart walk.old.nodes index }
    ensures state { OnOk result ((ran (provided (element_breaks (known walk.old.nodes array.at) (known walk.old.nodes index.at) element converts.now) (fine (AtElement (known walk.old.nodes array.at).start (plain (known walk.old.nodes array.at)) (converted table.now walk.old.env.bounds (known walk.old.nodes index.at) converts.now) (or_int element)))) (now walk.old)).state ≡ now walk.new) }
    ensures value { IfOk result (λ l. (ran (provided (element_breaks (known walk.old.nodes array.at) (known walk.old.nodes index.at) element converts.now) (fine (AtElement (known walk.old.nodes array.at).start (plain (known walk.old.nodes array.at)) (converted table.now walk.old.env.bounds (known walk.old.nodes index.at) converts.now) (or_int element)))) (now walk.old)).has ≡ has_located walk.new.nodes l) }
    ensures below { IfOk result (λ l. LocatedBelow (length walk.new.nodes) l) }
    ensures grows { Grows walk.old.nodes walk.new.nodes }
{
    let no_array = array_break(array.place, &element);
    let no_int = unconverted(607, index.start, converts);
    if both_hold(&no_array, &no_int) {
        return element_at(alloc, walk, table, array, index, converts, element);
    }
    Ok(refused_both(walk, no_array, no_int))
}

#[tactic(auto, using(jc_typed::proofs::Growing::growing))]
fn element_by<'a>(
    alloc: Global,
    walk: &mut Walk,
    table: &Table,
    array: Part,
    index: Part,
    converts: &Converts,
) -> Result<Option<LocatedAt<'a>>, WantOfMemory>
    requires array { IsPart walk.old.nodes array }
    requires index { IsPart walk.old.nodes index }
    ensures state { OnOk result ((ran (element_by table.now walk.old.env.bounds (known walk.old.nodes array.at) (known walk.old.nodes index.at) converts.now) (now walk.old)).state ≡ now walk.new) }
    ensures value { IfOk result (λ l. (ran (element_by table.now walk.old.env.bounds (known walk.old.nodes array.at) (known walk.old.nodes index.at) converts.now) (now walk.old)).has ≡ has_located walk.new.nodes l) }
    ensures below { IfOk result (λ l. LocatedBelow (length walk.new.nodes) l) }
    ensures grows { Grows walk.old.nodes walk.new.nodes }
{
    let element = element(alloc, walk.nodes.ty(array.ty))?;
    element_with(alloc, walk, table, array, index, converts, element)
}

fn indexed<'a>(
    alloc: Global,
    walk: &mut Walk,
    table: &Table,
    array: Part,
    index: Part,
) -> Result<Option<LocatedAt<'a>>, WantOfMemory>
    requires array { IsPart walk.old.nodes array }
    requires index { IsPart walk.old.nodes index }
    ensures state { OnOk result ((ran (indexed table.now (known walk.old.nodes array.at) (known walk.old.nodes index.at)) (now walk.old)).state ≡ now walk.new) }
    ensures value { IfOk result (λ l. (ran (indexed table.now (known walk.old.nodes array.at) (known walk.old.nodes index.at)) (now walk.old)).has ≡ has_located walk.new.nodes l) }
    ensures below { IfOk result (λ l. LocatedBelow (length walk.new.nodes) l) }
    ensures grows { Grows walk.old.nodes walk.new.nodes }
{
    let from = walk.nodes.ty(index.ty);
    let converts = invocation(alloc, table, &walk.env, from, &Ty::Prim(Primitive::Int))?;
    element_by(alloc, walk, table, array, index, &converts)
}

/// An element of an array: 617 at what is no array, 607 at an index that isn't promoted to int.
#[tactic(auto, unfolding(jc_exprs_worlds::specs::Scenes::world_of, jc_exprs_parts_spec::specs::Names::element_of))]
pub fn element_of<'a>(
    alloc: Global,
    walk: &mut Walk,
    scene: &Scene<'a>,
    array: Part,
    index: Part,
) -> Result<Option<LocatedAt<'a>>, WantOfMemory>
    requires array { IsPart walk.old.nodes array }
    requires index { IsPart walk.old.nodes index }
    ensures state { OnOk result ((ran (element_of (world_of scene.now) (known walk.old.nodes array.at) (known walk.old.nodes index.at)) (now walk.old)).state ≡ now walk.new) }
    ensures value { IfOk result (λ l. (ran (element_of (world_of scene.now) (known walk.old.nodes array.at) (known walk.old.nodes index.at)) (now walk.old)).has ≡ has_located walk.new.nodes l) }
    ensures below { IfOk result (λ l. LocatedBelow (length walk.new.nodes) l) }
    ensures grows { Grows walk.old.nodes walk.new.nodes }
{
    indexed(alloc, walk, scene.table, array, index)
}
