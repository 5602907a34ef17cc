//! Casts (JLS 15.16).
ghost use Rattle.std.specs.Prelude.{◌≡◌, ◌<◌, ◌++◌, [], length, Some, IfOk, OnOk};
ghost use Rattle.jc_types.specs.declared.form.Ty.{out-Ty};
ghost use Rattle.jc_typed.specs.Parts.{BelowForm, Grows, form_over, parts, places_of};
ghost use Rattle.jc_typed.specs.Trees.{Cast};
ghost use Rattle.jc_exprs_nodes_spec.specs.Told.{ran};
ghost use Rattle.jc_exprs_nodes_spec.specs.Typeds.{captured, cast_steps_by, known_of, plain, type_of as counted_type};
ghost use Rattle.jc_exprs_nodes.specs.Walks.{IsPart, has, known, now};
ghost use Rattle.jc_exprs_parts_spec.specs.Values.{cast_known, cast_to, cast_typed, cast_value, casts_at, is_below};
ghost use Rattle.jc_exprs_constants.specs.Knowing.{KnownBelow, has_known, known_at};

use crate::kinds::is_below;
use crate::noting::{captured, fixed};
use jc_convert::{Converts, cast};
use jc_exprs_constants::{KnownAt, constant_as, known_part, push_places_behind};
use jc_exprs_nodes::{Judging, Led, Part, Walk, push_cast_steps, refused, unconverted};
use jc_rules::{Place, WantOfMemory};
use jc_typed::{ExprForm, Nodes, PlacesNode, StepsNode};
use jc_types::{Constant, Table, Ty, copy_type};
use std::alloc::Global;

/// A cast of a part to a type, by its first token.
#[derive(Clone, Copy)]
pub struct Casting<'a> {
    pub place: Place,
    pub ty: &'a Ty,
    pub part: Part,
}

// The places of casts to String: that of a cast to a primitive type isn't one.
#[tactic(auto, using(jc_types::proofs::Opened::opened, jc_typed::proofs::Growing::growing))]
fn push_casts(
    alloc: Global,
    nodes: &mut Nodes,
    place: Place,
    ty: &Ty,
    casts: u32,
) -> Result<u32, WantOfMemory>
    requires { casts < length nodes.old }
    ensures value { IfOk result (λ r. places_of nodes.new r ≡ casts_at place (out-Ty ty.now) ++ places_of nodes.old casts) }
    ensures within { IfOk result (λ r. r < length nodes.new) }
    ensures grows { Grows nodes.old nodes.new }
{
    if let Ty::Prim(_) = ty {
        return Ok(casts);
    }
    let none = nodes.push_places(PlacesNode::Empty)?;
    let here = nodes.push_places(PlacesNode::More {
        before: none,
        last: place,
    })?;
    push_places_behind(alloc, nodes, here, casts)
}

// The constant of a cast whose value is this.
#[tactic(auto, using(jc_typed::proofs::Growing::growing))]
fn push_cast_known(
    alloc: Global,
    nodes: &mut Nodes,
    place: Place,
    ty: &Ty,
    known: KnownAt,
    value: Constant,
) -> Result<KnownAt, WantOfMemory>
    requires { KnownBelow (length nodes.old) (Some known) }
    ensures value { IfOk result (λ r. Some (known_at nodes.new r) ≡ cast_value place ty.now (known_at nodes.old known) (Some value)) }
    ensures below { IfOk result (λ r. KnownBelow (length nodes.new) (Some r)) }
    ensures grows { Grows nodes.old nodes.new }
{
    let value = nodes.push_constant(value)?;
    let casts = push_casts(alloc, nodes, place, ty, known.casts)?;
    Ok(KnownAt {
        value,
        named: known.named,
        casts,
    })
}

// The constant that a cast is, if it is one: a cast of a constant to a primitive type or to String.
#[tactic(auto, using(jc_typed::proofs::Growing::growing))]
fn cast_known(
    alloc: Global,
    table: &Table,
    nodes: &mut Nodes,
    casting: &Casting,
) -> Result<Option<KnownAt>, WantOfMemory>
    requires { IsPart nodes.old casting.now.part }
    ensures value { IfOk result (λ r. cast_known table.now casting.now.place casting.now.ty.now (known_of (known nodes.old casting.now.part.at)) ≡ has_known nodes.new r) }
    ensures below { IfOk result (λ r. KnownBelow (length nodes.new) r) }
    ensures grows { Grows nodes.old nodes.new }
{
    let Some(known) = known_part(nodes, casting.part) else {
        return Ok(None);
    };
    let constant = nodes.constant(known.value);
    match constant_as(alloc, table, casting.ty, constant)? {
        None => Ok(None),
        Some(value) => {
            let known = push_cast_known(alloc, nodes, casting.place, casting.ty, known, value)?;
            Ok(Some(known))
        }
    }
}

// The form of a cast that is no constant.
#[tactic(auto, using(jc_typed::proofs::Growing::growing))]
fn cast_form(
    alloc: Global,
    nodes: &mut Nodes,
    judging: &Judging,
    casting: &Casting,
    converts: &Converts,
) -> Result<ExprForm, WantOfMemory>
    requires { IsPart nodes.old casting.now.part }
    ensures value { IfOk result (λ r. form_over (parts nodes.new) r ≡ Cast (plain (known nodes.old casting.now.part.at)) casting.now.ty.now (cast_steps_by judging.now.table.now judging.now.env.now.bounds (counted_type (known nodes.old casting.now.part.at)) converts.now) (is_below judging.now.table.now judging.now.env.now.bounds (counted_type (known nodes.old casting.now.part.at)) casting.now.ty.now)) }
    ensures below { IfOk result (λ r. BelowForm (length nodes.new) r) }
    ensures grows { Grows nodes.old nodes.new }
{
    let is_below = is_below(alloc, judging, nodes.ty(casting.part.ty), casting.ty)?;
    let none = nodes.push_steps(StepsNode::Empty)?;
    let from = Led {
        steps: none,
        ty: casting.part.ty,
    };
    let steps = push_cast_steps(alloc, nodes, judging, from, converts)?;
    let to = nodes.push_type(copy_type(alloc, casting.ty)?)?;
    Ok(ExprForm::Cast {
        of: casting.part.at,
        to,
        steps,
        is_below,
    })
}

// A cast that is no constant.
#[tactic(auto, using(jc_typed::proofs::Growing::growing))]
fn cast_captured(
    alloc: Global,
    table: &Table,
    walk: &mut Walk,
    casting: &Casting,
    converts: &Converts,
) -> Result<u32, WantOfMemory>
    requires { IsPart walk.old.nodes casting.now.part }
    ensures state { OnOk result ((ran (captured table.now casting.now.place casting.now.ty.now (Cast (plain (known walk.old.nodes casting.now.part.at)) casting.now.ty.now (cast_steps_by table.now walk.old.env.bounds (counted_type (known walk.old.nodes casting.now.part.at)) converts.now) (is_below table.now walk.old.env.bounds (counted_type (known walk.old.nodes casting.now.part.at)) casting.now.ty.now)) []) (now walk.old)).state ≡ now walk.new) }
    ensures value { IfOk result (λ at. (ran (captured table.now casting.now.place casting.now.ty.now (Cast (plain (known walk.old.nodes casting.now.part.at)) casting.now.ty.now (cast_steps_by table.now walk.old.env.bounds (counted_type (known walk.old.nodes casting.now.part.at)) converts.now) (is_below table.now walk.old.env.bounds (counted_type (known walk.old.nodes casting.now.part.at)) casting.now.ty.now)) []) (now walk.old)).has ≡ has walk.new.nodes at) }
    ensures within { IfOk result (λ at. at < length walk.new.nodes) }
    ensures grows { Grows walk.old.nodes walk.new.nodes }
{
    let judging = Judging {
        table,
        env: &walk.env,
    };
    let form = cast_form(alloc, &mut walk.nodes, &judging, casting, converts)?;
    captured(alloc, table, walk, casting.place, casting.ty, form)
}

// A cast where there is such a conversion: a constant, or an expression.
#[tactic(auto, using(jc_typed::proofs::Growing::growing, jc_exprs_nodes::proofs::Staying::staying))]
fn cast_typed(
    alloc: Global,
    table: &Table,
    walk: &mut Walk,
    casting: &Casting,
    converts: &Converts,
) -> Result<u32, WantOfMemory>
    requires { IsPart walk.old.nodes casting.now.part }
    ensures state { OnOk result ((ran (cast_typed table.now walk.old.env.bounds casting.now.place casting.now.ty.now (known walk.old.nodes casting.now.part.at) converts.now (cast_known table.now casting.now.place casting.now.ty.now (known_of (known walk.old.nodes casting.now.part.at)))) (now walk.old)).state ≡ now walk.new) }
    ensures value { IfOk result (λ at. (ran (cast_typed table.now walk.old.env.bounds casting.now.place casting.now.ty.now (known walk.old.nodes casting.now.part.at) converts.now (cast_known table.now casting.now.place casting.now.ty.now (known_of (known walk.old.nodes casting.now.part.at)))) (now walk.old)).has ≡ has walk.new.nodes at) }
    ensures within { IfOk result (λ at. at < length walk.new.nodes) }
    ensures grows { Grows walk.old.nodes walk.new.nodes }
{
    match cast_known(alloc, table, &mut walk.nodes, casting)? {
        Some(known) => fixed(alloc, walk, casting.place, casting.ty, known),
        None => cast_captured(alloc, table, walk, casting, converts),
    }
}

/// A cast of a part to a type: 608 where no conversion takes it there, and 606 where that can't be told.
#[tactic(auto, using(crate::proofs::Ruling::casting))]
pub fn cast_to(
    alloc: Global,
    table: &Table,
    walk: &mut Walk,
    place: Place,
    ty: &Ty,
    part: Part,
) -> Result<u32, WantOfMemory>
    requires { IsPart walk.old.nodes part }
    ensures state { OnOk result ((ran (cast_to table.now place ty.now (known walk.old.nodes part.at)) (now walk.old)).state ≡ now walk.new) }
    ensures value { IfOk result (λ at. (ran (cast_to table.now place ty.now (known walk.old.nodes part.at)) (now walk.old)).has ≡ has walk.new.nodes at) }
    ensures within { IfOk result (λ at. at < length walk.new.nodes) }
    ensures grows { Grows walk.old.nodes walk.new.nodes }
{
    let converts = cast(alloc, table, &walk.env, walk.nodes.ty(part.ty), ty)?;
    match unconverted(608, place, &converts) {
        Some(found) => refused(walk, found),
        None => cast_typed(alloc, table, walk, &Casting { place, ty, part }, &converts),
    }
}
