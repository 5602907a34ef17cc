//! `this` (JLS 15.8.3, 8.8.7.1).
ghost use Rattle.std.specs.Prelude.{◌≡◌, ◌<◌, [], length, IfOk, OnOk};
ghost use Rattle.jc_typed.specs.Parts.{Grows, captures_of, steps_of, type_of};
ghost use Rattle.jc_typed.specs.Trees.{This};
ghost use Rattle.jc_exprs_nodes_spec.specs.Told.{fine, ran};
ghost use Rattle.jc_exprs_nodes_spec.specs.Typeds.{node};
ghost use Rattle.jc_exprs_nodes.specs.Walks.{IsPart, as_breaks, has, known, now};
ghost use Rattle.jc_exprs_parts_spec.specs.Names.{instance_breaks, this_at, this_value};
ghost use Rattle.jc_exprs_worlds.specs.Scenes.{here_of, world_of};

use jc_exprs_nodes::{Part, Walk, refusal, refused};
use jc_exprs_worlds::{Here, Scene, this_type};
use jc_rules::{Place, Refusal, WantOfMemory};
use jc_typed::{CapturesNode, ExprForm, ExprNode, Nodes, OperandNode, StepsNode};
use std::alloc::Global;

/// The rule that is broken where an instance is asked for: 611 in a static place, 620 before there is an instance.
pub fn instance_break(here: Here, place: Place) -> Option<Refusal>
    ensures { as_breaks result ≡ instance_breaks (here_of here) place }
{
    match here {
        Here::Instance => None,
        Here::Static => Some(refusal(611, place)),
        Here::Early => Some(refusal(620, place)),
    }
}

// `this`, of a type in the arena, which has neither captured variables nor a lead.
#[tactic(auto, using(jc_typed::proofs::Growing::growing), unfolding(jc_exprs_nodes::specs::Walks::typed_in, jc_exprs_nodes::specs::Walks::known))]
fn push_bare(
    nodes: &mut Nodes,
    place: Place,
    ty: u32,
    captures: u32,
    lead: u32,
) -> Result<Part, WantOfMemory>
    requires below { (ty < length nodes.old) × (captures < length nodes.old) × (lead < length nodes.old) }
    requires captures { captures_of nodes.old captures ≡ [] }
    requires lead { steps_of nodes.old lead ≡ [] }
    ensures value { IfOk result (λ p. known nodes.new p.at ≡ node place (type_of nodes.old ty) This) }
    ensures part { IfOk result (λ p. IsPart nodes.new p) }
    ensures grows { Grows nodes.old nodes.new }
{
    let of = nodes.push_expr(ExprNode::Expr {
        place,
        ty,
        captures,
        form: ExprForm::This,
    })?;
    let at = nodes.push_operand(OperandNode::Operand {
        place,
        of,
        steps: lead,
    })?;
    Ok(Part {
        at,
        start: place,
        place,
        of,
        ty,
        lead,
    })
}

/// `this`, without asking whether there is an instance.
#[tactic(auto, using(jc_typed::proofs::Growing::growing))]
pub fn push_this(
    alloc: Global,
    nodes: &mut Nodes,
    scene: &Scene,
    place: Place,
) -> Result<Part, WantOfMemory>
    ensures value { IfOk result (λ p. known nodes.new p.at ≡ this_at (world_of scene.now) place) }
    ensures part { IfOk result (λ p. IsPart nodes.new p) }
    ensures grows { Grows nodes.old nodes.new }
{
    let this = this_type(alloc, scene)?;
    let captures = nodes.push_captures(CapturesNode::Empty)?;
    let lead = nodes.push_steps(StepsNode::Empty)?;
    let ty = nodes.push_type(this)?;
    push_bare(nodes, place, ty, captures, lead)
}

#[tactic(auto, using(jc_typed::proofs::Growing::growing, jc_exprs_nodes_spec::proofs::Runs::runs))]
fn this_at(alloc: Global, walk: &mut Walk, scene: &Scene, place: Place) -> Result<u32, WantOfMemory>
    ensures state { OnOk result ((ran (fine (this_at (world_of scene.now) place)) (now walk.old)).state ≡ now walk.new) }
    ensures value { IfOk result (λ at. (ran (fine (this_at (world_of scene.now) place)) (now walk.old)).has ≡ has walk.new.nodes at) }
    ensures within { IfOk result (λ at. at < length walk.new.nodes) }
    ensures grows { Grows walk.old.nodes walk.new.nodes }
{
    let this = push_this(alloc, &mut walk.nodes, scene, place)?;
    Ok(this.at)
}

/// The value of `this`.
pub fn this_value(
    alloc: Global,
    walk: &mut Walk,
    scene: &Scene,
    place: Place,
) -> Result<u32, WantOfMemory>
    ensures state { OnOk result ((ran (this_value (world_of scene.now) place) (now walk.old)).state ≡ now walk.new) }
    ensures value { IfOk result (λ at. (ran (this_value (world_of scene.now) place) (now walk.old)).has ≡ has walk.new.nodes at) }
    ensures within { IfOk result (λ at. at < length walk.new.nodes) }
    ensures grows { Grows walk.old.nodes walk.new.nodes }
{
    match instance_break(scene.here, place) {
        Some(break_of) => refused(walk, break_of),
        None => this_at(alloc, walk, scene, place),
    }
}
