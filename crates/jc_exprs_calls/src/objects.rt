//! Objects on which methods are called.
ghost use Rattle.std.specs.Prelude.{◌≡◌, ◌<◌, [], IfOk, length};
ghost use Rattle.jc_typed.specs.Parts.{Grows, captures_of, operands_of, steps_of, type_of};
ghost use Rattle.jc_exprs_nodes_spec.specs.Typeds.{node, one_operand, stepped, type_of as counted_type, use_guard};
ghost use Rattle.jc_typed.specs.Trees.{This};
ghost use Rattle.jc_exprs_nodes.specs.Walks.{IsPart, known};
ghost use Rattle.jc_exprs_parts_spec.specs.Names.{class_erased, this_at};
ghost use Rattle.jc_exprs_spec.specs.Calls.{dropped_operand, object_operand, receiver_operands};
ghost use Rattle.jc_exprs_worlds.specs.Scenes.{world_of};
ghost use Rattle.jc_overriding.specs.Viewing.{is_static};
ghost use Rattle.jc_exprs_calls.specs.Receivers.{IsReceiver, receiver_of};

use crate::receivers::ReceiverAt;
use jc_exprs_nodes::{Judging, Part, push_one_operand, push_use_guard_at, stepped};
use jc_exprs_worlds::{Scene, this_type};
use jc_members::{is_static, owner};
use jc_rules::{Place, WantOfMemory};
use jc_typed::{CapturesNode, ExprForm, ExprNode, ListNode, Nodes, OperandNode, StepsNode};
use jc_types::{Base, ClassId, Env, Erased, MethodId, Ty};
use std::alloc::Global;

// `this` of a type, with no captured variables and no lead.
#[tactic(auto, using(jc_typed::proofs::Growing::growing), unfolding(jc_exprs_nodes::specs::Walks::typed_in, jc_exprs_nodes::specs::Walks::known))]
fn push_bare_this(
    nodes: &mut Nodes,
    place: Place,
    ty: u32,
    captures: u32,
    lead: u32,
) -> Result<Part, WantOfMemory>
    requires below { (ty < length nodes.old) × (captures < length nodes.old) × (lead < length nodes.old) }
    requires captures { captures_of nodes.old captures ≡ [] }
    requires lead { steps_of nodes.old lead ≡ [] }
    ensures value { IfOk result (λ p. known nodes.new p.at ≡ node place (type_of nodes.old ty) This) }
    ensures part { IfOk result (λ p. IsPart nodes.new p) }
    ensures grows { Grows nodes.old nodes.new }
{
    let of = nodes.push_expr(ExprNode::Expr {
        place,
        ty,
        captures,
        form: ExprForm::This,
    })?;
    let at = nodes.push_operand(OperandNode::Operand {
        place,
        of,
        steps: lead,
    })?;
    Ok(Part {
        at,
        start: place,
        place,
        of,
        ty,
        lead,
    })
}

// `this` of a type.
#[tactic(auto, using(jc_typed::proofs::Growing::growing))]
fn push_this_of(nodes: &mut Nodes, place: Place, ty: Ty) -> Result<Part, WantOfMemory>
    ensures value { IfOk result (λ p. known nodes.new p.at ≡ node place ty This) }
    ensures part { IfOk result (λ p. IsPart nodes.new p) }
    ensures grows { Grows nodes.old nodes.new }
{
    let ty = nodes.push_type(ty)?;
    let captures = nodes.push_captures(CapturesNode::Empty)?;
    let lead = nodes.push_steps(StepsNode::Empty)?;
    push_bare_this(nodes, place, ty, captures, lead)
}

/// `this` at a place.
pub fn push_this(
    alloc: Global,
    scene: &Scene,
    nodes: &mut Nodes,
    place: Place,
) -> Result<Part, WantOfMemory>
    ensures value { IfOk result (λ p. known nodes.new p.at ≡ this_at (world_of scene.now) place) }
    ensures part { IfOk result (λ p. IsPart nodes.new p) }
    ensures grows { Grows nodes.old nodes.new }
{
    let ty = this_type(alloc, scene)?;
    push_this_of(nodes, place, ty)
}

// An object on which a method of a class is called, as one of that class.
#[tactic(auto, using(jc_typed::proofs::Growing::growing))]
fn push_object(
    alloc: Global,
    nodes: &mut Nodes,
    judging: &Judging,
    part: Part,
    class: ClassId,
) -> Result<u32, WantOfMemory>
    requires { IsPart nodes.old part }
    ensures value { IfOk result (λ r. operands_of nodes.new r ≡ one_operand (stepped (known nodes.old part.at) (use_guard judging.now.table.now judging.now.env.now.bounds (counted_type (known nodes.old part.at)) (class_erased class)))) }
    ensures within { IfOk result (λ r. r < length nodes.new) }
    ensures grows { Grows nodes.old nodes.new }
{
    let to = Erased {
        base: Base::Class(class),
        dims: 0,
    };
    let steps = push_use_guard_at(alloc, nodes, judging, part.lead, part.ty, to)?;
    let operand = stepped(nodes, part, steps)?;
    push_one_operand(nodes, operand)
}

// `this`, as an object of a class.
#[tactic(auto, using(jc_typed::proofs::Growing::growing), unfolding(jc_exprs_worlds::specs::Scenes::world_of))]
fn push_this_object(
    alloc: Global,
    scene: &Scene,
    env: &Env,
    nodes: &mut Nodes,
    place: Place,
    class: ClassId,
) -> Result<u32, WantOfMemory>
    ensures value { IfOk result (λ r. operands_of nodes.new r ≡ one_operand (stepped (this_at (world_of scene.now) place) (use_guard (world_of scene.now).table env.now.bounds (counted_type (this_at (world_of scene.now) place)) (class_erased class)))) }
    ensures within { IfOk result (λ r. r < length nodes.new) }
    ensures grows { Grows nodes.old nodes.new }
{
    let this = push_this(alloc, scene, nodes, place)?;
    let judging = Judging {
        table: scene.table,
        env,
    };
    push_object(alloc, nodes, &judging, this, class)
}

// The object on which an instance method is called; none behind a class, where the call is broken.
#[tactic(auto, using(jc_typed::proofs::Growing::growing), unfolding(jc_exprs_worlds::specs::Scenes::world_of))]
fn push_object_operand(
    alloc: Global,
    scene: &Scene,
    env: &Env,
    nodes: &mut Nodes,
    receiver: ReceiverAt,
    method: MethodId,
) -> Result<u32, WantOfMemory>
    requires { IsReceiver nodes.old receiver }
    ensures value { IfOk result (λ r. operands_of nodes.new r ≡ object_operand (world_of scene.now) env.now.bounds (receiver_of nodes.old receiver) method) }
    ensures within { IfOk result (λ r. r < length nodes.new) }
    ensures grows { Grows nodes.old nodes.new }
{
    let class = owner(scene.table, method);
    match receiver {
        ReceiverAt::OnValue(settled) => {
            let judging = Judging {
                table: scene.table,
                env,
            };
            push_object(alloc, nodes, &judging, settled.part, class)
        }
        ReceiverAt::OnThis(place) => push_this_object(alloc, scene, env, nodes, place, class),
        ReceiverAt::OnSuper { place, .. } => {
            push_this_object(alloc, scene, env, nodes, place, class)
        }
        ReceiverAt::OnClass(_) => nodes.push_operands(ListNode::Empty),
        ReceiverAt::OnOuter(_) => nodes.push_operands(ListNode::Empty),
    }
}

// What is evaluated and dropped before a static method.
#[tactic(auto, using(jc_typed::proofs::Growing::growing))]
fn push_dropped(nodes: &mut Nodes, receiver: ReceiverAt) -> Result<u32, WantOfMemory>
    requires { IsReceiver nodes.old receiver }
    ensures value { IfOk result (λ r. operands_of nodes.new r ≡ dropped_operand (receiver_of nodes.old receiver)) }
    ensures within { IfOk result (λ r. r < length nodes.new) }
    ensures grows { Grows nodes.old nodes.new }
{
    match receiver {
        ReceiverAt::OnValue(settled) => push_one_operand(nodes, settled.part.at),
        _ => nodes.push_operands(ListNode::Empty),
    }
}

/// What is evaluated before a call of a method.
#[tactic(auto, using(jc_typed::proofs::Growing::growing), unfolding(jc_exprs_worlds::specs::Scenes::world_of))]
pub fn push_receiver(
    alloc: Global,
    scene: &Scene,
    env: &Env,
    nodes: &mut Nodes,
    receiver: ReceiverAt,
    method: MethodId,
) -> Result<u32, WantOfMemory>
    requires { IsReceiver nodes.old receiver }
    ensures value { IfOk result (λ r. operands_of nodes.new r ≡ receiver_operands (world_of scene.now) env.now.bounds (receiver_of nodes.old receiver) method (is_static (world_of scene.now).table method)) }
    ensures within { IfOk result (λ r. r < length nodes.new) }
    ensures grows { Grows nodes.old nodes.new }
{
    if is_static(scene.table, method) {
        return push_dropped(nodes, receiver);
    }
    push_object_operand(alloc, scene, env, nodes, receiver, method)
}
