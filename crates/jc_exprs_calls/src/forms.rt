//! The form of a call whose method is chosen (JLS 15.12.3).
ghost use Rattle.std.specs.Prelude.{◌≡◌, ◌<◌, IfOk, length, map};
ghost use Rattle.jc_typed.specs.Parts.{BelowForm, Grows, form_over, parts, types_of};
ghost use Rattle.jc_exprs_nodes.specs.Walks.{known};
ghost use Rattle.jc_exprs_gathering.specs.Gathered.{AllParts};
ghost use Rattle.jc_exprs_spec.specs.Calls.{is_raw_call};
ghost use Rattle.jc_exprs_worlds.specs.Scenes.{world_of};
ghost use Rattle.jc_exprs_calls.specs.Receivers.{IsReceiver, call_form, receiver_of};

use crate::objects::push_receiver;
use crate::receivers::{ReceiverAt, call_kind, searched};
use jc_exprs_fields::is_raw_as;
use jc_exprs_nodes::Judging;
use jc_exprs_passing::{push_arguments, push_type_list};
use jc_exprs_worlds::Scene;
use jc_members::{is_static, owner};
use jc_resolve::Chosen;
use jc_rules::{Place, WantOfMemory};
use jc_typed::{ExprForm, Nodes};
use jc_types::{Env, MethodId};
use std::alloc::Global;

/// A call: its first token, what stands before it, and the places of its arguments in the arena.
#[derive(Clone, Copy)]
pub struct Calling<'a> {
    pub place: Place,
    pub receiver: ReceiverAt,
    pub args: &'a [u32],
}

/// Whether the receiver's view as a method's class is raw; static methods are as they are declared.
#[tactic(auto, unfolding(jc_exprs_worlds::specs::Scenes::world_of))]
pub fn is_raw_call(
    alloc: Global,
    scene: &Scene,
    nodes: &Nodes,
    receiver: ReceiverAt,
    method: MethodId,
) -> Result<bool, WantOfMemory>
    requires { IsReceiver nodes.now receiver }
    ensures { IfOk result (λ r. r ≡ is_raw_call (world_of scene.now) (receiver_of nodes.now receiver) method) }
{
    if is_static(scene.table, method) {
        return Ok(false);
    }
    let ty = searched(alloc, scene, nodes, receiver)?;
    is_raw_as(alloc, scene.table, &ty, owner(scene.table, method))
}

// The type arguments of a call of a chosen method.
fn push_type_args(alloc: Global, nodes: &mut Nodes, chosen: &Chosen) -> Result<u32, WantOfMemory>
    ensures value { IfOk result (λ at. types_of nodes.new at ≡ chosen.now.type_args) }
    ensures within { IfOk result (λ at. at < length nodes.new) }
    ensures grows { Grows nodes.old nodes.new }
{
    push_type_list(alloc, nodes, chosen.type_args.slice())
}

// What it throws.
fn push_thrown(alloc: Global, nodes: &mut Nodes, chosen: &Chosen) -> Result<u32, WantOfMemory>
    ensures value { IfOk result (λ at. types_of nodes.new at ≡ chosen.now.thrown) }
    ensures within { IfOk result (λ at. at < length nodes.new) }
    ensures grows { Grows nodes.old nodes.new }
{
    push_type_list(alloc, nodes, chosen.thrown.slice())
}

/// The form of a call of a chosen method.
#[tactic(auto, using(jc_typed::proofs::Growing::growing, jc_exprs_gathering::proofs::Gathering::gathering))]
pub fn push_call_form(
    alloc: Global,
    scene: &Scene,
    env: &Env,
    nodes: &mut Nodes,
    call: &Calling,
    chosen: &Chosen,
) -> Result<ExprForm, WantOfMemory>
    requires receiver { IsReceiver nodes.old call.now.receiver }
    requires args { AllParts nodes.old call.now.args.now }
    ensures value { IfOk result (λ form. form_over (parts nodes.new) form ≡ call_form (world_of scene.now) env.now.bounds call.now.place (receiver_of nodes.old call.now.receiver) (map (known nodes.old) call.now.args.now) chosen.now) }
    ensures below { IfOk result (λ form. BelowForm (length nodes.new) form) }
    ensures grows { Grows nodes.old nodes.new }
{
    let method = chosen.member.id;
    let judging = Judging {
        table: scene.table,
        env,
    };
    let is_raw = is_raw_call(alloc, scene, nodes, call.receiver, method)?;
    let receiver = push_receiver(alloc, scene, env, nodes, call.receiver, method)?;
    let type_args = push_type_args(alloc, nodes, chosen)?;
    let args = push_arguments(alloc, nodes, &judging, call.place, call.args, chosen)?;
    let thrown = push_thrown(alloc, nodes, chosen)?;
    let kind = call_kind(scene.table, call.receiver, method);
    Ok(ExprForm::Call {
        kind,
        receiver,
        method,
        type_args,
        args,
        phase: chosen.phase,
        thrown,
        is_raw,
    })
}
