//! A call of a method by its name (JLS 15.12.2, 15.12.3).
ghost use Rattle.std.specs.Prelude.{◌≡◌, ◌<◌, IfOk, List, OnOk, length, map};
ghost use Rattle.jc_typed.specs.declared.nodes.Node.{Node};
ghost use Rattle.jc_members.specs.Named.{IsMethodIndex};
ghost use Rattle.jc_typed.specs.Parts.{Grows};
ghost use Rattle.jc_exprs_nodes_spec.specs.Told.{ran};
ghost use Rattle.jc_exprs_nodes.specs.Walks.{has, known, now};
ghost use Rattle.jc_exprs_gathering.specs.Gathered.{AllParts};
ghost use Rattle.jc_exprs_spec.specs.Calls.{call_breaks, call_typed, called, called_with};
ghost use Rattle.jc_exprs_worlds.specs.Scenes.{IsWorldly, world_of};
ghost use Rattle.jc_exprs_choosing.specs.Breaking.{breaks_of};
ghost use Rattle.jc_exprs_choosing.specs.Choosing.{TypeBelow, type_if};
ghost use Rattle.jc_exprs_calls.specs.Receivers.{IsReceiver, receiver_of};
ghost use Rattle.jc_exprs_calls.specs.Calling.{method_in};

use crate::asking::{Methods, Named};
use crate::breaking::{receiver_break, super_break};
use crate::explicit::{accessible, explicit_break, explicit_types};
use crate::forms::{Calling, push_call_form};
use crate::members::methods_by;
use crate::receivers::{ReceiverAt, is_by_bounds, is_super, searched};
use crate::results::{valued_call, void_call};
use jc_exprs_choosing::{Among, Broken, broken_of, call_site, chosen, refused_by};
use jc_exprs_nodes::{Walk, missing};
use jc_exprs_worlds::Scene;
use jc_members::{is_abstract, is_static};
use jc_resolve::Chosen;
use jc_rules::WantOfMemory;
use jc_tree::TypeArg;
use jc_types::MethodId;
use std::alloc::Global;

// A call of a chosen method that breaks no rule.
#[tactic(auto, using(jc_typed::proofs::Growing::growing), unfolding(jc_exprs_worlds::specs::Scenes::world_of))]
fn call_typed(
    alloc: Global,
    scene: &Scene,
    walk: &mut Walk,
    call: &Calling,
    chosen: &Chosen,
) -> Result<u32, WantOfMemory>
    requires receiver { IsReceiver walk.old.nodes call.now.receiver }
    requires args { AllParts walk.old.nodes call.now.args.now }
    ensures state { OnOk result ((ran (call_typed (world_of scene.now) walk.old.env.bounds call.now.place (receiver_of walk.old.nodes call.now.receiver) (map (known walk.old.nodes) call.now.args.now) chosen.now chosen.now.result) (now walk.old)).state ≡ now walk.new) }
    ensures value { IfOk result (λ at. (ran (call_typed (world_of scene.now) walk.old.env.bounds call.now.place (receiver_of walk.old.nodes call.now.receiver) (map (known walk.old.nodes) call.now.args.now) chosen.now chosen.now.result) (now walk.old)).has ≡ has walk.new.nodes at) }
    ensures within { IfOk result (λ at. at < length walk.new.nodes) }
    ensures grows { Grows walk.old.nodes walk.new.nodes }
{
    let form = push_call_form(alloc, scene, &walk.env, &mut walk.nodes, call, chosen)?;
    match &chosen.result {
        None => void_call(walk, call.place, form),
        Some(ty) => valued_call(
            alloc,
            scene.table,
            walk,
            call.place,
            chosen.member.id,
            ty,
            form,
        ),
    }
}

// What a call of a method breaks.
#[tactic(auto, unfolding(jc_exprs_worlds::specs::Scenes::world_of))]
fn call_broken(scene: &Scene, call: &Calling, method: MethodId) -> Option<Broken>
    ensures { (ns : List Node) → call_breaks (world_of scene.now) call.now.place (receiver_of ns call.now.receiver) method ≡ breaks_of result }
{
    let is_static = is_static(scene.table, method);
    let is_abstract = is_abstract(scene.table, method);
    let first = receiver_break(scene, call.place, call.receiver, is_static);
    let through_super = is_super(call.receiver);
    let second = super_break(call.place, through_super, is_abstract);
    broken_of(first, second)
}

/// A call of a chosen method: 611, 620 and 621 where it wants an instance or a body.
#[tactic(auto, using(crate::proofs::Callings::called_laws))]
pub fn called_with(
    alloc: Global,
    scene: &Scene,
    walk: &mut Walk,
    call: &Calling,
    chosen: &Chosen,
) -> Result<u32, WantOfMemory>
    requires receiver { IsReceiver walk.old.nodes call.now.receiver }
    requires args { AllParts walk.old.nodes call.now.args.now }
    ensures state { OnOk result ((ran (called_with (world_of scene.now) call.now.place (receiver_of walk.old.nodes call.now.receiver) (map (known walk.old.nodes) call.now.args.now) chosen.now) (now walk.old)).state ≡ now walk.new) }
    ensures value { IfOk result (λ at. (ran (called_with (world_of scene.now) call.now.place (receiver_of walk.old.nodes call.now.receiver) (map (known walk.old.nodes) call.now.args.now) chosen.now) (now walk.old)).has ≡ has walk.new.nodes at) }
    ensures within { IfOk result (λ at. at < length walk.new.nodes) }
    ensures grows { Grows walk.old.nodes walk.new.nodes }
{
    match call_broken(scene, call, chosen.member.id) {
        Some(broken) => refused_by(walk, broken),
        None => call_typed(alloc, scene, walk, call, chosen),
    }
}

// The method that a call means.
#[tactic(auto, unfolding(jc_exprs_worlds::specs::Scenes::world_of))]
fn chosen_method(
    alloc: Global,
    methods: &Methods,
    walk: &mut Walk,
    receiver: ReceiverAt,
    named: &Named,
    explicit: &[TypeArg],
) -> Result<Option<Chosen>, WantOfMemory>
    requires index { IsMethodIndex methods.now.scene.now.table.now methods.now.index.now }
    requires scene { IsWorldly methods.now.scene.now }
    requires receiver { IsReceiver walk.old.nodes receiver }
    requires args { AllParts walk.old.nodes named.now.args.now }
    requires target { TypeBelow walk.old.nodes named.now.target }
    ensures state { OnOk result ((ran (method_in (world_of methods.now.scene.now) named.now.place (receiver_of walk.old.nodes receiver) named.now.name.now explicit.now (map (known walk.old.nodes) named.now.args.now) (type_if walk.old.nodes named.now.target)) (now walk.old)).state ≡ now walk.new) }
    ensures value { IfOk result (λ c. (ran (method_in (world_of methods.now.scene.now) named.now.place (receiver_of walk.old.nodes receiver) named.now.name.now explicit.now (map (known walk.old.nodes) named.now.args.now) (type_if walk.old.nodes named.now.target)) (now walk.old)).has ≡ c) }
    ensures nodes { walk.new.nodes ≡ walk.old.nodes }
{
    let scene = methods.scene;
    let ty = searched(alloc, scene, &walk.nodes, receiver)?;
    let by_bounds = is_by_bounds(receiver);
    let all = methods_by(alloc, methods, by_bounds, &ty, named.name)?;
    let found = all.slice();
    let nameable = accessible(alloc, scene, &ty, found)?;
    let broken = explicit_break(alloc, scene, named.place, explicit)?;
    let explicit = explicit_types(alloc, scene, explicit)?;
    let site = call_site(
        alloc,
        &walk.nodes,
        nameable,
        explicit,
        named.args,
        named.target,
    )?;
    let among = Among {
        place: named.place,
        ty: &ty,
        members: found,
    };
    chosen(alloc, scene, walk, &among, broken, site)
}

/// A call of a method of a name behind a receiver, explicit type arguments being written or none: 623, 603, 618, 604, 605 and 606 where none is chosen, and 611, 620 and 621 where the
/// chosen one wants an instance or a body.
#[tactic(auto, using(crate::proofs::Callings::called_laws))]
pub fn called(
    alloc: Global,
    methods: &Methods,
    walk: &mut Walk,
    receiver: ReceiverAt,
    named: &Named,
    explicit: &[TypeArg],
) -> Result<u32, WantOfMemory>
    requires index { IsMethodIndex methods.now.scene.now.table.now methods.now.index.now }
    requires scene { IsWorldly methods.now.scene.now }
    requires receiver { IsReceiver walk.old.nodes receiver }
    requires args { AllParts walk.old.nodes named.now.args.now }
    requires target { TypeBelow walk.old.nodes named.now.target }
    ensures state { OnOk result ((ran (called (world_of methods.now.scene.now) named.now.place (receiver_of walk.old.nodes receiver) named.now.name.now explicit.now (map (known walk.old.nodes) named.now.args.now) (type_if walk.old.nodes named.now.target)) (now walk.old)).state ≡ now walk.new) }
    ensures value { IfOk result (λ at. (ran (called (world_of methods.now.scene.now) named.now.place (receiver_of walk.old.nodes receiver) named.now.name.now explicit.now (map (known walk.old.nodes) named.now.args.now) (type_if walk.old.nodes named.now.target)) (now walk.old)).has ≡ has walk.new.nodes at) }
    ensures within { IfOk result (λ at. at < length walk.new.nodes) }
    ensures grows { Grows walk.old.nodes walk.new.nodes }
{
    match chosen_method(alloc, methods, walk, receiver, named, explicit)? {
        None => missing(walk),
        Some(chosen) => {
            let call = Calling {
                place: named.place,
                receiver,
                args: named.args,
            };
            called_with(alloc, methods.scene, walk, &call, &chosen)
        }
    }
}
