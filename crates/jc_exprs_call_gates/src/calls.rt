//! Calls, where what stands before the point and all arguments are there.
ghost use Rattle.std.specs.Prelude.{◌≡◌, ◌<◌, IfOk, OnOk, length};
ghost use Rattle.jc_members.specs.Named.{IsMethodIndex};
ghost use Rattle.jc_typed.specs.Parts.{Grows};
ghost use Rattle.jc_exprs_nodes_spec.specs.Gates.{gated, gated_two};
ghost use Rattle.jc_exprs_nodes.specs.Walks.{AllBelow, has, now};
ghost use Rattle.jc_exprs_gathering.specs.Gathered.{has_all};
ghost use Rattle.jc_exprs_spec.specs.Calls.{call_here, call_on, call_super};
ghost use Rattle.jc_exprs_starts.specs.Wanted.{WantedBelow, wanted_in};
ghost use Rattle.jc_exprs_worlds.specs.Scenes.{IsWorldly, world_of};
ghost use Rattle.jc_exprs_calls.specs.Placing.{AreBefore, has_before};

use jc_exprs_calls::{BeforeAt, Methods, Named, call_here, call_on, call_super};
use jc_exprs_gathering::are_typed;
use jc_exprs_nodes::{Walk, missing};
use jc_rules::WantOfMemory;
use jc_tree::TypeArg;
use std::alloc::Global;

/// A call behind a point, where what stands before it is told and all of its arguments have typings.
#[tactic(auto, using(jc_exprs_gathering::proofs::Gathering::gathering))]
pub fn call_on_or(
    alloc: Global,
    methods: &Methods,
    walk: &mut Walk,
    before: Option<BeforeAt>,
    named: &Named,
    explicit: &[TypeArg],
) -> Result<u32, WantOfMemory>
    requires index { IsMethodIndex methods.now.scene.now.table.now methods.now.index.now }
    requires scene { IsWorldly methods.now.scene.now }
    requires before { AreBefore walk.old.nodes before }
    requires args { AllBelow (length walk.old.nodes) named.now.args.now }
    requires target { WantedBelow (length walk.old.nodes) named.now.target }
    ensures state { OnOk result ((gated_two (call_on (world_of methods.now.scene.now) named.now.place named.now.name.now explicit.now (wanted_in walk.old.nodes named.now.target)) (has_before walk.old.nodes before) (has_all walk.old.nodes named.now.args.now) (now walk.old)).state ≡ now walk.new) }
    ensures value { IfOk result (λ at. (gated_two (call_on (world_of methods.now.scene.now) named.now.place named.now.name.now explicit.now (wanted_in walk.old.nodes named.now.target)) (has_before walk.old.nodes before) (has_all walk.old.nodes named.now.args.now) (now walk.old)).has ≡ has walk.new.nodes at) }
    ensures within { IfOk result (λ at. at < length walk.new.nodes) }
    ensures grows { Grows walk.old.nodes walk.new.nodes }
{
    match before {
        None => missing(walk),
        Some(before) => {
            if !are_typed(&walk.nodes, named.args) {
                return missing(walk);
            }
            call_on(alloc, methods, walk, before, named, explicit)
        }
    }
}

/// An unqualified call, where all of its arguments have typings.
#[tactic(auto, using(jc_exprs_gathering::proofs::Gathering::gathering))]
pub fn call_here_or(
    alloc: Global,
    methods: &Methods,
    walk: &mut Walk,
    named: &Named,
) -> Result<u32, WantOfMemory>
    requires index { IsMethodIndex methods.now.scene.now.table.now methods.now.index.now }
    requires scene { IsWorldly methods.now.scene.now }
    requires args { AllBelow (length walk.old.nodes) named.now.args.now }
    requires target { WantedBelow (length walk.old.nodes) named.now.target }
    ensures state { OnOk result ((gated (call_here (world_of methods.now.scene.now) named.now.place named.now.name.now (wanted_in walk.old.nodes named.now.target)) (has_all walk.old.nodes named.now.args.now) (now walk.old)).state ≡ now walk.new) }
    ensures value { IfOk result (λ at. (gated (call_here (world_of methods.now.scene.now) named.now.place named.now.name.now (wanted_in walk.old.nodes named.now.target)) (has_all walk.old.nodes named.now.args.now) (now walk.old)).has ≡ has walk.new.nodes at) }
    ensures within { IfOk result (λ at. at < length walk.new.nodes) }
    ensures grows { Grows walk.old.nodes walk.new.nodes }
{
    if !are_typed(&walk.nodes, named.args) {
        return missing(walk);
    }
    call_here(alloc, methods, walk, named)
}

/// A call through `super`, where all of its arguments have typings.
#[tactic(auto, using(jc_exprs_gathering::proofs::Gathering::gathering))]
pub fn call_super_or(
    alloc: Global,
    methods: &Methods,
    walk: &mut Walk,
    named: &Named,
    explicit: &[TypeArg],
) -> Result<u32, WantOfMemory>
    requires index { IsMethodIndex methods.now.scene.now.table.now methods.now.index.now }
    requires scene { IsWorldly methods.now.scene.now }
    requires args { AllBelow (length walk.old.nodes) named.now.args.now }
    requires target { WantedBelow (length walk.old.nodes) named.now.target }
    ensures state { OnOk result ((gated (call_super (world_of methods.now.scene.now) named.now.place named.now.name.now explicit.now (wanted_in walk.old.nodes named.now.target)) (has_all walk.old.nodes named.now.args.now) (now walk.old)).state ≡ now walk.new) }
    ensures value { IfOk result (λ at. (gated (call_super (world_of methods.now.scene.now) named.now.place named.now.name.now explicit.now (wanted_in walk.old.nodes named.now.target)) (has_all walk.old.nodes named.now.args.now) (now walk.old)).has ≡ has walk.new.nodes at) }
    ensures within { IfOk result (λ at. at < length walk.new.nodes) }
    ensures grows { Grows walk.old.nodes walk.new.nodes }
{
    if !are_typed(&walk.nodes, named.args) {
        return missing(walk);
    }
    call_super(alloc, methods, walk, named, explicit)
}
