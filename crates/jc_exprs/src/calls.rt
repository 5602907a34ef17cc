//! Calls of methods (JLS 15.12).
ghost use Rattle.std.specs.Prelude.{◌<◌, ◌≡◌, IfOk, length, OnOk};
ghost use Rattle.jc_members.specs.Named.{IsMethodIndex};
ghost use Rattle.jc_typed.specs.Parts.{Grows};
ghost use Rattle.jc_exprs_nodes_spec.specs.Told.{onward, ran};
ghost use Rattle.jc_exprs_nodes.specs.Walks.{has, now};
ghost use Rattle.jc_exprs_starts.specs.Wanted.{wanted_in, WantedBelow};
ghost use Rattle.jc_exprs_worlds.specs.Scenes.{IsWorldly, world_of};
ghost use Rattle.jc_exprs_calls.specs.Placing.{AreBefore, has_before};
ghost use Rattle.jc_exprs_spec.specs.Calls.{asked};
ghost use Rattle.jc_exprs_forms.specs.Forms.{invoking, meant, super_calling};
ghost use Rattle.jc_exprs.specs.Rests.{called_behind};

use crate::lists::typed_all;
use crate::meanings::meant;
use jc_exprs_call_gates::{asked_or, call_here_or, call_on_or, call_super_or};
use jc_exprs_calls::{BeforeAt, Methods, Named};
use jc_exprs_nodes::Walk;
use jc_exprs_worlds::at;
use jc_rules::{Place, WantOfMemory};
use jc_tree::{Expr, Ident, TypeArg};
use std::alloc::Global;

/// A call whose arguments are still to be typed: where it begins, the method's name, explicit type arguments, and the type in the arena that its value is assigned to, if it is.
#[derive(Clone, Copy)]
pub struct Asking<'a> {
    pub place: Place,
    pub name: &'a Ident,
    pub explicit: &'a [TypeArg],
    pub wanted: Option<u32>,
}

/// What stands before the point of a call, which is asked before the arguments are typed.
#[cycle(expressions)]
#[tactic(auto, using(jc_typed::proofs::Growing::growing, jc_exprs_nodes_spec::proofs::Runs::runs, jc_exprs_nodes::proofs::Staying::staying))]
pub fn asked_before(
    alloc: Global,
    methods: &Methods,
    walk: &mut Walk,
    of: &Expr,
) -> Result<Option<BeforeAt>, WantOfMemory>
    requires index { IsMethodIndex methods.now.scene.now.table.now methods.now.index.now }
    requires scene { IsWorldly methods.now.scene.now }
    ensures state { OnOk result ((ran (onward (meant (world_of methods.now.scene.now) of.now) (asked (world_of methods.now.scene.now))) (now walk.old)).state ≡ now walk.new) }
    ensures value { IfOk result (λ b. (ran (onward (meant (world_of methods.now.scene.now) of.now) (asked (world_of methods.now.scene.now))) (now walk.old)).has ≡ has_before walk.new.nodes b) }
    ensures within { IfOk result (λ b. AreBefore walk.new.nodes b) }
    ensures grows { Grows walk.old.nodes walk.new.nodes }
{
    let meaning = meant(alloc, methods, walk, of)?;
    asked_or(alloc, methods.scene, walk, meaning)
}

/// A call behind a point.
#[cycle(expressions)]
#[tactic(auto, using(jc_typed::proofs::Growing::growing, jc_exprs_nodes_spec::proofs::Runs::runs, jc_exprs_nodes::proofs::Staying::staying, jc_exprs_call_gates::proofs::Staying::before_staying, jc_exprs_starts::proofs::Staying::wanted), unfolding(crate::specs::Rests::called_behind))]
pub fn called_on(
    alloc: Global,
    methods: &Methods,
    walk: &mut Walk,
    actuals: &[Expr],
    asking: &Asking,
    before: Option<BeforeAt>,
) -> Result<u32, WantOfMemory>
    requires index { IsMethodIndex methods.now.scene.now.table.now methods.now.index.now }
    requires scene { IsWorldly methods.now.scene.now }
    requires wanted { WantedBelow (length walk.old.nodes) asking.now.wanted }
    requires before { AreBefore walk.old.nodes before }
    ensures state { OnOk result ((called_behind (world_of methods.now.scene.now) asking.now.place asking.now.explicit.now asking.now.name.now.text (wanted_in walk.old.nodes asking.now.wanted) (has_before walk.old.nodes before) actuals.now (now walk.old)).state ≡ now walk.new) }
    ensures value { IfOk result (λ at. (called_behind (world_of methods.now.scene.now) asking.now.place asking.now.explicit.now asking.now.name.now.text (wanted_in walk.old.nodes asking.now.wanted) (has_before walk.old.nodes before) actuals.now (now walk.old)).has ≡ has walk.new.nodes at) }
    ensures within { IfOk result (λ at. at < length walk.new.nodes) }
    ensures grows { Grows walk.old.nodes walk.new.nodes }
{
    let args = typed_all(alloc, methods, walk, actuals)?;
    let named = Named {
        place: asking.place,
        name: &asking.name.text,
        args: args.slice(),
        target: asking.wanted,
    };
    call_on_or(alloc, methods, walk, before, &named, asking.explicit)
}

/// A call through `super`, which stands at an offset.
#[cycle(expressions)]
#[tactic(auto, using(jc_typed::proofs::Growing::growing, jc_exprs_nodes_spec::proofs::Runs::runs, jc_exprs_nodes::proofs::Staying::staying, jc_exprs_starts::proofs::Staying::wanted))]
pub fn called_super(
    alloc: Global,
    methods: &Methods,
    walk: &mut Walk,
    actuals: &[Expr],
    n: u32,
    asking: &Asking,
) -> Result<u32, WantOfMemory>
    requires index { IsMethodIndex methods.now.scene.now.table.now methods.now.index.now }
    requires scene { IsWorldly methods.now.scene.now }
    requires wanted { WantedBelow (length walk.old.nodes) asking.now.wanted }
    ensures state { OnOk result ((ran (super_calling (world_of methods.now.scene.now) n asking.now.explicit.now asking.now.name.now actuals.now (wanted_in walk.old.nodes asking.now.wanted)) (now walk.old)).state ≡ now walk.new) }
    ensures value { IfOk result (λ at. (ran (super_calling (world_of methods.now.scene.now) n asking.now.explicit.now asking.now.name.now actuals.now (wanted_in walk.old.nodes asking.now.wanted)) (now walk.old)).has ≡ has walk.new.nodes at) }
    ensures within { IfOk result (λ at. at < length walk.new.nodes) }
    ensures grows { Grows walk.old.nodes walk.new.nodes }
{
    let args = typed_all(alloc, methods, walk, actuals)?;
    let named = Named {
        place: at(methods.scene, n),
        name: &asking.name.text,
        args: args.slice(),
        target: asking.wanted,
    };
    call_super_or(alloc, methods, walk, &named, asking.explicit)
}

/// An unqualified call.
#[cycle(expressions)]
#[tactic(auto, using(jc_typed::proofs::Growing::growing, jc_exprs_nodes_spec::proofs::Runs::runs, jc_exprs_nodes::proofs::Staying::staying, jc_exprs_starts::proofs::Staying::wanted))]
pub fn invoked(
    alloc: Global,
    methods: &Methods,
    walk: &mut Walk,
    actuals: &[Expr],
    name: &Ident,
    wanted: Option<u32>,
) -> Result<u32, WantOfMemory>
    requires index { IsMethodIndex methods.now.scene.now.table.now methods.now.index.now }
    requires scene { IsWorldly methods.now.scene.now }
    requires wanted { WantedBelow (length walk.old.nodes) wanted }
    ensures state { OnOk result ((ran (invoking (world_of methods.now.scene.now) name.now actuals.now (wanted_in walk.old.nodes wanted)) (now walk.old)).state ≡ now walk.new) }
    ensures value { IfOk result (λ at. (ran (invoking (world_of methods.now.scene.now) name.now actuals.now (wanted_in walk.old.nodes wanted)) (now walk.old)).has ≡ has walk.new.nodes at) }
    ensures within { IfOk result (λ at. at < length walk.new.nodes) }
    ensures grows { Grows walk.old.nodes walk.new.nodes }
{
    let args = typed_all(alloc, methods, walk, actuals)?;
    let named = Named {
        place: at(methods.scene, name.at),
        name: &name.text,
        args: args.slice(),
        target: wanted,
    };
    call_here_or(alloc, methods, walk, &named)
}
