//! Expressions one after another: arguments and lengths of arrays.
ghost use Rattle.std.specs.Prelude.{◌≡◌, IfOk, length, OnOk};
ghost use Rattle.jc_members.specs.Named.{IsMethodIndex};
ghost use Rattle.jc_typed.specs.Parts.{Grows};
ghost use Rattle.jc_exprs_nodes_spec.specs.Told.{every, ran};
ghost use Rattle.jc_exprs_nodes.specs.Walks.{AllBelow, now};
ghost use Rattle.jc_exprs_gathering.specs.Gathered.{has_all, walked};
ghost use Rattle.jc_exprs_worlds.specs.Scenes.{IsWorldly, world_of};
ghost use Rattle.jc_exprs_forms.specs.Forms.{typings};

use crate::typing::typed;
use jc_exprs_calls::Methods;
use jc_exprs_nodes::Walk;
use jc_rules::{Items, WantOfMemory};
use jc_tree::Expr;
use std::alloc::Global;

/// Expressions behind others that are typed.
#[cycle(expressions)]
#[tactic(auto, using(jc_typed::proofs::Growing::growing, jc_exprs_nodes_spec::proofs::Runs::runs, jc_exprs_nodes::proofs::Staying::staying, jc_exprs_gathering::proofs::Gathering::gathering))]
pub fn typed_onto(
    alloc: Global,
    methods: &Methods,
    walk: &mut Walk,
    es: &[Expr],
    before: Items<u32>,
) -> Result<Items<u32>, WantOfMemory>
    requires index { IsMethodIndex methods.now.scene.now.table.now methods.now.index.now }
    requires scene { IsWorldly methods.now.scene.now }
    requires before { AllBelow (length walk.old.nodes) before }
    ensures state { OnOk result ((walked (has_all walk.old.nodes before) (typings (world_of methods.now.scene.now) es.now) (now walk.old)).state ≡ now walk.new) }
    ensures value { IfOk result (λ ats. (walked (has_all walk.old.nodes before) (typings (world_of methods.now.scene.now) es.now) (now walk.old)).has ≡ has_all walk.new.nodes ats) }
    ensures within { IfOk result (λ ats. AllBelow (length walk.new.nodes) ats) }
    ensures grows { Grows walk.old.nodes walk.new.nodes }
{
    let mut ats = before;
    for e in es {
        let at = typed(alloc, methods, walk, None, e)?;
        ats.push(at)?;
    }
    Ok(ats)
}

/// All of these expressions.
#[cycle(expressions)]
#[tactic(auto, using(jc_typed::proofs::Growing::growing, jc_exprs_nodes_spec::proofs::Runs::runs, jc_exprs_nodes::proofs::Staying::staying, jc_exprs_gathering::proofs::Gathering::gathering, jc_exprs_gathering::proofs::Gathering::walking))]
pub fn typed_all(
    alloc: Global,
    methods: &Methods,
    walk: &mut Walk,
    es: &[Expr],
) -> Result<Items<u32>, WantOfMemory>
    requires index { IsMethodIndex methods.now.scene.now.table.now methods.now.index.now }
    requires scene { IsWorldly methods.now.scene.now }
    ensures state { OnOk result ((ran (every (typings (world_of methods.now.scene.now) es.now)) (now walk.old)).state ≡ now walk.new) }
    ensures value { IfOk result (λ ats. (ran (every (typings (world_of methods.now.scene.now) es.now)) (now walk.old)).has ≡ has_all walk.new.nodes ats) }
    ensures within { IfOk result (λ ats. AllBelow (length walk.new.nodes) ats) }
    ensures grows { Grows walk.old.nodes walk.new.nodes }
{
    typed_onto(alloc, methods, walk, es, Items::new(alloc))
}
