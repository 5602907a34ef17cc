//! Conditionals (JLS 15.25).
ghost use Rattle.std.specs.Prelude.{◌<◌, ◌≡◌, IfOk, length, OnOk};
ghost use Rattle.jc_members.specs.Named.{IsMethodIndex};
ghost use Rattle.jc_typed.specs.Parts.{Grows};
ghost use Rattle.jc_exprs_nodes.specs.Walks.{has, now};
ghost use Rattle.jc_exprs_worlds.specs.Scenes.{IsWorldly, world_of};
ghost use Rattle.jc_exprs.specs.Rests.{chosen_behind};

use crate::typing::typed;
use jc_exprs_calls::Methods;
use jc_exprs_nodes::Walk;
use jc_exprs_values::{ChoiceAt, chosen_or};
use jc_rules::WantOfMemory;
use jc_tree::Expr;
use std::alloc::Global;

/// A conditional so far: its test, its first branch, and the number of captured variables before that.
#[derive(Clone, Copy)]
pub struct FirstBranch {
    pub test: u32,
    pub first: u32,
    pub from: u64,
}

/// The second branch of a conditional, and with it the whole.
#[cycle(expressions)]
#[tactic(auto, using(jc_typed::proofs::Growing::growing, jc_exprs_nodes_spec::proofs::Runs::runs, jc_exprs_nodes::proofs::Staying::staying, jc_exprs_worlds::proofs::Told::worlds), unfolding(crate::specs::Rests::chosen_behind))]
pub fn branched(
    alloc: Global,
    methods: &Methods,
    walk: &mut Walk,
    second: &Expr,
    before: FirstBranch,
) -> Result<u32, WantOfMemory>
    requires index { IsMethodIndex methods.now.scene.now.table.now methods.now.index.now }
    requires scene { IsWorldly methods.now.scene.now }
    requires test { before.test < length walk.old.nodes }
    requires first { before.first < length walk.old.nodes }
    ensures state { OnOk result ((chosen_behind (world_of methods.now.scene.now) (has walk.old.nodes before.test) (has walk.old.nodes before.first) before.from second.now (now walk.old)).state ≡ now walk.new) }
    ensures value { IfOk result (λ at. (chosen_behind (world_of methods.now.scene.now) (has walk.old.nodes before.test) (has walk.old.nodes before.first) before.from second.now (now walk.old)).has ≡ has walk.new.nodes at) }
    ensures within { IfOk result (λ at. at < length walk.new.nodes) }
    ensures grows { Grows walk.old.nodes walk.new.nodes }
{
    let second = typed(alloc, methods, walk, None, second)?;
    let choice = ChoiceAt {
        test: before.test,
        first: before.first,
        second,
        from: before.from,
    };
    chosen_or(alloc, methods.scene.table, walk, choice)
}
