//! Assignments (JLS 15.26): the right side is asked by the type of the left one, where that is told.
ghost use Rattle.std.specs.Prelude.{◌<◌, ◌≡◌, IfOk, length, OnOk};
ghost use Rattle.jc_members.specs.Named.{IsMethodIndex};
ghost use Rattle.jc_typed.specs.Parts.{Grows};
ghost use Rattle.jc_exprs_nodes.specs.Walks.{has, now};
ghost use Rattle.jc_exprs_spec.specs.Typing.{aimed};
ghost use Rattle.jc_exprs_starts.specs.Wanted.{wanted_in, WantedBelow};
ghost use Rattle.jc_exprs_worlds.specs.Scenes.{IsWorldly, world_of};
ghost use Rattle.jc_exprs_targets.specs.Targets.{has_target, TargetBelow};
ghost use Rattle.jc_exprs.specs.Rests.{assigned_behind};

use crate::typing::typed;
use jc_exprs_assigning::{compound_parts, stored_parts};
use jc_exprs_calls::Methods;
use jc_exprs_nodes::Walk;
use jc_exprs_starts::aimed;
use jc_exprs_targets::TargetAt;
use jc_rules::WantOfMemory;
use jc_tree::{BinaryOp, Expr};
use jc_typed::Nodes;
use std::alloc::Global;

// The type of a variable, where that is told.
fn aimed_at(nodes: &Nodes, target: Option<TargetAt>) -> Option<u32>
    requires { TargetBelow (length nodes.now) target }
    ensures value { wanted_in nodes.now result ≡ aimed (has_target nodes.now target) }
    ensures below { WantedBelow (length nodes.now) result }
{
    aimed(target)
}

/// A value that is assigned to a variable, by an operator if it is a compound assignment.
#[cycle(expressions)]
#[tactic(auto, using(jc_typed::proofs::Growing::growing, jc_exprs_nodes_spec::proofs::Runs::runs, jc_exprs_nodes::proofs::Staying::staying, jc_exprs_targets::proofs::Staying::targets_stay, jc_exprs_worlds::proofs::Told::worlds), unfolding(crate::specs::Rests::assigned_behind))]
pub fn assigned_value(
    alloc: Global,
    methods: &Methods,
    walk: &mut Walk,
    value: &Expr,
    op: Option<BinaryOp>,
    target: Option<TargetAt>,
) -> Result<u32, WantOfMemory>
    requires index { IsMethodIndex methods.now.scene.now.table.now methods.now.index.now }
    requires scene { IsWorldly methods.now.scene.now }
    requires target { TargetBelow (length walk.old.nodes) target }
    ensures state { OnOk result ((assigned_behind (world_of methods.now.scene.now) (has_target walk.old.nodes target) op value.now (now walk.old)).state ≡ now walk.new) }
    ensures value { IfOk result (λ at. (assigned_behind (world_of methods.now.scene.now) (has_target walk.old.nodes target) op value.now (now walk.old)).has ≡ has walk.new.nodes at) }
    ensures within { IfOk result (λ at. at < length walk.new.nodes) }
    ensures grows { Grows walk.old.nodes walk.new.nodes }
{
    let table = methods.scene.table;
    match op {
        None => {
            let wanted = aimed_at(&walk.nodes, target);
            let right = typed(alloc, methods, walk, wanted, value)?;
            stored_parts(alloc, table, walk, target, right)
        }
        Some(op) => {
            let right = typed(alloc, methods, walk, None, value)?;
            compound_parts(alloc, table, walk, op, target, right)
        }
    }
}
