//! Chains of binary operators (JLS 15.7.3).
ghost use Rattle.std.specs.Prelude.{◌<◌, ◌≡◌, IfOk, length, None, OnOk};
ghost use Rattle.jc_members.specs.Named.{IsMethodIndex};
ghost use Rattle.jc_typed.specs.Parts.{Grows};
ghost use Rattle.jc_exprs_nodes.specs.Walks.{has, now};
ghost use Rattle.jc_exprs_spec.specs.Typing.{Binary, InstanceOf, typing};
ghost use Rattle.jc_exprs_worlds.specs.Scenes.{IsWorldly, world_of};
ghost use Rattle.jc_exprs_forms.specs.Forms.{further};
ghost use Rattle.jc_exprs_forms.specs.Walking.{joined_step};
ghost use Rattle.jc_exprs_chains.specs.Chaining.{has_joined, JoinedIn};
ghost use Rattle.jc_exprs.specs.Rests.{chained_behind};

use crate::typing::typed;
use jc_exprs_calls::Methods;
use jc_exprs_chains::{JoinedAt, Spanned, finished, first_joined, joined_more, tested_more};
use jc_exprs_nodes::Walk;
use jc_exprs_worlds::{Scene, written};
use jc_rules::WantOfMemory;
use jc_tree::{BinaryOp, Expr, Operand, TypeTree};
use std::alloc::Global;

// `instanceof`.
#[tactic(auto, using(jc_exprs_worlds::proofs::Told::worlds))]
fn tested(
    alloc: Global,
    scene: &Scene,
    walk: &mut Walk,
    joined: Option<JoinedAt>,
    ty: &TypeTree,
) -> Result<Option<JoinedAt>, WantOfMemory>
    requires scene { IsWorldly scene.now }
    requires joined { JoinedIn walk.old.nodes joined }
    ensures state { OnOk result ((joined_step (world_of scene.now) (record { state = now walk.old; has = has_joined walk.old.nodes joined }) (InstanceOf ty.now)).state ≡ now walk.new) }
    ensures value { IfOk result (λ j. (joined_step (world_of scene.now) (record { state = now walk.old; has = has_joined walk.old.nodes joined }) (InstanceOf ty.now)).has ≡ has_joined walk.new.nodes j) }
    ensures joined { IfOk result (λ j. JoinedIn walk.new.nodes j) }
    ensures grows { Grows walk.old.nodes walk.new.nodes }
{
    let ty = written(alloc, scene, ty)?;
    tested_more(alloc, scene.table, walk, &ty, joined)
}

// An operator with the operand on its right.
#[cycle(expressions)]
#[tactic(auto, using(jc_typed::proofs::Growing::growing, jc_exprs_nodes_spec::proofs::Runs::runs, jc_exprs_nodes::proofs::Staying::staying, jc_exprs_chains::proofs::Staying::chains_stay, jc_exprs_worlds::proofs::Told::worlds))]
fn joined_with(
    alloc: Global,
    methods: &Methods,
    walk: &mut Walk,
    right: &Expr,
    op: BinaryOp,
    joined: Option<JoinedAt>,
) -> Result<Option<JoinedAt>, WantOfMemory>
    requires index { IsMethodIndex methods.now.scene.now.table.now methods.now.index.now }
    requires scene { IsWorldly methods.now.scene.now }
    requires joined { JoinedIn walk.old.nodes joined }
    ensures state { OnOk result ((joined_step (world_of methods.now.scene.now) (record { state = now walk.old; has = has_joined walk.old.nodes joined }) (Binary op (typing (world_of methods.now.scene.now) None right.now))).state ≡ now walk.new) }
    ensures value { IfOk result (λ j. (joined_step (world_of methods.now.scene.now) (record { state = now walk.old; has = has_joined walk.old.nodes joined }) (Binary op (typing (world_of methods.now.scene.now) None right.now))).has ≡ has_joined walk.new.nodes j) }
    ensures joined { IfOk result (λ j. JoinedIn walk.new.nodes j) }
    ensures grows { Grows walk.old.nodes walk.new.nodes }
{
    let from = walk.env.bounds.len() as u64;
    let at = typed(alloc, methods, walk, None, right)?;
    let up_to = walk.env.bounds.len() as u64;
    let right = Spanned { at, from, up_to };
    joined_more(alloc, methods.scene.table, walk, op, joined, right)
}

// An operator of a chain more, with what stands on its right.
#[cycle(expressions)]
#[tactic(auto, using(jc_typed::proofs::Growing::growing, jc_exprs_nodes_spec::proofs::Runs::runs, jc_exprs_nodes::proofs::Staying::staying, jc_exprs_forms::proofs::ByForms::by_further))]
fn joined_behind(
    alloc: Global,
    methods: &Methods,
    walk: &mut Walk,
    operand: &Operand,
    joined: Option<JoinedAt>,
) -> Result<Option<JoinedAt>, WantOfMemory>
    requires index { IsMethodIndex methods.now.scene.now.table.now methods.now.index.now }
    requires scene { IsWorldly methods.now.scene.now }
    requires joined { JoinedIn walk.old.nodes joined }
    ensures state { OnOk result ((joined_step (world_of methods.now.scene.now) (record { state = now walk.old; has = has_joined walk.old.nodes joined }) (further (world_of methods.now.scene.now) operand.now)).state ≡ now walk.new) }
    ensures value { IfOk result (λ j. (joined_step (world_of methods.now.scene.now) (record { state = now walk.old; has = has_joined walk.old.nodes joined }) (further (world_of methods.now.scene.now) operand.now)).has ≡ has_joined walk.new.nodes j) }
    ensures joined { IfOk result (λ j. JoinedIn walk.new.nodes j) }
    ensures grows { Grows walk.old.nodes walk.new.nodes }
{
    match operand {
        Operand::Binary { op, right } => joined_with(alloc, methods, walk, right, *op, joined),
        Operand::InstanceOf { ty } => tested(alloc, methods.scene, walk, joined, ty.get()),
    }
}

/// A chain behind its first operand: each operator more.
#[cycle(expressions)]
#[tactic(auto, using(jc_typed::proofs::Growing::growing, jc_exprs_nodes_spec::proofs::Runs::runs, jc_exprs_nodes::proofs::Staying::staying), unfolding(crate::specs::Rests::chained_behind))]
pub fn chained(
    alloc: Global,
    methods: &Methods,
    walk: &mut Walk,
    rest: &[Operand],
    first: u32,
) -> Result<u32, WantOfMemory>
    requires index { IsMethodIndex methods.now.scene.now.table.now methods.now.index.now }
    requires scene { IsWorldly methods.now.scene.now }
    requires first { first < length walk.old.nodes }
    ensures state { OnOk result ((chained_behind (world_of methods.now.scene.now) (has walk.old.nodes first) rest.now (now walk.old)).state ≡ now walk.new) }
    ensures value { IfOk result (λ at. (chained_behind (world_of methods.now.scene.now) (has walk.old.nodes first) rest.now (now walk.old)).has ≡ has walk.new.nodes at) }
    ensures within { IfOk result (λ at. at < length walk.new.nodes) }
    ensures grows { Grows walk.old.nodes walk.new.nodes }
{
    let mut joined = first_joined(&walk.nodes, first);
    for operand in rest {
        joined = joined_behind(alloc, methods, walk, operand, joined)?;
    }
    finished(&mut walk.nodes, joined)
}
