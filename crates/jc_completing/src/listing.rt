//! The places of statements and tests, the last first.
ghost use Rattle.std.specs.Prelude.{◌≡◌, [], IfOk, OnOk};
ghost use Rattle.jc_typed.specs.Parts.{arms_of, stmts_of};
ghost use Rattle.jc_meaning.specs.Programs.{stmt_list, stmts_before};
ghost use Rattle.jc_places.specs.Sorts.{arms_before};
ghost use Rattle.jc_pending.specs.Level.{arms_back, stmts_back};

use jc_places::{ArmPlaces, arms_node, stmts_node};
use jc_rules::{Items, WantOfMemory};
use jc_typed::{ArmsNode, ListNode, Nodes};
use std::alloc::Global;

/// Adds the places of a list's statements, the last first, so that they come before those that stand there.
#[tactic(auto, using(jc_places::proofs::Turned::turned))]
pub fn add_stmts(nodes: &Nodes, at: u32, out: &mut Items<u32>) -> Result<(), WantOfMemory>
    ensures { OnOk result (stmts_back nodes.now out.new ≡ stmts_before (stmts_of nodes.now at) (stmts_back nodes.now out.old)) }
{
    let mut list = at;
    while let ListNode::More { before, last } = stmts_node(nodes, list) {
        out.push(last)?;
        list = before;
    }
    Ok(())
}

/// The places of the statements of a list, the last first.
pub fn stmts_back(alloc: Global, nodes: &Nodes, at: u32) -> Result<Items<u32>, WantOfMemory>
    ensures { IfOk result (λ r. stmts_back nodes.now r ≡ stmt_list (stmts_of nodes.now at)) }
{
    let mut out = Items::new(alloc);
    add_stmts(nodes, at, &mut out)?;
    Ok(out)
}

/// The tests of an `if`, the last first.
#[tactic(auto, using(jc_places::proofs::Turned::turned))]
pub fn arms_back(alloc: Global, nodes: &Nodes, at: u32) -> Result<Items<ArmPlaces>, WantOfMemory>
    ensures { IfOk result (λ r. arms_before (arms_of nodes.now at) [] ≡ arms_back nodes.now r) }
{
    let mut out = Items::new(alloc);
    let mut list = at;
    while let ArmsNode::More { before, test, then } = arms_node(nodes, list) {
        out.push(ArmPlaces { test, then })?;
        list = before;
    }
    Ok(out)
}
