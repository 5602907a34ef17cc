//! The members of lists, which end in their last one, in an order for loops.
ghost use Rattle.std.specs.Prelude.{◌≡◌, ◌<◌, ◌≤◌, IfOk, length};
ghost use Rattle.jc_typed.specs.Parts.{stmts_of, types_of};
ghost use Rattle.jc_flow_parts.specs.Lists.{AllBelow, IsNext, stmts_by};

use jc_rules::{Items, WantOfMemory};
use jc_typed::{ListNode, Nodes};
use jc_types::{Ty, copy_type};
use std::alloc::Global;

/// The types of a list.
#[tactic(auto, using(crate::proofs::FromLast::turned))]
pub fn types_listed(alloc: Global, nodes: &Nodes, at: u32) -> Result<Items<Ty>, WantOfMemory>
    requires { at < length nodes.now }
    ensures { IfOk result (λ r. r ≡ types_of nodes.now at) }
{
    let mut out = Vec::new(alloc);
    let mut list = at;
    'types_left: loop {
        match nodes.types(list) {
            ListNode::Empty => {
                out.reverse();
                return Ok(Items::of(out));
            }
            ListNode::More { before, last } => {
                out.push(copy_type(alloc, nodes.ty(last))?)?;
                list = before;
            }
        }
    }
}

/// The places of the statements of a list, the last one first.
#[tactic(auto, using(crate::proofs::FromLast::turned))]
pub fn stmts_listed(alloc: Global, nodes: &Nodes, at: u32) -> Result<Items<u32>, WantOfMemory>
    requires { at < length nodes.now }
    ensures listed { IfOk result (λ r. stmts_of nodes.now at ≡ stmts_by nodes.now r) }
    ensures below { IfOk result (λ r. AllBelow at r) }
{
    let mut out = Items::new(alloc);
    let mut list = at;
    'stmts_left: loop {
        match nodes.stmts(list) {
            ListNode::Empty => return Ok(out),
            ListNode::More { before, last } => {
                out.push(last)?;
                list = before;
            }
        }
    }
}

/// The place of the statement in front of those that were walked, where `left` are left; `at` is the place of their list.
pub fn next_stmt(nodes: &Nodes, at: u32, places: &[u32], left: usize) -> u32
    requires below { AllBelow at places.now }
    requires some { 0 < left }
    requires within { left ≤ length places.now }
    ensures { IsNext nodes.now at places.now left result }
{
    places[left - 1]
}
