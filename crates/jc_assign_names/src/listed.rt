//! The members of lists, which end in their last one, in an order for loops.
ghost use Rattle.std.specs.Prelude.{◌≡◌, ◌<◌, ◌≤◌, IfOk, length};
ghost use Rattle.jc_typed.specs.Parts.{links_of, names_of, operands_of};
ghost use Rattle.jc_assign_names.specs.Lists.{AllBelow, IsNext, named_by, operands_by, rights};

use jc_rules::{Items, Place, WantOfMemory};
use jc_typed::{LinksNode, ListNode, NamesNode, Nodes};
use std::alloc::Global;

/// A local that a constant names.
#[derive(Clone, Copy, Debug)]
pub struct NameAt {
    pub place: Place,
    pub local: u32,
}

/// The places of the operands of a list, the last one first.
#[tactic(auto, using(crate::proofs::FromLast::turned))]
pub fn operands_listed(alloc: Global, nodes: &Nodes, at: u32) -> Result<Items<u32>, WantOfMemory>
    requires { at < length nodes.now }
    ensures listed { IfOk result (λ r. operands_of nodes.now at ≡ operands_by nodes.now r) }
    ensures below { IfOk result (λ r. AllBelow at r) }
{
    let mut out = Items::new(alloc);
    let mut list = at;
    'operands_left: loop {
        match nodes.operands(list) {
            ListNode::Empty => return Ok(out),
            ListNode::More { before, last } => {
                out.push(last)?;
                list = before;
            }
        }
    }
}

/// The places of the right operands of a chain, the last one first.
#[tactic(auto, using(crate::proofs::FromLast::turned))]
pub fn links_listed(alloc: Global, nodes: &Nodes, at: u32) -> Result<Items<u32>, WantOfMemory>
    requires { at < length nodes.now }
    ensures listed { IfOk result (λ r. rights (links_of nodes.now at) ≡ operands_by nodes.now r) }
    ensures below { IfOk result (λ r. AllBelow at r) }
{
    let mut out = Items::new(alloc);
    let mut list = at;
    'links_left: loop {
        match nodes.links(list) {
            LinksNode::Empty => return Ok(out),
            LinksNode::More { before, right, .. } => {
                out.push(right)?;
                list = before;
            }
        }
    }
}

/// The place of the operand in front of those that were walked, where `left` are left; `at` is the place of their list.
pub fn next_operand(nodes: &Nodes, at: u32, places: &[u32], left: usize) -> u32
    requires below { AllBelow at places.now }
    requires some { 0 < left }
    requires within { left ≤ length places.now }
    ensures { IsNext nodes.now at places.now left result }
{
    places[left - 1]
}

/// The locals that a constant names.
#[tactic(auto, using(crate::proofs::FromLast::turned))]
pub fn names_listed(alloc: Global, nodes: &Nodes, at: u32) -> Result<Items<NameAt>, WantOfMemory>
    requires { at < length nodes.now }
    ensures { IfOk result (λ r. named_by r ≡ names_of nodes.now at) }
{
    let mut out = Vec::new(alloc);
    let mut list = at;
    'names_left: loop {
        match nodes.names(list) {
            NamesNode::Empty => {
                out.reverse();
                return Ok(Items::of(out));
            }
            NamesNode::More {
                before,
                place,
                local,
            } => {
                out.push(NameAt { place, local })?;
                list = before;
            }
        }
    }
}
