//! The places of the members of lists, in order.
ghost use Rattle.std.specs.Prelude.{◌≡◌, [], IfOk, map, reverse};
ghost use Rattle.jc_typed.specs.Parts.{types_of, type_of, captures_of, case_over, cases_of, catches_of, parts};
ghost use Rattle.jc_places.specs.Sorts.{catch_of, catches_before};

use crate::nodes::{captures_node, cases_node, catches_node, types_node};
use crate::sorts::CatchPlaces;
use jc_rules::{Items, WantOfMemory};
use jc_typed::{Capture, CapturesNode, Case, CasesNode, CatchesNode, ListNode, Nodes};
use std::alloc::Global;

// The items in their reverse order.
fn turned<T: Drop>(items: Items<T>) -> Items<T>
    ensures { result ≡ reverse items }
{
    let mut list = items.into_vec();
    list.reverse();
    Items::of(list)
}

#[tactic(auto, using(crate::proofs::Turned::turned))]
pub fn type_list(alloc: Global, nodes: &Nodes, at: u32) -> Result<Items<u32>, WantOfMemory>
    ensures { IfOk result (λ r. types_of nodes.now at ≡ map (type_of nodes.now) r) }
{
    let mut out = Items::new(alloc);
    let mut list = at;
    while let ListNode::More { before, last } = types_node(nodes, list) {
        out.push(last)?;
        list = before;
    }
    Ok(turned(out))
}

#[tactic(auto, using(crate::proofs::Turned::turned))]
pub fn capture_list(alloc: Global, nodes: &Nodes, at: u32) -> Result<Items<Capture>, WantOfMemory>
    ensures { IfOk result (λ r. captures_of nodes.now at ≡ r) }
{
    let mut out = Items::new(alloc);
    let mut list = at;
    while let CapturesNode::More { before, last } = captures_node(nodes, list) {
        out.push(last)?;
        list = before;
    }
    Ok(turned(out))
}

#[tactic(auto, using(crate::proofs::Turned::turned))]
pub fn case_list(alloc: Global, nodes: &Nodes, at: u32) -> Result<Items<Case>, WantOfMemory>
    ensures { IfOk result (λ r. cases_of nodes.now at ≡ map (case_over (parts nodes.now)) r) }
{
    let mut out = Items::new(alloc);
    let mut list = at;
    while let CasesNode::More { before, last } = cases_node(nodes, list) {
        out.push(last)?;
        list = before;
    }
    Ok(turned(out))
}

#[tactic(auto, using(crate::proofs::Turned::turned))]
pub fn catch_list(alloc: Global, nodes: &Nodes, at: u32) -> Result<Items<CatchPlaces>, WantOfMemory>
    ensures { IfOk result (λ r. catches_before (catches_of nodes.now at) [] ≡ map (catch_of nodes.now) r) }
{
    let mut out = Items::new(alloc);
    let mut list = at;
    while let CatchesNode::More {
        before,
        local,
        types,
        body,
        ..
    } = catches_node(nodes, list)
    {
        out.push(CatchPlaces { local, types, body })?;
        list = before;
    }
    Ok(turned(out))
}
