//! Lists of named locals and of places, one behind the other.
ghost use Rattle.std.specs.Prelude.{◌≡◌, ◌<◌, ◌++◌, [], length, IfOk, OnOk};
ghost use Rattle.jc_typed.specs.Parts.{Grows, names_of, places_of};
ghost use Rattle.jc_exprs_constants.specs.Knowing.{unstacked, unstacked_names};

use jc_rules::{Items, Place, WantOfMemory};
use jc_typed::{NamesNode, Nodes, PlacesNode};
use std::alloc::Global;

// A local that a constant names, and where.
#[derive(Clone, Copy, Debug, Drop)]
struct NamedLocal {
    place: Place,
    local: u32,
}

// The members of a list, the last one first.
#[tactic(auto, using(crate::proofs::Stacking::stacking))]
fn stacked_names(nodes: &Nodes, list: u32, out: &mut Items<NamedLocal>) -> Result<(), WantOfMemory>
    requires { list < length nodes.now }
    ensures { OnOk result (unstacked_names out.new [] ≡ names_of nodes.now list ++ unstacked_names out.old []) }
{
    let mut at = list;
    while let NamesNode::More {
        before,
        place,
        local,
    } = nodes.names(at)
    {
        out.push(NamedLocal { place, local })?;
        at = before;
    }
    Ok(())
}

#[tactic(auto, using(jc_typed::proofs::Growing::growing, crate::proofs::Stacking::stacking))]
fn push_stacked_names(
    nodes: &mut Nodes,
    before: u32,
    stack: Items<NamedLocal>,
) -> Result<u32, WantOfMemory>
    requires { before < length nodes.old }
    ensures value { IfOk result (λ r. names_of nodes.new r ≡ names_of nodes.old before ++ unstacked_names stack []) }
    ensures within { IfOk result (λ r. r < length nodes.new) }
    ensures grows { Grows nodes.old nodes.new }
{
    let mut list = before;
    let mut left = stack;
    while let Some(named) = left.pop() {
        list = nodes.push_names(NamesNode::More {
            before: list,
            place: named.place,
            local: named.local,
        })?;
    }
    Ok(list)
}

/// The named locals of one list behind those of another.
pub fn push_names_behind(
    alloc: Global,
    nodes: &mut Nodes,
    before: u32,
    list: u32,
) -> Result<u32, WantOfMemory>
    requires before { before < length nodes.old }
    requires list { list < length nodes.old }
    ensures value { IfOk result (λ r. names_of nodes.new r ≡ names_of nodes.old before ++ names_of nodes.old list) }
    ensures within { IfOk result (λ r. r < length nodes.new) }
    ensures grows { Grows nodes.old nodes.new }
{
    let mut stack = Items::new(alloc);
    stacked_names(nodes, list, &mut stack)?;
    push_stacked_names(nodes, before, stack)
}

#[tactic(auto, using(crate::proofs::Stacking::stacking))]
fn stacked_places(nodes: &Nodes, list: u32, out: &mut Items<Place>) -> Result<(), WantOfMemory>
    requires { list < length nodes.now }
    ensures { OnOk result (unstacked out.new [] ≡ places_of nodes.now list ++ unstacked out.old []) }
{
    let mut at = list;
    while let PlacesNode::More { before, last } = nodes.places(at) {
        out.push(last)?;
        at = before;
    }
    Ok(())
}

#[tactic(auto, using(jc_typed::proofs::Growing::growing, crate::proofs::Stacking::stacking))]
fn push_stacked_places(
    nodes: &mut Nodes,
    before: u32,
    stack: Items<Place>,
) -> Result<u32, WantOfMemory>
    requires { before < length nodes.old }
    ensures value { IfOk result (λ r. places_of nodes.new r ≡ places_of nodes.old before ++ unstacked stack []) }
    ensures within { IfOk result (λ r. r < length nodes.new) }
    ensures grows { Grows nodes.old nodes.new }
{
    let mut list = before;
    let mut left = stack;
    while let Some(last) = left.pop() {
        list = nodes.push_places(PlacesNode::More { before: list, last })?;
    }
    Ok(list)
}

/// The places of one list behind those of another.
pub fn push_places_behind(
    alloc: Global,
    nodes: &mut Nodes,
    before: u32,
    list: u32,
) -> Result<u32, WantOfMemory>
    requires before { before < length nodes.old }
    requires list { list < length nodes.old }
    ensures value { IfOk result (λ r. places_of nodes.new r ≡ places_of nodes.old before ++ places_of nodes.old list) }
    ensures within { IfOk result (λ r. r < length nodes.new) }
    ensures grows { Grows nodes.old nodes.new }
{
    let mut stack = Items::new(alloc);
    stacked_places(nodes, list, &mut stack)?;
    push_stacked_places(nodes, before, stack)
}
