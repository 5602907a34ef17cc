//! Lists of what constants name, one behind another.
ghost use Rattle.std.specs.Prelude.{◌≡◌, ◌<◌, ◌++◌, length, reverse, IfOk};
ghost use Rattle.jc_typed.specs.Parts.{Grows, names_of, places_of};

use jc_rules::WantOfMemory;
use jc_typed::{NamesNode, Nodes, PlacesNode};

// The members of a list from its last one on, behind those of another.
#[tactic(auto, using(jc_typed::proofs::Growing::growing, jc_exprs_nodes::proofs::Appending::appended, crate::proofs::Turning::turning))]
fn push_names_turned(nodes: &mut Nodes, before: u32, names: u32) -> Result<u32, WantOfMemory>
    requires before { before < length nodes.old }
    requires names { names < length nodes.old }
    ensures value { IfOk result (λ at. names_of nodes.new at ≡ names_of nodes.old before ++ reverse (names_of nodes.old names)) }
    ensures within { IfOk result (λ at. at < length nodes.new) }
    ensures grows { Grows nodes.old nodes.new }
{
    let mut list = before;
    let mut left = names;
    while let NamesNode::More {
        before: rest,
        place,
        local,
    } = nodes.names(left)
    {
        list = nodes.push_names(NamesNode::More {
            before: list,
            place,
            local,
        })?;
        left = rest;
    }
    Ok(list)
}

/// The locals of one list, and behind them those of another, which is turned twice since each list ends in its last member.
#[tactic(auto, using(jc_typed::proofs::Growing::growing, jc_exprs_nodes::proofs::Appending::appended, crate::proofs::Turning::turning))]
pub fn push_names_onto(nodes: &mut Nodes, before: u32, more: u32) -> Result<u32, WantOfMemory>
    requires before { before < length nodes.old }
    requires more { more < length nodes.old }
    ensures value { IfOk result (λ at. names_of nodes.new at ≡ names_of nodes.old before ++ names_of nodes.old more) }
    ensures within { IfOk result (λ at. at < length nodes.new) }
    ensures grows { Grows nodes.old nodes.new }
{
    if let NamesNode::Empty = nodes.names(more) {
        return Ok(before);
    }
    if let NamesNode::Empty = nodes.names(before) {
        return Ok(more);
    }
    let none = nodes.push_names(NamesNode::Empty)?;
    let turned = push_names_turned(nodes, none, more)?;
    push_names_turned(nodes, before, turned)
}

#[tactic(auto, using(jc_typed::proofs::Growing::growing, jc_exprs_nodes::proofs::Appending::appended, crate::proofs::Turning::turning))]
fn push_places_turned(nodes: &mut Nodes, before: u32, places: u32) -> Result<u32, WantOfMemory>
    requires before { before < length nodes.old }
    requires places { places < length nodes.old }
    ensures value { IfOk result (λ at. places_of nodes.new at ≡ places_of nodes.old before ++ reverse (places_of nodes.old places)) }
    ensures within { IfOk result (λ at. at < length nodes.new) }
    ensures grows { Grows nodes.old nodes.new }
{
    let mut list = before;
    let mut left = places;
    while let PlacesNode::More { before: rest, last } = nodes.places(left) {
        list = nodes.push_places(PlacesNode::More { before: list, last })?;
        left = rest;
    }
    Ok(list)
}

/// The places of one list, and behind them those of another.
#[tactic(auto, using(jc_typed::proofs::Growing::growing, jc_exprs_nodes::proofs::Appending::appended, crate::proofs::Turning::turning))]
pub fn push_places_onto(nodes: &mut Nodes, before: u32, more: u32) -> Result<u32, WantOfMemory>
    requires before { before < length nodes.old }
    requires more { more < length nodes.old }
    ensures value { IfOk result (λ at. places_of nodes.new at ≡ places_of nodes.old before ++ places_of nodes.old more) }
    ensures within { IfOk result (λ at. at < length nodes.new) }
    ensures grows { Grows nodes.old nodes.new }
{
    if let PlacesNode::Empty = nodes.places(more) {
        return Ok(before);
    }
    if let PlacesNode::Empty = nodes.places(before) {
        return Ok(more);
    }
    let none = nodes.push_places(PlacesNode::Empty)?;
    let turned = push_places_turned(nodes, none, more)?;
    push_places_turned(nodes, before, turned)
}
