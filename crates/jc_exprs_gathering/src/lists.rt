//! Typed parts of a node that has any number of them: arguments, lengths of arrays, values of initialisers.
ghost use Rattle.std.specs.Prelude.{◌≡◌, ◌<◌, IsTrue, is_some, length, map};
ghost use Rattle.jc_typed.specs.Parts.{operand_of};
ghost use Rattle.jc_exprs_nodes.specs.Walks.{AllBelow, IsPart, has, known};
ghost use Rattle.jc_exprs_gathering.specs.Gathered.{AllParts, IsTyped, all_there, has_all, has_operand, has_operands, where_all};

use jc_exprs_nodes::{Part, part};
use jc_typed::{Nodes, OperandNode};

fn is_typed(nodes: &Nodes, at: u32) -> bool
    requires { at < length nodes.now }
    ensures { result ≡ is_some (has nodes.now at) }
{
    match part(nodes, at) {
        None => false,
        Some(_) => true,
    }
}

fn each_is_typed(nodes: &Nodes, ats: &[u32]) -> bool
    requires { AllBelow (length nodes.now) ats.now }
    ensures { result ≡ all_there (has nodes.now) ats.now }
{
    let mut rest = ats;
    while let [at, more @ ..] = rest {
        if !is_typed(nodes, *at) {
            return false;
        }
        rest = more;
    }
    true
}

/// Whether all of these have a typing: then each of them is a part, and they are what is known of each.
#[tactic(auto, using(crate::proofs::Gathering::all_typed))]
pub fn are_typed(nodes: &Nodes, ats: &[u32]) -> bool
    requires { AllBelow (length nodes.now) ats.now }
    ensures value { has_all nodes.now ats.now ≡ where_all result (map (known nodes.now) ats.now) }
    ensures parts { IsTrue result → AllParts nodes.now ats.now }
{
    each_is_typed(nodes, ats)
}

/// What stands at a place that has a typing.
pub fn typed_part(nodes: &Nodes, at: u32) -> Part
    requires { IsTyped nodes.now at }
    ensures part { IsPart nodes.now result }
    ensures same { result.at ≡ at }
{
    match part(nodes, at) {
        Some(part) => part,
        None => unreachable!(),
    }
}

fn is_given(nodes: &Nodes, at: u32) -> bool
    requires { at < length nodes.now }
    ensures { result ≡ is_some (has_operand nodes.now at) }
{
    match nodes.operand(at) {
        OperandNode::Missing => false,
        OperandNode::Operand { .. } => true,
    }
}

fn each_is_given(nodes: &Nodes, ats: &[u32]) -> bool
    requires { AllBelow (length nodes.now) ats.now }
    ensures { result ≡ all_there (has_operand nodes.now) ats.now }
{
    let mut rest = ats;
    while let [at, more @ ..] = rest {
        if !is_given(nodes, *at) {
            return false;
        }
        rest = more;
    }
    true
}

/// Whether all of these operands are there.
#[tactic(auto, using(crate::proofs::Gathering::all_given))]
pub fn are_given(nodes: &Nodes, ats: &[u32]) -> bool
    requires { AllBelow (length nodes.now) ats.now }
    ensures { has_operands nodes.now ats.now ≡ where_all result (map (operand_of nodes.now) ats.now) }
{
    each_is_given(nodes, ats)
}
