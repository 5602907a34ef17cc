//! The units that conversion steps and operators take.
ghost use Rattle.std.specs.Prelude.{◌≡◌, ◌<◌, ◌*◌, length};
ghost use Rattle.jc_typed.specs.Parts.{cases_of, operands_of, ops_of, steps_of, types_of};
ghost use Rattle.jc_typed.specs.Bulk.{capped, joint_weight, operand_count, operator_weight, prefix_weight, prefixes_weight, steps_weight};

use crate::expressions::Joint;
use crate::lists::{CasesNode, ListNode, OpsNode, StepsNode};
use crate::nodes::Nodes;
use jc_types::Op;

/// Four for each step.
pub fn steps_weight(nodes: &Nodes, at: u32) -> u64
    requires { at < length nodes.now }
    ensures { result ≡ capped (steps_weight (steps_of nodes.now at)) }
{
    let mut total = 0u64;
    let mut list = at;
    'steps_left: loop {
        match nodes.steps(list) {
            StepsNode::Empty => return total,
            StepsNode::More { before, .. } => {
                total = total.saturating_add(4);
                list = before;
            }
        }
    }
}

fn prefix_weight(op: Op) -> u64
    ensures { result ≡ prefix_weight op }
{
    match op {
        Op::Not => 16,
        _ => 8,
    }
}

/// Eight for each prefix operator, sixteen for `!`.
#[tactic(auto, using(crate::proofs::Weighing::prefixes_more))]
pub fn prefixes_weight(nodes: &Nodes, at: u32) -> u64
    requires { at < length nodes.now }
    ensures { result ≡ capped (prefixes_weight (ops_of nodes.now at)) }
{
    let mut total = 0u64;
    let mut list = at;
    'ops_left: loop {
        match nodes.ops(list) {
            OpsNode::Empty => return total,
            OpsNode::More { before, last } => {
                total = total.saturating_add(prefix_weight(last));
                list = before;
            }
        }
    }
}

fn operator_weight(op: Op) -> u64
    ensures { result ≡ operator_weight op }
{
    match op {
        Op::Less | Op::Greater | Op::AtMost | Op::AtLeast | Op::Equal | Op::NotEqual => 16,
        _ => 8,
    }
}

pub fn joint_weight(joint: Joint) -> u64
    ensures { result ≡ joint_weight joint }
{
    match joint {
        Joint::Operator(op) => operator_weight(op),
        Joint::Concat { .. } => 24,
    }
}

pub fn operand_count(nodes: &Nodes, at: u32) -> u64
    requires { at < length nodes.now }
    ensures { result ≡ capped (operand_count (operands_of nodes.now at)) }
{
    let mut total = 0u64;
    let mut list = at;
    'operands_left: loop {
        match nodes.operands(list) {
            ListNode::Empty => return total,
            ListNode::More { before, .. } => {
                total = total.saturating_add(1);
                list = before;
            }
        }
    }
}

pub fn case_count(nodes: &Nodes, at: u32) -> u64
    requires { at < length nodes.now }
    ensures { result ≡ capped (length (cases_of nodes.now at)) }
{
    let mut total = 0u64;
    let mut list = at;
    'cases_left: loop {
        match nodes.cases(list) {
            CasesNode::Empty => return total,
            CasesNode::More { before, .. } => {
                total = total.saturating_add(1);
                list = before;
            }
        }
    }
}

pub fn type_count(nodes: &Nodes, at: u32) -> u64
    requires { at < length nodes.now }
    ensures { result ≡ capped (length (types_of nodes.now at)) }
{
    let mut total = 0u64;
    let mut list = at;
    'types_left: loop {
        match nodes.types(list) {
            ListNode::Empty => return total,
            ListNode::More { before, .. } => {
                total = total.saturating_add(1);
                list = before;
            }
        }
    }
}
