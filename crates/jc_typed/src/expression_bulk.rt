//! The units that expressions take at most.
ghost use Rattle.std.specs.Prelude.{◌≡◌, ◌<◌, length};
ghost use Rattle.jc_typed.specs.Parts.{BelowForm, expr_of, form_over, parts, links_of, operand_of, operands_of, variable_of};
ghost use Rattle.jc_typed.specs.Bulk.{capped, expr_bulk, form_bulk, links_bulk, logic_weight, operand_bulk, operands_bulk, variable_bulk};

use crate::expressions::{ExprForm, ExprNode, OperandNode, VariableNode};
use crate::lists::{LinksNode, ListNode};
use crate::nodes::Nodes;
use crate::weights::{joint_weight, operand_count, prefixes_weight, steps_weight};

#[cycle(exprs)]
fn expr_bulk(nodes: &Nodes, at: u32) -> u64
    requires { at < length nodes.now }
    ensures { result ≡ capped (expr_bulk (expr_of nodes.now at)) }
{
    match nodes.expr(at) {
        ExprNode::Missing => 0,
        ExprNode::Expr { form, .. } => form_bulk(nodes, at, form),
    }
}

#[cycle(exprs)]
pub fn operand_bulk(nodes: &Nodes, at: u32) -> u64
    requires { at < length nodes.now }
    ensures { result ≡ capped (operand_bulk (operand_of nodes.now at)) }
{
    match nodes.operand(at) {
        OperandNode::Missing => 0,
        OperandNode::Operand { of, steps, .. } => {
            expr_bulk(nodes, of).saturating_add(steps_weight(nodes, steps))
        }
    }
}

#[cycle(exprs)]
pub fn operands_bulk(nodes: &Nodes, at: u32) -> u64
    requires { at < length nodes.now }
    ensures { result ≡ capped (operands_bulk (operands_of nodes.now at)) }
{
    let mut total = 0u64;
    let mut list = at;
    'operands_left: loop {
        match nodes.operands(list) {
            ListNode::Empty => return total,
            ListNode::More { before, last } => {
                total = total.saturating_add(operand_bulk(nodes, last));
                list = before;
            }
        }
    }
}

#[cycle(exprs)]
fn links_bulk(nodes: &Nodes, at: u32) -> u64
    requires { at < length nodes.now }
    ensures { result ≡ capped (links_bulk (links_of nodes.now at)) }
{
    let mut total = 0u64;
    let mut list = at;
    'links_left: loop {
        match nodes.links(list) {
            LinksNode::Empty => return total,
            LinksNode::More {
                before,
                joint,
                left,
                right,
            } => {
                let steps = steps_weight(nodes, left);
                let operand = operand_bulk(nodes, right);
                total = total
                    .saturating_add(joint_weight(joint))
                    .saturating_add(steps)
                    .saturating_add(operand);
                list = before;
            }
        }
    }
}

#[cycle(exprs)]
fn variable_bulk(nodes: &Nodes, at: u32) -> u64
    requires { at < length nodes.now }
    ensures { result ≡ capped (variable_bulk (variable_of nodes.now at)) }
{
    match nodes.variable(at) {
        VariableNode::Local { .. } => 0,
        VariableNode::StaticField { before, .. } => operands_bulk(nodes, before),
        VariableNode::Field { of, .. } => operand_bulk(nodes, of),
        VariableNode::Element { array, index, .. } => {
            operand_bulk(nodes, array).saturating_add(operand_bulk(nodes, index))
        }
    }
}

fn logic_weight(nodes: &Nodes, operands: u32) -> u64
    requires { operands < length nodes.now }
    ensures { result ≡ capped (logic_weight (operands_of nodes.now operands)) }
{
    operand_count(nodes, operands)
        .saturating_sub(1)
        .saturating_mul(16)
}

#[cycle(exprs)]
fn form_bulk(nodes: &Nodes, at: u32, form: ExprForm) -> u64
    requires within { at < length nodes.now }
    requires below { BelowForm at form }
    ensures { result ≡ capped (form_bulk (form_over (parts nodes.now) form)) }
{
    match form {
        ExprForm::Constant { before, .. } => operands_bulk(nodes, before).saturating_add(4),
        ExprForm::Null | ExprForm::Local { .. } | ExprForm::This => 4,
        ExprForm::StaticField { before, .. } => operands_bulk(nodes, before).saturating_add(8),
        ExprForm::Field { of, .. } => operand_bulk(nodes, of).saturating_add(8),
        ExprForm::Length { array } => operand_bulk(nodes, array).saturating_add(8),
        ExprForm::InstanceOf { of, .. } => operand_bulk(nodes, of).saturating_add(8),
        ExprForm::Element { array, index } => operand_bulk(nodes, array)
            .saturating_add(operand_bulk(nodes, index))
            .saturating_add(8),
        ExprForm::Prefix { ops, of } => {
            operand_bulk(nodes, of).saturating_add(prefixes_weight(nodes, ops))
        }
        ExprForm::Chain { first, links } => {
            operand_bulk(nodes, first).saturating_add(links_bulk(nodes, links))
        }
        ExprForm::AllOf { operands, .. } => {
            operands_bulk(nodes, operands).saturating_add(logic_weight(nodes, operands))
        }
        ExprForm::AnyOf { operands, .. } => {
            operands_bulk(nodes, operands).saturating_add(logic_weight(nodes, operands))
        }
        ExprForm::Call { receiver, args, .. } => operands_bulk(nodes, receiver)
            .saturating_add(operands_bulk(nodes, args))
            .saturating_add(12),
        ExprForm::New { args, .. } => operands_bulk(nodes, args).saturating_add(12),
        ExprForm::NewArray { lengths } => operands_bulk(nodes, lengths).saturating_add(12),
        ExprForm::ArrayOf { elements } => operands_bulk(nodes, elements)
            .saturating_add(operand_count(nodes, elements).saturating_mul(8))
            .saturating_add(12),
        ExprForm::Cast { of, steps, .. } => operand_bulk(nodes, of)
            .saturating_add(steps_weight(nodes, steps))
            .saturating_add(8),
        ExprForm::Conditional {
            test,
            then,
            other,
            ..
        } => operand_bulk(nodes, test)
            .saturating_add(operand_bulk(nodes, then))
            .saturating_add(operand_bulk(nodes, other))
            .saturating_add(16),
        ExprForm::Assign {
            variable,
            value,
            store,
        } => variable_bulk(nodes, variable)
            .saturating_add(operand_bulk(nodes, value))
            .saturating_add(steps_weight(nodes, store))
            .saturating_add(12),
        ExprForm::Compound {
            variable,
            left,
            right,
            into,
            ..
        } => variable_bulk(nodes, variable)
            .saturating_add(operand_bulk(nodes, right))
            .saturating_add(steps_weight(nodes, left))
            .saturating_add(steps_weight(nodes, into))
            .saturating_add(32),
        ExprForm::Change {
            variable,
            from,
            into,
            ..
        } => variable_bulk(nodes, variable)
            .saturating_add(steps_weight(nodes, from))
            .saturating_add(steps_weight(nodes, into))
            .saturating_add(32),
    }
}
