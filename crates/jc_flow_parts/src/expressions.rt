//! What the parts of an expression throw and assign.
ghost use Rattle.std.specs.Prelude.{◌≡◌, ◌<◌, OnOk, length};
ghost use Rattle.jc_typed.specs.Parts.{BelowForm, form_over, parts, expr_of, operand_of, operands_of, links_of, variable_of, declared_of, types_of};
ghost use Rattle.jc_flow_spec.specs.States.{throws};
ghost use Rattle.jc_flow_spec.specs.Expressions.{declared_flow, expr_flow, form_flow, links_flow, operand_flow, operands_flow, variable_flow};

use crate::listed::types_listed;
use crate::state::{assign, throw};
use jc_flow_spec::Flow;
use jc_rules::{Place, WantOfMemory};
use jc_typed::{
    DeclaredNode, ExprForm, ExprNode, LinksNode, ListNode, Nodes, OperandNode, VariableNode,
};
use std::alloc::Global;

/// The types of a list are thrown.
pub fn throw_listed(
    alloc: Global,
    nodes: &Nodes,
    place: Place,
    types: u32,
    s: &mut Flow,
) -> Result<(), WantOfMemory>
    requires { types < length nodes.now }
    ensures { OnOk result (s.new ≡ throws place (types_of nodes.now types) s.old) }
{
    let types = types_listed(alloc, nodes, types)?;
    throw(alloc, s, place, types.slice())
}

#[cycle(exprs)]
fn expr_flow(alloc: Global, nodes: &Nodes, at: u32, s: &mut Flow) -> Result<(), WantOfMemory>
    requires { at < length nodes.now }
    ensures { OnOk result (s.new ≡ expr_flow (expr_of nodes.now at) s.old) }
{
    match nodes.expr(at) {
        ExprNode::Missing => Ok(()),
        ExprNode::Expr { place, form, .. } => form_flow(alloc, nodes, at, place, form, s),
    }
}

#[cycle(exprs)]
pub fn operand_flow(alloc: Global, nodes: &Nodes, at: u32, s: &mut Flow) -> Result<(), WantOfMemory>
    requires { at < length nodes.now }
    ensures { OnOk result (s.new ≡ operand_flow (operand_of nodes.now at) s.old) }
{
    match nodes.operand(at) {
        OperandNode::Missing => Ok(()),
        OperandNode::Operand { of, .. } => expr_flow(alloc, nodes, of, s),
    }
}

#[cycle(exprs)]
pub fn operands_flow(
    alloc: Global,
    nodes: &Nodes,
    at: u32,
    s: &mut Flow,
) -> Result<(), WantOfMemory>
    requires { at < length nodes.now }
    ensures { OnOk result (s.new ≡ operands_flow (operands_of nodes.now at) s.old) }
{
    let mut list = at;
    'operands_left: loop {
        match nodes.operands(list) {
            ListNode::Empty => return Ok(()),
            ListNode::More { before, last } => {
                operand_flow(alloc, nodes, last, s)?;
                list = before;
            }
        }
    }
}

#[cycle(exprs)]
fn links_flow(alloc: Global, nodes: &Nodes, at: u32, s: &mut Flow) -> Result<(), WantOfMemory>
    requires { at < length nodes.now }
    ensures { OnOk result (s.new ≡ links_flow (links_of nodes.now at) s.old) }
{
    let mut list = at;
    'links_left: loop {
        match nodes.links(list) {
            LinksNode::Empty => return Ok(()),
            LinksNode::More { before, right, .. } => {
                operand_flow(alloc, nodes, right, s)?;
                list = before;
            }
        }
    }
}

// Two operands, the later one first.
#[cycle(exprs)]
fn pair_flow(
    alloc: Global,
    nodes: &Nodes,
    at: u32,
    first: u32,
    second: u32,
    s: &mut Flow,
) -> Result<(), WantOfMemory>
    requires within { at < length nodes.now }
    requires first { first < at }
    requires second { second < at }
    ensures { OnOk result (s.new ≡ operand_flow (operand_of nodes.now first) (operand_flow (operand_of nodes.now second) s.old)) }
{
    operand_flow(alloc, nodes, second, s)?;
    operand_flow(alloc, nodes, first, s)
}

#[cycle(exprs)]
fn variable_flow(alloc: Global, nodes: &Nodes, at: u32, s: &mut Flow) -> Result<(), WantOfMemory>
    requires { at < length nodes.now }
    ensures { OnOk result (s.new ≡ variable_flow (variable_of nodes.now at) s.old) }
{
    match nodes.variable(at) {
        VariableNode::Local { local, .. } => assign(s, local),
        VariableNode::StaticField { before, .. } => operands_flow(alloc, nodes, before, s),
        VariableNode::Field { of, .. } => operand_flow(alloc, nodes, of, s),
        VariableNode::Element { array, index, .. } => pair_flow(alloc, nodes, at, array, index, s),
    }
}

#[cycle(exprs)]
fn form_flow(
    alloc: Global,
    nodes: &Nodes,
    at: u32,
    place: Place,
    form: ExprForm,
    s: &mut Flow,
) -> Result<(), WantOfMemory>
    requires within { at < length nodes.now }
    requires below { BelowForm at form }
    ensures { OnOk result (s.new ≡ form_flow place (form_over (parts nodes.now) form) s.old) }
{
    match form {
        ExprForm::Constant { before, .. } => operands_flow(alloc, nodes, before, s),
        ExprForm::Null => Ok(()),
        ExprForm::Local { .. } => Ok(()),
        ExprForm::This => Ok(()),
        ExprForm::StaticField { before, .. } => operands_flow(alloc, nodes, before, s),
        ExprForm::Field { of, .. } => operand_flow(alloc, nodes, of, s),
        ExprForm::Element { array, index } => pair_flow(alloc, nodes, at, array, index, s),
        ExprForm::Length { array } => operand_flow(alloc, nodes, array, s),
        ExprForm::Prefix { of, .. } => operand_flow(alloc, nodes, of, s),
        ExprForm::Chain { first, links } => {
            links_flow(alloc, nodes, links, s)?;
            operand_flow(alloc, nodes, first, s)
        }
        ExprForm::AllOf { operands, .. } => operands_flow(alloc, nodes, operands, s),
        ExprForm::AnyOf { operands, .. } => operands_flow(alloc, nodes, operands, s),
        ExprForm::InstanceOf { of, .. } => operand_flow(alloc, nodes, of, s),
        ExprForm::Conditional {
            test,
            then,
            other,
            ..
        } => {
            pair_flow(alloc, nodes, at, then, other, s)?;
            operand_flow(alloc, nodes, test, s)
        }
        ExprForm::Assign {
            variable,
            value,
            ..
        } => {
            operand_flow(alloc, nodes, value, s)?;
            variable_flow(alloc, nodes, variable, s)
        }
        ExprForm::Compound {
            variable,
            right,
            ..
        } => {
            operand_flow(alloc, nodes, right, s)?;
            variable_flow(alloc, nodes, variable, s)
        }
        ExprForm::Change { variable, .. } => variable_flow(alloc, nodes, variable, s),
        ExprForm::Call {
            receiver,
            args,
            thrown,
            ..
        } => {
            operands_flow(alloc, nodes, args, s)?;
            operands_flow(alloc, nodes, receiver, s)?;
            throw_listed(alloc, nodes, place, thrown, s)
        }
        ExprForm::New { args, thrown, .. } => {
            operands_flow(alloc, nodes, args, s)?;
            throw_listed(alloc, nodes, place, thrown, s)
        }
        ExprForm::NewArray { lengths } => operands_flow(alloc, nodes, lengths, s),
        ExprForm::ArrayOf { elements } => operands_flow(alloc, nodes, elements, s),
        ExprForm::Cast { of, .. } => operand_flow(alloc, nodes, of, s),
    }
}

/// The initialisers of declared variables.
pub fn declared_flow(
    alloc: Global,
    nodes: &Nodes,
    at: u32,
    s: &mut Flow,
) -> Result<(), WantOfMemory>
    requires { at < length nodes.now }
    ensures { OnOk result (s.new ≡ declared_flow (declared_of nodes.now at) s.old) }
{
    let mut list = at;
    'declared_left: loop {
        match nodes.declared(list) {
            DeclaredNode::Empty => return Ok(()),
            DeclaredNode::More { before, value, .. } => {
                operands_flow(alloc, nodes, value, s)?;
                list = before;
            }
        }
    }
}
