//! What the parts of an expression are warned of.
ghost use Rattle.std.specs.Prelude.{◌≡◌, ◌++◌, ◌<◌, OnOk, length};
ghost use Rattle.jc_typed.specs.Parts.{BelowForm, declared_of, expr_of, form_over, links_of, operand_of, operands_of, parts, variable_of};
ghost use Rattle.jc_unchecked_spec.specs.declared.warning.WarningKind.TheVariants as kind;
ghost use Rattle.jc_unchecked_spec.specs.Bodies.{of_declared, of_expr, of_form, of_links, of_operand, of_operands, of_variable};
ghost use Rattle.jc_unchecked_list.specs.Telling.{told};

use crate::conversions::has_unchecked;
use crate::forms::tell_form;
use crate::walk::Walk;
use jc_rules::{Items, WantOfMemory};
use jc_typed::{DeclaredNode, ExprForm, ExprNode, LinksNode, ListNode, OperandNode, VariableNode};
use jc_unchecked_list::tell_if;
use jc_unchecked_spec::{Warning, WarningKind};

#[cycle(exprs)]
#[tactic(auto, using(jc_unchecked_list::proofs::Told::telling))]
fn tell_expr(walk: &Walk, at: u32, out: &mut Items<Warning>) -> Result<(), WantOfMemory>
    requires { at < length walk.now.nodes.now }
    ensures { OnOk result (out.new ≡ told (of_expr walk.now.table.now walk.now.env.now.bounds (expr_of walk.now.nodes.now at)) out.old) }
{
    match walk.nodes.expr(at) {
        ExprNode::Missing => Ok(()),
        ExprNode::Expr { place, form, .. } => {
            tell_parts(walk, at, form, out)?;
            tell_form(walk, at, place, form, out)
        }
    }
}

/// What an operand is warned of.
#[cycle(exprs)]
#[tactic(auto, using(jc_unchecked_list::proofs::Told::telling))]
pub fn tell_operand(walk: &Walk, at: u32, out: &mut Items<Warning>) -> Result<(), WantOfMemory>
    requires { at < length walk.now.nodes.now }
    ensures { OnOk result (out.new ≡ told (of_operand walk.now.table.now walk.now.env.now.bounds (operand_of walk.now.nodes.now at)) out.old) }
{
    match walk.nodes.operand(at) {
        OperandNode::Missing => Ok(()),
        OperandNode::Operand { place, of, steps } => {
            tell_expr(walk, of, out)?;
            tell_if(
                has_unchecked(walk, steps),
                WarningKind::Conversion,
                place,
                out,
            )
        }
    }
}

/// What operands are warned of.
#[cycle(exprs)]
#[tactic(auto, using(jc_unchecked_list::proofs::Told::telling))]
pub fn tell_operands(walk: &Walk, at: u32, out: &mut Items<Warning>) -> Result<(), WantOfMemory>
    requires { at < length walk.now.nodes.now }
    ensures { OnOk result (out.new ≡ told (of_operands walk.now.table.now walk.now.env.now.bounds (operands_of walk.now.nodes.now at)) out.old) }
{
    let mut list = at;
    'operands_left: loop {
        match walk.nodes.operands(list) {
            ListNode::Empty => return Ok(()),
            ListNode::More { before, last } => {
                tell_operand(walk, last, out)?;
                list = before;
            }
        }
    }
}

#[cycle(exprs)]
#[tactic(auto, using(jc_unchecked_list::proofs::Told::telling))]
fn tell_links(walk: &Walk, at: u32, out: &mut Items<Warning>) -> Result<(), WantOfMemory>
    requires { at < length walk.now.nodes.now }
    ensures { OnOk result (out.new ≡ told (of_links walk.now.table.now walk.now.env.now.bounds (links_of walk.now.nodes.now at)) out.old) }
{
    let mut list = at;
    'links_left: loop {
        match walk.nodes.links(list) {
            LinksNode::Empty => return Ok(()),
            LinksNode::More { before, right, .. } => {
                tell_operand(walk, right, out)?;
                list = before;
            }
        }
    }
}

// Two operands, the later one first.
#[cycle(exprs)]
#[tactic(auto, using(jc_unchecked_list::proofs::Told::telling))]
fn tell_pair(
    walk: &Walk,
    at: u32,
    first: u32,
    second: u32,
    out: &mut Items<Warning>,
) -> Result<(), WantOfMemory>
    requires within { at < length walk.now.nodes.now }
    requires first { first < at }
    requires second { second < at }
    ensures { OnOk result (out.new ≡ told (of_operand walk.now.table.now walk.now.env.now.bounds (operand_of walk.now.nodes.now first) ++ of_operand walk.now.table.now walk.now.env.now.bounds (operand_of walk.now.nodes.now second)) out.old) }
{
    tell_operand(walk, second, out)?;
    tell_operand(walk, first, out)
}

#[cycle(exprs)]
#[tactic(auto, using(jc_unchecked_list::proofs::Told::telling))]
fn tell_variable(walk: &Walk, at: u32, out: &mut Items<Warning>) -> Result<(), WantOfMemory>
    requires { at < length walk.now.nodes.now }
    ensures { OnOk result (out.new ≡ told (of_variable walk.now.table.now walk.now.env.now.bounds (variable_of walk.now.nodes.now at)) out.old) }
{
    match walk.nodes.variable(at) {
        VariableNode::Local { .. } => Ok(()),
        VariableNode::StaticField { before, .. } => tell_operands(walk, before, out),
        VariableNode::Field { of, .. } => tell_operand(walk, of, out),
        VariableNode::Element { array, index, .. } => tell_pair(walk, at, array, index, out),
    }
}

#[cycle(exprs)]
#[tactic(auto, using(jc_unchecked_list::proofs::Told::telling))]
fn tell_parts(
    walk: &Walk,
    at: u32,
    form: ExprForm,
    out: &mut Items<Warning>,
) -> Result<(), WantOfMemory>
    requires within { at < length walk.now.nodes.now }
    requires below { BelowForm at form }
    ensures { OnOk result (out.new ≡ told (of_form walk.now.table.now walk.now.env.now.bounds (form_over (parts walk.now.nodes.now) form)) out.old) }
{
    match form {
        ExprForm::Constant { before, .. } => tell_operands(walk, before, out),
        ExprForm::Null => Ok(()),
        ExprForm::Local { .. } => Ok(()),
        ExprForm::This => Ok(()),
        ExprForm::StaticField { before, .. } => tell_operands(walk, before, out),
        ExprForm::Field { of, .. } => tell_operand(walk, of, out),
        ExprForm::Element { array, index } => tell_pair(walk, at, array, index, out),
        ExprForm::Length { array } => tell_operand(walk, array, out),
        ExprForm::Prefix { of, .. } => tell_operand(walk, of, out),
        ExprForm::Chain { first, links } => {
            tell_links(walk, links, out)?;
            tell_operand(walk, first, out)
        }
        ExprForm::AllOf { operands, .. } => tell_operands(walk, operands, out),
        ExprForm::AnyOf { operands, .. } => tell_operands(walk, operands, out),
        ExprForm::InstanceOf { of, .. } => tell_operand(walk, of, out),
        ExprForm::Conditional {
            test,
            then,
            other,
            ..
        } => {
            tell_pair(walk, at, then, other, out)?;
            tell_operand(walk, test, out)
        }
        ExprForm::Assign {
            variable,
            value,
            ..
        } => {
            tell_operand(walk, value, out)?;
            tell_variable(walk, variable, out)
        }
        ExprForm::Compound {
            variable,
            right,
            ..
        } => {
            tell_operand(walk, right, out)?;
            tell_variable(walk, variable, out)
        }
        ExprForm::Change { variable, .. } => tell_variable(walk, variable, out),
        ExprForm::Call { receiver, args, .. } => {
            tell_operands(walk, args, out)?;
            tell_operands(walk, receiver, out)
        }
        ExprForm::New { args, .. } => tell_operands(walk, args, out),
        ExprForm::NewArray { lengths } => tell_operands(walk, lengths, out),
        ExprForm::ArrayOf { elements } => tell_operands(walk, elements, out),
        ExprForm::Cast { of, .. } => tell_operand(walk, of, out),
    }
}

/// What the initialisers of declared variables are warned of.
#[tactic(auto, using(jc_unchecked_list::proofs::Told::telling))]
pub fn tell_declared(walk: &Walk, at: u32, out: &mut Items<Warning>) -> Result<(), WantOfMemory>
    requires { at < length walk.now.nodes.now }
    ensures { OnOk result (out.new ≡ told (of_declared walk.now.table.now walk.now.env.now.bounds (declared_of walk.now.nodes.now at)) out.old) }
{
    let mut list = at;
    'declared_left: loop {
        match walk.nodes.declared(list) {
            DeclaredNode::Empty => return Ok(()),
            DeclaredNode::More { before, value, .. } => {
                tell_operands(walk, value, out)?;
                list = before;
            }
        }
    }
}
