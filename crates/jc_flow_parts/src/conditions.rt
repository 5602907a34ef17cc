//! Tests of loops, and labels of a switch.
ghost use Rattle.std.specs.Prelude.{◌≡◌, ◌<◌, ◌==◌, length, is_none, not, suc};
ghost use Rattle.std.specs.List.{list_any};
ghost use Rattle.jc_typed.specs.Parts.{BelowForm, form_over, parts, expr_of, operand_of, operands_of, cases_of, stmts_of};
ghost use Rattle.jc_flow_spec.specs.Expressions.{expr_is, form_is, is_false, is_number, is_true, operand_is};
ghost use Rattle.jc_flow_spec.specs.Statements.{has_default, is_labelled, may_fail, may_hold, passes};

use jc_typed::{CasesNode, ExprForm, ExprNode, ListNode, Nodes, OperandNode};
use jc_types::Constant;

fn is_number(n: u32, constant: &Constant) -> bool
    ensures { result ≡ is_number n constant.now }
{
    match constant {
        Constant::Whole { value, .. } => *value == n as i64,
        Constant::Text(_) => false,
    }
}

fn form_is(nodes: &Nodes, n: u32, at: u32, form: ExprForm) -> bool
    requires within { at < length nodes.now }
    requires below { BelowForm at form }
    ensures { result ≡ form_is n (form_over (parts nodes.now) form) }
{
    match form {
        ExprForm::Constant { before, value, .. } => match nodes.operands(before) {
            ListNode::Empty => is_number(n, nodes.constant(value)),
            ListNode::More { .. } => false,
        },
        _ => false,
    }
}

fn expr_is(nodes: &Nodes, n: u32, at: u32) -> bool
    requires { at < length nodes.now }
    ensures { result ≡ expr_is n (expr_of nodes.now at) }
{
    match nodes.expr(at) {
        ExprNode::Missing => false,
        ExprNode::Expr { form, .. } => form_is(nodes, n, at, form),
    }
}

fn operand_is(nodes: &Nodes, n: u32, at: u32) -> bool
    requires { at < length nodes.now }
    ensures { result ≡ operand_is n (operand_of nodes.now at) }
{
    match nodes.operand(at) {
        OperandNode::Missing => false,
        OperandNode::Operand { of, .. } => expr_is(nodes, n, of),
    }
}

/// Whether a test is a constant expression with the value true.
#[tactic(auto, unfolding(jc_flow_spec::specs::Expressions::is_true))]
pub fn is_true(nodes: &Nodes, at: u32) -> bool
    requires { at < length nodes.now }
    ensures { result ≡ is_true (operand_of nodes.now at) }
{
    operand_is(nodes, 1, at)
}

/// Whether a test is a constant expression with the value false.
#[tactic(auto, unfolding(jc_flow_spec::specs::Expressions::is_false))]
pub fn is_false(nodes: &Nodes, at: u32) -> bool
    requires { at < length nodes.now }
    ensures { result ≡ is_false (operand_of nodes.now at) }
{
    operand_is(nodes, 0, at)
}

/// Whether the optional test of a `for` may fail.
pub fn may_fail(nodes: &Nodes, at: u32) -> bool
    requires { at < length nodes.now }
    ensures { result ≡ may_fail (operands_of nodes.now at) }
{
    match nodes.operands(at) {
        ListNode::Empty => false,
        ListNode::More { last, .. } => !is_true(nodes, last),
    }
}

/// Whether the optional test of a `for` may hold.
pub fn may_hold(nodes: &Nodes, at: u32) -> bool
    requires { at < length nodes.now }
    ensures { result ≡ may_hold (operands_of nodes.now at) }
{
    match nodes.operands(at) {
        ListNode::Empty => true,
        ListNode::More { last, .. } => !is_false(nodes, last),
    }
}

/// Whether the statement with this many others before it bears a label.
#[tactic(auto, using(crate::proofs::Labels::labels))]
pub fn is_labelled(nodes: &Nodes, at: u32, count: usize) -> bool
    requires { at < length nodes.now }
    ensures { result ≡ is_labelled (cases_of nodes.now at) count }
{
    let mut list = at;
    let mut found = false;
    'cases_left: loop {
        match nodes.cases(list) {
            CasesNode::Empty => return found,
            CasesNode::More { before, last } => {
                found = last.skips as usize == count || found;
                list = before;
            }
        }
    }
}

#[tactic(auto, using(crate::proofs::Labels::labels))]
fn has_default(nodes: &Nodes, at: u32) -> bool
    requires { at < length nodes.now }
    ensures { result ≡ has_default (cases_of nodes.now at) }
{
    let mut list = at;
    let mut found = false;
    'cases_left: loop {
        match nodes.cases(list) {
            CasesNode::Empty => return found,
            CasesNode::More { before, last } => {
                found = last.key.is_none() || found;
                list = before;
            }
        }
    }
}

/// Whether control comes from the selector to the end of a switch with this many statements.
pub fn passes(nodes: &Nodes, at: u32, count: usize) -> bool
    requires { at < length nodes.now }
    ensures { result ≡ passes (cases_of nodes.now at) count }
{
    !has_default(nodes, at) || is_labelled(nodes, at, count)
}
