//! The units that statements take at most.
ghost use Rattle.std.specs.Prelude.{◌≡◌, ◌<◌, length};
ghost use Rattle.jc_typed.specs.Parts.{BelowStmtForm, arms_of, catches_of, declared_of, operands_of, parts, stmt_form_over, stmt_of, stmts_of};
ghost use Rattle.jc_typed.specs.Bulk.{arms_bulk, capped, catches_bulk, declared_bulk, finally_bulk, initialiser_bulk, method_bulk, stmt_bulk, stmt_form_bulk, stmts_bulk};

use crate::expression_bulk::{operand_bulk, operands_bulk};
use crate::lists::{ArmsNode, CatchesNode, DeclaredNode, ListNode};
use crate::nodes::Nodes;
use crate::program::TypedMethod;
use crate::statements::StmtForm;
use crate::weights::{case_count, steps_weight, type_count};

fn initialiser_bulk(nodes: &Nodes, at: u32) -> u64
    requires { at < length nodes.now }
    ensures { result ≡ capped (initialiser_bulk (operands_of nodes.now at)) }
{
    match nodes.operands(at) {
        ListNode::Empty => 0,
        ListNode::More { .. } => operands_bulk(nodes, at).saturating_add(12),
    }
}

fn declared_bulk(nodes: &Nodes, at: u32) -> u64
    requires { at < length nodes.now }
    ensures { result ≡ capped (declared_bulk (declared_of nodes.now at)) }
{
    let mut total = 0u64;
    let mut list = at;
    'declared_left: loop {
        match nodes.declared(list) {
            DeclaredNode::Empty => return total,
            DeclaredNode::More { before, value, .. } => {
                total = total
                    .saturating_add(initialiser_bulk(nodes, value))
                    .saturating_add(8);
                list = before;
            }
        }
    }
}

#[cycle(stmts)]
fn stmt_bulk(nodes: &Nodes, at: u32) -> u64
    requires { at < length nodes.now }
    ensures { result ≡ capped (stmt_bulk (stmt_of nodes.now at)) }
{
    let node = nodes.stmt(at);
    stmt_form_bulk(nodes, at, node.form)
}

#[cycle(stmts)]
fn stmts_bulk(nodes: &Nodes, at: u32) -> u64
    requires { at < length nodes.now }
    ensures { result ≡ capped (stmts_bulk (stmts_of nodes.now at)) }
{
    let mut total = 0u64;
    let mut list = at;
    'stmts_left: loop {
        match nodes.stmts(list) {
            ListNode::Empty => return total,
            ListNode::More { before, last } => {
                total = total.saturating_add(stmt_bulk(nodes, last));
                list = before;
            }
        }
    }
}

#[cycle(stmts)]
fn arms_bulk(nodes: &Nodes, at: u32) -> u64
    requires { at < length nodes.now }
    ensures { result ≡ capped (arms_bulk (arms_of nodes.now at)) }
{
    let mut total = 0u64;
    let mut list = at;
    'arms_left: loop {
        match nodes.arms(list) {
            ArmsNode::Empty => return total,
            ArmsNode::More { before, test, then } => {
                total = total
                    .saturating_add(operand_bulk(nodes, test))
                    .saturating_add(stmt_bulk(nodes, then))
                    .saturating_add(16);
                list = before;
            }
        }
    }
}

#[cycle(stmts)]
fn catches_bulk(nodes: &Nodes, at: u32) -> u64
    requires { at < length nodes.now }
    ensures { result ≡ capped (catches_bulk (catches_of nodes.now at)) }
{
    let mut total = 0u64;
    let mut list = at;
    'catches_left: loop {
        match nodes.catches(list) {
            CatchesNode::Empty => return total,
            CatchesNode::More {
                before,
                types,
                body,
                ..
            } => {
                total = total
                    .saturating_add(type_count(nodes, types).saturating_mul(32))
                    .saturating_add(stmt_bulk(nodes, body));
                list = before;
            }
        }
    }
}

#[cycle(stmts)]
fn finally_bulk(nodes: &Nodes, copies: u64, at: u32) -> u64
    requires { at < length nodes.now }
    ensures { result ≡ capped (finally_bulk copies (stmts_of nodes.now at)) }
{
    match nodes.stmts(at) {
        ListNode::Empty => 0,
        ListNode::More { before, last } => stmts_bulk(nodes, before)
            .saturating_add(stmt_bulk(nodes, last))
            .saturating_add(32)
            .saturating_mul(copies),
    }
}

#[cycle(stmts)]
fn stmt_form_bulk(nodes: &Nodes, at: u32, form: StmtForm) -> u64
    requires within { at < length nodes.now }
    requires below { BelowStmtForm at form }
    ensures { result ≡ capped (stmt_form_bulk (stmt_form_over (parts nodes.now) form)) }
{
    match form {
        StmtForm::Empty => 16,
        StmtForm::Block { stmts } => stmts_bulk(nodes, stmts).saturating_add(16),
        StmtForm::Locals { declared } => declared_bulk(nodes, declared).saturating_add(16),
        StmtForm::Effect { of } => operand_bulk(nodes, of).saturating_add(16),
        StmtForm::If { arms, other } => {
            arms_bulk(nodes, arms).saturating_add(stmts_bulk(nodes, other))
        }
        StmtForm::Labelled { body, .. } => stmt_bulk(nodes, body).saturating_add(16),
        StmtForm::While { test, body, .. } => operand_bulk(nodes, test)
            .saturating_add(stmt_bulk(nodes, body))
            .saturating_add(16),
        StmtForm::Do { body, test, .. } => operand_bulk(nodes, test)
            .saturating_add(stmt_bulk(nodes, body))
            .saturating_add(16),
        StmtForm::For {
            declared,
            before,
            test,
            update,
            body,
            ..
        } => declared_bulk(nodes, declared)
            .saturating_add(operands_bulk(nodes, before))
            .saturating_add(operands_bulk(nodes, test))
            .saturating_add(operands_bulk(nodes, update))
            .saturating_add(stmt_bulk(nodes, body))
            .saturating_add(16),
        StmtForm::ForArray {
            of,
            steps,
            body,
            ..
        } => operand_bulk(nodes, of)
            .saturating_add(steps_weight(nodes, steps))
            .saturating_add(stmt_bulk(nodes, body))
            .saturating_add(72),
        StmtForm::ForIterable {
            of,
            steps,
            body,
            ..
        } => operand_bulk(nodes, of)
            .saturating_add(steps_weight(nodes, steps))
            .saturating_add(stmt_bulk(nodes, body))
            .saturating_add(72),
        StmtForm::Switch {
            of,
            cases,
            stmts,
            ..
        } => operand_bulk(nodes, of)
            .saturating_add(case_count(nodes, cases).saturating_mul(8))
            .saturating_add(stmts_bulk(nodes, stmts))
            .saturating_add(24),
        StmtForm::Return { value } => operands_bulk(nodes, value).saturating_add(16),
        StmtForm::Break { .. } => 16,
        StmtForm::Continue { .. } => 16,
        StmtForm::Throw { of } => operand_bulk(nodes, of).saturating_add(16),
        StmtForm::Try {
            body,
            catches,
            last,
            copies,
        } => stmt_bulk(nodes, body)
            .saturating_add(catches_bulk(nodes, catches))
            .saturating_add(finally_bulk(nodes, copies, last))
            .saturating_add(16),
        StmtForm::Construct { args, .. } => operands_bulk(nodes, args).saturating_add(28),
        StmtForm::Initialise { value, .. } => operand_bulk(nodes, value).saturating_add(28),
    }
}

/// What a method weighs, which bounds the size of its code. The greatest u64 where it is more.
pub fn bulk(method: &TypedMethod) -> u64
    ensures { result ≡ capped (method_bulk method.now) }
{
    let own = (method.entry_checks as u64) * 8 + 16;
    match method.body {
        None => own,
        Some(body) => stmts_bulk(&method.nodes, body.call)
            .saturating_add(stmts_bulk(&method.nodes, body.initialisers))
            .saturating_add(stmt_bulk(&method.nodes, body.rest))
            .saturating_add(own),
    }
}
