//! The jumps that leave a statement. A jump in a finally block counts as often as this block stands in the code.
ghost use Rattle.std.specs.Prelude.{◌≡◌, ◌<◌, ◌*◌, ◌∷◌, length, IfOk};
ghost use Rattle.jc_typed.specs.Bulk.{capped};
ghost use Rattle.jc_typed.specs.Copies.{exits_of, exits_of_arms, exits_of_catches, exits_of_stmt, exits_of_stmts};
ghost use Rattle.jc_typed.specs.Parts.{BelowStmtForm, arms_of, catches_of, parts, stmt_form_over, stmt_of, stmts_of};

use crate::targets::{leaving, with_target};
use jc_rules::WantOfMemory;
use jc_typed::{ArmsNode, CatchesNode, ListNode, Nodes, StmtForm};
use std::alloc::Global;

/// The jumps that leave a statement; the greatest u64 where there are more.
#[cycle(exits)]
pub fn exits_of_stmt(
    alloc: Global,
    nodes: &Nodes,
    inside: &[u32],
    at: u32,
) -> Result<u64, WantOfMemory>
    requires { at < length nodes.now }
    ensures { IfOk result (λ n. n ≡ capped (exits_of_stmt inside.now (stmt_of nodes.now at))) }
{
    let node = nodes.stmt(at);
    exits_of(alloc, nodes, inside, at, node.form)
}

#[cycle(exits)]
fn exits_of_stmts(
    alloc: Global,
    nodes: &Nodes,
    inside: &[u32],
    at: u32,
) -> Result<u64, WantOfMemory>
    requires { at < length nodes.now }
    ensures { IfOk result (λ n. n ≡ capped (exits_of_stmts inside.now (stmts_of nodes.now at))) }
{
    let mut total = 0u64;
    let mut list = at;
    'stmts_left: loop {
        match nodes.stmts(list) {
            ListNode::Empty => return Ok(total),
            ListNode::More { before, last } => {
                total = total.saturating_add(exits_of_stmt(alloc, nodes, inside, last)?);
                list = before;
            }
        }
    }
}

#[cycle(exits)]
fn exits_of_arms(alloc: Global, nodes: &Nodes, inside: &[u32], at: u32) -> Result<u64, WantOfMemory>
    requires { at < length nodes.now }
    ensures { IfOk result (λ n. n ≡ capped (exits_of_arms inside.now (arms_of nodes.now at))) }
{
    let mut total = 0u64;
    let mut list = at;
    'arms_left: loop {
        match nodes.arms(list) {
            ArmsNode::Empty => return Ok(total),
            ArmsNode::More { before, then, .. } => {
                total = total.saturating_add(exits_of_stmt(alloc, nodes, inside, then)?);
                list = before;
            }
        }
    }
}

/// The jumps that leave the blocks of catch clauses.
#[cycle(exits)]
pub fn exits_of_catches(
    alloc: Global,
    nodes: &Nodes,
    inside: &[u32],
    at: u32,
) -> Result<u64, WantOfMemory>
    requires { at < length nodes.now }
    ensures { IfOk result (λ n. n ≡ capped (exits_of_catches inside.now (catches_of nodes.now at))) }
{
    let mut total = 0u64;
    let mut list = at;
    'catches_left: loop {
        match nodes.catches(list) {
            CatchesNode::Empty => return Ok(total),
            CatchesNode::More { before, body, .. } => {
                total = total.saturating_add(exits_of_stmt(alloc, nodes, inside, body)?);
                list = before;
            }
        }
    }
}

/// Those of the statement inside of one that a jump can go to.
#[cycle(exits)]
fn exits_inside(
    alloc: Global,
    nodes: &Nodes,
    inside: &[u32],
    target: u32,
    body: u32,
) -> Result<u64, WantOfMemory>
    requires { body < length nodes.now }
    ensures { IfOk result (λ n. n ≡ capped (exits_of_stmt (target ∷ inside.now) (stmt_of nodes.now body))) }
{
    let inner = with_target(alloc, target, inside)?;
    exits_of_stmt(alloc, nodes, inner.slice(), body)
}

#[cycle(exits)]
fn exits_of_switch(
    alloc: Global,
    nodes: &Nodes,
    inside: &[u32],
    target: u32,
    stmts: u32,
) -> Result<u64, WantOfMemory>
    requires { stmts < length nodes.now }
    ensures { IfOk result (λ n. n ≡ capped (exits_of_stmts (target ∷ inside.now) (stmts_of nodes.now stmts))) }
{
    let inner = with_target(alloc, target, inside)?;
    exits_of_stmts(alloc, nodes, inner.slice(), stmts)
}

/// Those of a finally block, which stands in the code so many times.
#[cycle(exits)]
#[tactic(auto, using(jc_typed::proofs::Weighing::capped_times))]
fn exits_of_last(
    alloc: Global,
    nodes: &Nodes,
    inside: &[u32],
    copies: u64,
    last: u32,
) -> Result<u64, WantOfMemory>
    requires { last < length nodes.now }
    ensures { IfOk result (λ n. n ≡ capped (copies * exits_of_stmts inside.now (stmts_of nodes.now last))) }
{
    let each = exits_of_stmts(alloc, nodes, inside, last)?;
    Ok(each.saturating_mul(copies))
}

#[cycle(exits)]
fn exits_of(
    alloc: Global,
    nodes: &Nodes,
    inside: &[u32],
    at: u32,
    form: StmtForm,
) -> Result<u64, WantOfMemory>
    requires within { at < length nodes.now }
    requires below { BelowStmtForm at form }
    ensures { IfOk result (λ n. n ≡ capped (exits_of inside.now (stmt_form_over (parts nodes.now) form))) }
{
    match form {
        StmtForm::Empty => Ok(0),
        StmtForm::Block { stmts } => exits_of_stmts(alloc, nodes, inside, stmts),
        StmtForm::Locals { .. } => Ok(0),
        StmtForm::Effect { .. } => Ok(0),
        StmtForm::If { arms, other } => {
            let taken = exits_of_arms(alloc, nodes, inside, arms)?;
            let otherwise = exits_of_stmts(alloc, nodes, inside, other)?;
            Ok(taken.saturating_add(otherwise))
        }
        StmtForm::Labelled { target, body } => exits_inside(alloc, nodes, inside, target, body),
        StmtForm::While { target, body, .. } => exits_inside(alloc, nodes, inside, target, body),
        StmtForm::Do { target, body, .. } => exits_inside(alloc, nodes, inside, target, body),
        StmtForm::For { target, body, .. } => exits_inside(alloc, nodes, inside, target, body),
        StmtForm::ForArray { target, body, .. } => {
            exits_inside(alloc, nodes, inside, target, body)
        }
        StmtForm::ForIterable { target, body, .. } => {
            exits_inside(alloc, nodes, inside, target, body)
        }
        StmtForm::Switch { target, stmts, .. } => {
            exits_of_switch(alloc, nodes, inside, target, stmts)
        }
        StmtForm::Return { .. } => Ok(1),
        StmtForm::Break { target } => Ok(leaving(inside, target)),
        StmtForm::Continue { target } => Ok(leaving(inside, target)),
        StmtForm::Throw { .. } => Ok(0),
        StmtForm::Try {
            body,
            catches,
            last,
            copies,
        } => {
            let block = exits_of_stmt(alloc, nodes, inside, body)?;
            let clauses = exits_of_catches(alloc, nodes, inside, catches)?;
            let behind = exits_of_last(alloc, nodes, inside, copies, last)?;
            Ok(block.saturating_add(clauses).saturating_add(behind))
        }
        StmtForm::Construct { .. } => Ok(0),
        StmtForm::Initialise { .. } => Ok(0),
    }
}
