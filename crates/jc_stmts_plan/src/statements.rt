//! The walk over statements. It goes down the nests, and over the statements that follow one another by loops.
ghost use Rattle.std.specs.Prelude.{◌≡◌, ◌++◌, IfOk, OnOk, false};
ghost use Rattle.jc_stmts_spec.specs.Plans as plan;
ghost use Rattle.jc_stmts_plan.specs.Flat.{items_of, loop_of, all_items, part_items, arms_items, groups_items, catches_items};

use crate::heads::{is_default, push_for, push_head};
use crate::items::{Item, PlanItem, Want};
use crate::jumps::{Jumps, RoundForm};
use crate::parts::{push, push_jump, push_label, push_locals, push_return};
use jc_rules::{Items, WantOfMemory};
use jc_tree::{Clause, Stmt};
use std::alloc::Global;

/// The loop that a statement is: what has a label is none (JLS 14.16).
#[tactic(auto, using(crate::proofs::ByParts::loops))]
pub fn loop_of(node: &Stmt) -> Option<u32>
    ensures { result ≡ loop_of node.now }
{
    match node {
        Stmt::Labeled { .. } => None,
        Stmt::While { at, .. } => Some(*at),
        Stmt::Do { at, .. } => Some(*at),
        Stmt::For { at, .. } => Some(*at),
        Stmt::Local(_) => None,
        Stmt::Declared(_) => None,
        Stmt::Block { .. } => None,
        Stmt::Empty { .. } => None,
        Stmt::Effect(_) => None,
        Stmt::If { .. } => None,
        Stmt::Switch { .. } => None,
        Stmt::Return { .. } => None,
        Stmt::Break { .. } => None,
        Stmt::Continue { .. } => None,
        Stmt::Throw { .. } => None,
        Stmt::Try { .. } => None,
        Stmt::ThisCall { .. } => None,
        Stmt::SuperCall { .. } => None,
    }
}

#[cycle(statements)]
#[tactic(auto, using(crate::proofs::ByParts::statements, crate::proofs::Joining::joining))]
fn push_stmt<'a>(
    alloc: Global,
    plan: &mut Items<PlanItem<'a>>,
    jumps: &Jumps<'a>,
    node: &'a Stmt,
) -> Result<(), WantOfMemory>
    ensures { OnOk result (plan.new ≡ plan.old ++ items_of node.now jumps.now) }
{
    match node {
        Stmt::Local(vars) => push_locals(plan, vars),
        Stmt::Declared(_) => Ok(()),
        Stmt::Block { items, .. } => {
            push(plan, Item::Enter)?;
            push_stmts(alloc, plan, jumps, items.slice())?;
            push(plan, Item::Leave)
        }
        Stmt::Empty { .. } => Ok(()),
        Stmt::Effect(expr) => push(
            plan,
            Item::Ask {
                expr,
                want: Want::Effect,
            },
        ),
        Stmt::Labeled { label, body } => {
            push_label(plan, jumps, label)?;
            let before = loop_of(body.get());
            let inner = jumps.inside(alloc, RoundForm::Label { label, before })?;
            push_stmt(alloc, plan, &inner, body.get())
        }
        Stmt::If { arms, otherwise } => {
            push_arms(alloc, plan, jumps, arms.slice())?;
            push_stmts(alloc, plan, jumps, otherwise.slice())
        }
        Stmt::While { at, test, body } => {
            push(
                plan,
                Item::Ask {
                    expr: test,
                    want: Want::Truth,
                },
            )?;
            let inner = jumps.inside(alloc, RoundForm::Loop { at: *at })?;
            push_stmt(alloc, plan, &inner, body.get())
        }
        Stmt::Do { at, body, test } => {
            let inner = jumps.inside(alloc, RoundForm::Loop { at: *at })?;
            push_stmt(alloc, plan, &inner, body.get())?;
            push(
                plan,
                Item::Ask {
                    expr: test,
                    want: Want::Truth,
                },
            )
        }
        Stmt::For { at, head, body } => {
            push(plan, Item::Enter)?;
            push_for(plan, head)?;
            let inner = jumps.inside(alloc, RoundForm::Loop { at: *at })?;
            push_stmt(alloc, plan, &inner, body.get())?;
            push(plan, Item::Leave)
        }
        Stmt::Switch {
            at,
            selector,
            groups,
        } => {
            push(plan, Item::Enter)?;
            push(
                plan,
                Item::Ask {
                    expr: selector,
                    want: Want::Selector,
                },
            )?;
            let inner = jumps.inside(alloc, RoundForm::Switch { at: *at })?;
            push_groups(alloc, plan, &inner, groups.slice())?;
            push(plan, Item::Leave)
        }
        Stmt::Return { at, value } => push_return(plan, *at, jumps.returns(), value),
        Stmt::Break { at, label } => push_jump(plan, *at, jumps.break_target(label)),
        Stmt::Continue { at, label } => push_jump(plan, *at, jumps.continue_target(label)),
        Stmt::Throw { at, value } => push(
            plan,
            Item::Ask {
                expr: value,
                want: Want::Thrown { at: *at },
            },
        ),
        Stmt::Try { items, clauses, .. } => {
            push(plan, Item::Enter)?;
            push_stmts(alloc, plan, jumps, items.slice())?;
            push(plan, Item::Leave)?;
            push_catches(alloc, plan, jumps, clauses.slice())
        }
        Stmt::ThisCall { .. } => Ok(()),
        Stmt::SuperCall { .. } => Ok(()),
    }
}

/// Statements that follow one another.
#[cycle(statements)]
#[tactic(auto, using(crate::proofs::Joining::joining))]
fn push_stmts<'a>(
    alloc: Global,
    plan: &mut Items<PlanItem<'a>>,
    jumps: &Jumps<'a>,
    nodes: &'a [Stmt],
) -> Result<(), WantOfMemory>
    ensures { OnOk result (plan.new ≡ plan.old ++ all_items nodes.now jumps.now) }
{
    for node in nodes {
        push_stmt(alloc, plan, jumps, node)?;
    }
    Ok(())
}

/// A part of a statement, where it is told whether a `default` stood before it.
#[cycle(statements)]
#[tactic(auto, using(crate::proofs::Joining::joining))]
fn push_part<'a>(
    alloc: Global,
    plan: &mut Items<PlanItem<'a>>,
    jumps: &Jumps<'a>,
    had: bool,
    node: &'a Clause,
) -> Result<(), WantOfMemory>
    ensures { OnOk result (plan.new ≡ plan.old ++ part_items had node.now jumps.now) }
{
    push_head(plan, node.at, had, &node.head)?;
    push_stmts(alloc, plan, jumps, node.items.slice())
}

/// The arms of an `if`.
#[cycle(statements)]
#[tactic(auto, using(crate::proofs::Joining::joining))]
fn push_arms<'a>(
    alloc: Global,
    plan: &mut Items<PlanItem<'a>>,
    jumps: &Jumps<'a>,
    nodes: &'a [Clause],
) -> Result<(), WantOfMemory>
    ensures { OnOk result (plan.new ≡ plan.old ++ arms_items nodes.now jumps.now) }
{
    for node in nodes {
        push_part(alloc, plan, jumps, false, node)?;
    }
    Ok(())
}

/// The parts of a `switch`: the locals of one are in scope in those behind it.
#[cycle(statements)]
#[tactic(auto, using(crate::proofs::Joining::joining))]
fn push_groups<'a>(
    alloc: Global,
    plan: &mut Items<PlanItem<'a>>,
    jumps: &Jumps<'a>,
    nodes: &'a [Clause],
) -> Result<(), WantOfMemory>
    ensures { OnOk result (plan.new ≡ plan.old ++ groups_items false nodes.now jumps.now) }
{
    let mut had = false;
    for node in nodes {
        push_part(alloc, plan, jumps, had, node)?;
        had = had || is_default(&node.head);
    }
    Ok(())
}

/// The clauses of a `try`, each with a scope of its own.
#[cycle(statements)]
#[tactic(auto, using(crate::proofs::Joining::joining))]
fn push_catches<'a>(
    alloc: Global,
    plan: &mut Items<PlanItem<'a>>,
    jumps: &Jumps<'a>,
    nodes: &'a [Clause],
) -> Result<(), WantOfMemory>
    ensures { OnOk result (plan.new ≡ plan.old ++ catches_items nodes.now jumps.now) }
{
    for node in nodes {
        push(plan, Item::Enter)?;
        push_part(alloc, plan, jumps, false, node)?;
        push(plan, Item::Leave)?;
    }
    Ok(())
}

/// The items of statements that follow one another, in the order of the source (JLS 6.3, 14).
#[tactic(auto, using(crate::proofs::ByParts::whole))]
pub fn plan<'a>(
    alloc: Global,
    jumps: &Jumps<'a>,
    nodes: &'a [Stmt],
) -> Result<Items<PlanItem<'a>>, WantOfMemory>
    ensures { IfOk result (λ it. it ≡ plan.plan jumps.now nodes.now) }
{
    let mut list = Items::new(alloc);
    push_stmts(alloc, &mut list, jumps, nodes)?;
    Ok(list)
}
