//! What the statements of a body are warned of.
ghost use Rattle.std.specs.Prelude.{◌≡◌, ◌++◌, ◌<◌, OnOk, length};
ghost use Rattle.jc_typed.specs.Parts.{BelowStmtForm, arms_of, catches_of, operand_of, parts, steps_of, stmt_form_over, stmt_of, stmts_of};
ghost use Rattle.jc_unchecked_spec.specs.Bodies.{of_arms, of_catches, of_elements, of_stmt, of_stmt_form, of_stmts};
ghost use Rattle.jc_unchecked_spec.specs.Warnings.{body_warned};
ghost use Rattle.jc_unchecked_list.specs.Telling.{told};

use crate::conversions::has_unchecked;
use crate::expressions::{tell_declared, tell_operand, tell_operands};
use crate::forms::{MemberUse, tell_member};
use crate::walk::Walk;
use jc_rules::{Items, Place, WantOfMemory};
use jc_typed::{ArmsNode, Body, CatchesNode, ListNode, OperandNode, StmtForm, TypedMethod};
use jc_types::Table;
use jc_unchecked_list::tell_if;
use jc_unchecked_spec::{Warning, WarningKind};
use std::alloc::Global;

// What an enhanced `for` goes over, whose elements go into the variable by these steps (JLS 14.14.2).
#[tactic(auto, using(jc_unchecked_list::proofs::Told::telling))]
fn tell_elements(
    walk: &Walk,
    of: u32,
    steps: u32,
    out: &mut Items<Warning>,
) -> Result<(), WantOfMemory>
    requires of { of < length walk.now.nodes.now }
    requires steps { steps < length walk.now.nodes.now }
    ensures { OnOk result (out.new ≡ told (of_elements walk.now.table.now walk.now.env.now.bounds (operand_of walk.now.nodes.now of) (steps_of walk.now.nodes.now steps)) out.old) }
{
    match walk.nodes.operand(of) {
        OperandNode::Missing => tell_operand(walk, of, out),
        OperandNode::Operand { place, .. } => {
            tell_if(
                has_unchecked(walk, steps),
                WarningKind::Conversion,
                place,
                out,
            )?;
            tell_operand(walk, of, out)
        }
    }
}

#[cycle(stmts)]
#[tactic(auto, using(jc_unchecked_list::proofs::Told::telling))]
fn tell_stmt(walk: &Walk, at: u32, out: &mut Items<Warning>) -> Result<(), WantOfMemory>
    requires { at < length walk.now.nodes.now }
    ensures { OnOk result (out.new ≡ told (of_stmt walk.now.table.now walk.now.env.now.bounds (stmt_of walk.now.nodes.now at)) out.old) }
{
    let node = walk.nodes.stmt(at);
    tell_stmt_form(walk, at, node.place, node.form, out)
}

#[cycle(stmts)]
#[tactic(auto, using(jc_unchecked_list::proofs::Told::telling))]
fn tell_stmts(walk: &Walk, at: u32, out: &mut Items<Warning>) -> Result<(), WantOfMemory>
    requires { at < length walk.now.nodes.now }
    ensures { OnOk result (out.new ≡ told (of_stmts walk.now.table.now walk.now.env.now.bounds (stmts_of walk.now.nodes.now at)) out.old) }
{
    let mut list = at;
    'stmts_left: loop {
        match walk.nodes.stmts(list) {
            ListNode::Empty => return Ok(()),
            ListNode::More { before, last } => {
                tell_stmt(walk, last, out)?;
                list = before;
            }
        }
    }
}

#[cycle(stmts)]
#[tactic(auto, using(jc_unchecked_list::proofs::Told::telling))]
fn tell_arms(walk: &Walk, at: u32, out: &mut Items<Warning>) -> Result<(), WantOfMemory>
    requires { at < length walk.now.nodes.now }
    ensures { OnOk result (out.new ≡ told (of_arms walk.now.table.now walk.now.env.now.bounds (arms_of walk.now.nodes.now at)) out.old) }
{
    let mut list = at;
    'arms_left: loop {
        match walk.nodes.arms(list) {
            ArmsNode::Empty => return Ok(()),
            ArmsNode::More { before, test, then } => {
                tell_stmt(walk, then, out)?;
                tell_operand(walk, test, out)?;
                list = before;
            }
        }
    }
}

#[cycle(stmts)]
#[tactic(auto, using(jc_unchecked_list::proofs::Told::telling))]
fn tell_catches(walk: &Walk, at: u32, out: &mut Items<Warning>) -> Result<(), WantOfMemory>
    requires { at < length walk.now.nodes.now }
    ensures { OnOk result (out.new ≡ told (of_catches walk.now.table.now walk.now.env.now.bounds (catches_of walk.now.nodes.now at)) out.old) }
{
    let mut list = at;
    'catches_left: loop {
        match walk.nodes.catches(list) {
            CatchesNode::Empty => return Ok(()),
            CatchesNode::More { before, body, .. } => {
                tell_stmt(walk, body, out)?;
                list = before;
            }
        }
    }
}

#[cycle(stmts)]
#[tactic(auto, using(jc_unchecked_list::proofs::Told::telling))]
fn tell_stmt_form(
    walk: &Walk,
    at: u32,
    place: Place,
    form: StmtForm,
    out: &mut Items<Warning>,
) -> Result<(), WantOfMemory>
    requires within { at < length walk.now.nodes.now }
    requires below { BelowStmtForm at form }
    ensures { OnOk result (out.new ≡ told (of_stmt_form walk.now.table.now walk.now.env.now.bounds place (stmt_form_over (parts walk.now.nodes.now) form)) out.old) }
{
    match form {
        StmtForm::Empty => Ok(()),
        StmtForm::Block { stmts } => tell_stmts(walk, stmts, out),
        StmtForm::Locals { declared } => tell_declared(walk, declared, out),
        StmtForm::Effect { of } => tell_operand(walk, of, out),
        StmtForm::If { arms, other } => {
            tell_stmts(walk, other, out)?;
            tell_arms(walk, arms, out)
        }
        StmtForm::Labelled { body, .. } => tell_stmt(walk, body, out),
        StmtForm::While { test, body, .. } => {
            tell_stmt(walk, body, out)?;
            tell_operand(walk, test, out)
        }
        StmtForm::Do { body, test, .. } => {
            tell_operand(walk, test, out)?;
            tell_stmt(walk, body, out)
        }
        StmtForm::For {
            declared,
            before,
            test,
            update,
            body,
            ..
        } => {
            tell_stmt(walk, body, out)?;
            tell_operands(walk, update, out)?;
            tell_operands(walk, test, out)?;
            tell_operands(walk, before, out)?;
            tell_declared(walk, declared, out)
        }
        StmtForm::ForArray {
            of,
            steps,
            body,
            ..
        } => {
            tell_stmt(walk, body, out)?;
            tell_elements(walk, of, steps, out)
        }
        StmtForm::ForIterable {
            of,
            steps,
            body,
            ..
        } => {
            tell_stmt(walk, body, out)?;
            tell_elements(walk, of, steps, out)
        }
        StmtForm::Switch { of, stmts, .. } => {
            tell_stmts(walk, stmts, out)?;
            tell_operand(walk, of, out)
        }
        StmtForm::Return { value } => tell_operands(walk, value, out),
        StmtForm::Break { .. } => Ok(()),
        StmtForm::Continue { .. } => Ok(()),
        StmtForm::Throw { of } => tell_operand(walk, of, out),
        StmtForm::Try {
            body,
            catches,
            last,
            ..
        } => {
            tell_stmts(walk, last, out)?;
            tell_catches(walk, catches, out)?;
            tell_stmt(walk, body, out)
        }
        StmtForm::Construct {
            constructor,
            args,
            phase,
            is_raw,
            ..
        } => {
            tell_operands(walk, args, out)?;
            let used = MemberUse {
                place,
                method: constructor,
                args,
                phase,
                is_raw,
            };
            tell_member(walk, used, out)
        }
        StmtForm::Initialise { value, .. } => tell_operand(walk, value, out),
    }
}

// The call of another constructor, the initialisers, and the block.
#[tactic(auto, using(jc_unchecked_list::proofs::Told::telling))]
fn tell_body(walk: &Walk, body: Body, out: &mut Items<Warning>) -> Result<(), WantOfMemory>
    requires call { body.call < length walk.now.nodes.now }
    requires initialisers { body.initialisers < length walk.now.nodes.now }
    requires rest { body.rest < length walk.now.nodes.now }
    ensures { OnOk result (out.new ≡ told (of_stmts walk.now.table.now walk.now.env.now.bounds (stmts_of walk.now.nodes.now body.call) ++ of_stmts walk.now.table.now walk.now.env.now.bounds (stmts_of walk.now.nodes.now body.initialisers) ++ of_stmt walk.now.table.now walk.now.env.now.bounds (stmt_of walk.now.nodes.now body.rest)) out.old) }
{
    tell_stmt(walk, body.rest, out)?;
    tell_stmts(walk, body.initialisers, out)?;
    tell_stmts(walk, body.call, out)
}

/// What the body of a method is warned of, the last one first.
pub fn tell_method(
    alloc: Global,
    table: &Table,
    method: &TypedMethod,
    out: &mut Items<Warning>,
) -> Result<(), WantOfMemory>
    ensures { OnOk result (out.new ≡ told (body_warned table.now method.now method.now.body) out.old) }
{
    match method.body {
        None => Ok(()),
        Some(body) => {
            let walk = Walk {
                alloc,
                table,
                env: &method.captured,
                nodes: &method.nodes,
            };
            tell_body(&walk, body, out)
        }
    }
}
