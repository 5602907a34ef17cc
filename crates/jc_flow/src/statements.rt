//! The walk over statements (JLS 11.2, 14.21). A list of statements is walked by a loop; only nests are walked by calls within calls.
ghost use Rattle.std.specs.Prelude.{◌≡◌, ◌<◌, ◌&&◌, ℕ, false, not, OnOk, length};
ghost use Rattle.jc_typed.specs.Copies.{is_among};
ghost use Rattle.jc_typed.specs.Parts.{BelowStmtForm, arms_of, cases_of, catches_of, declared_of, operand_of, operands_of, parts, stmt_form_over, stmt_of, stmts_of, types_of};
ghost use Rattle.jc_flow_spec.specs.Expressions.{declared_flow, is_false, is_true, operand_flow, operands_flow};
ghost use Rattle.jc_flow_spec.specs.States.{again, branch, do_end, label_end, left, no_ways, switch_end, with_live, with_ways};
ghost use Rattle.jc_flow_spec.specs.Statements.{arms_flow, catch_block, catches_flow, clause, clauses_end, finally_flow, is_labelled, labelled_flow, may_fail, may_hold, passes, stmt_count, stmt_flow, stmt_form_flow, stmts_flow};
ghost use Rattle.jc_flow_parts.specs.Lists.{AllBelow, stmts_by};

use crate::gates::{
    ClauseHead, ForHead, SwitchBlock, begin_branch, begin_clause, begin_clauses, begin_each,
    begin_for, begin_switch, begin_while, construct, end_do, end_switch, return_value, throw_value,
};
use crate::numbers::{Numbers, labelled_numbers};
use crate::walk::Walk;
use jc_flow_parts::{
    break_out, close, declared_flow, enter_clause, enter_label, go_on, leave, leave_clause, meet,
    next_stmt, no_ways, operand_flow, pass, reach, set_live, stmts_listed, swap_ways,
};
use jc_flow_spec::{Flow, Thrown, Ways};
use jc_rules::{Items, Place, WantOfMemory};
use jc_typed::{ArmsNode, CatchesNode, ListNode, StmtForm};
use jc_types::Ty;

/// A statement.
#[cycle(stmts)]
pub fn stmt_flow(walk: &Walk, at: u32, s: &mut Flow) -> Result<(), WantOfMemory>
    requires { at < length walk.now.scene.nodes.now }
    ensures { OnOk result (s.new ≡ stmt_flow walk.now.scene.table.now walk.now.scene.env.now.bounds walk.now.assigned.now (stmt_of walk.now.scene.nodes.now at) s.old) }
{
    let node = walk.scene.nodes.stmt(at);
    reach(s, node.place)?;
    stmt_form_flow(walk, at, node.place, node.form, s)
}

/// Statements, one after the other.
#[cycle(stmts)]
pub fn stmts_flow(walk: &Walk, at: u32, s: &mut Flow) -> Result<(), WantOfMemory>
    requires { at < length walk.now.scene.nodes.now }
    ensures { OnOk result (s.new ≡ stmts_flow walk.now.scene.table.now walk.now.scene.env.now.bounds walk.now.assigned.now (stmts_of walk.now.scene.nodes.now at) s.old) }
{
    let places = stmts_listed(walk.scene.alloc, walk.scene.nodes, at)?;
    placed_flow(walk, at, places.slice(), s)
}

// The statements of a list at `at`, by their places, the last one first.
#[cycle(stmts)]
fn placed_flow(walk: &Walk, at: u32, places: &[u32], s: &mut Flow) -> Result<(), WantOfMemory>
    requires within { at < length walk.now.scene.nodes.now }
    requires below { AllBelow at places.now }
    ensures { OnOk result (s.new ≡ stmts_flow walk.now.scene.table.now walk.now.scene.env.now.bounds walk.now.assigned.now (stmts_by walk.now.scene.nodes.now places.now) s.old) }
{
    let mut left = places.len();
    'stmts_left: while left > 0 {
        let next = next_stmt(walk.scene.nodes, at, places, left);
        stmt_flow(walk, next, s)?;
        left -= 1;
    }
    Ok(())
}

/// The labels of a switch, to whose selector control comes where `entry` holds.
#[derive(Clone, Copy)]
struct Labelling<'a> {
    entry: bool,
    cases: u32,
    labels: &'a Numbers,
}

// The statements of a switch block.
#[cycle(stmts)]
fn labelled_flow(
    walk: &Walk,
    at: u32,
    entry: bool,
    cases: u32,
    s: &mut Flow,
) -> Result<(), WantOfMemory>
    requires within { at < length walk.now.scene.nodes.now }
    requires cases { cases < length walk.now.scene.nodes.now }
    ensures { OnOk result (s.new ≡ labelled_flow walk.now.scene.table.now walk.now.scene.env.now.bounds walk.now.assigned.now entry (cases_of walk.now.scene.nodes.now cases) (stmts_of walk.now.scene.nodes.now at) s.old) }
{
    let places = stmts_listed(walk.scene.alloc, walk.scene.nodes, at)?;
    let labels = labelled_numbers(walk.scene.alloc, walk.scene.nodes, cases, places.len())?;
    let labelling = Labelling {
        entry,
        cases,
        labels: &labels,
    };
    labelled_places_flow(walk, at, places.slice(), &labelling, s)
}

// These statements, by their places, the last one first.
#[cycle(stmts)]
fn labelled_places_flow(
    walk: &Walk,
    at: u32,
    places: &[u32],
    labelling: &Labelling,
    s: &mut Flow,
) -> Result<(), WantOfMemory>
    requires within { at < length walk.now.scene.nodes.now }
    requires below { AllBelow at places.now }
    requires labels { (i : ℕ) → is_among i labelling.now.labels.now ≡ is_labelled (cases_of walk.now.scene.nodes.now labelling.now.cases) i }
    ensures { OnOk result (s.new ≡ labelled_flow walk.now.scene.table.now walk.now.scene.env.now.bounds walk.now.assigned.now labelling.now.entry (cases_of walk.now.scene.nodes.now labelling.now.cases) (stmts_by walk.now.scene.nodes.now places.now) s.old) }
{
    let mut left = places.len();
    'stmts_left: while left > 0 {
        let is_labelled = labelling.labels.has(places.len() - left);
        enter_label(s, labelling.entry, is_labelled);
        let next = next_stmt(walk.scene.nodes, at, places, left);
        stmt_flow(walk, next, s)?;
        left -= 1;
    }
    Ok(())
}

// An arm of an `if`.
#[cycle(stmts)]
fn arm_flow(
    walk: &Walk,
    at: u32,
    entry: bool,
    test: u32,
    taken: u32,
    s: &mut Flow,
) -> Result<(), WantOfMemory>
    requires within { at < length walk.now.scene.nodes.now }
    requires test { test < at }
    requires taken { taken < at }
    ensures { OnOk result (s.new ≡ branch entry (stmt_flow walk.now.scene.table.now walk.now.scene.env.now.bounds walk.now.assigned.now (stmt_of walk.now.scene.nodes.now taken)) (operand_flow (operand_of walk.now.scene.nodes.now test) s.old)) }
{
    operand_flow(walk.scene.alloc, walk.scene.nodes, test, s)?;
    let other = begin_branch(s, entry);
    stmt_flow(walk, taken, s)?;
    meet(s, other);
    Ok(())
}

// The arms of an `if`, the last one first.
#[cycle(stmts)]
fn arms_flow(walk: &Walk, at: u32, entry: bool, s: &mut Flow) -> Result<(), WantOfMemory>
    requires { at < length walk.now.scene.nodes.now }
    ensures { OnOk result (s.new ≡ arms_flow walk.now.scene.table.now walk.now.scene.env.now.bounds walk.now.assigned.now entry (arms_of walk.now.scene.nodes.now at) s.old) }
{
    let mut list = at;
    'arms_left: loop {
        match walk.scene.nodes.arms(list) {
            ArmsNode::Empty => return Ok(()),
            ArmsNode::More { before, test, then } => {
                arm_flow(walk, list, entry, test, then, s)?;
                list = before;
            }
        }
    }
}

#[cycle(stmts)]
fn if_flow(walk: &Walk, at: u32, arms: u32, other: u32, s: &mut Flow) -> Result<(), WantOfMemory>
    requires within { at < length walk.now.scene.nodes.now }
    requires arms { arms < at }
    requires other { other < at }
    ensures { OnOk result (s.new ≡ arms_flow walk.now.scene.table.now walk.now.scene.env.now.bounds walk.now.assigned.now s.old.live (arms_of walk.now.scene.nodes.now arms) (stmts_flow walk.now.scene.table.now walk.now.scene.env.now.bounds walk.now.assigned.now (stmts_of walk.now.scene.nodes.now other) s.old)) }
{
    let entry = s.live;
    stmts_flow(walk, other, s)?;
    arms_flow(walk, arms, entry, s)
}

#[cycle(stmts)]
fn label_flow(
    walk: &Walk,
    at: u32,
    target: u32,
    body: u32,
    s: &mut Flow,
) -> Result<(), WantOfMemory>
    requires within { at < length walk.now.scene.nodes.now }
    requires body { body < at }
    ensures { OnOk result (s.new ≡ label_end target (stmt_flow walk.now.scene.table.now walk.now.scene.env.now.bounds walk.now.assigned.now (stmt_of walk.now.scene.nodes.now body) s.old)) }
{
    stmt_flow(walk, body, s)?;
    let falls = s.live;
    leave(walk.scene.alloc, s, target, falls)
}

/// The parts of a loop with one test.
#[derive(Clone, Copy)]
struct Loop {
    target: u32,
    test: u32,
    body: u32,
}

#[cycle(stmts)]
fn while_flow(walk: &Walk, at: u32, parts: Loop, s: &mut Flow) -> Result<(), WantOfMemory>
    requires within { at < length walk.now.scene.nodes.now }
    requires test { parts.test < at }
    requires body { parts.body < at }
    ensures { OnOk result (s.new ≡ left parts.target (s.old.live && not (is_true (operand_of walk.now.scene.nodes.now parts.test))) (stmt_flow walk.now.scene.table.now walk.now.scene.env.now.bounds walk.now.assigned.now (stmt_of walk.now.scene.nodes.now parts.body) (with_live (s.old.live && not (is_false (operand_of walk.now.scene.nodes.now parts.test))) (operand_flow (operand_of walk.now.scene.nodes.now parts.test) s.old)))) }
{
    let falls = begin_while(walk, parts.test, s)?;
    stmt_flow(walk, parts.body, s)?;
    leave(walk.scene.alloc, s, parts.target, falls)
}

#[cycle(stmts)]
fn do_flow(walk: &Walk, at: u32, parts: Loop, s: &mut Flow) -> Result<(), WantOfMemory>
    requires within { at < length walk.now.scene.nodes.now }
    requires test { parts.test < at }
    requires body { parts.body < at }
    ensures { OnOk result (s.new ≡ do_end parts.target (not (is_true (operand_of walk.now.scene.nodes.now parts.test))) (operand_flow (operand_of walk.now.scene.nodes.now parts.test) (again parts.target (stmt_flow walk.now.scene.table.now walk.now.scene.env.now.bounds walk.now.assigned.now (stmt_of walk.now.scene.nodes.now parts.body) s.old)))) }
{
    stmt_flow(walk, parts.body, s)?;
    end_do(walk, parts.target, parts.test, s)
}

#[cycle(stmts)]
fn for_flow(
    walk: &Walk,
    at: u32,
    target: u32,
    head: ForHead,
    body: u32,
    s: &mut Flow,
) -> Result<(), WantOfMemory>
    requires within { at < length walk.now.scene.nodes.now }
    requires declared { head.declared < at }
    requires before { head.before < at }
    requires test { head.test < at }
    requires update { head.update < at }
    requires body { body < at }
    ensures { OnOk result (s.new ≡ left target (s.old.live && may_fail (operands_of walk.now.scene.nodes.now head.test)) (stmt_flow walk.now.scene.table.now walk.now.scene.env.now.bounds walk.now.assigned.now (stmt_of walk.now.scene.nodes.now body) (with_live (s.old.live && may_hold (operands_of walk.now.scene.nodes.now head.test)) (declared_flow (declared_of walk.now.scene.nodes.now head.declared) (operands_flow (operands_of walk.now.scene.nodes.now head.before) (operands_flow (operands_of walk.now.scene.nodes.now head.test) (operands_flow (operands_of walk.now.scene.nodes.now head.update) s.old))))))) }
{
    let falls = begin_for(walk, head, s)?;
    stmt_flow(walk, body, s)?;
    leave(walk.scene.alloc, s, target, falls)
}

// An enhanced `for`.
#[cycle(stmts)]
fn each_flow(
    walk: &Walk,
    at: u32,
    target: u32,
    of: u32,
    body: u32,
    s: &mut Flow,
) -> Result<(), WantOfMemory>
    requires within { at < length walk.now.scene.nodes.now }
    requires whole { of < at }
    requires body { body < at }
    ensures { OnOk result (s.new ≡ left target s.old.live (stmt_flow walk.now.scene.table.now walk.now.scene.env.now.bounds walk.now.assigned.now (stmt_of walk.now.scene.nodes.now body) (operand_flow (operand_of walk.now.scene.nodes.now of) s.old))) }
{
    let falls = begin_each(walk, of, s)?;
    stmt_flow(walk, body, s)?;
    leave(walk.scene.alloc, s, target, falls)
}

#[cycle(stmts)]
fn switch_flow(
    walk: &Walk,
    at: u32,
    target: u32,
    of: u32,
    block: SwitchBlock,
    s: &mut Flow,
) -> Result<(), WantOfMemory>
    requires within { at < length walk.now.scene.nodes.now }
    requires selector { of < at }
    requires cases { block.cases < at }
    requires stmts { block.stmts < at }
    ensures { OnOk result (s.new ≡ switch_end target (s.old.live && passes (cases_of walk.now.scene.nodes.now block.cases) (stmt_count (stmts_of walk.now.scene.nodes.now block.stmts))) (labelled_flow walk.now.scene.table.now walk.now.scene.env.now.bounds walk.now.assigned.now s.old.live (cases_of walk.now.scene.nodes.now block.cases) (stmts_of walk.now.scene.nodes.now block.stmts) (with_live false (operand_flow (operand_of walk.now.scene.nodes.now of) s.old)))) }
{
    let entry = begin_switch(walk, of, s)?;
    labelled_flow(walk, block.stmts, entry, block.cases, s)?;
    end_switch(walk, target, entry, block, s)
}

// The block of a catch clause, whose parameter is thrown again with these types unless something assigns it.
#[cycle(stmts)]
fn catch_block(
    walk: &Walk,
    at: u32,
    local: u32,
    types: Items<Ty>,
    body: u32,
    s: &mut Flow,
) -> Result<(), WantOfMemory>
    requires within { at < length walk.now.scene.nodes.now }
    requires body { body < at }
    ensures { OnOk result (s.new ≡ catch_block walk.now.scene.table.now walk.now.scene.env.now.bounds walk.now.assigned.now local types (stmt_flow walk.now.scene.table.now walk.now.scene.env.now.bounds walk.now.assigned.now (stmt_of walk.now.scene.nodes.now body)) s.old) }
{
    if walk.assigned.has(local as usize) {
        return stmt_flow(walk, body, s);
    }
    enter_clause(s, local, types)?;
    stmt_flow(walk, body, s)?;
    leave_clause(s);
    Ok(())
}

/// What stands before the clauses of a `try`: whether control comes to it, and what its block throws.
#[derive(Clone, Copy)]
struct Tried<'a> {
    entry: bool,
    thrown: &'a [Thrown],
}

#[cycle(stmts)]
fn clause_flow(
    walk: &Walk,
    at: u32,
    tried: &Tried,
    head: ClauseHead,
    body: u32,
    s: &mut Flow,
) -> Result<(), WantOfMemory>
    requires within { at < length walk.now.scene.nodes.now }
    requires before { head.before < at }
    requires types { head.types < at }
    requires body { body < at }
    ensures { OnOk result (s.new ≡ clause walk.now.scene.table.now walk.now.scene.env.now.bounds walk.now.assigned.now tried.now.entry tried.now.thrown.now (catches_of walk.now.scene.nodes.now head.before) head.place head.local (types_of walk.now.scene.nodes.now head.types) (stmt_flow walk.now.scene.table.now walk.now.scene.env.now.bounds walk.now.assigned.now (stmt_of walk.now.scene.nodes.now body)) s.old) }
{
    let types = begin_clause(walk, tried.thrown, head, s)?;
    let other = begin_branch(s, tried.entry);
    catch_block(walk, at, head.local, types, body, s)?;
    meet(s, other);
    Ok(())
}

// The clauses of a `try`, the last one first.
#[cycle(stmts)]
fn catches_flow(walk: &Walk, at: u32, tried: &Tried, s: &mut Flow) -> Result<(), WantOfMemory>
    requires { at < length walk.now.scene.nodes.now }
    ensures { OnOk result (s.new ≡ catches_flow walk.now.scene.table.now walk.now.scene.env.now.bounds walk.now.assigned.now tried.now.entry tried.now.thrown.now (catches_of walk.now.scene.nodes.now at) s.old) }
{
    let mut list = at;
    'clauses_left: loop {
        match walk.scene.nodes.catches(list) {
            CatchesNode::Empty => return Ok(()),
            CatchesNode::More {
                before,
                place,
                local,
                types,
                body,
            } => {
                let head = ClauseHead {
                    before,
                    place,
                    local,
                    types,
                };
                clause_flow(walk, list, tried, head, body, s)?;
                list = before;
            }
        }
    }
}

// From the end of the block of a `try` on.
#[cycle(stmts)]
fn clauses_flow(walk: &Walk, at: u32, entry: bool, s: &mut Flow) -> Result<(), WantOfMemory>
    requires { at < length walk.now.scene.nodes.now }
    ensures { OnOk result (s.new ≡ clauses_end walk.now.scene.table.now walk.now.scene.env.now.bounds walk.now.assigned.now (λ thrown. catches_flow walk.now.scene.table.now walk.now.scene.env.now.bounds walk.now.assigned.now entry thrown (catches_of walk.now.scene.nodes.now at)) (catches_of walk.now.scene.nodes.now at) s.old) }
{
    let thrown = begin_clauses(walk, at, s)?;
    let tried = Tried {
        entry,
        thrown: thrown.slice(),
    };
    catches_flow(walk, at, &tried, s)
}

// The optional block behind `finally`; `outer` are the ways out from before the `try`.
#[cycle(stmts)]
fn finally_flow(
    walk: &Walk,
    at: u32,
    entry: bool,
    outer: Ways,
    s: &mut Flow,
) -> Result<(), WantOfMemory>
    requires { at < length walk.now.scene.nodes.now }
    ensures { OnOk result (s.new ≡ finally_flow walk.now.scene.table.now walk.now.scene.env.now.bounds walk.now.assigned.now entry outer (stmts_of walk.now.scene.nodes.now at) s.old) }
{
    match walk.scene.nodes.stmts(at) {
        ListNode::Empty => close(walk.scene.alloc, s, outer),
        ListNode::More { before, last } => {
            let live = s.live;
            let inner = swap_ways(s, no_ways(walk.scene.alloc));
            set_live(s, entry);
            stmts_flow(walk, before, s)?;
            stmt_flow(walk, last, s)?;
            pass(walk.scene.alloc, s, outer, live, inner)
        }
    }
}

/// The parts of a `try`.
#[derive(Clone, Copy)]
struct TryParts {
    body: u32,
    catches: u32,
    last: u32,
}

#[cycle(stmts)]
fn try_flow(walk: &Walk, at: u32, parts: TryParts, s: &mut Flow) -> Result<(), WantOfMemory>
    requires within { at < length walk.now.scene.nodes.now }
    requires body { parts.body < at }
    requires catches { parts.catches < at }
    requires last { parts.last < at }
    ensures { OnOk result (s.new ≡ finally_flow walk.now.scene.table.now walk.now.scene.env.now.bounds walk.now.assigned.now s.old.live s.old.ways (stmts_of walk.now.scene.nodes.now parts.last) (clauses_end walk.now.scene.table.now walk.now.scene.env.now.bounds walk.now.assigned.now (λ thrown. catches_flow walk.now.scene.table.now walk.now.scene.env.now.bounds walk.now.assigned.now s.old.live thrown (catches_of walk.now.scene.nodes.now parts.catches)) (catches_of walk.now.scene.nodes.now parts.catches) (stmt_flow walk.now.scene.table.now walk.now.scene.env.now.bounds walk.now.assigned.now (stmt_of walk.now.scene.nodes.now parts.body) (with_ways no_ways s.old)))) }
{
    let entry = s.live;
    let outer = swap_ways(s, no_ways(walk.scene.alloc));
    stmt_flow(walk, parts.body, s)?;
    clauses_flow(walk, parts.catches, entry, s)?;
    finally_flow(walk, parts.last, entry, outer, s)
}

// By the form of the statement, where it has been told whether control comes to it.
#[cycle(stmts)]
fn stmt_form_flow(
    walk: &Walk,
    at: u32,
    place: Place,
    form: StmtForm,
    s: &mut Flow,
) -> Result<(), WantOfMemory>
    requires within { at < length walk.now.scene.nodes.now }
    requires below { BelowStmtForm at form }
    ensures { OnOk result (s.new ≡ stmt_form_flow walk.now.scene.table.now walk.now.scene.env.now.bounds walk.now.assigned.now place (stmt_form_over (parts walk.now.scene.nodes.now) form) s.old) }
{
    let alloc = walk.scene.alloc;
    let nodes = walk.scene.nodes;
    match form {
        StmtForm::Empty => Ok(()),
        StmtForm::Block { stmts } => stmts_flow(walk, stmts, s),
        StmtForm::Locals { declared } => declared_flow(alloc, nodes, declared, s),
        StmtForm::Effect { of } => operand_flow(alloc, nodes, of, s),
        StmtForm::If { arms, other } => if_flow(walk, at, arms, other, s),
        StmtForm::Labelled { target, body } => label_flow(walk, at, target, body, s),
        StmtForm::While { target, test, body } => {
            while_flow(walk, at, Loop { target, test, body }, s)
        }
        StmtForm::Do { target, body, test } => do_flow(walk, at, Loop { target, test, body }, s),
        StmtForm::For {
            target,
            declared,
            before,
            test,
            update,
            body,
        } => {
            let head = ForHead {
                declared,
                before,
                test,
                update,
            };
            for_flow(walk, at, target, head, body, s)
        }
        StmtForm::ForArray {
            target,
            of,
            body,
            ..
        } => each_flow(walk, at, target, of, body, s),
        StmtForm::ForIterable {
            target,
            of,
            body,
            ..
        } => each_flow(walk, at, target, of, body, s),
        StmtForm::Switch {
            target,
            of,
            cases,
            stmts,
        } => switch_flow(walk, at, target, of, SwitchBlock { cases, stmts }, s),
        StmtForm::Return { value } => return_value(walk, value, s),
        StmtForm::Break { target } => break_out(s, target),
        StmtForm::Continue { target } => go_on(s, target),
        StmtForm::Throw { of } => throw_value(walk, place, of, s),
        StmtForm::Try {
            body,
            catches,
            last,
            ..
        } => {
            let parts = TryParts {
                body,
                catches,
                last,
            };
            try_flow(walk, at, parts, s)
        }
        StmtForm::Construct { args, thrown, .. } => construct(walk, place, args, thrown, s),
        StmtForm::Initialise { value, .. } => operand_flow(alloc, nodes, value, s),
    }
}
