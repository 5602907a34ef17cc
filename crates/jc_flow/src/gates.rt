//! What stands before and behind the parts of a statement.
ghost use Rattle.std.specs.Prelude.{◌≡◌, ◌<◌, ◌&&◌, not, false, IfOk, OnOk, length};
ghost use Rattle.std.specs.List.{list_any};
ghost use Rattle.jc_typed.specs.Parts.{cases_of, catches_of, declared_of, expr_of, form_over, operand_of, operands_of, parts, stmts_of, types_of};
ghost use Rattle.jc_flow_spec.specs.Expressions.{declared_flow, is_false, is_true, operand_flow, operands_flow};
ghost use Rattle.jc_flow_spec.specs.States.{again, breaks_if, do_end, switch_end, throws, with_live, with_thrown};
ghost use Rattle.jc_flow_spec.specs.Statements.{expr_thrown, form_thrown, may_fail, may_hold, operand_thrown, passes, stmt_count, thrown_on};
ghost use Rattle.jc_flow_spec.specs.Throwing.{is_useless, rethrown, uncaught};

use crate::numbers::stmt_count;
use crate::walk::Walk;
use jc_flow_parts::{
    break_if, come_again, declared_flow, exact_or, is_false, is_one_useless, is_true, leave,
    may_fail, may_hold, one_type, operand_flow, operands_flow, passes, rethrown, set_live,
    swap_thrown, throw, throw_listed, types_listed, uncaught,
};
use jc_flow_spec::{Exact, Flow, Thrown};
use jc_rules::{Items, Place, Rule, WantOfMemory};
use jc_typed::{ExprForm, ExprNode, OperandNode};
use jc_types::Ty;

/// A branch begins where `entry` holds; the answer is whether control came to its place.
pub fn begin_branch(s: &mut Flow, entry: bool) -> bool
    ensures state { s.new ≡ with_live entry s.old }
    ensures live { result ≡ s.old.live }
{
    let live = s.live;
    set_live(s, entry);
    live
}

/// Before the body of a `while`; the answer is whether control comes behind it without a jump (JLS 14.21).
pub fn begin_while(walk: &Walk, test: u32, s: &mut Flow) -> Result<bool, WantOfMemory>
    requires { test < length walk.now.scene.nodes.now }
    ensures state { OnOk result (s.new ≡ with_live (s.old.live && not (is_false (operand_of walk.now.scene.nodes.now test))) (operand_flow (operand_of walk.now.scene.nodes.now test) s.old)) }
    ensures falls { IfOk result (λ r. r ≡ (s.old.live && not (is_true (operand_of walk.now.scene.nodes.now test)))) }
{
    let is_endless = is_true(walk.scene.nodes, test);
    let is_never = is_false(walk.scene.nodes, test);
    let live = s.live;
    operand_flow(walk.scene.alloc, walk.scene.nodes, test, s)?;
    set_live(s, live && !is_never);
    Ok(live && !is_endless)
}

/// Behind the body of a `do` (JLS 14.21).
pub fn end_do(walk: &Walk, target: u32, test: u32, s: &mut Flow) -> Result<(), WantOfMemory>
    requires { test < length walk.now.scene.nodes.now }
    ensures { OnOk result (s.new ≡ do_end target (not (is_true (operand_of walk.now.scene.nodes.now test))) (operand_flow (operand_of walk.now.scene.nodes.now test) (again target s.old))) }
{
    come_again(s, target);
    operand_flow(walk.scene.alloc, walk.scene.nodes, test, s)?;
    let is_endless = is_true(walk.scene.nodes, test);
    let live = s.live;
    leave(walk.scene.alloc, s, target, live && !is_endless)
}

/// The head of a `for`.
#[derive(Clone, Copy)]
pub struct ForHead {
    pub declared: u32,
    pub before: u32,
    pub test: u32,
    pub update: u32,
}

// What stands in the head of a `for`, the last part first.
fn walk_head(walk: &Walk, head: ForHead, s: &mut Flow) -> Result<(), WantOfMemory>
    requires declared { head.declared < length walk.now.scene.nodes.now }
    requires before { head.before < length walk.now.scene.nodes.now }
    requires test { head.test < length walk.now.scene.nodes.now }
    requires update { head.update < length walk.now.scene.nodes.now }
    ensures { OnOk result (s.new ≡ declared_flow (declared_of walk.now.scene.nodes.now head.declared) (operands_flow (operands_of walk.now.scene.nodes.now head.before) (operands_flow (operands_of walk.now.scene.nodes.now head.test) (operands_flow (operands_of walk.now.scene.nodes.now head.update) s.old)))) }
{
    let alloc = walk.scene.alloc;
    operands_flow(alloc, walk.scene.nodes, head.update, s)?;
    operands_flow(alloc, walk.scene.nodes, head.test, s)?;
    operands_flow(alloc, walk.scene.nodes, head.before, s)?;
    declared_flow(alloc, walk.scene.nodes, head.declared, s)
}

/// Before the body of a `for`; the answer is whether control comes behind it without a jump (JLS 14.21).
pub fn begin_for(walk: &Walk, head: ForHead, s: &mut Flow) -> Result<bool, WantOfMemory>
    requires declared { head.declared < length walk.now.scene.nodes.now }
    requires before { head.before < length walk.now.scene.nodes.now }
    requires test { head.test < length walk.now.scene.nodes.now }
    requires update { head.update < length walk.now.scene.nodes.now }
    ensures state { OnOk result (s.new ≡ with_live (s.old.live && may_hold (operands_of walk.now.scene.nodes.now head.test)) (declared_flow (declared_of walk.now.scene.nodes.now head.declared) (operands_flow (operands_of walk.now.scene.nodes.now head.before) (operands_flow (operands_of walk.now.scene.nodes.now head.test) (operands_flow (operands_of walk.now.scene.nodes.now head.update) s.old))))) }
    ensures falls { IfOk result (λ r. r ≡ (s.old.live && may_fail (operands_of walk.now.scene.nodes.now head.test))) }
{
    let fails = may_fail(walk.scene.nodes, head.test);
    let holds = may_hold(walk.scene.nodes, head.test);
    let live = s.live;
    walk_head(walk, head, s)?;
    set_live(s, live && holds);
    Ok(live && fails)
}

/// Before the body of an enhanced `for`; the answer is whether control comes behind it without a jump (JLS 14.21).
pub fn begin_each(walk: &Walk, of: u32, s: &mut Flow) -> Result<bool, WantOfMemory>
    requires { of < length walk.now.scene.nodes.now }
    ensures state { OnOk result (s.new ≡ operand_flow (operand_of walk.now.scene.nodes.now of) s.old) }
    ensures falls { IfOk result (λ r. r ≡ s.old.live) }
{
    let falls = s.live;
    operand_flow(walk.scene.alloc, walk.scene.nodes, of, s)?;
    Ok(falls)
}

/// Before the statements of a switch; the answer is whether control comes to its selector.
pub fn begin_switch(walk: &Walk, of: u32, s: &mut Flow) -> Result<bool, WantOfMemory>
    requires { of < length walk.now.scene.nodes.now }
    ensures state { OnOk result (s.new ≡ with_live false (operand_flow (operand_of walk.now.scene.nodes.now of) s.old)) }
    ensures entry { IfOk result (λ r. r ≡ s.old.live) }
{
    let entry = s.live;
    operand_flow(walk.scene.alloc, walk.scene.nodes, of, s)?;
    set_live(s, false);
    Ok(entry)
}

/// The labels and statements of a switch.
#[derive(Clone, Copy)]
pub struct SwitchBlock {
    pub cases: u32,
    pub stmts: u32,
}

/// Behind the statements of a switch to whose selector control comes where `entry` holds (JLS 14.21).
pub fn end_switch(
    walk: &Walk,
    target: u32,
    entry: bool,
    block: SwitchBlock,
    s: &mut Flow,
) -> Result<(), WantOfMemory>
    requires cases { block.cases < length walk.now.scene.nodes.now }
    requires stmts { block.stmts < length walk.now.scene.nodes.now }
    ensures { OnOk result (s.new ≡ switch_end target (entry && passes (cases_of walk.now.scene.nodes.now block.cases) (stmt_count (stmts_of walk.now.scene.nodes.now block.stmts))) s.old) }
{
    let count = stmt_count(walk.scene.nodes, block.stmts);
    let passes = passes(walk.scene.nodes, block.cases, count);
    let live = s.live;
    leave(walk.scene.alloc, s, target, live || (entry && passes))
}

// What an expression that is thrown throws: a parameter that is thrown again its own types (JLS 11.2.2).
fn form_thrown(
    walk: &Walk,
    ty: &Ty,
    form: ExprForm,
    exact: &[Exact],
) -> Result<Items<Ty>, WantOfMemory>
    ensures { IfOk result (λ r. r ≡ form_thrown ty.now (form_over (parts walk.now.scene.nodes.now) form) exact.now) }
{
    match form {
        ExprForm::Local { local } => exact_or(walk.scene.alloc, ty, local, exact),
        _ => one_type(walk.scene.alloc, ty),
    }
}

fn expr_thrown(walk: &Walk, at: u32, exact: &[Exact]) -> Result<Items<Ty>, WantOfMemory>
    requires { at < length walk.now.scene.nodes.now }
    ensures { IfOk result (λ r. r ≡ expr_thrown (expr_of walk.now.scene.nodes.now at) exact.now) }
{
    match walk.scene.nodes.expr(at) {
        ExprNode::Missing => Ok(Items::new(walk.scene.alloc)),
        ExprNode::Expr { ty, form, .. } => {
            form_thrown(walk, walk.scene.nodes.ty(ty), form, exact)
        }
    }
}

fn operand_thrown(walk: &Walk, at: u32, exact: &[Exact]) -> Result<Items<Ty>, WantOfMemory>
    requires { at < length walk.now.scene.nodes.now }
    ensures { IfOk result (λ r. r ≡ operand_thrown (operand_of walk.now.scene.nodes.now at) exact.now) }
{
    match walk.scene.nodes.operand(at) {
        OperandNode::Missing => Ok(Items::new(walk.scene.alloc)),
        OperandNode::Operand { of, .. } => expr_thrown(walk, of, exact),
    }
}

// A `throw`, behind its expression.
#[tactic(auto, unfolding(jc_flow_spec::specs::Statements::thrown_on))]
fn throw_on(walk: &Walk, place: Place, of: u32, s: &mut Flow) -> Result<(), WantOfMemory>
    requires { of < length walk.now.scene.nodes.now }
    ensures { OnOk result (s.new ≡ thrown_on place (operand_of walk.now.scene.nodes.now of) s.old) }
{
    let types = operand_thrown(walk, of, s.exact.slice())?;
    throw(walk.scene.alloc, s, place, types.slice())?;
    set_live(s, false);
    Ok(())
}

/// A `throw` (JLS 14.18).
pub fn throw_value(walk: &Walk, place: Place, of: u32, s: &mut Flow) -> Result<(), WantOfMemory>
    requires { of < length walk.now.scene.nodes.now }
    ensures { OnOk result (s.new ≡ thrown_on place (operand_of walk.now.scene.nodes.now of) (operand_flow (operand_of walk.now.scene.nodes.now of) s.old)) }
{
    operand_flow(walk.scene.alloc, walk.scene.nodes, of, s)?;
    throw_on(walk, place, of, s)
}

/// A `return` (JLS 14.17).
pub fn return_value(walk: &Walk, value: u32, s: &mut Flow) -> Result<(), WantOfMemory>
    requires { value < length walk.now.scene.nodes.now }
    ensures { OnOk result (s.new ≡ with_live false (operands_flow (operands_of walk.now.scene.nodes.now value) s.old)) }
{
    operands_flow(walk.scene.alloc, walk.scene.nodes, value, s)?;
    set_live(s, false);
    Ok(())
}

/// A call of another constructor (JLS 8.8.7.1), which throws these types.
pub fn construct(
    walk: &Walk,
    place: Place,
    args: u32,
    thrown: u32,
    s: &mut Flow,
) -> Result<(), WantOfMemory>
    requires args { args < length walk.now.scene.nodes.now }
    requires thrown { thrown < length walk.now.scene.nodes.now }
    ensures { OnOk result (s.new ≡ throws place (types_of walk.now.scene.nodes.now thrown) (operands_flow (operands_of walk.now.scene.nodes.now args) s.old)) }
{
    operands_flow(walk.scene.alloc, walk.scene.nodes, args, s)?;
    throw_listed(walk.scene.alloc, walk.scene.nodes, place, thrown, s)
}

/// Between the block of a `try` and its clauses: what the block throws, of which what no clause catches goes on.
pub fn begin_clauses(walk: &Walk, catches: u32, s: &mut Flow) -> Result<Items<Thrown>, WantOfMemory>
    requires { catches < length walk.now.scene.nodes.now }
    ensures state { OnOk result (s.new ≡ with_thrown (uncaught walk.now.scene.table.now walk.now.scene.env.now.bounds (catches_of walk.now.scene.nodes.now catches) s.old.ways.thrown) s.old) }
    ensures thrown { IfOk result (λ r. r ≡ s.old.ways.thrown) }
{
    let passing = uncaught(&walk.scene, catches, s.ways.thrown.slice())?;
    Ok(swap_thrown(s, passing))
}

/// A catch clause without its block. `before` are the clauses in front of it.
#[derive(Clone, Copy)]
pub struct ClauseHead {
    pub before: u32,
    pub place: Place,
    pub local: u32,
    pub types: u32,
}

/// Before the block of a catch clause behind a block that throws these types: 704, and what its parameter is thrown again with
/// (JLS 11.2.2, 11.2.3).
pub fn begin_clause(
    walk: &Walk,
    thrown: &[Thrown],
    head: ClauseHead,
    s: &mut Flow,
) -> Result<Items<Ty>, WantOfMemory>
    requires before { head.before < length walk.now.scene.nodes.now }
    requires types { head.types < length walk.now.scene.nodes.now }
    ensures state { OnOk result (s.new ≡ breaks_if (list_any (is_useless walk.now.scene.table.now walk.now.scene.env.now.bounds thrown.now (catches_of walk.now.scene.nodes.now head.before)) (types_of walk.now.scene.nodes.now head.types)) 704 head.place s.old) }
    ensures types { IfOk result (λ r. r ≡ rethrown walk.now.scene.table.now walk.now.scene.env.now.bounds (catches_of walk.now.scene.nodes.now head.before) (types_of walk.now.scene.nodes.now head.types) thrown.now) }
{
    let types = types_listed(walk.scene.alloc, walk.scene.nodes, head.types)?;
    let is_useless = is_one_useless(&walk.scene, thrown, head.before, types.slice())?;
    break_if(s, is_useless, Rule::known(704), head.place)?;
    rethrown(&walk.scene, head.before, types.slice(), thrown)
}
