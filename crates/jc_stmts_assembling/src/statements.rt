//! The walk over statements. It goes down the nests, and over the statements that follow one another by loops.
ghost use Rattle.std.specs.Prelude.{◌≡◌, ◌<◌, ◌+◌, length, IfOk};
ghost use Rattle.jc_tree.specs.declared.statement.Clause.{out-Clause};
ghost use Rattle.jc_typed.specs.Bulk.{capped};
ghost use Rattle.jc_typed.specs.Copies.{copies_of};
ghost use Rattle.jc_typed.specs.Parts.{Grows, arms_of, stmt_of, stmts_of};
ghost use Rattle.jc_typed.specs.Trees.{NoArms, NoCatches, NoStmts, Try, stmt};
ghost use Rattle.jc_stmts_spec.specs.Assembling.{assemble, at as place_at, count_of, each_of, or_zero};
ghost use Rattle.jc_stmts_answers.specs.Answers.{AnswersBelow, ElementsBelow, answers_of, elements_of};
ghost use Rattle.jc_stmts_assembling.specs.Flat.{arm_made, arms_made, block_made, catch_made, clause_head, clause_made, clauses_made, do_made, each_made, finally_made, first_arm, for_made, group_made, groups_made, labelled_made, made_of, only_made, over_made, stmts_made, switch_made, while_made};
ghost use Rattle.jc_stmts_assembling.specs.Heads.{CasedBelow, ClausesBelow, cased_of, clauses_of};

use crate::declaring::take_locals;
use crate::groups::{CasedAt, ClausesAt, MadeCased, MadeClauses, no_clauses, no_groups, push_case};
use crate::heads::{BasicHead, each_form, take_head};
use crate::pushing::{Made, push_arms, push_catches, push_stmt, push_stmts};
use crate::taking::{take_local, take_operand, take_operand_if, take_types};
use jc_rules::{Place, WantOfMemory};
use jc_stmts_answers::{AnswerAt, ElementsAt};
use jc_stmts_copies::copies;
use jc_stmts_plan::{Jumps, RoundForm, loop_of};
use jc_tree::{
    Clause, ClauseHead, ForHead, Ident, Stmt, first_offset_of_expr, first_offset_of_locals,
};
use jc_typed::{ArmsNode, CatchesNode, ListNode, Nodes, StmtForm, StmtNode};
use std::alloc::Global;

/// What statements stand in: their file, and where jumps go.
#[derive(Clone, Copy)]
pub struct Assembling<'j, 'a> {
    pub alloc: Global,
    pub file: u64,
    pub jumps: &'j Jumps<'a>,
}

/// The number of a statement that a jump goes to; 0 where there is none.
fn or_zero(target: Option<u32>) -> u32
    ensures { result ≡ or_zero target }
{
    match target {
        Some(number) => number,
        None => 0,
    }
}

/// How many statements there are with these. There are fewer than 2 to the 32, since each has a place in the arena.
fn count_with(count: u32, more: usize) -> Result<u32, WantOfMemory>
    ensures { IfOk result (λ n. n ≡ count + more) }
{
    let whole = (count as u64).saturating_add(more as u64);
    if whole > 4294967295 {
        return Err(WantOfMemory);
    }
    Ok(whole as u32)
}

/// The offset of the first arm of an `if`.
fn first_arm(arms: &[Clause]) -> u32
    ensures { result ≡ first_arm arms.now }
{
    match arms {
        [] => 0,
        [first, ..] => first.at,
    }
}

/// A statement at an offset of the file.
fn node_at(file: u64, at: u32, form: StmtForm) -> StmtNode
    ensures { result ≡ record { place = place_at file at; form = form } }
{
    StmtNode {
        place: Place { file, at },
        form,
    }
}

/// A `try` of a block and its clauses, with how often its finally block stands in the code.
#[tactic(auto, using(jc_typed::proofs::Growing::growing))]
fn push_try<'s>(
    scene: Assembling,
    nodes: &mut Nodes,
    at: u32,
    body: u32,
    behind: MadeClauses<'s>,
) -> Result<Made<'s>, WantOfMemory>
    requires body { body < length nodes.old }
    requires clauses { ClausesBelow (length nodes.old) behind.it }
    requires answers { AnswersBelow (length nodes.old) behind.left.now }
    ensures value { IfOk result (λ r. (let b = stmt_of nodes.old body in let c = clauses_of nodes.old behind.entry.it in stmt (place_at scene.entry.file at) (Try b c.catches c.last (capped (copies_of b c.catches)))) ≡ stmt_of nodes.new r.at) }
    ensures left { IfOk result (λ r. answers_of nodes.old behind.entry.left.now ≡ answers_of nodes.new r.left.now) }
    ensures within { IfOk result (λ r. r.at < length nodes.new) }
    ensures below { IfOk result (λ r. AnswersBelow (length nodes.new) r.left.now) }
    ensures grows { Grows nodes.old nodes.new }
{
    let copies = copies(scene.alloc, nodes, body, behind.it.catches)?;
    let form = StmtForm::Try {
        body,
        catches: behind.it.catches,
        last: behind.it.last,
        copies,
    };
    push_stmt(nodes, node_at(scene.file, at, form), behind.left)
}

/// An enhanced `for` over some elements by its local and its body.
#[tactic(auto, using(jc_typed::proofs::Growing::growing, crate::proofs::Elements::forms))]
fn push_elements<'s>(
    scene: Assembling,
    nodes: &mut Nodes,
    at: u32,
    elements: ElementsAt,
    local: u32,
    body: Made<'s>,
) -> Result<Made<'s>, WantOfMemory>
    requires elements { ElementsBelow (length nodes.old) elements }
    requires body { body.at < length nodes.old }
    requires answers { AnswersBelow (length nodes.old) body.left.now }
    ensures value { IfOk result (λ r. stmt (place_at scene.entry.file at) (each_of at (elements_of nodes.old elements) local (stmt_of nodes.old body.entry.at)) ≡ stmt_of nodes.new r.at) }
    ensures left { IfOk result (λ r. answers_of nodes.old body.entry.left.now ≡ answers_of nodes.new r.left.now) }
    ensures within { IfOk result (λ r. r.at < length nodes.new) }
    ensures below { IfOk result (λ r. AnswersBelow (length nodes.new) r.left.now) }
    ensures grows { Grows nodes.old nodes.new }
{
    let form = each_form(at, elements, local, body.at);
    push_stmt(nodes, node_at(scene.file, at, form), body.left)
}

#[cycle(statements)]
#[tactic(auto, using(jc_typed::proofs::Growing::growing, crate::proofs::ByForm::forms), unfolding(crate::specs::Flat::if_made, crate::specs::Flat::try_made))]
fn push_source<'a, 's>(
    scene: Assembling<'_, 'a>,
    nodes: &mut Nodes,
    node: &'a Stmt,
    left: &'s [AnswerAt],
) -> Result<Made<'s>, WantOfMemory>
    requires { AnswersBelow (length nodes.old) left.now }
    ensures value { IfOk result (λ r. (made_of scene.entry.file node.now scene.entry.jumps.now (answers_of nodes.old left.now)).it ≡ stmt_of nodes.new r.at) }
    ensures left { IfOk result (λ r. (made_of scene.entry.file node.now scene.entry.jumps.now (answers_of nodes.old left.now)).left ≡ answers_of nodes.new r.left.now) }
    ensures within { IfOk result (λ r. r.at < length nodes.new) }
    ensures below { IfOk result (λ r. AnswersBelow (length nodes.new) r.left.now) }
    ensures grows { Grows nodes.old nodes.new }
{
    let file = scene.file;
    match node {
        Stmt::Local(vars) => {
            let it = take_locals(nodes, vars, left)?;
            let form = StmtForm::Locals { declared: it.at };
            let at = first_offset_of_locals(vars);
            push_stmt(nodes, node_at(file, at, form), it.left)
        }
        Stmt::Declared(_) => push_stmt(nodes, node_at(file, 0, StmtForm::Empty), left),
        Stmt::Block { at, items } => push_block(scene, nodes, *at, items.slice(), left),
        Stmt::Empty { at } => push_stmt(nodes, node_at(file, *at, StmtForm::Empty), left),
        Stmt::Effect(expr) => {
            let it = take_operand(nodes, left)?;
            let form = StmtForm::Effect { of: it.at };
            let at = first_offset_of_expr(expr);
            push_stmt(nodes, node_at(file, at, form), it.left)
        }
        Stmt::Labeled { label, body } => push_labelled(scene, nodes, label, body.get(), left),
        Stmt::If { arms, otherwise } => {
            let tested = push_arms_of(scene, nodes, arms.slice(), left)?;
            let other = push_all(scene, nodes, otherwise.slice(), tested.left)?;
            let form = StmtForm::If {
                arms: tested.at,
                other: other.at,
            };
            push_stmt(
                nodes,
                node_at(file, first_arm(arms.slice()), form),
                other.left,
            )
        }
        Stmt::While { at, body, .. } => push_while(scene, nodes, *at, body.get(), left),
        Stmt::Do { at, body, .. } => push_do(scene, nodes, *at, body.get(), left),
        Stmt::For { at, head, body } => {
            let jumps = scene
                .jumps
                .inside(scene.alloc, RoundForm::Loop { at: *at })?;
            let inner = Assembling {
                alloc: scene.alloc,
                file: scene.file,
                jumps: &jumps,
            };
            push_for(inner, nodes, *at, head, body.get(), left)
        }
        Stmt::Switch { at, groups, .. } => push_switch(scene, nodes, *at, groups.slice(), left),
        Stmt::Return { at, value } => {
            let it = take_operand_if(nodes, value, left)?;
            let form = StmtForm::Return { value: it.at };
            push_stmt(nodes, node_at(file, *at, form), it.left)
        }
        Stmt::Break { at, label } => {
            let target = or_zero(scene.jumps.break_target(label));
            push_stmt(nodes, node_at(file, *at, StmtForm::Break { target }), left)
        }
        Stmt::Continue { at, label } => {
            let target = or_zero(scene.jumps.continue_target(label));
            push_stmt(
                nodes,
                node_at(file, *at, StmtForm::Continue { target }),
                left,
            )
        }
        Stmt::Throw { at, .. } => {
            let it = take_operand(nodes, left)?;
            let form = StmtForm::Throw { of: it.at };
            push_stmt(nodes, node_at(file, *at, form), it.left)
        }
        Stmt::Try {
            at,
            items,
            clauses,
            ..
        } => {
            let body = push_block(scene, nodes, *at, items.slice(), left)?;
            let behind = push_clauses_of(scene, nodes, clauses.slice(), body.left)?;
            push_try(scene, nodes, *at, body.at, behind)
        }
        Stmt::ThisCall { at, .. } => push_stmt(nodes, node_at(file, *at, StmtForm::Empty), left),
        Stmt::SuperCall { at, .. } => push_stmt(nodes, node_at(file, *at, StmtForm::Empty), left),
    }
}

/// Statements that follow one another, behind some others.
#[cycle(statements)]
#[tactic(auto, using(jc_typed::proofs::Growing::growing), unfolding(crate::specs::Flat::stmts_made))]
fn push_sources<'a, 's>(
    scene: Assembling<'_, 'a>,
    nodes: &mut Nodes,
    before: u32,
    sources: &'a [Stmt],
    left: &'s [AnswerAt],
) -> Result<Made<'s>, WantOfMemory>
    requires before { before < length nodes.old }
    requires answers { AnswersBelow (length nodes.old) left.now }
    ensures value { IfOk result (λ r. (stmts_made scene.entry.file (stmts_of nodes.old before) sources.now scene.entry.jumps.now (answers_of nodes.old left.now)).it ≡ stmts_of nodes.new r.at) }
    ensures left { IfOk result (λ r. (stmts_made scene.entry.file (stmts_of nodes.old before) sources.now scene.entry.jumps.now (answers_of nodes.old left.now)).left ≡ answers_of nodes.new r.left.now) }
    ensures within { IfOk result (λ r. r.at < length nodes.new) }
    ensures below { IfOk result (λ r. AnswersBelow (length nodes.new) r.left.now) }
    ensures grows { Grows nodes.old nodes.new }
{
    let mut list = Made { at: before, left };
    for source in sources {
        let last = push_source(scene, nodes, source, list.left)?;
        let node = ListNode::More {
            before: list.at,
            last: last.at,
        };
        list = push_stmts(nodes, node, last.left)?;
    }
    Ok(list)
}

/// Statements that follow one another.
#[cycle(statements)]
#[tactic(auto, using(jc_typed::proofs::Growing::growing))]
fn push_all<'a, 's>(
    scene: Assembling<'_, 'a>,
    nodes: &mut Nodes,
    sources: &'a [Stmt],
    left: &'s [AnswerAt],
) -> Result<Made<'s>, WantOfMemory>
    requires { AnswersBelow (length nodes.old) left.now }
    ensures value { IfOk result (λ r. (stmts_made scene.entry.file NoStmts sources.now scene.entry.jumps.now (answers_of nodes.old left.now)).it ≡ stmts_of nodes.new r.at) }
    ensures left { IfOk result (λ r. (stmts_made scene.entry.file NoStmts sources.now scene.entry.jumps.now (answers_of nodes.old left.now)).left ≡ answers_of nodes.new r.left.now) }
    ensures within { IfOk result (λ r. r.at < length nodes.new) }
    ensures below { IfOk result (λ r. AnswersBelow (length nodes.new) r.left.now) }
    ensures grows { Grows nodes.old nodes.new }
{
    let none = push_stmts(nodes, ListNode::Empty, left)?;
    push_sources(scene, nodes, none.at, sources, none.left)
}

#[cycle(statements)]
#[tactic(auto, using(jc_typed::proofs::Growing::growing), unfolding(crate::specs::Flat::block_made))]
fn push_block<'a, 's>(
    scene: Assembling<'_, 'a>,
    nodes: &mut Nodes,
    at: u32,
    sources: &'a [Stmt],
    left: &'s [AnswerAt],
) -> Result<Made<'s>, WantOfMemory>
    requires { AnswersBelow (length nodes.old) left.now }
    ensures value { IfOk result (λ r. (block_made scene.entry.file at sources.now scene.entry.jumps.now (answers_of nodes.old left.now)).it ≡ stmt_of nodes.new r.at) }
    ensures left { IfOk result (λ r. (block_made scene.entry.file at sources.now scene.entry.jumps.now (answers_of nodes.old left.now)).left ≡ answers_of nodes.new r.left.now) }
    ensures within { IfOk result (λ r. r.at < length nodes.new) }
    ensures below { IfOk result (λ r. AnswersBelow (length nodes.new) r.left.now) }
    ensures grows { Grows nodes.old nodes.new }
{
    let it = push_all(scene, nodes, sources, left)?;
    let form = StmtForm::Block { stmts: it.at };
    push_stmt(nodes, node_at(scene.file, at, form), it.left)
}

/// The one statement behind a test. No statement stands for an empty one.
#[cycle(statements)]
#[tactic(auto, using(jc_typed::proofs::Growing::growing), unfolding(crate::specs::Flat::only_made))]
fn push_only<'a, 's>(
    scene: Assembling<'_, 'a>,
    nodes: &mut Nodes,
    at: u32,
    sources: &'a [Stmt],
    left: &'s [AnswerAt],
) -> Result<Made<'s>, WantOfMemory>
    requires { AnswersBelow (length nodes.old) left.now }
    ensures value { IfOk result (λ r. (only_made scene.entry.file at sources.now scene.entry.jumps.now (answers_of nodes.old left.now)).it ≡ stmt_of nodes.new r.at) }
    ensures left { IfOk result (λ r. (only_made scene.entry.file at sources.now scene.entry.jumps.now (answers_of nodes.old left.now)).left ≡ answers_of nodes.new r.left.now) }
    ensures within { IfOk result (λ r. r.at < length nodes.new) }
    ensures below { IfOk result (λ r. AnswersBelow (length nodes.new) r.left.now) }
    ensures grows { Grows nodes.old nodes.new }
{
    match sources {
        [] => push_stmt(nodes, node_at(scene.file, at, StmtForm::Empty), left),
        [only, ..] => push_source(scene, nodes, only, left),
    }
}

/// An arm of an `if` behind some others.
#[cycle(statements)]
#[tactic(auto, using(jc_typed::proofs::Growing::growing), unfolding(crate::specs::Flat::arm_made))]
fn push_arm<'a, 's>(
    scene: Assembling<'_, 'a>,
    nodes: &mut Nodes,
    before: u32,
    node: &'a Clause,
    left: &'s [AnswerAt],
) -> Result<Made<'s>, WantOfMemory>
    requires before { before < length nodes.old }
    requires answers { AnswersBelow (length nodes.old) left.now }
    ensures value { IfOk result (λ r. (arm_made scene.entry.file (arms_of nodes.old before) (out-Clause node.now) scene.entry.jumps.now (answers_of nodes.old left.now)).it ≡ arms_of nodes.new r.at) }
    ensures left { IfOk result (λ r. (arm_made scene.entry.file (arms_of nodes.old before) (out-Clause node.now) scene.entry.jumps.now (answers_of nodes.old left.now)).left ≡ answers_of nodes.new r.left.now) }
    ensures within { IfOk result (λ r. r.at < length nodes.new) }
    ensures below { IfOk result (λ r. AnswersBelow (length nodes.new) r.left.now) }
    ensures grows { Grows nodes.old nodes.new }
{
    let test = take_operand(nodes, left)?;
    let then = push_only(scene, nodes, node.at, node.items.slice(), test.left)?;
    let arms = ArmsNode::More {
        before,
        test: test.at,
        then: then.at,
    };
    push_arms(nodes, arms, then.left)
}

#[cycle(statements)]
#[tactic(auto, using(jc_typed::proofs::Growing::growing), unfolding(crate::specs::Flat::arms_made))]
fn push_all_arms<'a, 's>(
    scene: Assembling<'_, 'a>,
    nodes: &mut Nodes,
    before: u32,
    arms: &'a [Clause],
    left: &'s [AnswerAt],
) -> Result<Made<'s>, WantOfMemory>
    requires before { before < length nodes.old }
    requires answers { AnswersBelow (length nodes.old) left.now }
    ensures value { IfOk result (λ r. (arms_made scene.entry.file (arms_of nodes.old before) arms.now scene.entry.jumps.now (answers_of nodes.old left.now)).it ≡ arms_of nodes.new r.at) }
    ensures left { IfOk result (λ r. (arms_made scene.entry.file (arms_of nodes.old before) arms.now scene.entry.jumps.now (answers_of nodes.old left.now)).left ≡ answers_of nodes.new r.left.now) }
    ensures within { IfOk result (λ r. r.at < length nodes.new) }
    ensures below { IfOk result (λ r. AnswersBelow (length nodes.new) r.left.now) }
    ensures grows { Grows nodes.old nodes.new }
{
    let mut list = Made { at: before, left };
    for arm in arms {
        list = push_arm(scene, nodes, list.at, arm, list.left)?;
    }
    Ok(list)
}

/// The arms of an `if`.
#[cycle(statements)]
#[tactic(auto, using(jc_typed::proofs::Growing::growing))]
fn push_arms_of<'a, 's>(
    scene: Assembling<'_, 'a>,
    nodes: &mut Nodes,
    arms: &'a [Clause],
    left: &'s [AnswerAt],
) -> Result<Made<'s>, WantOfMemory>
    requires { AnswersBelow (length nodes.old) left.now }
    ensures value { IfOk result (λ r. (arms_made scene.entry.file NoArms arms.now scene.entry.jumps.now (answers_of nodes.old left.now)).it ≡ arms_of nodes.new r.at) }
    ensures left { IfOk result (λ r. (arms_made scene.entry.file NoArms arms.now scene.entry.jumps.now (answers_of nodes.old left.now)).left ≡ answers_of nodes.new r.left.now) }
    ensures within { IfOk result (λ r. r.at < length nodes.new) }
    ensures below { IfOk result (λ r. AnswersBelow (length nodes.new) r.left.now) }
    ensures grows { Grows nodes.old nodes.new }
{
    let none = push_arms(nodes, ArmsNode::Empty, left)?;
    push_all_arms(scene, nodes, none.at, arms, none.left)
}

#[cycle(statements)]
#[tactic(auto, using(jc_typed::proofs::Growing::growing), unfolding(crate::specs::Flat::labelled_made))]
fn push_labelled<'a, 's>(
    scene: Assembling<'_, 'a>,
    nodes: &mut Nodes,
    label: &'a Ident,
    body: &'a Stmt,
    left: &'s [AnswerAt],
) -> Result<Made<'s>, WantOfMemory>
    requires { AnswersBelow (length nodes.old) left.now }
    ensures value { IfOk result (λ r. (labelled_made scene.entry.file label.now.at label.now.text body.now scene.entry.jumps.now (answers_of nodes.old left.now)).it ≡ stmt_of nodes.new r.at) }
    ensures left { IfOk result (λ r. (labelled_made scene.entry.file label.now.at label.now.text body.now scene.entry.jumps.now (answers_of nodes.old left.now)).left ≡ answers_of nodes.new r.left.now) }
    ensures within { IfOk result (λ r. r.at < length nodes.new) }
    ensures below { IfOk result (λ r. AnswersBelow (length nodes.new) r.left.now) }
    ensures grows { Grows nodes.old nodes.new }
{
    let before = loop_of(body);
    let jumps = scene
        .jumps
        .inside(scene.alloc, RoundForm::Label { label, before })?;
    let inner = Assembling {
        alloc: scene.alloc,
        file: scene.file,
        jumps: &jumps,
    };
    let it = push_source(inner, nodes, body, left)?;
    let form = StmtForm::Labelled {
        target: label.at,
        body: it.at,
    };
    push_stmt(nodes, node_at(scene.file, label.at, form), it.left)
}

#[cycle(statements)]
#[tactic(auto, using(jc_typed::proofs::Growing::growing), unfolding(crate::specs::Flat::while_made))]
fn push_while<'a, 's>(
    scene: Assembling<'_, 'a>,
    nodes: &mut Nodes,
    at: u32,
    body: &'a Stmt,
    left: &'s [AnswerAt],
) -> Result<Made<'s>, WantOfMemory>
    requires { AnswersBelow (length nodes.old) left.now }
    ensures value { IfOk result (λ r. (while_made scene.entry.file at body.now scene.entry.jumps.now (answers_of nodes.old left.now)).it ≡ stmt_of nodes.new r.at) }
    ensures left { IfOk result (λ r. (while_made scene.entry.file at body.now scene.entry.jumps.now (answers_of nodes.old left.now)).left ≡ answers_of nodes.new r.left.now) }
    ensures within { IfOk result (λ r. r.at < length nodes.new) }
    ensures below { IfOk result (λ r. AnswersBelow (length nodes.new) r.left.now) }
    ensures grows { Grows nodes.old nodes.new }
{
    let jumps = scene.jumps.inside(scene.alloc, RoundForm::Loop { at })?;
    let inner = Assembling {
        alloc: scene.alloc,
        file: scene.file,
        jumps: &jumps,
    };
    let test = take_operand(nodes, left)?;
    let it = push_source(inner, nodes, body, test.left)?;
    let form = StmtForm::While {
        target: at,
        test: test.at,
        body: it.at,
    };
    push_stmt(nodes, node_at(scene.file, at, form), it.left)
}

#[cycle(statements)]
#[tactic(auto, using(jc_typed::proofs::Growing::growing), unfolding(crate::specs::Flat::do_made))]
fn push_do<'a, 's>(
    scene: Assembling<'_, 'a>,
    nodes: &mut Nodes,
    at: u32,
    body: &'a Stmt,
    left: &'s [AnswerAt],
) -> Result<Made<'s>, WantOfMemory>
    requires { AnswersBelow (length nodes.old) left.now }
    ensures value { IfOk result (λ r. (do_made scene.entry.file at body.now scene.entry.jumps.now (answers_of nodes.old left.now)).it ≡ stmt_of nodes.new r.at) }
    ensures left { IfOk result (λ r. (do_made scene.entry.file at body.now scene.entry.jumps.now (answers_of nodes.old left.now)).left ≡ answers_of nodes.new r.left.now) }
    ensures within { IfOk result (λ r. r.at < length nodes.new) }
    ensures below { IfOk result (λ r. AnswersBelow (length nodes.new) r.left.now) }
    ensures grows { Grows nodes.old nodes.new }
{
    let jumps = scene.jumps.inside(scene.alloc, RoundForm::Loop { at })?;
    let inner = Assembling {
        alloc: scene.alloc,
        file: scene.file,
        jumps: &jumps,
    };
    let it = push_source(inner, nodes, body, left)?;
    let test = take_operand(nodes, it.left)?;
    let form = StmtForm::Do {
        target: at,
        body: it.at,
        test: test.at,
    };
    push_stmt(nodes, node_at(scene.file, at, form), test.left)
}

/// An enhanced `for` over some elements, where jumps go as they do inside of it.
#[cycle(statements)]
#[tactic(auto, using(jc_typed::proofs::Growing::growing, crate::proofs::Lists::locals, crate::proofs::Elements::staying), unfolding(crate::specs::Flat::over_made))]
fn push_over<'a, 's>(
    scene: Assembling<'_, 'a>,
    nodes: &mut Nodes,
    at: u32,
    elements: ElementsAt,
    body: &'a Stmt,
    left: &'s [AnswerAt],
) -> Result<Made<'s>, WantOfMemory>
    requires elements { ElementsBelow (length nodes.old) elements }
    requires answers { AnswersBelow (length nodes.old) left.now }
    ensures value { IfOk result (λ r. (over_made scene.entry.file at (elements_of nodes.old elements) body.now scene.entry.jumps.now (answers_of nodes.old left.now)).it ≡ stmt_of nodes.new r.at) }
    ensures left { IfOk result (λ r. (over_made scene.entry.file at (elements_of nodes.old elements) body.now scene.entry.jumps.now (answers_of nodes.old left.now)).left ≡ answers_of nodes.new r.left.now) }
    ensures within { IfOk result (λ r. r.at < length nodes.new) }
    ensures below { IfOk result (λ r. AnswersBelow (length nodes.new) r.left.now) }
    ensures grows { Grows nodes.old nodes.new }
{
    let local = take_local(left);
    let it = push_source(scene, nodes, body, local.left)?;
    push_elements(scene, nodes, at, elements, local.number, it)
}

/// An enhanced `for`, where jumps go as they do inside of it.
#[cycle(statements)]
#[tactic(auto, using(jc_typed::proofs::Growing::growing), unfolding(crate::specs::Flat::each_made))]
fn push_each<'a, 's>(
    scene: Assembling<'_, 'a>,
    nodes: &mut Nodes,
    at: u32,
    body: &'a Stmt,
    left: &'s [AnswerAt],
) -> Result<Made<'s>, WantOfMemory>
    requires { AnswersBelow (length nodes.old) left.now }
    ensures value { IfOk result (λ r. (each_made scene.entry.file at body.now scene.entry.jumps.now (answers_of nodes.old left.now)).it ≡ stmt_of nodes.new r.at) }
    ensures left { IfOk result (λ r. (each_made scene.entry.file at body.now scene.entry.jumps.now (answers_of nodes.old left.now)).left ≡ answers_of nodes.new r.left.now) }
    ensures within { IfOk result (λ r. r.at < length nodes.new) }
    ensures below { IfOk result (λ r. AnswersBelow (length nodes.new) r.left.now) }
    ensures grows { Grows nodes.old nodes.new }
{
    let [first, more @ ..] = left else {
        return push_stmt(nodes, node_at(scene.file, at, StmtForm::Empty), left);
    };
    match first {
        AnswerAt::AnEach(elements) => push_over(scene, nodes, at, *elements, body, more),
        _ => push_stmt(nodes, node_at(scene.file, at, StmtForm::Empty), left),
    }
}

/// A `for`, where jumps go as they do inside of it.
#[cycle(statements)]
#[tactic(auto, using(jc_typed::proofs::Growing::growing), unfolding(crate::specs::Flat::for_made))]
fn push_for<'a, 's>(
    scene: Assembling<'_, 'a>,
    nodes: &mut Nodes,
    at: u32,
    head: &'a ForHead,
    body: &'a Stmt,
    left: &'s [AnswerAt],
) -> Result<Made<'s>, WantOfMemory>
    requires { AnswersBelow (length nodes.old) left.now }
    ensures value { IfOk result (λ r. (for_made scene.entry.file at head.now body.now scene.entry.jumps.now (answers_of nodes.old left.now)).it ≡ stmt_of nodes.new r.at) }
    ensures left { IfOk result (λ r. (for_made scene.entry.file at head.now body.now scene.entry.jumps.now (answers_of nodes.old left.now)).left ≡ answers_of nodes.new r.left.now) }
    ensures within { IfOk result (λ r. r.at < length nodes.new) }
    ensures below { IfOk result (λ r. AnswersBelow (length nodes.new) r.left.now) }
    ensures grows { Grows nodes.old nodes.new }
{
    match head {
        ForHead::Basic { init, test, update } => {
            let basic = BasicHead {
                init,
                test,
                update: update.slice(),
            };
            let begun = take_head(nodes, basic, left)?;
            let it = push_source(scene, nodes, body, begun.left)?;
            let form = StmtForm::For {
                target: at,
                declared: begun.head.declared,
                before: begun.head.before,
                test: begun.head.test,
                update: begun.head.update,
                body: it.at,
            };
            push_stmt(nodes, node_at(scene.file, at, form), it.left)
        }
        ForHead::Enhanced { .. } => push_each(scene, nodes, at, body, left),
    }
}

/// A part of a `switch` behind some others.
#[cycle(statements)]
#[tactic(auto, using(jc_typed::proofs::Growing::growing, crate::proofs::Lists::counts), unfolding(crate::specs::Flat::group_made))]
fn push_group<'a, 's>(
    scene: Assembling<'_, 'a>,
    nodes: &mut Nodes,
    before: CasedAt,
    node: &'a Clause,
    left: &'s [AnswerAt],
) -> Result<MadeCased<'s>, WantOfMemory>
    requires before { CasedBelow (length nodes.old) before }
    requires count { before.count ≡ count_of (stmts_of nodes.old before.stmts) }
    requires answers { AnswersBelow (length nodes.old) left.now }
    ensures value { IfOk result (λ r. (group_made scene.entry.file (cased_of nodes.old before) (out-Clause node.now) scene.entry.jumps.now (answers_of nodes.old left.now)).it ≡ cased_of nodes.new r.it) }
    ensures count { IfOk result (λ r. r.it.count ≡ count_of (stmts_of nodes.new r.it.stmts)) }
    ensures left { IfOk result (λ r. (group_made scene.entry.file (cased_of nodes.old before) (out-Clause node.now) scene.entry.jumps.now (answers_of nodes.old left.now)).left ≡ answers_of nodes.new r.left.now) }
    ensures within { IfOk result (λ r. CasedBelow (length nodes.new) r.it) }
    ensures below { IfOk result (λ r. AnswersBelow (length nodes.new) r.left.now) }
    ensures grows { Grows nodes.old nodes.new }
{
    let case = push_case(nodes, &node.head, before, left)?;
    let items = node.items.slice();
    let stmts = push_sources(scene, nodes, case.it.stmts, items, case.left)?;
    let it = CasedAt {
        cases: case.it.cases,
        stmts: stmts.at,
        count: count_with(before.count, items.len())?,
    };
    Ok(MadeCased {
        it,
        left: stmts.left,
    })
}

#[cycle(statements)]
#[tactic(auto, using(jc_typed::proofs::Growing::growing), unfolding(crate::specs::Flat::groups_made))]
fn push_groups<'a, 's>(
    scene: Assembling<'_, 'a>,
    nodes: &mut Nodes,
    before: CasedAt,
    groups: &'a [Clause],
    left: &'s [AnswerAt],
) -> Result<MadeCased<'s>, WantOfMemory>
    requires before { CasedBelow (length nodes.old) before }
    requires count { before.count ≡ count_of (stmts_of nodes.old before.stmts) }
    requires answers { AnswersBelow (length nodes.old) left.now }
    ensures value { IfOk result (λ r. (groups_made scene.entry.file (cased_of nodes.old before) groups.now scene.entry.jumps.now (answers_of nodes.old left.now)).it ≡ cased_of nodes.new r.it) }
    ensures left { IfOk result (λ r. (groups_made scene.entry.file (cased_of nodes.old before) groups.now scene.entry.jumps.now (answers_of nodes.old left.now)).left ≡ answers_of nodes.new r.left.now) }
    ensures within { IfOk result (λ r. CasedBelow (length nodes.new) r.it) }
    ensures below { IfOk result (λ r. AnswersBelow (length nodes.new) r.left.now) }
    ensures grows { Grows nodes.old nodes.new }
{
    let mut made = MadeCased { it: before, left };
    for group in groups {
        made = push_group(scene, nodes, made.it, group, made.left)?;
    }
    Ok(made)
}

#[cycle(statements)]
#[tactic(auto, using(jc_typed::proofs::Growing::growing), unfolding(crate::specs::Flat::switch_made))]
fn push_switch<'a, 's>(
    scene: Assembling<'_, 'a>,
    nodes: &mut Nodes,
    at: u32,
    groups: &'a [Clause],
    left: &'s [AnswerAt],
) -> Result<Made<'s>, WantOfMemory>
    requires { AnswersBelow (length nodes.old) left.now }
    ensures value { IfOk result (λ r. (switch_made scene.entry.file at groups.now scene.entry.jumps.now (answers_of nodes.old left.now)).it ≡ stmt_of nodes.new r.at) }
    ensures left { IfOk result (λ r. (switch_made scene.entry.file at groups.now scene.entry.jumps.now (answers_of nodes.old left.now)).left ≡ answers_of nodes.new r.left.now) }
    ensures within { IfOk result (λ r. r.at < length nodes.new) }
    ensures below { IfOk result (λ r. AnswersBelow (length nodes.new) r.left.now) }
    ensures grows { Grows nodes.old nodes.new }
{
    let jumps = scene.jumps.inside(scene.alloc, RoundForm::Switch { at })?;
    let inner = Assembling {
        alloc: scene.alloc,
        file: scene.file,
        jumps: &jumps,
    };
    let selector = take_operand(nodes, left)?;
    let none = no_groups(nodes, selector.left)?;
    let made = push_groups(inner, nodes, none.it, groups, none.left)?;
    let form = StmtForm::Switch {
        target: at,
        of: selector.at,
        cases: made.it.cases,
        stmts: made.it.stmts,
    };
    push_stmt(nodes, node_at(scene.file, at, form), made.left)
}

/// A catch clause behind some others.
#[cycle(statements)]
#[tactic(auto, using(jc_typed::proofs::Growing::growing, crate::proofs::Lists::locals), unfolding(crate::specs::Flat::catch_made))]
fn push_catch<'a, 's>(
    scene: Assembling<'_, 'a>,
    nodes: &mut Nodes,
    before: ClausesAt,
    node: &'a Clause,
    left: &'s [AnswerAt],
) -> Result<MadeClauses<'s>, WantOfMemory>
    requires before { ClausesBelow (length nodes.old) before }
    requires answers { AnswersBelow (length nodes.old) left.now }
    ensures value { IfOk result (λ r. (catch_made scene.entry.file (clauses_of nodes.old before) (out-Clause node.now) scene.entry.jumps.now (answers_of nodes.old left.now)).it ≡ clauses_of nodes.new r.it) }
    ensures left { IfOk result (λ r. (catch_made scene.entry.file (clauses_of nodes.old before) (out-Clause node.now) scene.entry.jumps.now (answers_of nodes.old left.now)).left ≡ answers_of nodes.new r.left.now) }
    ensures within { IfOk result (λ r. ClausesBelow (length nodes.new) r.it) }
    ensures below { IfOk result (λ r. AnswersBelow (length nodes.new) r.left.now) }
    ensures grows { Grows nodes.old nodes.new }
{
    let types = take_types(nodes, left)?;
    let local = take_local(types.left);
    let body = push_block(scene, nodes, node.at, node.items.slice(), local.left)?;
    let catches = CatchesNode::More {
        before: before.catches,
        place: Place {
            file: scene.file,
            at: node.at,
        },
        local: local.number,
        types: types.at,
        body: body.at,
    };
    let made = push_catches(nodes, catches, body.left)?;
    let it = ClausesAt {
        catches: made.at,
        last: before.last,
    };
    Ok(MadeClauses {
        it,
        left: made.left,
    })
}

/// The block behind `finally`.
#[cycle(statements)]
#[tactic(auto, using(jc_typed::proofs::Growing::growing), unfolding(crate::specs::Flat::finally_made))]
fn push_finally<'a, 's>(
    scene: Assembling<'_, 'a>,
    nodes: &mut Nodes,
    before: ClausesAt,
    node: &'a Clause,
    left: &'s [AnswerAt],
) -> Result<MadeClauses<'s>, WantOfMemory>
    requires before { ClausesBelow (length nodes.old) before }
    requires answers { AnswersBelow (length nodes.old) left.now }
    ensures value { IfOk result (λ r. (finally_made scene.entry.file (clauses_of nodes.old before) (out-Clause node.now) scene.entry.jumps.now (answers_of nodes.old left.now)).it ≡ clauses_of nodes.new r.it) }
    ensures left { IfOk result (λ r. (finally_made scene.entry.file (clauses_of nodes.old before) (out-Clause node.now) scene.entry.jumps.now (answers_of nodes.old left.now)).left ≡ answers_of nodes.new r.left.now) }
    ensures within { IfOk result (λ r. ClausesBelow (length nodes.new) r.it) }
    ensures below { IfOk result (λ r. AnswersBelow (length nodes.new) r.left.now) }
    ensures grows { Grows nodes.old nodes.new }
{
    let body = push_block(scene, nodes, node.at, node.items.slice(), left)?;
    let none = push_stmts(nodes, ListNode::Empty, body.left)?;
    let more = ListNode::More {
        before: none.at,
        last: body.at,
    };
    let made = push_stmts(nodes, more, none.left)?;
    let it = ClausesAt {
        catches: before.catches,
        last: made.at,
    };
    Ok(MadeClauses {
        it,
        left: made.left,
    })
}

#[cycle(statements)]
#[tactic(auto, using(jc_typed::proofs::Growing::growing), unfolding(crate::specs::Flat::clause_made))]
fn push_clause<'a, 's>(
    scene: Assembling<'_, 'a>,
    nodes: &mut Nodes,
    before: ClausesAt,
    node: &'a Clause,
    left: &'s [AnswerAt],
) -> Result<MadeClauses<'s>, WantOfMemory>
    requires before { ClausesBelow (length nodes.old) before }
    requires answers { AnswersBelow (length nodes.old) left.now }
    ensures value { IfOk result (λ r. (clause_made scene.entry.file (clauses_of nodes.old before) (out-Clause node.now) (clause_head (out-Clause node.now)) scene.entry.jumps.now (answers_of nodes.old left.now)).it ≡ clauses_of nodes.new r.it) }
    ensures left { IfOk result (λ r. (clause_made scene.entry.file (clauses_of nodes.old before) (out-Clause node.now) (clause_head (out-Clause node.now)) scene.entry.jumps.now (answers_of nodes.old left.now)).left ≡ answers_of nodes.new r.left.now) }
    ensures within { IfOk result (λ r. ClausesBelow (length nodes.new) r.it) }
    ensures below { IfOk result (λ r. AnswersBelow (length nodes.new) r.left.now) }
    ensures grows { Grows nodes.old nodes.new }
{
    match &node.head {
        ClauseHead::Catch { .. } => push_catch(scene, nodes, before, node, left),
        ClauseHead::If(_) => push_finally(scene, nodes, before, node, left),
        ClauseHead::Case(_) => push_finally(scene, nodes, before, node, left),
        ClauseHead::Default => push_finally(scene, nodes, before, node, left),
        ClauseHead::Finally => push_finally(scene, nodes, before, node, left),
    }
}

#[cycle(statements)]
#[tactic(auto, using(jc_typed::proofs::Growing::growing), unfolding(crate::specs::Flat::clauses_made))]
fn push_clauses<'a, 's>(
    scene: Assembling<'_, 'a>,
    nodes: &mut Nodes,
    before: ClausesAt,
    clauses: &'a [Clause],
    left: &'s [AnswerAt],
) -> Result<MadeClauses<'s>, WantOfMemory>
    requires before { ClausesBelow (length nodes.old) before }
    requires answers { AnswersBelow (length nodes.old) left.now }
    ensures value { IfOk result (λ r. (clauses_made scene.entry.file (clauses_of nodes.old before) clauses.now scene.entry.jumps.now (answers_of nodes.old left.now)).it ≡ clauses_of nodes.new r.it) }
    ensures left { IfOk result (λ r. (clauses_made scene.entry.file (clauses_of nodes.old before) clauses.now scene.entry.jumps.now (answers_of nodes.old left.now)).left ≡ answers_of nodes.new r.left.now) }
    ensures within { IfOk result (λ r. ClausesBelow (length nodes.new) r.it) }
    ensures below { IfOk result (λ r. AnswersBelow (length nodes.new) r.left.now) }
    ensures grows { Grows nodes.old nodes.new }
{
    let mut made = MadeClauses { it: before, left };
    for clause in clauses {
        made = push_clause(scene, nodes, made.it, clause, made.left)?;
    }
    Ok(made)
}

/// The clauses of a `try`.
#[cycle(statements)]
#[tactic(auto, using(jc_typed::proofs::Growing::growing))]
fn push_clauses_of<'a, 's>(
    scene: Assembling<'_, 'a>,
    nodes: &mut Nodes,
    clauses: &'a [Clause],
    left: &'s [AnswerAt],
) -> Result<MadeClauses<'s>, WantOfMemory>
    requires { AnswersBelow (length nodes.old) left.now }
    ensures value { IfOk result (λ r. (clauses_made scene.entry.file (record { catches = NoCatches; last = NoStmts }) clauses.now scene.entry.jumps.now (answers_of nodes.old left.now)).it ≡ clauses_of nodes.new r.it) }
    ensures left { IfOk result (λ r. (clauses_made scene.entry.file (record { catches = NoCatches; last = NoStmts }) clauses.now scene.entry.jumps.now (answers_of nodes.old left.now)).left ≡ answers_of nodes.new r.left.now) }
    ensures within { IfOk result (λ r. ClausesBelow (length nodes.new) r.it) }
    ensures below { IfOk result (λ r. AnswersBelow (length nodes.new) r.left.now) }
    ensures grows { Grows nodes.old nodes.new }
{
    let none = no_clauses(nodes, left)?;
    push_clauses(scene, nodes, none.it, clauses, none.left)
}

/// The typed statements that parsed ones stand for which follow one another (JLS 14.2), made of the answers to their items in the order of the source.
#[tactic(auto, using(jc_typed::proofs::Growing::growing, crate::proofs::ByForm::whole))]
pub fn assemble<'a, 's>(
    scene: Assembling<'_, 'a>,
    nodes: &mut Nodes,
    sources: &'a [Stmt],
    left: &'s [AnswerAt],
) -> Result<Made<'s>, WantOfMemory>
    requires { AnswersBelow (length nodes.old) left.now }
    ensures value { IfOk result (λ r. (assemble scene.entry.file scene.entry.jumps.now sources.now (answers_of nodes.old left.now)).it ≡ stmts_of nodes.new r.at) }
    ensures left { IfOk result (λ r. (assemble scene.entry.file scene.entry.jumps.now sources.now (answers_of nodes.old left.now)).left ≡ answers_of nodes.new r.left.now) }
    ensures within { IfOk result (λ r. r.at < length nodes.new) }
    ensures below { IfOk result (λ r. AnswersBelow (length nodes.new) r.left.now) }
    ensures grows { Grows nodes.old nodes.new }
{
    push_all(scene, nodes, sources, left)
}
