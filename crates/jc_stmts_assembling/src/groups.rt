//! Labels of a `switch`, and clauses of a `try` (JLS 14.11, 14.20).
ghost use Rattle.std.specs.Prelude.{◌≡◌, ◌<◌, ◌++◌, ◌∷◌, [], length, IfOk};
ghost use Rattle.jc_typed.specs.Parts.{Grows, case_over, cases_of, parts};
ghost use Rattle.jc_stmts_spec.specs.Assembling.{a_case};
ghost use Rattle.jc_stmts_answers.specs.Answers.{AnswersBelow, answers_of};
ghost use Rattle.jc_stmts_assembling.specs.Heads.{CasedBelow, ClausesBelow, cased_of, clauses_of, keyed, no_case, no_cased, no_clauses_yet};

use crate::pushing::{push_cases, push_catches, push_names, push_stmts};
use jc_rules::WantOfMemory;
use jc_stmts_answers::AnswerAt;
use jc_tree::ClauseHead;
use jc_typed::{Case, CasesNode, CatchesNode, ListNode, NamesNode, Nodes};

/// Labels and statements of a `switch` so far, by their places in the arena, and how many statements these are.
#[derive(Clone, Copy, Debug)]
pub struct CasedAt {
    pub cases: u32,
    pub stmts: u32,
    pub count: u32,
}

/// The same, and the answers that are left.
#[derive(Clone, Copy)]
pub struct MadeCased<'s> {
    pub it: CasedAt,
    pub left: &'s [AnswerAt],
}

/// Catch clauses so far, and the block behind `finally`, by their places in the arena.
#[derive(Clone, Copy, Debug)]
pub struct ClausesAt {
    pub catches: u32,
    pub last: u32,
}

/// The same, and the answers that are left.
#[derive(Clone, Copy)]
pub struct MadeClauses<'s> {
    pub it: ClausesAt,
    pub left: &'s [AnswerAt],
}

/// A label, and the answers that are left.
#[derive(Clone, Copy)]
struct MadeCase<'s> {
    it: Case,
    left: &'s [AnswerAt],
}

#[tactic(auto, using(jc_typed::proofs::Growing::growing))]
fn no_key<'s>(
    nodes: &mut Nodes,
    skips: u32,
    left: &'s [AnswerAt],
) -> Result<MadeCase<'s>, WantOfMemory>
    requires { AnswersBelow (length nodes.old) left.now }
    ensures value { IfOk result (λ r. no_case skips ≡ case_over (parts nodes.new) r.it) }
    ensures left { IfOk result (λ r. (answers_of nodes.old left.now) ≡ answers_of nodes.new r.left.now) }
    ensures within { IfOk result (λ r. r.it.named < length nodes.new) }
    ensures below { IfOk result (λ r. AnswersBelow (length nodes.new) r.left.now) }
    ensures grows { Grows nodes.old nodes.new }
{
    let names = push_names(nodes, NamesNode::Empty, left)?;
    let it = Case {
        key: None,
        skips,
        named: names.at,
    };
    Ok(MadeCase {
        it,
        left: names.left,
    })
}

#[tactic(auto, using(jc_typed::proofs::Growing::growing))]
fn take_key<'s>(
    nodes: &mut Nodes,
    skips: u32,
    left: &'s [AnswerAt],
) -> Result<MadeCase<'s>, WantOfMemory>
    requires { AnswersBelow (length nodes.old) left.now }
    ensures value { IfOk result (λ r. (keyed skips (answers_of nodes.old left.now)).it ≡ case_over (parts nodes.new) r.it) }
    ensures left { IfOk result (λ r. (keyed skips (answers_of nodes.old left.now)).left ≡ answers_of nodes.new r.left.now) }
    ensures within { IfOk result (λ r. r.it.named < length nodes.new) }
    ensures below { IfOk result (λ r. AnswersBelow (length nodes.new) r.left.now) }
    ensures grows { Grows nodes.old nodes.new }
{
    let [first, more @ ..] = left else {
        return no_key(nodes, skips, left);
    };
    match first {
        AnswerAt::AKey { value, names } => Ok(MadeCase {
            it: Case {
                key: Some(*value),
                skips,
                named: *names,
            },
            left: more,
        }),
        _ => no_key(nodes, skips, left),
    }
}

#[tactic(auto, using(jc_typed::proofs::Growing::growing, crate::proofs::Lists::keys))]
fn take_case<'s>(
    nodes: &mut Nodes,
    head: &ClauseHead,
    skips: u32,
    left: &'s [AnswerAt],
) -> Result<MadeCase<'s>, WantOfMemory>
    requires { AnswersBelow (length nodes.old) left.now }
    ensures value { IfOk result (λ r. (a_case head.now skips (answers_of nodes.old left.now)).it ≡ case_over (parts nodes.new) r.it) }
    ensures left { IfOk result (λ r. (a_case head.now skips (answers_of nodes.old left.now)).left ≡ answers_of nodes.new r.left.now) }
    ensures within { IfOk result (λ r. r.it.named < length nodes.new) }
    ensures below { IfOk result (λ r. AnswersBelow (length nodes.new) r.left.now) }
    ensures grows { Grows nodes.old nodes.new }
{
    match head {
        ClauseHead::Case(_) => take_key(nodes, skips, left),
        ClauseHead::If(_) => no_key(nodes, skips, left),
        ClauseHead::Default => no_key(nodes, skips, left),
        ClauseHead::Catch { .. } => no_key(nodes, skips, left),
        ClauseHead::Finally => no_key(nodes, skips, left),
    }
}

/// A label behind some others: how many statements stand before it is the number of those so far.
#[tactic(auto, using(jc_typed::proofs::Growing::growing))]
pub fn push_case<'s>(
    nodes: &mut Nodes,
    head: &ClauseHead,
    before: CasedAt,
    left: &'s [AnswerAt],
) -> Result<MadeCased<'s>, WantOfMemory>
    requires before { CasedBelow (length nodes.old) before }
    requires answers { AnswersBelow (length nodes.old) left.now }
    ensures value { IfOk result (λ r. (cased_of nodes.old before).cases ++ (a_case head.now before.count (answers_of nodes.old left.now)).it ∷ [] ≡ cases_of nodes.new r.it.cases) }
    ensures stmts { IfOk result (λ r. (r.it.stmts ≡ before.stmts) × (r.it.count ≡ before.count)) }
    ensures left { IfOk result (λ r. (a_case head.now before.count (answers_of nodes.old left.now)).left ≡ answers_of nodes.new r.left.now) }
    ensures within { IfOk result (λ r. CasedBelow (length nodes.new) r.it) }
    ensures below { IfOk result (λ r. AnswersBelow (length nodes.new) r.left.now) }
    ensures grows { Grows nodes.old nodes.new }
{
    let case = take_case(nodes, head, before.count, left)?;
    let node = CasesNode::More {
        before: before.cases,
        last: case.it,
    };
    let cases = push_cases(nodes, node, case.left)?;
    let it = CasedAt {
        cases: cases.at,
        stmts: before.stmts,
        count: before.count,
    };
    Ok(MadeCased {
        it,
        left: cases.left,
    })
}

/// No part of a `switch` yet.
#[tactic(auto, using(jc_typed::proofs::Growing::growing))]
pub fn no_groups<'s>(nodes: &mut Nodes, left: &'s [AnswerAt]) -> Result<MadeCased<'s>, WantOfMemory>
    requires { AnswersBelow (length nodes.old) left.now }
    ensures value { IfOk result (λ r. no_cased ≡ cased_of nodes.new r.it) }
    ensures left { IfOk result (λ r. (answers_of nodes.old left.now) ≡ answers_of nodes.new r.left.now) }
    ensures within { IfOk result (λ r. CasedBelow (length nodes.new) r.it) }
    ensures below { IfOk result (λ r. AnswersBelow (length nodes.new) r.left.now) }
    ensures grows { Grows nodes.old nodes.new }
{
    let cases = push_cases(nodes, CasesNode::Empty, left)?;
    let stmts = push_stmts(nodes, ListNode::Empty, cases.left)?;
    let it = CasedAt {
        cases: cases.at,
        stmts: stmts.at,
        count: 0,
    };
    Ok(MadeCased {
        it,
        left: stmts.left,
    })
}

/// No clause of a `try` yet.
#[tactic(auto, using(jc_typed::proofs::Growing::growing))]
pub fn no_clauses<'s>(
    nodes: &mut Nodes,
    left: &'s [AnswerAt],
) -> Result<MadeClauses<'s>, WantOfMemory>
    requires { AnswersBelow (length nodes.old) left.now }
    ensures value { IfOk result (λ r. no_clauses_yet ≡ clauses_of nodes.new r.it) }
    ensures left { IfOk result (λ r. (answers_of nodes.old left.now) ≡ answers_of nodes.new r.left.now) }
    ensures within { IfOk result (λ r. ClausesBelow (length nodes.new) r.it) }
    ensures below { IfOk result (λ r. AnswersBelow (length nodes.new) r.left.now) }
    ensures grows { Grows nodes.old nodes.new }
{
    let catches = push_catches(nodes, CatchesNode::Empty, left)?;
    let last = push_stmts(nodes, ListNode::Empty, catches.left)?;
    let it = ClausesAt {
        catches: catches.at,
        last: last.at,
    };
    Ok(MadeClauses {
        it,
        left: last.left,
    })
}
