//! Answers that are taken in order.
ghost use Rattle.std.specs.Prelude.{◌≡◌, ◌<◌, length, IfOk};
ghost use Rattle.jc_typed.specs.Parts.{Grows, operand_of, operands_of, types_of};
ghost use Rattle.jc_exprs_nodes_spec.specs.Typeds.{one_operand};
ghost use Rattle.jc_stmts_spec.specs.Assembling.{an_operand, an_operand_if, caught_types, initial, some_operands};
ghost use Rattle.jc_stmts_answers.specs.Answers.{AnswersBelow, answers_of};
ghost use Rattle.jc_stmts_assembling.specs.Heads.{behind_local, local_at};

use crate::pushing::{Made, push_operand, push_operands, push_types};
use jc_rules::{Place, WantOfMemory};
use jc_stmts_answers::AnswerAt;
use jc_tree::{Expr, Init};
use jc_typed::{ListNode, Nodes, OperandNode};

/// The place in the source and the number of a local, and the answers that are left.
#[derive(Clone, Copy)]
pub struct MadeLocal<'s> {
    pub place: Place,
    pub number: u32,
    pub left: &'s [AnswerAt],
}

/// The operand of an expression.
#[tactic(auto, using(jc_typed::proofs::Growing::growing))]
pub fn take_operand<'s>(nodes: &mut Nodes, left: &'s [AnswerAt]) -> Result<Made<'s>, WantOfMemory>
    requires { AnswersBelow (length nodes.old) left.now }
    ensures value { IfOk result (λ r. (an_operand (answers_of nodes.old left.now)).it ≡ operand_of nodes.new r.at) }
    ensures left { IfOk result (λ r. (an_operand (answers_of nodes.old left.now)).left ≡ answers_of nodes.new r.left.now) }
    ensures within { IfOk result (λ r. r.at < length nodes.new) }
    ensures below { IfOk result (λ r. AnswersBelow (length nodes.new) r.left.now) }
    ensures grows { Grows nodes.old nodes.new }
{
    let [first, more @ ..] = left else {
        return push_operand(nodes, OperandNode::Missing, left);
    };
    match first {
        AnswerAt::AnOperand(at) => Ok(Made {
            at: *at,
            left: more,
        }),
        _ => push_operand(nodes, OperandNode::Missing, left),
    }
}

/// The operand of an expression as a list.
#[tactic(auto, using(jc_typed::proofs::Growing::growing))]
fn take_one<'s>(nodes: &mut Nodes, left: &'s [AnswerAt]) -> Result<Made<'s>, WantOfMemory>
    requires { AnswersBelow (length nodes.old) left.now }
    ensures value { IfOk result (λ r. one_operand (an_operand (answers_of nodes.old left.now)).it ≡ operands_of nodes.new r.at) }
    ensures left { IfOk result (λ r. (an_operand (answers_of nodes.old left.now)).left ≡ answers_of nodes.new r.left.now) }
    ensures within { IfOk result (λ r. r.at < length nodes.new) }
    ensures below { IfOk result (λ r. AnswersBelow (length nodes.new) r.left.now) }
    ensures grows { Grows nodes.old nodes.new }
{
    let last = take_operand(nodes, left)?;
    let none = push_operands(nodes, ListNode::Empty, last.left)?;
    let more = ListNode::More {
        before: none.at,
        last: last.at,
    };
    push_operands(nodes, more, none.left)
}

/// The operand of an expression that may be left out.
#[tactic(auto, using(jc_typed::proofs::Growing::growing))]
pub fn take_operand_if<'s>(
    nodes: &mut Nodes,
    expr: &Option<Expr>,
    left: &'s [AnswerAt],
) -> Result<Made<'s>, WantOfMemory>
    requires { AnswersBelow (length nodes.old) left.now }
    ensures value { IfOk result (λ r. (an_operand_if expr.now (answers_of nodes.old left.now)).it ≡ operands_of nodes.new r.at) }
    ensures left { IfOk result (λ r. (an_operand_if expr.now (answers_of nodes.old left.now)).left ≡ answers_of nodes.new r.left.now) }
    ensures within { IfOk result (λ r. r.at < length nodes.new) }
    ensures below { IfOk result (λ r. AnswersBelow (length nodes.new) r.left.now) }
    ensures grows { Grows nodes.old nodes.new }
{
    match expr {
        None => push_operands(nodes, ListNode::Empty, left),
        Some(_) => take_one(nodes, left),
    }
}

/// The operand of an initialiser that may be left out.
#[tactic(auto, using(jc_typed::proofs::Growing::growing))]
pub fn take_initial<'s>(
    nodes: &mut Nodes,
    init: &Option<Init>,
    left: &'s [AnswerAt],
) -> Result<Made<'s>, WantOfMemory>
    requires { AnswersBelow (length nodes.old) left.now }
    ensures value { IfOk result (λ r. (initial init.now (answers_of nodes.old left.now)).it ≡ operands_of nodes.new r.at) }
    ensures left { IfOk result (λ r. (initial init.now (answers_of nodes.old left.now)).left ≡ answers_of nodes.new r.left.now) }
    ensures within { IfOk result (λ r. r.at < length nodes.new) }
    ensures below { IfOk result (λ r. AnswersBelow (length nodes.new) r.left.now) }
    ensures grows { Grows nodes.old nodes.new }
{
    match init {
        None => push_operands(nodes, ListNode::Empty, left),
        Some(_) => take_one(nodes, left),
    }
}

/// The operands of expressions.
#[tactic(auto, using(jc_typed::proofs::Growing::growing))]
pub fn take_operands<'s>(
    nodes: &mut Nodes,
    exprs: &[Expr],
    left: &'s [AnswerAt],
) -> Result<Made<'s>, WantOfMemory>
    requires { AnswersBelow (length nodes.old) left.now }
    ensures value { IfOk result (λ r. (some_operands exprs.now (answers_of nodes.old left.now)).it ≡ operands_of nodes.new r.at) }
    ensures left { IfOk result (λ r. (some_operands exprs.now (answers_of nodes.old left.now)).left ≡ answers_of nodes.new r.left.now) }
    ensures within { IfOk result (λ r. r.at < length nodes.new) }
    ensures below { IfOk result (λ r. AnswersBelow (length nodes.new) r.left.now) }
    ensures grows { Grows nodes.old nodes.new }
{
    let mut list = push_operands(nodes, ListNode::Empty, left)?;
    let mut rest = exprs;
    while let [_, more @ ..] = rest {
        let last = take_operand(nodes, list.left)?;
        let node = ListNode::More {
            before: list.at,
            last: last.at,
        };
        list = push_operands(nodes, node, last.left)?;
        rest = more;
    }
    Ok(list)
}

/// The local that was declared.
pub fn take_local<'s>(left: &'s [AnswerAt]) -> MadeLocal<'s>
    ensures place { result.place ≡ (local_at left.now).place }
    ensures number { result.number ≡ (local_at left.now).number }
    ensures left { result.left.now ≡ behind_local left.now }
{
    let nowhere = MadeLocal {
        place: Place { file: 0, at: 0 },
        number: 0,
        left,
    };
    let [first, more @ ..] = left else {
        return nowhere;
    };
    match first {
        AnswerAt::ALocal(place, number) => MadeLocal {
            place: *place,
            number: *number,
            left: more,
        },
        _ => nowhere,
    }
}

/// The types of a catch clause.
#[tactic(auto, using(jc_typed::proofs::Growing::growing))]
pub fn take_types<'s>(nodes: &mut Nodes, left: &'s [AnswerAt]) -> Result<Made<'s>, WantOfMemory>
    requires { AnswersBelow (length nodes.old) left.now }
    ensures value { IfOk result (λ r. (caught_types (answers_of nodes.old left.now)).it ≡ types_of nodes.new r.at) }
    ensures left { IfOk result (λ r. (caught_types (answers_of nodes.old left.now)).left ≡ answers_of nodes.new r.left.now) }
    ensures within { IfOk result (λ r. r.at < length nodes.new) }
    ensures below { IfOk result (λ r. AnswersBelow (length nodes.new) r.left.now) }
    ensures grows { Grows nodes.old nodes.new }
{
    let [first, more @ ..] = left else {
        return push_types(nodes, ListNode::Empty, left);
    };
    match first {
        AnswerAt::SomeTypes(types) => Ok(Made {
            at: *types,
            left: more,
        }),
        _ => push_types(nodes, ListNode::Empty, left),
    }
}
