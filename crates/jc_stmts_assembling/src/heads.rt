//! The heads of `for` statements (JLS 14.14).
ghost use Rattle.std.specs.Prelude.{◌≡◌, ◌<◌, length, IfOk};
ghost use Rattle.jc_typed.specs.Parts.{Grows, declared_of, operands_of};
ghost use Rattle.jc_stmts_spec.specs.Assembling.{begun};
ghost use Rattle.jc_stmts_answers.specs.Answers.{AnswersBelow, answers_of};
ghost use Rattle.jc_stmts_assembling.specs.Heads.{HeadBelow, each_node, head_made, head_of};

use crate::declaring::take_locals;
use crate::pushing::{push_declared, push_operands};
use crate::taking::{take_operand_if, take_operands};
use jc_rules::WantOfMemory;
use jc_stmts_answers::{AnswerAt, ElementsAt};
use jc_tree::{Expr, ForInit};
use jc_typed::{DeclaredNode, ListNode, Nodes, StmtForm};

/// The head of a basic `for`, by the places of its parts in the arena.
#[derive(Clone, Copy, Debug)]
pub struct HeadAt {
    pub declared: u32,
    pub before: u32,
    pub test: u32,
    pub update: u32,
}

/// A head, and the answers that are left.
#[derive(Clone, Copy)]
pub struct MadeHead<'s> {
    pub head: HeadAt,
    pub left: &'s [AnswerAt],
}

/// What a basic `for` begins with, and the answers that are left: it declares variables or has expressions.
#[derive(Clone, Copy)]
struct Begun<'s> {
    declared: u32,
    before: u32,
    left: &'s [AnswerAt],
}

#[tactic(auto, using(jc_typed::proofs::Growing::growing))]
fn take_begun<'s>(
    nodes: &mut Nodes,
    init: &ForInit,
    left: &'s [AnswerAt],
) -> Result<Begun<'s>, WantOfMemory>
    requires { AnswersBelow (length nodes.old) left.now }
    ensures value { IfOk result (λ r. ((begun init.now (answers_of nodes.old left.now)).it.declared ≡ declared_of nodes.new r.declared) × ((begun init.now (answers_of nodes.old left.now)).it.before ≡ operands_of nodes.new r.before)) }
    ensures left { IfOk result (λ r. (begun init.now (answers_of nodes.old left.now)).left ≡ answers_of nodes.new r.left.now) }
    ensures within { IfOk result (λ r. (r.declared < length nodes.new) × (r.before < length nodes.new)) }
    ensures below { IfOk result (λ r. AnswersBelow (length nodes.new) r.left.now) }
    ensures grows { Grows nodes.old nodes.new }
{
    match init {
        ForInit::Local(vars) => {
            let declared = take_locals(nodes, vars, left)?;
            let before = push_operands(nodes, ListNode::Empty, declared.left)?;
            Ok(Begun {
                declared: declared.at,
                before: before.at,
                left: before.left,
            })
        }
        ForInit::Effects(exprs) => {
            let before = take_operands(nodes, exprs.slice(), left)?;
            let declared = push_declared(nodes, DeclaredNode::Empty, before.left)?;
            Ok(Begun {
                declared: declared.at,
                before: before.at,
                left: declared.left,
            })
        }
    }
}

/// What stands in the head of a basic `for`: what it begins with, its test, and what it does behind its body.
#[derive(Clone, Copy)]
pub struct BasicHead<'a> {
    pub init: &'a ForInit,
    pub test: &'a Option<Expr>,
    pub update: &'a [Expr],
}

/// The head of a basic `for`.
#[tactic(auto, using(jc_typed::proofs::Growing::growing), unfolding(crate::specs::Heads::head_made))]
pub fn take_head<'s>(
    nodes: &mut Nodes,
    basic: BasicHead<'_>,
    left: &'s [AnswerAt],
) -> Result<MadeHead<'s>, WantOfMemory>
    requires { AnswersBelow (length nodes.old) left.now }
    ensures value { IfOk result (λ r. (head_made basic.entry.init.now basic.entry.test.now basic.entry.update.now (answers_of nodes.old left.now)).it ≡ head_of nodes.new r.head) }
    ensures left { IfOk result (λ r. (head_made basic.entry.init.now basic.entry.test.now basic.entry.update.now (answers_of nodes.old left.now)).left ≡ answers_of nodes.new r.left.now) }
    ensures within { IfOk result (λ r. HeadBelow (length nodes.new) r.head) }
    ensures below { IfOk result (λ r. AnswersBelow (length nodes.new) r.left.now) }
    ensures grows { Grows nodes.old nodes.new }
{
    let begun = take_begun(nodes, basic.init, left)?;
    let test = take_operand_if(nodes, basic.test, begun.left)?;
    let update = take_operands(nodes, basic.update, test.left)?;
    let head = HeadAt {
        declared: begun.declared,
        before: begun.before,
        test: test.at,
        update: update.at,
    };
    Ok(MadeHead {
        head,
        left: update.left,
    })
}

/// An enhanced `for` over these elements, which goes on by its number.
pub fn each_form(target: u32, elements: ElementsAt, local: u32, body: u32) -> StmtForm
    ensures { result ≡ each_node target elements local body }
{
    let ElementsAt {
        is_array,
        of,
        ty,
        captures,
        steps,
    } = elements;
    if is_array {
        StmtForm::ForArray {
            target,
            of,
            ty,
            captures,
            steps,
            local,
            body,
        }
    } else {
        StmtForm::ForIterable {
            target,
            of,
            ty,
            captures,
            steps,
            local,
            body,
        }
    }
}
