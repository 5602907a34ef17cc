//! Variables that a statement declares (JLS 14.4).
ghost use Rattle.std.specs.Prelude.{◌≡◌, ◌<◌, length, IfOk};
ghost use Rattle.jc_typed.specs.Parts.{Grows, declared_of};
ghost use Rattle.jc_stmts_spec.specs.Assembling.{declared_all, declared_in, declared_more};
ghost use Rattle.jc_stmts_answers.specs.Answers.{AnswersBelow, answers_of};

use crate::pushing::{Made, push_declared};
use crate::taking::{take_initial, take_local};
use jc_rules::WantOfMemory;
use jc_stmts_answers::AnswerAt;
use jc_tree::{LocalVars, Var};
use jc_typed::{DeclaredNode, Nodes};

/// A variable behind some others.
#[tactic(auto, using(jc_typed::proofs::Growing::growing, crate::proofs::Lists::locals))]
fn take_declared<'s>(
    nodes: &mut Nodes,
    before: u32,
    var: &Var,
    left: &'s [AnswerAt],
) -> Result<Made<'s>, WantOfMemory>
    requires before { before < length nodes.old }
    requires answers { AnswersBelow (length nodes.old) left.now }
    ensures value { IfOk result (λ r. (declared_more (declared_of nodes.old before) var.now (answers_of nodes.old left.now)).it ≡ declared_of nodes.new r.at) }
    ensures left { IfOk result (λ r. (declared_more (declared_of nodes.old before) var.now (answers_of nodes.old left.now)).left ≡ answers_of nodes.new r.left.now) }
    ensures within { IfOk result (λ r. r.at < length nodes.new) }
    ensures below { IfOk result (λ r. AnswersBelow (length nodes.new) r.left.now) }
    ensures grows { Grows nodes.old nodes.new }
{
    let local = take_local(left);
    let value = take_initial(nodes, &var.init, local.left)?;
    let node = DeclaredNode::More {
        before,
        place: local.place,
        local: local.number,
        value: value.at,
    };
    push_declared(nodes, node, value.left)
}

/// Variables behind some others.
#[tactic(auto, using(jc_typed::proofs::Growing::growing))]
fn take_all_declared<'s>(
    nodes: &mut Nodes,
    before: u32,
    vars: &[Var],
    left: &'s [AnswerAt],
) -> Result<Made<'s>, WantOfMemory>
    requires before { before < length nodes.old }
    requires answers { AnswersBelow (length nodes.old) left.now }
    ensures value { IfOk result (λ r. (declared_all (declared_of nodes.old before) vars.now (answers_of nodes.old left.now)).it ≡ declared_of nodes.new r.at) }
    ensures left { IfOk result (λ r. (declared_all (declared_of nodes.old before) vars.now (answers_of nodes.old left.now)).left ≡ answers_of nodes.new r.left.now) }
    ensures within { IfOk result (λ r. r.at < length nodes.new) }
    ensures below { IfOk result (λ r. AnswersBelow (length nodes.new) r.left.now) }
    ensures grows { Grows nodes.old nodes.new }
{
    let mut list = Made { at: before, left };
    let mut rest = vars;
    while let [var, more @ ..] = rest {
        list = take_declared(nodes, list.at, var, list.left)?;
        rest = more;
    }
    Ok(list)
}

/// Variables that are declared together.
#[tactic(auto, using(jc_typed::proofs::Growing::growing))]
pub fn take_locals<'s>(
    nodes: &mut Nodes,
    vars: &LocalVars,
    left: &'s [AnswerAt],
) -> Result<Made<'s>, WantOfMemory>
    requires { AnswersBelow (length nodes.old) left.now }
    ensures value { IfOk result (λ r. (declared_in vars.now (answers_of nodes.old left.now)).it ≡ declared_of nodes.new r.at) }
    ensures left { IfOk result (λ r. (declared_in vars.now (answers_of nodes.old left.now)).left ≡ answers_of nodes.new r.left.now) }
    ensures within { IfOk result (λ r. r.at < length nodes.new) }
    ensures below { IfOk result (λ r. AnswersBelow (length nodes.new) r.left.now) }
    ensures grows { Grows nodes.old nodes.new }
{
    let none = push_declared(nodes, DeclaredNode::Empty, left)?;
    let first = take_declared(nodes, none.at, &vars.first, none.left)?;
    take_all_declared(nodes, first.at, vars.more.slice(), first.left)
}
