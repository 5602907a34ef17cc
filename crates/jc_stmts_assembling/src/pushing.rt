//! Nodes that are pushed into the arena while answers are left: these stay what they are.
ghost use Rattle.std.specs.Prelude.{◌≡◌, ◌<◌, length, IfOk};
ghost use Rattle.jc_typed.specs.Parts.{BelowArms, BelowCases, BelowCatches, BelowDeclared, BelowList, BelowNames, BelowOperand, BelowStmt, Grows, arms_at, arms_of, cases_at, cases_of, catches_at, catches_of, declared_at, declared_of, names_at, names_of, operand_at, operand_of, operands_at, operands_of, stmt_at, stmt_of, stmts_at, stmts_of, types_at, types_of};
ghost use Rattle.jc_stmts_answers.specs.Answers.{AnswersBelow, answers_of};

use jc_rules::WantOfMemory;
use jc_stmts_answers::AnswerAt;
use jc_typed::{
    ArmsNode, CasesNode, CatchesNode, DeclaredNode, ListNode, NamesNode, Nodes, OperandNode,
    StmtNode,
};

/// What is made, by its place in the arena, and the answers that are left.
#[derive(Clone, Copy)]
pub struct Made<'s> {
    pub at: u32,
    pub left: &'s [AnswerAt],
}

/// An operand.
#[tactic(auto, using(jc_typed::proofs::Growing::growing, jc_stmts_answers::proofs::Staying::staying))]
pub fn push_operand<'s>(
    nodes: &mut Nodes,
    node: OperandNode,
    left: &'s [AnswerAt],
) -> Result<Made<'s>, WantOfMemory>
    requires node { BelowOperand (length nodes.old) node }
    requires answers { AnswersBelow (length nodes.old) left.now }
    ensures value { IfOk result (λ r. operand_at nodes.old node ≡ operand_of nodes.new r.at) }
    ensures left { IfOk result (λ r. answers_of nodes.old left.now ≡ answers_of nodes.new r.left.now) }
    ensures within { IfOk result (λ r. r.at < length nodes.new) }
    ensures below { IfOk result (λ r. AnswersBelow (length nodes.new) r.left.now) }
    ensures grows { Grows nodes.old nodes.new }
{
    let at = nodes.push_operand(node)?;
    Ok(Made { at, left })
}

/// A list of operands.
#[tactic(auto, using(jc_typed::proofs::Growing::growing, jc_stmts_answers::proofs::Staying::staying))]
pub fn push_operands<'s>(
    nodes: &mut Nodes,
    node: ListNode,
    left: &'s [AnswerAt],
) -> Result<Made<'s>, WantOfMemory>
    requires node { BelowList (length nodes.old) node }
    requires answers { AnswersBelow (length nodes.old) left.now }
    ensures value { IfOk result (λ r. operands_at nodes.old node ≡ operands_of nodes.new r.at) }
    ensures left { IfOk result (λ r. answers_of nodes.old left.now ≡ answers_of nodes.new r.left.now) }
    ensures within { IfOk result (λ r. r.at < length nodes.new) }
    ensures below { IfOk result (λ r. AnswersBelow (length nodes.new) r.left.now) }
    ensures grows { Grows nodes.old nodes.new }
{
    let at = nodes.push_operands(node)?;
    Ok(Made { at, left })
}

/// A list of named locals.
#[tactic(auto, using(jc_typed::proofs::Growing::growing, jc_stmts_answers::proofs::Staying::staying))]
pub fn push_names<'s>(
    nodes: &mut Nodes,
    node: NamesNode,
    left: &'s [AnswerAt],
) -> Result<Made<'s>, WantOfMemory>
    requires node { BelowNames (length nodes.old) node }
    requires answers { AnswersBelow (length nodes.old) left.now }
    ensures value { IfOk result (λ r. names_at nodes.old node ≡ names_of nodes.new r.at) }
    ensures left { IfOk result (λ r. answers_of nodes.old left.now ≡ answers_of nodes.new r.left.now) }
    ensures within { IfOk result (λ r. r.at < length nodes.new) }
    ensures below { IfOk result (λ r. AnswersBelow (length nodes.new) r.left.now) }
    ensures grows { Grows nodes.old nodes.new }
{
    let at = nodes.push_names(node)?;
    Ok(Made { at, left })
}

/// A list of types.
#[tactic(auto, using(jc_typed::proofs::Growing::growing, jc_stmts_answers::proofs::Staying::staying))]
pub fn push_types<'s>(
    nodes: &mut Nodes,
    node: ListNode,
    left: &'s [AnswerAt],
) -> Result<Made<'s>, WantOfMemory>
    requires node { BelowList (length nodes.old) node }
    requires answers { AnswersBelow (length nodes.old) left.now }
    ensures value { IfOk result (λ r. types_at nodes.old node ≡ types_of nodes.new r.at) }
    ensures left { IfOk result (λ r. answers_of nodes.old left.now ≡ answers_of nodes.new r.left.now) }
    ensures within { IfOk result (λ r. r.at < length nodes.new) }
    ensures below { IfOk result (λ r. AnswersBelow (length nodes.new) r.left.now) }
    ensures grows { Grows nodes.old nodes.new }
{
    let at = nodes.push_types(node)?;
    Ok(Made { at, left })
}

/// A list of labels.
#[tactic(auto, using(jc_typed::proofs::Growing::growing, jc_stmts_answers::proofs::Staying::staying))]
pub fn push_cases<'s>(
    nodes: &mut Nodes,
    node: CasesNode,
    left: &'s [AnswerAt],
) -> Result<Made<'s>, WantOfMemory>
    requires node { BelowCases (length nodes.old) node }
    requires answers { AnswersBelow (length nodes.old) left.now }
    ensures value { IfOk result (λ r. cases_at nodes.old node ≡ cases_of nodes.new r.at) }
    ensures left { IfOk result (λ r. answers_of nodes.old left.now ≡ answers_of nodes.new r.left.now) }
    ensures within { IfOk result (λ r. r.at < length nodes.new) }
    ensures below { IfOk result (λ r. AnswersBelow (length nodes.new) r.left.now) }
    ensures grows { Grows nodes.old nodes.new }
{
    let at = nodes.push_cases(node)?;
    Ok(Made { at, left })
}

/// A list of declared variables.
#[tactic(auto, using(jc_typed::proofs::Growing::growing, jc_stmts_answers::proofs::Staying::staying))]
pub fn push_declared<'s>(
    nodes: &mut Nodes,
    node: DeclaredNode,
    left: &'s [AnswerAt],
) -> Result<Made<'s>, WantOfMemory>
    requires node { BelowDeclared (length nodes.old) node }
    requires answers { AnswersBelow (length nodes.old) left.now }
    ensures value { IfOk result (λ r. declared_at nodes.old node ≡ declared_of nodes.new r.at) }
    ensures left { IfOk result (λ r. answers_of nodes.old left.now ≡ answers_of nodes.new r.left.now) }
    ensures within { IfOk result (λ r. r.at < length nodes.new) }
    ensures below { IfOk result (λ r. AnswersBelow (length nodes.new) r.left.now) }
    ensures grows { Grows nodes.old nodes.new }
{
    let at = nodes.push_declared(node)?;
    Ok(Made { at, left })
}

/// A statement.
#[tactic(auto, using(jc_typed::proofs::Growing::growing, jc_stmts_answers::proofs::Staying::staying))]
pub fn push_stmt<'s>(
    nodes: &mut Nodes,
    node: StmtNode,
    left: &'s [AnswerAt],
) -> Result<Made<'s>, WantOfMemory>
    requires node { BelowStmt (length nodes.old) node }
    requires answers { AnswersBelow (length nodes.old) left.now }
    ensures value { IfOk result (λ r. stmt_at nodes.old node ≡ stmt_of nodes.new r.at) }
    ensures left { IfOk result (λ r. answers_of nodes.old left.now ≡ answers_of nodes.new r.left.now) }
    ensures within { IfOk result (λ r. r.at < length nodes.new) }
    ensures below { IfOk result (λ r. AnswersBelow (length nodes.new) r.left.now) }
    ensures grows { Grows nodes.old nodes.new }
{
    let at = nodes.push_stmt(node)?;
    Ok(Made { at, left })
}

/// A list of statements.
#[tactic(auto, using(jc_typed::proofs::Growing::growing, jc_stmts_answers::proofs::Staying::staying))]
pub fn push_stmts<'s>(
    nodes: &mut Nodes,
    node: ListNode,
    left: &'s [AnswerAt],
) -> Result<Made<'s>, WantOfMemory>
    requires node { BelowList (length nodes.old) node }
    requires answers { AnswersBelow (length nodes.old) left.now }
    ensures value { IfOk result (λ r. stmts_at nodes.old node ≡ stmts_of nodes.new r.at) }
    ensures left { IfOk result (λ r. answers_of nodes.old left.now ≡ answers_of nodes.new r.left.now) }
    ensures within { IfOk result (λ r. r.at < length nodes.new) }
    ensures below { IfOk result (λ r. AnswersBelow (length nodes.new) r.left.now) }
    ensures grows { Grows nodes.old nodes.new }
{
    let at = nodes.push_stmts(node)?;
    Ok(Made { at, left })
}

/// The arms of an `if`.
#[tactic(auto, using(jc_typed::proofs::Growing::growing, jc_stmts_answers::proofs::Staying::staying))]
pub fn push_arms<'s>(
    nodes: &mut Nodes,
    node: ArmsNode,
    left: &'s [AnswerAt],
) -> Result<Made<'s>, WantOfMemory>
    requires node { BelowArms (length nodes.old) node }
    requires answers { AnswersBelow (length nodes.old) left.now }
    ensures value { IfOk result (λ r. arms_at nodes.old node ≡ arms_of nodes.new r.at) }
    ensures left { IfOk result (λ r. answers_of nodes.old left.now ≡ answers_of nodes.new r.left.now) }
    ensures within { IfOk result (λ r. r.at < length nodes.new) }
    ensures below { IfOk result (λ r. AnswersBelow (length nodes.new) r.left.now) }
    ensures grows { Grows nodes.old nodes.new }
{
    let at = nodes.push_arms(node)?;
    Ok(Made { at, left })
}

/// A list of catch clauses.
#[tactic(auto, using(jc_typed::proofs::Growing::growing, jc_stmts_answers::proofs::Staying::staying))]
pub fn push_catches<'s>(
    nodes: &mut Nodes,
    node: CatchesNode,
    left: &'s [AnswerAt],
) -> Result<Made<'s>, WantOfMemory>
    requires node { BelowCatches (length nodes.old) node }
    requires answers { AnswersBelow (length nodes.old) left.now }
    ensures value { IfOk result (λ r. catches_at nodes.old node ≡ catches_of nodes.new r.at) }
    ensures left { IfOk result (λ r. answers_of nodes.old left.now ≡ answers_of nodes.new r.left.now) }
    ensures within { IfOk result (λ r. r.at < length nodes.new) }
    ensures below { IfOk result (λ r. AnswersBelow (length nodes.new) r.left.now) }
    ensures grows { Grows nodes.old nodes.new }
{
    let at = nodes.push_catches(node)?;
    Ok(Made { at, left })
}
