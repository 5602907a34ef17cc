//! Statements that are pushed into the arena of a walk: what the answers stand for stays.
ghost use Rattle.std.specs.Prelude.{◌≡◌, ◌<◌, IfOk, OnOk, length};
ghost use Rattle.jc_typed.specs.Parts.{BelowStmt, Grows, stmt_at, stmt_of, stmts_of};
ghost use Rattle.jc_typed.specs.Trees.{NoStmts, MoreStmts};
ghost use Rattle.jc_stmts_course.specs.Nows.{IsCourse, stage};

use jc_rules::WantOfMemory;
use jc_stmts_course::Course;
use jc_typed::{ListNode, StmtNode};

/// No statements.
#[tactic(auto, using(jc_typed::proofs::Growing::growing, jc_stmts_answers::proofs::Staying::staying))]
pub fn no_stmts(course: &mut Course) -> Result<u32, WantOfMemory>
    requires { IsCourse course.old }
    ensures value { IfOk result (λ at. stmts_of course.new.walk.nodes at ≡ NoStmts) }
    ensures within { IfOk result (λ at. at < length course.new.walk.nodes) }
    ensures stage { OnOk result (stage course.old ≡ stage course.new) }
    ensures course { OnOk result (IsCourse course.new) }
    ensures grows { OnOk result (Grows course.old.walk.nodes course.new.walk.nodes) }
{
    course.walk.nodes.push_stmts(ListNode::Empty)
}

/// A statement.
#[tactic(auto, using(jc_typed::proofs::Growing::growing, jc_stmts_answers::proofs::Staying::staying))]
pub fn push_stmt(course: &mut Course, node: StmtNode) -> Result<u32, WantOfMemory>
    requires course { IsCourse course.old }
    requires node { BelowStmt (length course.old.walk.nodes) node }
    ensures value { IfOk result (λ at. stmt_of course.new.walk.nodes at ≡ stmt_at course.old.walk.nodes node) }
    ensures within { IfOk result (λ at. at < length course.new.walk.nodes) }
    ensures stage { OnOk result (stage course.old ≡ stage course.new) }
    ensures course { OnOk result (IsCourse course.new) }
    ensures grows { OnOk result (Grows course.old.walk.nodes course.new.walk.nodes) }
{
    course.walk.nodes.push_stmt(node)
}

/// A statement behind those of a list.
#[tactic(auto, using(jc_typed::proofs::Growing::growing, jc_stmts_answers::proofs::Staying::staying))]
pub fn push_behind(course: &mut Course, before: u32, last: u32) -> Result<u32, WantOfMemory>
    requires course { IsCourse course.old }
    requires before { before < length course.old.walk.nodes }
    requires last { last < length course.old.walk.nodes }
    ensures value { IfOk result (λ at. stmts_of course.new.walk.nodes at ≡ MoreStmts (stmts_of course.old.walk.nodes before) (stmt_of course.old.walk.nodes last)) }
    ensures within { IfOk result (λ at. at < length course.new.walk.nodes) }
    ensures stage { OnOk result (stage course.old ≡ stage course.new) }
    ensures course { OnOk result (IsCourse course.new) }
    ensures grows { OnOk result (Grows course.old.walk.nodes course.new.walk.nodes) }
{
    course
        .walk
        .nodes
        .push_stmts(ListNode::More { before, last })
}
