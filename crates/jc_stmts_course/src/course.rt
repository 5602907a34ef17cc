//! The state of a walk through items.
use jc_exprs_locals::Locals;
use jc_exprs_nodes::Walk;
use jc_rules::Items;
use jc_stmts_answers::AnswerAt;
use jc_stmts_wants::Scope;
use jc_typed::Local;
use jc_types::Ty;

/// The state of a walk through the items of a body: the locals in scope, all those of the method so far by their numbers, the scopes with the innermost last, the types of the catch clause that was met
/// last, the walk over expressions, and an answer for each item that asks for one. Answers are kept only as long as nothing is broken. After want of memory nothing is said of it.
#[derive(Drop)]
pub struct Course {
    pub locals: Locals,
    pub all: Items<Local>,
    pub scopes: Items<Scope>,
    pub caught: Items<Ty>,
    pub walk: Walk,
    pub answers: Items<AnswerAt>,
}
