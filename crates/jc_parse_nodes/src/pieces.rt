//! Parts of statements before their bodies (JLS 14).
use crate::trees::HeadTree;
use jc_rules::Items;
use jc_tree::{Clause, ClauseHead, Expr, ForHead, Member, Stmt, TypeTree, Var};

/// A keyword with its place, and the test between the parentheses behind it.
#[derive(Drop)]
pub struct Tested {
    pub at: u32,
    pub test: Expr,
}

/// What a part of a statement begins with, at the offset of its keyword.
#[derive(Drop)]
pub struct Opening {
    pub at: u32,
    pub head: ClauseHead,
}

/// A `for` up to its body.
#[derive(Drop)]
pub struct ForOpening {
    pub at: u32,
    pub head: ForHead,
}

/// What a `try` guards, and its catches.
#[derive(Drop)]
pub struct Guarded {
    pub items: Items<Stmt>,
    pub clauses: Items<Clause>,
}

/// A declaration of a type behind its modifiers.
#[derive(Drop)]
pub struct Body {
    pub head: HeadTree,
    pub members: Items<Member>,
}

/// Variables behind their modifiers.
#[derive(Drop)]
pub struct Typed {
    pub ty: TypeTree,
    pub first: Var,
    pub more: Items<Var>,
}

/// What stands behind an `else`.
#[derive(Drop)]
pub enum Branch {
    Arm(Clause),
    Last(Stmt),
}
