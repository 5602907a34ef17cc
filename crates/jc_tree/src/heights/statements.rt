//! Heights of statements, members and declarations.
ghost use Rattle.std.specs.Prelude.{◌≡◌, map};
ghost use Rattle.jc_tree.specs.Heights.{capped, clause_height, declaration_height, member_height, most, source_height, stmt_height, top_height};

use super::expressions::{effect_height, expr_height, exprs_height, some_expr_height};
use super::parts::{
    clause_head_height, for_height, head_height, local_height, method_height,
    some_resources_of_height,
};
use crate::{Clause, Declaration, Member, SourceFile, Stmt, TopLevel};

#[cycle(statements_heights)]
#[tactic(auto, using(crate::proofs::Opened::statements))]
pub fn member_height(node: &Member) -> u32
    ensures { result ≡ capped (member_height node.now) }
{
    match node {
        Member::Semicolon { .. } => 0,
        Member::Initialiser { items, .. } => stmts_height(items.slice()),
        Member::Fields(it) => local_height(it),
        Member::Bare { head } => method_height(head),
        Member::Method { head, items } => method_height(head).max(stmts_height(items.slice())),
        Member::Nested(it) => declaration_height(it),
    }
}

#[cycle(statements_heights)]
#[tactic(auto, using(crate::proofs::Opened::statements))]
pub fn members_height(nodes: &[Member]) -> u32
    ensures { result ≡ capped (most (map member_height nodes.now)) }
{
    let mut most = 0;
    for node in nodes {
        most = most.max(member_height(node));
    }
    most
}

#[cycle(statements_heights)]
#[tactic(auto, using(crate::proofs::Opened::statements))]
pub fn stmt_height(node: &Stmt) -> u32
    ensures { result ≡ capped (stmt_height node.now) }
{
    match node {
        Stmt::Local(it) => local_height(it).saturating_add(1),
        Stmt::Declared(it) => declaration_height(it),
        Stmt::Block { items, .. } => stmts_height(items.slice()).saturating_add(1),
        Stmt::Empty { .. } => 1,
        Stmt::Effect(it) => effect_height(it).saturating_add(1),
        Stmt::Labeled { body, .. } => stmt_height(body.get()).saturating_add(1),
        Stmt::If { arms, otherwise } => clauses_height(arms.slice())
            .max(stmts_height(otherwise.slice()))
            .saturating_add(1),
        Stmt::While { test, body, .. } => expr_height(test)
            .max(stmt_height(body.get()))
            .saturating_add(1),
        Stmt::Do { body, test, .. } => stmt_height(body.get())
            .max(expr_height(test))
            .saturating_add(1),
        Stmt::For { head, body, .. } => for_height(head)
            .max(stmt_height(body.get()))
            .saturating_add(1),
        Stmt::Switch {
            selector,
            groups,
            ..
        } => expr_height(selector)
            .max(clauses_height(groups.slice()))
            .saturating_add(1),
        Stmt::Return { value, .. } => some_expr_height(value).saturating_add(1),
        Stmt::Break { .. } => 1,
        Stmt::Continue { .. } => 1,
        Stmt::Throw { value, .. } => expr_height(value).saturating_add(1),
        Stmt::Try {
            resources,
            items,
            clauses,
            ..
        } => some_resources_of_height(resources)
            .max(stmts_height(items.slice()))
            .max(clauses_height(clauses.slice()))
            .saturating_add(1),
        Stmt::ThisCall { actuals, .. } => exprs_height(actuals.slice()).saturating_add(1),
        Stmt::SuperCall { actuals, .. } => exprs_height(actuals.slice()).saturating_add(1),
    }
}

#[cycle(statements_heights)]
#[tactic(auto, using(crate::proofs::Opened::statements))]
pub fn stmts_height(nodes: &[Stmt]) -> u32
    ensures { result ≡ capped (most (map stmt_height nodes.now)) }
{
    let mut most = 0;
    for node in nodes {
        most = most.max(stmt_height(node));
    }
    most
}

#[cycle(statements_heights)]
#[tactic(auto, using(crate::proofs::Opened::statements))]
pub fn clause_height(node: &Clause) -> u32
    ensures { result ≡ capped (clause_height node.now) }
{
    clause_head_height(&node.head).max(stmts_height(node.items.slice()))
}

#[cycle(statements_heights)]
#[tactic(auto, using(crate::proofs::Opened::statements))]
pub fn clauses_height(nodes: &[Clause]) -> u32
    ensures { result ≡ capped (most (map clause_height nodes.now)) }
{
    let mut most = 0;
    for node in nodes {
        most = most.max(clause_height(node));
    }
    most
}

#[cycle(statements_heights)]
#[tactic(auto, using(crate::proofs::Opened::statements))]
pub fn declaration_height(node: &Declaration) -> u32
    ensures { result ≡ capped (declaration_height node.now) }
{
    head_height(&node.head)
        .max(members_height(node.members.slice()))
        .saturating_add(1)
}

pub fn top_height(node: &TopLevel) -> u32
    ensures { result ≡ capped (top_height node.now) }
{
    match node {
        TopLevel::Declaration(it) => declaration_height(it),
        TopLevel::Semicolon { .. } => 0,
    }
}

pub fn tops_height(nodes: &[TopLevel]) -> u32
    ensures { result ≡ capped (most (map top_height nodes.now)) }
{
    let mut most = 0;
    for node in nodes {
        most = most.max(top_height(node));
    }
    most
}

pub fn height(node: &SourceFile) -> u32
    ensures { result ≡ capped (source_height node.now) }
{
    tops_height(node.types.slice()).saturating_add(1)
}
