//! Statements, members and declarations.
ghost use Rattle.std.specs.Prelude.{◌≡◌, IfOk};

use crate::expressions::{copy_expr, copy_exprs};
use crate::heads::{copy_clause_head, copy_for, copy_head, copy_method, copy_some_resources};
use crate::parts::{copy_locals, copy_some_expr};
use crate::plain::copy_some_ident;
use crate::together::{added, both, boxed};
use jc_rules::{Items, WantOfMemory};
use jc_tree::{Clause, Declaration, Member, Stmt, copy_ident};
use std::alloc::Global;

/// A copy of a statement.
#[cycle(statement_copies)]
pub fn copy_stmt(alloc: Global, stmt: &Stmt) -> Result<Stmt, WantOfMemory>
    ensures { IfOk result (λ copy. copy ≡ stmt.now) }
{
    match stmt {
        Stmt::Local(locals) => match copy_locals(alloc, locals) {
            Ok(locals) => Ok(Stmt::Local(locals)),
            Err(fault) => Err(fault),
        },
        Stmt::Declared(declaration) => match copy_declaration(alloc, declaration) {
            Ok(declaration) => Ok(Stmt::Declared(declaration)),
            Err(fault) => Err(fault),
        },
        Stmt::Block { at, items } => match copy_stmts(alloc, items.slice()) {
            Ok(items) => Ok(Stmt::Block { at: *at, items }),
            Err(fault) => Err(fault),
        },
        Stmt::Empty { at } => Ok(Stmt::Empty { at: *at }),
        Stmt::Effect(effect) => match copy_expr(alloc, effect) {
            Ok(effect) => Ok(Stmt::Effect(effect)),
            Err(fault) => Err(fault),
        },
        Stmt::Labeled { label, body } => {
            let body = boxed(alloc, copy_stmt(alloc, body.get()));
            match both(copy_ident(alloc, label), body) {
                Ok((label, body)) => Ok(Stmt::Labeled { label, body }),
                Err(fault) => Err(fault),
            }
        }
        Stmt::If { arms, otherwise } => {
            let arms = copy_clauses(alloc, arms.slice());
            match both(arms, copy_stmts(alloc, otherwise.slice())) {
                Ok((arms, otherwise)) => Ok(Stmt::If { arms, otherwise }),
                Err(fault) => Err(fault),
            }
        }
        Stmt::While { at, test, body } => {
            let body = boxed(alloc, copy_stmt(alloc, body.get()));
            match both(copy_expr(alloc, test), body) {
                Ok((test, body)) => Ok(Stmt::While {
                    at: *at,
                    test,
                    body,
                }),
                Err(fault) => Err(fault),
            }
        }
        Stmt::Do { at, body, test } => {
            let body = boxed(alloc, copy_stmt(alloc, body.get()));
            match both(body, copy_expr(alloc, test)) {
                Ok((body, test)) => Ok(Stmt::Do {
                    at: *at,
                    body,
                    test,
                }),
                Err(fault) => Err(fault),
            }
        }
        Stmt::For { at, head, body } => {
            let body = boxed(alloc, copy_stmt(alloc, body.get()));
            match both(copy_for(alloc, head), body) {
                Ok((head, body)) => Ok(Stmt::For {
                    at: *at,
                    head,
                    body,
                }),
                Err(fault) => Err(fault),
            }
        }
        Stmt::Switch {
            at,
            selector,
            groups,
        } => {
            let groups = copy_clauses(alloc, groups.slice());
            match both(copy_expr(alloc, selector), groups) {
                Ok((selector, groups)) => Ok(Stmt::Switch {
                    at: *at,
                    selector,
                    groups,
                }),
                Err(fault) => Err(fault),
            }
        }
        Stmt::Return { at, value } => match copy_some_expr(alloc, value) {
            Ok(value) => Ok(Stmt::Return { at: *at, value }),
            Err(fault) => Err(fault),
        },
        Stmt::Break { at, label } => match copy_some_ident(alloc, label) {
            Ok(label) => Ok(Stmt::Break { at: *at, label }),
            Err(fault) => Err(fault),
        },
        Stmt::Continue { at, label } => match copy_some_ident(alloc, label) {
            Ok(label) => Ok(Stmt::Continue { at: *at, label }),
            Err(fault) => Err(fault),
        },
        Stmt::Throw { at, value } => match copy_expr(alloc, value) {
            Ok(value) => Ok(Stmt::Throw { at: *at, value }),
            Err(fault) => Err(fault),
        },
        Stmt::Try {
            at,
            resources,
            items,
            clauses,
        } => {
            let items = copy_stmts(alloc, items.slice());
            let behind = both(items, copy_clauses(alloc, clauses.slice()));
            match both(copy_some_resources(alloc, resources), behind) {
                Ok((resources, (items, clauses))) => Ok(Stmt::Try {
                    at: *at,
                    resources,
                    items,
                    clauses,
                }),
                Err(fault) => Err(fault),
            }
        }
        Stmt::ThisCall { at, actuals } => match copy_exprs(alloc, actuals.slice()) {
            Ok(actuals) => Ok(Stmt::ThisCall { at: *at, actuals }),
            Err(fault) => Err(fault),
        },
        Stmt::SuperCall { at, actuals } => match copy_exprs(alloc, actuals.slice()) {
            Ok(actuals) => Ok(Stmt::SuperCall { at: *at, actuals }),
            Err(fault) => Err(fault),
        },
    }
}

#[cycle(statement_copies)]
fn copy_stmts(alloc: Global, stmts: &[Stmt]) -> Result<Items<Stmt>, WantOfMemory>
    ensures { IfOk result (λ copy. copy ≡ stmts.now) }
{
    let mut copies = Items::new(alloc);
    for i in 0..stmts.len() {
        copies = added(copies, copy_stmt(alloc, &stmts[i]))?;
    }
    Ok(copies)
}

#[cycle(statement_copies)]
fn copy_clause(alloc: Global, clause: &Clause) -> Result<Clause, WantOfMemory>
    ensures { IfOk result (λ copy. copy ≡ clause.now) }
{
    let items = copy_stmts(alloc, clause.items.slice());
    match both(copy_clause_head(alloc, &clause.head), items) {
        Ok((head, items)) => Ok(Clause {
            at: clause.at,
            head,
            items,
        }),
        Err(fault) => Err(fault),
    }
}

#[cycle(statement_copies)]
fn copy_clauses(alloc: Global, clauses: &[Clause]) -> Result<Items<Clause>, WantOfMemory>
    ensures { IfOk result (λ copy. copy ≡ clauses.now) }
{
    let mut copies = Items::new(alloc);
    for i in 0..clauses.len() {
        copies = added(copies, copy_clause(alloc, &clauses[i]))?;
    }
    Ok(copies)
}

/// A copy of a member of a declaration.
#[cycle(statement_copies)]
pub fn copy_member(alloc: Global, member: &Member) -> Result<Member, WantOfMemory>
    ensures { IfOk result (λ copy. copy ≡ member.now) }
{
    match member {
        Member::Semicolon { at } => Ok(Member::Semicolon { at: *at }),
        Member::Initialiser {
            at,
            is_static,
            items,
        } => match copy_stmts(alloc, items.slice()) {
            Ok(items) => Ok(Member::Initialiser {
                at: *at,
                is_static: *is_static,
                items,
            }),
            Err(fault) => Err(fault),
        },
        Member::Fields(locals) => match copy_locals(alloc, locals) {
            Ok(locals) => Ok(Member::Fields(locals)),
            Err(fault) => Err(fault),
        },
        Member::Bare { head } => match copy_method(alloc, head) {
            Ok(head) => Ok(Member::Bare { head }),
            Err(fault) => Err(fault),
        },
        Member::Method { head, items } => {
            match both(copy_method(alloc, head), copy_stmts(alloc, items.slice())) {
                Ok((head, items)) => Ok(Member::Method { head, items }),
                Err(fault) => Err(fault),
            }
        }
        Member::Nested(declaration) => match copy_declaration(alloc, declaration) {
            Ok(declaration) => Ok(Member::Nested(declaration)),
            Err(fault) => Err(fault),
        },
    }
}

#[cycle(statement_copies)]
fn copy_members(alloc: Global, members: &[Member]) -> Result<Items<Member>, WantOfMemory>
    ensures { IfOk result (λ copy. copy ≡ members.now) }
{
    let mut copies = Items::new(alloc);
    for i in 0..members.len() {
        copies = added(copies, copy_member(alloc, &members[i]))?;
    }
    Ok(copies)
}

/// A copy of a declaration of a type.
#[cycle(statement_copies)]
pub fn copy_declaration(
    alloc: Global,
    declaration: &Declaration,
) -> Result<Declaration, WantOfMemory>
    ensures { IfOk result (λ copy. copy ≡ declaration.now) }
{
    let members = copy_members(alloc, declaration.members.slice());
    match both(copy_head(alloc, &declaration.head), members) {
        Ok((head, members)) => Ok(Declaration { head, members }),
        Err(fault) => Err(fault),
    }
}
