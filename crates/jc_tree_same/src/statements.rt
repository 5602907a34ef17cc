//! Statements, declarations and source files.
ghost use Rattle.std.specs.Prelude.{◌≡◌, ◌↔◌, IsTrue};

use crate::expressions::{same_expr, same_exprs, same_some_expr};
use crate::parts::{
    same_clause_head, same_for, same_head, same_locals, same_method, same_some_resources,
};
use crate::plain::{same_ident, same_idents, same_some_ident};
use jc_tree::{Clause, Declaration, Import, Member, Package, SourceFile, Stmt, TopLevel};

/// Whether two statements are the same, at the same places.
#[cycle(same_statements)]
pub fn same_stmt(a: &Stmt, b: &Stmt) -> bool
    ensures { IsTrue result ↔ (a.now ≡ b.now) }
{
    match a {
        Stmt::Local(it) => {
            let Stmt::Local(other) = b else {
                return false;
            };
            same_locals(it, other)
        }
        Stmt::Declared(it) => {
            let Stmt::Declared(other) = b else {
                return false;
            };
            same_declaration(it, other)
        }
        Stmt::Block { at, items } => {
            let Stmt::Block {
                at: other_at,
                items: other_items,
            } = b
            else {
                return false;
            };
            at == other_at && same_stmts(items.slice(), other_items.slice())
        }
        Stmt::Empty { at } => {
            let Stmt::Empty { at: other } = b else {
                return false;
            };
            at == other
        }
        Stmt::Effect(it) => {
            let Stmt::Effect(other) = b else {
                return false;
            };
            same_expr(it, other)
        }
        Stmt::Labeled { label, body } => {
            let Stmt::Labeled {
                label: other_label,
                body: other_body,
            } = b
            else {
                return false;
            };
            same_ident(label, other_label) && same_stmt(body.get(), other_body.get())
        }
        Stmt::If { arms, otherwise } => {
            let Stmt::If {
                arms: other_arms,
                otherwise: other_otherwise,
            } = b
            else {
                return false;
            };
            same_clauses(arms.slice(), other_arms.slice())
                && same_stmts(otherwise.slice(), other_otherwise.slice())
        }
        Stmt::While { at, test, body } => {
            let Stmt::While {
                at: other_at,
                test: other_test,
                body: other_body,
            } = b
            else {
                return false;
            };
            at == other_at && same_expr(test, other_test) && same_stmt(body.get(), other_body.get())
        }
        Stmt::Do { at, body, test } => {
            let Stmt::Do {
                at: other_at,
                body: other_body,
                test: other_test,
            } = b
            else {
                return false;
            };
            at == other_at && same_stmt(body.get(), other_body.get()) && same_expr(test, other_test)
        }
        Stmt::For { at, head, body } => {
            let Stmt::For {
                at: other_at,
                head: other_head,
                body: other_body,
            } = b
            else {
                return false;
            };
            at == other_at && same_for(head, other_head) && same_stmt(body.get(), other_body.get())
        }
        Stmt::Switch {
            at,
            selector,
            groups,
        } => {
            let Stmt::Switch {
                at: other_at,
                selector: other_selector,
                groups: other_groups,
            } = b
            else {
                return false;
            };
            at == other_at
                && same_expr(selector, other_selector)
                && same_clauses(groups.slice(), other_groups.slice())
        }
        Stmt::Return { at, value } => {
            let Stmt::Return {
                at: other_at,
                value: other_value,
            } = b
            else {
                return false;
            };
            at == other_at && same_some_expr(value, other_value)
        }
        Stmt::Break { at, label } => {
            let Stmt::Break {
                at: other_at,
                label: other_label,
            } = b
            else {
                return false;
            };
            at == other_at && same_some_ident(label, other_label)
        }
        Stmt::Continue { at, label } => {
            let Stmt::Continue {
                at: other_at,
                label: other_label,
            } = b
            else {
                return false;
            };
            at == other_at && same_some_ident(label, other_label)
        }
        Stmt::Throw { at, value } => {
            let Stmt::Throw {
                at: other_at,
                value: other_value,
            } = b
            else {
                return false;
            };
            at == other_at && same_expr(value, other_value)
        }
        Stmt::Try {
            at,
            resources,
            items,
            clauses,
        } => {
            let Stmt::Try {
                at: other_at,
                resources: other_resources,
                items: other_items,
                clauses: other_clauses,
            } = b
            else {
                return false;
            };
            at == other_at
                && same_some_resources(resources, other_resources)
                && same_stmts(items.slice(), other_items.slice())
                && same_clauses(clauses.slice(), other_clauses.slice())
        }
        Stmt::ThisCall { at, actuals } => {
            let Stmt::ThisCall {
                at: other_at,
                actuals: other_actuals,
            } = b
            else {
                return false;
            };
            at == other_at && same_exprs(actuals.slice(), other_actuals.slice())
        }
        Stmt::SuperCall { at, actuals } => {
            let Stmt::SuperCall {
                at: other_at,
                actuals: other_actuals,
            } = b
            else {
                return false;
            };
            at == other_at && same_exprs(actuals.slice(), other_actuals.slice())
        }
    }
}

#[cycle(same_statements)]
fn same_stmts(xs: &[Stmt], ys: &[Stmt]) -> bool
    ensures { IsTrue result ↔ (xs.now ≡ ys.now) }
{
    if xs.len() != ys.len() {
        return false;
    }
    for i in 0..xs.len() {
        if !same_stmt(&xs[i], &ys[i]) {
            return false;
        }
    }
    true
}

#[cycle(same_statements)]
fn same_clause(a: &Clause, b: &Clause) -> bool
    ensures { IsTrue result ↔ (a.now ≡ b.now) }
{
    a.at == b.at
        && same_clause_head(&a.head, &b.head)
        && same_stmts(a.items.slice(), b.items.slice())
}

#[cycle(same_statements)]
fn same_clauses(xs: &[Clause], ys: &[Clause]) -> bool
    ensures { IsTrue result ↔ (xs.now ≡ ys.now) }
{
    if xs.len() != ys.len() {
        return false;
    }
    for i in 0..xs.len() {
        if !same_clause(&xs[i], &ys[i]) {
            return false;
        }
    }
    true
}

#[cycle(same_statements)]
fn same_member(a: &Member, b: &Member) -> bool
    ensures { IsTrue result ↔ (a.now ≡ b.now) }
{
    match a {
        Member::Semicolon { at } => {
            let Member::Semicolon { at: other } = b else {
                return false;
            };
            at == other
        }
        Member::Initialiser {
            at,
            is_static,
            items,
        } => {
            let Member::Initialiser {
                at: other_at,
                is_static: other_is_static,
                items: other_items,
            } = b
            else {
                return false;
            };
            at == other_at
                && is_static == other_is_static
                && same_stmts(items.slice(), other_items.slice())
        }
        Member::Fields(it) => {
            let Member::Fields(other) = b else {
                return false;
            };
            same_locals(it, other)
        }
        Member::Bare { head } => {
            let Member::Bare { head: other } = b else {
                return false;
            };
            same_method(head, other)
        }
        Member::Method { head, items } => {
            let Member::Method {
                head: other_head,
                items: other_items,
            } = b
            else {
                return false;
            };
            same_method(head, other_head) && same_stmts(items.slice(), other_items.slice())
        }
        Member::Nested(it) => {
            let Member::Nested(other) = b else {
                return false;
            };
            same_declaration(it, other)
        }
    }
}

#[cycle(same_statements)]
fn same_members(xs: &[Member], ys: &[Member]) -> bool
    ensures { IsTrue result ↔ (xs.now ≡ ys.now) }
{
    if xs.len() != ys.len() {
        return false;
    }
    for i in 0..xs.len() {
        if !same_member(&xs[i], &ys[i]) {
            return false;
        }
    }
    true
}

/// Whether two declarations of types are the same, at the same places.
#[cycle(same_statements)]
pub fn same_declaration(a: &Declaration, b: &Declaration) -> bool
    ensures { IsTrue result ↔ (a.now ≡ b.now) }
{
    same_head(&a.head, &b.head) && same_members(a.members.slice(), b.members.slice())
}

fn same_top(a: &TopLevel, b: &TopLevel) -> bool
    ensures { IsTrue result ↔ (a.now ≡ b.now) }
{
    match (a, b) {
        (TopLevel::Declaration(it), TopLevel::Declaration(other)) => same_declaration(it, other),
        (TopLevel::Semicolon { at }, TopLevel::Semicolon { at: other }) => at == other,
        _ => false,
    }
}

fn same_tops(xs: &[TopLevel], ys: &[TopLevel]) -> bool
    ensures { IsTrue result ↔ (xs.now ≡ ys.now) }
{
    if xs.len() != ys.len() {
        return false;
    }
    for i in 0..xs.len() {
        if !same_top(&xs[i], &ys[i]) {
            return false;
        }
    }
    true
}

fn same_package(a: &Package, b: &Package) -> bool
    ensures { IsTrue result ↔ (a.now ≡ b.now) }
{
    a.at == b.at && same_ident(&a.first, &b.first) && same_idents(a.more.slice(), b.more.slice())
}

fn same_some_package(a: &Option<Package>, b: &Option<Package>) -> bool
    ensures { IsTrue result ↔ (a.now ≡ b.now) }
{
    match (a, b) {
        (Some(it), Some(other)) => same_package(it, other),
        (None, None) => true,
        _ => false,
    }
}

fn same_import(a: &Import, b: &Import) -> bool
    ensures { IsTrue result ↔ (a.now ≡ b.now) }
{
    a.at == b.at
        && a.is_static == b.is_static
        && a.on_demand == b.on_demand
        && same_ident(&a.first, &b.first)
        && same_idents(a.more.slice(), b.more.slice())
}

fn same_imports(xs: &[Import], ys: &[Import]) -> bool
    ensures { IsTrue result ↔ (xs.now ≡ ys.now) }
{
    if xs.len() != ys.len() {
        return false;
    }
    for i in 0..xs.len() {
        if !same_import(&xs[i], &ys[i]) {
            return false;
        }
    }
    true
}

/// Whether two source files are the same, at the same places.
pub fn same(a: &SourceFile, b: &SourceFile) -> bool
    ensures { IsTrue result ↔ (a.now ≡ b.now) }
{
    same_some_package(&a.package, &b.package)
        && same_imports(a.imports.slice(), b.imports.slice())
        && same_tops(a.types.slice(), b.types.slice())
}
