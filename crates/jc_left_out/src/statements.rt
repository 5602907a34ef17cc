//! Left-out forms of statements, declarations and source files.
ghost use Rattle.std.specs.Prelude.{◌≡◌, ◌<◌, ◌^◌, ◌++◌, length};
ghost use Rattle.jc_left_out.specs.LeftOut.{first_left_out_form, forms_of_clause, forms_of_stmt, head_forms, in_each, is_class, is_class_of_name, is_inner, least_of, left_out_forms, left_out_of_declaration, left_out_of_import, left_out_of_member, left_out_of_method, left_out_of_top, misplaced, standing_of_method};

use crate::expressions::{in_expr, in_exprs, in_some_expr};
use crate::least::{earlier, only_if};
use crate::parts::{
    in_clause_head, in_for, in_locals, in_method, in_modifiers, in_resources, some_static,
};
use crate::words::tokens_before;
use jc_lexer::Token;
use jc_tree::{
    Clause, Declaration, DeclarationHead, Import, Member, MethodHead, SourceFile, Stmt, TopLevel,
    first_offset_of_declaration, first_offset_of_method,
};

pub fn is_class(head: &DeclarationHead) -> bool
    ensures { result ≡ is_class head.now }
{
    matches!(head, DeclarationHead::Class { .. })
}

/// Whether the head is that of a class of this name.
pub fn is_class_of_name(head: &DeclarationHead, text: &str) -> bool
    ensures { result ≡ is_class_of_name head.now text.now }
{
    match head {
        DeclarationHead::Class { name, .. } => name.text.str() == text,
        DeclarationHead::Interface { .. } => false,
        DeclarationHead::Annotation { .. } => false,
    }
}

pub fn is_inner(head: &DeclarationHead) -> bool
    ensures { result ≡ is_inner head.now }
{
    match head {
        DeclarationHead::Class { modifiers, .. } => !some_static(modifiers.slice()),
        DeclarationHead::Interface { .. } => false,
        DeclarationHead::Annotation { .. } => false,
    }
}

#[tactic(auto, using(crate::proofs::LeftOutRules::lists))]
pub fn in_head(head: &DeclarationHead, at: u32) -> Option<u32>
    ensures { result ≡ least_of (head_forms head.now at) }
{
    match head {
        DeclarationHead::Class { modifiers, .. } => in_modifiers(modifiers.slice()),
        DeclarationHead::Interface { modifiers, .. } => in_modifiers(modifiers.slice()),
        DeclarationHead::Annotation { modifiers, .. } => {
            earlier(Some(at), in_modifiers(modifiers.slice()))
        }
    }
}

/// The offset of a constructor where the declaration isn't the class of its name.
pub fn misplaced_constructor(method: &MethodHead, owner: &DeclarationHead) -> Option<u32>
    ensures { result ≡ least_of (misplaced owner.now (standing_of_method method.now)) }
{
    match method.result {
        Some(_) => None,
        None => only_if(
            !is_class_of_name(owner, method.name.text.str()),
            first_offset_of_method(method),
        ),
    }
}

#[tactic(auto, using(crate::proofs::LeftOutRules::lists))]
pub fn in_method_of(method: &MethodHead, owner: &DeclarationHead) -> Option<u32>
    ensures { result ≡ least_of (misplaced owner.now (standing_of_method method.now) ++ left_out_of_method method.now) }
{
    earlier(misplaced_constructor(method, owner), in_method(method))
}

#[cycle(statements_left_out)]
#[tactic(auto, using(crate::proofs::LeftOutRules::statements))]
pub fn in_stmt(node: &Stmt) -> Option<u32>
    ensures { result ≡ least_of (forms_of_stmt node.now) }
{
    match node {
        Stmt::Local(it) => in_locals(it),
        Stmt::Declared(it) => earlier(Some(first_offset_of_declaration(it)), in_declaration(it)),
        Stmt::Block { items, .. } => in_stmts(items.slice()),
        Stmt::Empty { .. } => None,
        Stmt::Effect(it) => in_expr(it),
        Stmt::Labeled { body, .. } => in_stmt(body.get()),
        Stmt::If { arms, otherwise } => {
            earlier(in_clauses(arms.slice()), in_stmts(otherwise.slice()))
        }
        Stmt::While { test, body, .. } => earlier(in_expr(test), in_stmt(body.get())),
        Stmt::Do { body, test, .. } => earlier(in_stmt(body.get()), in_expr(test)),
        Stmt::For { head, body, .. } => earlier(in_for(head), in_stmt(body.get())),
        Stmt::Switch {
            selector,
            groups,
            ..
        } => earlier(in_expr(selector), in_clauses(groups.slice())),
        Stmt::Return { value, .. } => in_some_expr(value),
        Stmt::Break { .. } => None,
        Stmt::Continue { .. } => None,
        Stmt::Throw { value, .. } => in_expr(value),
        Stmt::Try {
            at,
            resources,
            items,
            clauses,
        } => match resources {
            None => earlier(in_stmts(items.slice()), in_clauses(clauses.slice())),
            Some(resources) => earlier(
                Some(*at),
                earlier(
                    in_resources(resources),
                    earlier(in_stmts(items.slice()), in_clauses(clauses.slice())),
                ),
            ),
        },
        Stmt::ThisCall { actuals, .. } => in_exprs(actuals.slice()),
        Stmt::SuperCall { actuals, .. } => in_exprs(actuals.slice()),
    }
}

#[cycle(statements_left_out)]
#[tactic(auto, using(crate::proofs::LeftOutRules::statements))]
pub fn in_stmts(nodes: &[Stmt]) -> Option<u32>
    ensures { result ≡ least_of (in_each forms_of_stmt nodes.now) }
{
    let mut first = None;
    for node in nodes {
        first = earlier(first, in_stmt(node));
    }
    first
}

#[cycle(statements_left_out)]
#[tactic(auto, using(crate::proofs::LeftOutRules::statements))]
pub fn in_clause(node: &Clause) -> Option<u32>
    ensures { result ≡ least_of (forms_of_clause node.now) }
{
    earlier(in_clause_head(&node.head), in_stmts(node.items.slice()))
}

#[cycle(statements_left_out)]
#[tactic(auto, using(crate::proofs::LeftOutRules::statements))]
pub fn in_clauses(nodes: &[Clause]) -> Option<u32>
    ensures { result ≡ least_of (in_each forms_of_clause nodes.now) }
{
    let mut first = None;
    for node in nodes {
        first = earlier(first, in_clause(node));
    }
    first
}

#[cycle(statements_left_out)]
#[tactic(auto, using(crate::proofs::LeftOutRules::statements))]
pub fn in_member(node: &Member, owner: &DeclarationHead) -> Option<u32>
    ensures { result ≡ least_of (left_out_of_member owner.now node.now) }
{
    match node {
        Member::Semicolon { .. } => None,
        Member::Initialiser { at, items, .. } => {
            earlier(only_if(!is_class(owner), *at), in_stmts(items.slice()))
        }
        Member::Fields(it) => in_locals(it),
        Member::Bare { head } => in_method_of(head, owner),
        Member::Method { head, items } => {
            earlier(in_method_of(head, owner), in_stmts(items.slice()))
        }
        Member::Nested(it) => {
            if is_class(owner) && is_inner(&it.head) {
                earlier(Some(first_offset_of_declaration(it)), in_declaration(it))
            } else {
                in_declaration(it)
            }
        }
    }
}

#[cycle(statements_left_out)]
#[tactic(auto, using(crate::proofs::LeftOutRules::statements))]
pub fn in_members(nodes: &[Member], owner: &DeclarationHead) -> Option<u32>
    ensures { result ≡ least_of (in_each (left_out_of_member owner.now) nodes.now) }
{
    let mut first = None;
    for node in nodes {
        first = earlier(first, in_member(node, owner));
    }
    first
}

#[cycle(statements_left_out)]
#[tactic(auto, using(crate::proofs::LeftOutRules::statements))]
pub fn in_declaration(node: &Declaration) -> Option<u32>
    ensures { result ≡ least_of (left_out_of_declaration node.now) }
{
    earlier(
        in_head(&node.head, first_offset_of_declaration(node)),
        in_members(node.members.slice(), &node.head),
    )
}

#[tactic(auto, using(crate::proofs::LeftOutRules::lists))]
pub fn in_imports(nodes: &[Import]) -> Option<u32>
    ensures { result ≡ least_of (in_each left_out_of_import nodes.now) }
{
    let mut first = None;
    for node in nodes {
        if node.is_static {
            first = earlier(first, Some(node.at));
        }
    }
    first
}

pub fn in_top(node: &TopLevel) -> Option<u32>
    ensures { result ≡ least_of (left_out_of_top node.now) }
{
    match node {
        TopLevel::Declaration(it) => in_declaration(it),
        TopLevel::Semicolon { .. } => None,
    }
}

#[tactic(auto, using(crate::proofs::LeftOutRules::lists))]
pub fn in_tops(nodes: &[TopLevel]) -> Option<u32>
    ensures { result ≡ least_of (in_each left_out_of_top nodes.now) }
{
    let mut first = None;
    for node in nodes {
        first = earlier(first, in_top(node));
    }
    first
}

#[tactic(auto, using(crate::proofs::LeftOutRules::lists))]
pub fn in_file(node: &SourceFile) -> Option<u32>
    ensures { result ≡ least_of (left_out_forms node.now) }
{
    earlier(
        in_imports(node.imports.slice()),
        in_tops(node.types.slice()),
    )
}

/// The place of the token at which the first form stands that the language leaves out.
pub fn first_left_out_form(tokens: &[Token], file: &SourceFile) -> Option<u32>
    requires { length tokens.now < 2 ^ 32 }
    ensures { result ≡ first_left_out_form tokens.now file.now }
{
    match in_file(file) {
        Some(at) => Some(tokens_before(tokens, at)),
        None => None,
    }
}
