//! Where trees begin: the offsets of their first tokens.
ghost use Rattle.std.specs.Prelude.{◌≡◌, map};
ghost use Rattle.jc_tree.specs.Offsets.{first_or, modifiers_first, first_offset_of_clause, first_offset_of_arg, first_offset_of_array, first_offset_of_import, first_offset_of_base, first_offset_of_class, first_offset_of_creation, first_offset_of_declaration, first_offset_of_expr, first_offset_of_file, first_offset_of_formal, first_offset_of_head, first_offset_of_init, first_offset_of_locals, first_offset_of_member, first_offset_of_method, first_offset_of_modifier, first_offset_of_result, first_offset_of_stmt, first_offset_of_top, first_offset_of_type, first_offset_of_value};

use crate::{
    AnnotationValue, ArrayInit, BaseTree, ClassTree, Clause, Creation, Declaration,
    DeclarationHead, Expr, Formal, Import, Init, LocalVars, Member, MethodHead, Modifier,
    ResultType, SourceFile, Stmt, TopLevel, TypeArg, TypeTree,
};

#[tactic(auto, using(crate::proofs::Begun::types))]
pub fn first_offset_of_class(node: &ClassTree) -> u32
    ensures { result ≡ first_offset_of_class node.now }
{
    node.first.name.at
}

#[tactic(auto, using(crate::proofs::Begun::types))]
pub fn first_offset_of_base(node: &BaseTree) -> u32
    ensures { result ≡ first_offset_of_base node.now }
{
    match node {
        BaseTree::Primitive { at, .. } => *at,
        BaseTree::Class(it) => first_offset_of_class(it),
    }
}

#[tactic(auto, using(crate::proofs::Begun::types))]
pub fn first_offset_of_type(node: &TypeTree) -> u32
    ensures { result ≡ first_offset_of_type node.now }
{
    first_offset_of_base(&node.base)
}

#[tactic(auto, using(crate::proofs::Begun::types))]
pub fn first_offset_of_arg(node: &TypeArg) -> u32
    ensures { result ≡ first_offset_of_arg node.now }
{
    match node {
        TypeArg::Exact(it) => first_offset_of_type(it),
        TypeArg::Any { at } => *at,
        TypeArg::Extends { at, .. } => *at,
        TypeArg::Super { at, .. } => *at,
    }
}

#[tactic(auto, using(crate::proofs::Begun::expressions))]
pub fn first_offset_of_expr(node: &Expr) -> u32
    ensures { result ≡ first_offset_of_expr node.now }
{
    match node {
        Expr::Assign { target, .. } => first_offset_of_expr(target.get()),
        Expr::Conditional { test, .. } => first_offset_of_expr(test.get()),
        Expr::Chain { first, .. } => first_offset_of_expr(first.get()),
        Expr::Prefix { first, .. } => first.at,
        Expr::Cast { at, .. } => *at,
        Expr::Postfix { of, .. } => first_offset_of_expr(of.get()),
        Expr::Field { of, .. } => first_offset_of_expr(of.get()),
        Expr::Call { of, .. } => first_offset_of_expr(of.get()),
        Expr::Index { of, .. } => first_offset_of_expr(of.get()),
        Expr::InnerNew { of, .. } => first_offset_of_expr(of.get()),
        Expr::Literal { at, .. } => *at,
        Expr::This { at } => *at,
        Expr::SuperField { at, .. } => *at,
        Expr::SuperCall { at, .. } => *at,
        Expr::Paren { at, .. } => *at,
        Expr::Name(it) => it.at,
        Expr::Invoke { name, .. } => name.at,
        Expr::New { at, .. } => *at,
        Expr::ClassLiteral { ty } => first_offset_of_type(ty.get()),
        Expr::VoidLiteral { at } => *at,
        Expr::OuterThis { first, .. } => first.at,
    }
}

#[tactic(auto, using(crate::proofs::Begun::expressions))]
pub fn first_offset_of_creation(node: &Creation) -> u32
    ensures { result ≡ first_offset_of_creation node.now }
{
    match node {
        Creation::Object { class, .. } => first_offset_of_class(class),
        Creation::Sized { element, .. } => first_offset_of_base(element),
        Creation::Initialised { element, .. } => first_offset_of_base(element),
    }
}

#[tactic(auto, using(crate::proofs::Begun::expressions))]
pub fn first_offset_of_array(node: &ArrayInit) -> u32
    ensures { result ≡ first_offset_of_array node.now }
{
    node.at
}

#[tactic(auto, using(crate::proofs::Begun::expressions))]
pub fn first_offset_of_init(node: &Init) -> u32
    ensures { result ≡ first_offset_of_init node.now }
{
    match node {
        Init::Value(it) => first_offset_of_expr(it),
        Init::Nested(it) => first_offset_of_array(it),
    }
}

#[tactic(auto, using(crate::proofs::Begun::values))]
pub fn first_offset_of_value(node: &AnnotationValue) -> u32
    ensures { result ≡ first_offset_of_value node.now }
{
    match node {
        AnnotationValue::Value(it) => first_offset_of_expr(it),
        AnnotationValue::List { at, .. } => *at,
    }
}

pub fn first_offset_of_modifier(node: &Modifier) -> u32
    ensures { result ≡ first_offset_of_modifier node.now }
{
    match node {
        Modifier::Annotation(it) => it.at,
        Modifier::Word { at, .. } => *at,
    }
}

pub fn first_offset_of_formal(node: &Formal) -> u32
    ensures { result ≡ first_offset_of_formal node.now }
{
    modifiers_first(node.modifiers.slice(), first_offset_of_type(&node.ty))
}

pub fn first_offset_of_locals(node: &LocalVars) -> u32
    ensures { result ≡ first_offset_of_locals node.now }
{
    modifiers_first(node.modifiers.slice(), first_offset_of_type(&node.ty))
}

pub fn first_offset_of_result(node: &ResultType) -> u32
    ensures { result ≡ first_offset_of_result node.now }
{
    match node {
        ResultType::Void { at } => *at,
        ResultType::Type(it) => first_offset_of_type(it),
    }
}

pub fn first_offset_of_head(node: &DeclarationHead) -> u32
    ensures { result ≡ first_offset_of_head node.now }
{
    let (modifiers, at) = match node {
        DeclarationHead::Class { modifiers, at, .. } => (modifiers, *at),
        DeclarationHead::Interface { modifiers, at, .. } => (modifiers, *at),
        DeclarationHead::Annotation { modifiers, at, .. } => (modifiers, *at),
    };
    modifiers_first(modifiers.slice(), at)
}

pub fn first_offset_of_method(node: &MethodHead) -> u32
    ensures { result ≡ first_offset_of_method node.now }
{
    let named = match &node.result {
        Some(result) => first_offset_of_result(result),
        None => node.name.at,
    };
    let declared = match &node.params {
        Some(params) => params.at,
        None => named,
    };
    modifiers_first(node.modifiers.slice(), declared)
}

#[tactic(auto, using(crate::proofs::Begun::statements))]
pub fn first_offset_of_declaration(node: &Declaration) -> u32
    ensures { result ≡ first_offset_of_declaration node.now }
{
    first_offset_of_head(&node.head)
}

#[tactic(auto, using(crate::proofs::Begun::statements))]
pub fn first_offset_of_member(node: &Member) -> u32
    ensures { result ≡ first_offset_of_member node.now }
{
    match node {
        Member::Semicolon { at } => *at,
        Member::Initialiser { at, .. } => *at,
        Member::Fields(it) => first_offset_of_locals(it),
        Member::Bare { head } => first_offset_of_method(head),
        Member::Method { head, .. } => first_offset_of_method(head),
        Member::Nested(it) => first_offset_of_declaration(it),
    }
}

#[tactic(auto, using(crate::proofs::Begun::statements))]
pub fn first_offset_of_stmt(node: &Stmt) -> u32
    ensures { result ≡ first_offset_of_stmt node.now }
{
    match node {
        Stmt::Local(it) => first_offset_of_locals(it),
        Stmt::Declared(it) => first_offset_of_declaration(it),
        Stmt::Block { at, .. } => *at,
        Stmt::Empty { at } => *at,
        Stmt::Effect(it) => first_offset_of_expr(it),
        Stmt::Labeled { label, .. } => label.at,
        Stmt::If { arms, .. } => first_offset_of_arms(arms.slice()),
        Stmt::While { at, .. } => *at,
        Stmt::Do { at, .. } => *at,
        Stmt::For { at, .. } => *at,
        Stmt::Switch { at, .. } => *at,
        Stmt::Return { at, .. } => *at,
        Stmt::Break { at, .. } => *at,
        Stmt::Continue { at, .. } => *at,
        Stmt::Throw { at, .. } => *at,
        Stmt::Try { at, .. } => *at,
        Stmt::ThisCall { at, .. } => *at,
        Stmt::SuperCall { at, .. } => *at,
    }
}

#[tactic(auto, using(crate::proofs::Begun::statements))]
pub fn first_offset_of_clause(node: &Clause) -> u32
    ensures { result ≡ first_offset_of_clause node.now }
{
    node.at
}

fn first_offset_of_arms(arms: &[Clause]) -> u32
    ensures { result ≡ first_or (map first_offset_of_clause arms.now) 0 }
{
    match arms.first() {
        Some(arm) => first_offset_of_clause(arm),
        None => 0,
    }
}

pub fn first_offset_of_top(node: &TopLevel) -> u32
    ensures { result ≡ first_offset_of_top node.now }
{
    match node {
        TopLevel::Declaration(it) => first_offset_of_declaration(it),
        TopLevel::Semicolon { at } => *at,
    }
}

/// 0 where the file has no tokens.
pub fn first_offset_of_file(node: &SourceFile) -> u32
    ensures { result ≡ first_offset_of_file node.now }
{
    match &node.package {
        Some(package) => package.at,
        None => match node.imports.slice().first() {
            Some(import) => first_offset_of_import(import),
            None => first_offset_of_tops(node.types.slice()),
        },
    }
}

fn first_offset_of_import(node: &Import) -> u32
    ensures { result ≡ first_offset_of_import node.now }
{
    node.at
}

fn first_offset_of_tops(tops: &[TopLevel]) -> u32
    ensures { result ≡ first_or (map first_offset_of_top tops.now) 0 }
{
    match tops.first() {
        Some(top) => first_offset_of_top(top),
        None => 0,
    }
}

fn modifiers_first(modifiers: &[Modifier], next: u32) -> u32
    ensures { result ≡ modifiers_first modifiers.now next }
{
    match modifiers.first() {
        Some(modifier) => first_offset_of_modifier(modifier),
        None => next,
    }
}
