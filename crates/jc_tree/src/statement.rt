//! The nodes of source files, declarations, members and statements (JLS 7 to 9, 14).
use crate::{ClassTree, Expr, Ident, Init, TypeTree};
use jc_rules::{Boxed, Items};

/// A source file (JLS 7.3).
#[derive(Drop)]
pub struct SourceFile {
    pub package: Option<Package>,
    pub imports: Items<Import>,
    pub types: Items<TopLevel>,
}

#[derive(Drop)]
pub struct Package {
    pub at: u32,
    pub first: Ident,
    pub more: Items<Ident>,
}

/// An import (JLS 7.5): of a type, or on demand; static ones javag has not.
#[derive(Drop)]
pub struct Import {
    pub at: u32,
    pub is_static: bool,
    pub first: Ident,
    pub more: Items<Ident>,
    pub on_demand: bool,
}

#[derive(Drop)]
pub enum TopLevel {
    Declaration(Declaration),
    Semicolon { at: u32 },
}

#[derive(Clone, Copy, Debug, PartialEq, Eq)]
pub enum ModifierWord {
    Public,
    Protected,
    Private,
    Static,
    Abstract,
    Final,
    Native,
    Volatile,
    Transient,
}

#[derive(Drop)]
pub enum Modifier {
    Annotation(Annotation),
    Word { at: u32, word: ModifierWord },
}

/// An annotation (JLS 9.7), with or without parentheses.
#[derive(Drop)]
pub struct Annotation {
    pub at: u32,
    pub first: Ident,
    pub more: Items<Ident>,
    pub pairs: Option<Items<Pair>>,
}

#[derive(Drop)]
pub struct Pair {
    pub name: Option<Ident>,
    pub value: AnnotationValue,
}

#[derive(Drop)]
pub enum AnnotationValue {
    Value(Expr),
    List {
        at: u32,
        values: Items<AnnotationValue>,
        trailing: bool,
    },
}

/// A type parameter with its bounds (JLS 4.4).
#[derive(Drop)]
pub struct TypeParam {
    pub name: Ident,
    pub bounds: Items<ClassTree>,
}

/// Type parameters between angle brackets: at least one. `at` is the offset of the left bracket.
#[derive(Drop)]
pub struct TypeParams {
    pub at: u32,
    pub first: TypeParam,
    pub more: Items<TypeParam>,
}

#[derive(Drop)]
pub struct Formal {
    pub modifiers: Items<Modifier>,
    pub ty: TypeTree,
    pub variable_arity: bool,
    pub name: Ident,
    pub dims: u32,
}

#[derive(Drop)]
pub struct Var {
    pub name: Ident,
    pub dims: u32,
    pub init: Option<Init>,
}

/// Variables that are declared together: at least one.
#[derive(Drop)]
pub struct LocalVars {
    pub modifiers: Items<Modifier>,
    pub ty: TypeTree,
    pub first: Var,
    pub more: Items<Var>,
}

#[derive(Drop)]
pub enum ResultType {
    Void { at: u32 },
    Type(TypeTree),
}

/// What stands before the braces of a declaration of a type (JLS 8.1, 9.1): `at` is the offset of its keyword.
#[derive(Drop)]
pub enum DeclarationHead {
    Class {
        modifiers: Items<Modifier>,
        at: u32,
        name: Ident,
        params: Items<TypeParam>,
        extends: Option<ClassTree>,
        implements: Items<ClassTree>,
    },
    Interface {
        modifiers: Items<Modifier>,
        at: u32,
        name: Ident,
        params: Items<TypeParam>,
        extends: Items<ClassTree>,
    },
    /// `@interface`, which javag has not.
    Annotation {
        modifiers: Items<Modifier>,
        at: u32,
        name: Ident,
    },
}

/// What stands before the body of a method or a constructor (JLS 8.4, 8.8): a constructor has no result.
#[derive(Drop)]
pub struct MethodHead {
    pub modifiers: Items<Modifier>,
    pub params: Option<TypeParams>,
    pub result: Option<ResultType>,
    pub name: Ident,
    pub formals: Items<Formal>,
    pub throws: Items<ClassTree>,
}

#[derive(Drop)]
pub enum ForInit {
    Local(LocalVars),
    Effects(Items<Expr>),
}

/// What stands between the parentheses of a `for` (JLS 14.14).
#[derive(Drop)]
pub enum ForHead {
    Basic {
        init: ForInit,
        test: Option<Expr>,
        update: Items<Expr>,
    },
    Enhanced {
        modifiers: Items<Modifier>,
        ty: TypeTree,
        name: Ident,
        dims: u32,
        iterable: Expr,
    },
}

#[derive(Drop)]
pub struct Resource {
    pub modifiers: Items<Modifier>,
    pub ty: TypeTree,
    pub name: Ident,
    pub value: Expr,
}

/// The resources of a `try`, which javag has not.
#[derive(Drop)]
pub struct Resources {
    pub first: Resource,
    pub more: Items<Resource>,
    pub trailing: bool,
}

/// What a part of a statement begins with: a test of an `if`, a label of a switch, or a catch; or `finally`.
#[derive(Drop)]
pub enum ClauseHead {
    If(Expr),
    Case(Expr),
    Default,
    Catch {
        modifiers: Items<Modifier>,
        first: ClassTree,
        more: Items<ClassTree>,
        name: Ident,
    },
    Finally,
}

/// A declaration of a type with what stands between its braces.
#[derive(Drop)]
#[cycle(statements)]
pub struct Declaration {
    pub head: DeclarationHead,
    pub members: Items<Member>,
}

#[derive(Drop)]
#[cycle(statements)]
pub enum Member {
    Semicolon {
        at: u32,
    },
    Initialiser {
        at: u32,
        is_static: bool,
        items: Items<Stmt>,
    },
    Fields(LocalVars),
    /// A method with a semicolon in place of a body.
    Bare {
        head: MethodHead,
    },
    Method {
        head: MethodHead,
        items: Items<Stmt>,
    },
    Nested(Declaration),
}

/// A statement (JLS 14), or a declaration in a block. A chain of `else if` is one node.
#[derive(Drop)]
#[cycle(statements)]
pub enum Stmt {
    Local(LocalVars),
    Declared(Declaration),
    Block {
        at: u32,
        items: Items<Stmt>,
    },
    Empty {
        at: u32,
    },
    Effect(Expr),
    Labeled {
        label: Ident,
        body: Boxed<Stmt>,
    },
    If {
        arms: Items<Clause>,
        /// The statement behind the last `else`: none, or one.
        otherwise: Items<Stmt>,
    },
    While {
        at: u32,
        test: Expr,
        body: Boxed<Stmt>,
    },
    Do {
        at: u32,
        body: Boxed<Stmt>,
        test: Expr,
    },
    For {
        at: u32,
        head: ForHead,
        body: Boxed<Stmt>,
    },
    Switch {
        at: u32,
        selector: Expr,
        groups: Items<Clause>,
    },
    Return {
        at: u32,
        value: Option<Expr>,
    },
    Break {
        at: u32,
        label: Option<Ident>,
    },
    Continue {
        at: u32,
        label: Option<Ident>,
    },
    Throw {
        at: u32,
        value: Expr,
    },
    Try {
        at: u32,
        resources: Option<Resources>,
        items: Items<Stmt>,
        clauses: Items<Clause>,
    },
    ThisCall {
        at: u32,
        actuals: Items<Expr>,
    },
    SuperCall {
        at: u32,
        actuals: Items<Expr>,
    },
}

/// A part of a statement: its head, at the offset of its keyword, and the statements that it has.
#[derive(Drop)]
#[cycle(statements)]
pub struct Clause {
    pub at: u32,
    pub head: ClauseHead,
    pub items: Items<Stmt>,
}
