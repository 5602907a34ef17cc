//! Parts of the heads of statements.
use jc_rules::Items;
use jc_tree::{ClassTree, Expr, Ident, Init, Resource, TypeTree, Var};

/// The types of a catch behind its first one, and its name.
#[derive(Drop)]
pub struct Caught {
    pub more: Items<ClassTree>,
    pub name: Ident,
}

/// The types of a catch, and its name.
#[derive(Drop)]
pub struct CaughtTypes {
    pub first: ClassTree,
    pub more: Items<ClassTree>,
    pub name: Ident,
}

/// A name and its value.
#[derive(Drop)]
pub struct Valued {
    pub name: Ident,
    pub value: Expr,
}

/// A name and its value, behind their type.
#[derive(Drop)]
pub struct TypedValue {
    pub ty: TypeTree,
    pub name: Ident,
    pub value: Expr,
}

/// The resources behind the first one, and whether a semicolon stands behind them.
#[derive(Drop)]
pub struct MoreResources {
    pub more: Items<Resource>,
    pub trailing: bool,
}

/// The test and the updates of a `for`.
#[derive(Drop)]
pub struct ForTail {
    pub test: Option<Expr>,
    pub update: Items<Expr>,
}

/// Variables behind the first one, a test and updates.
#[derive(Drop)]
pub struct ForMore {
    pub more: Items<Var>,
    pub test: Option<Expr>,
    pub update: Items<Expr>,
}

/// What stands behind the name and the brackets of the first variable of a `for`.
#[derive(Drop)]
pub enum ForKind {
    Each(Expr),
    Basic { init: Option<Init>, more: ForMore },
}

/// Brackets, and what stands behind them.
#[derive(Drop)]
pub struct ForDims {
    pub dims: u32,
    pub kind: ForKind,
}

/// What begins with the name of a variable.
#[derive(Drop)]
pub struct ForNamed {
    pub name: Ident,
    pub dims: u32,
    pub kind: ForKind,
}

/// What begins with the type of variables.
#[derive(Drop)]
pub struct ForTyped {
    pub ty: TypeTree,
    pub named: ForNamed,
}
