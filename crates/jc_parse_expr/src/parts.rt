//! Parts of expressions whose operands aren't built yet.
use jc_rules::{Boxed, Items};
use jc_tree::{Creation, Expr, Ident, Init, TypeArg};

/// A name with what calls it: behind a point, behind `super` or as a start.
#[derive(Drop)]
pub enum MemberTree {
    Field(Ident),
    Call {
        type_args: Boxed<Items<TypeArg>>,
        name: Boxed<Ident>,
        actuals: Boxed<Items<Expr>>,
    },
}

/// What selects of the value before it.
#[derive(Drop)]
pub enum SelectorTree {
    Index(Expr),
    New(Creation),
    Member(MemberTree),
}

/// The parts of an array initialiser, and whether a comma stands behind the last one.
#[derive(Drop)]
pub struct Row {
    pub inits: Items<Init>,
    pub trailing: bool,
}

/// What stands behind names: brackets and `.class`, or `.this`.
#[derive(Clone, Copy)]
pub enum NamesTail {
    Class(u32),
    This,
}
