//! Parts of declarations before their braces (JLS 8.1, 8.3, 9.1, 9.6).
use jc_rules::Items;
use jc_tree::{ClassTree, Ident, TypeParam, Var};

/// What stands between the modifiers of a declaration of a type and its braces (JLS 8.1, 9.1, 9.6).
#[derive(Drop)]
pub enum HeadTree {
    Class {
        at: u32,
        name: Ident,
        params: Items<TypeParam>,
        extends: Option<ClassTree>,
        implements: Items<ClassTree>,
    },
    Interface {
        at: u32,
        name: Ident,
        params: Items<TypeParam>,
        extends: Items<ClassTree>,
    },
    Annotation {
        at: u32,
        name: Ident,
    },
}

/// Variables that are declared together (JLS 8.3): at least one.
#[derive(Drop)]
pub struct Vars {
    pub first: Var,
    pub more: Items<Var>,
}
