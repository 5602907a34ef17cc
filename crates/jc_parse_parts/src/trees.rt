//! Parts of declarations before their braces (JLS 8.1, 9.7).
use jc_rules::Items;
use jc_tree::{AnnotationValue, ClassTree, Ident, TypeTree};

/// What a class extends and implements.
#[derive(Drop)]
pub struct SuperTrees {
    pub extends: Option<ClassTree>,
    pub implements: Items<ClassTree>,
}

/// The values between the braces of a value, and whether a comma stands behind the last one.
#[derive(Drop)]
pub struct ValueRow {
    pub values: Items<AnnotationValue>,
    pub trailing: bool,
}

/// What stands in a formal parameter behind its modifiers.
#[derive(Drop)]
pub struct FormalTail {
    pub ty: TypeTree,
    pub variable_arity: bool,
    pub name: Ident,
    pub dims: u32,
}
