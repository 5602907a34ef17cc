//! How methods are written, and what bodies write.
use jc_tree::{BaseTree, ClassTree, MethodHead, Modifier, TypeTree};

/// How a method is written: with a block or without one, or not at all (JLS 8.8.9, 12.4).
#[derive(Clone, Copy)]
pub enum MethodForm<'a> {
    Headed {
        head: &'a MethodHead,
        has_block: bool,
    },
    ImpliedConstructor,
    StaticInitialiser,
}

/// What is read of a body without typing it: a type as it is written, whole, as a class with its arguments or with a diamond, or as
/// what an array is over; and the modifiers of a variable that is declared there, with the offset of the declaration.
#[derive(Clone, Copy)]
pub enum BodyPart<'a> {
    Type(&'a TypeTree),
    ClassType(&'a ClassTree),
    Diamond(&'a ClassTree),
    Element(&'a BaseTree),
    Variable { modifiers: &'a [Modifier], at: u32 },
}

/// Where a part of a body stands: in the body of a class, in a scope, in a static place or not (JLS 8.1.3).
#[derive(Clone, Copy)]
pub struct Spot {
    pub class: u64,
    pub scope: u64,
    pub is_static: bool,
}
