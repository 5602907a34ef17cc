//! The nodes of types (JLS 4).
use crate::Ident;
use jc_rules::Items;

/// A primitive type's keyword.
#[derive(Clone, Copy, Debug, PartialEq, Eq)]
pub enum PrimitiveWord {
    Boolean,
    Byte,
    Short,
    Char,
    Int,
    Long,
}

/// A type as it is written, and how many pairs of brackets stand behind it (JLS 4).
#[derive(Drop)]
#[cycle(types)]
pub struct TypeTree {
    pub base: BaseTree,
    pub dims: u32,
}

#[derive(Drop)]
#[cycle(types)]
pub enum BaseTree {
    Primitive { at: u32, word: PrimitiveWord },
    Class(ClassTree),
}

/// A class or interface type: a name with points, each part with its arguments (JLS 4.3).
#[derive(Drop)]
#[cycle(types)]
pub struct ClassTree {
    pub first: TypePart,
    pub more: Items<TypePart>,
}

/// A part of a class type. It has no angle brackets where it has no arguments.
#[derive(Drop)]
#[cycle(types)]
pub struct TypePart {
    pub name: Ident,
    pub args: Items<TypeArg>,
}

/// A type argument (JLS 4.5.1); `at` is the offset of the question mark.
#[derive(Drop)]
#[cycle(types)]
pub enum TypeArg {
    Exact(TypeTree),
    Any { at: u32 },
    Extends { at: u32, bound: TypeTree },
    Super { at: u32, bound: TypeTree },
}
