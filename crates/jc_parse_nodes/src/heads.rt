//! Parts of the heads of declarations (JLS 8.3, 8.4).
use crate::pieces::Typed;
use jc_rules::Items;
use jc_tree::{ClassTree, Formal, Ident, Init, LocalVars, MethodHead, ResultType, TypeParams, Var};

/// Formal parameters and what a method throws (JLS 8.4).
#[derive(Drop)]
pub struct Signature {
    pub formals: Items<Formal>,
    pub throws: Items<ClassTree>,
}

/// A name with its signature.
#[derive(Drop)]
pub struct Named {
    pub name: Ident,
    pub signature: Signature,
}

/// The first one of the variables that are declared together, behind its name, and the other ones.
#[derive(Drop)]
pub struct FieldsTail {
    pub dims: u32,
    pub init: Option<Init>,
    pub more: Items<Var>,
}

/// What stands behind the type of a member.
#[derive(Drop)]
pub enum NamedTail {
    Method(Named),
    Fields { name: Ident, tail: FieldsTail },
}

/// A member up to its body or its semicolon, behind its modifiers and type parameters.
#[derive(Drop)]
pub enum Shape {
    Method { result: ResultType, named: Named },
    Constructor(Named),
    Fields(Typed),
}

/// A member up to its body or its semicolon, behind its modifiers.
#[derive(Drop)]
pub struct CodeHead {
    pub params: Option<TypeParams>,
    pub shape: Shape,
}

/// A member up to its body or its semicolon; fields whole.
#[derive(Drop)]
pub enum MemberHead {
    Method(MethodHead),
    Constructor(MethodHead),
    Fields(LocalVars),
}
