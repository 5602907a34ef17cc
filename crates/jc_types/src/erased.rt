//! Types after erasure.
use crate::form::Primitive;
use crate::ids::ClassId;

/// What an erased type is an array of, or is itself.
#[derive(Clone, Copy, Debug, PartialEq, Eq, Hash)]
pub enum Base {
    Prim(Primitive),
    Class(ClassId),
    NullTy,
}

/// A type after erasure (JLS 4.6): a base, and how many array dimensions are round it. `dims` stays at the greatest u32
/// where there are more.
#[derive(Clone, Copy, Debug, PartialEq, Eq, Hash)]
pub struct Erased {
    pub base: Base,
    pub dims: u32,
}
