//! Types (JLS 4).
use crate::ids::{CaptureId, ClassId, VarId};
use jc_rules::{Boxed, Items};

/// A primitive type (JLS 4.2). `float` and `double` are left out of the language.
#[derive(Clone, Copy, Debug, PartialEq, Eq, PartialOrd, Ord, Hash)]
pub enum Primitive {
    Boolean,
    Byte,
    Short,
    Char,
    Int,
    Long,
}

/// A type (JLS 4).
///
/// `Class` is a class or interface type with its type arguments, of which a class without parameters has none (JLS 4.5).
/// `Raw` is a generic class without its arguments (JLS 4.8). An `Array` is an array type of `further + 1` dimensions over `of`
/// (JLS 10.1): `array_over` makes it, and counts the dimensions of an array with it, so that `of` is no array itself. A `Meet`
/// is an intersection type (JLS 4.9) with its parts in order. `NullTy` is the type of `null` (JLS 4.1).
#[derive(PartialEq, Eq, Hash, Drop)]
#[cycle(ty)]
pub enum Ty {
    Prim(Primitive),
    Class { id: ClassId, args: Items<Arg> },
    Raw { id: ClassId },
    Array { of: Boxed<Ty>, further: u64 },
    Variable(VarId),
    Captured(CaptureId),
    Meet { parts: Items<Ty> },
    NullTy,
}

/// A type argument (JLS 4.5.1): a type, or one of the wildcards `?`, `? extends T` and `? super T`.
#[derive(PartialEq, Eq, Hash, Drop)]
#[cycle(ty)]
pub enum Arg {
    Exact(Ty),
    Any,
    Extends(Ty),
    Super(Ty),
}
