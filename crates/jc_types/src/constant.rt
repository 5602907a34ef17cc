//! Constants and operators (JLS 15.28).
use crate::form::Primitive;
use jc_rules::{Boxed, Items, Place, Text};

/// The value of a constant expression (JLS 15.28): a value of a primitive type, where a `boolean` is 0 or 1 and a `char` its
/// unit, or a string by its UTF-16 units.
#[derive(Drop)]
pub enum Constant {
    Whole { value: i64, of: Primitive },
    Text(Items<u16>),
}

/// An operator (JLS 15.14 to 15.24).
#[derive(Clone, Copy, Debug, PartialEq, Eq, PartialOrd, Ord, Hash)]
pub enum Op {
    Times,
    Divide,
    Remainder,
    Plus,
    Minus,
    ShiftLeft,
    ShiftRight,
    ShiftRightUnsigned,
    Less,
    Greater,
    AtMost,
    AtLeast,
    Equal,
    NotEqual,
    And,
    Or,
    Xor,
    ConditionalAnd,
    ConditionalOr,
    Not,
    Positive,
    Negative,
    Complement,
    Increment,
    Decrement,
}

/// What a cast of a constant expression goes to: a primitive type or String.
#[derive(Clone, Copy, Debug, PartialEq, Eq, Hash)]
pub enum ConstantType {
    Prim(Primitive),
    Text,
}

/// An expression that has only the forms of a constant expression (JLS 15.28). Whether it is one is told where its names
/// are looked up, in the scope that its field keeps.
#[derive(Drop)]
#[cycle(constant)]
pub enum ConstantExpr {
    Literal(Constant),

    /// A simple name, or the name of a type and of its field, by the parts between the dots.
    Name {
        place: Place,
        parts: Items<Text>,
    },
    Cast {
        to: ConstantType,
        of: Boxed<ConstantExpr>,
    },

    /// Prefix operators, the outermost first.
    Prefix {
        ops: Items<Op>,
        of: Boxed<ConstantExpr>,
    },

    /// A chain of operators of one level, from left to right.
    Chain {
        first: Boxed<ConstantExpr>,
        rest: Items<ConstantPart>,
    },
    Conditional {
        test: Boxed<ConstantExpr>,
        then: Boxed<ConstantExpr>,
        other: Boxed<ConstantExpr>,
    },
}

/// A further operator of a chain, and its right operand.
#[derive(Drop)]
#[cycle(constant)]
pub struct ConstantPart {
    pub op: Op,
    pub operand: ConstantExpr,
}
