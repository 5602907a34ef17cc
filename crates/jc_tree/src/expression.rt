//! The nodes of expressions and their initialisers (JLS 15).
use crate::{BaseTree, ClassTree, Ident, TypeArg, TypeTree};
use jc_lexer::TokenKind;
use jc_rules::{Boxed, Items};

/// A literal (JLS 3.10).
#[derive(Debug, Drop)]
pub enum Literal {
    Number {
        value: u64,
        long: bool,
        decimal: bool,
    },
    Char(u16),
    String(Items<u16>),
    Boolean(bool),
    Null,
}

/// An assignment operator (JLS 15.26).
#[derive(Clone, Copy, Debug, PartialEq, Eq)]
pub enum AssignOp {
    Plain,
    Plus,
    Minus,
    Times,
    Divide,
    Remainder,
    And,
    Or,
    Xor,
    ShiftLeft,
    ShiftRight,
    ShiftRightZero,
}

/// A binary operator that takes two expressions (JLS 15.17 to 15.24).
#[derive(Clone, Copy, Debug, PartialEq, Eq)]
pub enum BinaryOp {
    OrElse,
    AndAlso,
    Or,
    Xor,
    And,
    Equal,
    NotEqual,
    Less,
    Greater,
    LessEqual,
    GreaterEqual,
    ShiftLeft,
    ShiftRight,
    ShiftRightZero,
    Plus,
    Minus,
    Times,
    Divide,
    Remainder,
}

/// A prefix operator (JLS 15.15).
#[derive(Clone, Copy, Debug, PartialEq, Eq)]
pub enum PrefixSign {
    Plus,
    Minus,
    Increment,
    Decrement,
    Not,
    Complement,
}

/// A prefix operator at its offset.
#[derive(Clone, Copy, Debug)]
pub struct PrefixOp {
    pub at: u32,
    pub sign: PrefixSign,
}

/// A postfix operator (JLS 15.14).
#[derive(Clone, Copy, Debug, PartialEq, Eq)]
pub enum PostfixOp {
    Increment,
    Decrement,
}

/// An expression (JLS 15). A chain of binary operators of one level is one node, and so is a chain of prefix operators. What
/// rarer forms hold stands in boxes, so that a node takes 40 bytes.
#[derive(Drop)]
#[cycle(expressions)]
pub enum Expr {
    Assign {
        target: Boxed<Expr>,
        op: AssignOp,
        value: Boxed<Expr>,
    },
    Conditional {
        test: Boxed<Expr>,
        then: Boxed<Expr>,
        otherwise: Boxed<Expr>,
    },
    Chain {
        first: Boxed<Expr>,
        rest: Items<Operand>,
    },
    Prefix {
        first: PrefixOp,
        more: Boxed<Items<PrefixOp>>,
        operand: Boxed<Expr>,
    },
    Cast {
        at: u32,
        ty: Boxed<TypeTree>,
        operand: Boxed<Expr>,
    },
    Postfix {
        of: Boxed<Expr>,
        op: PostfixOp,
    },
    Field {
        of: Boxed<Expr>,
        name: Ident,
    },
    Call {
        of: Boxed<Expr>,
        type_args: Boxed<Items<TypeArg>>,
        name: Boxed<Ident>,
        actuals: Boxed<Items<Expr>>,
    },
    Index {
        of: Boxed<Expr>,
        index: Boxed<Expr>,
    },
    /// `of.new ..`, which javag has not.
    InnerNew {
        of: Boxed<Expr>,
        creation: Boxed<Creation>,
    },
    Literal {
        at: u32,
        value: Literal,
    },
    This {
        at: u32,
    },
    SuperField {
        at: u32,
        name: Ident,
    },
    SuperCall {
        at: u32,
        type_args: Boxed<Items<TypeArg>>,
        name: Boxed<Ident>,
        actuals: Boxed<Items<Expr>>,
    },
    Paren {
        at: u32,
        inner: Boxed<Expr>,
    },
    Name(Ident),
    Invoke {
        name: Ident,
        actuals: Boxed<Items<Expr>>,
    },
    New {
        at: u32,
        creation: Boxed<Creation>,
    },
    /// `Type.class`, which javag has not.
    ClassLiteral {
        ty: Boxed<TypeTree>,
    },
    /// `void.class`, which javag has not.
    VoidLiteral {
        at: u32,
    },
    /// `Name.this`, which javag has not.
    OuterThis {
        first: Ident,
        more: Boxed<Items<Ident>>,
    },
}

/// An operator of a chain with what stands on its right.
#[derive(Drop)]
#[cycle(expressions)]
pub enum Operand {
    Binary { op: BinaryOp, right: Expr },
    InstanceOf { ty: Boxed<TypeTree> },
}

/// What stands behind `new` (JLS 15.9, 15.10).
#[derive(Drop)]
#[cycle(expressions)]
pub enum Creation {
    Object {
        class: ClassTree,
        diamond: bool,
        actuals: Items<Expr>,
        /// The body of an anonymous class, which javag has not: none, or one.
        body: Items<Skip>,
    },
    Sized {
        element: BaseTree,
        first: Boxed<Expr>,
        more: Items<Expr>,
        dims: u32,
    },
    /// An array with an initialiser: `dims` counts the pairs of brackets behind the first one.
    Initialised {
        element: BaseTree,
        dims: u32,
        init: ArrayInit,
    },
}

/// An array initialiser (JLS 10.6): `at` is the offset of its brace.
#[derive(Drop)]
#[cycle(expressions)]
pub struct ArrayInit {
    pub at: u32,
    pub inits: Items<Init>,
    /// Whether a comma stands behind the last part.
    pub trailing: bool,
}

#[derive(Drop)]
#[cycle(expressions)]
pub enum Init {
    Value(Expr),
    Nested(ArrayInit),
}

/// What stands between braces that javag skips.
#[derive(Drop)]
#[cycle(skips)]
pub struct Skip {
    pub parts: Items<SkipPart>,
}

#[derive(Drop)]
#[cycle(skips)]
pub enum SkipPart {
    Inner(Skip),
    Token(TokenKind),
}
