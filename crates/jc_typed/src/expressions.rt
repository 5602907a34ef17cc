//! Typed expressions (JLS 15).
use jc_rules::Place;
use jc_types::{Erased, FieldId, MethodId, Op, Phase};

/// How a call finds the body that runs (JLS 15.12.4).
#[derive(Clone, Copy, Debug, PartialEq, Eq)]
pub enum CallKind {
    /// The body of a static method. What stands before it is evaluated and dropped.
    Static,

    /// The body that the class of the receiver selects.
    Virtual,

    /// The body of the method itself: a private one, or one that is called through `super`.
    Direct,
}

/// By which `String.valueOf` an operand of string `+` becomes a string: `byte` and `short` as an `int`, every reference as an
/// `Object`.
#[derive(Clone, Copy, Debug, PartialEq, Eq)]
pub enum Printed {
    Boolean,
    Char,
    Int,
    Long,
    Reference,
}

/// What joins two operands: an operator on numbers, booleans or references, or string `+` (JLS 15.18.1).
#[derive(Clone, Copy, Debug, PartialEq, Eq)]
pub enum Joint {
    Operator(Op),
    Concat { left: Printed, right: Printed },
}

/// An expression (JLS 15) over the places of its parts: the place of its first token without parentheses, its type after capture,
/// the variables that this capture made, and behind them those that were made where the bounds of a type variable were taken for
/// a member of it, and its form. A call of a method without a result has the null type, which nothing reads. `Missing` stands
/// where there is no expression.
#[derive(Clone, Copy, Debug)]
pub enum ExprNode {
    Missing,
    Expr {
        place: Place,
        ty: u32,
        captures: u32,
        form: ExprForm,
    },
}

/// The forms of expressions. Parentheses are no form.
///
/// `before` is a list of no or one operand, which is evaluated and dropped before a static member that is named through it
/// (JLS 15.11.1, 15.12.4.1).
#[derive(Clone, Copy, Debug)]
pub enum ExprForm {
    /// A constant expression (JLS 15.28), or a constant variable that is named through `before`: of an instance field this is the
    /// read of the field. `named` are the locals that the folded expression names, and `casts` the places of its casts to String.
    Constant {
        before: u32,
        value: u32,
        named: u32,
        casts: u32,
    },
    Null,
    Local {
        local: u32,
    },
    This,

    /// A static field that is no constant variable, and whether its simple name names it; an instance field, an element and the
    /// length of an array.
    StaticField {
        before: u32,
        field: FieldId,
        is_simple: bool,
    },
    Field {
        of: u32,
        field: FieldId,
    },
    Element {
        array: u32,
        index: u32,
    },
    Length {
        array: u32,
    },

    /// Prefix operators, the outermost first (JLS 15.15), but for `++` and `--`.
    Prefix {
        ops: u32,
        of: u32,
    },

    /// Operators of one level, from left to right (JLS 15.17 to 15.22).
    Chain {
        first: u32,
        links: u32,
    },

    /// Operands of `&&`, and of `||` (JLS 15.23, 15.24). The captured variables from `from` on and below `up_to` are those of the
    /// operands behind the first.
    AllOf {
        operands: u32,
        from: u64,
        up_to: u64,
    },
    AnyOf {
        operands: u32,
        from: u64,
        up_to: u64,
    },

    /// A test against the erasure of a type (JLS 15.20.2).
    InstanceOf {
        of: u32,
        to: Erased,
    },

    /// The captured variables from `from` on and below `up_to` are those of the two branches (JLS 15.25).
    Conditional {
        test: u32,
        then: u32,
        other: u32,
        from: u64,
        up_to: u64,
    },

    /// `v = e`, `v op= e`, where `into` takes the result back to the type of the variable, and `++` and `--`, where the value is
    /// that before or behind the change (JLS 15.26, 15.14.2, 15.14.3, 15.15.1, 15.15.2). `store` are the guards of what is stored by
    /// `v = e`, whose own value is what goes into them. The type of `v op= e`, `++` and `--` is that of the variable without
    /// capture.
    Assign {
        variable: u32,
        value: u32,
        store: u32,
    },
    Compound {
        variable: u32,
        joint: Joint,
        left: u32,
        right: u32,
        into: u32,
    },
    Change {
        variable: u32,
        op: Op,
        from: u32,
        into: u32,
        is_prefix: bool,
    },

    /// `receiver` has no or one operand. `type_args` are the inferred or written arguments of the method's type parameters.
    /// `thrown` are the types that the method says it throws, with the arguments of the receiver's type and of the call put in,
    /// erased where the call goes through an unchecked conversion (JLS 15.12.2.6); `is_raw` tells whether the receiver's view as
    /// the method's class is raw.
    Call {
        kind: CallKind,
        receiver: u32,
        method: MethodId,
        type_args: u32,
        args: u32,
        phase: Phase,
        thrown: u32,
        is_raw: bool,
    },

    /// A creation of an object of the expression's type (JLS 15.9), which keeps its inferred arguments also where the constructor
    /// is chosen by an unchecked conversion: a step goes up to the raw type then. `is_raw` tells whether the type is raw.
    New {
        constructor: MethodId,
        args: u32,
        phase: Phase,
        thrown: u32,
        is_raw: bool,
    },

    /// A creation of an array of the expression's type by its lengths, the outermost first, or by its elements
    /// (JLS 15.10, 10.6, 15.12.4.2). The type of a created array or object has a class or a primitive type at its base, and no type
    /// variable. The array of a call of variable arity has the erased element type, and the steps of its elements go up to the
    /// element type of the parameter.
    NewArray {
        lengths: u32,
    },
    ArrayOf {
        elements: u32,
    },

    /// A written cast to a type, and whether the operand's type was below it, which no primitive one is (JLS 15.16). No step of it is
    /// said to be unchecked, since the cast itself is.
    Cast {
        of: u32,
        to: u32,
        steps: u32,
        is_below: bool,
    },
}

/// An expression with what is done with its value where it stands: guards, and the steps of its conversion (JLS 5). Its place is
/// that of the first token, parentheses included; that of the expression is the first one inside of them.
#[derive(Clone, Copy, Debug)]
pub enum OperandNode {
    Missing,
    Operand { place: Place, of: u32, steps: u32 },
}

/// A variable that is assigned (JLS 15.26), with the place of its first token without parentheses; whether a static field is
/// named by its simple name, and whether the receiver's view as the class of a field is raw.
#[derive(Clone, Copy, Debug)]
pub enum VariableNode {
    Local {
        place: Place,
        local: u32,
    },
    StaticField {
        place: Place,
        before: u32,
        field: FieldId,
        is_simple: bool,
    },
    Field {
        place: Place,
        of: u32,
        field: FieldId,
        is_raw: bool,
    },
    Element {
        place: Place,
        array: u32,
        index: u32,
    },
}
