//! Typed statements (JLS 14).
use jc_rules::Place;
use jc_types::{FieldId, MethodId, Phase};

/// A statement (JLS 14) over the places of its parts, with the place of its first token.
#[derive(Clone, Copy, Debug)]
pub struct StmtNode {
    pub place: Place,
    pub form: StmtForm,
}

/// The forms of statements.
///
/// Each statement that a jump can go to has a number, its `target`, which no other statement of its method has. A `local` is the
/// number of a variable of the method. A list that is said to be optional has no member or one.
#[derive(Clone, Copy, Debug)]
pub enum StmtForm {
    Empty,
    Block {
        stmts: u32,
    },

    /// A declaration of local variables (JLS 14.4).
    Locals {
        declared: u32,
    },

    /// An expression as a statement (JLS 14.8).
    Effect {
        of: u32,
    },

    /// A chain of `else if`; `other` is optional (JLS 14.9).
    If {
        arms: u32,
        other: u32,
    },
    Labelled {
        target: u32,
        body: u32,
    },
    While {
        target: u32,
        test: u32,
        body: u32,
    },
    Do {
        target: u32,
        body: u32,
        test: u32,
    },

    /// `declared` are the variables of the head, or `before` its expressions; `test` is optional (JLS 14.14.1).
    For {
        target: u32,
        declared: u32,
        before: u32,
        test: u32,
        update: u32,
        body: u32,
    },

    /// An enhanced `for` (JLS 14.14.2) over an array, or over what `iterator()` gives. An element has the type `ty` after
    /// capture, which made `captures`; by `steps` it goes into the variable.
    ForArray {
        target: u32,
        of: u32,
        ty: u32,
        captures: u32,
        steps: u32,
        local: u32,
        body: u32,
    },
    ForIterable {
        target: u32,
        of: u32,
        ty: u32,
        captures: u32,
        steps: u32,
        local: u32,
        body: u32,
    },

    /// A case says how many of the statements stand before its label (JLS 14.11).
    Switch {
        target: u32,
        of: u32,
        cases: u32,
        stmts: u32,
    },

    /// `value` is optional.
    Return {
        value: u32,
    },
    Break {
        target: u32,
    },
    Continue {
        target: u32,
    },
    Throw {
        of: u32,
    },

    /// `last` is the optional block behind `finally`, which stands `copies` times in the code, or more often where that is the
    /// greatest number (JLS 14.20).
    Try {
        body: u32,
        catches: u32,
        last: u32,
        copies: u64,
    },

    /// A call of a constructor by `this` or `super` (JLS 8.8.7.1). `thrown` is as in a call; `is_raw` tells whether the superclass
    /// that `super` names is raw.
    Construct {
        constructor: MethodId,
        args: u32,
        phase: Phase,
        thrown: u32,
        is_raw: bool,
    },

    /// The initialiser of a field (JLS 8.3.2).
    Initialise {
        field: FieldId,
        value: u32,
    },
}
