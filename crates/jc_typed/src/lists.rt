//! Lists of typed parts.
use crate::expressions::Joint;
use jc_rules::Place;
use jc_running::Check;
use jc_types::{CaptureId, ClassId, Erased, Op, Primitive};

/// A list: what stands before its last member, and that member.
#[derive(Clone, Copy, Debug)]
pub enum ListNode {
    Empty,
    More { before: u32, last: u32 },
}

/// A step of what is done with a value. `BoxUp` and `Unbox` go between a primitive type and its class. `Up` takes a reference to
/// a type above its own, where `unchecked` says that a warning stands there (JLS 5.1.9). `Test` checks that a reference is null or
/// refers to an object of an erased type.
#[derive(Clone, Copy, Debug)]
pub enum StepNode {
    Widen(Primitive),
    Narrow(Primitive),
    BoxUp(Primitive),
    Unbox(Primitive),
    Up { ty: u32, unchecked: bool },
    Test { check: Check, to: Erased },
}

#[derive(Clone, Copy, Debug)]
pub enum StepsNode {
    Empty,
    More { before: u32, last: StepNode },
}

/// A captured variable that stands for the argument at a place, counted from 0, of the value's type as a class (JLS 5.1.10).
#[derive(Clone, Copy, Debug, PartialEq, Eq)]
pub struct Capture {
    pub capture: CaptureId,
    pub class: ClassId,
    pub at: u32,
}

#[derive(Clone, Copy, Debug)]
pub enum CapturesNode {
    Empty,
    More { before: u32, last: Capture },
}

#[derive(Clone, Copy, Debug)]
pub enum OpsNode {
    Empty,
    More { before: u32, last: Op },
}

/// Locals that a folded constant names, in the order of their places.
#[derive(Clone, Copy, Debug)]
pub enum NamesNode {
    Empty,
    More {
        before: u32,
        place: Place,
        local: u32,
    },
}

#[derive(Clone, Copy, Debug)]
pub enum PlacesNode {
    Empty,
    More { before: u32, last: Place },
}

/// A label of a `switch`: its constant, or None for `default`, how many statements stand before it, and the locals that the
/// constant names.
#[derive(Clone, Copy, Debug, PartialEq, Eq)]
pub struct Case {
    pub key: Option<i32>,
    pub skips: u32,
    pub named: u32,
}

#[derive(Clone, Copy, Debug)]
pub enum CasesNode {
    Empty,
    More { before: u32, last: Case },
}

/// The further operands of a chain of operators: `left` are the steps of the value so far, `right` is the operand.
#[derive(Clone, Copy, Debug)]
pub enum LinksNode {
    Empty,
    More {
        before: u32,
        joint: Joint,
        left: u32,
        right: u32,
    },
}

/// The tests of a chain of `else if`, each with its statement.
#[derive(Clone, Copy, Debug)]
pub enum ArmsNode {
    Empty,
    More { before: u32, test: u32, then: u32 },
}

/// Variables that a statement declares, each with its optional initialiser.
#[derive(Clone, Copy, Debug)]
pub enum DeclaredNode {
    Empty,
    More {
        before: u32,
        place: Place,
        local: u32,
        value: u32,
    },
}

/// Catch clauses: the place of each, its parameter, the erased types of its alternatives by the places of these types, and its
/// block.
#[derive(Clone, Copy, Debug)]
pub enum CatchesNode {
    Empty,
    More {
        before: u32,
        place: Place,
        local: u32,
        types: u32,
        body: u32,
    },
}
