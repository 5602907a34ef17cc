//! What a statement still has to do.
use crate::loops::{Each, TurnTask};
use jc_meaning::Target;
use jc_places::ArmPlaces;
use jc_rules::Items;
use jc_running::{Completion, Value};
use jc_types::{FieldId, MethodId};

/// What completes: a statement as a node and what it does; the body of a method as a node and what it does; statements one after the
/// other, and the tests of an `if`, each list in reverse order; a `try` without its finally block; turns of loops.
#[derive(Drop)]
pub enum CompletionTask {
    Stmt {
        at: u32,
    },
    Act {
        at: u32,
    },
    Body {
        method: MethodId,
    },
    BodyAct {
        method: MethodId,
    },
    Stmts {
        stmts: Items<u32>,
    },
    Arms {
        arms: Items<ArmPlaces>,
        other: u32,
    },
    Try {
        body: u32,
        catches: u32,
    },
    Turns {
        turn: TurnTask,
        left: u64,
    },
    ArrayTurns {
        each: Each,
        array: Value,
        at: u64,
        left: u64,
    },
}

#[derive(Drop)]
pub enum ValueToCompletion {
    Normally,
    Arm {
        then: u32,
        arms: Items<ArmPlaces>,
        other: u32,
    },
    Throw,
    Switch {
        own: u32,
        cases: u32,
        stmts: u32,
    },
    Initialise {
        field: FieldId,
    },
    EachOf {
        each: Each,
    },
    IteratorOf {
        each: Each,
    },
    Iterate {
        each: Each,
    },
}

#[derive(Clone, Copy)]
pub enum ValuesToCompletion {
    For {
        own: u32,
        test: u32,
        update: u32,
        body: u32,
    },
    Return,
    Construct {
        method: MethodId,
    },
}

#[derive(Clone, Copy)]
pub enum NothingToCompletion {
    Normally,
    For {
        own: u32,
        before: u32,
        test: u32,
        update: u32,
        body: u32,
    },
}

/// What is done behind a statement that completed: a jump to it ends there; what follows a finally block; and the statements that
/// come next, in reverse order.
#[derive(Drop)]
pub enum CompletionToCompletion {
    Broken { own: u32 },
    Instead { completion: Completion },
    InsteadThrown { address: u64 },
    Next { stmts: Items<u32> },
}

/// What the body of a method gives.
#[derive(Clone, Copy)]
pub enum CompletionToValue {
    Answer { method: MethodId },
}

#[derive(Clone, Copy)]
pub enum ValueToNothing {
    Drop,
    SetLocal { local: u32 },
    Write { target: Target },
}

#[derive(Clone, Copy)]
pub enum ValuesToNothing {
    Drop,
    SetFirst { local: u32 },
}
