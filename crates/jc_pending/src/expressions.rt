//! What an expression still has to do.
use crate::calls::CallTask;
use jc_meaning::Target;
use jc_rules::{Items, Place};
use jc_running::Value;
use jc_typed::{ExprForm, Joint, Printed, StepNode};
use jc_types::{Erased, FieldId, MethodId, Op};

/// What gives a value.
#[derive(Drop)]
pub enum ValueTask {
    Expression(ExpressionTask),
    Call(CallTask),
    AllTrue {
        operands: Items<u32>,
    },
    AnyTrue {
        operands: Items<u32>,
    },

    /// The elements that are left, behind those that the array at an address has already.
    FillWith {
        array: u64,
        at: u32,
        elements: Items<u32>,
    },
}

/// An expression as a node and what it does, the form of one, an operand, steps of a value, a chain of operators, one operator, an
/// operand as a string, a variable's value, and the test of a `for`, which needn't be written.
#[derive(Clone, Copy)]
pub enum ExpressionTask {
    Expr {
        at: u32,
    },
    Act {
        at: u32,
    },
    Form {
        place: Place,
        ty: u32,
        form: ExprForm,
    },
    Operand {
        at: u32,
    },
    Steps {
        steps: u32,
        value: Value,
    },
    Chain {
        first: u32,
        links: u32,
    },
    Joined {
        joint: Joint,
        left: Value,
        right: u32,
    },
    Text {
        of: Printed,
        value: Value,
    },
    Read {
        target: Target,
    },
    Static {
        field: FieldId,
    },
    Test {
        test: u32,
    },
}

/// What takes a value and gives one.
#[derive(Drop)]
pub enum ValueToValue {
    Use(UseTodo),
    Join(JoinTodo),
    Change(ChangeTodo),
    List(ListTodo),

    /// The result of a call of `method`, by the body of `own`.
    Answered { method: MethodId, own: MethodId },
}

/// What is done with the value of an operand or of an expression.
#[derive(Clone, Copy)]
pub enum UseTodo {
    Noted {
        place: Place,
        ty: u32,
        captures: u32,
        form: ExprForm,
    },
    Step {
        step: StepNode,
    },
    Steps {
        steps: u32,
    },
    Field {
        field: FieldId,
    },
    Index {
        index: u32,
    },
    Element {
        array: Value,
    },
    Length,
    Prefix {
        ops: u32,
    },
    InstanceOf {
        to: Erased,
    },
    Branches {
        then: u32,
        other: u32,
        from: u64,
        up_to: u64,
    },
    Assign {
        target: Target,
    },

    /// The value of `v = e`, behind which stand guards of what is stored.
    Store {
        target: Target,
        store: u32,
    },

    /// Whatever is given, this is given on.
    Instead {
        value: Value,
    },
}

/// Between the operands of an operator.
#[derive(Clone, Copy)]
pub enum JoinTodo {
    Link { joint: Joint, left: u32, right: u32 },
    Joining { joint: Joint, right: u32 },
    Operate { op: Op, left: Value },
    TextAgain,
    ConcatRight { of: Printed, right: u32 },
    ConcatText { of: Printed, left: Value },
    Concat { left: Value },
}

/// Between the parts of `v op= e`, and of `++` and `--`.
#[derive(Clone, Copy)]
pub enum ChangeTodo {
    CompoundNote {
        place: Place,
        ty: u32,
        joint: Joint,
        left: u32,
        right: u32,
        into: u32,
        target: Target,
    },
    CompoundJoin {
        joint: Joint,
        right: u32,
        into: u32,
        target: Target,
    },
    CompoundInto {
        into: u32,
        target: Target,
    },
    StepNote {
        place: Place,
        ty: u32,
        op: Op,
        from: u32,
        into: u32,
        is_prefix: bool,
        target: Target,
    },
    StepBy {
        op: Op,
        into: u32,
        is_prefix: bool,
        target: Target,
        before: Value,
    },
    StepWrite {
        is_prefix: bool,
        target: Target,
        before: Value,
    },
}

/// Behind the first operand of a list, whose others stand here in reverse order.
#[derive(Drop)]
pub enum ListTodo {
    AllTrue {
        operands: Items<u32>,
    },
    AnyTrue {
        operands: Items<u32>,
    },
    FillWith {
        array: u64,
        at: u32,
        elements: Items<u32>,
    },
}

/// Values of operands.
#[derive(Clone, Copy)]
pub enum ValuesTask {
    Operands { at: u32 },
}

/// Behind the values of all operands of a list but for the last.
#[derive(Clone, Copy)]
pub enum ValuesToValues {
    Last { last: u32 },
}

/// A value behind the values of the operands before it.
#[derive(Drop)]
pub enum ValueToValues {
    Append { values: Items<Value> },
}

/// The parts of a variable.
#[derive(Clone, Copy)]
pub enum TargetTask {
    Variable { at: u32 },
}

#[derive(Clone, Copy)]
pub enum ValueToTarget {
    Field { field: FieldId },
    Index { index: u32 },
    Element { array: Value },
}

#[derive(Clone, Copy)]
pub enum ValuesToTarget {
    Static { field: FieldId },
}

/// What is done with a variable whose parts are there.
#[derive(Clone, Copy)]
pub enum TargetToValue {
    Assign {
        value: u32,
        store: u32,
    },
    Compound {
        place: Place,
        ty: u32,
        joint: Joint,
        left: u32,
        right: u32,
        into: u32,
    },
    Step {
        place: Place,
        ty: u32,
        op: Op,
        from: u32,
        into: u32,
        is_prefix: bool,
    },
}

/// What gives nothing: an assignment, one behind the guards of what is stored, a declaration of variables, an element that goes into the variable of an enhanced `for`, and
/// the update of a `for`.
#[derive(Clone, Copy)]
pub enum NothingTask {
    Write {
        target: Target,
        value: Value,
    },
    Store {
        target: Target,
        store: u32,
        value: Value,
    },
    SetStatic {
        field: FieldId,
        value: Value,
    },
    Declare {
        declared: u32,
    },
    Take {
        place: Place,
        ty: u32,
        captures: u32,
        steps: u32,
        local: u32,
        value: Value,
    },
    Update {
        update: u32,
    },
    Class(crate::calls::ClassTask),
}
