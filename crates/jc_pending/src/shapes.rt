//! Ways to write entries.

/// An expression's computation.
#[macro_export]
macro_rules! expression {
    ($task:expr) => {
        $crate::Task::Value($crate::ValueTask::Expression($task))
    };
}

/// The value of an operand.
#[macro_export]
macro_rules! operand {
    ($at:expr) => {
        $crate::Task::Value($crate::ValueTask::Expression($crate::ExpressionTask::Operand { at: $at }))
    };
}

/// The values of operands.
#[macro_export]
macro_rules! operands {
    ($at:expr) => {
        $crate::Task::Values($crate::ValuesTask::Operands { at: $at })
    };
}

/// A call.
#[macro_export]
macro_rules! call {
    ($task:expr) => {
        $crate::Task::Value($crate::ValueTask::Call($task))
    };
}

/// A computation for a class.
#[macro_export]
macro_rules! class {
    ($task:expr) => {
        $crate::Task::Nothing($crate::NothingTask::Class($task))
    };
}

/// A point that waits, by what it takes and gives.
#[macro_export]
macro_rules! wait {
    (ValueToValue, $todo:expr) => {
        $crate::Todo::Wait($crate::Waiting::Value($crate::ForValue::ToValue($todo)))
    };
    (ValueToValues, $todo:expr) => {
        $crate::Todo::Wait($crate::Waiting::Value($crate::ForValue::ToValues($todo)))
    };
    (ValueToNothing, $todo:expr) => {
        $crate::Todo::Wait($crate::Waiting::Value($crate::ForValue::ToNothing($todo)))
    };
    (ValueToTarget, $todo:expr) => {
        $crate::Todo::Wait($crate::Waiting::Value($crate::ForValue::ToTarget($todo)))
    };
    (ValueToCompletion, $todo:expr) => {
        $crate::Todo::Wait($crate::Waiting::Value($crate::ForValue::ToCompletion($todo)))
    };
    (ValueToTurn, $todo:expr) => {
        $crate::Todo::Wait($crate::Waiting::Value($crate::ForValue::ToTurn($todo)))
    };
    (ValuesToValue, $todo:expr) => {
        $crate::Todo::Wait($crate::Waiting::Values($crate::ForValues::ToValue($todo)))
    };
    (ValuesToValues, $todo:expr) => {
        $crate::Todo::Wait($crate::Waiting::Values($crate::ForValues::ToValues($todo)))
    };
    (ValuesToNothing, $todo:expr) => {
        $crate::Todo::Wait($crate::Waiting::Values($crate::ForValues::ToNothing($todo)))
    };
    (ValuesToTarget, $todo:expr) => {
        $crate::Todo::Wait($crate::Waiting::Values($crate::ForValues::ToTarget($todo)))
    };
    (ValuesToCompletion, $todo:expr) => {
        $crate::Todo::Wait($crate::Waiting::Values($crate::ForValues::ToCompletion($todo)))
    };
    (NothingToValue, $todo:expr) => {
        $crate::Todo::Wait($crate::Waiting::Nothing($crate::ForNothing::ToValue($todo)))
    };
    (NothingToNothing, $todo:expr) => {
        $crate::Todo::Wait($crate::Waiting::Nothing($crate::ForNothing::ToNothing($todo)))
    };
    (NothingToCompletion, $todo:expr) => {
        $crate::Todo::Wait($crate::Waiting::Nothing($crate::ForNothing::ToCompletion($todo)))
    };
    (NothingToTurn, $todo:expr) => {
        $crate::Todo::Wait($crate::Waiting::Nothing($crate::ForNothing::ToTurn($todo)))
    };
    (NothingToNumbered, $todo:expr) => {
        $crate::Todo::Wait($crate::Waiting::Nothing($crate::ForNothing::ToNumbered($todo)))
    };
    (CompletionToValue, $todo:expr) => {
        $crate::Todo::Wait($crate::Waiting::Completion($crate::ForCompletion::ToValue($todo)))
    };
    (CompletionToCompletion, $todo:expr) => {
        $crate::Todo::Wait($crate::Waiting::Completion($crate::ForCompletion::ToCompletion($todo)))
    };
    (CompletionToTurn, $todo:expr) => {
        $crate::Todo::Wait($crate::Waiting::Completion($crate::ForCompletion::ToTurn($todo)))
    };
    (CompletionToNumbered, $todo:expr) => {
        $crate::Todo::Wait($crate::Waiting::Completion($crate::ForCompletion::ToNumbered($todo)))
    };
    (TargetToValue, $todo:expr) => {
        $crate::Todo::Wait($crate::Waiting::Target($todo))
    };
    (TurnToCompletion, $todo:expr) => {
        $crate::Todo::Wait($crate::Waiting::Turn($todo))
    };
    (NumberedToCompletion, $todo:expr) => {
        $crate::Todo::Wait($crate::Waiting::Numbered($todo))
    };
}

/// A use of a value.
#[macro_export]
macro_rules! used {
    ($todo:expr) => {
        $crate::Todo::Wait($crate::Waiting::Value($crate::ForValue::ToValue($crate::ValueToValue::Use($todo))))
    };
}

/// A point between the operands of an operator.
#[macro_export]
macro_rules! join {
    ($todo:expr) => {
        $crate::Todo::Wait($crate::Waiting::Value($crate::ForValue::ToValue($crate::ValueToValue::Join($todo))))
    };
}

/// A point between the parts of a compound assignment.
#[macro_export]
macro_rules! change {
    ($todo:expr) => {
        $crate::Todo::Wait($crate::Waiting::Value($crate::ForValue::ToValue($crate::ValueToValue::Change($todo))))
    };
}
