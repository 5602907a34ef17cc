//! What a running typed program has left to do, as plain data: each entry is a point of the meaning at which a run waits for what an
//! inner computation gives, or an inner computation that is to begin. What an entry stands for is told in `specs/`.
#![tactic(auto)]

mod calls;
mod expressions;
mod loops;
mod shapes;
mod statements;
mod todo;

pub use calls::{CallTask, ClassTask, NothingToNothing, NothingToValue, ValuesToValue};
pub use expressions::{
    ChangeTodo, ExpressionTask, JoinTodo, ListTodo, NothingTask, TargetTask, TargetToValue,
    UseTodo, ValueTask, ValueToTarget, ValueToValue, ValueToValues, ValuesTask, ValuesToTarget,
    ValuesToValues,
};
pub use loops::{
    CompletionToNumbered, CompletionToTurn, Each, NothingToNumbered, NothingToTurn, NumberedTask,
    NumberedToCompletion, TurnTask, TurnToCompletion, ValueToTurn,
};
pub use statements::{
    CompletionTask, CompletionToCompletion, CompletionToValue, NothingToCompletion,
    ValueToCompletion, ValueToNothing, ValuesToCompletion, ValuesToNothing,
};
pub use todo::{
    Entry, ForCompletion, ForNothing, ForValue, ForValues, Given, Level, Next, Task, Todo, Waiting,
};
