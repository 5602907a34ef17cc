//! What is to be done next, by what it gives.
use crate::calls::{NothingToNothing, NothingToValue, ValuesToValue};
use crate::expressions::{
    NothingTask, TargetTask, TargetToValue, ValueTask, ValueToTarget, ValueToValue, ValueToValues,
    ValuesTask, ValuesToTarget, ValuesToValues,
};
use crate::loops::{
    CompletionToNumbered, CompletionToTurn, NothingToNumbered, NothingToTurn, NumberedTask,
    NumberedToCompletion, TurnTask, TurnToCompletion, ValueToTurn,
};
use crate::statements::{
    CompletionTask, CompletionToCompletion, CompletionToValue, NothingToCompletion,
    ValueToCompletion, ValueToNothing, ValuesToCompletion, ValuesToNothing,
};
use jc_meaning::{Frame, Target};
use jc_rules::Items;
use jc_running::{Completion, Turn, Value};
use jc_types::{ClassId, MethodId};

/// What a computation gives.
#[derive(Drop)]
pub enum Given {
    Value(Value),
    Values(Items<Value>),
    Nothing,
    Target(Target),
    Completion(Completion),
    Turn(Turn<()>),
    Numbered(Turn<u64>),
}

/// A computation that is to begin, by what it gives.
#[derive(Drop)]
pub enum Task {
    Value(ValueTask),
    Values(ValuesTask),
    Nothing(NothingTask),
    Target(TargetTask),
    Completion(CompletionTask),
    Turn(TurnTask),
    Numbered(NumberedTask),
}

/// A point that takes a value, the values of operands, nothing, or a completion, by what it gives.
#[derive(Drop)]
pub enum ForValue {
    ToValue(ValueToValue),
    ToValues(ValueToValues),
    ToNothing(ValueToNothing),
    ToTarget(ValueToTarget),
    ToCompletion(ValueToCompletion),
    ToTurn(ValueToTurn),
}

#[derive(Drop)]
pub enum ForValues {
    ToValue(ValuesToValue),
    ToValues(ValuesToValues),
    ToNothing(ValuesToNothing),
    ToTarget(ValuesToTarget),
    ToCompletion(ValuesToCompletion),
}

#[derive(Drop)]
pub enum ForNothing {
    ToValue(NothingToValue),
    ToNothing(NothingToNothing),
    ToCompletion(NothingToCompletion),
    ToTurn(NothingToTurn),
    ToNumbered(NothingToNumbered),
}

#[derive(Drop)]
pub enum ForCompletion {
    ToValue(CompletionToValue),
    ToCompletion(CompletionToCompletion),
    ToTurn(CompletionToTurn),
    ToNumbered(CompletionToNumbered),
}

/// A point at which a run waits, by what it takes; a thrown object goes past it.
#[derive(Drop)]
pub enum Waiting {
    Value(ForValue),
    Values(ForValues),
    Nothing(ForNothing),
    Target(TargetToValue),
    Completion(ForCompletion),
    Turn(TurnToCompletion),
    Numbered(NumberedToCompletion),
}

/// What is left to do: a computation that begins, what waits, and what does something behind a thrown object too. A node that is left
/// spends a unit; behind a call the former variables and frame come back; a class whose superclass or whose initialiser throws has
/// failed; the clauses of a `try`; and a finally block, whose statements stand in reverse order.
#[derive(Drop)]
pub enum Todo {
    Begin(Task),
    Wait(Waiting),
    LeaveValue,
    LeaveCompletion,
    LeaveNothing,
    Back { locals: Items<Value>, frame: Frame },
    Superclass { class: ClassId },
    Initialiser { class: ClassId },
    Catch { catches: u32 },
    Finally { stmts: Items<u32> },
}

/// The method whose nodes are meant, and the depth of the meaning.
#[derive(Clone, Copy)]
pub struct Level {
    pub method: MethodId,
    pub depth: u64,
}

/// What is left to do at a level.
#[derive(Drop)]
pub struct Entry {
    pub level: Level,
    pub todo: Todo,
}

/// What comes next: something is given; a computation begins, at the same level or at another; or it begins and something is left
/// to do behind it, where the computation is at the same level or one deeper.
#[derive(Drop)]
pub enum Next {
    Give(Given),
    Begin(Task),
    At(Level, Task),
    Then(Todo, Task),
    Deeper(Todo, Task),
}
