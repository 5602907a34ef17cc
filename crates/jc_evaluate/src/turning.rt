//! The turns of a run: the entry that stands last goes on with what was given, and what it begins stands behind it.
ghost use Rattle.std.specs.Prelude.{◌≡◌, []};
ghost use Rattle.jc_meaning.specs.Kept.{TypedState};
ghost use Rattle.jc_pending.specs.Frames.{all_to_do, at_the_end, begun, entry_to_do, left_to_do};
ghost use Rattle.jc_pending.specs.Leads.{GivenLeads, Leads, given_on};
ghost use Rattle.jc_pending.specs.Level.{nodes_of};
ghost use Rattle.jc_running.specs.Outcomes.{Out, Val};
ghost use Rattle.jc_running.specs.declared.value.Value.{Value};
ghost use Rattle.jc_typed.specs.declared.program.TypedProgram.{TypedProgram};
ghost use Rattle.jc_values.specs.Doing.{Does};
ghost use Rattle.jc_values.specs.declared.halt.Running.{Running};

use crate::giving::value_in;
use crate::todo::go_on;
use jc_pending::{Entry, Given, Level, Next, Task, Todo};
use jc_rules::Items;
use jc_running::Value;
use jc_typed::{Nodes, TypedProgram};
use jc_types::MethodId;
use jc_values::{Halt, Running};
use std::alloc::Global;

// The nodes of a method; none where the program has no such method.
fn nodes_of<'a>(program: &'a TypedProgram, none: &'a Nodes, method: MethodId) -> &'a Nodes
    requires { none.now ≡ [] }
    ensures { result.now ≡ nodes_of program.now method }
{
    match program.methods.get(method.0 as usize) {
        Some(typed) => &typed.nodes,
        None => none,
    }
}

// A computation stands on the stack, and nothing is given to it.
fn begin(level: Level, task: Task, stack: &mut Items<Entry>) -> Result<Given, Halt>
    ensures { (P : TypedProgram) (r : Running) (w : Out TypedState Value) → begun P (nodes_of P level.method) level.depth task (all_to_do P at_the_end stack.old) (Val tt r.units r.state) ≡ w → GivenLeads (all_to_do P at_the_end stack.new) result r w }
{
    stack.push(Entry {
        level,
        todo: Todo::Begin(task),
    })?;
    Ok(Given::Nothing)
}

// .. behind what is left to do behind it
fn begin_behind(
    level: Level,
    todo: Todo,
    deeper: Level,
    task: Task,
    stack: &mut Items<Entry>,
) -> Result<Given, Halt>
    requires { deeper.method ≡ level.method }
    ensures { (P : TypedProgram) (r : Running) (w : Out TypedState Value) → begun P (nodes_of P level.method) deeper.depth task (left_to_do P (nodes_of P level.method) level.depth todo (all_to_do P at_the_end stack.old)) (Val tt r.units r.state) ≡ w → GivenLeads (all_to_do P at_the_end stack.new) result r w }
{
    stack.push(Entry { level, todo })?;
    begin(deeper, task, stack)
}

// A next step, with the stack as it stands behind it.
fn settle(level: Level, next: Result<Next, Halt>, stack: &mut Items<Entry>) -> Result<Given, Halt>
    ensures { (P : TypedProgram) (r : Running) (w : Out TypedState Value) → Leads P (nodes_of P level.method) level.depth (all_to_do P at_the_end stack.old) next r w → GivenLeads (all_to_do P at_the_end stack.new) result r w }
{
    match next {
        Err(h) => Err(h),
        Ok(Next::Give(given)) => Ok(given),
        Ok(Next::Begin(task)) => begin(level, task, stack),
        Ok(Next::At(other, task)) => begin(other, task, stack),
        Ok(Next::Then(todo, task)) => begin_behind(level, todo, level, task, stack),
        Ok(Next::Deeper(todo, task)) => {
            let deeper = Level {
                method: level.method,
                depth: level.depth.saturating_sub(1),
            };
            begin_behind(level, todo, deeper, task, stack)
        }
    }
}

// One turn of an entry that was taken from the stack.
fn turn(
    alloc: Global,
    program: &TypedProgram,
    none: &Nodes,
    entry: Entry,
    now: Result<Given, Halt>,
    stack: &mut Items<Entry>,
    run: &mut Running,
) -> Result<Given, Halt>
    requires { none.now ≡ [] }
    ensures { (w : Out TypedState Value) → GivenLeads (entry_to_do program.now entry (all_to_do program.now at_the_end stack.old)) now run.old w → GivenLeads (all_to_do program.now at_the_end stack.new) result run.new w }
{
    let Entry { level, todo } = entry;
    let nodes = nodes_of(program, none, level.method);
    let next = go_on(alloc, program, nodes, level.depth, todo, now, run);
    settle(level, next, stack)
}

// A run ends with a value.
fn ended(now: Result<Given, Halt>) -> Result<Value, Halt>
    ensures { (r : Running) (w : Out TypedState Value) → GivenLeads at_the_end now r w → Does w result r }
{
    match value_in(now?) {
        None => Err(Halt::Wrong),
        Some(v) => Ok(v),
    }
}

/// Does all that is left to do. A run of more than 2 ^ 64 - 1 turns ends as one for which memory is lacking.
pub fn do_all(
    alloc: Global,
    program: &TypedProgram,
    entries: Items<Entry>,
    given: Given,
    run: &mut Running,
) -> Result<Value, Halt>
    ensures { (w : Out TypedState Value) → given_on (all_to_do program.now at_the_end entries) given run.old ≡ w → Does w result run.new }
{
    let none = Nodes::new(alloc);
    let mut stack = entries;
    let mut now = Ok(given);
    for _turn in 0..u64::MAX {
        match stack.pop() {
            None => return ended(now),
            Some(entry) => now = turn(alloc, program, &none, entry, now, &mut stack, run),
        }
    }
    Err(Halt::WantOfMemory)
}
