//! Runs of a program from its beginning.
ghost use Rattle.std.specs.Prelude.{IfOk, [], ◌≡◌};
ghost use Rattle.jc_meaning.specs.Calls as c;
ghost use Rattle.jc_meaning.specs.Meaning.{main_outcome, meaning, outcome, run_main, seen};
ghost use Rattle.jc_meaning.specs.Programs.{method_class};
ghost use Rattle.jc_meaning.specs.Kept.{TypedState};
ghost use Rattle.jc_running.specs.Outcomes.{Out, behind};
ghost use Rattle.jc_running.specs.declared.value.Value.{Value};
ghost use Rattle.jc_values.specs.Doing.{Does};

use crate::turning::do_all;
use jc_acts::{
    argument_array, argument_strings, begun, left_value, method_class, one_value, shown,
};
use jc_pending::{ClassTask, Entry, Given, Level, NothingToValue, Todo, class, wait};
use jc_rules::{Items, WantOfMemory};
use jc_running::{Seen, Value};
use jc_typed::TypedProgram;
use jc_types::MethodId;
use jc_values::{Halt, Running};
use std::alloc::Global;

// A static method whose class is initialised first (JLS 12.4.1).
fn run_call(
    alloc: Global,
    program: &TypedProgram,
    depth: u64,
    method: MethodId,
    args: Items<Value>,
    run: &mut Running,
) -> Result<Value, Halt>
    ensures { Does (behind ((meaning program.now depth).ready (method_class program.now.table method)) (c.call_static program.now (meaning program.now depth).body method args []) run.old.units run.old.state) result run.new }
{
    let level = Level { method, depth };
    let mut entries = Items::new(alloc);
    entries.push(Entry {
        level,
        todo: wait!(
            NothingToValue,
            NothingToValue::Call {
                method,
                args,
                types: Items::new(alloc)
            }
        ),
    })?;
    entries.push(Entry {
        level,
        todo: Todo::Begin(class!(ClassTask::Ready {
            class: method_class(program, method)
        })),
    })?;
    do_all(alloc, program, entries, Given::Nothing, run)
}

#[tactic(auto, using(jc_values::proofs::Ending::halted_on))]
fn run_main(
    alloc: Global,
    program: &TypedProgram,
    depth: u64,
    method: MethodId,
    texts: &[Items<u16>],
    run: &mut Running,
) -> Result<Value, Halt>
    ensures { Does (run_main program.now method texts.now depth run.old.units run.old.state) result run.new }
{
    let values = argument_strings(alloc, program, texts, run)?;
    let array = argument_array(alloc, program, values, run)?;
    let args = one_value(alloc, Value::Address(array))?;
    run_call(alloc, program, depth, method, args, run)
}

// What a run shows that ended so.
fn seen_from(
    alloc: Global,
    program: &TypedProgram,
    run: Running,
    outcome: Result<Value, Halt>,
) -> Result<Option<Seen>, WantOfMemory>
    ensures { (o : Out TypedState Value) → Does o outcome run → IfOk result (λ r. r ≡ seen program.now o) }
{
    if let Err(Halt::WantOfMemory) = outcome {
        return Err(WantOfMemory);
    }
    shown(alloc, program, run, outcome)
}

/// What a run of a static method without parameters shows with that many units on an input (JLS 12.4, 14, 15). None where it goes
/// wrong, which no checked program is to do.
pub fn evaluate(
    alloc: Global,
    program: &TypedProgram,
    m: MethodId,
    input: Items<u8>,
    units: u64,
) -> Result<Option<Seen>, WantOfMemory>
    ensures { IfOk result (λ r. r ≡ seen program.now (outcome program.now m input units)) }
{
    let mut run = begun(alloc, program, m, input, units)?;
    if units == 0 {
        return seen_from(alloc, program, run, Err(Halt::Going));
    }
    run.units -= 1;
    let outcome = run_call(alloc, program, units, m, Items::new(alloc), &mut run);
    let outcome = left_value(&mut run, outcome);
    seen_from(alloc, program, run, outcome)
}

/// What a run of a main method with arguments shows, each of which is its UTF-16 units (JLS 12.1).
pub fn evaluate_main(
    alloc: Global,
    program: &TypedProgram,
    m: MethodId,
    args: &[Items<u16>],
    input: Items<u8>,
    units: u64,
) -> Result<Option<Seen>, WantOfMemory>
    ensures { IfOk result (λ r. r ≡ seen program.now (main_outcome program.now m args.now input units)) }
{
    let mut run = begun(alloc, program, m, input, units)?;
    if units == 0 {
        return seen_from(alloc, program, run, Err(Halt::Going));
    }
    run.units -= 1;
    let outcome = run_main(alloc, program, units, m, args, &mut run);
    let outcome = left_value(&mut run, outcome);
    seen_from(alloc, program, run, outcome)
}
