//! What statements do with values and completions that are there.
ghost use Rattle.std.specs.Prelude.{◌≡◌, IfOk, List, map, ℕ};
ghost use Rattle.jc_meaning.specs.Kept.{TypedState};
ghost use Rattle.jc_meaning.specs.Statements as s;
ghost use Rattle.jc_running.specs.Outcomes.{Val, give, stop};
ghost use Rattle.jc_running.specs.declared.value.Turn.TheVariants.{Again};
ghost use Rattle.jc_typed.specs.Parts.{Part, case_over, types_of};
ghost use Rattle.jc_values.specs.Idle.{idle};

use jc_acts::{default_in, is_any_of, labelled, numbered, or_else, value_or_null};
use jc_rules::WantOfMemory;
use jc_running::{Completion, Turn, Value};
use jc_typed::{Case, Nodes, TypedProgram};
use jc_types::Erased;
use std::alloc::Global;

fn first_of(program: &TypedProgram, first: Option<u32>, second: Option<u32>) -> Option<u32>
    ensures { result ≡ s.or_else program.now idle (λ x. stop) 0 first second }
{
    or_else(first, second)
}

/// How many statements of a `switch` stand before the label of a number, or else before `default`, if there is one (JLS 14.11).
pub fn label_of(program: &TypedProgram, cases: &[Case], n: i32) -> Option<u32>
    ensures { (ps : List Part) → result ≡ s.or_else program.now idle (λ x. stop) 0 (s.labelled program.now idle (λ x. stop) 0 n (map (case_over ps) cases.now)) (s.default_in program.now idle (λ x. stop) 0 (map (case_over ps) cases.now)) }
{
    first_of(program, labelled(cases, n), default_in(cases))
}

/// The value behind `return`.
pub fn returned_value(program: &TypedProgram, values: &[Value]) -> Value
    ensures { result ≡ s.value_or_null program.now idle (λ x. stop) 0 values.now }
{
    value_or_null(values)
}

/// What follows the body in a turn over an array.
pub fn after_element(program: &TypedProgram, own: u32, c: Completion, next: u64) -> Turn<u64>
    ensures { (o : TypedState) (u : ℕ) → s.after_body program.now idle (λ x. stop) 0 own c (give (Again next)) u o ≡ Val result u o }
{
    numbered(own, c, next)
}

/// Whether an exception is of one of the alternatives of a clause (JLS 14.20.1).
pub fn is_caught(
    alloc: Global,
    program: &TypedProgram,
    nodes: &Nodes,
    e: Erased,
    types: u32,
) -> Result<bool, WantOfMemory>
    ensures { IfOk result (λ r. r ≡ s.is_any_of program.now idle (λ x. stop) 0 e (types_of nodes.now types)) }
{
    let caught = is_any_of(alloc, &program.table, nodes, e, types)?;
    Ok(caught)
}
