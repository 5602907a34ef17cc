//! What calls and creations do with values that are there.
ghost use Rattle.std.specs.Prelude.{◌≡◌};
ghost use Rattle.jc_meaning.specs.Expressions as e;
ghost use Rattle.jc_meaning.specs.Statements as s;
ghost use Rattle.jc_running.specs.Outcomes.{Val, stop};
ghost use Rattle.jc_typed.specs.Parts.{type_of};
ghost use Rattle.jc_values.specs.Doing.{Does};
ghost use Rattle.jc_values.specs.Idle.{idle};

use jc_acts::{lengths_of, note, printer_of, set_first};
use jc_rules::{Items, Place};
use jc_running::Value;
use jc_typed::{Nodes, Printed, TypedProgram};
use jc_types::MethodId;
use jc_values::{Halt, Running};
use std::alloc::Global;

/// An element is noted with its static type.
pub fn note_element(
    alloc: Global,
    program: &TypedProgram,
    nodes: &Nodes,
    place: Place,
    ty: u32,
    v: Value,
    run: &mut Running,
) -> Result<Value, Halt>
    ensures { Does (e.note program.now idle place (type_of nodes.now ty) v run.old.units run.old.state) result run.new }
{
    note(alloc, nodes, place, ty, v, run)
}

/// The lengths of a new array.
pub fn array_lengths(
    alloc: Global,
    program: &TypedProgram,
    values: &[Value],
    run: &mut Running,
) -> Result<Items<u64>, Halt>
    ensures { Does (e.lengths_of program.now idle values.now run.old.units run.old.state) result run.new }
{
    lengths_of(alloc, program, values, run)
}

/// The method that makes a string of a kind of value.
pub fn printer(program: &TypedProgram, of: Printed) -> MethodId
    ensures { result ≡ e.printer_of program.now idle program.now.known.printing of }
{
    printer_of(&program.known.printing, of)
}

/// A declared variable gets the value of its initialiser, if it has one.
pub fn set_declared(
    alloc: Global,
    program: &TypedProgram,
    n: u32,
    values: &[Value],
    run: &mut Running,
)
    ensures { s.set_first program.now idle (λ x. stop) 0 n values.now run.old.units run.old.state ≡ Val tt run.new.units run.new.state }
{
    set_first(alloc, run, n, values);
}
