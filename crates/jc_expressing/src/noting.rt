//! Values that are read, noted with their static types.
ghost use Rattle.jc_meaning.specs.Expressions as e;
ghost use Rattle.jc_typed.specs.Parts.{form_over, parts, type_of};
ghost use Rattle.jc_values.specs.Doing.{Does};
ghost use Rattle.jc_values.specs.Idle.{idle};

use jc_acts::{instance_of, is_noted, note, noted};
use jc_rules::Place;
use jc_running::Value;
use jc_typed::{ExprForm, Nodes, TypedProgram};
use jc_types::Erased;
use jc_values::{Halt, Running};
use std::alloc::Global;

/// A value that was read is noted with its static type.
pub fn note_read(
    alloc: Global,
    program: &TypedProgram,
    nodes: &Nodes,
    place: Place,
    ty: u32,
    v: Value,
    run: &mut Running,
) -> Result<Value, Halt>
    ensures { Does (e.note program.now idle place (type_of nodes.now ty) v run.old.units run.old.state) result run.new }
{
    note(alloc, nodes, place, ty, v, run)
}

/// The value of an expression is noted, where its form is one whose values are.
pub fn note_form(
    alloc: Global,
    program: &TypedProgram,
    nodes: &Nodes,
    place: Place,
    ty: u32,
    form: ExprForm,
    v: Value,
    run: &mut Running,
) -> Result<Value, Halt>
    ensures { Does (e.noted program.now idle (e.is_noted program.now idle (form_over (parts nodes.now) form)) place (type_of nodes.now ty) v run.old.units run.old.state) result run.new }
{
    noted(alloc, nodes, is_noted(form), place, ty, v, run)
}

/// Whether a value is an instance of a type (JLS 15.20.2).
pub fn is_instance(
    alloc: Global,
    program: &TypedProgram,
    run: &mut Running,
    to: Erased,
    v: Value,
) -> Result<Value, Halt>
    ensures { Does (e.instance_of program.now idle to v run.old.units run.old.state) result run.new }
{
    instance_of(alloc, program, run, to, v)
}
