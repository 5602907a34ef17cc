//! Acts on the values of operands: constants, prefix operators, printing and tests of classes.
ghost use Rattle.std.specs.Prelude.{IfOk, [], ◌∷◌, ◌≡◌};
ghost use Rattle.jc_values.specs.Doing.{Does};
ghost use Rattle.jc_typed.specs.declared.program.TypedProgram.{TypedProgram};
ghost use Rattle.jc_typed.specs.Parts.{constant_of, ops_of};
ghost use Rattle.jc_meaning.specs.Expressions as e;
ghost use Rattle.jc_values.specs.Idle.{idle};
ghost use Rattle.jc_meaning.specs.Steps as t;

use jc_numbers::{number_as, prefixed, truth};
use jc_places::ops_node;
use jc_rules::{Items, Text, WantOfMemory};
use jc_running::Value;
use jc_typed::{BoxedIn, Boxes, Nodes, OpsNode, Printed, Printing, TypedProgram};
use jc_types::{Constant, Erased, MethodId, Primitive};
use jc_values::{Halt, Running, constant_string, given, passes};
use std::alloc::Global;

#[tactic(auto, using(jc_places::proofs::Beyond::nothing))]
pub fn constant_at(
    alloc: Global,
    program: &TypedProgram,
    nodes: &Nodes,
    at: u32,
    run: &mut Running,
) -> Result<Value, Halt>
    ensures { Does (e.constant_value program.now idle (constant_of nodes.now at) run.old.units run.old.state) result run.new }
{
    if (at as usize) < nodes.len() {
        constant_value(alloc, program, nodes.constant(at), run)
    } else {
        let zero = Constant::Whole {
            value: 0,
            of: Primitive::Int,
        };
        constant_value(alloc, program, &zero, run)
    }
}

fn constant_value(
    alloc: Global,
    program: &TypedProgram,
    constant: &Constant,
    run: &mut Running,
) -> Result<Value, Halt>
    ensures { Does (e.constant_value program.now idle constant.now run.old.units run.old.state) result run.new }
{
    match constant {
        Constant::Whole { value, of } => Ok(number_as(*of, *value)),
        Constant::Text(units) => constant_string(alloc, program, run, units.slice()),
    }
}

// Prefix operators, the innermost first (JLS 15.15).
#[tactic(auto, using(crate::proofs::Lists::innermost))]
pub fn prefixes(
    alloc: Global,
    program: &TypedProgram,
    nodes: &Nodes,
    ops: u32,
    v: Value,
    run: &mut Running,
) -> Result<Value, Halt>
    ensures { Does (e.prefixes program.now idle (ops_of nodes.now ops) v run.old.units run.old.state) result run.new }
{
    let mut value = v;
    let mut list = ops;
    while let OpsNode::More { before, last } = ops_node(nodes, list) {
        value = given(alloc, program, run, prefixed(last, value))?;
        list = before;
    }
    Ok(value)
}

pub fn printer_of(p: &Printing, of: Printed) -> MethodId
    ensures { (program : TypedProgram) (inner : e.Inner) → result ≡ e.printer_of program inner p.now of }
{
    match of {
        Printed::Boolean => p.of_boolean,
        Printed::Char => p.of_char,
        Printed::Int => p.of_int,
        Printed::Long => p.of_long,
        Printed::Reference => p.of_object,
    }
}

// `instanceof`: null is an instance of nothing (JLS 15.20.2).
pub fn instance_of(
    alloc: Global,
    program: &TypedProgram,
    run: &mut Running,
    to: Erased,
    v: Value,
) -> Result<Value, Halt>
    ensures { (inner : e.Inner) → Does (e.instance_of program.now inner to v run.old.units run.old.state) result run.new }
{
    match v {
        Value::Null => Ok(truth(false)),
        Value::Address(_) => {
            let is = passes(alloc, &program.table, run, to, v)?;
            Ok(truth(is))
        }
        Value::Whole(_) => Err(Halt::Wrong),
        Value::Long(_) => Err(Halt::Wrong),
    }
}

pub fn box_of(boxes: &Boxes, p: Primitive) -> BoxedIn
    ensures { result ≡ t.box_of boxes.now p }
{
    match p {
        Primitive::Boolean => boxes.boolean,
        Primitive::Byte => boxes.byte,
        Primitive::Short => boxes.short,
        Primitive::Char => boxes.char,
        Primitive::Int => boxes.int,
        Primitive::Long => boxes.long,
    }
}

pub fn one_value(alloc: Global, v: Value) -> Result<Items<Value>, WantOfMemory>
    ensures { IfOk result (λ r. r ≡ v ∷ []) }
{
    let mut out = Items::new(alloc);
    out.push(v)?;
    Ok(out)
}
