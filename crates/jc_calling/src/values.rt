//! Values that calls and creations give.
ghost use Rattle.jc_pending.specs.Frames.{Rest};
ghost use Rattle.jc_pending.specs.Leads.{Coherent, Leads};
ghost use Rattle.jc_pending.specs.Values.{nothing_to_value, values_to_value};
ghost use Rattle.jc_pending.specs.declared.calls.NothingToValue.TheVariants as nv;
ghost use Rattle.jc_pending.specs.declared.calls.ValuesToValue.TheVariants as lv;

use crate::acting::{array_lengths, printer};
use jc_acts::{
    arrays, closed_type, closed_types, constant_at, give_type, method_class, new_object, one_value,
};
use jc_pending::{
    CallTask, ExpressionTask, Given, JoinTodo, Next, NothingToValue, UseTodo, ValuesToValue, call,
    expression, join, operands, used, wait,
};
use jc_rules::Items;
use jc_running::Value;
use jc_typed::{CallKind, Nodes, Printed, TypedProgram};
use jc_types::{FieldId, MethodId};
use jc_values::{Halt, Running};
use std::alloc::Global;

// The value of a static field whose class is ready.
fn static_value(
    program: &TypedProgram,
    nodes: &Nodes,
    depth: u64,
    field: FieldId,
    run: &mut Running,
) -> Result<Next, Halt>
    ensures { (k : Rest) → Coherent k → Leads program.now nodes.now depth k result run.new (k.value (nothing_to_value program.now nodes.now depth (nv.Static field) run.old.units run.old.state)) }
{
    match run.state.statics.get(field.0 as usize) {
        Some(v) => Ok(Next::Give(Given::Value(*v))),
        None => Err(Halt::Wrong),
    }
}

// The string of an operand of string `+` (JLS 15.18.1).
fn text(
    alloc: Global,
    program: &TypedProgram,
    nodes: &Nodes,
    depth: u64,
    of: Printed,
    value: Value,
    run: &mut Running,
) -> Result<Next, Halt>
    ensures { (k : Rest) → Coherent k → Leads program.now nodes.now depth k result run.new (k.value (nothing_to_value program.now nodes.now depth (nv.Text of value) run.old.units run.old.state)) }
{
    let args = one_value(alloc, value)?;
    Ok(Next::Then(
        join!(JoinTodo::TextAgain),
        call!(CallTask::Static {
            method: printer(program, of),
            args,
            types: Items::new(alloc),
        }),
    ))
}

// The object is made before the arguments are evaluated (JLS 15.9.4).
#[tactic(auto, using(jc_pending::proofs::Halting::of_value))]
fn create(
    alloc: Global,
    program: &TypedProgram,
    nodes: &Nodes,
    depth: u64,
    ty: u32,
    method: MethodId,
    args: u32,
    run: &mut Running,
) -> Result<Next, Halt>
    ensures { (k : Rest) → Coherent k → Leads program.now nodes.now depth k result run.new (k.value (nothing_to_value program.now nodes.now depth (nv.Create ty method args) run.old.units run.old.state)) }
{
    let object = new_object(alloc, program, method_class(program, method), run)?;
    Ok(Next::Then(
        wait!(
            ValuesToValue,
            ValuesToValue::Construct { ty, method, object }
        ),
        operands!(args),
    ))
}

// The object gets its type behind the arguments, which may make the variables that the type names, and the constructor runs.
#[tactic(auto, using(jc_pending::proofs::Halting::of_value, jc_pending::proofs::Idles::idles))]
fn construct(
    alloc: Global,
    program: &TypedProgram,
    nodes: &Nodes,
    depth: u64,
    ty: u32,
    method: MethodId,
    object: u64,
    values: Items<Value>,
    run: &mut Running,
) -> Result<Next, Halt>
    ensures { (k : Rest) → Coherent k → Leads program.now nodes.now depth k result run.new (k.value (values_to_value program.now nodes.now depth (lv.Construct ty method object) values run.old.units run.old.state)) }
{
    let class = method_class(program, method);
    give_type(alloc, program, nodes, object, class, ty, run)?;
    Ok(Next::Then(
        used!(UseTodo::Instead {
            value: Value::Address(object)
        }),
        call!(CallTask::Direct {
            method,
            receiver: Value::Address(object),
            args: values,
            types: Items::new(alloc),
        }),
    ))
}

/// What follows a class that is ready, or a value that is stored.
pub fn nothing_to_value(
    alloc: Global,
    program: &TypedProgram,
    nodes: &Nodes,
    depth: u64,
    todo: NothingToValue,
    run: &mut Running,
) -> Result<Next, Halt>
    ensures { (k : Rest) → Coherent k → Leads program.now nodes.now depth k result run.new (k.value (nothing_to_value program.now nodes.now depth todo run.old.units run.old.state)) }
{
    match todo {
        NothingToValue::Static { field } => static_value(program, nodes, depth, field, run),
        NothingToValue::Text { of, value } => text(alloc, program, nodes, depth, of, value, run),
        NothingToValue::Give { value } => Ok(Next::Give(Given::Value(value))),
        NothingToValue::Create { ty, method, args } => {
            create(alloc, program, nodes, depth, ty, method, args, run)
        }
        NothingToValue::Call {
            method,
            args,
            types,
        } => Ok(Next::Begin(call!(CallTask::Static {
            method,
            args,
            types
        }))),
    }
}

#[tactic(auto, using(jc_pending::proofs::Halting::of_value, jc_pending::proofs::Idles::idles))]
fn constant(
    alloc: Global,
    program: &TypedProgram,
    nodes: &Nodes,
    depth: u64,
    value: u32,
    values: &[Value],
    run: &mut Running,
) -> Result<Next, Halt>
    ensures { (k : Rest) → Coherent k → Leads program.now nodes.now depth k result run.new (k.value (values_to_value program.now nodes.now depth (lv.Constant value) values.now run.old.units run.old.state)) }
{
    let v = constant_at(alloc, program, nodes, value, run)?;
    Ok(Next::Give(Given::Value(v)))
}

// The type arguments of a call are closed behind its arguments.
fn call_with(
    alloc: Global,
    program: &TypedProgram,
    nodes: &Nodes,
    depth: u64,
    kind: CallKind,
    method: MethodId,
    type_args: u32,
    receiver: Items<Value>,
    args: Items<Value>,
    run: &mut Running,
) -> Result<Next, Halt>
    ensures { (k : Rest) → Coherent k → Leads program.now nodes.now depth k result run.new (k.value (values_to_value program.now nodes.now depth (lv.Call kind method type_args receiver) args run.old.units run.old.state)) }
{
    let types = closed_types(alloc, nodes, type_args, run)?;
    Ok(Next::Begin(call!(CallTask::With {
        kind,
        method,
        receiver,
        args,
        types,
    })))
}

// An array by its lengths, all of which are tested before it is made (JLS 15.10.1).
#[tactic(auto, using(jc_pending::proofs::Halting::of_value, jc_pending::proofs::Idles::idles))]
fn new_array(
    alloc: Global,
    program: &TypedProgram,
    nodes: &Nodes,
    depth: u64,
    ty: u32,
    values: &[Value],
    run: &mut Running,
) -> Result<Next, Halt>
    ensures { (k : Rest) → Coherent k → Leads program.now nodes.now depth k result run.new (k.value (values_to_value program.now nodes.now depth (lv.NewArray ty) values.now run.old.units run.old.state)) }
{
    let lengths = array_lengths(alloc, program, values, run)?;
    let closed = closed_type(alloc, nodes, ty, run)?;
    let v = arrays(alloc, program, &closed, lengths.slice(), run)?;
    Ok(Next::Give(Given::Value(v)))
}

// A test that isn't written holds (JLS 14.14.1.2).
fn test(
    program: &TypedProgram,
    nodes: &Nodes,
    depth: u64,
    values: &[Value],
    run: &mut Running,
) -> Result<Next, Halt>
    ensures { (k : Rest) → Coherent k → Leads program.now nodes.now depth k result run.new (k.value (values_to_value program.now nodes.now depth lv.Test values.now run.old.units run.old.state)) }
{
    match values {
        [] => Ok(Next::Give(Given::Value(Value::Whole(1)))),
        [v, ..] => Ok(Next::Give(Given::Value(*v))),
    }
}

/// What follows the values of operands.
pub fn values_to_value(
    alloc: Global,
    program: &TypedProgram,
    nodes: &Nodes,
    depth: u64,
    todo: ValuesToValue,
    values: Items<Value>,
    run: &mut Running,
) -> Result<Next, Halt>
    ensures { (k : Rest) → Coherent k → Leads program.now nodes.now depth k result run.new (k.value (values_to_value program.now nodes.now depth todo values run.old.units run.old.state)) }
{
    match todo {
        ValuesToValue::Constant { value } => {
            constant(alloc, program, nodes, depth, value, values.slice(), run)
        }
        ValuesToValue::Static { field } => {
            Ok(Next::Begin(expression!(ExpressionTask::Static { field })))
        }
        ValuesToValue::Args {
            kind,
            method,
            type_args,
            args,
        } => Ok(Next::Then(
            wait!(
                ValuesToValue,
                ValuesToValue::Call {
                    kind,
                    method,
                    type_args,
                    receiver: values
                }
            ),
            operands!(args),
        )),
        ValuesToValue::Call {
            kind,
            method,
            type_args,
            receiver,
        } => call_with(
            alloc, program, nodes, depth, kind, method, type_args, receiver, values, run,
        ),
        ValuesToValue::Construct { ty, method, object } => construct(
            alloc, program, nodes, depth, ty, method, object, values, run,
        ),
        ValuesToValue::NewArray { ty } => {
            new_array(alloc, program, nodes, depth, ty, values.slice(), run)
        }
        ValuesToValue::Test => test(program, nodes, depth, values.slice(), run),
    }
}
