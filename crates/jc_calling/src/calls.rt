//! Calls of methods and constructors (JLS 15.12.4).
ghost use Rattle.std.specs.Prelude.{◌∷◌};
ghost use Rattle.jc_heaps.specs.States.{in_frame};
ghost use Rattle.jc_meaning.specs.Calls as c;
ghost use Rattle.jc_pending.specs.Level.{body};
ghost use Rattle.jc_running.specs.Outcomes.{bind};
ghost use Rattle.jc_running.specs.declared.value.Value.TheVariants.{Address};
ghost use Rattle.jc_types.specs.Accessors.{params_of, result_of};
ghost use Rattle.jc_pending.specs.Frames.{Rest};
ghost use Rattle.jc_pending.specs.Leads.{Coherent, Leads};
ghost use Rattle.jc_pending.specs.Values.{call_task, completion_to_value, value_to_value};
ghost use Rattle.jc_pending.specs.declared.calls.CallTask.TheVariants as call;
ghost use Rattle.jc_pending.specs.declared.expressions.ValueToValue.TheVariants as vv;

use jc_acts::{
    answered, default_answer, entered_all, first_locals, frame_of, led_by, method_class, selected,
};
use jc_layout::methods_class;
use jc_meaning::Frame;
use jc_pending::{
    CallTask, ClassTask, CompletionTask, CompletionToValue, Given, Next, NothingToValue, Task,
    Todo, ValueToValue, call, class, wait,
};
use jc_rules::Items;
use jc_running::{Completion, Value};
use jc_typed::{CallKind, Nodes, TypedProgram};
use jc_types::{MethodId, Ty, method_params};
use jc_values::{Halt, Running, address_of, closed_erasure};
use std::alloc::Global;
use std::mem;

// A call by its kind, with a receiver if it has one (JLS 15.12.4).
fn call_with(
    program: &TypedProgram,
    nodes: &Nodes,
    depth: u64,
    kind: CallKind,
    method: MethodId,
    receiver: Items<Value>,
    args: Items<Value>,
    types: Items<Ty>,
    run: &mut Running,
) -> Result<Next, Halt>
    ensures { (k : Rest) → Coherent k → Leads program.now nodes.now depth k result run.new (k.value (call_task program.now nodes.now depth (call.With kind method receiver args types) run.old.units run.old.state)) }
{
    match kind {
        CallKind::Static => Ok(Next::Begin(call!(CallTask::Ready {
            method,
            args,
            types
        }))),
        CallKind::Virtual => match receiver.slice() {
            [] => Err(Halt::Wrong),
            [v, ..] => Ok(Next::Begin(call!(CallTask::Virtual {
                method,
                receiver: *v,
                args,
                types,
            }))),
        },
        CallKind::Direct => match receiver.slice() {
            [] => Err(Halt::Wrong),
            [v, ..] => Ok(Next::Begin(call!(CallTask::Direct {
                method,
                receiver: *v,
                args,
                types,
            }))),
        },
    }
}

// A call of a static method, whose class is initialised by now (JLS 15.12.4.5).
fn call_static(
    alloc: Global,
    program: &TypedProgram,
    nodes: &Nodes,
    depth: u64,
    method: MethodId,
    args: Items<Value>,
    types: Items<Ty>,
    run: &mut Running,
) -> Result<Next, Halt>
    ensures { (k : Rest) → Coherent k → Leads program.now nodes.now depth k result run.new (k.value (call_task program.now nodes.now depth (call.Static method args types) run.old.units run.old.state)) }
{
    let frame = frame_of(alloc, program, method, None, types.slice())?;
    let locals = first_locals(alloc, program, method, args)?;
    Ok(Next::Begin(call!(CallTask::Run {
        method,
        locals,
        frame
    })))
}

// A call of the body of the method itself, for an object (JLS 15.12.4.4); null throws.
#[tactic(auto, using(jc_pending::proofs::Halting::of_value))]
fn call_direct(
    alloc: Global,
    program: &TypedProgram,
    nodes: &Nodes,
    depth: u64,
    method: MethodId,
    receiver: Value,
    args: Items<Value>,
    types: Items<Ty>,
    run: &mut Running,
) -> Result<Next, Halt>
    ensures { (k : Rest) → Coherent k → Leads program.now nodes.now depth k result run.new (k.value (call_task program.now nodes.now depth (call.Direct method receiver args types) run.old.units run.old.state)) }
{
    let a = address_of(alloc, program, run, receiver)?;
    let Some(object) = run.state.heap.get(a as usize) else {
        return Err(Halt::Wrong);
    };
    let frame = frame_of(alloc, program, method, Some(object), types.slice())?;
    let given = led_by(alloc, Value::Address(a), args)?;
    let locals = first_locals(alloc, program, method, given)?;
    Ok(Next::Begin(call!(CallTask::Run {
        method,
        locals,
        frame
    })))
}

// A call of a body for an object, whose result is checked as the called method's.
fn call_own(
    alloc: Global,
    program: &TypedProgram,
    nodes: &Nodes,
    depth: u64,
    method: MethodId,
    own: MethodId,
    address: u64,
    values: Items<Value>,
    frame: Frame,
    run: &mut Running,
) -> Result<Next, Halt>
    ensures { (k : Rest) → Coherent k → Leads program.now nodes.now depth k result run.new (k.value (bind (in_frame (c.first_locals program.now own (Address address ∷ values)) frame (bind (body program.now depth own) (c.answer_of program.now own))) (c.answered program.now (result_of program.now.table method) (result_of program.now.table own)) run.old.units run.old.state)) }
{
    let given = led_by(alloc, Value::Address(address), values)?;
    let locals = first_locals(alloc, program, own, given)?;
    Ok(Next::Then(
        wait!(ValueToValue, ValueToValue::Answered { method, own }),
        call!(CallTask::Run {
            method: own,
            locals,
            frame
        }),
    ))
}

// The arguments are checked as that body's parameters first (JLS 15.12.4.5).
#[tactic(auto, using(jc_pending::proofs::Halting::of_value))]
fn call_entered(
    alloc: Global,
    program: &TypedProgram,
    nodes: &Nodes,
    depth: u64,
    method: MethodId,
    own: MethodId,
    address: u64,
    args: &[Value],
    frame: Frame,
    run: &mut Running,
) -> Result<Next, Halt>
    ensures { (k : Rest) → Coherent k → Leads program.now nodes.now depth k result run.new (k.value (bind (c.entered_all program.now (params_of program.now.table method) (params_of program.now.table own) args.now) (λ vs. bind (in_frame (c.first_locals program.now own (Address address ∷ vs)) frame (bind (body program.now depth own) (c.answer_of program.now own))) (c.answered program.now (result_of program.now.table method) (result_of program.now.table own))) run.old.units run.old.state)) }
{
    let values = entered_all(
        alloc,
        program,
        method_params(&program.table, method),
        method_params(&program.table, own),
        args,
        run,
    )?;
    call_own(
        alloc, program, nodes, depth, method, own, address, values, frame, run,
    )
}

// A call of the body that the class of the receiver selects (JLS 15.12.4.4); null throws.
#[tactic(auto, using(jc_pending::proofs::Halting::of_value))]
fn call_virtual(
    alloc: Global,
    program: &TypedProgram,
    nodes: &Nodes,
    depth: u64,
    method: MethodId,
    receiver: Value,
    args: Items<Value>,
    types: Items<Ty>,
    run: &mut Running,
) -> Result<Next, Halt>
    ensures { (k : Rest) → Coherent k → Leads program.now nodes.now depth k result run.new (k.value (call_task program.now nodes.now depth (call.Virtual method receiver args types) run.old.units run.old.state)) }
{
    let a = address_of(alloc, program, run, receiver)?;
    let Some(object) = run.state.heap.get(a as usize) else {
        return Err(Halt::Wrong);
    };
    let of = methods_class(closed_erasure(alloc, &program.table, &object.kept));
    let Some(own) = selected(program, of, method) else {
        return Err(Halt::Wrong);
    };
    let frame = frame_of(alloc, program, own, Some(object), types.slice())?;
    call_entered(
        alloc,
        program,
        nodes,
        depth,
        method,
        own,
        a,
        args.slice(),
        frame,
        run,
    )
}

// A body in its own variables and frame, behind which the former ones come back.
fn run_method(
    program: &TypedProgram,
    nodes: &Nodes,
    depth: u64,
    method: MethodId,
    locals: Items<Value>,
    frame: Frame,
    run: &mut Running,
) -> Result<Next, Halt>
    ensures { (k : Rest) → Coherent k → Leads program.now nodes.now depth k result run.new (k.value (call_task program.now nodes.now depth (call.Run method locals frame) run.old.units run.old.state)) }
{
    let former_locals = mem::replace(&mut run.state.locals, locals);
    let former_frame = mem::replace(&mut run.state.frame, frame);
    Ok(Next::Then(
        Todo::Back {
            locals: former_locals,
            frame: former_frame,
        },
        call!(CallTask::Answer { method }),
    ))
}

/// What a call begins with.
pub fn call_task(
    alloc: Global,
    program: &TypedProgram,
    nodes: &Nodes,
    depth: u64,
    task: CallTask,
    run: &mut Running,
) -> Result<Next, Halt>
    ensures { (k : Rest) → Coherent k → Leads program.now nodes.now depth k result run.new (k.value (call_task program.now nodes.now depth task run.old.units run.old.state)) }
{
    match task {
        CallTask::With {
            kind,
            method,
            receiver,
            args,
            types,
        } => call_with(
            program, nodes, depth, kind, method, receiver, args, types, run,
        ),
        CallTask::Static {
            method,
            args,
            types,
        } => call_static(alloc, program, nodes, depth, method, args, types, run),
        CallTask::Direct {
            method,
            receiver,
            args,
            types,
        } => call_direct(
            alloc, program, nodes, depth, method, receiver, args, types, run,
        ),
        CallTask::Virtual {
            method,
            receiver,
            args,
            types,
        } => call_virtual(
            alloc, program, nodes, depth, method, receiver, args, types, run,
        ),
        CallTask::Run {
            method,
            locals,
            frame,
        } => run_method(program, nodes, depth, method, locals, frame, run),
        CallTask::Answer { method } => Ok(Next::Then(
            wait!(CompletionToValue, CompletionToValue::Answer { method }),
            Task::Completion(CompletionTask::Body { method }),
        )),
        CallTask::Ready {
            method,
            args,
            types,
        } => Ok(Next::Then(
            wait!(
                NothingToValue,
                NothingToValue::Call {
                    method,
                    args,
                    types
                }
            ),
            class!(ClassTask::Ready {
                class: method_class(program, method)
            }),
        )),
    }
}

/// What a body's completion gives (JLS 14.17).
pub fn completion_to_value(
    program: &TypedProgram,
    nodes: &Nodes,
    depth: u64,
    todo: CompletionToValue,
    completion: Completion,
    run: &mut Running,
) -> Result<Next, Halt>
    ensures { (k : Rest) → Coherent k → Leads program.now nodes.now depth k result run.new (k.value (completion_to_value program.now nodes.now depth todo completion run.old.units run.old.state)) }
{
    let CompletionToValue::Answer { method } = todo;
    match completion {
        Completion::Normal => Ok(Next::Give(Given::Value(default_answer(program, method)))),
        Completion::Broke(_) => Err(Halt::Wrong),
        Completion::Continued(_) => Err(Halt::Wrong),
        Completion::Returned(v) => Ok(Next::Give(Given::Value(v))),
    }
}

/// The result of a call, by the body that the receiver's class selected.
#[tactic(auto, using(jc_pending::proofs::Halting::of_value))]
pub fn answered_value(
    alloc: Global,
    program: &TypedProgram,
    nodes: &Nodes,
    depth: u64,
    method: MethodId,
    own: MethodId,
    v: Value,
    run: &mut Running,
) -> Result<Next, Halt>
    ensures { (k : Rest) → Coherent k → Leads program.now nodes.now depth k result run.new (k.value (value_to_value program.now nodes.now depth (vv.Answered method own) v run.old.units run.old.state)) }
{
    Ok(Next::Give(Given::Value(answered(alloc, program, method, own, v, run)?)))
}
