//! The variables that a method begins with.
ghost use Rattle.jc_types.specs.Erasing.{erasure};
ghost use Rattle.std.specs.Prelude.{IfOk, drop, map, ◌∷◌, ◌≡◌, []};
ghost use Rattle.jc_values.specs.Doing.{Does};
ghost use Rattle.jc_meaning.specs.Kept.{TypedState};
ghost use Rattle.std.specs.Option.{option_copied};
ghost use Rattle.jc_running.specs.Outcomes.{Out};
ghost use Rattle.jc_running.specs.declared.value.Value.{Value};
ghost use Rattle.jc_types.specs.Accessors.{result_of};
ghost use Rattle.jc_heaps.specs.Layout.{default_in, default_value};
ghost use Rattle.jc_heaps.specs.States.{back_in};
ghost use Rattle.jc_meaning.specs.Calls as c;
ghost use Rattle.jc_meaning.specs.Programs.{captured_of, local_types, method_class, selected, selected_in};

use jc_heaps::Object;
use jc_kept::{bindings, class_bindings, unsaid_all};
use jc_layout::{default_value, is_of, same_erased};
use jc_meaning::{Binding, Frame};
use jc_rules::{Items, WantOfMemory};
use jc_running::{Check, Value};
use jc_typed::{Local, Selection, TypedProgram};
use jc_types::{Bounds, ClassId, Erased, MethodId, Ty, method_owner, method_result, method_vars};
use jc_values::{Halt, Running, checked, closed_erasure, given};
use std::alloc::Global;

/// The class that declares a method.
pub fn method_class(program: &TypedProgram, m: MethodId) -> ClassId
    ensures { result ≡ method_class program.now.table m }
{
    match method_owner(&program.table, m) {
        Some(k) => k,
        None => ClassId(0),
    }
}

/// The captured variables of a method.
pub fn captured_of(program: &TypedProgram, m: MethodId) -> &[Bounds]
    ensures { result.now ≡ captured_of program.now m }
{
    match program.methods.get(m.0 as usize) {
        Some(method) => method.captured.bounds.slice(),
        None => &[],
    }
}

#[tactic(auto, using(crate::proofs::Locals::defaults))]
pub fn first_locals(
    alloc: Global,
    program: &TypedProgram,
    m: MethodId,
    given: Items<Value>,
) -> Result<Items<Value>, WantOfMemory>
    ensures { IfOk result (λ r. r ≡ c.first_locals program.now m given) }
{
    let more = match program.methods.get(m.0 as usize) {
        Some(method) => defaults_behind(alloc, method.locals.slice(), given.len())?,
        None => Items::new(alloc),
    };
    let mut locals = given;
    locals.append(more)?;
    Ok(locals)
}

// The default values of the variables behind as many as are given.
#[tactic(auto, using(crate::proofs::Locals::defaults))]
fn defaults_behind(
    alloc: Global,
    locals: &[Local],
    given: usize,
) -> Result<Items<Value>, WantOfMemory>
    ensures { IfOk result (λ r. r ≡ map default_value (drop given (local_types locals.now))) }
{
    if given < locals.len() {
        defaults(alloc, &locals[given..])
    } else {
        Ok(Items::new(alloc))
    }
}

fn defaults(alloc: Global, locals: &[Local]) -> Result<Items<Value>, WantOfMemory>
    ensures { IfOk result (λ r. r ≡ map default_value (local_types locals.now)) }
{
    let mut out = Items::new(alloc);
    for local in locals {
        out.push(default_value(&local.ty))?;
    }
    Ok(out)
}

fn class_part(
    alloc: Global,
    program: &TypedProgram,
    m: MethodId,
    receiver: Option<&Object<Ty>>,
) -> Result<Items<Binding>, WantOfMemory>
    ensures { IfOk result (λ r. r ≡ c.class_part program.now m (option_copied receiver.entry)) }
{
    match receiver {
        Some(object) => class_bindings(
            alloc,
            &program.table,
            method_class(program, m),
            &object.kept,
        ),
        None => Ok(Items::new(alloc)),
    }
}

pub fn frame_of(
    alloc: Global,
    program: &TypedProgram,
    m: MethodId,
    receiver: Option<&Object<Ty>>,
    types: &[Ty],
) -> Result<Frame, WantOfMemory>
    ensures { IfOk result (λ r. r ≡ c.frame_of program.now m (option_copied receiver.entry) types.now) }
{
    let mut variables = class_part(alloc, program, m, receiver)?;
    let own = bindings(alloc, method_vars(&program.table, m), types)?;
    variables.append(own)?;
    let captured = unsaid_all(alloc, variables.slice(), captured_of(program, m))?;
    Ok(Frame {
        method: m,
        variables,
        captured,
    })
}

pub fn led_by(alloc: Global, first: Value, rest: Items<Value>) -> Result<Items<Value>, WantOfMemory>
    ensures { IfOk result (λ r. r ≡ first ∷ rest) }
{
    let mut out = Items::new(alloc);
    out.push(first)?;
    out.append(rest)?;
    Ok(out)
}

// The former variables and frame come back, however the call ended.
pub fn back(
    run: &mut Running,
    locals: Items<Value>,
    frame: Frame,
    outcome: Result<Value, Halt>,
) -> Result<Value, Halt>
    ensures { (o : Out TypedState Value) → Does o outcome run.old → Does (back_in locals frame o) result run.new }
{
    match outcome {
        Ok(v) => {
            run.state.locals = locals;
            run.state.frame = frame;
            Ok(v)
        }
        Err(Halt::Thrown(a)) => {
            run.state.locals = locals;
            run.state.frame = frame;
            Err(Halt::Thrown(a))
        }
        Err(h) => Err(h),
    }
}

fn selected_in(m: MethodId, selections: &[Selection]) -> Option<MethodId>
    ensures { result ≡ selected_in m selections.now }
{
    let mut rest = selections;
    while let [first, more @ ..] = rest {
        if first.method.0 == m.0 {
            return Some(first.body);
        }
        rest = more;
    }
    None
}

pub fn selected(program: &TypedProgram, k: ClassId, m: MethodId) -> Option<MethodId>
    ensures { result ≡ selected program.now k m }
{
    match program.selections.get(k.0 as usize) {
        Some(selections) => selected_in(m, selections.slice()),
        None => None,
    }
}

fn entered(
    alloc: Global,
    program: &TypedProgram,
    called: Erased,
    own: Erased,
    v: Value,
    run: &mut Running,
) -> Result<Value, Halt>
    ensures { Does (c.entered program.now called own v run.old.units run.old.state) result run.new }
{
    if same_erased(called, own) {
        return Ok(v);
    }
    checked(alloc, program, run, Check::EntryGuard, own, v)
}

fn entered_at(
    alloc: Global,
    program: &TypedProgram,
    called: &Ty,
    own: &Ty,
    v: Value,
    run: &mut Running,
) -> Result<Value, Halt>
    ensures { Does (c.entered program.now (erasure program.now.table [] called.now) (erasure program.now.table [] own.now) v run.old.units run.old.state) result run.new }
{
    let from = closed_erasure(alloc, &program.table, called);
    let to = closed_erasure(alloc, &program.table, own);
    entered(alloc, program, from, to, v, run)
}

/// Arguments as a body that a class has for the called method takes them (JLS 15.12.4.5).
#[cycle(entering)]
pub fn entered_all(
    alloc: Global,
    program: &TypedProgram,
    called: &[Ty],
    own: &[Ty],
    args: &[Value],
    run: &mut Running,
) -> Result<Items<Value>, Halt>
    ensures { Does (c.entered_all program.now called.now own.now args.now run.old.units run.old.state) result run.new }
{
    match called {
        [] => Ok(copied(alloc, args)?),
        [first, more @ ..] => entered_as(alloc, program, first, more, own, args, run),
    }
}

#[cycle(entering)]
fn entered_as(
    alloc: Global,
    program: &TypedProgram,
    called: &Ty,
    more: &[Ty],
    own: &[Ty],
    args: &[Value],
    run: &mut Running,
) -> Result<Items<Value>, Halt>
    ensures { Does (c.entered_all program.now (called.now ∷ more.now) own.now args.now run.old.units run.old.state) result run.new }
{
    match own {
        [] => Ok(copied(alloc, args)?),
        [first, others @ ..] => {
            entered_from(alloc, program, called, more, first, others, args, run)
        }
    }
}

#[cycle(entering)]
fn entered_from(
    alloc: Global,
    program: &TypedProgram,
    called: &Ty,
    more: &[Ty],
    own: &Ty,
    others: &[Ty],
    args: &[Value],
    run: &mut Running,
) -> Result<Items<Value>, Halt>
    ensures { Does (c.entered_all program.now (called.now ∷ more.now) (own.now ∷ others.now) args.now run.old.units run.old.state) result run.new }
{
    match args {
        [] => Ok(Items::new(alloc)),
        [v, rest @ ..] => {
            let first = entered_at(alloc, program, called, own, *v, run)?;
            let values = entered_all(alloc, program, more, others, rest, run)?;
            Ok(led_by(alloc, first, values)?)
        }
    }
}

fn copied(alloc: Global, values: &[Value]) -> Result<Items<Value>, WantOfMemory>
    ensures { IfOk result (λ r. r ≡ values.now) }
{
    let mut out = Items::new(alloc);
    for i in 0..values.len() {
        out.push(values[i])?;
    }
    Ok(out)
}

/// What a call gives whose body completes normally: the default value of the method's result, or null where it has none.
pub fn default_answer(program: &TypedProgram, m: MethodId) -> Value
    ensures { result ≡ default_in (result_of program.now.table m) }
{
    match method_result(&program.table, m) {
        Some(ty) => default_value(ty),
        None => Value::Null,
    }
}

pub fn answered(
    alloc: Global,
    program: &TypedProgram,
    m: MethodId,
    own: MethodId,
    v: Value,
    run: &mut Running,
) -> Result<Value, Halt>
    ensures { Does (c.answered program.now (result_of program.now.table m) (result_of program.now.table own) v run.old.units run.old.state) result run.new }
{
    let Some(called) = method_result(&program.table, m) else {
        return Ok(v);
    };
    let Some(own) = method_result(&program.table, own) else {
        return Ok(v);
    };
    let from = closed_erasure(alloc, &program.table, own);
    let to = closed_erasure(alloc, &program.table, called);
    if is_of(&program.table, from, to) {
        return Ok(v);
    }
    checked(alloc, program, run, Check::EntryGuard, to, v)
}
