//! Calls. The caller waits at its call, with the arguments taken from its stack.
ghost use Rattle.std.specs.Prelude.{◌≡◌, ◌≤◌, [], IfOk, IsTrue, OnErr, Some, drop, is_some, length, option_and_then, reverse, slice_get, take};
ghost use Rattle.jc_heap.specs.Signatures.{selected_as};
ghost use Rattle.jc_jvm.specs.Calls.{Moves, Quiet, arguments_of, called as call_of, called_by, entered, selecting_class, called_specially, called_statically};
ghost use Rattle.jc_jvm.specs.Frames.{frame_of};
ghost use Rattle.jc_jvm.specs.Stacked.{units_of};
ghost use Rattle.jc_rows.specs.Acts.{called_by_number};
ghost use Rattle.jc_stepping.specs.Done.{KeptWhenAsks, step_done};
ghost use Rattle.jc_stepping.specs.Room.{fit_in};
ghost use Rattle.jc_stepping.specs.Makes.{call_makes, method_makes, special_makes, static_makes, virtual_makes};
ghost use Rattle.jc_waiting.specs.Onwards.{state_of};

use crate::Did;
use crate::act::{null_pointer, stuck};
use crate::natives::call_native;
use jc_calls::{code_of, frame_on, has_arguments};
use jc_class_out::ClassModel;
use jc_heap::Classes;
use jc_jvm::{Cell, Ending, Frame, Native, Operands, Sort, Value, Waiting, World};
use jc_lookups::find_native;
use jc_rules::WantOfMemory;
use jc_waiting::{Onward, Stack};
use std::alloc::Global;
use std::mem;

// How many locals a value takes.
fn locals_taken(value: Value) -> usize
    ensures { result ≡ units_of value }
{
    match value {
        Value::Long(_) => 2,
        Value::Whole(_) | Value::Address(_) | Value::NullValue => 1,
    }
}

// Whether so many locals have room for arguments.
fn have_room(count: usize, arguments: &[Value]) -> bool
    ensures { result ≡ fit_in count arguments.now }
{
    match arguments {
        [] => true,
        [value, rest @ ..] => {
            let taken = locals_taken(*value);
            taken <= count && have_room(count - taken, rest)
        }
    }
}

// The method's frame runs, and its caller waits without so many values from the top of its stack.
fn enter(
    frame: Option<Frame>,
    count: usize,
    now: &mut Frame,
    world: &World,
    waiting: &mut Stack<Waiting>,
) -> Result<Onward, WantOfMemory>
    ensures step { IfOk result (λ on. entered world.now now.old waiting.old (drop count now.old.stack.values) frame ≡ Moves Quiet (state_of on world.now now.new waiting.new)) }
    ensures memory { OnErr result (IsTrue (is_some frame)) }
{
    match frame {
        Some(frame) => {
            now.stack.discard(count);
            let caller = mem::replace(now, frame);
            waiting.push(Waiting::Caller(caller))?;
            Ok(Onward::Runs)
        }
        None => Ok(Onward::Ends(Ending::Stuck)),
    }
}

// Whether the method has code and room for so many arguments from the top of a stack.
#[tactic(auto, using(crate::proofs::Framed::frame_rules))]
fn has_frame(
    classes: &[ClassModel],
    class: u64,
    method: u64,
    count: usize,
    stack: &Operands,
) -> bool
    requires { count ≤ length stack.now.values }
    ensures { result ≡ is_some (frame_of classes.now (class, method) (reverse (take count stack.now.values))) }
{
    match code_of(classes, class, method) {
        Some(code) => match stack.top(count) {
            Some(arguments) => have_room(code.locals as usize, arguments),
            None => false,
        },
        None => false,
    }
}

#[tactic(auto, using(crate::proofs::Framed::enters_not))]
fn call_as(
    alloc: Global,
    classes: &Classes,
    class: u64,
    method: u64,
    native: Option<Native>,
    count: usize,
    next: u32,
    now: &mut Frame,
    world: &mut World,
    waiting: &mut Stack<Waiting>,
) -> Result<Did, WantOfMemory>
    requires { count ≤ length now.old.stack.values }
    ensures step { IfOk result (λ did. called_by classes.now world.old next now.old waiting.old (class, method) (reverse (take count now.old.stack.values)) (drop count now.old.stack.values) native ≡ step_done classes.now did world.new now.new waiting.new) }
    ensures kept { IfOk result (λ did. KeptWhenAsks did world.old now.old waiting.old world.new now.new waiting.new) }
    ensures memory { OnErr result (IsTrue (method_makes classes.now world.old (class, method) (reverse (take count now.old.stack.values)) native)) }
{
    match native {
        Some(native) => call_native(alloc, classes, native, count, next, now, world, waiting),
        None => {
            if !has_frame(classes.models(), class, method, count, &now.stack) {
                return Ok(stuck());
            }
            let frame = frame_on(alloc, classes.models(), class, method, count, &now.stack)?;
            let on = enter(frame, count, now, world, waiting)?;
            Ok(Did::Moves(on))
        }
    }
}

// The method is called with so many arguments from the top of the frame's stack.
fn call(
    alloc: Global,
    classes: &Classes,
    target: Option<(u64, u64)>,
    count: usize,
    next: u32,
    now: &mut Frame,
    world: &mut World,
    waiting: &mut Stack<Waiting>,
) -> Result<Did, WantOfMemory>
    requires { count ≤ length now.old.stack.values }
    ensures step { IfOk result (λ did. call_of classes.now world.old next now.old waiting.old (reverse (take count now.old.stack.values)) (drop count now.old.stack.values) target ≡ step_done classes.now did world.new now.new waiting.new) }
    ensures kept { IfOk result (λ did. KeptWhenAsks did world.old now.old waiting.old world.new now.new waiting.new) }
    ensures memory { OnErr result (IsTrue (call_makes classes.now world.old (reverse (take count now.old.stack.values)) target)) }
{
    match target {
        Some((class, method)) => {
            let native = find_native(classes.models(), class, method);
            call_as(
                alloc, classes, class, method, native, count, next, now, world, waiting,
            )
        }
        None => Ok(stuck()),
    }
}

// The class by which a method is selected: an array has the methods of Object.
fn class_for(classes: &Classes, world: &World, address: u64) -> Option<u64>
    ensures { result ≡ selecting_class classes.now (slice_get world.now.heap address) }
{
    match world.heap.get(address) {
        Some(Cell::Instance { class, .. }) => Some(*class),
        Some(Cell::Array { .. }) => classes.object(),
        None => None,
    }
}

fn select(classes: &Classes, signature: Option<u64>, class: Option<u64>) -> Option<(u64, u64)>
    ensures { result ≡ option_and_then (selected_as classes.now signature) class }
{
    match class {
        Some(class) => classes.select(class, signature),
        None => None,
    }
}

// The object of a call with so many arguments, itself among them.
fn receiver(count: usize, stack: &Operands) -> Option<Value>
    requires { count ≤ length stack.now.values }
    ensures { result ≡ slice_get (reverse (take count stack.now.values)) 0 }
{
    match stack.top(count) {
        Some(arguments) => arguments.first().copied(),
        None => None,
    }
}

/// invokevirtual and invokeinterface.
#[tactic(auto, using(crate::proofs::Receivers::virtual_rules))]
pub fn call_virtual(
    alloc: Global,
    classes: &Classes,
    signature: Option<u64>,
    sorts: &[Sort],
    next: u32,
    now: &mut Frame,
    world: &mut World,
    waiting: &mut Stack<Waiting>,
) -> Result<Did, WantOfMemory>
    ensures step { IfOk result (λ did. called_by_number classes.now signature world.old next now.old waiting.old (arguments_of sorts.now now.old.stack.values) ≡ step_done classes.now did world.new now.new waiting.new) }
    ensures kept { IfOk result (λ did. KeptWhenAsks did world.old now.old waiting.old world.new now.new waiting.new) }
    ensures memory { OnErr result (IsTrue (virtual_makes classes.now signature world.old (arguments_of sorts.now now.old.stack.values))) }
{
    if !has_arguments(sorts, &now.stack) {
        return Ok(stuck());
    }
    match receiver(sorts.len(), &now.stack) {
        Some(Value::Address(at)) => {
            let target = select(classes, signature, class_for(classes, world, at));
            call(
                alloc,
                classes,
                target,
                sorts.len(),
                next,
                now,
                world,
                waiting,
            )
        }
        Some(Value::NullValue) => {
            let on = null_pointer(alloc, classes, now, world, waiting)?;
            Ok(Did::Moves(on))
        }
        _ => Ok(stuck()),
    }
}

/// invokespecial.
#[tactic(auto, using(crate::proofs::Receivers::special_rules))]
pub fn call_special(
    alloc: Global,
    classes: &Classes,
    target: Option<(u64, u64)>,
    sorts: &[Sort],
    next: u32,
    now: &mut Frame,
    world: &mut World,
    waiting: &mut Stack<Waiting>,
) -> Result<Did, WantOfMemory>
    ensures step { IfOk result (λ did. called_specially classes.now target world.old next now.old waiting.old (arguments_of sorts.now now.old.stack.values) ≡ step_done classes.now did world.new now.new waiting.new) }
    ensures kept { IfOk result (λ did. KeptWhenAsks did world.old now.old waiting.old world.new now.new waiting.new) }
    ensures memory { OnErr result (IsTrue (special_makes classes.now target world.old (arguments_of sorts.now now.old.stack.values))) }
{
    if !has_arguments(sorts, &now.stack) {
        return Ok(stuck());
    }
    match receiver(sorts.len(), &now.stack) {
        Some(Value::Address(_)) => call(
            alloc,
            classes,
            target,
            sorts.len(),
            next,
            now,
            world,
            waiting,
        ),
        Some(Value::NullValue) => {
            let on = null_pointer(alloc, classes, now, world, waiting)?;
            Ok(Did::Moves(on))
        }
        _ => Ok(stuck()),
    }
}

/// invokestatic of a method whose class needs no initialisation.
pub fn call_static(
    alloc: Global,
    classes: &Classes,
    class: u64,
    method: u64,
    sorts: &[Sort],
    next: u32,
    now: &mut Frame,
    world: &mut World,
    waiting: &mut Stack<Waiting>,
) -> Result<Did, WantOfMemory>
    ensures step { IfOk result (λ did. called_statically classes.now (class, method) world.old next now.old waiting.old (arguments_of sorts.now now.old.stack.values) ≡ step_done classes.now did world.new now.new waiting.new) }
    ensures kept { IfOk result (λ did. KeptWhenAsks did world.old now.old waiting.old world.new now.new waiting.new) }
    ensures memory { OnErr result (IsTrue (static_makes classes.now (class, method) world.old (arguments_of sorts.now now.old.stack.values))) }
{
    if !has_arguments(sorts, &now.stack) {
        return Ok(stuck());
    }
    call(
        alloc,
        classes,
        Some((class, method)),
        sorts.len(),
        next,
        now,
        world,
        waiting,
    )
}
