//! New objects, arrays and strings of literals.
ghost use Rattle.std.specs.Prelude.{◌≡◌, ◌&&◌, [], IfOk, IsTrue, None, OnErr};
ghost use Rattle.std.specs.List.{list_all};
ghost use Rattle.jc_jvm.specs.Calls.{Moves, Quiet, acts};
ghost use Rattle.jc_jvm.specs.Objects.{array_made, arrays_made, lengths_on, literal_pushed, object_made};
ghost use Rattle.jc_jvm.specs.Table.{first_initialised};
ghost use Rattle.jc_jvm.specs.Worlds.{interned_in};
ghost use Rattle.jc_stepping.specs.Makes.{array_makes, class_makes, has_room as room_by, have_strings, is_natural as natural_by, naturals_among, nest_makes, natural_on as natural_on_top};
ghost use Rattle.jc_stepping.specs.Lengths.{is_length as length_by, is_natural_length as natural_length};
ghost use Rattle.jc_waiting.specs.Onwards.{state_of};

use jc_heap::{Classes, new_array, new_object, push_literal};
use jc_jvm::{Ending, Fault, Frame, Operands, Shape, Value, Waiting, World};
use jc_nests::new_nest;
use jc_plain::throw_in;
use jc_rules::{Items, WantOfMemory};
use jc_waiting::{Onward, Stack, initialise_first, is_open, settle};
use std::alloc::Global;

// Whether a stack has room for a reference.
#[tactic(auto, using(crate::proofs::Rooms::room_rules))]
fn has_room(stack: &mut Operands) -> bool
    ensures kept { stack.new ≡ stack.old }
    ensures room { result ≡ room_by stack.old }
{
    if stack.push(Value::NullValue) {
        let _top = stack.pop();
        true
    } else {
        false
    }
}

/// A string of the constant pool, which wasn't used before. Without a class for it or room on the stack nothing is made.
#[tactic(auto, using(crate::proofs::Rooms::literal_stuck, crate::proofs::Rooms::literal_nowhere))]
pub fn make_text(
    alloc: Global,
    classes: &Classes,
    text: &Items<u16>,
    next: u32,
    now: &mut Frame,
    world: &mut World,
    waiting: &mut Stack<Waiting>,
) -> Result<Onward, WantOfMemory>
    requires { interned_in world.old.interned text.now ≡ None }
    ensures step { IfOk result (λ on. acts classes.now waiting.old (literal_pushed classes.now text.now world.old next now.old) ≡ Moves Quiet (state_of on world.new now.new waiting.new)) }
    ensures memory { OnErr result (IsTrue (have_strings classes.now && room_by now.old.stack)) }
{
    let Some(_place) = classes.string() else {
        return Ok(Onward::Ends(Ending::Stuck));
    };
    if !has_room(&mut now.stack) {
        return Ok(Onward::Ends(Ending::Stuck));
    }
    let act = push_literal(alloc, classes, text, world, next, now)?;
    settle(alloc, classes, act, now, world, waiting)
}

fn is_natural(length: i32) -> bool
    ensures { result ≡ natural_by length }
{
    length >= 0
}

// Whether the length on top isn't negative, where one is there.
#[tactic(auto, using(crate::proofs::Rooms::length_rules))]
fn natural_on(stack: &Operands) -> Option<bool>
    ensures { result ≡ natural_on_top stack.now.values }
{
    match stack.top(1) {
        Some(values) => match values.first().copied() {
            Some(Value::Whole(length)) => Some(is_natural(length)),
            _ => None,
        },
        None => None,
    }
}

/// newarray and anewarray. A negative length throws before anything is made.
#[tactic(auto, using(crate::proofs::Rooms::array_rules))]
pub fn make_array(
    alloc: Global,
    classes: &Classes,
    of: Shape,
    next: u32,
    now: &mut Frame,
    world: &mut World,
    waiting: &mut Stack<Waiting>,
) -> Result<Onward, WantOfMemory>
    ensures step { IfOk result (λ on. acts classes.now waiting.old (array_made of world.old next now.old now.old.stack.values) ≡ Moves Quiet (state_of on world.new now.new waiting.new)) }
    ensures memory { OnErr result (IsTrue (array_makes classes.now now.old.stack.values)) }
{
    match natural_on(&now.stack) {
        Some(true) => {
            let act = new_array(alloc, of, world, next, now)?;
            settle(alloc, classes, act, now, world, waiting)
        }
        Some(false) => {
            let act = throw_in(Fault::NegativeArraySize, now);
            settle(alloc, classes, act, now, world, waiting)
        }
        None => Ok(Onward::Ends(Ending::Stuck)),
    }
}

fn is_length(value: &Value) -> bool
    ensures { result ≡ length_by value.now }
{
    match value {
        Value::Whole(_) => true,
        Value::Long(_) | Value::Address(_) | Value::NullValue => false,
    }
}

fn is_natural_length(value: &Value) -> bool
    ensures { result ≡ natural_length value.now }
{
    match value {
        Value::Whole(length) => is_natural(*length),
        Value::Long(_) | Value::Address(_) | Value::NullValue => false,
    }
}

fn are_lengths(values: &[Value]) -> bool
    ensures { result ≡ list_all length_by values.now }
{
    values.iter().all(is_length)
}

fn are_natural(values: &[Value]) -> bool
    ensures { result ≡ list_all natural_length values.now }
{
    values.iter().all(is_natural_length)
}

// Whether none of so many lengths on top is negative, where they are there.
#[tactic(auto, using(crate::proofs::Nests::nest_rules))]
fn naturals_on(count: usize, stack: &Operands) -> Option<bool>
    ensures { result ≡ naturals_among (lengths_on count [] stack.now.values) }
{
    match stack.top(count) {
        Some(values) => {
            if are_lengths(values) {
                Some(are_natural(values))
            } else {
                None
            }
        }
        None => None,
    }
}

/// multianewarray.
#[tactic(auto, using(crate::proofs::Nests::made_rules))]
pub fn make_nest(
    alloc: Global,
    classes: &Classes,
    shape: Shape,
    dims: u8,
    next: u32,
    now: &mut Frame,
    world: &mut World,
    waiting: &mut Stack<Waiting>,
) -> Result<Onward, WantOfMemory>
    ensures step { IfOk result (λ on. acts classes.now waiting.old (arrays_made shape dims world.old next now.old) ≡ Moves Quiet (state_of on world.new now.new waiting.new)) }
    ensures memory { OnErr result (IsTrue (nest_makes classes.now shape dims now.old.stack.values)) }
{
    if dims < 1 || u64::from(dims) > shape.dims {
        return Ok(Onward::Ends(Ending::Stuck));
    }
    match naturals_on(usize::from(dims), &now.stack) {
        Some(true) => {
            let act = new_nest(alloc, shape, dims, world, next, now)?;
            settle(alloc, classes, act, now, world, waiting)
        }
        Some(false) => {
            let act = throw_in(Fault::NegativeArraySize, now);
            settle(alloc, classes, act, now, world, waiting)
        }
        None => Ok(Onward::Ends(Ending::Stuck)),
    }
}

// Without room for it on the stack nothing is made.
#[tactic(auto, using(crate::proofs::Rooms::object_stuck))]
fn make_open(
    alloc: Global,
    classes: &Classes,
    class: u64,
    next: u32,
    now: &mut Frame,
    world: &mut World,
    waiting: &mut Stack<Waiting>,
) -> Result<Onward, WantOfMemory>
    ensures step { IfOk result (λ on. acts classes.now waiting.old (object_made classes.now class world.old next now.old) ≡ Moves Quiet (state_of on world.new now.new waiting.new)) }
    ensures memory { OnErr result (IsTrue (room_by now.old.stack)) }
{
    if !has_room(&mut now.stack) {
        return Ok(Onward::Ends(Ending::Stuck));
    }
    let act = new_object(alloc, classes, class, world, next, now)?;
    settle(alloc, classes, act, now, world, waiting)
}

/// new.
pub fn make_object(
    alloc: Global,
    classes: &Classes,
    class: u64,
    next: u32,
    now: &mut Frame,
    world: &mut World,
    waiting: &mut Stack<Waiting>,
) -> Result<Onward, WantOfMemory>
    ensures step { IfOk result (λ on. first_initialised classes.now world.old now.old waiting.old class (acts classes.now waiting.old (object_made classes.now class world.old next now.old)) ≡ Moves Quiet (state_of on world.new now.new waiting.new)) }
    ensures memory { OnErr result (IsTrue (class_makes classes.now world.old class (room_by now.old.stack))) }
{
    if is_open(world, class) {
        make_open(alloc, classes, class, next, now, world, waiting)
    } else {
        initialise_first(alloc, classes, class, now, world, waiting)
    }
}
