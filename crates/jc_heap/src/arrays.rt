//! Lengths of arrays, and new arrays.
ghost use Rattle.std.specs.Prelude.{◌≡◌, IfOk, OnErr, slice_get};
ghost use Rattle.jc_jvm.specs.Objects.{length_pushed, array_length as length_of, array_made};
ghost use Rattle.jc_jvm.specs.Types.{zero_of};
ghost use Rattle.jc_jvm.specs.Worlds.{zeros as zeros_of, with_array, next_address};
ghost use Rattle.jc_plain.specs.Acted.{acted};

use crate::names::shape_sort;
use jc_jvm::{Cell, Fault, Frame, Shape, Slots, Sort, Value, World};
use jc_plain::{Act, push, throw_in};
use jc_rules::WantOfMemory;
use std::alloc::Global;

fn push_length(world: &World, at: u64, next: u32, now: &mut Frame) -> Act
    ensures { length_pushed (slice_get world.now.heap at) next now.old now.old.stack.values ≡ acted result now.new }
{
    match world.heap.get(at) {
        Some(Cell::Array { items, .. }) => push(next, now, Value::Whole(items.len() as i32)),
        _ => Act::Fails,
    }
}

/// arraylength.
pub fn array_length(world: &World, next: u32, now: &mut Frame) -> Act
    ensures { length_of world.now next now.old now.old.stack.values ≡ acted result now.new }
{
    match now.stack.pop() {
        Some(Value::Address(at)) => push_length(world, at, next, now),
        Some(Value::NullValue) => throw_in(Fault::NullPointer, now),
        _ => Act::Fails,
    }
}

/// The value that a variable of a sort begins with.
pub fn zero(sort: Sort) -> Value
    ensures { result ≡ zero_of sort }
{
    match sort {
        Sort::WholeSort => Value::Whole(0),
        Sort::LongSort => Value::Long(0),
        Sort::ReferenceSort => Value::NullValue,
    }
}

fn zeros(alloc: Global, of: Shape, count: usize) -> Result<Slots<Value>, WantOfMemory>
    ensures { IfOk result (λ items. items ≡ zeros_of of count) }
{
    let value = zero(shape_sort(of));
    let mut items = Vec::with_capacity(alloc, count)?;
    for made in 0..count {
        items.push(value)?;
    }
    Ok(Slots::of(items))
}

/// A new array, whose elements hold their zeros, and its address. Where memory is lacking nothing is made.
pub fn make_array(
    alloc: Global,
    of: Shape,
    count: usize,
    world: &mut World,
) -> Result<u64, WantOfMemory>
    ensures ok { IfOk result (λ at. (at ≡ next_address world.old) × (world.new ≡ with_array of count world.old)) }
    ensures err { OnErr result (world.new ≡ world.old) }
{
    let items = zeros(alloc, of, count)?;
    let address = world.heap.len() as u64;
    world.heap.push(Cell::Array { of, items })?;
    Ok(address)
}

/// newarray and anewarray. A negative length throws before anything is made.
pub fn new_array(
    alloc: Global,
    of: Shape,
    world: &mut World,
    next: u32,
    now: &mut Frame,
) -> Result<Act, WantOfMemory>
    ensures { IfOk result (λ act. array_made of world.old next now.old now.old.stack.values ≡ (world.new, acted act now.new)) }
{
    match now.stack.pop() {
        Some(Value::Whole(count)) => {
            if count < 0 {
                Ok(throw_in(Fault::NegativeArraySize, now))
            } else {
                let address = make_array(alloc, of, count as usize, world)?;
                Ok(push(next, now, Value::Address(address)))
            }
        }
        _ => Ok(Act::Fails),
    }
}
