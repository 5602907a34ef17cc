//! Fields of objects.
ghost use Rattle.std.specs.Prelude.{◌≡◌, slice_get};
ghost use Rattle.jc_jvm.specs.Objects.{field_pushed, slot_in as value_in, field_loaded, holds, field_stored};
ghost use Rattle.jc_plain.specs.Acted.{acted};

use jc_jvm::{Cell, Fault, Frame, Sort, Value, World};
use jc_plain::{Act, go_to, is_of_sort, push, throw_in};

fn slot_in(world: &World, at: u64, slot: usize) -> Option<Value>
    ensures { result ≡ value_in (slice_get world.now.heap at) slot }
{
    match world.heap.get(at) {
        Some(Cell::Instance { fields, .. }) => fields.get(slot),
        _ => None,
    }
}

/// A value of a field onto the stack, where it is there and of the field's sort.
pub fn push_field(sort: Sort, next: u32, now: &mut Frame, value: Option<Value>) -> Act
    ensures { field_pushed sort next now.old now.old.stack.values value ≡ acted result now.new }
{
    match value {
        Some(value) => {
            if is_of_sort(sort, value) {
                push(next, now, value)
            } else {
                Act::Fails
            }
        }
        None => Act::Fails,
    }
}

/// getfield of the field in this slot.
pub fn load_field(sort: Sort, slot: usize, world: &World, next: u32, now: &mut Frame) -> Act
    ensures { field_loaded sort slot world.now next now.old now.old.stack.values ≡ acted result now.new }
{
    match now.stack.pop() {
        Some(Value::Address(at)) => push_field(sort, next, now, slot_in(world, at, slot)),
        Some(Value::NullValue) => throw_in(Fault::NullPointer, now),
        _ => Act::Fails,
    }
}

fn is_held(sort: Sort, world: &World, at: u64, slot: usize) -> bool
    ensures { result ≡ holds sort (value_in (slice_get world.now.heap at) slot) }
{
    match slot_in(world, at, slot) {
        Some(old) => is_of_sort(sort, old),
        None => false,
    }
}

/// putfield of the field in this slot.
pub fn store_field(sort: Sort, slot: usize, world: &mut World, next: u32, now: &mut Frame) -> Act
    ensures { field_stored sort slot world.old next now.old now.old.stack.values ≡ (world.new, acted result now.new) }
{
    match (now.stack.pop(), now.stack.pop()) {
        (Some(value), Some(Value::Address(at))) => {
            if is_of_sort(sort, value) && is_held(sort, world, at, slot) {
                world.heap.set(at, slot, value);
                go_to(next, now)
            } else {
                Act::Fails
            }
        }
        (Some(value), Some(Value::NullValue)) => {
            if is_of_sort(sort, value) {
                throw_in(Fault::NullPointer, now)
            } else {
                Act::Fails
            }
        }
        _ => Act::Fails,
    }
}
