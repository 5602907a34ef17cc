//! Variables, fields and elements by their places.
ghost use Rattle.std.specs.Prelude.{◌≡◌, slice_set, slice_get, Ok};
ghost use Rattle.jc_running.specs.Outcomes.{Val, bind};
ghost use Rattle.jc_heaps.specs.States.{local, set_local, set_part, object_at, some_or_wrong};
ghost use Rattle.jc_values.specs.Doing.{Does};
ghost use Rattle.jc_values.specs.Idle.{get_field, set_field};

use crate::halt::{Halt, Running};
use crate::making::address_of;
use jc_layout::slot_of;
use jc_rules::Items;
use jc_running::Value;
use jc_typed::TypedProgram;
use jc_types::FieldId;
use std::alloc::Global;
use std::mem;

/// Puts a value at a place, if there is one.
pub fn put<T: Drop>(alloc: Global, items: &mut Items<T>, at: usize, value: T)
    ensures { items.new ≡ slice_set items.old at value }
{
    if at < items.len() {
        let mut list = mem::replace(items, Items::new(alloc)).into_vec();
        list[at] = value;
        *items = Items::of(list);
    }
}

/// A variable of the running method.
pub fn local(run: &Running, n: u64) -> Result<Value, Halt>
    ensures { Does (local n run.now.units run.now.state) result run.now }
{
    match run.state.locals.get(n as usize) {
        Some(v) => Ok(*v),
        None => Err(Halt::Wrong),
    }
}

pub fn set_local(alloc: Global, run: &mut Running, n: u64, v: Value)
    ensures { set_local n v run.old.units run.old.state ≡ Val tt run.new.units run.new.state }
{
    put(alloc, &mut run.state.locals, n as usize, v);
}

/// A field or an element of what an address stands for.
pub fn set_part(alloc: Global, run: &mut Running, a: u64, n: u64, v: Value)
    ensures { set_part a n v run.old.units run.old.state ≡ Val tt run.new.units run.new.state }
{
    if (a as usize) < run.state.heap.len() {
        let mut heap = mem::replace(&mut run.state.heap, Items::new(alloc)).into_vec();
        let object = &mut heap[a as usize];
        put(alloc, &mut object.parts, n as usize, v);
        run.state.heap = Items::of(heap);
    }
}

/// The part at a place of what an address stands for.
pub fn part_at(run: &Running, a: u64, n: u64) -> Result<Value, Halt>
    ensures { Does (bind (object_at a) (λ o. some_or_wrong (slice_get o.parts n)) run.now.units run.now.state) result run.now }
{
    match run.state.heap.get(a as usize) {
        Some(object) => match object.parts.get(n as usize) {
            Some(v) => Ok(*v),
            None => Err(Halt::Wrong),
        },
        None => Err(Halt::Wrong),
    }
}

/// A field of an object; null throws (JLS 15.11.1).
pub fn get_field(
    alloc: Global,
    program: &TypedProgram,
    run: &mut Running,
    f: FieldId,
    of: Value,
) -> Result<Value, Halt>
    ensures { Does (get_field program.now f of run.old.units run.old.state) result run.new }
{
    let a = address_of(alloc, program, run, of)?;
    let Some(object) = run.state.heap.get(a as usize) else {
        return Err(Halt::Wrong);
    };
    let Some(slot) = slot_of(alloc, &program.table, f)? else {
        return Err(Halt::Wrong);
    };
    match object.parts.get(slot as usize) {
        Some(v) => Ok(*v),
        None => Err(Halt::Wrong),
    }
}

pub fn set_field(
    alloc: Global,
    program: &TypedProgram,
    run: &mut Running,
    f: FieldId,
    of: Value,
    v: Value,
) -> Result<(), Halt>
    ensures { Does (set_field program.now f of v run.old.units run.old.state) result run.new }
{
    let a = address_of(alloc, program, run, of)?;
    let Some(slot) = slot_of(alloc, &program.table, f)? else {
        return Err(Halt::Wrong);
    };
    set_part(alloc, run, a, slot, v);
    Ok(())
}
