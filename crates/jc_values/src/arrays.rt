//! Reads and stores of elements (JLS 15.13, 15.26.1).
ghost use Rattle.std.specs.Prelude.{◌≡◌, replicate, IfOk};
ghost use Rattle.jc_heaps.specs.Making.{kept_as};
ghost use Rattle.jc_values.specs.Doing.{Does};
ghost use Rattle.jc_values.specs.Idle.{get_element, set_element, storable_as, length_of};

use crate::halt::{Halt, Running};
use crate::making::{address_of, make_plain};
use crate::parts::set_part;
use crate::testing::{closed_erasure, passes};
use jc_layout::element_of;
use jc_numbers::element_as;
use jc_rules::{Items, WantOfMemory};
use jc_running::Value;
use jc_typed::TypedProgram;
use jc_types::{Base, Erased};
use std::alloc::Global;

/// An element; null throws, and so does a place outside of the array (JLS 15.13.1).
pub fn get_element(
    alloc: Global,
    program: &TypedProgram,
    run: &mut Running,
    array: Value,
    index: Value,
) -> Result<Value, Halt>
    ensures { Does (get_element program.now array index run.old.units run.old.state) result run.new }
{
    let a = address_of(alloc, program, run, array)?;
    let Some(object) = run.state.heap.get(a as usize) else {
        return Err(Halt::Wrong);
    };
    let Value::Whole(n) = index else {
        return Err(Halt::Wrong);
    };
    if n >= 0 {
        if let Some(v) = object.parts.get(n.unsigned_abs() as usize) {
            return Ok(*v);
        }
    }
    let thrown = make_plain(
        alloc,
        &program.table,
        run,
        program.known.thrown.out_of_bounds,
    )?;
    Err(Halt::Thrown(thrown))
}

// Whether an array of elements of an erased type can have a value as an element (JLS 10.5).
fn storable(
    alloc: Global,
    program: &TypedProgram,
    run: &Running,
    to: Erased,
    v: Value,
) -> Result<bool, Halt>
    ensures { Does (storable_as program.now to v run.now.units run.now.state) result run.now }
{
    match v {
        Value::Address(_) => passes(alloc, &program.table, run, to, v),
        Value::Null => Ok(true),
        Value::Whole(_) => Ok(true),
        Value::Long(_) => Ok(true),
    }
}

// What an array of elements of an erased type keeps of a value: an int is narrowed to them.
fn kept_as(to: Erased, v: Value) -> Value
    ensures { result ≡ kept_as to v }
{
    if to.dims != 0 {
        return v;
    }
    match to.base {
        Base::Prim(p) => element_as(p, v),
        Base::Class(_) => v,
        Base::NullTy => v,
    }
}

/// A store of an element; null and a place outside of the array throw, and so does an element that isn't of the array's element type
/// (JLS 15.26.1).
pub fn set_element(
    alloc: Global,
    program: &TypedProgram,
    run: &mut Running,
    array: Value,
    index: Value,
    v: Value,
) -> Result<(), Halt>
    ensures { Does (set_element program.now array index v run.old.units run.old.state) result run.new }
{
    let a = address_of(alloc, program, run, array)?;
    let Some(object) = run.state.heap.get(a as usize) else {
        return Err(Halt::Wrong);
    };
    let Value::Whole(n) = index else {
        return Err(Halt::Wrong);
    };
    let to = element_of(closed_erasure(alloc, &program.table, &object.kept));
    let at = n.unsigned_abs();
    if n < 0 || (at as usize) >= object.parts.len() {
        let thrown = make_plain(
            alloc,
            &program.table,
            run,
            program.known.thrown.out_of_bounds,
        )?;
        return Err(Halt::Thrown(thrown));
    }
    if storable(alloc, program, run, to, v)? {
        set_part(alloc, run, a, at as u64, kept_as(to, v));
        return Ok(());
    }
    let thrown = make_plain(alloc, &program.table, run, program.known.thrown.array_store)?;
    Err(Halt::Thrown(thrown))
}

/// The length of an array; null throws (JLS 10.7).
pub fn length_of(
    alloc: Global,
    program: &TypedProgram,
    run: &mut Running,
    array: Value,
) -> Result<Value, Halt>
    ensures { Does (length_of program.now array run.old.units run.old.state) result run.new }
{
    let a = address_of(alloc, program, run, array)?;
    let Some(object) = run.state.heap.get(a as usize) else {
        return Err(Halt::Wrong);
    };
    let length = object.parts.len();
    if length > 2147483647 {
        return Err(Halt::WantOfMemory);
    }
    Ok(Value::Whole(length as i32))
}

/// A value a number of times.
pub fn repeated(alloc: Global, value: Value, count: u64) -> Result<Items<Value>, WantOfMemory>
    ensures { IfOk result (λ r. r ≡ replicate count value) }
{
    let mut out = Items::new(alloc);
    for i in 0..count {
        out.push(value)?;
    }
    Ok(out)
}
