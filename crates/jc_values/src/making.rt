//! New objects and arrays in a heap.
ghost use Rattle.std.specs.Prelude.{◌≡◌, []};
ghost use Rattle.jc_heaps.specs.Making.{address_of, given, make, make_plain};
ghost use Rattle.jc_meaning.specs.Kept.{typed_keeping};
ghost use Rattle.jc_values.specs.Doing.{Does};

use crate::halt::{Halt, Running};
use jc_heaps::{Given, Object};
use jc_layout::new_fields;
use jc_rules::Items;
use jc_running::Value;
use jc_typed::TypedProgram;
use jc_types::{ClassId, Table, Ty};
use std::alloc::Global;

/// A new object or array, and its address, which is the number of those made before it.
pub fn make(run: &mut Running, object: Object<Ty>) -> Result<u64, Halt>
    ensures { Does (make object run.old.units run.old.state) result run.new }
{
    let at = run.state.heap.len() as u64;
    run.state.heap.push(object)?;
    Ok(at)
}

/// A new object of a class without parameters, with its fields as new.
pub fn make_plain(alloc: Global, table: &Table, run: &mut Running, k: ClassId) -> Result<u64, Halt>
    ensures { Does (make_plain (typed_keeping table.now) table.now k run.old.units run.old.state) result run.new }
{
    let parts = new_fields(alloc, table, k)?;
    let kept = Ty::Class {
        id: k,
        args: Items::new(alloc),
    };
    make(run, Object { kept, parts })
}

/// The address of a reference that isn't null; null throws (JLS 15.6).
pub fn address_of(
    alloc: Global,
    program: &TypedProgram,
    run: &mut Running,
    v: Value,
) -> Result<u64, Halt>
    ensures { Does (address_of (typed_keeping program.now.table) program.now.table program.now.known v run.old.units run.old.state) result run.new }
{
    match v {
        Value::Address(a) => Ok(a),
        Value::Null => {
            let thrown = make_plain(
                alloc,
                &program.table,
                run,
                program.known.thrown.null_pointer,
            )?;
            Err(Halt::Thrown(thrown))
        }
        Value::Whole(_) => Err(Halt::Wrong),
        Value::Long(_) => Err(Halt::Wrong),
    }
}

/// What an operator gave; a division by zero throws (JLS 15.17.2).
pub fn given(
    alloc: Global,
    program: &TypedProgram,
    run: &mut Running,
    gave: Given,
) -> Result<Value, Halt>
    ensures { Does (given (typed_keeping program.now.table) program.now.table program.now.known gave run.old.units run.old.state) result run.new }
{
    match gave {
        Given::Gives(v) => Ok(v),
        Given::ByZero => {
            let thrown = make_plain(alloc, &program.table, run, program.known.thrown.arithmetic)?;
            Err(Halt::Thrown(thrown))
        }
        Given::Unfit => Err(Halt::Wrong),
    }
}
