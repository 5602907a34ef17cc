//! Tests of the classes of references.
ghost use Rattle.std.specs.Prelude.{◌≡◌};
ghost use Rattle.jc_heaps.specs.Making.{checked, passes, fail};
ghost use Rattle.jc_meaning.specs.Kept.{typed_keeping};
ghost use Rattle.jc_values.specs.Doing.{Does};

use crate::halt::{Halt, Running};
use crate::making::make_plain;
use jc_layout::is_of;
use jc_rules::Items;
use jc_running::{Check, Value};
use jc_typed::TypedProgram;
use jc_types::{Env, Erased, Table, Ty, erasure};
use std::alloc::Global;

/// The erasure of a closed type.
pub fn closed_erasure(alloc: Global, table: &Table, ty: &Ty) -> Erased
    ensures { result ≡ (typed_keeping table.now).erased ty.now }
{
    let none = Env {
        bounds: Items::new(alloc),
    };
    erasure(table, &none, ty)
}

/// Whether a reference is null or refers to an object of an erased type.
pub fn passes(
    alloc: Global,
    table: &Table,
    run: &Running,
    to: Erased,
    v: Value,
) -> Result<bool, Halt>
    ensures { Does (passes (typed_keeping table.now) table.now to v run.now.units run.now.state) result run.now }
{
    match v {
        Value::Null => Ok(true),
        Value::Address(a) => match run.state.heap.get(a as usize) {
            Some(object) => Ok(is_of(table, closed_erasure(alloc, table, &object.kept), to)),
            None => Err(Halt::Wrong),
        },
        Value::Whole(_) => Err(Halt::Wrong),
        Value::Long(_) => Err(Halt::Wrong),
    }
}

// A failed check spends a unit, is noted, and throws.
fn fail(
    alloc: Global,
    program: &TypedProgram,
    run: &mut Running,
    check: Check,
) -> Result<Value, Halt>
    ensures { Does (fail (typed_keeping program.now.table) program.now.table program.now.known check run.old.units run.old.state) result run.new }
{
    if run.units == 0 {
        return Err(Halt::Going);
    }
    run.units -= 1;
    run.state.shown.failed.push(check)?;
    let thrown = make_plain(alloc, &program.table, run, program.known.thrown.class_cast)?;
    Err(Halt::Thrown(thrown))
}

/// A value that has to be null or of an erased type (JLS 5.5.3, 15.16).
pub fn checked(
    alloc: Global,
    program: &TypedProgram,
    run: &mut Running,
    check: Check,
    to: Erased,
    v: Value,
) -> Result<Value, Halt>
    ensures { Does (checked (typed_keeping program.now.table) program.now.table program.now.known check to v run.old.units run.old.state) result run.new }
{
    if passes(alloc, &program.table, run, to, v)? {
        Ok(v)
    } else {
        fail(alloc, program, run, check)
    }
}
