//! Strings, and those of literals (JLS 3.10.5).
ghost use Rattle.std.specs.Prelude.{◌≡◌, ◌<◌, map, IfOk, None, Some};
ghost use Rattle.jc_heaps.specs.Making.{char_value, constant_string, interned_in, make_string};
ghost use Rattle.jc_meaning.specs.Kept.{typed_keeping};
ghost use Rattle.jc_values.specs.Doing.{Does};

use crate::halt::{Halt, Running};
use crate::making::{make, make_plain};
use crate::parts::set_part;
use jc_heaps::{Interned, Object};
use jc_layout::slot_of;
use jc_rules::{Boxed, Items, WantOfMemory};
use jc_running::Value;
use jc_typed::TypedProgram;
use jc_types::{Primitive, Ty};
use std::alloc::Global;

// The units of a string as the elements of its array.
fn chars(alloc: Global, units: &[u16]) -> Result<Items<Value>, WantOfMemory>
    ensures { IfOk result (λ r. r ≡ map char_value units.now) }
{
    let mut out = Items::new(alloc);
    for i in 0..units.len() {
        out.push(Value::Whole(units[i] as i32))?;
    }
    Ok(out)
}

/// A new string: the array of its units, and then the object that has it.
pub fn make_string(
    alloc: Global,
    program: &TypedProgram,
    run: &mut Running,
    units: &[u16],
) -> Result<Value, Halt>
    ensures { Does (make_string (typed_keeping program.now.table) program.now.table program.now.known units.now run.old.units run.old.state) result run.new }
{
    let of = Boxed::new(alloc, Ty::Prim(Primitive::Char))?;
    let kept = Ty::Array { of, further: 0 };
    let parts = chars(alloc, units)?;
    let array = make(run, Object { kept, parts })?;
    let at = make_plain(alloc, &program.table, run, program.known.string)?;
    match slot_of(alloc, &program.table, program.known.chars)? {
        None => Err(Halt::Wrong),
        Some(slot) => {
            set_part(alloc, run, at, slot, Value::Address(array));
            Ok(Value::Address(at))
        }
    }
}

// The address of the string that stands for all constants with these units, if it is made.
fn interned_in(strings: &[Interned], units: &[u16]) -> Option<u64>
    ensures { result ≡ interned_in units.now strings.now }
{
    let mut rest = strings;
    while let [first, more @ ..] = rest {
        if first.units.slice() == units {
            return Some(first.address);
        }
        rest = more;
    }
    None
}

fn copied(alloc: Global, units: &[u16]) -> Result<Items<u16>, WantOfMemory>
    ensures { IfOk result (λ r. r ≡ units.now) }
{
    let mut out = Items::new(alloc);
    for i in 0..units.len() {
        out.push(units[i])?;
    }
    Ok(out)
}

/// The one string of equal constants, which is made at its first use (JLS 3.10.5, 15.28).
pub fn constant_string(
    alloc: Global,
    program: &TypedProgram,
    run: &mut Running,
    units: &[u16],
) -> Result<Value, Halt>
    ensures { Does (constant_string (typed_keeping program.now.table) program.now.table program.now.known units.now run.old.units run.old.state) result run.new }
{
    if let Some(address) = interned_in(run.state.strings.slice(), units) {
        return Ok(Value::Address(address));
    }
    let made = make_string(alloc, program, run, units)?;
    let Value::Address(address) = made else {
        return Err(Halt::Wrong);
    };
    let units = copied(alloc, units)?;
    run.state.strings.push(Interned { units, address })?;
    Ok(made)
}
