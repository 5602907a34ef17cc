//! The native methods of the library.
ghost use Rattle.std.specs.Int.{w32, cast_unsigned};
ghost use Rattle.jc_running.specs.Outcomes.{bind, behind, give};
ghost use Rattle.jc_running.specs.declared.value.Value.TheVariants.{Null};
ghost use Rattle.jc_heaps.specs.States.{local};
ghost use Rattle.std.specs.Prelude.{◌≡◌, ◌%◌, IfOk, slice_get};
ghost use Rattle.jc_heaps.specs.Making.{exit_with, identity_hash, put_byte, take_byte};
ghost use Rattle.jc_meaning.specs.Kept.{typed_keeping};
ghost use Rattle.jc_meaning.specs.Meaning.{class_name};
ghost use Rattle.jc_meaning.specs.Natives.{address_in, native_act, native_of, whole_in};
ghost use Rattle.jc_meaning.specs.declared.target.Native.TheVariants as n;
ghost use Rattle.jc_values.specs.Doing.{Does};

use crate::halt::{Halt, Running};
use crate::names::{name_of, units_of};
use crate::parts::local;
use crate::strings::make_string;
use crate::testing::closed_erasure;
use jc_meaning::Native;
use jc_numbers::whole_of;
use jc_rules::{Text, WantOfMemory};
use jc_running::Value;
use jc_typed::{Natives, TypedProgram};
use jc_types::MethodId;
use std::alloc::Global;

/// Which native method this is, if it is one.
pub fn native_of(natives: &Natives, m: MethodId) -> Option<Native>
    ensures { result ≡ native_of natives.now m }
{
    if m.0 == natives.hash_code.0 {
        Some(Native::HashCode)
    } else if m.0 == natives.class_name.0 {
        Some(Native::ClassName)
    } else if m.0 == natives.thrown_name.0 {
        Some(Native::ClassName)
    } else if m.0 == natives.put.0 {
        Some(Native::Put)
    } else if m.0 == natives.read_byte.0 {
        Some(Native::ReadByte)
    } else if m.0 == natives.halt.0 {
        Some(Native::Halt)
    } else {
        None
    }
}

fn put_byte(run: &mut Running, b: u8) -> Result<(), Halt>
    ensures { Does (put_byte b run.old.units run.old.state) result run.new }
{
    if run.units == 0 {
        return Err(Halt::Going);
    }
    run.units -= 1;
    run.state.shown.output.push(b)?;
    Ok(())
}

// The next byte of the input, or -1.
fn take_byte(run: &mut Running) -> Result<Value, Halt>
    ensures { Does (take_byte run.old.units run.old.state) result run.new }
{
    if run.state.input.is_empty() {
        return Ok(Value::Whole(-1));
    }
    if run.units == 0 {
        return Err(Halt::Going);
    }
    if run.state.shown.taken == u64::MAX {
        return Err(Halt::WantOfMemory);
    }
    run.units -= 1;
    run.state.shown.taken += 1;
    match run.state.input.take() {
        Some(b) => Ok(Value::Whole(b as i32)),
        None => Ok(Value::Whole(-1)),
    }
}

fn put(run: &mut Running) -> Result<Value, Halt>
    ensures { Does (bind (whole_in 0) (λ n. behind (put_byte (cast_unsigned w32 n % 256)) (give Null)) run.old.units run.old.state) result run.new }
{
    let v = local(run, 0)?;
    let Some(n) = whole_of(v) else {
        return Err(Halt::Wrong);
    };
    put_byte(run, (n.cast_unsigned() % 256) as u8)?;
    Ok(Value::Null)
}

fn halt(run: &mut Running) -> Result<Value, Halt>
    ensures { Does (bind (whole_in 0) exit_with run.old.units run.old.state) result run.new }
{
    let v = local(run, 0)?;
    let Some(n) = whole_of(v) else {
        return Err(Halt::Wrong);
    };
    if run.units == 0 {
        return Err(Halt::Going);
    }
    run.units -= 1;
    Err(Halt::Exited(n))
}

// The number of objects that were made before this one, modulo 2^31.
fn identity_hash(run: &Running) -> Result<Value, Halt>
    ensures { Does (bind (local 0) (λ v. bind (address_in v) (λ a. give (identity_hash a))) run.now.units run.now.state) result run.now }
{
    match local(run, 0)? {
        Value::Address(a) => Ok(Value::Whole((a % 2147483648) as i32)),
        Value::Whole(_) => Err(Halt::Wrong),
        Value::Long(_) => Err(Halt::Wrong),
        Value::Null => Err(Halt::Wrong),
    }
}

// A new string with the name of the receiver's class.
fn named(alloc: Global, program: &TypedProgram, run: &mut Running) -> Result<Value, Halt>
    ensures { Does (native_act (typed_keeping program.now.table) program.now.table program.now.known n.ClassName run.old.units run.old.state) result run.new }
{
    let Value::Address(a) = local(run, 0)? else {
        return Err(Halt::Wrong);
    };
    let Some(object) = run.state.heap.get(a as usize) else {
        return Err(Halt::Wrong);
    };
    let name = name_of(
        alloc,
        &program.table,
        closed_erasure(alloc, &program.table, &object.kept),
    )?;
    let units = units_of(alloc, name.as_str())?;
    make_string(alloc, program, run, units.slice())
}

/// What a native method does.
pub fn native_act(
    alloc: Global,
    program: &TypedProgram,
    run: &mut Running,
    native: Native,
) -> Result<Value, Halt>
    ensures { Does (native_act (typed_keeping program.now.table) program.now.table program.now.known native run.old.units run.old.state) result run.new }
{
    match native {
        Native::HashCode => identity_hash(run),
        Native::ClassName => named(alloc, program, run),
        Native::Put => put(run),
        Native::ReadByte => take_byte(run),
        Native::Halt => halt(run),
    }
}

/// The name of the class of what an address stands for.
pub fn class_name(
    alloc: Global,
    program: &TypedProgram,
    run: &Running,
    a: u64,
) -> Result<Text, WantOfMemory>
    ensures { IfOk result (λ r. r ≡ class_name program.now (slice_get run.now.state.heap a)) }
{
    match run.state.heap.get(a as usize) {
        Some(object) => {
            let name = name_of(
                alloc,
                &program.table,
                closed_erasure(alloc, &program.table, &object.kept),
            )?;
            Text::copied(alloc, name.as_str())
        }
        None => Ok(Text::empty()),
    }
}
