//! Where the instructions of a method stand, by byte offset.
ghost use Rattle.std.specs.Prelude.{◌≡◌, ◌+◌, ◌-◌, ◌*◌, ◌%◌, ◌≤◌, ◌++◌, IfOk, OnOk, min, replicate, None};
ghost use Rattle.jc_machine.specs.Code.{operand_size, end_of, place_of};
ghost use Rattle.jc_machine.specs.Places.{places_from};

use crate::rows::{Placed, read_row};
use jc_class_out::{Ins, Operand};
use jc_rules::{Items, WantOfMemory};
use std::alloc::Global;

/// The most bytes that code has (JVMS 4.7.3).
const MOST: u32 = 65535;

/// The rows of a method, each at the byte offset at which its instruction begins. At each other offset there is None.
pub type CodePlaces = Items<Option<Placed>>;

// How many bytes stand behind an opcode, or `MOST + 1` where there are more.
fn operand_bytes(at: u32, code: u8, operand: &Operand) -> u32
    ensures { result ≡ min (operand_size at code operand.now) 65536 }
{
    match operand {
        Operand::Nothing => 0,
        Operand::Number(_) => { if code == 0x11 { 2 } else { 1 } }
        Operand::Local(_) => 1,
        Operand::Step { .. } => 2,
        Operand::Load(_) => { if code == 0x12 { 1 } else { 2 } }
        Operand::Member { .. } => { if code == 0xb9 { 4 } else { 2 } }
        Operand::Class(_) => 2,
        Operand::Dims { .. } => 3,
        Operand::Jump(_) => 2,
        Operand::Switch { cases, .. } => switch_bytes(at, cases.len()),
    }
}

fn switch_bytes(at: u32, cases: usize) -> u32
    ensures { result ≡ min (3 - at % 4 + 8 + 8 * cases) 65536 }
{
    if cases > 8191 {
        return MOST + 1;
    }
    (3 - at % 4 + 8 + 8 * cases as u32).min(MOST + 1)
}

// The place behind an instruction, where the code still reaches so far.
fn end(at: u32, ins: &Ins) -> Option<u32>
    requires { at ≤ 65535 }
    ensures { result ≡ end_of at ins.now }
{
    let bytes = operand_bytes(at, ins.code, &ins.operand);
    let size = if ins.wide { 2 + 2 * bytes } else { 1 + bytes };
    if at + size <= MOST {
        Some(at + size)
    } else {
        None
    }
}

fn place(at: u32, ins: &Ins) -> Option<Placed>
    requires { at ≤ 65535 }
    ensures { result ≡ place_of at ins.now }
{
    let next = end(at, ins)?;
    let row = read_row(ins)?;
    Some(Placed { row, next })
}

// Adds so many offsets at which no instruction begins.
fn skip(places: &mut CodePlaces, count: u32) -> Result<(), WantOfMemory>
    ensures { OnOk result (places.new ≡ places.old ++ replicate count None) }
{
    for _ in 0..count {
        places.push(None)?;
    }
    Ok(())
}

/// The rows of these instructions.
pub fn places(alloc: Global, instructions: &[Ins]) -> Result<CodePlaces, WantOfMemory>
    ensures { IfOk result (λ found. found ≡ places_from 0 instructions.now) }
{
    let mut found = Items::new(alloc);
    let mut at = 0;
    for ins in instructions {
        let Some(next) = end(at, ins) else {
            return Ok(found);
        };
        found.push(place(at, ins))?;
        skip(&mut found, next - at - 1)?;
        at = next;
    }
    Ok(found)
}
