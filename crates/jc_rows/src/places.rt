//! Where the instructions of a method stand, by byte offset.
ghost use Rattle.std.specs.Prelude.{◌≡◌, ◌+◌, ◌++◌, ◌∷◌, [], IfOk, OnOk, replicate, None};
ghost use Rattle.jc_class_out.specs.Instructions.{ins_size};
ghost use Rattle.jc_rows.specs.Laid.{placed_as, places_of};

use crate::{Placed, read_row};
use jc_class_out::Ins;
use jc_heap::NamedClasses;
use jc_rules::{Items, WantOfMemory};
use jc_sizes::ins_bytes;
use std::alloc::Global;

/// The rows of a method, each at the byte offset at which its instruction begins. At each other offset there is None.
pub type CodePlaces = Items<Option<Placed>>;

// The place behind an instruction; want of memory where no number of a place reaches so far.
fn place_behind(at: u32, ins: &Ins) -> Result<u32, WantOfMemory>
    ensures { IfOk result (λ next. next ≡ at + ins_size at ins.now) }
{
    let size = ins_bytes(at as usize, ins);
    if size > (u32::MAX - at) as usize {
        return Err(WantOfMemory);
    }
    Ok(at + size as u32)
}

// Adds so many offsets at which no instruction begins.
fn skip(places: &mut CodePlaces, count: u32) -> Result<(), WantOfMemory>
    ensures { OnOk result (places.new ≡ places.old ++ replicate count None) }
{
    for skipped in 0..count {
        places.push(None)?;
    }
    Ok(())
}

fn add_place(
    alloc: Global,
    found: &mut CodePlaces,
    classes: &NamedClasses,
    class: u64,
    method: u64,
    at: u32,
    ins: &Ins,
) -> Result<u32, WantOfMemory>
    ensures next { IfOk result (λ next. next ≡ at + ins_size at ins.now) }
    ensures places { IfOk result (λ next. found.new ≡ found.old ++ places_of (placed_as classes.now (class, method)) at (ins.now ∷ [])) }
{
    let next = place_behind(at, ins)?;
    let row = read_row(alloc, classes, class, method, ins)?;
    found.push(Some(Placed { row, next }))?;
    skip(found, next - at - 1)?;
    Ok(next)
}

/// The rows of these instructions.
pub fn places(
    alloc: Global,
    classes: &NamedClasses,
    class: u64,
    method: u64,
    instructions: &[Ins],
) -> Result<CodePlaces, WantOfMemory>
    ensures { IfOk result (λ found. found ≡ places_of (placed_as classes.now (class, method)) 0 instructions.now) }
{
    let mut found = Items::new(alloc);
    let mut at = 0;
    for ins in instructions {
        at = add_place(alloc, &mut found, classes, class, method, at, ins)?;
    }
    Ok(found)
}
