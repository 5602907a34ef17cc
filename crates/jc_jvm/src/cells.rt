//! Objects and arrays (JVMS 2.7).
ghost use Rattle.std.specs.Prelude.{◌≡◌, ◌∷◌, ◌++◌, [], ◌↔◌, IsTrue, IfSome, OnOk, OnErr, nat_lt, length, slice_get};
ghost use Rattle.std.specs.Option.{option_copied};
ghost use Rattle.jc_jvm.specs.Slotted.{IsSmall, heap_with, has_slot, cell_with, slots_of};

use crate::{Shape, Slots, Value};
use jc_rules::WantOfMemory;
use std::alloc::Global;
use std::marker::Model;

/// An object with a value for each instance field, those of its superclasses first, or an array with the type of its elements.
#[derive(Debug, Drop)]
pub enum Cell {
    Instance { class: u64, fields: Slots<Value> },
    Array { of: Shape, items: Slots<Value> },
}

/// The objects and arrays, in the order in which they were made. Contracts see the list. None has more than 2^31 - 1 slots.
#[derive(Debug, Drop)]
pub struct Cells {
    cells: Vec<Cell>,
}

impl Model for Cells {
    ghost use Rattle.std.specs.Prelude.{List, All};
    ghost use Rattle.jc_jvm.specs.Slotted.{IsSmall};
    ghost use Rattle.jc_jvm.specs.declared.cells.Cell.{Cell};

    ghost Value = { List Cell };

    ghost view = { λ c. c.cells.items };

    ghost invariant = { λ c. All IsSmall c.cells.items };
}

/// The most slots of an object or an array: as many as an int counts.
const MOST: usize = 2147483647;

fn is_small(cell: &Cell) -> bool
    ensures { IsTrue result ↔ IsSmall cell.now }
{
    match cell {
        Cell::Instance { fields, .. } => fields.len() <= MOST,
        Cell::Array { items, .. } => items.len() <= MOST,
    }
}

#[inline(always)]
fn write(cell: &mut Cell, slot: usize, value: Value) -> bool
    ensures cell { cell.new ≡ cell_with slot value cell.old }
    ensures there { result ≡ nat_lt slot (length (slots_of cell.old)) }
{
    match cell {
        Cell::Instance { fields, .. } => fields.set(slot, value),
        Cell::Array { items, .. } => items.set(slot, value),
    }
}

#[inline(always)]
fn set_in(cells: &mut Vec<Cell>, at: usize, slot: usize, value: Value) -> bool
    ensures cells { cells.new.items ≡ heap_with cells.old.items at slot value }
    ensures there { result ≡ has_slot cells.old.items at slot }
{
    if at < cells.len() {
        write(&mut cells[at], slot, value)
    } else {
        false
    }
}

impl Cells {
    pub fn new(alloc: Global) -> Cells
        ensures { result ≡ [] }
    {
        Cells {
            cells: Vec::new(alloc),
        }
    }

    pub fn len(&self) -> usize
        ensures { result ≡ length self.now }
    {
        self.cells.len()
    }

    #[inline(always)]
    pub fn get(&self, at: u64) -> Option<&Cell>
        ensures cell { option_copied result ≡ slice_get self.now at }
        ensures small { IfSome result (λ cell. IsSmall cell.now) }
    {
        self.cells.get(at as usize)
    }

    /// Adds an object or an array. One with too many slots finds no memory.
    pub fn push(&mut self, cell: Cell) -> Result<(), WantOfMemory>
        ensures ok { OnOk result (self.new ≡ self.old ++ cell ∷ []) }
        ensures err { OnErr result (self.new ≡ self.old) }
    {
        if !is_small(&cell) {
            return Err(WantOfMemory);
        }
        self.cells.push(cell)?;
        Ok(())
    }

    /// Puts a value into a slot of an object or an element of an array, and tells whether there is such a place.
    #[inline(always)]
    pub fn set(&mut self, at: u64, slot: usize, value: Value) -> bool
        ensures cells { self.new ≡ heap_with self.old at slot value }
        ensures there { result ≡ has_slot self.old at slot }
    {
        set_in(&mut self.cells, at as usize, slot, value)
    }
}
