//! What stands where in the code of a method.
ghost use Rattle.std.specs.Prelude.{◌≡◌, ◌+◌, ℕ, IfOk, map, nat_eq};
ghost use Rattle.std.specs.HashMap.{get};
ghost use Rattle.jc_class_out.specs.Instructions.{ins_size};
ghost use Rattle.jc_frames_steps.specs.Placed.{starts_from, number_of, frame_places, array_by, array_made};

use jc_class_out::{Frame, Ins, Operand};
use jc_frames_types::array_of;
use jc_rules::{Items, WantOfMemory};
use jc_sizes::ins_bytes;
use std::alloc::Global;
use std::collections::HashMap;
use std::marker::Model;

/// Offsets in code, of which each is found without walking over the others. Contracts see the list.
#[derive(Drop)]
pub struct Places {
    list: Vec<u32>,
    numbers: HashMap<u32, usize>,
}

impl Model for Places {
    ghost use Rattle.std.specs.Prelude.{◌≡◌, ℕ, List, nat_eq};
    ghost use Rattle.std.specs.HashMap.{get};
    ghost use Rattle.jc_frames_steps.specs.Placed.{number_of};

    ghost Value = { List ℕ };

    ghost view = { λ p. p.list.items };

    ghost invariant = { λ p. (at : ℕ) → get nat_eq p.numbers at ≡ number_of at p.list.items };
}

fn numbers_of(alloc: Global, list: &[u32]) -> Result<HashMap<u32, usize>, WantOfMemory>
    ensures { IfOk result (λ numbers. (at : ℕ) → get nat_eq numbers at ≡ number_of at list.now) }
{
    let mut numbers: HashMap<u32, usize> = HashMap::new(alloc);
    let mut number = list.len();
    'numbering: while number > 0 {
        number -= 1;
        numbers.insert(list[number], number)?;
    }
    Ok(numbers)
}

impl Places {
    pub fn of(alloc: Global, list: Vec<u32>) -> Result<Places, WantOfMemory>
        ensures { IfOk result (λ places. places ≡ list.items) }
    {
        let numbers = numbers_of(alloc, list.as_slice())?;
        Ok(Places { list, numbers })
    }

    /// The number of the first place that is at this offset.
    pub fn number(&self, at: u32) -> Option<usize>
        ensures { result ≡ number_of at self.now }
    {
        self.numbers.get(&at).copied()
    }
}

/// The place behind an instruction; want of memory where no number of a place reaches so far.
pub fn place_behind(at: u32, ins: &Ins) -> Result<u32, WantOfMemory>
    ensures { IfOk result (λ next. next ≡ at + ins_size at ins.now) }
{
    let size = ins_bytes(at as usize, ins);
    if size > (u32::MAX - at) as usize {
        return Err(WantOfMemory);
    }
    Ok(at + size as u32)
}

/// Where the instructions stand.
#[tactic(auto, unfolding(crate::specs::Placed::starts_from))]
pub fn starts_of(alloc: Global, ins: &[Ins]) -> Result<Vec<u32>, WantOfMemory>
    ensures { IfOk result (λ list. list.items ≡ starts_from 0 ins.now) }
{
    let mut list = Vec::new(alloc);
    let mut at = 0;
    let mut rest = ins;
    while let [first, more @ ..] = rest {
        list.push(at)?;
        at = place_behind(at, first)?;
        rest = more;
    }
    Ok(list)
}

/// Where the frames stand.
pub fn places_of_frames(alloc: Global, frames: &[Frame]) -> Result<Vec<u32>, WantOfMemory>
    ensures { IfOk result (λ list. list.items ≡ frame_places frames.now) }
{
    let mut list = Vec::new(alloc);
    let mut rest = frames;
    while let [first, more @ ..] = rest {
        list.push(first.at)?;
        rest = more;
    }
    Ok(list)
}

fn array_named(alloc: Global, operand: &Operand) -> Result<Items<u16>, WantOfMemory>
    ensures { IfOk result (λ name. name ≡ array_by operand.now) }
{
    match operand {
        Operand::Class(name) => array_of(alloc, name.slice()),
        _ => Ok(Items::new(alloc)),
    }
}

/// For each instruction that names a class or an array type, the array type of which that is the element type.
pub fn array_names(alloc: Global, ins: &[Ins]) -> Result<Items<Items<u16>>, WantOfMemory>
    ensures { IfOk result (λ names. names ≡ map array_made ins.now) }
{
    let mut names = Items::new(alloc);
    let mut rest = ins;
    while let [first, more @ ..] = rest {
        names.push(array_named(alloc, &first.operand)?)?;
        rest = more;
    }
    Ok(names)
}
