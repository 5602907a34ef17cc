//! The statements round a place that a jump can go to without leaving, by their numbers.
ghost use Rattle.std.specs.Prelude.{◌≡◌, ◌∷◌, ◌++◌, IfOk, OnOk};
ghost use Rattle.jc_typed.specs.Copies.{is_among, leaving};

use jc_rules::{Items, WantOfMemory};
use std::alloc::Global;

fn is_among(target: u32, inside: &[u32]) -> bool
    ensures { result ≡ is_among target inside.now }
{
    for number in inside {
        if target == *number {
            return true;
        }
    }
    false
}

/// A jump to a statement leaves unless that statement is inside.
pub fn leaving(inside: &[u32], target: u32) -> u64
    ensures { result ≡ leaving inside.now target }
{
    if is_among(target, inside) { 0 } else { 1 }
}

fn push_all(list: &mut Items<u32>, numbers: &[u32]) -> Result<(), WantOfMemory>
    ensures { OnOk result (list.new ≡ list.old ++ numbers.now) }
{
    for number in numbers {
        list.push(*number)?;
    }
    Ok(())
}

/// One statement more round a place. The others are copied, which are no more than a nest is high.
pub fn with_target(alloc: Global, target: u32, inside: &[u32]) -> Result<Items<u32>, WantOfMemory>
    ensures { IfOk result (λ it. it ≡ target ∷ inside.now) }
{
    let mut list = Items::new(alloc);
    list.push(target)?;
    push_all(&mut list, inside)?;
    Ok(list)
}
