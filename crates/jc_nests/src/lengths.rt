//! The lengths that multianewarray takes.
ghost use Rattle.std.specs.Prelude.{◌≡◌, [], ◌∷◌, ◌-◌, false, reverse, IfOk, MatchBool, MatchOption, None, Some};
ghost use Rattle.jc_jvm.specs.Objects.{lengths_on, naturals, arrays_within};
ghost use Rattle.jc_nests.specs.Lengths.{has_length};

use jc_jvm::{Operands, Value};
use jc_rules::WantOfMemory;
use std::alloc::Global;

fn pop_length(stack: &mut Operands) -> Option<i32>
    ensures limit { stack.new.limit ≡ stack.old.limit }
    ensures values { MatchOption result (has_length stack.old.values ≡ false) (λ length. stack.old.values ≡ Value.Whole length ∷ stack.new.values) }
{
    match stack.pop() {
        Some(Value::Whole(length)) => Some(length),
        _ => None,
    }
}

#[tactic(auto, using(crate::proofs::Taken::length_rules))]
fn pop_lengths(
    stack: &mut Operands,
    count: usize,
    found: &mut Vec<i32>,
) -> Result<bool, WantOfMemory>
    requires { found.old.items ≡ [] }
    ensures limit { stack.new.limit ≡ stack.old.limit }
    ensures values { IfOk result (λ there. MatchBool there (lengths_on count [] stack.old.values ≡ Some (reverse found.new.items, stack.new.values)) (lengths_on count [] stack.old.values ≡ None)) }
{
    for taken in 0..count {
        match pop_length(stack) {
            Some(length) => found.push(length)?,
            None => return Ok(false),
        }
    }
    Ok(true)
}

/// So many lengths from the top, the last one first; None where one isn't there or is no int.
pub fn take_lengths(
    alloc: Global,
    stack: &mut Operands,
    count: usize,
) -> Result<Option<Vec<i32>>, WantOfMemory>
    ensures limit { stack.new.limit ≡ stack.old.limit }
    ensures values { IfOk result (λ found. MatchOption found (lengths_on count [] stack.old.values ≡ None) (λ lengths. lengths_on count [] stack.old.values ≡ Some (lengths.items, stack.new.values))) }
{
    let mut found = Vec::with_capacity(alloc, count)?;
    if !pop_lengths(stack, count, &mut found)? {
        return Ok(None);
    }
    found.reverse();
    Ok(Some(found))
}

/// The lengths where none is negative.
pub fn to_naturals(alloc: Global, lengths: &[i32]) -> Result<Option<Vec<usize>>, WantOfMemory>
    ensures { IfOk result (λ found. MatchOption found (naturals lengths.now ≡ None) (λ numbers. naturals lengths.now ≡ Some numbers.items)) }
{
    let mut found = Vec::with_capacity(alloc, lengths.len())?;
    for length in lengths {
        if *length < 0 {
            return Ok(None);
        }
        found.push(*length as usize)?;
    }
    Ok(Some(found))
}

#[tactic(auto, unfolding(jc_jvm::specs::Objects::arrays_within))]
/// How many arrays stand in one of these lengths; want of memory where there are more than can be counted.
pub fn count_arrays(lengths: &[usize]) -> Result<usize, WantOfMemory>
    ensures { IfOk result (λ count. count ≡ arrays_within lengths.now) }
{
    match lengths {
        [] => Ok(0),
        [length, rest @ ..] => {
            let within = count_arrays(rest)?;
            match length.checked_mul(within) {
                Some(inner) => match inner.checked_add(1) {
                    Some(all) => Ok(all),
                    None => Err(WantOfMemory),
                },
                None => Err(WantOfMemory),
            }
        }
    }
}
