//! The way from a class to one above it.
ghost use Rattle.std.specs.Prelude.{◌≡◌, ◌+◌, ℕ, true, cond, IfOk, OnOk, nat_eq};
ghost use Rattle.std.specs.HashSet.{contains};
ghost use Rattle.jc_sub.specs.Reaching.{WayIs, SightIs};

use crate::kinds::class_of;
use jc_rules::{Items, WantOfMemory};
use jc_types::{ClassId, Table, class_supers};
use std::alloc::Global;
use std::collections::HashSet;

/// A turn on the way from a class to one above it: the class, and the number of its supertype to which the way goes on.
#[derive(Clone, Copy, Debug)]
pub struct Turn {
    pub from: ClassId,
    pub next: usize,
}

/// What a search for a class above another one comes to: it is not above; the turns to it; or nothing, since a supertype on the
/// way is of no class, or a class is above itself.
#[derive(Drop)]
pub enum Way {
    Missing,
    Found(Items<Turn>),
    Unknown,
}

/// What stands at a supertype of a class: the class that is sought, one that was left without success, another one, no further
/// supertype, or a type of no class.
#[derive(Clone, Copy, Debug)]
pub enum Sight {
    Goal,
    Left,
    Open(ClassId),
    End,
    Odd,
}

/// The way from a class to class `k`, by the first supertype of each class from which there is one. Each class is passed once,
/// whatever the number of ways to it, and memory is taken for the classes that were passed alone.
pub fn way_to(alloc: Global, table: &Table, k: ClassId, from: ClassId) -> Result<Way, WantOfMemory>
    ensures { IfOk result (λ w. WayIs table.now k from.0 w) }
{
    let mut turns = Items::new(alloc);
    if from.0 == k.0 {
        return Ok(Way::Found(turns));
    }
    let mut left: HashSet<u64> = HashSet::new(alloc);
    let most = table.classes.len();
    let mut at = from;
    let mut next: usize = 0;
    for _turn in 0..u64::MAX {
        match seen_at(table, k, &left, at, next) {
            Sight::Goal => {
                turns.push(Turn { from: at, next })?;
                return Ok(Way::Found(turns));
            }
            Sight::Left => next = after(next)?,
            Sight::Open(up) => {
                if turns.len() >= most {
                    return Ok(Way::Unknown);
                }
                turns.push(Turn { from: at, next })?;
                at = up;
                next = 0;
            }
            Sight::End => {
                mark(&mut left, at)?;
                match turns.pop() {
                    None => return Ok(Way::Missing),
                    Some(turn) => {
                        at = turn.from;
                        next = after(turn.next)?;
                    }
                }
            }
            Sight::Odd => return Ok(Way::Unknown),
        }
    }
    Ok(Way::Unknown)
}

// The number of the next supertype. No memory holds as many as would overflow.
fn after(i: usize) -> Result<usize, WantOfMemory>
    ensures { IfOk result (λ n. n ≡ i + 1) }
{
    match i.checked_add(1) {
        Some(next) => Ok(next),
        None => Err(WantOfMemory),
    }
}

fn seen_at(table: &Table, k: ClassId, left: &HashSet<u64>, at: ClassId, next: usize) -> Sight
    ensures { SightIs table.now k (λ y. contains nat_eq left.now y ≡ true) at.0 next result }
{
    match class_supers(table, at).get(next) {
        None => Sight::End,
        Some(t) => match class_of(t) {
            None => Sight::Odd,
            Some(up) => {
                if up.0 == k.0 {
                    Sight::Goal
                } else if left.contains(&up.0) {
                    Sight::Left
                } else {
                    Sight::Open(up)
                }
            }
        },
    }
}

fn mark(left: &mut HashSet<u64>, class: ClassId) -> Result<(), WantOfMemory>
    ensures { OnOk result ((y : ℕ) → contains nat_eq left.new y ≡ cond (nat_eq class.0 y) true (contains nat_eq left.old y)) }
{
    left.insert(class.0)?;
    Ok(())
}
