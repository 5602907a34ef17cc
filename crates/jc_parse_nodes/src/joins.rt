//! What is made of values that stand one behind the other.
ghost use Rattle.std.specs.Prelude.{◌≡◌, ◌≤◌, ℕ, length, IfOk};
ghost use Rattle.jc_reading.specs.Giving.{Gives, Is};
ghost use Rattle.jc_reading.specs.Reading.{Read, becoming, noting};
ghost use Rattle.jc_parse_nodes.specs.Joins.{Joined, alone, behind};

use jc_reading::{Found, Halt};
use jc_rules::{Boxed, Items, WantOfMemory};
use std::alloc::Global;

/// What stops behind tokens whose reach is told.
pub fn behind(left: usize, halt: Halt) -> Halt
    ensures { result ≡ behind left halt }
{
    match halt {
        Halt::Stopped(reach) => Halt::Stopped(left.min(reach)),
        Halt::WantOfMemory => Halt::WantOfMemory,
    }
}

/// The same answer, with a reach at least so far.
pub fn reaching<'a, T>(left: usize, read: Result<Found<'a, T>, Halt>) -> Result<Found<'a, T>, Halt>
    ensures read { (m : Read T) → Gives read.entry m → Gives result (noting left m) }
    ensures shorter { (k : ℕ) → IfOk read.entry (λ f. length f.rest.now ≤ k) → IfOk result (λ f. length f.rest.now ≤ k) }
{
    match read {
        Ok(found) => Ok(Found {
            value: found.value,
            rest: found.rest,
            left: left.min(found.left),
        }),
        Err(halt) => Err(behind(left, halt)),
    }
}

/// The same answer, in a box.
pub fn boxed<'a, T: Drop>(
    alloc: Global,
    read: Result<Found<'a, T>, Halt>,
) -> Result<Found<'a, Boxed<T>>, Halt>
    ensures read { (m : Read T) → Gives read.entry m → Gives result m }
    ensures shorter { (k : ℕ) → IfOk read.entry (λ f. length f.rest.now ≤ k) → IfOk result (λ f. length f.rest.now ≤ k) }
{
    match read {
        Ok(found) => {
            let value = Boxed::new(alloc, found.value)?;
            Ok(Found {
                value,
                rest: found.rest,
                left: found.left,
            })
        }
        Err(halt) => Err(halt),
    }
}

/// The same answer, in a list.
pub fn single<'a, T: Drop>(
    alloc: Global,
    read: Result<Found<'a, T>, Halt>,
) -> Result<Found<'a, Items<T>>, Halt>
    ensures read { (m : Read T) → Gives read.entry m → Gives result (becoming alone m) }
    ensures shorter { (k : ℕ) → IfOk read.entry (λ f. length f.rest.now ≤ k) → IfOk result (λ f. length f.rest.now ≤ k) }
{
    match read {
        Ok(found) => {
            let mut items = Items::new(alloc);
            items.push(found.value)?;
            Ok(Found {
                value: items,
                rest: found.rest,
                left: found.left,
            })
        }
        Err(halt) => Err(halt),
    }
}

/// What is always read, but for want of memory.
pub fn some<'a, T>(read: Result<Found<'a, T>, WantOfMemory>) -> Result<Found<'a, T>, Halt>
    ensures read { (m : Read T) → IfOk read.entry (λ f. Is f m) → Gives result m }
    ensures shorter { (k : ℕ) → IfOk read.entry (λ f. length f.rest.now ≤ k) → IfOk result (λ f. length f.rest.now ≤ k) }
{
    match read {
        Ok(found) => Ok(found),
        Err(_) => Err(Halt::WantOfMemory),
    }
}

/// What is made of a first value and of what was read behind it; where nothing was, there is neither.
pub fn join<'a, A: Drop, B, C, F: FnOnce(A, B) -> C>(
    first: Found<'a, A>,
    more: Result<Found<'a, B>, Halt>,
    node: F,
) -> Result<Found<'a, C>, Halt>
    requires { F.IsAlwaysCallable node }
    ensures { (k : A → B → C) → ((a : _) (b : _) (c : _) → F.post node a b c → c ≡ k a b) → Joined k first.entry more.entry result }
{
    match more {
        Ok(more) => Ok(Found {
            value: node(first.value, more.value),
            rest: more.rest,
            left: first.left.min(more.left),
        }),
        Err(halt) => Err(behind(first.left, halt)),
    }
}
