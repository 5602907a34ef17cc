//! What stands above each class, found once: a walk over the direct supertypes that comes to each at most once.
ghost use Rattle.std.specs.Prelude.{List, ◌≡◌, ◌<◌, ◌+◌, ℕ, length, IfOk, OnOk, true};
ghost use Rattle.jc_heap.specs.Above.{Added, AllAbove, AreAbove, IsBlank, IsClosed, IsIn, IsMarked, Put, Walk};
ghost use Rattle.jc_heap.specs.Supers.{below_by, supers_at};

use jc_rules::{Items, WantOfMemory};
use std::alloc::Global;

fn row_at(supers: &[Items<u64>], class: u64) -> &[u64]
    ensures { result.now ≡ supers_at supers.now class }
{
    match supers.get(class as usize) {
        Some(row) => row.slice(),
        None => &[],
    }
}

// Marks a class and lists it, if it isn't marked.
fn add(marks: &mut Vec<bool>, found: &mut Vec<u64>, class: u64) -> Result<(), WantOfMemory>
    requires { class < length marks.old.items }
    ensures { OnOk result (Put marks.old.items marks.new.items found.old.items found.new.items class) }
{
    if marks[class as usize] {
        return Ok(());
    }
    found.push(class)?;
    marks[class as usize] = true;
    Ok(())
}

// Marks and lists all of these.
fn add_all(marks: &mut Vec<bool>, found: &mut Vec<u64>, classes: &[u64]) -> Result<(), WantOfMemory>
    requires { (x : ℕ) → IsIn x classes.now → x < length marks.old.items }
    ensures added { OnOk result (Added marks.old.items marks.new.items found.old.items found.new.items classes.now) }
    ensures walk { OnOk result ((es : List (List ℕ)) (a : ℕ) → ((x : ℕ) → IsIn x classes.now → below_by es (length found.old.items + 1) x a ≡ true) → Walk es a marks.old.items found.old.items → Walk es a marks.new.items found.new.items) }
{
    let mut rest = classes;
    while let [class, more @ ..] = rest {
        add(marks, found, *class)?;
        rest = more;
    }
    Ok(())
}

// Takes back the marks of all of these.
fn unmark(marks: &mut Vec<bool>, found: &[u64])
    requires within { (x : ℕ) → IsIn x found.now → x < length marks.old.items }
    requires listed { (x : ℕ) → IsMarked marks.old.items x → IsIn x found.now }
    ensures { IsBlank marks.new.items (length marks.old.items) }
{
    let mut rest = found;
    while let [class, more @ ..] = rest {
        marks[*class as usize] = false;
        rest = more;
    }
}

fn above_of(
    alloc: Global,
    supers: &[Items<u64>],
    marks: &mut Vec<bool>,
    class: u64,
) -> Result<Items<u64>, WantOfMemory>
    requires closed { IsClosed supers.now }
    requires place { class < length supers.now }
    requires blank { IsBlank marks.old.items (length supers.now) }
    ensures blank { OnOk result (IsBlank marks.new.items (length supers.now)) }
    ensures above { IfOk result (λ found. AreAbove supers.now class found) }
{
    let mut found = Vec::new(alloc);
    add(marks, &mut found, class)?;
    let mut at: usize = 0;
    'upward: while at < found.len() {
        let next = found.as_slice()[at];
        add_all(marks, &mut found, row_at(supers, next))?;
        at += 1;
    }
    unmark(marks, found.as_slice());
    Ok(Items::of(found))
}

fn blank(alloc: Global, count: usize) -> Result<Vec<bool>, WantOfMemory>
    ensures { IfOk result (λ marks. IsBlank marks.items count) }
{
    let mut marks = Vec::with_capacity(alloc, count)?;
    for made in 0..count {
        marks.push(false)?;
    }
    Ok(marks)
}

/// Of each class all that stands above it, itself first.
pub fn above_all(alloc: Global, supers: &[Items<u64>]) -> Result<Items<Items<u64>>, WantOfMemory>
    requires { IsClosed supers.now }
    ensures { IfOk result (λ above. AllAbove supers.now above) }
{
    let mut above = Items::new(alloc);
    let mut marks = blank(alloc, supers.len())?;
    for class in 0..supers.len() {
        above.push(above_of(alloc, supers, &mut marks, class as u64)?)?;
    }
    Ok(above)
}
