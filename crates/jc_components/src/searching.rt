//! What is reached over the rows of a graph: row a has the numbers to which there is an edge from a.
ghost use Rattle.std.specs.Prelude.{List, ◌≡◌, ◌<◌, ℕ, length, IfOk, OnOk, replicate, false, IsTrue, ◌↔◌};
ghost use Rattle.jc_components.specs.Reach.{Reach, IsIn, IsClosed, row, Walk, Added, Put};

use jc_rules::{Items, WantOfMemory};
use std::alloc::Global;

/// The row of a number.
pub fn row(rows: &[Items<u64>], a: u64) -> &[u64]
    ensures { result.now ≡ row rows.now a }
{
    match rows.get(a as usize) {
        Some(row) => row.slice(),
        None => &[],
    }
}

/// Marks a number and lists it, if it isn't marked.
fn add(marks: &mut Vec<bool>, reached: &mut Vec<u64>, x: u64) -> Result<(), WantOfMemory>
    requires { x < length marks.old.items }
    ensures { OnOk result (Put marks.old.items marks.new.items reached.old.items reached.new.items x) }
{
    if marks[x as usize] {
        return Ok(());
    }
    reached.push(x)?;
    marks[x as usize] = true;
    Ok(())
}

/// Marks and lists all of these.
fn add_all(marks: &mut Vec<bool>, reached: &mut Vec<u64>, xs: &[u64]) -> Result<(), WantOfMemory>
    requires { (x : ℕ) → IsIn x xs.now → x < length marks.old.items }
    ensures added { OnOk result (Added marks.old.items marks.new.items reached.old.items reached.new.items xs.now) }
    ensures walk { OnOk result ((es : List (List ℕ)) (a : ℕ) → ((x : ℕ) → IsIn x xs.now → Reach es a x) → Walk es a marks.old.items reached.old.items → Walk es a marks.new.items reached.new.items) }
{
    let mut rest = xs;
    while let [x, more @ ..] = rest {
        add(marks, reached, *x)?;
        rest = more;
    }
    Ok(())
}

fn blank(alloc: Global, count: usize) -> Result<Vec<bool>, WantOfMemory>
    ensures { IfOk result (λ marks. marks.items ≡ replicate count false) }
{
    let mut marks = Vec::new(alloc);
    for _i in 0..count {
        marks.push(false)?;
    }
    Ok(marks)
}

/// Whether a number is reached from itself.
pub fn is_cyclic(alloc: Global, rows: &[Items<u64>], a: u64) -> Result<bool, WantOfMemory>
    requires closed { IsClosed rows.now }
    requires place { a < length rows.now }
    ensures { IfOk result (λ r. IsTrue r ↔ Reach rows.now a a) }
{
    let mut marks = blank(alloc, rows.len())?;
    let mut reached = Vec::new(alloc);
    add_all(&mut marks, &mut reached, row(rows, a))?;
    let mut at: usize = 0;
    'search: while at < reached.len() {
        let x = reached.as_slice()[at];
        add_all(&mut marks, &mut reached, row(rows, x))?;
        at += 1;
    }
    Ok(marks.as_slice()[a as usize])
}
