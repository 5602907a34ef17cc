//! Classes that have no method of certain names, nor any class above them: nothing is asked of these.
ghost use Rattle.std.specs.Prelude.{◌≡◌, ◌||◌, ℕ, true, IfOk, length};
ghost use Rattle.jc_clashes.specs.Clear.{AreClear, all_apart, all_clear, class_clear, keeps_clear, none_clear, stays_from};
ghost use Rattle.jc_judge.specs.Kinds.{class_of};

use crate::marks::is_marked;
use crate::shapes::Shape;
use jc_members::owner;
use jc_rules::{Items, WantOfMemory};
use jc_sub::class_of;
use jc_types::{ClassId, Table, Ty, class_supers};
use std::alloc::Global;

fn class_clear(marks: &[bool], t: &Ty) -> bool
    ensures { result ≡ class_clear marks.now (class_of t.now) }
{
    match class_of(t) {
        Some(k) => is_marked(marks, k.0),
        None => false,
    }
}

fn all_clear(marks: &[bool], types: &[Ty]) -> bool
    ensures { result ≡ all_clear marks.now types.now }
{
    let mut rest = types;
    while let [t, more @ ..] = rest {
        if !class_clear(marks, t) {
            return false;
        }
        rest = more;
    }
    true
}

#[tactic(auto, unfolding(crate::specs::Clear::keeps_clear))]
fn keeps_clear(table: &Table, marks: &[bool], class: u64) -> bool
    ensures { result ≡ keeps_clear table.now marks.now class }
{
    !is_marked(marks, class) || all_clear(marks, class_supers(table, ClassId(class)))
}

// Whether the supertypes of each marked class are of marked classes.
fn stay_clear(table: &Table, marks: &[bool]) -> bool
    ensures { result ≡ stays_from table.now marks.now 0 (length marks.now) }
{
    for number in 0..marks.len() {
        let keeps = keeps_clear(table, marks, number as u64);
        if !keeps {
            return false;
        }
    }
    true
}

fn none_clear(table: &Table, marks: &[bool], group: &[Shape]) -> bool
    ensures { result ≡ none_clear table.now marks.now group.now }
{
    let mut rest = group;
    while let [s, more @ ..] = rest {
        if is_marked(marks, owner(table, s.id).0) {
            return false;
        }
        rest = more;
    }
    true
}

// Whether no class of these methods is marked.
fn all_apart(table: &Table, marks: &[bool], groups: &[Items<Shape>]) -> bool
    ensures { result ≡ all_apart table.now marks.now groups.now }
{
    let mut rest = groups;
    while let [group, more @ ..] = rest {
        if !none_clear(table, marks, group.slice()) {
            return false;
        }
        rest = more;
    }
    true
}

// Takes a class's mark, and notes the class, where it was marked.
fn unmark(marks: &mut Vec<bool>, left: &mut Vec<u64>, class: u64) -> Result<(), WantOfMemory> {
    if let Some(mark) = marks.get_mut(class as usize) {
        if *mark {
            *mark = false;
            left.push(class)?;
        }
    }
    Ok(())
}

fn unmark_all(
    marks: &mut Vec<bool>,
    left: &mut Vec<u64>,
    classes: &[u64],
) -> Result<(), WantOfMemory> {
    for class in classes {
        unmark(marks, left, *class)?;
    }
    Ok(())
}

// Takes the marks of the classes of these methods.
fn unmark_owners(
    table: &Table,
    groups: &[Items<Shape>],
    marks: &mut Vec<bool>,
    left: &mut Vec<u64>,
) -> Result<(), WantOfMemory> {
    for group in groups {
        for s in group.slice() {
            unmark(marks, left, owner(table, s.id).0)?;
        }
    }
    Ok(())
}

// Notes a class with each class that it is declared right below.
fn note_below(table: &Table, class: u64, below: &mut Vec<Vec<u64>>) -> Result<(), WantOfMemory> {
    for t in class_supers(table, ClassId(class)) {
        if let Some(k) = class_of(t) {
            if let Some(list) = below.get_mut(k.0 as usize) {
                list.push(class)?;
            }
        }
    }
    Ok(())
}

// For each class those that are declared right below it.
fn classes_below(alloc: Global, table: &Table) -> Result<Vec<Vec<u64>>, WantOfMemory> {
    let mut below = Vec::new(alloc);
    for _class in 0..table.classes.len() {
        below.push(Vec::new(alloc))?;
    }
    for number in 0..table.classes.len() {
        note_below(table, number as u64, &mut below)?;
    }
    Ok(below)
}

// Takes the marks from classes that have one above them that isn't marked: each class that lost its mark takes those right below it along.
fn spread(
    marks: &mut Vec<bool>,
    left: &mut Vec<u64>,
    below: &[Vec<u64>],
) -> Result<(), WantOfMemory> {
    for _turn in 0..below.len() {
        let Some(class) = left.pop() else {
            return Ok(());
        };
        if let Some(classes) = below.get(class as usize) {
            unmark_all(marks, left, classes.as_slice())?;
        }
    }
    Ok(())
}

// Marks for the classes that have none of these methods, nor any class above them: a guess, which is asked behind it.
fn likely_marks(
    alloc: Global,
    table: &Table,
    groups: &[Items<Shape>],
) -> Result<Items<bool>, WantOfMemory> {
    let mut marks = Vec::new(alloc);
    for _class in 0..table.classes.len() {
        marks.push(true)?;
    }
    let mut left = Vec::new(alloc);
    unmark_owners(table, groups, &mut marks, &mut left)?;
    let below = classes_below(alloc, table)?;
    spread(&mut marks, &mut left, below.as_slice())?;
    Ok(Items::of(marks))
}

/// Marks for classes that have none of these methods, nor any class above them.
#[tactic(auto, using(crate::proofs::Marked::none_marked))]
pub fn clear_marks(
    alloc: Global,
    table: &Table,
    groups: &[Items<Shape>],
) -> Result<Items<bool>, WantOfMemory>
    ensures { IfOk result (λ marks. AreClear table.now marks groups.now) }
{
    let marks = likely_marks(alloc, table, groups)?;
    if stay_clear(table, marks.slice()) && all_apart(table, marks.slice(), groups) {
        return Ok(marks);
    }
    Ok(Items::new(alloc))
}
