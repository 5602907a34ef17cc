//! The search for a field along superinterfaces and superclasses (JVMS 5.4.3.2), which comes to no class again over as few steps.
ghost use Rattle.std.specs.Prelude.{◌≡◌, ◌∷◌, ◌-◌, ℕ, List, IfOk, None, OnOk, length, replicate, reverse, slice_index, slice_set};
ghost use Rattle.jc_jvm.specs.Classes.{field_on};
ghost use Rattle.jc_lookups.specs.Searched.{Turn, visited_next};

use crate::fields::{interfaces_in, place_in};
use jc_heap::{NamedClasses, class_named, fields_in, superclass};
use jc_rules::{Items, WantOfMemory};
use std::alloc::Global;

/// What is still to be done in a search.
#[derive(Clone, Copy, Debug)]
pub enum Task {
    /// To look for the field in a class, and above it, over at most so many steps.
    Visit { steps: usize, class: u64 },
    /// To look above a class, from the superinterface of this number on, and at last in its superclass.
    Climb { steps: usize, class: u64, at: usize },
    /// To note that a class and all above it have no such field, over so many steps.
    Leave { steps: usize, class: u64 },
}

// Over how many steps a class is known not to have the field.
fn steps_without(known: &[usize], class: u64) -> usize
    ensures { result ≡ slice_index known.now class }
{
    match known.get(class as usize) {
        Some(steps) => *steps,
        None => 0,
    }
}

fn visit(
    classes: &NamedClasses,
    name: &[u16],
    descriptor: &[u16],
    steps: usize,
    class: u64,
    known: &[usize],
    tasks: &mut Items<Task>,
) -> Result<Option<(u64, u64)>, WantOfMemory>
    ensures { IfOk result (λ found. Turn classes.now name.now descriptor.now known.now (Task.Visit steps class ∷ reverse tasks.old) known.now (reverse tasks.new) found) }
{
    if steps <= steps_without(known, class) {
        return Ok(None);
    }
    match place_in(fields_in(classes, class), name, descriptor) {
        Some(place) => Ok(Some((class, place as u64))),
        None => {
            tasks.push(Task::Climb {
                steps,
                class,
                at: 0,
            })?;
            Ok(None)
        }
    }
}

// The class is visited next, if there is one.
fn visit_next(tasks: &mut Items<Task>, steps: usize, class: Option<u64>) -> Result<(), WantOfMemory>
    ensures { OnOk result (reverse tasks.new ≡ visited_next (steps - 1) class (reverse tasks.old)) }
{
    match class {
        Some(class) => tasks.push(Task::Visit {
            steps: steps.saturating_sub(1),
            class,
        }),
        None => Ok(()),
    }
}

fn climb(
    classes: &NamedClasses,
    steps: usize,
    class: u64,
    at: usize,
    tasks: &mut Items<Task>,
) -> Result<(), WantOfMemory>
    ensures { OnOk result ((name descriptor known : List ℕ) → Turn classes.now name descriptor known (Task.Climb steps class at ∷ reverse tasks.old) known (reverse tasks.new) None) }
{
    let interfaces = interfaces_in(classes, class);
    if at < interfaces.len() {
        tasks.push(Task::Climb {
            steps,
            class,
            at: at + 1,
        })?;
        visit_next(tasks, steps, class_named(classes, interfaces[at].slice()))
    } else {
        tasks.push(Task::Leave { steps, class })?;
        visit_next(tasks, steps, superclass(classes, class))
    }
}

fn leave(known: &mut Vec<usize>, class: u64, steps: usize)
    ensures { known.new.items ≡ slice_set known.old.items class steps }
{
    if (class as usize) < known.len() {
        known[class as usize] = steps;
    }
}

// Does a task, and gives the field where that finds it.
fn turn(
    classes: &NamedClasses,
    name: &[u16],
    descriptor: &[u16],
    task: Task,
    known: &mut Vec<usize>,
    tasks: &mut Items<Task>,
) -> Result<Option<(u64, u64)>, WantOfMemory>
    ensures { IfOk result (λ found. Turn classes.now name.now descriptor.now known.old.items (task ∷ reverse tasks.old) known.new.items (reverse tasks.new) found) }
{
    match task {
        Task::Visit { steps, class } => {
            visit(
                classes,
                name,
                descriptor,
                steps,
                class,
                known.as_slice(),
                tasks,
            )
        }
        Task::Climb { steps, class, at } => {
            climb(classes, steps, class, at, tasks)?;
            Ok(None)
        }
        Task::Leave { steps, class } => {
            leave(known, class, steps);
            Ok(None)
        }
    }
}

fn nothing_known(alloc: Global, count: usize) -> Result<Vec<usize>, WantOfMemory>
    ensures { IfOk result (λ known. known.items ≡ replicate count 0) }
{
    let mut known = Vec::with_capacity(alloc, count)?;
    for made in 0..count {
        known.push(0)?;
    }
    Ok(known)
}

/// The class that declares a field and the field's number there: in the class of this number, then its superinterfaces, then its superclass.
/// Memory is wanted too where the search has more turns than a number counts.
pub fn seek(
    alloc: Global,
    classes: &NamedClasses,
    class: u64,
    name: &[u16],
    descriptor: &[u16],
) -> Result<Option<(u64, u64)>, WantOfMemory>
    ensures { IfOk result (λ found. found ≡ field_on classes.now name.now descriptor.now (length classes.now) class) }
{
    let steps = classes.len();
    let mut known = nothing_known(alloc, steps)?;
    let mut tasks = Items::new(alloc);
    tasks.push(Task::Visit { steps, class })?;
    for turns in 0..u64::MAX {
        match tasks.pop() {
            Some(task) => match turn(classes, name, descriptor, task, &mut known, &mut tasks)? {
                Some(found) => return Ok(Some(found)),
                None => (),
            },
            None => return Ok(None),
        }
    }
    Err(WantOfMemory)
}
