//! New objects and arrays (JLS 15.9, 15.10.1).
ghost use Rattle.jc_acts.specs.Rows.{rows};
ghost use Rattle.std.specs.Prelude.{IfOk, ◌≡◌, ◌∷◌};
ghost use Rattle.jc_values.specs.Doing.{Does};
ghost use Rattle.jc_typed.specs.declared.program.TypedProgram.{TypedProgram};
ghost use Rattle.jc_typed.specs.Parts.{type_of};
ghost use Rattle.jc_running.specs.Outcomes.{Val, bind};
ghost use Rattle.jc_meaning.specs.Kept.{closed, kept_by};
ghost use Rattle.jc_meaning.specs.Expressions as e;
ghost use Rattle.jc_values.specs.Idle.{idle};

use crate::capturing::closed_type;
use jc_heaps::Object;
use jc_kept::{is_unborn, kept_array, kept_by};
use jc_layout::{default_erased, element_of, new_fields};
use jc_numbers::whole_of;
use jc_rules::{Items, WantOfMemory};
use jc_running::Value;
use jc_typed::{Nodes, TypedProgram};
use jc_types::{ClassId, Ty, copy_type, element};
use jc_values::{Halt, Running, closed_erasure, make, make_plain, repeated, set_part};
use std::alloc::Global;
use std::mem;

/// A new object that nothing refers to yet, which keeps its class alone.
pub fn new_object(
    alloc: Global,
    program: &TypedProgram,
    k: ClassId,
    run: &mut Running,
) -> Result<u64, Halt>
    ensures { Does (e.new_object program.now idle k run.old.units run.old.state) result run.new }
{
    let parts = new_fields(alloc, &program.table, k)?;
    make(
        run,
        Object {
            kept: Ty::Raw { id: k },
            parts,
        },
    )
}

fn set_type(alloc: Global, a: u64, k: ClassId, ty: Ty, run: &mut Running)
    ensures { (program : TypedProgram) (inner : e.Inner) → e.set_type program inner a k ty run.old.units run.old.state ≡ Val tt run.new.units run.new.state }
{
    if (a as usize) < run.state.heap.len() {
        let mut heap = mem::replace(&mut run.state.heap, Items::new(alloc)).into_vec();
        let object = &mut heap[a as usize];
        if is_unborn(k, &object.kept) {
            object.kept = ty;
        }
        run.state.heap = Items::of(heap);
    }
}

/// A new object gets its type, with what the variables stand for behind its arguments.
pub fn give_type(
    alloc: Global,
    program: &TypedProgram,
    nodes: &Nodes,
    a: u64,
    k: ClassId,
    ty: u32,
    run: &mut Running,
) -> Result<(), Halt>
    ensures { Does (bind (closed (type_of nodes.now ty)) (λ t. e.set_type program.now idle a k (kept_by program.now.table t)) run.old.units run.old.state) result run.new }
{
    let closed = closed_type(alloc, nodes, ty, run)?;
    let kept = kept_by(alloc, &program.table, &closed)?;
    set_type(alloc, a, k, kept, run);
    Ok(())
}

pub fn new_array(
    alloc: Global,
    program: &TypedProgram,
    ty: &Ty,
    count: u64,
    run: &mut Running,
) -> Result<u64, Halt>
    ensures { Does (e.new_array program.now idle ty.now count run.old.units run.old.state) result run.new }
{
    let of = element_of(closed_erasure(alloc, &program.table, ty));
    let kept = kept_array(alloc, &program.table, ty)?;
    let parts = repeated(alloc, default_erased(of), count)?;
    make(run, Object { kept, parts })
}

fn element_type(alloc: Global, program: &TypedProgram, ty: &Ty) -> Result<Ty, WantOfMemory>
    ensures { IfOk result (λ r. r ≡ e.element_type program.now idle ty.now) }
{
    match element(alloc, ty)? {
        Some(of) => Ok(of),
        None => copy_type(alloc, ty),
    }
}

/// An array of several lengths is made outer first, and then each of its elements from left to right (JLS 15.10.1).
#[cycle(arrays)]
pub fn arrays(
    alloc: Global,
    program: &TypedProgram,
    ty: &Ty,
    lengths: &[u64],
    run: &mut Running,
) -> Result<Value, Halt>
    ensures { Does (e.arrays program.now idle ty.now lengths.now run.old.units run.old.state) result run.new }
{
    match lengths {
        [] => Ok(Value::Null),
        [n, more @ ..] => arrays_of(alloc, program, ty, *n, more, run),
    }
}

#[cycle(arrays)]
fn arrays_of(
    alloc: Global,
    program: &TypedProgram,
    ty: &Ty,
    count: u64,
    more: &[u64],
    run: &mut Running,
) -> Result<Value, Halt>
    ensures { Does (e.arrays program.now idle ty.now (count ∷ more.now) run.old.units run.old.state) result run.new }
{
    match more {
        [] => {
            let a = new_array(alloc, program, ty, count, run)?;
            Ok(Value::Address(a))
        }
        [_, ..] => rows(alloc, program, ty, count, more, run),
    }
}

#[cycle(arrays)]
fn rows(
    alloc: Global,
    program: &TypedProgram,
    ty: &Ty,
    count: u64,
    more: &[u64],
    run: &mut Running,
) -> Result<Value, Halt>
    ensures { Does (rows program.now ty.now count more.now run.old.units run.old.state) result run.new }
{
    let a = new_array(alloc, program, ty, count, run)?;
    let of = element_type(alloc, program, ty)?;
    fill(alloc, program, a, count, &of, more, run)?;
    Ok(Value::Address(a))
}

#[cycle(arrays)]
fn fill(
    alloc: Global,
    program: &TypedProgram,
    a: u64,
    count: u64,
    of: &Ty,
    lengths: &[u64],
    run: &mut Running,
) -> Result<(), Halt>
    ensures { Does (e.fill program.now idle a 0 count (e.arrays program.now idle of.now lengths.now) run.old.units run.old.state) result run.new }
{
    let mut at: u64 = 0;
    let mut left = count;
    while left > 0 {
        let v = arrays(alloc, program, of, lengths, run)?;
        set_part(alloc, run, a, at, v);
        at += 1;
        left -= 1;
    }
    Ok(())
}

// The lengths, all of which are tested before an array is made.
#[tactic(auto, using(crate::proofs::Lists::moved, crate::proofs::Lists::same_values))]
pub fn lengths_of(
    alloc: Global,
    program: &TypedProgram,
    values: &[Value],
    run: &mut Running,
) -> Result<Items<u64>, Halt>
    ensures { (inner : e.Inner) → Does (e.lengths_of program.now inner values.now run.old.units run.old.state) result run.new }
{
    let mut out = Items::new(alloc);
    let mut rest = values;
    while let [first, more @ ..] = rest {
        let Some(n) = whole_of(*first) else {
            return Err(Halt::Wrong);
        };
        if n < 0 {
            let thrown = make_plain(
                alloc,
                &program.table,
                run,
                program.known.thrown.negative_size,
            )?;
            return Err(Halt::Thrown(thrown));
        }
        out.push(n.unsigned_abs() as u64)?;
        rest = more;
    }
    Ok(out)
}
