//! Types of nodes with what their variables stand for, and what captures give (JLS 5.1.10).
ghost use Rattle.std.specs.Prelude.{IfOk, List, map, slice_get, ◌≡◌};
ghost use Rattle.jc_values.specs.Doing.{Does};
ghost use Rattle.jc_typed.specs.declared.program.TypedProgram.{TypedProgram};
ghost use Rattle.jc_typed.specs.Parts.{Part, captures_of, form_over, type_of, types_of};
ghost use Rattle.jc_meaning.specs.Expressions as e;
ghost use Rattle.jc_values.specs.Idle.{idle};
ghost use Rattle.jc_running.specs.Outcomes.{Val};
ghost use Rattle.jc_meaning.specs.Programs.{captured_of};
ghost use Rattle.jc_meaning.specs.Kept.{closed_in, set_captured, unsaid};

use crate::frames::captured_of;
use jc_kept::{arguments_as, close, unsaid};
use jc_meaning::Read;
use jc_places::{capture_list, type_list};
use jc_rules::{Items, Place, WantOfMemory};
use jc_running::Value;
use jc_typed::{Capture, ExprForm, Nodes, TypedProgram};
use jc_types::{CaptureId, Constant, Ty};
use jc_values::{Halt, Running, put};
use std::alloc::Global;

/// The type at a place, with what its variables stand for.
#[tactic(auto, using(jc_places::proofs::Beyond::nothing, jc_kept::proofs::Closed::closed))]
pub fn closed_type(alloc: Global, nodes: &Nodes, at: u32, run: &Running) -> Result<Ty, WantOfMemory>
    ensures { IfOk result (λ r. r ≡ closed_in run.now.state (type_of nodes.now at)) }
{
    if (at as usize) < nodes.len() {
        let frame = &run.state.frame;
        close(
            alloc,
            nodes.ty(at),
            frame.variables.slice(),
            frame.captured.slice(),
        )
    } else {
        Ok(Ty::NullTy)
    }
}

/// The types of a list, with what their variables stand for.
pub fn closed_types(
    alloc: Global,
    nodes: &Nodes,
    at: u32,
    run: &Running,
) -> Result<Items<Ty>, WantOfMemory>
    ensures { IfOk result (λ r. r ≡ map (closed_in run.now.state) (types_of nodes.now at)) }
{
    let places = type_list(alloc, nodes, at)?;
    closed_all(alloc, nodes, places.slice(), run)
}

fn closed_all(
    alloc: Global,
    nodes: &Nodes,
    places: &[u32],
    run: &Running,
) -> Result<Items<Ty>, WantOfMemory>
    ensures { IfOk result (λ r. r ≡ map (closed_in run.now.state) (map (type_of nodes.now) places.now)) }
{
    let mut out = Items::new(alloc);
    for i in 0..places.len() {
        let ty = closed_type(alloc, nodes, places[i], run)?;
        out.push(ty)?;
    }
    Ok(out)
}

/// A value that was read or assigned is noted with its static type.
pub fn note(
    alloc: Global,
    nodes: &Nodes,
    place: Place,
    ty: u32,
    v: Value,
    run: &mut Running,
) -> Result<Value, Halt>
    ensures { (program : TypedProgram) → Does (e.note program idle place (type_of nodes.now ty) v run.old.units run.old.state) result run.new }
{
    let ty = closed_type(alloc, nodes, ty, run)?;
    run.state.record_of.push(Read {
        place,
        value: v,
        ty,
    })?;
    Ok(v)
}

pub fn noted(
    alloc: Global,
    nodes: &Nodes,
    is_noted: bool,
    place: Place,
    ty: u32,
    v: Value,
    run: &mut Running,
) -> Result<Value, Halt>
    ensures { (program : TypedProgram) (inner : e.Inner) → Does (e.noted program inner is_noted place (type_of nodes.now ty) v run.old.units run.old.state) result run.new }
{
    if is_noted {
        note(alloc, nodes, place, ty, v, run)
    } else {
        Ok(v)
    }
}

// What the kept type of a value says of a captured variable (JLS 5.1.10).
fn said(
    alloc: Global,
    program: &TypedProgram,
    run: &Running,
    c: Capture,
    v: Value,
) -> Result<Option<Ty>, WantOfMemory>
    ensures { IfOk result (λ r. r ≡ e.said_by program.now idle run.now.state c (e.object_of program.now idle run.now.state v)) }
{
    match v {
        Value::Address(a) => match run.state.heap.get(a as usize) {
            Some(object) => nth_type(
                arguments_as(alloc, &program.table, c.class, &object.kept)?,
                c.at,
            ),
            None => Ok(None),
        },
        Value::Whole(_) => Ok(None),
        Value::Long(_) => Ok(None),
        Value::Null => Ok(None),
    }
}

fn nth_type(types: Items<Ty>, at: u32) -> Result<Option<Ty>, WantOfMemory>
    ensures { IfOk result (λ r. r ≡ slice_get types at) }
{
    let mut list = types.into_vec();
    if (at as usize) < list.len() {
        return Ok(Some(list.swap_remove(at as usize)));
    }
    Ok(None)
}

fn said_or(
    alloc: Global,
    program: &TypedProgram,
    run: &Running,
    c: CaptureId,
    said: Option<Ty>,
) -> Result<Ty, WantOfMemory>
    ensures { IfOk result (λ r. r ≡ e.said_or program.now idle run.now.state c said) }
{
    match said {
        Some(ty) => Ok(ty),
        None => unsaid_now(alloc, program, run, c),
    }
}

/// What a captured variable stands for where no value says it.
pub fn unsaid_now(
    alloc: Global,
    program: &TypedProgram,
    run: &Running,
    c: CaptureId,
) -> Result<Ty, WantOfMemory>
    ensures { IfOk result (λ r. r ≡ unsaid run.now.state.frame.variables run.now.state.frame.captured (captured_of program.now run.now.state.frame.method) c) }
{
    let frame = &run.state.frame;
    unsaid(
        alloc,
        frame.variables.slice(),
        frame.captured.slice(),
        captured_of(program, frame.method),
        c,
    )
}

/// A captured variable stands for a type from now on.
pub fn set_captured(alloc: Global, run: &mut Running, c: CaptureId, ty: Ty)
    ensures { set_captured c ty run.old.units run.old.state ≡ Val tt run.new.units run.new.state }
{
    put(alloc, &mut run.state.frame.captured, c.0 as usize, ty);
}

/// The variables of a capture stand for what the value says (JLS 5.1.10).
pub fn capture(
    alloc: Global,
    program: &TypedProgram,
    nodes: &Nodes,
    at: u32,
    v: Value,
    run: &mut Running,
) -> Result<(), Halt>
    ensures { Does (e.capture program.now idle v (captures_of nodes.now at) run.old.units run.old.state) result run.new }
{
    let list = capture_list(alloc, nodes, at)?;
    let mut rest = list.slice();
    while let [first, more @ ..] = rest {
        let ty = said(alloc, program, run, *first, v)?;
        let ty = said_or(alloc, program, run, first.capture, ty)?;
        set_captured(alloc, run, first.capture, ty);
        rest = more;
    }
    Ok(())
}

// Which values are noted: those of variables, fields, elements and calls, of written casts, and of assignments.
pub fn is_noted(form: ExprForm) -> bool
    ensures { (program : TypedProgram) (inner : e.Inner) (ps : List Part) → result ≡ e.is_noted program inner (form_over ps form) }
{
    match form {
        ExprForm::Constant { .. } => false,
        ExprForm::Null => false,
        ExprForm::Local { .. } => true,
        ExprForm::This => false,
        ExprForm::StaticField { .. } => true,
        ExprForm::Field { .. } => true,
        ExprForm::Element { .. } => true,
        ExprForm::Length { .. } => false,
        ExprForm::Prefix { .. } => false,
        ExprForm::Chain { .. } => false,
        ExprForm::AllOf { .. } => false,
        ExprForm::AnyOf { .. } => false,
        ExprForm::InstanceOf { .. } => false,
        ExprForm::Conditional { .. } => false,
        ExprForm::Assign { .. } => true,
        ExprForm::Compound { .. } => true,
        ExprForm::Change { .. } => true,
        ExprForm::Call { .. } => true,
        ExprForm::New { .. } => false,
        ExprForm::NewArray { .. } => false,
        ExprForm::ArrayOf { .. } => false,
        ExprForm::Cast { .. } => true,
    }
}

// No value says anything of these captured variables in this evaluation.
pub fn forget(
    alloc: Global,
    program: &TypedProgram,
    from: u64,
    count: u64,
    run: &mut Running,
) -> Result<(), Halt>
    ensures { Does (e.forget program.now idle from count run.old.units run.old.state) result run.new }
{
    let mut at = from;
    let mut left = count;
    while left > 0 {
        let c = CaptureId(at);
        let ty = unsaid_now(alloc, program, run, c)?;
        set_captured(alloc, run, c, ty);
        if at == u64::MAX {
            return Err(Halt::WantOfMemory);
        }
        at += 1;
        left -= 1;
    }
    Ok(())
}
