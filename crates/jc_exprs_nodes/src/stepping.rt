//! What is done with a value where it stands: what is read or used is guarded, and conversions have their steps (JLS 5).
ghost use Rattle.std.specs.Prelude.{◌≡◌, ◌<◌, ◌++◌, ◌∷◌, [], false, length, IfOk};
ghost use Rattle.jc_types.specs.declared.form.Ty.{out-Ty};
ghost use Rattle.jc_types.specs.declared.form.Ty.TheVariants.{Prim};
ghost use Rattle.jc_typed.specs.Parts.{BelowStep, Grows, expr_of, operand_of, parts, step_over, steps_of, type_of};
ghost use Rattle.jc_exprs_nodes_spec.specs.Typeds.{cast_steps_by, converted, is_erased_below, led, primitive_at, read_guard, steps_by, turned, turned_to, upwards, use_guard};
ghost use Rattle.jc_typed.specs.Trees.{operand};
ghost use Rattle.jc_exprs_nodes.specs.Walks.{IsPart, known};

use crate::walk::{Judging, Part};
use jc_boxes::box_class;
use jc_convert::{Converts, unboxed};
use jc_lub::erased_below;
use jc_rules::{Items, WantOfMemory};
use jc_running::Check;
use jc_sub::is_null;
use jc_typed::{Nodes, OperandNode, StepNode, StepsNode};
use jc_types::{Erased, Primitive, Step, Ty, copy_type, erasure, reifiable};
use std::alloc::Global;

/// One step more.
pub fn push_step(nodes: &mut Nodes, before: u32, last: StepNode) -> Result<u32, WantOfMemory>
    requires before { before < length nodes.old }
    requires last { BelowStep (length nodes.old) last }
    ensures value { IfOk result (λ at. steps_of nodes.new at ≡ steps_of nodes.old before ++ step_over (parts nodes.old) last ∷ []) }
    ensures within { IfOk result (λ at. at < length nodes.new) }
    ensures grows { Grows nodes.old nodes.new }
{
    nodes.push_steps(StepsNode::More { before, last })
}

/// The lead of what is read of a declared type as one of another type: a guard where the erasure of the declared one isn't below the other's.
#[tactic(auto, using(jc_typed::proofs::Growing::growing))]
pub fn push_read_guard(
    alloc: Global,
    nodes: &mut Nodes,
    judging: &Judging,
    declared: Erased,
    ty: &Ty,
) -> Result<u32, WantOfMemory>
    ensures value { IfOk result (λ at. steps_of nodes.new at ≡ read_guard judging.now.table.now judging.now.env.now.bounds declared ty.now) }
    ensures within { IfOk result (λ at. at < length nodes.new) }
    ensures grows { Grows nodes.old nodes.new }
{
    let none = nodes.push_steps(StepsNode::Empty)?;
    let to = erasure(judging.table, judging.env, ty);
    if erased_below(alloc, judging.table, declared, to)? {
        return Ok(none);
    }
    push_step(
        nodes,
        none,
        StepNode::Test {
            check: Check::ReadGuard,
            to,
        },
    )
}

// Whether a value of a type needs no test where it is used as one of an erased type.
fn is_erased_below(
    alloc: Global,
    judging: &Judging,
    from: &Ty,
    to: Erased,
) -> Result<bool, WantOfMemory>
    ensures { IfOk result (λ r. r ≡ is_erased_below judging.now.table.now judging.now.env.now.bounds from.now to) }
{
    if is_null(from) {
        return Ok(true);
    }
    let erased = erasure(judging.table, judging.env, from);
    erased_below(alloc, judging.table, erased, to)
}

/// The guard of a value of a type that is used as one of an erased type.
#[tactic(auto, using(jc_typed::proofs::Growing::growing, crate::proofs::Appending::appended))]
pub fn push_use_guard(
    alloc: Global,
    nodes: &mut Nodes,
    judging: &Judging,
    before: u32,
    from: &Ty,
    to: Erased,
) -> Result<u32, WantOfMemory>
    requires { before < length nodes.old }
    ensures value { IfOk result (λ at. steps_of nodes.new at ≡ steps_of nodes.old before ++ use_guard judging.now.table.now judging.now.env.now.bounds from.now to) }
    ensures within { IfOk result (λ at. at < length nodes.new) }
    ensures grows { Grows nodes.old nodes.new }
{
    if is_erased_below(alloc, judging, from, to)? {
        return Ok(before);
    }
    push_step(
        nodes,
        before,
        StepNode::Test {
            check: Check::UseGuard,
            to,
        },
    )
}

/// The same of a type in the arena.
#[tactic(auto, using(jc_typed::proofs::Growing::growing, crate::proofs::Appending::appended))]
pub fn push_use_guard_at(
    alloc: Global,
    nodes: &mut Nodes,
    judging: &Judging,
    before: u32,
    from: u32,
    to: Erased,
) -> Result<u32, WantOfMemory>
    requires before { before < length nodes.old }
    requires from { from < length nodes.old }
    ensures value { IfOk result (λ at. steps_of nodes.new at ≡ steps_of nodes.old before ++ use_guard judging.now.table.now judging.now.env.now.bounds (type_of nodes.old from) to) }
    ensures within { IfOk result (λ at. at < length nodes.new) }
    ensures grows { Grows nodes.old nodes.new }
{
    if is_erased_below(alloc, judging, nodes.ty(from), to)? {
        return Ok(before);
    }
    push_step(
        nodes,
        before,
        StepNode::Test {
            check: Check::UseGuard,
            to,
        },
    )
}

/// A step upwards, and the guard of the value at its place: a warning stands there where the conversion is unchecked, and the type's arguments aren't all unbounded (JLS 5.1.9).
#[tactic(auto, using(jc_typed::proofs::Growing::growing, crate::proofs::Appending::appended))]
pub fn push_upwards(
    alloc: Global,
    nodes: &mut Nodes,
    judging: &Judging,
    unchecked: bool,
    at: Led,
    to: &Ty,
) -> Result<Led, WantOfMemory>
    requires steps { at.steps < length nodes.old }
    requires ty { at.ty < length nodes.old }
    ensures steps { IfOk result (λ r. steps_of nodes.new r.steps ≡ steps_of nodes.old at.steps ++ upwards judging.now.table.now judging.now.env.now.bounds unchecked (type_of nodes.old at.ty) to.now) }
    ensures ty { IfOk result (λ r. type_of nodes.new r.ty ≡ to.now) }
    ensures within { IfOk result (λ r. (r.steps < length nodes.new) × (r.ty < length nodes.new)) }
    ensures grows { Grows nodes.old nodes.new }
{
    let erased = erasure(judging.table, judging.env, to);
    let ty = nodes.push_type(copy_type(alloc, to)?)?;
    let last = StepNode::Up {
        ty,
        unchecked: unchecked && !reifiable(judging.table, to),
    };
    let steps = push_step(nodes, at.steps, last)?;
    let steps = push_use_guard_at(alloc, nodes, judging, steps, at.ty, erased)?;
    Ok(Led { steps, ty })
}

/// Steps so far, and the type that they lead to, by their places in the arena.
#[derive(Clone, Copy, Debug)]
pub struct Led {
    pub steps: u32,
    pub ty: u32,
}

// A step to a primitive type.
#[tactic(auto, using(jc_typed::proofs::Growing::growing))]
fn push_to_primitive(
    nodes: &mut Nodes,
    at: Led,
    last: StepNode,
    to: Primitive,
) -> Result<Led, WantOfMemory>
    requires steps { at.steps < length nodes.old }
    requires last { BelowStep (length nodes.old) last }
    ensures steps { IfOk result (λ r. steps_of nodes.new r.steps ≡ steps_of nodes.old at.steps ++ step_over (parts nodes.old) last ∷ []) }
    ensures ty { IfOk result (λ r. type_of nodes.new r.ty ≡ Prim to) }
    ensures within { IfOk result (λ r. (r.steps < length nodes.new) × (r.ty < length nodes.new)) }
    ensures grows { Grows nodes.old nodes.new }
{
    let steps = push_step(nodes, at.steps, last)?;
    let ty = nodes.push_type(Ty::Prim(to))?;
    Ok(Led { steps, ty })
}

// The primitive type of a type that is one.
#[tactic(auto, using(jc_types::proofs::Opened::opened))]
fn primitive_of(ty: &Ty) -> Primitive
    ensures { result ≡ primitive_at (out-Ty ty.now) }
{
    match ty {
        Ty::Prim(p) => *p,
        _ => Primitive::Int,
    }
}

// A step to the class of a primitive type (JLS 5.1.7).
#[tactic(auto, using(jc_typed::proofs::Growing::growing))]
fn push_boxed(
    alloc: Global,
    nodes: &mut Nodes,
    judging: &Judging,
    at: Led,
) -> Result<Led, WantOfMemory>
    requires steps { at.steps < length nodes.old }
    requires ty { at.ty < length nodes.old }
    ensures steps { IfOk result (λ r. steps_of nodes.new r.steps ≡ steps_of nodes.old at.steps ++ turned judging.now.table.now judging.now.env.now.bounds false (type_of nodes.old at.ty) Step.BoxUp) }
    ensures ty { IfOk result (λ r. type_of nodes.new r.ty ≡ turned_to judging.now.table.now judging.now.env.now.bounds (type_of nodes.old at.ty) Step.BoxUp) }
    ensures within { IfOk result (λ r. (r.steps < length nodes.new) × (r.ty < length nodes.new)) }
    ensures grows { Grows nodes.old nodes.new }
{
    let of = primitive_of(nodes.ty(at.ty));
    let steps = push_step(nodes, at.steps, StepNode::BoxUp(of))?;
    let ty = nodes.push_type(Ty::Class {
        id: box_class(judging.table, of),
        args: Items::new(alloc),
    })?;
    Ok(Led { steps, ty })
}

// A step to the primitive type of a class (JLS 5.1.8).
fn push_unboxed(
    alloc: Global,
    nodes: &mut Nodes,
    judging: &Judging,
    at: Led,
) -> Result<Led, WantOfMemory>
    requires steps { at.steps < length nodes.old }
    requires ty { at.ty < length nodes.old }
    ensures steps { IfOk result (λ r. steps_of nodes.new r.steps ≡ steps_of nodes.old at.steps ++ turned judging.now.table.now judging.now.env.now.bounds false (type_of nodes.old at.ty) Step.Unbox) }
    ensures ty { IfOk result (λ r. type_of nodes.new r.ty ≡ turned_to judging.now.table.now judging.now.env.now.bounds (type_of nodes.old at.ty) Step.Unbox) }
    ensures within { IfOk result (λ r. (r.steps < length nodes.new) × (r.ty < length nodes.new)) }
    ensures grows { Grows nodes.old nodes.new }
{
    let env = judging.env.bounds.slice();
    match unboxed(alloc, judging.table, env, nodes.ty(at.ty))? {
        Some(to) => push_to_primitive(nodes, at, StepNode::Unbox(to), to),
        None => push_to_primitive(nodes, at, StepNode::Unbox(Primitive::Int), Primitive::Int),
    }
}

// A step that tests for a type.
#[tactic(auto, using(jc_typed::proofs::Growing::growing))]
fn push_checked(
    alloc: Global,
    nodes: &mut Nodes,
    judging: &Judging,
    at: Led,
    to: &Ty,
) -> Result<Led, WantOfMemory>
    requires { at.steps < length nodes.old }
    ensures steps { IfOk result (λ r. steps_of nodes.new r.steps ≡ steps_of nodes.old at.steps ++ turned judging.now.table.now judging.now.env.now.bounds false (type_of nodes.old at.ty) (Step.Check to.now)) }
    ensures ty { IfOk result (λ r. type_of nodes.new r.ty ≡ to.now) }
    ensures within { IfOk result (λ r. (r.steps < length nodes.new) × (r.ty < length nodes.new)) }
    ensures grows { Grows nodes.old nodes.new }
{
    let last = StepNode::Test {
        check: Check::WrittenCast,
        to: erasure(judging.table, judging.env, to),
    };
    let steps = push_step(nodes, at.steps, last)?;
    let ty = nodes.push_type(copy_type(alloc, to)?)?;
    Ok(Led { steps, ty })
}

// A step of a conversion.
fn push_turned(
    alloc: Global,
    nodes: &mut Nodes,
    judging: &Judging,
    unchecked: bool,
    at: Led,
    turn: &Step,
) -> Result<Led, WantOfMemory>
    requires steps { at.steps < length nodes.old }
    requires ty { at.ty < length nodes.old }
    ensures steps { IfOk result (λ r. steps_of nodes.new r.steps ≡ steps_of nodes.old at.steps ++ turned judging.now.table.now judging.now.env.now.bounds unchecked (type_of nodes.old at.ty) turn.now) }
    ensures ty { IfOk result (λ r. type_of nodes.new r.ty ≡ turned_to judging.now.table.now judging.now.env.now.bounds (type_of nodes.old at.ty) turn.now) }
    ensures within { IfOk result (λ r. (r.steps < length nodes.new) × (r.ty < length nodes.new)) }
    ensures grows { Grows nodes.old nodes.new }
{
    match turn {
        Step::Widen(to) => push_to_primitive(nodes, at, StepNode::Widen(*to), *to),
        Step::Narrow(to) => push_to_primitive(nodes, at, StepNode::Narrow(*to), *to),
        Step::BoxUp => push_boxed(alloc, nodes, judging, at),
        Step::Unbox => push_unboxed(alloc, nodes, judging, at),
        Step::Up(to) => push_upwards(alloc, nodes, judging, unchecked, at, to),
        Step::Check(to) => push_checked(alloc, nodes, judging, at, to),
    }
}

// All steps of a conversion.
#[tactic(auto, using(jc_typed::proofs::Growing::growing, crate::proofs::Appending::appended))]
fn push_led(
    alloc: Global,
    nodes: &mut Nodes,
    judging: &Judging,
    unchecked: bool,
    before: Led,
    turns: &[Step],
) -> Result<u32, WantOfMemory>
    requires steps { before.steps < length nodes.old }
    requires ty { before.ty < length nodes.old }
    ensures value { IfOk result (λ at. steps_of nodes.new at ≡ steps_of nodes.old before.steps ++ led judging.now.table.now judging.now.env.now.bounds unchecked (type_of nodes.old before.ty) turns.now) }
    ensures within { IfOk result (λ at. at < length nodes.new) }
    ensures grows { Grows nodes.old nodes.new }
{
    let mut at = before;
    let mut rest = turns;
    while let [turn, more @ ..] = rest {
        at = push_turned(alloc, nodes, judging, unchecked, at, turn)?;
        rest = more;
    }
    Ok(at.steps)
}

/// The steps of a conversion from a type in the arena, behind those of a list.
#[tactic(auto, using(jc_typed::proofs::Growing::growing, crate::proofs::Appending::appended))]
pub fn push_steps_by(
    alloc: Global,
    nodes: &mut Nodes,
    judging: &Judging,
    before: Led,
    converts: &Converts,
) -> Result<u32, WantOfMemory>
    requires steps { before.steps < length nodes.old }
    requires ty { before.ty < length nodes.old }
    ensures value { IfOk result (λ at. steps_of nodes.new at ≡ steps_of nodes.old before.steps ++ steps_by judging.now.table.now judging.now.env.now.bounds (type_of nodes.old before.ty) converts.now) }
    ensures within { IfOk result (λ at. at < length nodes.new) }
    ensures grows { Grows nodes.old nodes.new }
{
    match converts {
        Converts::Yes(by) => {
            push_led(
                alloc,
                nodes,
                judging,
                by.unchecked,
                before,
                by.steps.slice(),
            )
        }
        _ => Ok(before.steps),
    }
}

/// The same for a cast, whose own steps never say that a warning stands there, since the cast's does.
#[tactic(auto, using(jc_typed::proofs::Growing::growing, crate::proofs::Appending::appended))]
pub fn push_cast_steps(
    alloc: Global,
    nodes: &mut Nodes,
    judging: &Judging,
    before: Led,
    converts: &Converts,
) -> Result<u32, WantOfMemory>
    requires steps { before.steps < length nodes.old }
    requires ty { before.ty < length nodes.old }
    ensures value { IfOk result (λ at. steps_of nodes.new at ≡ steps_of nodes.old before.steps ++ cast_steps_by judging.now.table.now judging.now.env.now.bounds (type_of nodes.old before.ty) converts.now) }
    ensures within { IfOk result (λ at. at < length nodes.new) }
    ensures grows { Grows nodes.old nodes.new }
{
    match converts {
        Converts::Yes(by) => push_led(alloc, nodes, judging, false, before, by.steps.slice()),
        _ => Ok(before.steps),
    }
}

/// A typed part with these steps, which begin with its lead.
#[tactic(auto, using(jc_typed::proofs::Growing::growing))]
pub fn stepped(nodes: &mut Nodes, part: Part, steps: u32) -> Result<u32, WantOfMemory>
    requires of { part.of < length nodes.old }
    requires steps { steps < length nodes.old }
    ensures value { IfOk result (λ at. operand_of nodes.new at ≡ operand part.start (expr_of nodes.old part.of) (steps_of nodes.old steps)) }
    ensures within { IfOk result (λ at. at < length nodes.new) }
    ensures grows { Grows nodes.old nodes.new }
{
    nodes.push_operand(OperandNode::Operand {
        place: part.start,
        of: part.of,
        steps,
    })
}

/// A typed part with the steps of a conversion behind its lead.
#[tactic(auto, using(jc_typed::proofs::Growing::growing))]
pub fn converted(
    alloc: Global,
    nodes: &mut Nodes,
    judging: &Judging,
    part: Part,
    converts: &Converts,
) -> Result<u32, WantOfMemory>
    requires { IsPart nodes.old part }
    ensures value { IfOk result (λ at. operand_of nodes.new at ≡ converted judging.now.table.now judging.now.env.now.bounds (known nodes.old part.at) converts.now) }
    ensures within { IfOk result (λ at. at < length nodes.new) }
    ensures grows { Grows nodes.old nodes.new }
{
    let before = Led {
        steps: part.lead,
        ty: part.ty,
    };
    let steps = push_steps_by(alloc, nodes, judging, before, converts)?;
    stepped(nodes, part, steps)
}
