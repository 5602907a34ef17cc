//! Expressions by what they are wanted for (JLS 14.8, 14.9, 14.11, 14.17, 14.18).
ghost use Rattle.std.specs.Prelude.{◌≡◌, ◌<◌, [], length, true, false, IfOk, IfSome, OnOk};
ghost use Rattle.std.specs.Option.{option_copied};
ghost use Rattle.jc_typed.specs.Parts.{Grows, operand_of};
ghost use Rattle.jc_exprs_nodes_spec.specs.Gates.{gated};
ghost use Rattle.jc_exprs_nodes_spec.specs.Told.{fine, ran};
ghost use Rattle.jc_exprs_nodes_spec.specs.Typeds.{bare, stepped, type_of as counted_type, use_guard};
ghost use Rattle.jc_exprs_nodes.specs.Walks.{IsPart, as_breaks, has, known, now};
ghost use Rattle.jc_exprs_parts_spec.specs.Assigning.{exact_primitive};
ghost use Rattle.jc_stmts_spec.specs.Courses.{converted_by, is_selector, not_below, result_target, returned, selected, selector_steps, throwable, thrown, truth};
ghost use Rattle.jc_stmts_plan.specs.Seen.{want_seen};
ghost use Rattle.jc_stmts_wants.specs.Wanting.{OperandBelow, has_operand, wanted_by};

use crate::constants::constant;
use jc_boxes::unboxed;
use jc_convert::{Converts, assignment, invocation};
use jc_exprs_nodes::{
    Judging, Part, Walk, converted, note, part, push_step, push_use_guard_at, refusal, stepped,
    unconverted,
};
use jc_judge::Answer;
use jc_rules::{Items, Place, Refusal, WantOfMemory};
use jc_stmts_plan::Want;
use jc_sub::{below, is_primitive};
use jc_typed::{Nodes, StepNode, StepsNode};
use jc_types::{Erased, Primitive, Table, Ty, class_named, erasure};
use std::alloc::Global;

/// What expressions of a body are asked with: the table, the type of the method's result, and the file that it stands in.
#[derive(Clone, Copy)]
pub struct Wanting<'a> {
    pub table: &'a Table,
    pub result: Option<&'a Ty>,
    pub file: u64,
}

// An operand of a conversion, where there is one.
#[tactic(auto, using(jc_typed::proofs::Growing::growing), unfolding(jc_exprs_nodes_spec::specs::Told::ran))]
fn converted_by(
    alloc: Global,
    table: &Table,
    walk: &mut Walk,
    part: Part,
    converts: &Converts,
) -> Result<Option<u32>, WantOfMemory>
    requires { IsPart walk.old.nodes part }
    ensures state { OnOk result ((ran (converted_by table.now walk.old.env.bounds 607 (known walk.old.nodes part.at) converts.now) (now walk.old)).state ≡ now walk.new) }
    ensures value { IfOk result (λ at. (ran (converted_by table.now walk.old.env.bounds 607 (known walk.old.nodes part.at) converts.now) (now walk.old)).has ≡ has_operand walk.new.nodes at) }
    ensures within { IfOk result (λ at. OperandBelow (length walk.new.nodes) at) }
    ensures grows { Grows walk.old.nodes walk.new.nodes }
{
    if let Some(break_of) = unconverted(607, part.start, converts) {
        note(walk, break_of);
        return Ok(None);
    }
    let judging = Judging {
        table,
        env: &walk.env,
    };
    let at = converted(alloc, &mut walk.nodes, &judging, part, converts)?;
    Ok(Some(at))
}

// A condition (JLS 14.9, 14.12 to 14.14): 607 where it isn't boolean after unboxing.
#[tactic(auto, using(jc_typed::proofs::Growing::growing), unfolding(jc_exprs_nodes_spec::specs::Told::ran))]
fn truth(
    alloc: Global,
    table: &Table,
    walk: &mut Walk,
    part: Part,
) -> Result<Option<u32>, WantOfMemory>
    requires { IsPart walk.old.nodes part }
    ensures state { OnOk result ((ran (truth table.now (known walk.old.nodes part.at)) (now walk.old)).state ≡ now walk.new) }
    ensures value { IfOk result (λ at. (ran (truth table.now (known walk.old.nodes part.at)) (now walk.old)).has ≡ has_operand walk.new.nodes at) }
    ensures within { IfOk result (λ at. OperandBelow (length walk.new.nodes) at) }
    ensures grows { Grows walk.old.nodes walk.new.nodes }
{
    let boolean = Ty::Prim(Primitive::Boolean);
    let from = walk.nodes.ty(part.ty);
    let converts = invocation(alloc, table, &walk.env, from, &boolean)?;
    converted_by(alloc, table, walk, part, &converts)
}

// The value of a `return` (JLS 14.17): 607 where it doesn't go to the result's type by assignment.
#[tactic(auto, using(jc_typed::proofs::Growing::growing), unfolding(jc_exprs_nodes_spec::specs::Told::ran))]
fn returned(
    alloc: Global,
    table: &Table,
    walk: &mut Walk,
    part: Part,
    to: &Ty,
) -> Result<Option<u32>, WantOfMemory>
    requires { IsPart walk.old.nodes part }
    ensures state { OnOk result ((ran (returned table.now to.now (known walk.old.nodes part.at)) (now walk.old)).state ≡ now walk.new) }
    ensures value { IfOk result (λ at. (ran (returned table.now to.now (known walk.old.nodes part.at)) (now walk.old)).has ≡ has_operand walk.new.nodes at) }
    ensures within { IfOk result (λ at. OperandBelow (length walk.new.nodes) at) }
    ensures grows { Grows walk.old.nodes walk.new.nodes }
{
    let from = walk.nodes.ty(part.ty);
    let value = constant(&walk.nodes, part);
    let converts = assignment(alloc, table, &walk.env, from, value, to)?;
    converted_by(alloc, table, walk, part, &converts)
}

// .. which goes nowhere where the method has no result.
fn returned_if(
    alloc: Global,
    wanting: &Wanting,
    walk: &mut Walk,
    part: Part,
) -> Result<Option<u32>, WantOfMemory>
    requires { IsPart walk.old.nodes part }
    ensures state { OnOk result ((ran (returned wanting.now.table.now (result_target (option_copied wanting.now.result)) (known walk.old.nodes part.at)) (now walk.old)).state ≡ now walk.new) }
    ensures value { IfOk result (λ at. (ran (returned wanting.now.table.now (result_target (option_copied wanting.now.result)) (known walk.old.nodes part.at)) (now walk.old)).has ≡ has_operand walk.new.nodes at) }
    ensures within { IfOk result (λ at. OperandBelow (length walk.new.nodes) at) }
    ensures grows { Grows walk.old.nodes walk.new.nodes }
{
    match wanting.result {
        Some(to) => returned(alloc, wanting.table, walk, part, to),
        None => returned(alloc, wanting.table, walk, part, &Ty::NullTy),
    }
}

/// The primitive type of a type that is one, or is exactly its class.
#[tactic(auto, using(jc_types::proofs::Opened::opened), unfolding(jc_exprs_parts_spec::specs::Assigning::exact_primitive))]
fn exact_primitive(table: &Table, ty: &Ty) -> Option<Primitive>
    ensures { result ≡ exact_primitive table.now ty.now }
{
    match ty {
        Ty::Prim(p) => Some(*p),
        Ty::Class { id, args } => match args.slice() {
            [] => unboxed(table, *id),
            _ => None,
        },
        _ => None,
    }
}

// What a `switch` goes by (JLS 14.11).
fn selector(exact: Option<Primitive>) -> Option<Primitive>
    ensures none { (result ≡ None) → (is_selector exact ≡ false) }
    ensures some { IfSome result (λ p. (exact ≡ Some p) × (is_selector exact ≡ true)) }
{
    match exact {
        None => None,
        Some(Primitive::Boolean) => None,
        Some(Primitive::Long) => None,
        Some(p) => Some(p),
    }
}

// A selector of a class type is unboxed.
#[tactic(auto, using(jc_typed::proofs::Growing::growing, jc_exprs_nodes::proofs::Appending::appended))]
fn push_selector(nodes: &mut Nodes, part: Part, to: Primitive) -> Result<u32, WantOfMemory>
    requires { IsPart nodes.old part }
    ensures value { IfOk result (λ at. operand_of nodes.new at ≡ stepped (known nodes.old part.at) (selector_steps (counted_type (known nodes.old part.at)) (Some to))) }
    ensures within { IfOk result (λ at. at < length nodes.new) }
    ensures grows { Grows nodes.old nodes.new }
{
    if is_primitive(nodes.ty(part.ty)) {
        return stepped(nodes, part, part.lead);
    }
    let steps = push_step(nodes, part.lead, StepNode::Unbox(to))?;
    stepped(nodes, part, steps)
}

// The selector of a `switch`: 614 where it is neither a char, byte, short or int nor exactly the class of one.
#[tactic(auto, using(jc_typed::proofs::Growing::growing), unfolding(jc_exprs_nodes_spec::specs::Told::ran))]
fn selected(table: &Table, walk: &mut Walk, part: Part) -> Result<Option<u32>, WantOfMemory>
    requires { IsPart walk.old.nodes part }
    ensures state { OnOk result ((ran (selected table.now (known walk.old.nodes part.at)) (now walk.old)).state ≡ now walk.new) }
    ensures value { IfOk result (λ at. (ran (selected table.now (known walk.old.nodes part.at)) (now walk.old)).has ≡ has_operand walk.new.nodes at) }
    ensures within { IfOk result (λ at. OperandBelow (length walk.new.nodes) at) }
    ensures grows { Grows walk.old.nodes walk.new.nodes }
{
    let exact = exact_primitive(table, walk.nodes.ty(part.ty));
    match selector(exact) {
        Some(to) => {
            let at = push_selector(&mut walk.nodes, part, to)?;
            Ok(Some(at))
        }
        None => {
            note(walk, refusal(614, part.place));
            Ok(None)
        }
    }
}

/// `java.lang.Throwable`.
pub fn throwable(alloc: Global, table: &Table) -> Ty
    ensures { result ≡ throwable table.now }
{
    Ty::Class {
        id: class_named(table, "java.lang.Throwable"),
        args: Items::new(alloc),
    }
}

/// What is broken where a type isn't below Throwable: 625, or 606 where that can't be told.
pub fn not_throwable(place: Place, answer: Answer) -> Option<Refusal>
    ensures { as_breaks result ≡ not_below 625 place answer }
{
    match answer {
        Answer::Yes => None,
        Answer::No => Some(refusal(625, place)),
        Answer::Deep => Some(refusal(606, place)),
    }
}

/// A part that is used as one of an erased type.
#[tactic(auto, using(jc_typed::proofs::Growing::growing))]
pub fn push_guarded(
    alloc: Global,
    nodes: &mut Nodes,
    judging: &Judging,
    part: Part,
    to: Erased,
) -> Result<u32, WantOfMemory>
    requires { IsPart nodes.old part }
    ensures value { IfOk result (λ at. operand_of nodes.new at ≡ stepped (known nodes.old part.at) (use_guard judging.now.table.now judging.now.env.now.bounds (counted_type (known nodes.old part.at)) to)) }
    ensures within { IfOk result (λ at. at < length nodes.new) }
    ensures grows { Grows nodes.old nodes.new }
{
    let steps = push_use_guard_at(alloc, nodes, judging, part.lead, part.ty, to)?;
    stepped(nodes, part, steps)
}

// What is thrown (JLS 14.18): 625 at the statement where it is no Throwable.
#[tactic(auto, using(jc_typed::proofs::Growing::growing), unfolding(jc_exprs_nodes_spec::specs::Told::ran))]
fn thrown(
    alloc: Global,
    table: &Table,
    walk: &mut Walk,
    part: Part,
    place: Place,
) -> Result<Option<u32>, WantOfMemory>
    requires { IsPart walk.old.nodes part }
    ensures state { OnOk result ((ran (thrown table.now place (known walk.old.nodes part.at)) (now walk.old)).state ≡ now walk.new) }
    ensures value { IfOk result (λ at. (ran (thrown table.now place (known walk.old.nodes part.at)) (now walk.old)).has ≡ has_operand walk.new.nodes at) }
    ensures within { IfOk result (λ at. OperandBelow (length walk.new.nodes) at) }
    ensures grows { Grows walk.old.nodes walk.new.nodes }
{
    let throwable = throwable(alloc, table);
    let from = walk.nodes.ty(part.ty);
    let answer = below(alloc, table, &walk.env, from, &throwable)?;
    if let Some(break_of) = not_throwable(place, answer) {
        note(walk, break_of);
        return Ok(None);
    }
    let judging = Judging {
        table,
        env: &walk.env,
    };
    let to = erasure(table, &walk.env, &throwable);
    let at = push_guarded(alloc, &mut walk.nodes, &judging, part, to)?;
    Ok(Some(at))
}

// An expression that is a statement goes through no steps.
#[tactic(auto, using(jc_typed::proofs::Growing::growing), unfolding(jc_exprs_nodes_spec::specs::Told::ran))]
fn bare(walk: &mut Walk, part: Part) -> Result<Option<u32>, WantOfMemory>
    requires { IsPart walk.old.nodes part }
    ensures state { OnOk result ((ran (fine (bare (known walk.old.nodes part.at))) (now walk.old)).state ≡ now walk.new) }
    ensures value { IfOk result (λ at. (ran (fine (bare (known walk.old.nodes part.at))) (now walk.old)).has ≡ has_operand walk.new.nodes at) }
    ensures within { IfOk result (λ at. OperandBelow (length walk.new.nodes) at) }
    ensures grows { Grows walk.old.nodes walk.new.nodes }
{
    let none = walk.nodes.push_steps(StepsNode::Empty)?;
    let at = stepped(&mut walk.nodes, part, none)?;
    Ok(Some(at))
}

// A typed expression by what it is wanted for.
#[tactic(auto, using(jc_typed::proofs::Growing::growing), unfolding(jc_exprs_nodes_spec::specs::Told::ran))]
fn wanted_part(
    alloc: Global,
    wanting: &Wanting,
    walk: &mut Walk,
    want: Want,
    part: Part,
) -> Result<Option<u32>, WantOfMemory>
    requires { IsPart walk.old.nodes part }
    ensures state { OnOk result ((ran (wanted_by wanting.now.table.now (option_copied wanting.now.result) wanting.now.file (want_seen want) (known walk.old.nodes part.at)) (now walk.old)).state ≡ now walk.new) }
    ensures value { IfOk result (λ at. (ran (wanted_by wanting.now.table.now (option_copied wanting.now.result) wanting.now.file (want_seen want) (known walk.old.nodes part.at)) (now walk.old)).has ≡ has_operand walk.new.nodes at) }
    ensures within { IfOk result (λ at. OperandBelow (length walk.new.nodes) at) }
    ensures grows { Grows walk.old.nodes walk.new.nodes }
{
    match want {
        Want::Effect => bare(walk, part),
        Want::Truth => truth(alloc, wanting.table, walk, part),
        Want::Result => returned_if(alloc, wanting, walk, part),
        Want::Nowhere => Ok(Some(part.at)),
        Want::Selector => selected(wanting.table, walk, part),
        Want::Thrown { at } => {
            let place = Place {
                file: wanting.file,
                at,
            };
            thrown(alloc, wanting.table, walk, part, place)
        }
    }
}

/// An expression by what it is wanted for, where the walk has a typing of it: 607 at a condition or a result that isn't converted, 614 at a selector, 625 at the statement that throws.
pub fn wanted(
    alloc: Global,
    wanting: &Wanting,
    walk: &mut Walk,
    want: Want,
    at: u32,
) -> Result<Option<u32>, WantOfMemory>
    requires { at < length walk.old.nodes }
    ensures state { OnOk result ((gated (wanted_by wanting.now.table.now (option_copied wanting.now.result) wanting.now.file (want_seen want)) (has walk.old.nodes at) (now walk.old)).state ≡ now walk.new) }
    ensures value { IfOk result (λ r. (gated (wanted_by wanting.now.table.now (option_copied wanting.now.result) wanting.now.file (want_seen want)) (has walk.old.nodes at) (now walk.old)).has ≡ has_operand walk.new.nodes r) }
    ensures within { IfOk result (λ r. OperandBelow (length walk.new.nodes) r) }
    ensures grows { Grows walk.old.nodes walk.new.nodes }
{
    match part(&walk.nodes, at) {
        None => Ok(None),
        Some(part) => wanted_part(alloc, wanting, walk, want, part),
    }
}
