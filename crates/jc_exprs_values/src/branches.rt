//! The branches of a conditional: its type by theirs, and the steps that take them there (JLS 15.25).
ghost use Rattle.std.specs.Prelude.{◌≡◌, ◌<◌, ◌++◌, ◌∷◌, [], None, length, IfOk};
ghost use Rattle.std.specs.Option.{option_copied};
ghost use Rattle.jc_types.specs.declared.form.Ty.{out-Ty};
ghost use Rattle.jc_convert.specs.Converting.{box, narrows};
ghost use Rattle.jc_typed.specs.Parts.{Grows, operand_of, steps_of, type_of};
ghost use Rattle.jc_typed.specs.Trees.{BoxUp};
ghost use Rattle.jc_exprs_nodes_spec.specs.Typeds.{stepped, type_of as counted_type};
ghost use Rattle.jc_exprs_nodes.specs.Walks.{IsPart, known};
ghost use Rattle.jc_exprs_parts_spec.specs.Operators.{primitive_or};
ghost use Rattle.jc_exprs_parts_spec.specs.Values.{boxes_or, branch, chosen_type, fits_in, lifted, lubbed, numeric_or_lub, up_to};

use crate::kinds::{as_primitive, has_class, is_int, is_null_beside};
use jc_boxes::{box_class, boxed};
use jc_convert::assignment;
use jc_exprs_constants::{Fitting, constant_part, is_numeric, narrows_from_int, numeric_choice};
use jc_exprs_nodes::{Judging, Led, Part, converted, push_step, push_upwards, stepped};
use jc_lub::lub;
use jc_repair::repair;
use jc_rules::{Items, WantOfMemory};
use jc_sub::is_primitive;
use jc_typed::{Nodes, StepNode};
use jc_types::{Constant, Primitive, Ty, copy_type, same_type};
use std::alloc::Global;

/// Both branches of a conditional.
#[derive(Clone, Copy)]
pub struct Branches<'a> {
    pub nodes: &'a Nodes,
    pub first: Part,
    pub second: Part,
}

fn narrows(constant: Option<&Constant>, to: Primitive) -> bool
    ensures { result ≡ narrows (option_copied constant.entry) Primitive.Int to }
{
    match constant {
        None => false,
        Some(constant) => narrows_from_int(constant, to),
    }
}

// Whether a branch is a constant int that fits a type.
fn fits_in(nodes: &Nodes, part: Part, to: Primitive) -> bool
    requires { IsPart nodes.now part }
    ensures { result ≡ fits_in (known nodes.now part.at) to }
{
    is_int(nodes.ty(part.ty)) && narrows(constant_part(nodes, part), to)
}

// The least upper bound of the types after boxing, repaired.
fn lubbed(alloc: Global, judging: &Judging, s: &Ty, t: &Ty) -> Result<Ty, WantOfMemory>
    ensures { IfOk result (λ r. r ≡ lubbed judging.now.table.now judging.now.env.now.bounds s.now t.now) }
{
    let mut types = Items::new(alloc);
    types.push(boxed(alloc, judging.table, s)?)?;
    types.push(boxed(alloc, judging.table, t)?)?;
    let above = lub(alloc, judging.table, judging.env, types.slice())?;
    repair(alloc, judging.table, judging.env, &above)
}

// The type of two branches that are numbers after unboxing; else what is above both.
fn numeric_or_lub(
    alloc: Global,
    judging: &Judging,
    branches: &Branches,
    first: Option<Primitive>,
    second: Option<Primitive>,
) -> Result<Ty, WantOfMemory>
    requires first { IsPart branches.now.nodes.now branches.now.first }
    requires second { IsPart branches.now.nodes.now branches.now.second }
    ensures { IfOk result (λ r. r ≡ numeric_or_lub judging.now.table.now judging.now.env.now.bounds (known branches.now.nodes.now branches.now.first.at) (known branches.now.nodes.now branches.now.second.at) first second) }
{
    if let Some(p) = first {
        if let Some(q) = second {
            if is_numeric(p) && is_numeric(q) {
                let fits = Fitting {
                    first: fits_in(branches.nodes, branches.first, q),
                    second: fits_in(branches.nodes, branches.second, p),
                };
                return Ok(Ty::Prim(numeric_choice(p, q, fits)));
            }
        }
    }
    let s = branches.nodes.ty(branches.first.ty);
    let t = branches.nodes.ty(branches.second.ty);
    lubbed(alloc, judging, s, t)
}

// The type of two branches of different types.
fn boxes_or(alloc: Global, judging: &Judging, branches: &Branches) -> Result<Ty, WantOfMemory>
    requires first { IsPart branches.now.nodes.now branches.now.first }
    requires second { IsPart branches.now.nodes.now branches.now.second }
    ensures { let a = known branches.now.nodes.now branches.now.first.at in let b = known branches.now.nodes.now branches.now.second.at in IfOk result (λ r. r ≡ boxes_or judging.now.table.now judging.now.env.now.bounds a b (counted_type a) (counted_type b)) }
{
    let s = branches.nodes.ty(branches.first.ty);
    let t = branches.nodes.ty(branches.second.ty);
    if has_class(alloc, judging.table, s, t)? {
        return copy_type(alloc, s);
    }
    if has_class(alloc, judging.table, t, s)? {
        return copy_type(alloc, t);
    }
    if is_null_beside(s, t) {
        return copy_type(alloc, t);
    }
    if is_null_beside(t, s) {
        return copy_type(alloc, s);
    }
    let first = as_primitive(alloc, judging, s)?;
    let second = as_primitive(alloc, judging, t)?;
    numeric_or_lub(alloc, judging, branches, first, second)
}

/// The type of a conditional.
#[tactic(auto, unfolding(jc_exprs_parts_spec::specs::Values::chosen_type))]
pub fn chosen_type(
    alloc: Global,
    judging: &Judging,
    branches: &Branches,
) -> Result<Ty, WantOfMemory>
    requires first { IsPart branches.now.nodes.now branches.now.first }
    requires second { IsPart branches.now.nodes.now branches.now.second }
    ensures { IfOk result (λ r. r ≡ chosen_type judging.now.table.now judging.now.env.now.bounds (known branches.now.nodes.now branches.now.first.at) (known branches.now.nodes.now branches.now.second.at)) }
{
    let s = branches.nodes.ty(branches.first.ty);
    if same_type(s, branches.nodes.ty(branches.second.ty)) {
        return copy_type(alloc, s);
    }
    boxes_or(alloc, judging, branches)
}

// Up to a type, unless it is that type already.
#[tactic(auto, using(jc_typed::proofs::Growing::growing, jc_exprs_nodes::proofs::Appending::appended))]
fn push_up(
    alloc: Global,
    nodes: &mut Nodes,
    judging: &Judging,
    at: Led,
    to: &Ty,
) -> Result<u32, WantOfMemory>
    requires steps { at.steps < length nodes.old }
    requires ty { at.ty < length nodes.old }
    ensures value { IfOk result (λ r. steps_of nodes.new r ≡ steps_of nodes.old at.steps ++ up_to judging.now.table.now judging.now.env.now.bounds (type_of nodes.old at.ty) to.now) }
    ensures within { IfOk result (λ r. r < length nodes.new) }
    ensures grows { Grows nodes.old nodes.new }
{
    if same_type(nodes.ty(at.ty), to) {
        return Ok(at.steps);
    }
    let led = push_upwards(alloc, nodes, judging, false, at, to)?;
    Ok(led.steps)
}

// A step to the class of a primitive type.
#[tactic(auto, using(jc_typed::proofs::Growing::growing))]
fn push_boxed(
    alloc: Global,
    nodes: &mut Nodes,
    judging: &Judging,
    before: u32,
    of: Primitive,
) -> Result<Led, WantOfMemory>
    requires { before < length nodes.old }
    ensures steps { IfOk result (λ r. steps_of nodes.new r.steps ≡ steps_of nodes.old before ++ BoxUp of ∷ []) }
    ensures ty { IfOk result (λ r. type_of nodes.new r.ty ≡ box judging.now.table.now of) }
    ensures within { IfOk result (λ r. (r.steps < length nodes.new) × (r.ty < length nodes.new)) }
    ensures grows { Grows nodes.old nodes.new }
{
    let steps = push_step(nodes, before, StepNode::BoxUp(of))?;
    let ty = nodes.push_type(Ty::Class {
        id: box_class(judging.table, of),
        args: Items::new(alloc),
    })?;
    Ok(Led { steps, ty })
}

#[tactic(auto, using(jc_types::proofs::Opened::opened))]
fn primitive(ty: &Ty) -> Option<Primitive>
    ensures { primitive_or None (out-Ty ty.now) ≡ result }
{
    match ty {
        Ty::Prim(p) => Some(*p),
        _ => None,
    }
}

// Up to a reference type, after boxing.
#[tactic(auto, using(jc_types::proofs::Opened::opened, jc_typed::proofs::Growing::growing, jc_exprs_nodes::proofs::Appending::appended, crate::proofs::Lifting::lifting))]
fn push_lifted(
    alloc: Global,
    nodes: &mut Nodes,
    judging: &Judging,
    at: Led,
    to: &Ty,
) -> Result<u32, WantOfMemory>
    requires steps { at.steps < length nodes.old }
    requires ty { at.ty < length nodes.old }
    ensures value { IfOk result (λ r. steps_of nodes.new r ≡ steps_of nodes.old at.steps ++ lifted judging.now.table.now judging.now.env.now.bounds (type_of nodes.old at.ty) (out-Ty (type_of nodes.old at.ty)) to.now) }
    ensures within { IfOk result (λ r. r < length nodes.new) }
    ensures grows { Grows nodes.old nodes.new }
{
    match primitive(nodes.ty(at.ty)) {
        Some(of) => {
            let boxed = push_boxed(alloc, nodes, judging, at.steps, of)?;
            push_up(alloc, nodes, judging, boxed, to)
        }
        None => push_up(alloc, nodes, judging, at, to),
    }
}

// A branch that goes to a reference type.
#[tactic(auto, using(jc_typed::proofs::Growing::growing, jc_exprs_nodes::proofs::Staying::staying))]
fn push_lifted_branch(
    alloc: Global,
    nodes: &mut Nodes,
    judging: &Judging,
    part: Part,
    to: &Ty,
) -> Result<u32, WantOfMemory>
    requires { IsPart nodes.old part }
    ensures value { let a = known nodes.old part.at in IfOk result (λ r. operand_of nodes.new r ≡ stepped a (lifted judging.now.table.now judging.now.env.now.bounds (counted_type a) (out-Ty (counted_type a)) to.now)) }
    ensures within { IfOk result (λ r. r < length nodes.new) }
    ensures grows { Grows nodes.old nodes.new }
{
    let at = Led {
        steps: part.lead,
        ty: part.ty,
    };
    let steps = push_lifted(alloc, nodes, judging, at, to)?;
    stepped(nodes, part, steps)
}

/// A branch as a value of the type of its conditional.
pub fn push_branch(
    alloc: Global,
    nodes: &mut Nodes,
    judging: &Judging,
    part: Part,
    to: &Ty,
) -> Result<u32, WantOfMemory>
    requires { IsPart nodes.old part }
    ensures value { IfOk result (λ r. operand_of nodes.new r ≡ branch judging.now.table.now judging.now.env.now.bounds (known nodes.old part.at) to.now) }
    ensures within { IfOk result (λ r. r < length nodes.new) }
    ensures grows { Grows nodes.old nodes.new }
{
    if !is_primitive(to) {
        return push_lifted_branch(alloc, nodes, judging, part, to);
    }
    let constant = constant_part(nodes, part);
    let from = nodes.ty(part.ty);
    let converts = assignment(alloc, judging.table, judging.env, from, constant, to)?;
    converted(alloc, nodes, judging, part, &converts)
}
