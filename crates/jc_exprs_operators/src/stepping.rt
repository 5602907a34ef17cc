//! The steps of operands to what an operator takes.
ghost use Rattle.std.specs.Prelude.{◌≡◌, ◌<◌, ◌++◌, length, IfOk};
ghost use Rattle.jc_typed.specs.Parts.{Grows, operand_of, steps_of, type_of};
ghost use Rattle.jc_exprs_nodes_spec.specs.Typeds.{stepped, type_of as counted_type};
ghost use Rattle.jc_exprs_nodes.specs.Walks.{IsPart, known};
ghost use Rattle.jc_exprs_parts_spec.specs.Chains.{op_of, steps_to};
ghost use Rattle.jc_exprs_operators.specs.Takings.{joint_of, left_of, result_in, right_of, wanted};

use crate::kinds::string_type;
use crate::taking::Taking;
use jc_convert::invocation;
use jc_exprs_nodes::{Judging, Led, Part, push_steps_by, stepped};
use jc_rules::WantOfMemory;
use jc_typed::{Joint, Nodes};
use jc_types::{Op, Primitive, Table, Ty, same_type};
use std::alloc::Global;

// The steps to a type that is known to be reached.
#[tactic(auto, using(jc_exprs_nodes::proofs::Appending::appended))]
fn push_steps_into(
    alloc: Global,
    nodes: &mut Nodes,
    judging: &Judging,
    before: Led,
    to: &Ty,
) -> Result<u32, WantOfMemory>
    requires steps { before.steps < length nodes.old }
    requires ty { before.ty < length nodes.old }
    ensures value { IfOk result (λ at. steps_of nodes.new at ≡ steps_of nodes.old before.steps ++ steps_to judging.now.table.now judging.now.env.now.bounds (type_of nodes.old before.ty) to.now) }
    ensures within { IfOk result (λ at. at < length nodes.new) }
    ensures grows { Grows nodes.old nodes.new }
{
    if same_type(nodes.ty(before.ty), to) {
        return Ok(before.steps);
    }
    let by = invocation(alloc, judging.table, judging.env, nodes.ty(before.ty), to)?;
    push_steps_by(alloc, nodes, judging, before, &by)
}

/// The steps to a primitive type that an operator takes, behind those of a list; none where it takes the operand as it is.
#[tactic(auto, using(jc_typed::proofs::Growing::growing, jc_exprs_nodes::proofs::Appending::appended, crate::proofs::Staying::stays))]
pub fn push_steps_to(
    alloc: Global,
    nodes: &mut Nodes,
    judging: &Judging,
    before: Led,
    to: Option<Primitive>,
) -> Result<u32, WantOfMemory>
    requires steps { before.steps < length nodes.old }
    requires ty { before.ty < length nodes.old }
    ensures value { IfOk result (λ at. steps_of nodes.new at ≡ steps_of nodes.old before.steps ++ steps_to judging.now.table.now judging.now.env.now.bounds (type_of nodes.old before.ty) (wanted (type_of nodes.old before.ty) to)) }
    ensures within { IfOk result (λ at. at < length nodes.new) }
    ensures grows { Grows nodes.old nodes.new }
{
    match to {
        None => Ok(before.steps),
        Some(to) => push_steps_into(alloc, nodes, judging, before, &Ty::Prim(to)),
    }
}

/// The primitive type that the left operand is converted to.
pub fn left_of(taking: Taking) -> Option<Primitive>
    ensures { left_of taking ≡ result }
{
    match taking {
        Taking::Converted(to) => Some(to.left),
        _ => None,
    }
}

/// The primitive type that the right operand is converted to.
pub fn right_of(taking: Taking) -> Option<Primitive>
    ensures { right_of taking ≡ result }
{
    match taking {
        Taking::Converted(to) => Some(to.right),
        _ => None,
    }
}

/// The steps of the left value, behind those of a list.
pub fn push_left_steps(
    alloc: Global,
    nodes: &mut Nodes,
    judging: &Judging,
    taking: Taking,
    before: Led,
) -> Result<u32, WantOfMemory>
    requires steps { before.steps < length nodes.old }
    requires ty { before.ty < length nodes.old }
    ensures value { IfOk result (λ at. steps_of nodes.new at ≡ steps_of nodes.old before.steps ++ steps_to judging.now.table.now judging.now.env.now.bounds (type_of nodes.old before.ty) (wanted (type_of nodes.old before.ty) (left_of taking))) }
    ensures within { IfOk result (λ at. at < length nodes.new) }
    ensures grows { Grows nodes.old nodes.new }
{
    push_steps_to(alloc, nodes, judging, before, left_of(taking))
}

/// An operand with the steps to a primitive type that an operator takes, or as it is.
#[tactic(auto, using(jc_typed::proofs::Growing::growing, jc_exprs_nodes::proofs::Staying::staying))]
pub fn push_operand_to(
    alloc: Global,
    nodes: &mut Nodes,
    judging: &Judging,
    part: Part,
    to: Option<Primitive>,
) -> Result<u32, WantOfMemory>
    requires { IsPart nodes.old part }
    ensures value { IfOk result (λ at. operand_of nodes.new at ≡ stepped (known nodes.old part.at) (steps_to judging.now.table.now judging.now.env.now.bounds (counted_type (known nodes.old part.at)) (wanted (counted_type (known nodes.old part.at)) to))) }
    ensures within { IfOk result (λ at. at < length nodes.new) }
    ensures grows { Grows nodes.old nodes.new }
{
    let before = Led {
        steps: part.lead,
        ty: part.ty,
    };
    let steps = push_steps_to(alloc, nodes, judging, before, to)?;
    stepped(nodes, part, steps)
}

/// What joins the operands.
pub fn joint_of(taking: Taking) -> Joint
    ensures { joint_of taking ≡ result }
{
    match taking {
        Taking::Converted(to) => Joint::Operator(to.op),
        Taking::Concat { left, right } => Joint::Concat { left, right },
        Taking::Compared(op) => Joint::Operator(op),
    }
}

/// The operator that joins them, which is `+` for strings as well.
pub fn op_of(taking: Taking) -> Op
    ensures { op_of (joint_of taking) ≡ result }
{
    match taking {
        Taking::Converted(to) => to.op,
        Taking::Concat { .. } => Op::Plus,
        Taking::Compared(op) => op,
    }
}

/// The type of an operator's result.
pub fn result_type(alloc: Global, table: &Table, taking: Taking) -> Ty
    ensures { result_in table.now taking ≡ result }
{
    match taking {
        Taking::Converted(to) => Ty::Prim(to.result),
        Taking::Concat { .. } => string_type(alloc, table),
        Taking::Compared(_) => Ty::Prim(Primitive::Boolean),
    }
}

/// The same in the arena.
pub fn push_result(
    alloc: Global,
    nodes: &mut Nodes,
    table: &Table,
    taking: Taking,
) -> Result<u32, WantOfMemory>
    ensures value { IfOk result (λ at. type_of nodes.new at ≡ result_in table.now taking) }
    ensures within { IfOk result (λ at. at < length nodes.new) }
    ensures grows { Grows nodes.old nodes.new }
{
    nodes.push_type(result_type(alloc, table, taking))
}
