//! Arguments of a chosen member; of one that is called by variable arity the last ones stand in one array (JLS 15.12.2.4, 15.12.4.2).
ghost use Rattle.std.specs.Prelude.{◌≡◌, ◌<◌, ◌++◌, IfOk, length, map};
ghost use Rattle.jc_types.specs.Arrays.{element};
ghost use Rattle.jc_typed.specs.Parts.{Grows, operand_of, operands_of, steps_of};
ghost use Rattle.jc_exprs_nodes_spec.specs.Typeds.{node, tree};
ghost use Rattle.jc_typed.specs.Trees.{ArrayOf, NoOperands, operand};
ghost use Rattle.jc_exprs_nodes.specs.Walks.{known};
ghost use Rattle.jc_exprs_gathering.specs.Gathered.{AllParts};
ghost use Rattle.jc_exprs_spec.specs.Calls.{arguments, arguments_in, array_type, erasures_of, guards_of, or_same, packed, packed_array, up_to_param};
ghost use Rattle.jc_exprs_passing.specs.Passing.{packed_last};

use crate::erasing::erased_type;
use crate::params::{Params, behind};
use crate::passing::{push_elements, push_guards, push_next, push_passed};
use jc_exprs_nodes::{Judging, push_step};
use jc_resolve::Chosen;
use jc_rules::{Place, WantOfMemory};
use jc_typed::{
    CapturesNode, ExprForm, ExprNode, ListNode, Nodes, OperandNode, StepNode, StepsNode,
};
use jc_types::{Phase, Ty, copy_type, element, erasure, method_params, same_type};
use std::alloc::Global;

// The type of the elements of an array type, or what is no array type itself.
fn element_or_same(alloc: Global, param: &Ty) -> Result<Ty, WantOfMemory>
    ensures { IfOk result (λ r. r ≡ or_same param.now (element param.now)) }
{
    match element(alloc, param)? {
        Some(of) => Ok(of),
        None => copy_type(alloc, param),
    }
}

fn array_type(alloc: Global, judging: &Judging, param: &Ty) -> Result<Ty, WantOfMemory>
    ensures { IfOk result (λ r. r ≡ array_type judging.now.table.now judging.now.env.now.bounds param.now) }
{
    let erased = erasure(judging.table, judging.env, param);
    erased_type(alloc, judging.table, erased)
}

// The step of the array of a call by variable arity up to the parameter's type.
#[tactic(auto, using(jc_typed::proofs::Growing::growing))]
fn push_up_to_param(
    alloc: Global,
    nodes: &mut Nodes,
    array: &Ty,
    param: &Ty,
) -> Result<u32, WantOfMemory>
    ensures value { IfOk result (λ at. steps_of nodes.new at ≡ up_to_param array.now param.now) }
    ensures within { IfOk result (λ at. at < length nodes.new) }
    ensures grows { Grows nodes.old nodes.new }
{
    let none = nodes.push_steps(StepsNode::Empty)?;
    if same_type(array, param) {
        return Ok(none);
    }
    let ty = nodes.push_type(copy_type(alloc, param)?)?;
    push_step(
        nodes,
        none,
        StepNode::Up {
            ty,
            unchecked: false,
        },
    )
}

// A new array of these elements, with steps behind it.
#[tactic(auto, using(jc_typed::proofs::Growing::growing))]
fn push_array(
    nodes: &mut Nodes,
    place: Place,
    ty: Ty,
    elements: u32,
    steps: u32,
) -> Result<u32, WantOfMemory>
    requires elements { elements < length nodes.old }
    requires steps { steps < length nodes.old }
    ensures value { IfOk result (λ at. operand_of nodes.new at ≡ operand place (tree (node place ty (ArrayOf (operands_of nodes.old elements)))) (steps_of nodes.old steps)) }
    ensures within { IfOk result (λ at. at < length nodes.new) }
    ensures grows { Grows nodes.old nodes.new }
{
    let ty = nodes.push_type(ty)?;
    let captures = nodes.push_captures(CapturesNode::Empty)?;
    let of = nodes.push_expr(ExprNode::Expr {
        place,
        ty,
        captures,
        form: ExprForm::ArrayOf { elements },
    })?;
    nodes.push_operand(OperandNode::Operand { place, of, steps })
}

// The array of these arguments, as it goes to the last parameter.
#[tactic(auto, using(jc_typed::proofs::Growing::growing, jc_exprs_nodes::proofs::Appending::appended, jc_exprs_gathering::proofs::Gathering::gathering))]
fn push_packed_array(
    alloc: Global,
    nodes: &mut Nodes,
    judging: &Judging,
    place: Place,
    args: &[u32],
    param: &Ty,
    declared: &[Ty],
) -> Result<u32, WantOfMemory>
    requires { AllParts nodes.old args.now }
    ensures value { IfOk result (λ at. operand_of nodes.new at ≡ packed_array judging.now.table.now judging.now.env.now.bounds place (map (known nodes.old) args.now) param.now (guards_of judging.now.table.now judging.now.env.now.bounds param.now (erasures_of judging.now.table.now declared.now))) }
    ensures within { IfOk result (λ at. at < length nodes.new) }
    ensures grows { Grows nodes.old nodes.new }
{
    let none = nodes.push_operands(ListNode::Empty)?;
    let of = element_or_same(alloc, param)?;
    let elements = push_elements(alloc, nodes, judging, none, args, &of)?;
    let ty = array_type(alloc, judging, param)?;
    let steps = push_up_to_param(alloc, nodes, &ty, param)?;
    let steps = push_guards(alloc, nodes, judging, steps, param, declared)?;
    push_array(nodes, place, ty, elements, steps)
}

// The arguments behind those that have parameters of their own.
#[tactic(auto, using(jc_typed::proofs::Growing::growing))]
fn push_packed_last(
    alloc: Global,
    nodes: &mut Nodes,
    judging: &Judging,
    place: Place,
    before: u32,
    args: &[u32],
    params: &Params,
) -> Result<u32, WantOfMemory>
    requires before { before < length nodes.old }
    requires args { AllParts nodes.old args.now }
    ensures value { IfOk result (λ r. operands_of nodes.new r ≡ packed_last judging.now.table.now judging.now.env.now.bounds place (operands_of nodes.old before) (map (known nodes.old) args.now) params.now.types.now (erasures_of judging.now.table.now params.now.declared.now)) }
    ensures within { IfOk result (λ r. r < length nodes.new) }
    ensures grows { Grows nodes.old nodes.new }
{
    match params.types {
        [] => push_passed(alloc, nodes, judging, before, args, params),
        [param, ..] => {
            let last = push_packed_array(
                alloc,
                nodes,
                judging,
                place,
                args,
                param,
                params.declared,
            )?;
            nodes.push_operands(ListNode::More { before, last })
        }
    }
}

// The arguments of a call by variable arity, of which those that are left at the last parameter stand in one array.
#[tactic(auto, using(jc_typed::proofs::Growing::growing, jc_exprs_nodes::proofs::Staying::staying, jc_exprs_gathering::proofs::Gathering::gathering, crate::proofs::Passes::packs))]
fn push_packed(
    alloc: Global,
    nodes: &mut Nodes,
    judging: &Judging,
    place: Place,
    args: &[u32],
    params: &Params,
) -> Result<u32, WantOfMemory>
    requires { AllParts nodes.old args.now }
    ensures value { IfOk result (λ r. operands_of nodes.new r ≡ packed judging.now.table.now judging.now.env.now.bounds place NoOperands (map (known nodes.old) args.now) params.now.types.now (erasures_of judging.now.table.now params.now.declared.now)) }
    ensures within { IfOk result (λ r. r < length nodes.new) }
    ensures grows { Grows nodes.old nodes.new }
{
    let mut list = nodes.push_operands(ListNode::Empty)?;
    let mut left = *params;
    let mut rest = args;
    while let [_, _, ..] = left.types {
        let [at, more @ ..] = rest else {
            return Ok(list);
        };
        list = push_next(alloc, nodes, judging, list, *at, &left)?;
        left = behind(&left);
        rest = more;
    }
    push_packed_last(alloc, nodes, judging, place, list, rest, &left)
}

/// The arguments of a call of a phase, as they go to these parameters: by variable arity the last ones stand in one array at the call's place, whose element type is erased, and whose
/// elements go to the parameter's element type.
#[tactic(auto, using(jc_typed::proofs::Growing::growing, jc_exprs_gathering::proofs::Gathering::gathering))]
pub fn push_arguments_in(
    alloc: Global,
    nodes: &mut Nodes,
    judging: &Judging,
    place: Place,
    phase: Phase,
    args: &[u32],
    params: &Params,
) -> Result<u32, WantOfMemory>
    requires { AllParts nodes.old args.now }
    ensures value { IfOk result (λ r. operands_of nodes.new r ≡ arguments_in judging.now.table.now judging.now.env.now.bounds place phase (map (known nodes.old) args.now) params.now.types.now (erasures_of judging.now.table.now params.now.declared.now)) }
    ensures within { IfOk result (λ r. r < length nodes.new) }
    ensures grows { Grows nodes.old nodes.new }
{
    match phase {
        Phase::VariableArity => push_packed(alloc, nodes, judging, place, args, params),
        _ => {
            let none = nodes.push_operands(ListNode::Empty)?;
            push_passed(alloc, nodes, judging, none, args, params)
        }
    }
}

/// The arguments of a chosen member.
pub fn push_arguments(
    alloc: Global,
    nodes: &mut Nodes,
    judging: &Judging,
    place: Place,
    args: &[u32],
    chosen: &Chosen,
) -> Result<u32, WantOfMemory>
    requires { AllParts nodes.old args.now }
    ensures value { IfOk result (λ r. operands_of nodes.new r ≡ arguments judging.now.table.now judging.now.env.now.bounds place (map (known nodes.old) args.now) chosen.now) }
    ensures within { IfOk result (λ r. r < length nodes.new) }
    ensures grows { Grows nodes.old nodes.new }
{
    let params = Params {
        types: chosen.params.slice(),
        declared: method_params(judging.table, chosen.member.id),
    };
    push_arguments_in(alloc, nodes, judging, place, chosen.phase, args, &params)
}
