//! Arguments, each by itself (JLS 15.12.2.2, 15.12.2.3).
ghost use Rattle.std.specs.Prelude.{◌≡◌, ◌<◌, ◌++◌, IfOk, length, map};
ghost use Rattle.jc_typed.specs.Parts.{Grows, operand_of, operands_of, steps_of};
ghost use Rattle.jc_typed.specs.Trees.{MoreOperands};
ghost use Rattle.jc_exprs_nodes_spec.specs.Typeds.{stepped};
ghost use Rattle.jc_exprs_nodes.specs.Walks.{IsPart, known};
ghost use Rattle.jc_exprs_gathering.specs.Gathered.{AllParts, IsTyped};
ghost use Rattle.jc_exprs_spec.specs.Calls.{elements_to, erasures_of, guards_of, passed, passed_to};
ghost use Rattle.jc_exprs_passing.specs.Passing.{passed_one};

use crate::erasing::declared_erasure;
use crate::params::{Params, behind};
use jc_convert::invocation;
use jc_exprs_gathering::typed_part;
use jc_exprs_nodes::{Judging, Led, Part, push_steps_by, push_use_guard, stepped};
use jc_rules::WantOfMemory;
use jc_typed::{ListNode, Nodes};
use jc_types::Ty;
use std::alloc::Global;

/// The guard of a value of a parameter's type as one of what is declared there, if a declared parameter is left.
#[tactic(auto, using(jc_typed::proofs::Growing::growing, jc_exprs_nodes::proofs::Appending::appended))]
pub fn push_guards(
    alloc: Global,
    nodes: &mut Nodes,
    judging: &Judging,
    before: u32,
    param: &Ty,
    declared: &[Ty],
) -> Result<u32, WantOfMemory>
    requires { before < length nodes.old }
    ensures value { IfOk result (λ at. steps_of nodes.new at ≡ steps_of nodes.old before ++ guards_of judging.now.table.now judging.now.env.now.bounds param.now (erasures_of judging.now.table.now declared.now)) }
    ensures within { IfOk result (λ at. at < length nodes.new) }
    ensures grows { Grows nodes.old nodes.new }
{
    match declared {
        [] => Ok(before),
        [first, ..] => {
            let to = declared_erasure(alloc, judging.table, first);
            push_use_guard(alloc, nodes, judging, before, param, to)
        }
    }
}

// The steps of an argument to a parameter's type, behind its lead.
#[tactic(auto, using(jc_typed::proofs::Growing::growing))]
fn push_passed_steps(
    alloc: Global,
    nodes: &mut Nodes,
    judging: &Judging,
    part: Part,
    param: &Ty,
) -> Result<u32, WantOfMemory>
    requires { IsPart nodes.old part }
    ensures value { IfOk result (λ at. steps_of nodes.new at ≡ (known nodes.old part.at).lead ++ passed_to judging.now.table.now judging.now.env.now.bounds (known nodes.old part.at) param.now) }
    ensures within { IfOk result (λ at. at < length nodes.new) }
    ensures grows { Grows nodes.old nodes.new }
{
    let converts = invocation(alloc, judging.table, judging.env, nodes.ty(part.ty), param)?;
    let before = Led {
        steps: part.lead,
        ty: part.ty,
    };
    push_steps_by(alloc, nodes, judging, before, &converts)
}

/// An argument as it goes to a parameter of a type, with the guard of what is declared there.
#[tactic(auto, using(jc_typed::proofs::Growing::growing, jc_exprs_nodes::proofs::Appending::appended))]
pub fn push_passed_to(
    alloc: Global,
    nodes: &mut Nodes,
    judging: &Judging,
    part: Part,
    param: &Ty,
    declared: &[Ty],
) -> Result<u32, WantOfMemory>
    requires { IsPart nodes.old part }
    ensures value { IfOk result (λ at. operand_of nodes.new at ≡ stepped (known nodes.old part.at) (passed_to judging.now.table.now judging.now.env.now.bounds (known nodes.old part.at) param.now ++ guards_of judging.now.table.now judging.now.env.now.bounds param.now (erasures_of judging.now.table.now declared.now))) }
    ensures within { IfOk result (λ at. at < length nodes.new) }
    ensures grows { Grows nodes.old nodes.new }
{
    let steps = push_passed_steps(alloc, nodes, judging, part, param)?;
    let steps = push_guards(alloc, nodes, judging, steps, param, declared)?;
    stepped(nodes, part, steps)
}

// An argument as it goes to the first of these parameters; as it stands where none is left.
#[tactic(auto, using(jc_typed::proofs::Growing::growing))]
fn push_passed_one(
    alloc: Global,
    nodes: &mut Nodes,
    judging: &Judging,
    at: u32,
    params: &Params,
) -> Result<u32, WantOfMemory>
    requires { IsTyped nodes.old at }
    ensures value { IfOk result (λ r. operand_of nodes.new r ≡ passed_one judging.now.table.now judging.now.env.now.bounds (known nodes.old at) params.now.types.now (erasures_of judging.now.table.now params.now.declared.now)) }
    ensures within { IfOk result (λ r. r < length nodes.new) }
    ensures grows { Grows nodes.old nodes.new }
{
    let part = typed_part(nodes, at);
    match params.types {
        [] => Ok(part.at),
        [first, ..] => push_passed_to(alloc, nodes, judging, part, first, params.declared),
    }
}

/// An argument more behind those of a list.
#[tactic(auto, using(jc_typed::proofs::Growing::growing))]
pub fn push_next(
    alloc: Global,
    nodes: &mut Nodes,
    judging: &Judging,
    before: u32,
    at: u32,
    params: &Params,
) -> Result<u32, WantOfMemory>
    requires before { before < length nodes.old }
    requires at { IsTyped nodes.old at }
    ensures value { IfOk result (λ r. operands_of nodes.new r ≡ MoreOperands (operands_of nodes.old before) (passed_one judging.now.table.now judging.now.env.now.bounds (known nodes.old at) params.now.types.now (erasures_of judging.now.table.now params.now.declared.now))) }
    ensures within { IfOk result (λ r. r < length nodes.new) }
    ensures grows { Grows nodes.old nodes.new }
{
    let last = push_passed_one(alloc, nodes, judging, at, params)?;
    nodes.push_operands(ListNode::More { before, last })
}

/// Arguments behind those of a list, as they go to these parameters.
#[tactic(auto, using(jc_typed::proofs::Growing::growing, jc_exprs_nodes::proofs::Staying::staying, jc_exprs_gathering::proofs::Gathering::gathering, crate::proofs::Passes::passes))]
pub fn push_passed(
    alloc: Global,
    nodes: &mut Nodes,
    judging: &Judging,
    before: u32,
    args: &[u32],
    params: &Params,
) -> Result<u32, WantOfMemory>
    requires before { before < length nodes.old }
    requires args { AllParts nodes.old args.now }
    ensures value { IfOk result (λ r. operands_of nodes.new r ≡ passed judging.now.table.now judging.now.env.now.bounds (operands_of nodes.old before) (map (known nodes.old) args.now) params.now.types.now (erasures_of judging.now.table.now params.now.declared.now)) }
    ensures within { IfOk result (λ r. r < length nodes.new) }
    ensures grows { Grows nodes.old nodes.new }
{
    let mut list = before;
    let mut left = *params;
    let mut rest = args;
    while let [at, more @ ..] = rest {
        list = push_next(alloc, nodes, judging, list, *at, &left)?;
        left = behind(&left);
        rest = more;
    }
    Ok(list)
}

// An element more behind those of a list.
#[tactic(auto, using(jc_typed::proofs::Growing::growing, jc_exprs_nodes::proofs::Appending::appended))]
fn push_element(
    alloc: Global,
    nodes: &mut Nodes,
    judging: &Judging,
    before: u32,
    at: u32,
    param: &Ty,
) -> Result<u32, WantOfMemory>
    requires before { before < length nodes.old }
    requires at { IsTyped nodes.old at }
    ensures value { IfOk result (λ r. operands_of nodes.new r ≡ MoreOperands (operands_of nodes.old before) (stepped (known nodes.old at) (passed_to judging.now.table.now judging.now.env.now.bounds (known nodes.old at) param.now))) }
    ensures within { IfOk result (λ r. r < length nodes.new) }
    ensures grows { Grows nodes.old nodes.new }
{
    let part = typed_part(nodes, at);
    let last = push_passed_to(alloc, nodes, judging, part, param, &[])?;
    nodes.push_operands(ListNode::More { before, last })
}

/// Arguments behind those of a list, each as it goes to a parameter of this type, with no guard: the elements of the array of a call by variable arity.
#[tactic(auto, using(jc_typed::proofs::Growing::growing, jc_exprs_nodes::proofs::Staying::staying, jc_exprs_gathering::proofs::Gathering::gathering))]
pub fn push_elements(
    alloc: Global,
    nodes: &mut Nodes,
    judging: &Judging,
    before: u32,
    args: &[u32],
    param: &Ty,
) -> Result<u32, WantOfMemory>
    requires before { before < length nodes.old }
    requires args { AllParts nodes.old args.now }
    ensures value { IfOk result (λ r. operands_of nodes.new r ≡ elements_to judging.now.table.now judging.now.env.now.bounds (operands_of nodes.old before) (map (known nodes.old) args.now) param.now) }
    ensures within { IfOk result (λ r. r < length nodes.new) }
    ensures grows { Grows nodes.old nodes.new }
{
    let mut list = before;
    let mut rest = args;
    while let [at, more @ ..] = rest {
        list = push_element(alloc, nodes, judging, list, *at, param)?;
        rest = more;
    }
    Ok(list)
}
