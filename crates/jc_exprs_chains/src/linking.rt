//! An operator and its right operand more.
ghost use Rattle.std.specs.Prelude.{◌≡◌, ◌<◌, length, IfOk};
ghost use Rattle.jc_types.specs.declared.form.Ty.TheVariants.{Prim};
ghost use Rattle.jc_types.specs.declared.form.Primitive.TheVariants.{Boolean};
ghost use Rattle.jc_typed.specs.Parts.{Grows, links_of, operand_of, operands_of, type_of};
ghost use Rattle.jc_typed.specs.Trees.{MoreLinks, MoreOperands};
ghost use Rattle.jc_exprs_nodes_spec.specs.Typeds.{type_of as counted_type};
ghost use Rattle.jc_exprs_nodes.specs.Walks.{IsPart, known};
ghost use Rattle.jc_exprs_parts_spec.specs.Chains.{Linked, Listed, joined_type, link_on, linked_first, list_on, listed_first, steps_to, whole};
ghost use Rattle.jc_exprs_operators.specs.Takings.{joint_of, left_of, result_in, right_of, takes_in, wanted};
ghost use Rattle.jc_exprs_chains.specs.Chaining.{IsJoined, join_with, joined_at, operand_for, right_in};

use crate::joined::{JoinedAt, JoinedForm, Right};
use crate::whole::whole;
use jc_exprs_nodes::{Judging, Led, Part, push_one_operand};
use jc_exprs_operators::{
    Taking, joint_of, left_of, push_left_steps, push_operand_to, push_result, right_of,
};
use jc_rules::{Place, WantOfMemory};
use jc_tree::BinaryOp;
use jc_typed::{LinksNode, ListNode, Nodes, StepsNode};
use jc_types::{Primitive, Ty};
use std::alloc::Global;

/// An operator, and what it does to its operands.
#[derive(Clone, Copy, Debug)]
pub struct Joiner {
    pub op: BinaryOp,
    pub taking: Taking,
}

// A first operand with links.
#[derive(Clone, Copy, Debug)]
pub struct LinkedAt {
    pub start: Place,
    pub ty: u32,
    pub first: u32,
    pub links: u32,
}

// Operands of `&&` or `||`, and the number of the captured variables before the second one.
#[derive(Clone, Copy, Debug)]
pub struct ListedAt {
    pub start: Place,
    pub ty: u32,
    pub operands: u32,
    pub from: u64,
}

// `&&` or `||`, and what it does to its operands.
#[derive(Clone, Copy, Debug)]
pub struct Listing {
    pub is_and: bool,
    pub taking: Taking,
}

// The steps of the value so far, and the right operand with its own.
#[tactic(auto, using(jc_typed::proofs::Growing::growing, jc_exprs_nodes::proofs::Staying::staying))]
fn push_link(
    alloc: Global,
    nodes: &mut Nodes,
    judging: &Judging,
    taking: Taking,
    head: LinkedAt,
    right: Part,
) -> Result<u32, WantOfMemory>
    requires ty { head.ty < length nodes.old }
    requires links { head.links < length nodes.old }
    requires right { IsPart nodes.old right }
    ensures value { IfOk result (λ at. MoreLinks (links_of nodes.old head.links) (joint_of taking) (steps_to judging.now.table.now judging.now.env.now.bounds (type_of nodes.old head.ty) (wanted (type_of nodes.old head.ty) (left_of taking))) (operand_for judging.now.table.now judging.now.env.now.bounds (known nodes.old right.at) (right_of taking)) ≡ links_of nodes.new at) }
    ensures within { IfOk result (λ at. at < length nodes.new) }
    ensures grows { Grows nodes.old nodes.new }
{
    let none = nodes.push_steps(StepsNode::Empty)?;
    let before = Led {
        steps: none,
        ty: head.ty,
    };
    let left = push_left_steps(alloc, nodes, judging, taking, before)?;
    let right = push_operand_to(alloc, nodes, judging, right, right_of(taking))?;
    nodes.push_links(LinksNode::More {
        before: head.links,
        joint: joint_of(taking),
        left,
        right,
    })
}

// A first operand with a link more.
#[tactic(auto, using(jc_typed::proofs::Growing::growing))]
fn linked(
    alloc: Global,
    nodes: &mut Nodes,
    judging: &Judging,
    taking: Taking,
    head: LinkedAt,
    right: Part,
) -> Result<JoinedAt, WantOfMemory>
    requires ty { head.ty < length nodes.old }
    requires first { head.first < length nodes.old }
    requires links { head.links < length nodes.old }
    requires right { IsPart nodes.old right }
    ensures value { IfOk result (λ j. Linked head.start (result_in judging.now.table.now taking) (operand_of nodes.old head.first) (MoreLinks (links_of nodes.old head.links) (joint_of taking) (steps_to judging.now.table.now judging.now.env.now.bounds (type_of nodes.old head.ty) (wanted (type_of nodes.old head.ty) (left_of taking))) (operand_for judging.now.table.now judging.now.env.now.bounds (known nodes.old right.at) (right_of taking))) ≡ joined_at nodes.new j) }
    ensures joined { IfOk result (λ j. IsJoined nodes.new j) }
    ensures grows { Grows nodes.old nodes.new }
{
    let links = push_link(alloc, nodes, judging, taking, head, right)?;
    let ty = push_result(alloc, nodes, judging.table, taking)?;
    Ok(JoinedAt {
        start: head.start,
        ty,
        form: JoinedForm::Linked {
            first: head.first,
            links,
        },
    })
}

// The first link, behind what is joined so far as one operand.
#[tactic(auto, using(jc_typed::proofs::Growing::growing, jc_exprs_nodes::proofs::Staying::staying))]
fn first_linked(
    alloc: Global,
    nodes: &mut Nodes,
    judging: &Judging,
    taking: Taking,
    left: JoinedAt,
    right: Part,
) -> Result<JoinedAt, WantOfMemory>
    requires left { IsJoined nodes.old left }
    requires right { IsPart nodes.old right }
    ensures value { IfOk result (λ j. linked_first judging.now.table.now judging.now.env.now.bounds (whole (joined_at nodes.old left)) (takes_in judging.now.table.now (joined_type (joined_at nodes.old left)) (counted_type (known nodes.old right.at)) taking) (known nodes.old right.at) ≡ joined_at nodes.new j) }
    ensures joined { IfOk result (λ j. IsJoined nodes.new j) }
    ensures grows { Grows nodes.old nodes.new }
{
    let start = left.start;
    let ty = left.ty;
    let first = whole(nodes, left)?;
    let links = nodes.push_links(LinksNode::Empty)?;
    let head = LinkedAt {
        start,
        ty,
        first: first.at,
        links,
    };
    linked(alloc, nodes, judging, taking, head, right)
}

/// An operator but `&&` and `||`.
pub fn link_on(
    alloc: Global,
    nodes: &mut Nodes,
    judging: &Judging,
    taking: Taking,
    left: JoinedAt,
    right: Part,
) -> Result<JoinedAt, WantOfMemory>
    requires left { IsJoined nodes.old left }
    requires right { IsPart nodes.old right }
    ensures value { IfOk result (λ j. link_on judging.now.table.now judging.now.env.now.bounds (joined_at nodes.old left) (takes_in judging.now.table.now (joined_type (joined_at nodes.old left)) (counted_type (known nodes.old right.at)) taking) (known nodes.old right.at) ≡ joined_at nodes.new j) }
    ensures joined { IfOk result (λ j. IsJoined nodes.new j) }
    ensures grows { Grows nodes.old nodes.new }
{
    let JoinedAt { start, ty, form } = left;
    match form {
        JoinedForm::Linked { first, links } => {
            let head = LinkedAt {
                start,
                ty,
                first,
                links,
            };
            linked(alloc, nodes, judging, taking, head, right)
        }
        form => first_linked(
            alloc,
            nodes,
            judging,
            taking,
            JoinedAt { start, ty, form },
            right,
        ),
    }
}

// An operand more of `&&` or `||`.
#[tactic(auto, using(jc_typed::proofs::Growing::growing, jc_exprs_nodes::proofs::Staying::staying))]
fn listed(
    alloc: Global,
    nodes: &mut Nodes,
    judging: &Judging,
    joiner: Listing,
    head: ListedAt,
    right: Right,
) -> Result<JoinedAt, WantOfMemory>
    requires ty { head.ty < length nodes.old }
    requires boolean { type_of nodes.old head.ty ≡ Prim Boolean }
    requires operands { head.operands < length nodes.old }
    requires right { IsPart nodes.old right.part }
    ensures value { IfOk result (λ j. Listed head.start joiner.is_and (MoreOperands (operands_of nodes.old head.operands) (operand_for judging.now.table.now judging.now.env.now.bounds (known nodes.old right.part.at) (right_of joiner.taking))) head.from right.up_to ≡ joined_at nodes.new j) }
    ensures joined { IfOk result (λ j. IsJoined nodes.new j) }
    ensures grows { Grows nodes.old nodes.new }
{
    let last = push_operand_to(alloc, nodes, judging, right.part, right_of(joiner.taking))?;
    let operands = nodes.push_operands(ListNode::More {
        before: head.operands,
        last,
    })?;
    Ok(JoinedAt {
        start: head.start,
        ty: head.ty,
        form: JoinedForm::Listed {
            is_and: joiner.is_and,
            operands,
            from: head.from,
            up_to: right.up_to,
        },
    })
}

// The second operand, behind what is joined so far as the first one.
#[tactic(auto, using(jc_typed::proofs::Growing::growing, jc_exprs_nodes::proofs::Staying::staying))]
fn first_listed(
    alloc: Global,
    nodes: &mut Nodes,
    judging: &Judging,
    joiner: Listing,
    left: JoinedAt,
    right: Right,
) -> Result<JoinedAt, WantOfMemory>
    requires left { IsJoined nodes.old left }
    requires right { IsPart nodes.old right.part }
    ensures value { IfOk result (λ j. listed_first judging.now.table.now judging.now.env.now.bounds (whole (joined_at nodes.old left)) joiner.is_and (takes_in judging.now.table.now (joined_type (joined_at nodes.old left)) (counted_type (known nodes.old right.part.at)) joiner.taking) (right_in nodes.old right) ≡ joined_at nodes.new j) }
    ensures joined { IfOk result (λ j. IsJoined nodes.new j) }
    ensures grows { Grows nodes.old nodes.new }
{
    let start = left.start;
    let part = whole(nodes, left)?;
    let first = push_operand_to(alloc, nodes, judging, part, left_of(joiner.taking))?;
    let operands = push_one_operand(nodes, first)?;
    let ty = nodes.push_type(Ty::Prim(Primitive::Boolean))?;
    let head = ListedAt {
        start,
        ty,
        operands,
        from: right.from,
    };
    listed(alloc, nodes, judging, joiner, head, right)
}

/// `&&` or `||`.
pub fn list_on(
    alloc: Global,
    nodes: &mut Nodes,
    judging: &Judging,
    joiner: Listing,
    left: JoinedAt,
    right: Right,
) -> Result<JoinedAt, WantOfMemory>
    requires left { IsJoined nodes.old left }
    requires right { IsPart nodes.old right.part }
    ensures value { IfOk result (λ j. list_on judging.now.table.now judging.now.env.now.bounds (joined_at nodes.old left) joiner.is_and (takes_in judging.now.table.now (joined_type (joined_at nodes.old left)) (counted_type (known nodes.old right.part.at)) joiner.taking) (right_in nodes.old right) ≡ joined_at nodes.new j) }
    ensures joined { IfOk result (λ j. IsJoined nodes.new j) }
    ensures grows { Grows nodes.old nodes.new }
{
    let JoinedAt { start, ty, form } = left;
    match form {
        JoinedForm::Listed { operands, from, .. } => {
            let head = ListedAt {
                start,
                ty,
                operands,
                from,
            };
            listed(alloc, nodes, judging, joiner, head, right)
        }
        form => first_listed(
            alloc,
            nodes,
            judging,
            joiner,
            JoinedAt { start, ty, form },
            right,
        ),
    }
}

/// By the operator's kind.
pub fn join_on(
    alloc: Global,
    nodes: &mut Nodes,
    judging: &Judging,
    joiner: Joiner,
    left: JoinedAt,
    right: Right,
) -> Result<JoinedAt, WantOfMemory>
    requires left { IsJoined nodes.old left }
    requires right { IsPart nodes.old right.part }
    ensures value { IfOk result (λ j. join_with judging.now.table.now judging.now.env.now.bounds joiner.op joiner.taking (joined_at nodes.old left) (right_in nodes.old right) ≡ joined_at nodes.new j) }
    ensures joined { IfOk result (λ j. IsJoined nodes.new j) }
    ensures grows { Grows nodes.old nodes.new }
{
    let taking = joiner.taking;
    match joiner.op {
        BinaryOp::AndAlso => {
            let listing = Listing {
                is_and: true,
                taking,
            };
            list_on(alloc, nodes, judging, listing, left, right)
        }
        BinaryOp::OrElse => {
            let listing = Listing {
                is_and: false,
                taking,
            };
            list_on(alloc, nodes, judging, listing, left, right)
        }
        _ => link_on(alloc, nodes, judging, taking, left, right.part),
    }
}
