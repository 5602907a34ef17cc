//! An operator of a chain with its right operand (JLS 15.7.3, 15.17 to 15.24).
ghost use Rattle.std.specs.Prelude.{◌≡◌, ◌<◌, length, Some, IfOk, OnOk};
ghost use Rattle.jc_typed.specs.Parts.{Grows, type_of};
ghost use Rattle.jc_exprs_nodes_spec.specs.Told.{ran};
ghost use Rattle.jc_exprs_nodes_spec.specs.Typeds.{fixed, type_of as counted_type};
ghost use Rattle.jc_exprs_nodes.specs.Walks.{IsPart, known, now};
ghost use Rattle.jc_exprs_parts_spec.specs.Chains.{Whole, joined_by, joined_type, joining, known_so_far};
ghost use Rattle.jc_exprs_operators.specs.Knowns.{KnownBelow, MentionsBelow, folded_in, known_at};
ghost use Rattle.jc_exprs_operators.specs.Takings.{result_in, verdict_in};
ghost use Rattle.jc_exprs_chains.specs.Chaining.{IsJoined, IsLast, JoinedIn, has_joined, joined_at, joined_by_taking, ran_told, right_in};

use crate::joined::{JoinedAt, JoinedForm, Right};
use crate::linking::{Joiner, join_on};
use jc_exprs_nodes::{Judging, Part, Walk, note, refusal};
use jc_exprs_operators::{
    Folded, Grown, KnownAt, Taking, Verdict, constant_in, fold_known, fold_onto, op_of,
    push_result, taken,
};
use jc_rules::{Place, WantOfMemory};
use jc_tree::BinaryOp;
use jc_typed::Nodes;
use jc_types::Table;
use std::alloc::Global;

// Where a chain begins, and the place in the arena of its type so far.
#[derive(Clone, Copy, Debug)]
struct Head {
    start: Place,
    ty: u32,
}

// A constant that an operator gave.
#[tactic(auto, using(jc_typed::proofs::Growing::growing))]
fn fixed(
    alloc: Global,
    nodes: &mut Nodes,
    table: &Table,
    taking: Taking,
    start: Place,
    folded: Folded,
) -> Result<JoinedAt, WantOfMemory>
    requires { MentionsBelow (length nodes.old) folded.mentions }
    ensures value { IfOk result (λ j. Whole (fixed start (result_in table.now taking) (folded_in nodes.old folded)) ≡ joined_at nodes.new j) }
    ensures joined { IfOk result (λ j. IsJoined nodes.new j) }
    ensures grows { Grows nodes.old nodes.new }
{
    let ty = push_result(alloc, nodes, table, taking)?;
    Ok(JoinedAt {
        start,
        ty,
        form: JoinedForm::Fixed(folded),
    })
}

// An operator, and whether it takes its operands.
#[derive(Clone, Copy, Debug)]
pub struct Judged {
    pub op: BinaryOp,
    pub verdict: Verdict,
}

// A right operand that is a constant.
#[derive(Clone, Copy, Debug)]
pub struct Last {
    pub right: Right,
    pub known: KnownAt,
}

// Behind a constant whose value isn't in the arena.
#[tactic(auto, using(jc_typed::proofs::Growing::growing, jc_exprs_nodes::proofs::Staying::staying, crate::proofs::Staying::chains_stay))]
fn join_fixed(
    alloc: Global,
    nodes: &mut Nodes,
    judging: &Judging,
    joiner: Joiner,
    head: Head,
    left: Folded,
    last: Last,
) -> Result<JoinedAt, WantOfMemory>
    requires head { head.ty < length nodes.old }
    requires left { MentionsBelow (length nodes.old) left.mentions }
    requires last { IsLast nodes.old last }
    ensures value { IfOk result (λ j. joined_by_taking judging.now.table.now judging.now.env.now.bounds joiner.op joiner.taking (Whole (fixed head.start (type_of nodes.old head.ty) (folded_in nodes.old left))) (right_in nodes.old last.right) ≡ joined_at nodes.new j) }
    ensures joined { IfOk result (λ j. IsJoined nodes.new j) }
    ensures grows { Grows nodes.old nodes.new }
{
    let Head { start, ty } = head;
    match fold_onto(alloc, nodes, op_of(joiner.taking), left, last.known)? {
        Grown::More(folded) => fixed(alloc, nodes, judging.table, joiner.taking, start, folded),
        Grown::Same(folded) => {
            let form = JoinedForm::Fixed(folded);
            join_on(
                alloc,
                nodes,
                judging,
                joiner,
                JoinedAt { start, ty, form },
                last.right,
            )
        }
    }
}

// Behind a constant in the arena.
#[tactic(auto, using(jc_typed::proofs::Growing::growing, jc_exprs_nodes::proofs::Staying::staying, crate::proofs::Staying::chains_stay))]
fn join_constants(
    alloc: Global,
    nodes: &mut Nodes,
    judging: &Judging,
    joiner: Joiner,
    left: JoinedAt,
    first: KnownAt,
    last: Last,
) -> Result<JoinedAt, WantOfMemory>
    requires left { IsJoined nodes.old left }
    requires first { known_so_far (joined_at nodes.old left) ≡ Some (known_at nodes.old first) }
    requires below { KnownBelow (length nodes.old) (Some first) }
    requires last { IsLast nodes.old last }
    ensures value { IfOk result (λ j. joined_by_taking judging.now.table.now judging.now.env.now.bounds joiner.op joiner.taking (joined_at nodes.old left) (right_in nodes.old last.right) ≡ joined_at nodes.new j) }
    ensures joined { IfOk result (λ j. IsJoined nodes.new j) }
    ensures grows { Grows nodes.old nodes.new }
{
    match fold_known(alloc, nodes, op_of(joiner.taking), first, last.known)? {
        Some(folded) => fixed(
            alloc,
            nodes,
            judging.table,
            joiner.taking,
            left.start,
            folded,
        ),
        None => join_on(alloc, nodes, judging, joiner, left, last.right),
    }
}

// Behind an expression.
#[tactic(auto, using(jc_typed::proofs::Growing::growing))]
fn join_whole(
    alloc: Global,
    nodes: &mut Nodes,
    judging: &Judging,
    joiner: Joiner,
    left: JoinedAt,
    part: Part,
    last: Last,
) -> Result<JoinedAt, WantOfMemory>
    requires left { IsJoined nodes.old left }
    requires part { joined_at nodes.old left ≡ Whole (known nodes.old part.at) }
    requires is { IsPart nodes.old part }
    requires last { IsLast nodes.old last }
    ensures value { IfOk result (λ j. joined_by_taking judging.now.table.now judging.now.env.now.bounds joiner.op joiner.taking (joined_at nodes.old left) (right_in nodes.old last.right) ≡ joined_at nodes.new j) }
    ensures joined { IfOk result (λ j. IsJoined nodes.new j) }
    ensures grows { Grows nodes.old nodes.new }
{
    match constant_in(nodes, part) {
        Some(first) => join_constants(alloc, nodes, judging, joiner, left, first, last),
        None => join_on(alloc, nodes, judging, joiner, left, last.right),
    }
}

// With a constant on the right.
fn join_constant(
    alloc: Global,
    nodes: &mut Nodes,
    judging: &Judging,
    joiner: Joiner,
    left: JoinedAt,
    last: Last,
) -> Result<JoinedAt, WantOfMemory>
    requires left { IsJoined nodes.old left }
    requires last { IsLast nodes.old last }
    ensures value { IfOk result (λ j. joined_by_taking judging.now.table.now judging.now.env.now.bounds joiner.op joiner.taking (joined_at nodes.old left) (right_in nodes.old last.right) ≡ joined_at nodes.new j) }
    ensures joined { IfOk result (λ j. IsJoined nodes.new j) }
    ensures grows { Grows nodes.old nodes.new }
{
    let JoinedAt { start, ty, form } = left;
    match form {
        JoinedForm::Fixed(folded) => {
            join_fixed(
                alloc,
                nodes,
                judging,
                joiner,
                Head { start, ty },
                folded,
                last,
            )
        }
        JoinedForm::Whole(part) => {
            let left = JoinedAt {
                start,
                ty,
                form: JoinedForm::Whole(part),
            };
            join_whole(alloc, nodes, judging, joiner, left, part, last)
        }
        form => join_on(
            alloc,
            nodes,
            judging,
            joiner,
            JoinedAt { start, ty, form },
            last.right,
        ),
    }
}

// An operator that takes its operands.
#[tactic(auto, using(jc_typed::proofs::Growing::growing, crate::proofs::Folds::folds))]
fn joined(
    alloc: Global,
    nodes: &mut Nodes,
    judging: &Judging,
    joiner: Joiner,
    left: JoinedAt,
    right: Right,
) -> Result<JoinedAt, WantOfMemory>
    requires left { IsJoined nodes.old left }
    requires right { IsPart nodes.old right.part }
    ensures value { IfOk result (λ j. joined_by_taking judging.now.table.now judging.now.env.now.bounds joiner.op joiner.taking (joined_at nodes.old left) (right_in nodes.old right) ≡ joined_at nodes.new j) }
    ensures joined { IfOk result (λ j. IsJoined nodes.new j) }
    ensures grows { Grows nodes.old nodes.new }
{
    match constant_in(nodes, right.part) {
        Some(known) => join_constant(alloc, nodes, judging, joiner, left, Last { right, known }),
        None => join_on(alloc, nodes, judging, joiner, left, right),
    }
}

// An operator that takes its operands, in a walk.
#[tactic(auto, using(jc_typed::proofs::Growing::growing))]
fn join_taken(
    alloc: Global,
    table: &Table,
    walk: &mut Walk,
    joiner: Joiner,
    left: JoinedAt,
    right: Right,
) -> Result<Option<JoinedAt>, WantOfMemory>
    requires left { IsJoined walk.old.nodes left }
    requires right { IsPart walk.old.nodes right.part }
    ensures state { OnOk result (now walk.new ≡ now walk.old) }
    ensures value { IfOk result (λ j. Some (joined_by_taking table.now walk.old.env.bounds joiner.op joiner.taking (joined_at walk.old.nodes left) (right_in walk.old.nodes right)) ≡ has_joined walk.new.nodes j) }
    ensures joined { IfOk result (λ j. JoinedIn walk.new.nodes j) }
    ensures grows { Grows walk.old.nodes walk.new.nodes }
{
    let judging = Judging {
        table,
        env: &walk.env,
    };
    let next = joined(alloc, &mut walk.nodes, &judging, joiner, left, right)?;
    Ok(Some(next))
}

// By what the operator does to its operands.
#[tactic(auto, using(jc_typed::proofs::Growing::growing))]
fn join_by(
    alloc: Global,
    table: &Table,
    walk: &mut Walk,
    judged: Judged,
    left: JoinedAt,
    right: Right,
) -> Result<Option<JoinedAt>, WantOfMemory>
    requires left { IsJoined walk.old.nodes left }
    requires right { IsPart walk.old.nodes right.part }
    ensures state { OnOk result ((ran_told (joined_by table.now walk.old.env.bounds judged.op (joined_at walk.old.nodes left) (right_in walk.old.nodes right) (verdict_in table.now (joined_type (joined_at walk.old.nodes left)) (counted_type (known walk.old.nodes right.part.at)) judged.verdict)) (now walk.old)).state ≡ now walk.new) }
    ensures value { IfOk result (λ j. (ran_told (joined_by table.now walk.old.env.bounds judged.op (joined_at walk.old.nodes left) (right_in walk.old.nodes right) (verdict_in table.now (joined_type (joined_at walk.old.nodes left)) (counted_type (known walk.old.nodes right.part.at)) judged.verdict)) (now walk.old)).has ≡ has_joined walk.new.nodes j) }
    ensures joined { IfOk result (λ j. JoinedIn walk.new.nodes j) }
    ensures grows { Grows walk.old.nodes walk.new.nodes }
{
    let op = judged.op;
    match judged.verdict {
        Verdict::Taken(taking) => {
            join_taken(alloc, table, walk, Joiner { op, taking }, left, right)
        }
        Verdict::Refused => {
            note(walk, refusal(609, left.start));
            Ok(None)
        }
        Verdict::Unknown => {
            note(walk, refusal(606, left.start));
            Ok(None)
        }
    }
}

/// An operator of a chain with its right operand, behind what is joined so far: 609 at the chain's first token where it doesn't take them, 606 where that can't be told.
#[tactic(auto, unfolding(jc_exprs_nodes_spec::specs::Told::ran, jc_exprs_parts_spec::specs::Chains::joining))]
pub fn joining(
    alloc: Global,
    table: &Table,
    walk: &mut Walk,
    op: BinaryOp,
    left: JoinedAt,
    right: Right,
) -> Result<Option<JoinedAt>, WantOfMemory>
    requires left { IsJoined walk.old.nodes left }
    requires right { IsPart walk.old.nodes right.part }
    ensures state { OnOk result ((ran (joining table.now op (joined_at walk.old.nodes left) (right_in walk.old.nodes right)) (now walk.old)).state ≡ now walk.new) }
    ensures value { IfOk result (λ j. (ran (joining table.now op (joined_at walk.old.nodes left) (right_in walk.old.nodes right)) (now walk.old)).has ≡ has_joined walk.new.nodes j) }
    ensures joined { IfOk result (λ j. JoinedIn walk.new.nodes j) }
    ensures grows { Grows walk.old.nodes walk.new.nodes }
{
    let judging = Judging {
        table,
        env: &walk.env,
    };
    let verdict = taken(
        alloc,
        &judging,
        op,
        walk.nodes.ty(left.ty),
        walk.nodes.ty(right.part.ty),
    )?;
    join_by(alloc, table, walk, Judged { op, verdict }, left, right)
}
