//! Steps of chains over what earlier walks have of them, if it is there.
ghost use Rattle.std.specs.Prelude.{◌≡◌, ◌<◌, length, IfOk, OnOk};
ghost use Rattle.jc_typed.specs.Parts.{Grows};
ghost use Rattle.jc_exprs_nodes_spec.specs.Told.{by_rule};
ghost use Rattle.jc_exprs_nodes_spec.specs.Gates.{gated, gated_two};
ghost use Rattle.jc_exprs_nodes.specs.Laws.{span_of};
ghost use Rattle.jc_exprs_nodes.specs.Walks.{has, now};
ghost use Rattle.jc_exprs_parts_spec.specs.Assigning.{Target};
ghost use Rattle.jc_exprs_parts_spec.specs.Chains.{joining, signed, signing, tested};
ghost use Rattle.jc_exprs_chains.specs.Chaining.{JoinedIn, SignedIn, as_signed, as_unsigned, as_whole, as_first, has_joined, has_signed};

use crate::joined::{JoinedAt, JoinedForm, Right};
use crate::joining::joining;
use crate::prefixed::with_signs;
use crate::signed::SignedAt;
use crate::signing::signing;
use crate::testing::tested;
use crate::whole::whole;
use jc_exprs_nodes::{Walk, note, part, refusal};
use jc_rules::{Place, WantOfMemory};
use jc_tree::BinaryOp;
use jc_typed::{Nodes, OperandNode};
use jc_types::{Op, Table, Ty};
use std::alloc::Global;

/// A right operand that may have no typing, and the numbers of the captured variables before it and behind it.
#[derive(Clone, Copy, Debug)]
pub struct Spanned {
    pub at: u32,
    pub from: u64,
    pub up_to: u64,
}

/// A chain begins with its first operand.
pub fn first_joined(nodes: &Nodes, at: u32) -> Option<JoinedAt>
    requires { at < length nodes.now }
    ensures value { as_first (has nodes.now at) ≡ has_joined nodes.now result }
    ensures joined { JoinedIn nodes.now result }
{
    match part(nodes, at) {
        None => None,
        Some(part) => Some(JoinedAt {
            start: part.start,
            ty: part.ty,
            form: JoinedForm::Whole(part),
        }),
    }
}

/// An operator with its right operand.
#[tactic(auto, using(jc_typed::proofs::Growing::growing))]
pub fn joined_more(
    alloc: Global,
    table: &Table,
    walk: &mut Walk,
    op: BinaryOp,
    left: Option<JoinedAt>,
    right: Spanned,
) -> Result<Option<JoinedAt>, WantOfMemory>
    requires left { JoinedIn walk.old.nodes left }
    requires right { right.at < length walk.old.nodes }
    ensures state { OnOk result ((gated_two (joining table.now op) (has_joined walk.old.nodes left) (span_of (has walk.old.nodes right.at) right.from right.up_to) (now walk.old)).state ≡ now walk.new) }
    ensures value { IfOk result (λ j. (gated_two (joining table.now op) (has_joined walk.old.nodes left) (span_of (has walk.old.nodes right.at) right.from right.up_to) (now walk.old)).has ≡ has_joined walk.new.nodes j) }
    ensures joined { IfOk result (λ j. JoinedIn walk.new.nodes j) }
    ensures grows { Grows walk.old.nodes walk.new.nodes }
{
    let operand = part(&walk.nodes, right.at);
    match left {
        None => Ok(None),
        Some(left) => match operand {
            None => Ok(None),
            Some(part) => {
                let right = Right {
                    part,
                    from: right.from,
                    up_to: right.up_to,
                };
                joining(alloc, table, walk, op, left, right)
            }
        },
    }
}

/// `instanceof`.
#[tactic(auto, using(jc_typed::proofs::Growing::growing))]
pub fn tested_more(
    alloc: Global,
    table: &Table,
    walk: &mut Walk,
    to: &Ty,
    left: Option<JoinedAt>,
) -> Result<Option<JoinedAt>, WantOfMemory>
    requires { JoinedIn walk.old.nodes left }
    ensures state { OnOk result ((gated (tested table.now to.now) (has_joined walk.old.nodes left) (now walk.old)).state ≡ now walk.new) }
    ensures value { IfOk result (λ j. (gated (tested table.now to.now) (has_joined walk.old.nodes left) (now walk.old)).has ≡ has_joined walk.new.nodes j) }
    ensures joined { IfOk result (λ j. JoinedIn walk.new.nodes j) }
    ensures grows { Grows walk.old.nodes walk.new.nodes }
{
    match left {
        None => Ok(None),
        Some(left) => tested(alloc, table, walk, to, left),
    }
}

/// A chain as one expression.
#[tactic(auto, using(jc_typed::proofs::Growing::growing), unfolding(jc_exprs_nodes::specs::Walks::typed_in))]
pub fn finished(nodes: &mut Nodes, joined: Option<JoinedAt>) -> Result<u32, WantOfMemory>
    requires { JoinedIn nodes.old joined }
    ensures value { IfOk result (λ at. as_whole (has_joined nodes.old joined) ≡ has nodes.new at) }
    ensures within { IfOk result (λ at. at < length nodes.new) }
    ensures grows { Grows nodes.old nodes.new }
{
    match joined {
        None => nodes.push_operand(OperandNode::Missing),
        Some(joined) => {
            let part = whole(nodes, joined)?;
            Ok(part.at)
        }
    }
}

/// Prefix operators begin with their operand.
pub fn first_signed(nodes: &Nodes, at: u32) -> Option<SignedAt>
    requires { at < length nodes.now }
    ensures value { as_unsigned (has nodes.now at) ≡ has_signed nodes.now result }
    ensures signed { SignedIn nodes.now result }
{
    match part(nodes, at) {
        None => None,
        Some(part) => Some(SignedAt::Unsigned(part)),
    }
}

/// A prefix operator but `++` and `--`.
#[tactic(auto, using(jc_typed::proofs::Growing::growing))]
pub fn signed_more(
    alloc: Global,
    table: &Table,
    walk: &mut Walk,
    place: Place,
    op: Op,
    before: Option<SignedAt>,
) -> Result<Option<SignedAt>, WantOfMemory>
    requires { SignedIn walk.old.nodes before }
    ensures state { OnOk result ((gated (signing table.now place op) (has_signed walk.old.nodes before) (now walk.old)).state ≡ now walk.new) }
    ensures value { IfOk result (λ s. (gated (signing table.now place op) (has_signed walk.old.nodes before) (now walk.old)).has ≡ has_signed walk.new.nodes s) }
    ensures signed { IfOk result (λ s. SignedIn walk.new.nodes s) }
    ensures grows { Grows walk.old.nodes walk.new.nodes }
{
    match before {
        None => Ok(None),
        Some(before) => signing(alloc, table, walk, place, op, before),
    }
}

/// An operand with its prefix operators, as one expression.
#[tactic(auto, using(jc_typed::proofs::Growing::growing), unfolding(jc_exprs_nodes::specs::Walks::typed_in))]
pub fn signs_finished(nodes: &mut Nodes, before: Option<SignedAt>) -> Result<u32, WantOfMemory>
    requires { SignedIn nodes.old before }
    ensures value { IfOk result (λ at. as_signed (has_signed nodes.old before) ≡ has nodes.new at) }
    ensures within { IfOk result (λ at. at < length nodes.new) }
    ensures grows { Grows nodes.old nodes.new }
{
    match before {
        None => nodes.push_operand(OperandNode::Missing),
        Some(before) => {
            let part = with_signs(nodes, before)?;
            Ok(part.at)
        }
    }
}

/// What has a prefix operator is no variable (610).
#[tactic(auto, unfolding(jc_exprs_nodes_spec::specs::Told::ran))]
pub fn no_variable(walk: &mut Walk, before: &Option<SignedAt>)
    requires { SignedIn walk.old.nodes before.now }
    ensures state { (gated (λ s. by_rule {A = Target} 610 (signed s).place) (has_signed walk.old.nodes before.now) (now walk.old)).state ≡ now walk.new }
    ensures nodes { walk.new.nodes ≡ walk.old.nodes }
{
    match before {
        None => {}
        Some(SignedAt::Unsigned(part)) => note(walk, refusal(610, part.place)),
        Some(SignedAt::Under { place, .. }) => note(walk, refusal(610, *place)),
    }
}
