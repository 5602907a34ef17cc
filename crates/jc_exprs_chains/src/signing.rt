//! A prefix operator before an operand, or before further ones (JLS 15.15.3 to 15.15.6).
ghost use Rattle.std.specs.Prelude.{◌≡◌, ◌<◌, ◌∷◌, [], length, reverse, Some, IfOk, OnOk};
ghost use Rattle.jc_types.specs.declared.form.Ty.TheVariants.{Prim};
ghost use Rattle.jc_typed.specs.Parts.{Grows, operand_of};
ghost use Rattle.jc_exprs_nodes_spec.specs.Told.{ran};
ghost use Rattle.jc_exprs_nodes_spec.specs.Typeds.{fixed, known_of, type_of as counted_type};
ghost use Rattle.jc_exprs_nodes.specs.Walks.{IsPart, known, now};
ghost use Rattle.jc_exprs_parts_spec.specs.Operators.{as_primitive, prefix_on, prefix_taken};
ghost use Rattle.jc_exprs_parts_spec.specs.Chains.{Unsigned, Under, known_or_under, prefixed_known, sign_first, sign_more, signing};
ghost use Rattle.jc_exprs_operators.specs.Knowns.{FoldedBelow, folded_in, has_folded};
ghost use Rattle.jc_exprs_chains.specs.Chaining.{IsSigned, SignedIn, has_signed, operand_for, ran_told, signed_in};

use crate::signed::SignedAt;
use jc_exprs_nodes::{Judging, Part, Walk, note, refusal};
use jc_exprs_operators::{
    Folded, as_primitive, constant_in, prefix_on, prefix_taken, prefixed_constant, push_fixed,
    push_operand_to,
};
use jc_rules::{Items, Place, WantOfMemory};
use jc_typed::Nodes;
use jc_types::{Op, Primitive, Table, Ty};
use std::alloc::Global;

/// A prefix operator, its place, and the primitive type that its operand is converted to.
#[derive(Clone, Copy, Debug)]
struct Sign {
    place: Place,
    op: Op,
    to: Primitive,
}

// What the operator gives of a constant.
fn prefixed(nodes: &Nodes, op: Op, part: Part) -> Option<Folded>
    requires { IsPart nodes.now part }
    ensures value { prefixed_known op (known_of (known nodes.now part.at)) ≡ has_folded nodes.now result }
    ensures below { FoldedBelow (length nodes.now) result }
{
    match constant_in(nodes, part) {
        None => None,
        Some(known) => match prefixed_constant(op, nodes.constant(known.value)) {
            None => None,
            Some(value) => Some(Folded {
                value,
                mentions: known.mentions,
            }),
        },
    }
}

#[tactic(auto, using(jc_typed::proofs::Growing::growing))]
fn fixed_sign(nodes: &mut Nodes, sign: Sign, folded: Folded) -> Result<SignedAt, WantOfMemory>
    requires { FoldedBelow (length nodes.old) (Some folded) }
    ensures value { IfOk result (λ s. Unsigned (fixed sign.place (Prim sign.to) (folded_in nodes.old folded)) ≡ signed_in nodes.new s) }
    ensures signed { IfOk result (λ s. IsSigned nodes.new s) }
    ensures grows { Grows nodes.old nodes.new }
{
    let ty = nodes.push_type(Ty::Prim(sign.to))?;
    let part = push_fixed(nodes, sign.place, ty, folded)?;
    Ok(SignedAt::Unsigned(part))
}

#[tactic(auto, using(jc_typed::proofs::Growing::growing))]
fn under(
    alloc: Global,
    nodes: &mut Nodes,
    judging: &Judging,
    sign: Sign,
    part: Part,
) -> Result<SignedAt, WantOfMemory>
    requires { IsPart nodes.old part }
    ensures value { IfOk result (λ s. Under sign.place sign.to (sign.op ∷ []) (operand_for judging.now.table.now judging.now.env.now.bounds (known nodes.old part.at) (Some sign.to)) ≡ signed_in nodes.new s) }
    ensures signed { IfOk result (λ s. IsSigned nodes.new s) }
    ensures grows { Grows nodes.old nodes.new }
{
    let of = push_operand_to(alloc, nodes, judging, part, Some(sign.to))?;
    let mut ops = Items::new(alloc);
    ops.push(sign.op)?;
    Ok(SignedAt::Under {
        place: sign.place,
        to: sign.to,
        ops,
        of,
    })
}

fn sign_operand(
    alloc: Global,
    nodes: &mut Nodes,
    judging: &Judging,
    sign: Sign,
    part: Part,
) -> Result<SignedAt, WantOfMemory>
    requires { IsPart nodes.old part }
    ensures value { IfOk result (λ s. known_or_under sign.place sign.to (prefixed_known sign.op (known_of (known nodes.old part.at))) (Under sign.place sign.to (sign.op ∷ []) (operand_for judging.now.table.now judging.now.env.now.bounds (known nodes.old part.at) (Some sign.to))) ≡ signed_in nodes.new s) }
    ensures signed { IfOk result (λ s. IsSigned nodes.new s) }
    ensures grows { Grows nodes.old nodes.new }
{
    match prefixed(nodes, sign.op, part) {
        Some(folded) => fixed_sign(nodes, sign, folded),
        None => under(alloc, nodes, judging, sign, part),
    }
}

// The first operator, which is known to take its operand.
#[tactic(auto, using(jc_typed::proofs::Growing::growing))]
fn sign_taken(
    alloc: Global,
    table: &Table,
    walk: &mut Walk,
    sign: Sign,
    part: Part,
) -> Result<Option<SignedAt>, WantOfMemory>
    requires { IsPart walk.old.nodes part }
    ensures state { OnOk result (now walk.new ≡ now walk.old) }
    ensures value { IfOk result (λ s. Some (known_or_under sign.place sign.to (prefixed_known sign.op (known_of (known walk.old.nodes part.at))) (Under sign.place sign.to (sign.op ∷ []) (operand_for table.now walk.old.env.bounds (known walk.old.nodes part.at) (Some sign.to)))) ≡ has_signed walk.new.nodes s) }
    ensures signed { IfOk result (λ s. SignedIn walk.new.nodes s) }
    ensures grows { Grows walk.old.nodes walk.new.nodes }
{
    let judging = Judging {
        table,
        env: &walk.env,
    };
    let signed = sign_operand(alloc, &mut walk.nodes, &judging, sign, part)?;
    Ok(Some(signed))
}

// The operator at the operand: 609 at the operator where it doesn't take it.
#[tactic(auto, using(jc_typed::proofs::Growing::growing))]
fn sign_first(
    alloc: Global,
    table: &Table,
    walk: &mut Walk,
    place: Place,
    op: Op,
    part: Part,
) -> Result<Option<SignedAt>, WantOfMemory>
    requires { IsPart walk.old.nodes part }
    ensures state { OnOk result ((ran_told (sign_first table.now walk.old.env.bounds place op (known walk.old.nodes part.at) (prefix_taken op (as_primitive table.now walk.old.env.bounds (counted_type (known walk.old.nodes part.at))))) (now walk.old)).state ≡ now walk.new) }
    ensures value { IfOk result (λ s. (ran_told (sign_first table.now walk.old.env.bounds place op (known walk.old.nodes part.at) (prefix_taken op (as_primitive table.now walk.old.env.bounds (counted_type (known walk.old.nodes part.at))))) (now walk.old)).has ≡ has_signed walk.new.nodes s) }
    ensures signed { IfOk result (λ s. SignedIn walk.new.nodes s) }
    ensures grows { Grows walk.old.nodes walk.new.nodes }
{
    let judging = Judging {
        table,
        env: &walk.env,
    };
    let of = as_primitive(alloc, &judging, walk.nodes.ty(part.ty))?;
    match prefix_taken(op, of) {
        None => {
            note(walk, refusal(609, place));
            Ok(None)
        }
        Some(to) => sign_taken(alloc, table, walk, Sign { place, op, to }, part),
    }
}

// An operator before further ones, which have a value of a primitive type.
#[tactic(auto, using(jc_typed::proofs::Growing::growing, crate::proofs::Signs::turning))]
fn sign_more(
    walk: &mut Walk,
    sign: Sign,
    ops: Items<Op>,
    of: u32,
) -> Result<Option<SignedAt>, WantOfMemory>
    requires { of < length walk.old.nodes }
    ensures state { OnOk result ((ran_told (sign_more sign.place sign.op (reverse ops) (operand_of walk.old.nodes of) (prefix_on sign.op sign.to)) (now walk.old)).state ≡ now walk.new) }
    ensures value { IfOk result (λ s. (ran_told (sign_more sign.place sign.op (reverse ops) (operand_of walk.old.nodes of) (prefix_on sign.op sign.to)) (now walk.old)).has ≡ has_signed walk.new.nodes s) }
    ensures signed { IfOk result (λ s. SignedIn walk.new.nodes s) }
    ensures grows { Grows walk.old.nodes walk.new.nodes }
{
    let place = sign.place;
    match prefix_on(sign.op, sign.to) {
        None => {
            note(walk, refusal(609, place));
            Ok(None)
        }
        Some(to) => {
            let mut ops = ops;
            ops.push(sign.op)?;
            Ok(Some(SignedAt::Under { place, to, ops, of }))
        }
    }
}

/// A prefix operator but `++` and `--` before what is told so far: 609 at the operator where it doesn't take it.
#[tactic(auto, unfolding(jc_exprs_nodes_spec::specs::Told::ran, jc_exprs_parts_spec::specs::Chains::signing))]
pub fn signing(
    alloc: Global,
    table: &Table,
    walk: &mut Walk,
    place: Place,
    op: Op,
    before: SignedAt,
) -> Result<Option<SignedAt>, WantOfMemory>
    requires { IsSigned walk.old.nodes before }
    ensures state { OnOk result ((ran (signing table.now place op (signed_in walk.old.nodes before)) (now walk.old)).state ≡ now walk.new) }
    ensures value { IfOk result (λ s. (ran (signing table.now place op (signed_in walk.old.nodes before)) (now walk.old)).has ≡ has_signed walk.new.nodes s) }
    ensures signed { IfOk result (λ s. SignedIn walk.new.nodes s) }
    ensures grows { Grows walk.old.nodes walk.new.nodes }
{
    match before {
        SignedAt::Unsigned(part) => sign_first(alloc, table, walk, place, op, part),
        SignedAt::Under { to, ops, of, .. } => sign_more(walk, Sign { place, op, to }, ops, of),
    }
}
