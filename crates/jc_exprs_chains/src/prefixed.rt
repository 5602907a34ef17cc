//! An operand with its prefix operators, as one expression.
ghost use Rattle.std.specs.Prelude.{◌≡◌, ◌<◌, length, reverse, IfOk};
ghost use Rattle.jc_types.specs.declared.form.Ty.TheVariants.{Prim};
ghost use Rattle.jc_typed.specs.Parts.{Grows, operand_of, ops_of};
ghost use Rattle.jc_typed.specs.Trees.{Prefix};
ghost use Rattle.jc_exprs_nodes_spec.specs.Typeds.{node};
ghost use Rattle.jc_exprs_nodes.specs.Walks.{IsPart, known};
ghost use Rattle.jc_exprs_parts_spec.specs.Chains.{signed};
ghost use Rattle.jc_exprs_chains.specs.Chaining.{IsSigned, signed_in};

use crate::signed::SignedAt;
use jc_exprs_nodes::Part;
use jc_exprs_operators::push_node;
use jc_rules::{Items, Place, WantOfMemory};
use jc_typed::{ExprForm, Nodes, OpsNode};
use jc_types::{Op, Primitive, Ty};

// Operators in the arena, the outermost first, of which the last one here is the outermost.
#[tactic(auto, using(jc_typed::proofs::Growing::growing, jc_exprs_nodes::proofs::Appending::appended, crate::proofs::Signs::turning))]
fn push_signs(nodes: &mut Nodes, ops: Items<Op>) -> Result<u32, WantOfMemory>
    ensures value { IfOk result (λ at. ops_of nodes.new at ≡ reverse ops) }
    ensures within { IfOk result (λ at. at < length nodes.new) }
    ensures grows { Grows nodes.old nodes.new }
{
    let mut left = ops;
    let mut list = nodes.push_ops(OpsNode::Empty)?;
    while let Some(op) = left.pop() {
        list = nodes.push_ops(OpsNode::More {
            before: list,
            last: op,
        })?;
    }
    Ok(list)
}

#[tactic(auto, using(jc_typed::proofs::Growing::growing))]
fn push_prefix(
    nodes: &mut Nodes,
    place: Place,
    to: Primitive,
    ops: Items<Op>,
    of: u32,
) -> Result<Part, WantOfMemory>
    requires { of < length nodes.old }
    ensures value { IfOk result (λ p. node place (Prim to) (Prefix (reverse ops) (operand_of nodes.old of)) ≡ known nodes.new p.at) }
    ensures part { IfOk result (λ p. IsPart nodes.new p) }
    ensures grows { Grows nodes.old nodes.new }
{
    let ops = push_signs(nodes, ops)?;
    let ty = nodes.push_type(Ty::Prim(to))?;
    push_node(nodes, place, ty, ExprForm::Prefix { ops, of })
}

/// An operand with its prefix operators, as one expression.
#[tactic(auto, using(jc_typed::proofs::Growing::growing))]
pub fn with_signs(nodes: &mut Nodes, before: SignedAt) -> Result<Part, WantOfMemory>
    requires { IsSigned nodes.old before }
    ensures value { IfOk result (λ p. signed (signed_in nodes.old before) ≡ known nodes.new p.at) }
    ensures part { IfOk result (λ p. IsPart nodes.new p) }
    ensures grows { Grows nodes.old nodes.new }
{
    match before {
        SignedAt::Unsigned(part) => Ok(part),
        SignedAt::Under { place, to, ops, of } => push_prefix(nodes, place, to, ops, of),
    }
}
