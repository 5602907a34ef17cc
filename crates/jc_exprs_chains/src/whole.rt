//! What is joined so far, as one expression.
ghost use Rattle.std.specs.Prelude.{◌≡◌, IfOk};
ghost use Rattle.jc_typed.specs.Parts.{Grows};
ghost use Rattle.jc_exprs_nodes.specs.Walks.{IsPart, known};
ghost use Rattle.jc_exprs_parts_spec.specs.Chains.{whole};
ghost use Rattle.jc_exprs_chains.specs.Chaining.{IsJoined, joined_at};

use crate::joined::{JoinedAt, JoinedForm};
use jc_exprs_nodes::Part;
use jc_exprs_operators::{push_fixed, push_node};
use jc_rules::WantOfMemory;
use jc_typed::{ExprForm, Nodes};

/// What is joined so far, as one expression that begins where its first operand does.
#[tactic(auto, using(jc_typed::proofs::Growing::growing))]
pub fn whole(nodes: &mut Nodes, joined: JoinedAt) -> Result<Part, WantOfMemory>
    requires { IsJoined nodes.old joined }
    ensures value { IfOk result (λ p. whole (joined_at nodes.old joined) ≡ known nodes.new p.at) }
    ensures part { IfOk result (λ p. IsPart nodes.new p) }
    ensures grows { Grows nodes.old nodes.new }
{
    let JoinedAt { start, ty, form } = joined;
    match form {
        JoinedForm::Whole(part) => Ok(part),
        JoinedForm::Fixed(folded) => push_fixed(nodes, start, ty, folded),
        JoinedForm::Linked { first, links } => {
            push_node(nodes, start, ty, ExprForm::Chain { first, links })
        }
        JoinedForm::Listed {
            is_and: true,
            operands,
            from,
            up_to,
        } => push_node(
            nodes,
            start,
            ty,
            ExprForm::AllOf {
                operands,
                from,
                up_to,
            },
        ),
        JoinedForm::Listed {
            is_and: false,
            operands,
            from,
            up_to,
        } => push_node(
            nodes,
            start,
            ty,
            ExprForm::AnyOf {
                operands,
                from,
                up_to,
            },
        ),
    }
}
