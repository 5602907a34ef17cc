//! Typed parts of a node.
ghost use Rattle.std.specs.Prelude.{◌≡◌, ◌<◌, length, None, IfSome};
ghost use Rattle.jc_typed.specs.Parts.{steps_of, type_of};
ghost use Rattle.jc_exprs_nodes_spec.specs.Typeds.{behind};
ghost use Rattle.jc_exprs_nodes.specs.Walks.{has, IsPart};

use crate::walk::Part;
use jc_typed::{ExprNode, Nodes, OperandNode, StepNode, StepsNode};

// The place of the type of a value behind these steps: the last one upwards tells it.
#[tactic(auto, using(crate::proofs::Counted::behind_more))]
fn counted(nodes: &Nodes, ty: u32, steps: u32) -> u32
    requires ty { ty < length nodes.now }
    requires steps { steps < length nodes.now }
    ensures value { type_of nodes.now result ≡ behind (type_of nodes.now ty) (steps_of nodes.now steps) }
    ensures below { result < length nodes.now }
{
    let mut at = steps;
    while let StepsNode::More { before, last } = nodes.steps(at) {
        if let StepNode::Up { ty: to, .. } = last {
            return to;
        }
        at = before;
    }
    ty
}

/// What stands at a place, if it has a typing.
#[tactic(auto, unfolding(crate::specs::Walks::typed_in, crate::specs::Walks::known))]
pub fn part(nodes: &Nodes, at: u32) -> Option<Part>
    requires { at < length nodes.now }
    ensures none { (result ≡ None) → (has nodes.now at ≡ None) }
    ensures some { IfSome result (λ p. IsPart nodes.now p) }
    ensures same { IfSome result (λ p. p.at ≡ at) }
{
    match nodes.operand(at) {
        OperandNode::Missing => None,
        OperandNode::Operand {
            place: start,
            of,
            steps: lead,
        } => match nodes.expr(of) {
            ExprNode::Missing => None,
            ExprNode::Expr { place, ty, .. } => Some(Part {
                at,
                start,
                place,
                of,
                ty: counted(nodes, ty, lead),
                lead,
            }),
        },
    }
}
