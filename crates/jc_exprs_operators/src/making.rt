//! Expressions that need no capture.
ghost use Rattle.std.specs.Prelude.{◌≡◌, ◌<◌, [], length, IfOk};
ghost use Rattle.jc_typed.specs.Parts.{BelowForm, Grows, captures_of, form_over, parts, steps_of, type_of};
ghost use Rattle.jc_exprs_nodes_spec.specs.Typeds.{node};
ghost use Rattle.jc_exprs_nodes.specs.Walks.{IsPart, known};

use jc_exprs_nodes::{Inner, Part};
use jc_rules::{Place, WantOfMemory};
use jc_typed::{
    CapturesNode, ExprForm, ExprNode, Nodes, OperandNode, StepsNode, form_below, same_form,
};

// With an empty list of captured variables, and one of steps.
#[tactic(auto, using(jc_typed::proofs::Growing::growing), unfolding(jc_exprs_nodes::specs::Walks::typed_in, jc_exprs_nodes::specs::Walks::known))]
fn push_bare(nodes: &mut Nodes, place: Place, inner: Inner, lead: u32) -> Result<Part, WantOfMemory>
    requires below { (inner.ty < length nodes.old) × (inner.captures < length nodes.old) × (lead < length nodes.old) × BelowForm (length nodes.old) inner.form }
    requires captures { captures_of nodes.old inner.captures ≡ [] }
    requires lead { steps_of nodes.old lead ≡ [] }
    ensures value { IfOk result (λ p. node place (type_of nodes.old inner.ty) (form_over (parts nodes.old) inner.form) ≡ known nodes.new p.at) }
    ensures part { IfOk result (λ p. IsPart nodes.new p) }
    ensures grows { Grows nodes.old nodes.new }
{
    let of = nodes.push_expr(ExprNode::Expr {
        place,
        ty: inner.ty,
        captures: inner.captures,
        form: inner.form,
    })?;
    let at = nodes.push_operand(OperandNode::Operand {
        place,
        of,
        steps: lead,
    })?;
    Ok(Part {
        at,
        start: place,
        place,
        of,
        ty: inner.ty,
        lead,
    })
}

/// An expression that needs no capture, of a type in the arena.
#[tactic(auto, using(jc_typed::proofs::Growing::growing))]
pub fn push_node(
    nodes: &mut Nodes,
    place: Place,
    ty: u32,
    form: ExprForm,
) -> Result<Part, WantOfMemory>
    requires ty { ty < length nodes.old }
    requires form { BelowForm (length nodes.old) form }
    ensures value { IfOk result (λ p. node place (type_of nodes.old ty) (form_over (parts nodes.old) form) ≡ known nodes.new p.at) }
    ensures part { IfOk result (λ p. IsPart nodes.new p) }
    ensures grows { Grows nodes.old nodes.new }
{
    same_form();
    form_below();
    let captures = nodes.push_captures(CapturesNode::Empty)?;
    let lead = nodes.push_steps(StepsNode::Empty)?;
    push_bare(nodes, place, Inner { ty, captures, form }, lead)
}
