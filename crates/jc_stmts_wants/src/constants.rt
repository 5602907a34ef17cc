//! Constants and types of operands in the arena.
ghost use Rattle.std.specs.Prelude.{◌≡◌, ◌<◌, Some, length};
ghost use Rattle.std.specs.Option.{option_copied};
ghost use Rattle.jc_typed.specs.Parts.{BelowForm, constant_of, form_over, names_of, operand_of, operands_of, parts, places_of};
ghost use Rattle.jc_typed.specs.Trees.{Fixed};
ghost use Rattle.jc_exprs_nodes_spec.specs.Typeds.{constant_of as counted_constant, known_in, known_of, value_in};
ghost use Rattle.jc_exprs_nodes.specs.Walks.{IsPart, known};
ghost use Rattle.jc_stmts_spec.specs.Courses.{known_in_operand, selector_type};
ghost use Rattle.jc_stmts_wants.specs.Wanting.{FixedBelow, known_at};

use jc_exprs_nodes::{Part, inside};
use jc_typed::{ExprForm, ExprNode, ListNode, Nodes, OperandNode};
use jc_types::{Constant, Ty};

/// A constant, the locals that its expression names and the places of its casts to String, by their places in the arena.
#[derive(Clone, Copy, Debug)]
pub struct FixedAt {
    pub value: u32,
    pub named: u32,
    pub casts: u32,
}

// A constant that is named through an operand is no constant expression (JLS 15.28).
fn unless_through(nodes: &Nodes, before: u32, fixed: FixedAt) -> Option<FixedAt>
    requires before { before < length nodes.now }
    requires fixed { FixedBelow (length nodes.now) (Some fixed) }
    ensures value { known_in (Fixed (operands_of nodes.now before) (constant_of nodes.now fixed.value) (names_of nodes.now fixed.named) (places_of nodes.now fixed.casts)) ≡ known_at nodes.now result }
    ensures below { FixedBelow (length nodes.now) result }
{
    match nodes.operands(before) {
        ListNode::Empty => Some(fixed),
        ListNode::More { .. } => None,
    }
}

// The constant that an expression of this form is, if it is one.
fn fixed_form(nodes: &Nodes, form: ExprForm) -> Option<FixedAt>
    requires { BelowForm (length nodes.now) form }
    ensures value { known_in (form_over (parts nodes.now) form) ≡ known_at nodes.now result }
    ensures below { FixedBelow (length nodes.now) result }
{
    match form {
        ExprForm::Constant {
            before,
            value,
            named,
            casts,
        } => unless_through(
            nodes,
            before,
            FixedAt {
                value,
                named,
                casts,
            },
        ),
        _ => None,
    }
}

/// The constant of a typed part, if it is a constant expression.
pub fn fixed(nodes: &Nodes, part: Part) -> Option<FixedAt>
    requires { IsPart nodes.now part }
    ensures value { known_of (known nodes.now part.at) ≡ known_at nodes.now result }
    ensures below { FixedBelow (length nodes.now) result }
{
    let inner = inside(nodes, part);
    fixed_form(nodes, inner.form)
}

/// Its value.
pub fn constant(nodes: &Nodes, part: Part) -> Option<&Constant>
    requires { IsPart nodes.now part }
    ensures { option_copied result ≡ counted_constant (known nodes.now part.at) }
{
    match fixed(nodes, part) {
        None => None,
        Some(of) => Some(nodes.constant(of.value)),
    }
}

/// The value of an operand that is a constant expression.
pub fn operand_constant(nodes: &Nodes, at: u32) -> Option<&Constant>
    requires { at < length nodes.now }
    ensures { option_copied result ≡ value_in (known_in_operand (Some (operand_of nodes.now at))) }
{
    let of = match nodes.operand(at) {
        OperandNode::Missing => return None,
        OperandNode::Operand { of, .. } => of,
    };
    let form = match nodes.expr(of) {
        ExprNode::Missing => return None,
        ExprNode::Expr { form, .. } => form,
    };
    match fixed_form(nodes, form) {
        None => None,
        Some(fixed) => Some(nodes.constant(fixed.value)),
    }
}

/// The type of the expression of an operand.
pub fn operand_type(nodes: &Nodes, at: u32) -> Option<&Ty>
    requires { at < length nodes.now }
    ensures { option_copied result ≡ selector_type (Some (operand_of nodes.now at)) }
{
    match nodes.operand(at) {
        OperandNode::Missing => None,
        OperandNode::Operand { of, .. } => match nodes.expr(of) {
            ExprNode::Missing => None,
            ExprNode::Expr { ty, .. } => Some(nodes.ty(ty)),
        },
    }
}
