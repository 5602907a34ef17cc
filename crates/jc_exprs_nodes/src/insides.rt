//! What a typed part is made of.
ghost use Rattle.std.specs.Prelude.{◌≡◌, ◌<◌, length};
ghost use Rattle.jc_typed.specs.Parts.{BelowForm, captures_of, form_over, parts, type_of};
ghost use Rattle.jc_exprs_nodes.specs.Walks.{IsPart, known};

use crate::walk::Part;
use jc_typed::{ExprForm, ExprNode, Nodes};

/// The type of an expression, its captured variables and its form, by their places in the arena.
#[derive(Clone, Copy, Debug)]
pub struct Inner {
    pub ty: u32,
    pub captures: u32,
    pub form: ExprForm,
}

/// What a typed part is made of.
pub fn inside(nodes: &Nodes, part: Part) -> Inner
    requires { IsPart nodes.now part }
    ensures ty { (known nodes.now part.at).ty ≡ type_of nodes.now result.ty }
    ensures captures { (known nodes.now part.at).captures ≡ captures_of nodes.now result.captures }
    ensures form { (known nodes.now part.at).form ≡ form_over (parts nodes.now) result.form }
    ensures below { (result.ty < length nodes.now) × (result.captures < length nodes.now) × BelowForm (length nodes.now) result.form }
{
    match nodes.expr(part.of) {
        ExprNode::Expr {
            ty,
            captures,
            form,
            ..
        } => Inner { ty, captures, form },
        ExprNode::Missing => Inner {
            ty: part.ty,
            captures: part.ty,
            form: ExprForm::Null,
        },
    }
}
