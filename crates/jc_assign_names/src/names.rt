//! What a name does where it stands.
ghost use Rattle.std.specs.Prelude.{◌≡◌, ◌<◌, OnOk, length};
ghost use Rattle.jc_typed.specs.Parts.{expr_of, operand_of};
ghost use Rattle.jc_assign_spec.specs.Expressions.{is_boolean, is_boolean_expr, is_boolean_type, is_local, is_own, is_this, is_this_expr, used_if};
ghost use Rattle.jc_assign_parts.specs.Lanes.{known, stepped, var_at};
ghost use Rattle.jc_assign_names.specs.Walks.{field_writes};

use jc_assign_parts::{Scene, State, local_mask, own_mask, use_at, write_at, written_mask};
use jc_rules::{Place, WantOfMemory};
use jc_typed::{ExprForm, ExprNode, Nodes, OperandNode};
use jc_types::{FieldId, Primitive, Ty};

fn is_this_expr(nodes: &Nodes, at: u32) -> bool
    requires { at < length nodes.now }
    ensures { result ≡ is_this_expr (expr_of nodes.now at) }
{
    match nodes.expr(at) {
        ExprNode::Missing => false,
        ExprNode::Expr { form, .. } => matches!(form, ExprForm::This),
    }
}

/// Whether an operand is `this`.
pub fn is_this(nodes: &Nodes, at: u32) -> bool
    requires { at < length nodes.now }
    ensures { result ≡ is_this (operand_of nodes.now at) }
{
    match nodes.operand(at) {
        OperandNode::Missing => false,
        OperandNode::Operand { of, .. } => is_this_expr(nodes, of),
    }
}

fn is_boolean_type(ty: &Ty) -> bool
    ensures { result ≡ is_boolean_type ty.now }
{
    match ty {
        Ty::Prim(Primitive::Boolean) => true,
        _ => false,
    }
}

fn is_boolean_expr(nodes: &Nodes, at: u32) -> bool
    requires { at < length nodes.now }
    ensures { result ≡ is_boolean_expr (expr_of nodes.now at) }
{
    match nodes.expr(at) {
        ExprNode::Missing => false,
        ExprNode::Expr { ty, .. } => is_boolean_type(nodes.ty(ty)),
    }
}

/// Whether an operand is boolean.
pub fn is_boolean(nodes: &Nodes, at: u32) -> bool
    requires { at < length nodes.now }
    ensures { result ≡ is_boolean (operand_of nodes.now at) }
{
    match nodes.operand(at) {
        OperandNode::Missing => false,
        OperandNode::Operand { of, .. } => is_boolean_expr(nodes, of),
    }
}

/// The value of a local variable is used.
pub fn use_local(scene: &Scene, local: u32, place: Place, s: &mut State) -> Result<(), WantOfMemory>
    ensures { OnOk result (known s.new ≡ stepped (λ l k. used_if (is_local local (var_at scene.now.group l.at)) place k) (known s.old)) }
{
    let mask = local_mask(scene.group, local);
    use_at(s, mask, place)
}

/// The value of a field is used.
pub fn use_field(
    scene: &Scene,
    named: bool,
    field: FieldId,
    place: Place,
    s: &mut State,
) -> Result<(), WantOfMemory>
    ensures { OnOk result (known s.new ≡ stepped (λ l k. used_if (is_own named field (var_at scene.now.group l.at)) place k) (known s.old)) }
{
    let mask = own_mask(scene.group, named, field);
    use_at(s, mask, place)
}

/// A field is assigned.
pub fn write_field(
    scene: &Scene,
    named: bool,
    field: FieldId,
    place: Place,
    s: &mut State,
) -> Result<(), WantOfMemory>
    ensures { OnOk result (known s.new ≡ stepped (field_writes scene.now.table.now scene.now.own.now scene.now.group scene.now.finals named field place) (known s.old)) }
{
    let mask = written_mask(scene, scene.group, named, field);
    write_at(s, mask, scene.finals, place)
}
