//! What the top of a tree tells.
ghost use Rattle.std.specs.Prelude.{◌≡◌, nat_le};
ghost use Rattle.jc_grammar.specs.Shapes.{changes, creation_shape, ends_bare, expr_shape, is_effect, is_primitive, post_level};

use jc_tree::{BaseTree, ClassTree, Creation, Expr, PrefixSign, TypeTree};

/// Whether an array with lengths is made, behind which no index stands.
#[tactic(auto, using(crate::proofs::Tops::sizes))]
pub fn is_sized(expr: &Expr) -> bool
    ensures { result ≡ (expr_shape expr.now).sized }
{
    match expr {
        Expr::New { creation, .. } => makes_lengths(creation.get()),
        Expr::InnerNew { creation, .. } => makes_lengths(creation.get()),
        _ => false,
    }
}

#[tactic(auto, using(crate::proofs::Tops::creation_sizes))]
fn makes_lengths(creation: &Creation) -> bool
    ensures { result ≡ (creation_shape creation.now).sized }
{
    match creation {
        Creation::Sized { .. } => true,
        _ => false,
    }
}

#[tactic(auto, using(crate::proofs::Tops::creation_objects))]
fn makes_object(creation: &Creation) -> bool
    ensures { result ≡ (creation_shape creation.now).object }
{
    match creation {
        Creation::Object { .. } => true,
        _ => false,
    }
}

/// Whether a prefix operator changes its operand.
fn changes(sign: PrefixSign) -> bool
    ensures { result ≡ changes sign }
{
    match sign {
        PrefixSign::Increment | PrefixSign::Decrement => true,
        _ => false,
    }
}

/// Whether an expression may be a statement (JLS 14.8).
#[tactic(auto, using(crate::proofs::Tops::effects))]
pub fn is_effect(expr: &Expr) -> bool
    ensures { result ≡ is_effect expr.now }
{
    match expr {
        Expr::Assign { .. } => true,
        Expr::Prefix { first, .. } => changes(first.sign),
        Expr::Postfix { .. } => true,
        Expr::Call { .. } => true,
        Expr::InnerNew { creation, .. } => makes_object(creation.get()),
        Expr::SuperCall { .. } => true,
        Expr::Invoke { .. } => true,
        Expr::New { creation, .. } => makes_object(creation.get()),
        _ => false,
    }
}

/// Whether an expression has the level of an assignment's target.
#[tactic(auto, using(crate::proofs::Tops::targets))]
pub fn may_be_target(expr: &Expr) -> bool
    ensures { result ≡ nat_le post_level (expr_shape expr.now).level }
{
    match expr {
        Expr::Assign { .. } => false,
        Expr::Conditional { .. } => false,
        Expr::Chain { .. } => false,
        Expr::Prefix { .. } => false,
        Expr::Cast { .. } => false,
        _ => true,
    }
}

/// Whether a type is primitive and no array.
pub fn is_primitive(ty: &TypeTree) -> bool
    ensures { result ≡ is_primitive ty.now }
{
    match &ty.base {
        BaseTree::Primitive { .. } => ty.dims == 0,
        BaseTree::Class(_) => false,
    }
}

/// Whether the last part of a class type has no arguments.
#[tactic(auto, using(crate::proofs::Tops::last_there, crate::proofs::Tops::last_first, crate::proofs::Tops::emptiness))]
pub fn ends_bare(class: &ClassTree) -> bool
    ensures { result ≡ ends_bare class.now }
{
    match class.more.slice().last() {
        Some(part) => part.args.is_empty(),
        None => class.first.args.is_empty(),
    }
}
