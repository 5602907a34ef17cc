//! Expressions.
ghost use Rattle.std.specs.Prelude.{◌≡◌, ◌↔◌, IsTrue};

use crate::plain::{same_ident, same_idents, same_literal, same_prefix, same_prefixes};
use crate::skips::same_skips;
use crate::types::{same_args, same_base, same_class, same_type};
use jc_tree::{ArrayInit, Creation, Expr, Init, Literal, Operand};

/// Whether two expressions are the same, at the same places.
#[cycle(same_expressions)]
pub fn same_expr(a: &Expr, b: &Expr) -> bool
    ensures { IsTrue result ↔ (a.now ≡ b.now) }
{
    match (a, b) {
        (
            Expr::Assign { target, op, value },
            Expr::Assign {
                target: other_target,
                op: other_op,
                value: other_value,
            },
        ) => op == other_op
            && same_expr(target.get(), other_target.get())
            && same_expr(value.get(), other_value.get()),
        (
            Expr::Conditional {
                test,
                then,
                otherwise,
            },
            Expr::Conditional {
                test: other_test,
                then: other_then,
                otherwise: other_otherwise,
            },
        ) => same_expr(test.get(), other_test.get())
            && same_expr(then.get(), other_then.get())
            && same_expr(otherwise.get(), other_otherwise.get()),
        (
            Expr::Chain { first, rest },
            Expr::Chain {
                first: other_first,
                rest: other_rest,
            },
        ) => same_expr(first.get(), other_first.get())
            && same_operands(rest.slice(), other_rest.slice()),
        (
            Expr::Prefix {
                first,
                more,
                operand,
            },
            Expr::Prefix {
                first: other_first,
                more: other_more,
                operand: other_operand,
            },
        ) => same_prefix(first, other_first)
            && same_prefixes(more.get().slice(), other_more.get().slice())
            && same_expr(operand.get(), other_operand.get()),
        (
            Expr::Cast { at, ty, operand },
            Expr::Cast {
                at: other_at,
                ty: other_ty,
                operand: other_operand,
            },
        ) => at == other_at
            && same_type(ty.get(), other_ty.get())
            && same_expr(operand.get(), other_operand.get()),
        (
            Expr::Postfix { of, op },
            Expr::Postfix {
                of: other_of,
                op: other_op,
            },
        ) => op == other_op && same_expr(of.get(), other_of.get()),
        (
            Expr::Field { of, name },
            Expr::Field {
                of: other_of,
                name: other_name,
            },
        ) => same_expr(of.get(), other_of.get()) && same_ident(name, other_name),
        (
            Expr::Call {
                of,
                type_args,
                name,
                actuals,
            },
            Expr::Call {
                of: other_of,
                type_args: other_type_args,
                name: other_name,
                actuals: other_actuals,
            },
        ) => same_expr(of.get(), other_of.get())
            && same_args(type_args.get().slice(), other_type_args.get().slice())
            && same_ident(name.get(), other_name.get())
            && same_exprs(actuals.get().slice(), other_actuals.get().slice()),
        (
            Expr::Index { of, index },
            Expr::Index {
                of: other_of,
                index: other_index,
            },
        ) => same_expr(of.get(), other_of.get()) && same_expr(index.get(), other_index.get()),
        (
            Expr::InnerNew { of, creation },
            Expr::InnerNew {
                of: other_of,
                creation: other_creation,
            },
        ) => {
            same_expr(of.get(), other_of.get())
                && same_creation(creation.get(), other_creation.get())
        }
        (
            Expr::Literal { at, value },
            Expr::Literal {
                at: other_at,
                value: other_value,
            },
        ) => at == other_at && same_literal(value, other_value),
        (Expr::This { at }, Expr::This { at: other }) => at == other,
        (
            Expr::SuperField { at, name },
            Expr::SuperField {
                at: other_at,
                name: other_name,
            },
        ) => at == other_at && same_ident(name, other_name),
        (
            Expr::SuperCall {
                at,
                type_args,
                name,
                actuals,
            },
            Expr::SuperCall {
                at: other_at,
                type_args: other_type_args,
                name: other_name,
                actuals: other_actuals,
            },
        ) => at == other_at
            && same_args(type_args.get().slice(), other_type_args.get().slice())
            && same_ident(name.get(), other_name.get())
            && same_exprs(actuals.get().slice(), other_actuals.get().slice()),
        (
            Expr::Paren { at, inner },
            Expr::Paren {
                at: other_at,
                inner: other_inner,
            },
        ) => at == other_at && same_expr(inner.get(), other_inner.get()),
        (Expr::Name(it), Expr::Name(other)) => same_ident(it, other),
        (
            Expr::Invoke { name, actuals },
            Expr::Invoke {
                name: other_name,
                actuals: other_actuals,
            },
        ) => same_ident(name, other_name)
            && same_exprs(actuals.get().slice(), other_actuals.get().slice()),
        (
            Expr::New { at, creation },
            Expr::New {
                at: other_at,
                creation: other_creation,
            },
        ) => at == other_at && same_creation(creation.get(), other_creation.get()),
        (Expr::ClassLiteral { ty }, Expr::ClassLiteral { ty: other }) => {
            same_type(ty.get(), other.get())
        }
        (Expr::VoidLiteral { at }, Expr::VoidLiteral { at: other }) => at == other,
        (
            Expr::OuterThis { first, more },
            Expr::OuterThis {
                first: other_first,
                more: other_more,
            },
        ) => same_ident(first, other_first)
            && same_idents(more.get().slice(), other_more.get().slice()),
        _ => false,
    }
}

#[cycle(same_expressions)]
pub fn same_exprs(xs: &[Expr], ys: &[Expr]) -> bool
    ensures { IsTrue result ↔ (xs.now ≡ ys.now) }
{
    if xs.len() != ys.len() {
        return false;
    }
    for i in 0..xs.len() {
        if !same_expr(&xs[i], &ys[i]) {
            return false;
        }
    }
    true
}

#[cycle(same_expressions)]
fn same_operand(a: &Operand, b: &Operand) -> bool
    ensures { IsTrue result ↔ (a.now ≡ b.now) }
{
    match (a, b) {
        (
            Operand::Binary { op, right },
            Operand::Binary {
                op: other_op,
                right: other_right,
            },
        ) => op == other_op && same_expr(right, other_right),
        (Operand::InstanceOf { ty }, Operand::InstanceOf { ty: other }) => {
            same_type(ty.get(), other.get())
        }
        _ => false,
    }
}

#[cycle(same_expressions)]
fn same_operands(xs: &[Operand], ys: &[Operand]) -> bool
    ensures { IsTrue result ↔ (xs.now ≡ ys.now) }
{
    if xs.len() != ys.len() {
        return false;
    }
    for i in 0..xs.len() {
        if !same_operand(&xs[i], &ys[i]) {
            return false;
        }
    }
    true
}

#[cycle(same_expressions)]
fn same_creation(a: &Creation, b: &Creation) -> bool
    ensures { IsTrue result ↔ (a.now ≡ b.now) }
{
    match (a, b) {
        (
            Creation::Object {
                class,
                diamond,
                actuals,
                body,
            },
            Creation::Object {
                class: other_class,
                diamond: other_diamond,
                actuals: other_actuals,
                body: other_body,
            },
        ) => diamond == other_diamond
            && same_class(class, other_class)
            && same_exprs(actuals.slice(), other_actuals.slice())
            && same_skips(body.slice(), other_body.slice()),
        (
            Creation::Sized {
                element,
                first,
                more,
                dims,
            },
            Creation::Sized {
                element: other_element,
                first: other_first,
                more: other_more,
                dims: other_dims,
            },
        ) => dims == other_dims
            && same_base(element, other_element)
            && same_expr(first.get(), other_first.get())
            && same_exprs(more.slice(), other_more.slice()),
        (
            Creation::Initialised {
                element,
                dims,
                init,
            },
            Creation::Initialised {
                element: other_element,
                dims: other_dims,
                init: other_init,
            },
        ) => dims == other_dims
            && same_base(element, other_element)
            && same_array(init, other_init),
        _ => false,
    }
}

/// Whether two array initialisers are the same, at the same places.
#[cycle(same_expressions)]
pub fn same_array(a: &ArrayInit, b: &ArrayInit) -> bool
    ensures { IsTrue result ↔ (a.now ≡ b.now) }
{
    a.at == b.at && a.trailing == b.trailing && same_inits(a.inits.slice(), b.inits.slice())
}

#[cycle(same_expressions)]
pub fn same_init(a: &Init, b: &Init) -> bool
    ensures { IsTrue result ↔ (a.now ≡ b.now) }
{
    match (a, b) {
        (Init::Value(it), Init::Value(other)) => same_expr(it, other),
        (Init::Nested(it), Init::Nested(other)) => same_array(it, other),
        _ => false,
    }
}

#[cycle(same_expressions)]
fn same_inits(xs: &[Init], ys: &[Init]) -> bool
    ensures { IsTrue result ↔ (xs.now ≡ ys.now) }
{
    if xs.len() != ys.len() {
        return false;
    }
    for i in 0..xs.len() {
        if !same_init(&xs[i], &ys[i]) {
            return false;
        }
    }
    true
}

pub fn same_some_expr(a: &Option<Expr>, b: &Option<Expr>) -> bool
    ensures { IsTrue result ↔ (a.now ≡ b.now) }
{
    match (a, b) {
        (Some(it), Some(other)) => same_expr(it, other),
        (None, None) => true,
        _ => false,
    }
}

pub fn same_some_init(a: &Option<Init>, b: &Option<Init>) -> bool
    ensures { IsTrue result ↔ (a.now ≡ b.now) }
{
    match (a, b) {
        (Some(it), Some(other)) => same_init(it, other),
        (None, None) => true,
        _ => false,
    }
}
