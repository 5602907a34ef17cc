//! Expressions.
ghost use Rattle.std.specs.Prelude.{◌≡◌, IfOk};

use crate::plain::{copy_idents, copy_literal, copy_prefixes};
use crate::skips::copy_skips;
use crate::together::{added, both, boxed};
use jc_rules::{Items, WantOfMemory};
use jc_tree::{
    ArrayInit, Creation, Expr, Init, Operand, copy_args, copy_base, copy_class, copy_ident,
    copy_type,
};
use std::alloc::Global;

/// A copy of an expression.
#[cycle(expression_copies)]
pub fn copy_expr(alloc: Global, expr: &Expr) -> Result<Expr, WantOfMemory>
    ensures { IfOk result (λ copy. copy ≡ expr.now) }
{
    match expr {
        Expr::Assign { target, op, value } => {
            let target = boxed(alloc, copy_expr(alloc, target.get()));
            let value = boxed(alloc, copy_expr(alloc, value.get()));
            match both(target, value) {
                Ok((target, value)) => Ok(Expr::Assign {
                    target,
                    op: *op,
                    value,
                }),
                Err(fault) => Err(fault),
            }
        }
        Expr::Conditional {
            test,
            then,
            otherwise,
        } => {
            let test = boxed(alloc, copy_expr(alloc, test.get()));
            let then = boxed(alloc, copy_expr(alloc, then.get()));
            let otherwise = boxed(alloc, copy_expr(alloc, otherwise.get()));
            match both(test, both(then, otherwise)) {
                Ok((test, (then, otherwise))) => Ok(Expr::Conditional {
                    test,
                    then,
                    otherwise,
                }),
                Err(fault) => Err(fault),
            }
        }
        Expr::Chain { first, rest } => {
            let first = boxed(alloc, copy_expr(alloc, first.get()));
            match both(first, copy_operands(alloc, rest.slice())) {
                Ok((first, rest)) => Ok(Expr::Chain { first, rest }),
                Err(fault) => Err(fault),
            }
        }
        Expr::Prefix {
            first,
            more,
            operand,
        } => {
            let operand = boxed(alloc, copy_expr(alloc, operand.get()));
            let more = boxed(alloc, copy_prefixes(alloc, more.get().slice()));
            match both(more, operand) {
                Ok((more, operand)) => Ok(Expr::Prefix {
                    first: *first,
                    more,
                    operand,
                }),
                Err(fault) => Err(fault),
            }
        }
        Expr::Cast { at, ty, operand } => {
            let ty = boxed(alloc, copy_type(alloc, ty.get()));
            let operand = boxed(alloc, copy_expr(alloc, operand.get()));
            match both(ty, operand) {
                Ok((ty, operand)) => Ok(Expr::Cast {
                    at: *at,
                    ty,
                    operand,
                }),
                Err(fault) => Err(fault),
            }
        }
        Expr::Postfix { of, op } => match boxed(alloc, copy_expr(alloc, of.get())) {
            Ok(of) => Ok(Expr::Postfix { of, op: *op }),
            Err(fault) => Err(fault),
        },
        Expr::Field { of, name } => {
            let of = boxed(alloc, copy_expr(alloc, of.get()));
            match both(of, copy_ident(alloc, name)) {
                Ok((of, name)) => Ok(Expr::Field { of, name }),
                Err(fault) => Err(fault),
            }
        }
        Expr::Call {
            of,
            type_args,
            name,
            actuals,
        } => {
            let of = boxed(alloc, copy_expr(alloc, of.get()));
            let type_args = boxed(alloc, copy_args(alloc, type_args.get().slice()));
            let named = both(type_args, boxed(alloc, copy_ident(alloc, name.get())));
            let actuals = boxed(alloc, copy_exprs(alloc, actuals.get().slice()));
            match both(both(of, named), actuals) {
                Ok(((of, (type_args, name)), actuals)) => Ok(Expr::Call {
                    of,
                    type_args,
                    name,
                    actuals,
                }),
                Err(fault) => Err(fault),
            }
        }
        Expr::Index { of, index } => {
            let of = boxed(alloc, copy_expr(alloc, of.get()));
            let index = boxed(alloc, copy_expr(alloc, index.get()));
            match both(of, index) {
                Ok((of, index)) => Ok(Expr::Index { of, index }),
                Err(fault) => Err(fault),
            }
        }
        Expr::InnerNew { of, creation } => {
            let of = boxed(alloc, copy_expr(alloc, of.get()));
            let creation = boxed(alloc, copy_creation(alloc, creation.get()));
            match both(of, creation) {
                Ok((of, creation)) => Ok(Expr::InnerNew { of, creation }),
                Err(fault) => Err(fault),
            }
        }
        Expr::Literal { at, value } => match copy_literal(alloc, value) {
            Ok(value) => Ok(Expr::Literal { at: *at, value }),
            Err(fault) => Err(fault),
        },
        Expr::This { at } => Ok(Expr::This { at: *at }),
        Expr::SuperField { at, name } => match copy_ident(alloc, name) {
            Ok(name) => Ok(Expr::SuperField { at: *at, name }),
            Err(fault) => Err(fault),
        },
        Expr::SuperCall {
            at,
            type_args,
            name,
            actuals,
        } => {
            let type_args = boxed(alloc, copy_args(alloc, type_args.get().slice()));
            let named = both(type_args, boxed(alloc, copy_ident(alloc, name.get())));
            let actuals = boxed(alloc, copy_exprs(alloc, actuals.get().slice()));
            match both(named, actuals) {
                Ok(((type_args, name), actuals)) => Ok(Expr::SuperCall {
                    at: *at,
                    type_args,
                    name,
                    actuals,
                }),
                Err(fault) => Err(fault),
            }
        }
        Expr::Paren { at, inner } => match boxed(alloc, copy_expr(alloc, inner.get())) {
            Ok(inner) => Ok(Expr::Paren { at: *at, inner }),
            Err(fault) => Err(fault),
        },
        Expr::Name(name) => match copy_ident(alloc, name) {
            Ok(name) => Ok(Expr::Name(name)),
            Err(fault) => Err(fault),
        },
        Expr::Invoke { name, actuals } => {
            let actuals = boxed(alloc, copy_exprs(alloc, actuals.get().slice()));
            match both(copy_ident(alloc, name), actuals) {
                Ok((name, actuals)) => Ok(Expr::Invoke { name, actuals }),
                Err(fault) => Err(fault),
            }
        }
        Expr::New { at, creation } => match boxed(alloc, copy_creation(alloc, creation.get())) {
            Ok(creation) => Ok(Expr::New { at: *at, creation }),
            Err(fault) => Err(fault),
        },
        Expr::ClassLiteral { ty } => match boxed(alloc, copy_type(alloc, ty.get())) {
            Ok(ty) => Ok(Expr::ClassLiteral { ty }),
            Err(fault) => Err(fault),
        },
        Expr::VoidLiteral { at } => Ok(Expr::VoidLiteral { at: *at }),
        Expr::OuterThis { first, more } => {
            let more = boxed(alloc, copy_idents(alloc, more.get().slice()));
            match both(copy_ident(alloc, first), more) {
                Ok((first, more)) => Ok(Expr::OuterThis { first, more }),
                Err(fault) => Err(fault),
            }
        }
    }
}

#[cycle(expression_copies)]
pub fn copy_exprs(alloc: Global, exprs: &[Expr]) -> Result<Items<Expr>, WantOfMemory>
    ensures { IfOk result (λ copy. copy ≡ exprs.now) }
{
    let mut copies = Items::new(alloc);
    for i in 0..exprs.len() {
        copies = added(copies, copy_expr(alloc, &exprs[i]))?;
    }
    Ok(copies)
}

#[cycle(expression_copies)]
fn copy_operand(alloc: Global, operand: &Operand) -> Result<Operand, WantOfMemory>
    ensures { IfOk result (λ copy. copy ≡ operand.now) }
{
    match operand {
        Operand::Binary { op, right } => match copy_expr(alloc, right) {
            Ok(right) => Ok(Operand::Binary { op: *op, right }),
            Err(fault) => Err(fault),
        },
        Operand::InstanceOf { ty } => match boxed(alloc, copy_type(alloc, ty.get())) {
            Ok(ty) => Ok(Operand::InstanceOf { ty }),
            Err(fault) => Err(fault),
        },
    }
}

#[cycle(expression_copies)]
fn copy_operands(alloc: Global, operands: &[Operand]) -> Result<Items<Operand>, WantOfMemory>
    ensures { IfOk result (λ copy. copy ≡ operands.now) }
{
    let mut copies = Items::new(alloc);
    for i in 0..operands.len() {
        copies = added(copies, copy_operand(alloc, &operands[i]))?;
    }
    Ok(copies)
}

#[cycle(expression_copies)]
fn copy_creation(alloc: Global, creation: &Creation) -> Result<Creation, WantOfMemory>
    ensures { IfOk result (λ copy. copy ≡ creation.now) }
{
    match creation {
        Creation::Object {
            class,
            diamond,
            actuals,
            body,
        } => {
            let actuals = copy_exprs(alloc, actuals.slice());
            let behind = both(actuals, copy_skips(alloc, body.slice()));
            match both(copy_class(alloc, class), behind) {
                Ok((class, (actuals, body))) => Ok(Creation::Object {
                    class,
                    diamond: *diamond,
                    actuals,
                    body,
                }),
                Err(fault) => Err(fault),
            }
        }
        Creation::Sized {
            element,
            first,
            more,
            dims,
        } => {
            let first = boxed(alloc, copy_expr(alloc, first.get()));
            let sizes = both(first, copy_exprs(alloc, more.slice()));
            match both(copy_base(alloc, element), sizes) {
                Ok((element, (first, more))) => Ok(Creation::Sized {
                    element,
                    first,
                    more,
                    dims: *dims,
                }),
                Err(fault) => Err(fault),
            }
        }
        Creation::Initialised {
            element,
            dims,
            init,
        } => match both(copy_base(alloc, element), copy_array(alloc, init)) {
            Ok((element, init)) => Ok(Creation::Initialised {
                element,
                dims: *dims,
                init,
            }),
            Err(fault) => Err(fault),
        },
    }
}

#[cycle(expression_copies)]
fn copy_array(alloc: Global, array: &ArrayInit) -> Result<ArrayInit, WantOfMemory>
    ensures { IfOk result (λ copy. copy ≡ array.now) }
{
    match copy_inits(alloc, array.inits.slice()) {
        Ok(inits) => Ok(ArrayInit {
            at: array.at,
            inits,
            trailing: array.trailing,
        }),
        Err(fault) => Err(fault),
    }
}

/// A copy of an initialiser.
#[cycle(expression_copies)]
pub fn copy_init(alloc: Global, init: &Init) -> Result<Init, WantOfMemory>
    ensures { IfOk result (λ copy. copy ≡ init.now) }
{
    match init {
        Init::Value(value) => match copy_expr(alloc, value) {
            Ok(value) => Ok(Init::Value(value)),
            Err(fault) => Err(fault),
        },
        Init::Nested(array) => match copy_array(alloc, array) {
            Ok(array) => Ok(Init::Nested(array)),
            Err(fault) => Err(fault),
        },
    }
}

#[cycle(expression_copies)]
fn copy_inits(alloc: Global, inits: &[Init]) -> Result<Items<Init>, WantOfMemory>
    ensures { IfOk result (λ copy. copy ≡ inits.now) }
{
    let mut copies = Items::new(alloc);
    for i in 0..inits.len() {
        copies = added(copies, copy_init(alloc, &inits[i]))?;
    }
    Ok(copies)
}
