//! Expressions in words: each node in parentheses, its kind first, but for names, numbers and other single words.
use crate::types::{put_applied, put_base, put_class, put_type};
use crate::words::{
    assign_text, binary_text, postfix_text, prefix_text, put_ident, put_literal, put_number,
    put_token,
};
use jc_tree::{ArrayInit, Creation, Expr, Init, Operand, PrefixOp, Skip, SkipPart};
use std::alloc::{AllocError, Global};

#[cycle(putting_expressions)]
pub fn put_expr(alloc: Global, out: &mut String, expr: &Expr) -> Result<(), AllocError> {
    match expr {
        Expr::Assign { target, op, value } => {
            out.push_str("(assign ")?;
            out.push_str(assign_text(*op))?;
            out.push_str(" ")?;
            put_expr(alloc, out, target.get())?;
            out.push_str(" ")?;
            put_expr(alloc, out, value.get())?;
            out.push_str(")")
        }
        Expr::Conditional {
            test,
            then,
            otherwise,
        } => {
            out.push_str("(conditional ")?;
            put_expr(alloc, out, test.get())?;
            out.push_str(" ")?;
            put_expr(alloc, out, then.get())?;
            out.push_str(" ")?;
            put_expr(alloc, out, otherwise.get())?;
            out.push_str(")")
        }
        Expr::Chain { first, rest } => {
            out.push_str("(chain ")?;
            put_expr(alloc, out, first.get())?;
            for operand in rest.slice() {
                put_operand(alloc, out, operand)?;
            }
            out.push_str(")")
        }
        Expr::Prefix {
            first,
            more,
            operand,
        } => {
            put_signs(out, *first, more.get().slice())?;
            put_expr(alloc, out, operand.get())?;
            out.push_str(")")
        }
        Expr::Cast { ty, operand, .. } => {
            out.push_str("(cast ")?;
            put_type(alloc, out, ty.get())?;
            out.push_str(" ")?;
            put_expr(alloc, out, operand.get())?;
            out.push_str(")")
        }
        Expr::Postfix { of, op } => {
            out.push_str("(postfix ")?;
            out.push_str(postfix_text(*op))?;
            out.push_str(" ")?;
            put_expr(alloc, out, of.get())?;
            out.push_str(")")
        }
        Expr::Field { of, name } => {
            out.push_str("(field ")?;
            put_expr(alloc, out, of.get())?;
            out.push_str(" ")?;
            put_ident(out, name)?;
            out.push_str(")")
        }
        Expr::Call {
            of,
            type_args,
            name,
            actuals,
        } => {
            out.push_str("(call ")?;
            put_expr(alloc, out, of.get())?;
            out.push_str(" ")?;
            put_applied(alloc, out, name.get(), type_args.get().slice())?;
            put_exprs(alloc, out, actuals.get().slice())?;
            out.push_str(")")
        }
        Expr::Index { of, index } => {
            out.push_str("(index ")?;
            put_expr(alloc, out, of.get())?;
            out.push_str(" ")?;
            put_expr(alloc, out, index.get())?;
            out.push_str(")")
        }
        Expr::InnerNew { of, creation } => {
            out.push_str("(inner ")?;
            put_expr(alloc, out, of.get())?;
            out.push_str(" ")?;
            put_creation(alloc, out, creation.get())?;
            out.push_str(")")
        }
        Expr::Literal { value, .. } => put_literal(alloc, out, value),
        Expr::This { .. } => out.push_str("this"),
        Expr::SuperField { name, .. } => {
            out.push_str("(super-field ")?;
            put_ident(out, name)?;
            out.push_str(")")
        }
        Expr::SuperCall {
            type_args,
            name,
            actuals,
            ..
        } => {
            out.push_str("(super-call ")?;
            put_applied(alloc, out, name.get(), type_args.get().slice())?;
            put_exprs(alloc, out, actuals.get().slice())?;
            out.push_str(")")
        }
        Expr::Paren { inner, .. } => {
            out.push_str("(paren ")?;
            put_expr(alloc, out, inner.get())?;
            out.push_str(")")
        }
        Expr::Name(name) => put_ident(out, name),
        Expr::Invoke { name, actuals } => {
            out.push_str("(invoke ")?;
            put_ident(out, name)?;
            put_exprs(alloc, out, actuals.get().slice())?;
            out.push_str(")")
        }
        Expr::New { creation, .. } => {
            out.push_str("(new ")?;
            put_creation(alloc, out, creation.get())?;
            out.push_str(")")
        }
        Expr::ClassLiteral { ty } => {
            out.push_str("(class-literal ")?;
            put_type(alloc, out, ty.get())?;
            out.push_str(")")
        }
        Expr::VoidLiteral { .. } => out.push_str("(void-literal)"),
        Expr::OuterThis { first, more } => {
            out.push_str("(outer-this ")?;
            put_ident(out, first)?;
            for name in more.get().slice() {
                out.push_str(" ")?;
                put_ident(out, name)?;
            }
            out.push_str(")")
        }
    }
}

/// A space and each expression.
#[cycle(putting_expressions)]
fn put_exprs(alloc: Global, out: &mut String, exprs: &[Expr]) -> Result<(), AllocError> {
    for expr in exprs {
        out.push_str(" ")?;
        put_expr(alloc, out, expr)?;
    }
    Ok(())
}

#[cycle(putting_expressions)]
fn put_operand(alloc: Global, out: &mut String, operand: &Operand) -> Result<(), AllocError> {
    match operand {
        Operand::Binary { op, right } => {
            out.push_str(" (")?;
            out.push_str(binary_text(*op))?;
            out.push_str(" ")?;
            put_expr(alloc, out, right)?;
        }
        Operand::InstanceOf { ty } => {
            out.push_str(" (instanceof ")?;
            put_type(alloc, out, ty.get())?;
        }
    }
    out.push_str(")")
}

/// The beginning of a chain of prefix operators.
fn put_signs(out: &mut String, first: PrefixOp, more: &[PrefixOp]) -> Result<(), AllocError> {
    out.push_str("(prefix ")?;
    out.push_str(prefix_text(first.sign))?;
    out.push_str(" ")?;
    for op in more {
        out.push_str(prefix_text(op.sign))?;
        out.push_str(" ")?;
    }
    Ok(())
}

/// How many pairs of brackets stand there, in words.
fn put_dims(alloc: Global, out: &mut String, dims: u32) -> Result<(), AllocError> {
    out.push_str(" (dims ")?;
    put_number(alloc, out, u64::from(dims))?;
    out.push_str(")")
}

#[cycle(putting_expressions)]
fn put_creation(alloc: Global, out: &mut String, creation: &Creation) -> Result<(), AllocError> {
    match creation {
        Creation::Object {
            class,
            diamond,
            actuals,
            body,
        } => {
            out.push_str(if *diamond {
                "(object-diamond "
            } else {
                "(object "
            })?;
            put_class(alloc, out, class)?;
            put_exprs(alloc, out, actuals.slice())?;
            for skip in body.slice() {
                out.push_str(" ")?;
                put_skip(alloc, out, skip)?;
            }
        }
        Creation::Sized {
            element,
            first,
            more,
            dims,
        } => {
            out.push_str("(sized ")?;
            put_base(alloc, out, element)?;
            out.push_str(" ")?;
            put_expr(alloc, out, first.get())?;
            put_exprs(alloc, out, more.slice())?;
            put_dims(alloc, out, *dims)?;
        }
        Creation::Initialised {
            element,
            dims,
            init,
        } => {
            out.push_str("(initialised ")?;
            put_base(alloc, out, element)?;
            put_dims(alloc, out, *dims)?;
            out.push_str(" ")?;
            put_array(alloc, out, init)?;
        }
    }
    out.push_str(")")
}

#[cycle(putting_expressions)]
fn put_array(alloc: Global, out: &mut String, array: &ArrayInit) -> Result<(), AllocError> {
    out.push_str("(init")?;
    for init in array.inits.slice() {
        out.push_str(" ")?;
        put_init(alloc, out, init)?;
    }
    out.push_str(if array.trailing { " ,)" } else { ")" })
}

#[cycle(putting_expressions)]
fn put_init(alloc: Global, out: &mut String, init: &Init) -> Result<(), AllocError> {
    match init {
        Init::Value(expr) => put_expr(alloc, out, expr),
        Init::Nested(array) => put_array(alloc, out, array),
    }
}

#[cycle(putting_skips)]
fn put_skip(alloc: Global, out: &mut String, skip: &Skip) -> Result<(), AllocError> {
    out.push_str("(body")?;
    for part in skip.parts.slice() {
        out.push_str(" ")?;
        put_skip_part(alloc, out, part)?;
    }
    out.push_str(")")
}

#[cycle(putting_skips)]
fn put_skip_part(alloc: Global, out: &mut String, part: &SkipPart) -> Result<(), AllocError> {
    match part {
        SkipPart::Inner(skip) => put_skip(alloc, out, skip),
        SkipPart::Token(kind) => put_token(alloc, out, kind),
    }
}
