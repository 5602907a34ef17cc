//! Types in words: `int`, `A`, `(array 2 A)`, `(path A B)` of `A.B`, `(of A ? (extends B) (super C))` of `A<?, ? extends B, ? super C>`.
use crate::words::{primitive_text, put_ident, put_number};
use jc_tree::{BaseTree, ClassTree, Ident, TypeArg, TypePart, TypeTree};
use std::alloc::{AllocError, Global};

#[cycle(putting_types)]
pub fn put_type(alloc: Global, out: &mut String, ty: &TypeTree) -> Result<(), AllocError> {
    if ty.dims == 0 {
        return put_base(alloc, out, &ty.base);
    }
    out.push_str("(array ")?;
    put_number(alloc, out, u64::from(ty.dims))?;
    out.push_str(" ")?;
    put_base(alloc, out, &ty.base)?;
    out.push_str(")")
}

#[cycle(putting_types)]
pub fn put_base(alloc: Global, out: &mut String, base: &BaseTree) -> Result<(), AllocError> {
    match base {
        BaseTree::Primitive { word, .. } => out.push_str(primitive_text(*word)),
        BaseTree::Class(class) => put_class(alloc, out, class),
    }
}

#[cycle(putting_types)]
pub fn put_class(alloc: Global, out: &mut String, class: &ClassTree) -> Result<(), AllocError> {
    if class.more.is_empty() {
        return put_part(alloc, out, &class.first);
    }
    out.push_str("(path ")?;
    put_part(alloc, out, &class.first)?;
    for part in class.more.slice() {
        out.push_str(" ")?;
        put_part(alloc, out, part)?;
    }
    out.push_str(")")
}

#[cycle(putting_types)]
fn put_part(alloc: Global, out: &mut String, part: &TypePart) -> Result<(), AllocError> {
    put_applied(alloc, out, &part.name, part.args.slice())
}

/// A name with its type arguments, if it has any.
#[cycle(putting_types)]
pub fn put_applied(
    alloc: Global,
    out: &mut String,
    name: &Ident,
    args: &[TypeArg],
) -> Result<(), AllocError> {
    if args.is_empty() {
        return put_ident(out, name);
    }
    out.push_str("(of ")?;
    put_ident(out, name)?;
    for arg in args {
        out.push_str(" ")?;
        put_arg(alloc, out, arg)?;
    }
    out.push_str(")")
}

#[cycle(putting_types)]
fn put_arg(alloc: Global, out: &mut String, arg: &TypeArg) -> Result<(), AllocError> {
    match arg {
        TypeArg::Exact(ty) => put_type(alloc, out, ty),
        TypeArg::Any { .. } => out.push_str("?"),
        TypeArg::Extends { bound, .. } => {
            out.push_str("(extends ")?;
            put_type(alloc, out, bound)?;
            out.push_str(")")
        }
        TypeArg::Super { bound, .. } => {
            out.push_str("(super ")?;
            put_type(alloc, out, bound)?;
            out.push_str(")")
        }
    }
}
