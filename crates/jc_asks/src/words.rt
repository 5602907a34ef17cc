//! Types in words, as they are read.
use jc_types::{
    Arg, Base, Bounds, ClassId, Erased, Primitive, Table, Ty, VarId, class_at, variable_at,
};
use std::alloc::{AllocError, Global};

pub fn yes_or_no(holds: bool) -> &'static str {
    if holds { "Yes" } else { "No" }
}

fn put_number(alloc: Global, out: &mut String, number: u64) -> Result<(), AllocError> {
    let digits = format!(in alloc; "{number}")?;
    out.push_str(digits.as_str())
}

fn put_class(out: &mut String, table: &Table, id: ClassId) -> Result<(), AllocError> {
    match class_at(table, id) {
        Some(class) => out.push_str(class.name.str()),
        None => out.push_str("NoClass"),
    }
}

pub fn put_variable(out: &mut String, table: &Table, id: VarId) -> Result<(), AllocError> {
    match variable_at(table, id) {
        Some(variable) => out.push_str(variable.name.str()),
        None => out.push_str("NoVariable"),
    }
}

pub fn primitive_word(word: Primitive) -> &'static str {
    match word {
        Primitive::Boolean => "boolean",
        Primitive::Byte => "byte",
        Primitive::Short => "short",
        Primitive::Char => "char",
        Primitive::Int => "int",
        Primitive::Long => "long",
    }
}

/// The brackets of an array with that many dimensions and one more.
fn put_dimensions(out: &mut String, further: u64) -> Result<(), AllocError> {
    for _ in 0..further {
        out.push_str("[]")?;
    }
    out.push_str("[]")
}

#[cycle(words)]
pub fn put_type(alloc: Global, out: &mut String, table: &Table, ty: &Ty) -> Result<(), AllocError> {
    match ty {
        Ty::Prim(word) => out.push_str(primitive_word(*word)),
        Ty::Class { id, args } => {
            put_class(out, table, *id)?;
            put_args(alloc, out, table, args.slice())
        }
        Ty::Raw { id } => put_class(out, table, *id),
        Ty::Array { of, further } => {
            put_type(alloc, out, table, of.get())?;
            put_dimensions(out, *further)
        }
        Ty::Variable(id) => put_variable(out, table, *id),
        Ty::Captured(id) => {
            out.push_str("#")?;
            put_number(alloc, out, id.0)
        }
        Ty::Meet { parts } => put_parts(alloc, out, table, parts.slice()),
        Ty::NullTy => out.push_str("null"),
    }
}

/// The result of a method, `void` where it has none.
pub fn put_result(
    alloc: Global,
    out: &mut String,
    table: &Table,
    returned: Option<&Ty>,
) -> Result<(), AllocError> {
    match returned {
        Some(ty) => put_type(alloc, out, table, ty),
        None => out.push_str("void"),
    }
}

#[cycle(words)]
fn put_args(
    alloc: Global,
    out: &mut String,
    table: &Table,
    args: &[Arg],
) -> Result<(), AllocError> {
    for i in 0..args.len() {
        out.push_str(if i == 0 { "<" } else { "," })?;
        put_arg(alloc, out, table, &args[i])?;
    }
    out.push_str(if args.is_empty() { "" } else { ">" })
}

#[cycle(words)]
fn put_arg(alloc: Global, out: &mut String, table: &Table, arg: &Arg) -> Result<(), AllocError> {
    match arg {
        Arg::Exact(ty) => put_type(alloc, out, table, ty),
        Arg::Any => out.push_str("?"),
        Arg::Extends(ty) => {
            out.push_str("+")?;
            put_type(alloc, out, table, ty)
        }
        Arg::Super(ty) => {
            out.push_str("-")?;
            put_type(alloc, out, table, ty)
        }
    }
}

#[cycle(words)]
fn put_parts(
    alloc: Global,
    out: &mut String,
    table: &Table,
    parts: &[Ty],
) -> Result<(), AllocError> {
    for i in 0..parts.len() {
        out.push_str(if i == 0 { "{" } else { "&" })?;
        put_type(alloc, out, table, &parts[i])?;
    }
    out.push_str("}")
}

/// The bounds of captured variables from one number on, each as ` #0:UPPER` and `:LOWER` if it has one.
pub fn put_bounds(
    alloc: Global,
    out: &mut String,
    table: &Table,
    first: u64,
    bounds: &[Bounds],
) -> Result<(), AllocError> {
    let mut number = first;
    for bound in bounds {
        out.push_str(" #")?;
        put_number(alloc, out, number)?;
        for upper in bound.uppers.slice() {
            out.push_str(":")?;
            put_type(alloc, out, table, upper)?;
        }
        if let Some(lower) = &bound.lower {
            out.push_str(" above ")?;
            put_type(alloc, out, table, lower)?;
        }
        number = number.wrapping_add(1);
    }
    Ok(())
}

/// An erased type, with its number of dimensions if it is an array.
pub fn put_erased(
    alloc: Global,
    out: &mut String,
    table: &Table,
    erased: Erased,
) -> Result<(), AllocError> {
    match erased.base {
        Base::Prim(word) => out.push_str(primitive_word(word))?,
        Base::Class(id) => put_class(out, table, id)?,
        Base::NullTy => out.push_str("null")?,
    }
    if erased.dims > 0 {
        out.push_str(" dimensions ")?;
        put_number(alloc, out, u64::from(erased.dims))?;
    }
    Ok(())
}
