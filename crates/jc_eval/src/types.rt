//! Types in words: the parts of a type stand between commas, each behind what it is made of. `kN/M` is the class N over the last M
//! arguments, `rN` a raw class, `vN` a variable, `xN` a captured one, `[` an array, `?`, `+` and `-` are wildcards.
use crate::words::{number_of, primitive, word, words};
use jc_rules::{Items, WantOfMemory};
use jc_types::{Arg, CaptureId, ClassId, Env, Erased, Table, Ty, VarId, array_over, erasure};
use std::alloc::Global;

fn popped(stack: &mut Vec<Arg>) -> Ty {
    match stack.pop() {
        Some(Arg::Exact(ty)) => ty,
        _ => Ty::NullTy,
    }
}

fn class_over(alloc: Global, part: &str, stack: &mut Vec<Arg>) -> Result<Ty, WantOfMemory> {
    let numbers = words(alloc, part, '/')?;
    let mut args = Vec::new(alloc);
    for _ in 0..number_of(word(numbers.as_slice(), 1)) {
        match stack.pop() {
            Some(arg) => args.push(arg)?,
            None => break,
        }
    }
    args.reverse();
    Ok(Ty::Class {
        id: ClassId(number_of(word(numbers.as_slice(), 0))),
        args: Items::of(args),
    })
}

// The argument that a part makes of those before it.
fn arg(alloc: Global, part: &str, stack: &mut Vec<Arg>) -> Result<Arg, WantOfMemory> {
    if let Some(of) = primitive(part) {
        return Ok(Arg::Exact(Ty::Prim(of)));
    }
    let Some(first) = part.as_bytes().first() else {
        return Ok(Arg::Exact(Ty::NullTy));
    };
    Ok(match *first {
        b'k' => Arg::Exact(class_over(alloc, part, stack)?),
        b'r' => Arg::Exact(Ty::Raw {
            id: ClassId(number_of(part)),
        }),
        b'v' => Arg::Exact(Ty::Variable(VarId(number_of(part)))),
        b'x' => Arg::Exact(Ty::Captured(CaptureId(number_of(part)))),
        b'[' => Arg::Exact(array_over(alloc, popped(stack), 0)?),
        b'?' => Arg::Any,
        b'+' => Arg::Extends(popped(stack)),
        b'-' => Arg::Super(popped(stack)),
        _ => Arg::Exact(Ty::NullTy),
    })
}

/// A type.
pub fn type_of(alloc: Global, text: &str) -> Result<Ty, WantOfMemory> {
    let mut stack: Vec<Arg> = Vec::new(alloc);
    for part in text.split(',') {
        let made = arg(alloc, part, &mut stack)?;
        stack.push(made)?;
    }
    Ok(popped(&mut stack))
}

/// Types between semicolons; `.` is none.
pub fn types_of(alloc: Global, text: &str) -> Result<Items<Ty>, WantOfMemory> {
    let mut out = Items::new(alloc);
    if text == "." {
        return Ok(out);
    }
    for part in text.split(';') {
        out.push(type_of(alloc, part)?)?;
    }
    Ok(out)
}

/// The erasure of a type.
pub fn erased_of(alloc: Global, table: &Table, text: &str) -> Result<Erased, WantOfMemory> {
    let none = Env {
        bounds: Items::new(alloc),
    };
    let ty = type_of(alloc, text)?;
    Ok(erasure(table, &none, &ty))
}
