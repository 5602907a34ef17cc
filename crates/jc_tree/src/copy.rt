//! Copies of names and types, which equal what they copy.
ghost use Rattle.std.specs.Prelude.{◌≡◌, IfOk};

use crate::{BaseTree, ClassTree, Ident, TypeArg, TypePart, TypeTree};
use jc_rules::{Items, Text, WantOfMemory};
use std::alloc::Global;

/// A copy of a text.
pub fn copy_text(alloc: Global, text: &Text) -> Result<Text, WantOfMemory>
    ensures { IfOk result (λ copy. copy ≡ text.now) }
{
    Text::copied(alloc, text.str())
}

/// A copy of an identifier.
pub fn copy_ident(alloc: Global, ident: &Ident) -> Result<Ident, WantOfMemory>
    ensures { IfOk result (λ copy. copy ≡ ident.now) }
{
    Ok(Ident {
        at: ident.at,
        text: copy_text(alloc, &ident.text)?,
    })
}

/// A copy of a type.
#[cycle(type_copies)]
pub fn copy_type(alloc: Global, ty: &TypeTree) -> Result<TypeTree, WantOfMemory>
    ensures { IfOk result (λ copy. copy ≡ ty.now) }
{
    Ok(TypeTree {
        base: copy_base(alloc, &ty.base)?,
        dims: ty.dims,
    })
}

/// A copy of a type without its brackets.
#[cycle(type_copies)]
pub fn copy_base(alloc: Global, base: &BaseTree) -> Result<BaseTree, WantOfMemory>
    ensures { IfOk result (λ copy. copy ≡ base.now) }
{
    match base {
        BaseTree::Primitive { at, word } => Ok(BaseTree::Primitive {
            at: *at,
            word: *word,
        }),
        BaseTree::Class(class) => Ok(BaseTree::Class(copy_class(alloc, class)?)),
    }
}

/// A copy of a class type.
#[cycle(type_copies)]
pub fn copy_class(alloc: Global, class: &ClassTree) -> Result<ClassTree, WantOfMemory>
    ensures { IfOk result (λ copy. copy ≡ class.now) }
{
    let first = copy_part(alloc, &class.first)?;
    let more = copy_parts(alloc, class.more.slice())?;
    Ok(ClassTree { first, more })
}

#[cycle(type_copies)]
fn copy_part(alloc: Global, part: &TypePart) -> Result<TypePart, WantOfMemory>
    ensures { IfOk result (λ copy. copy ≡ part.now) }
{
    let name = copy_ident(alloc, &part.name)?;
    let args = copy_args(alloc, part.args.slice())?;
    Ok(TypePart { name, args })
}

#[cycle(type_copies)]
fn copy_parts(alloc: Global, parts: &[TypePart]) -> Result<Items<TypePart>, WantOfMemory>
    ensures { IfOk result (λ copy. copy ≡ parts.now) }
{
    let mut copies = Items::new(alloc);
    for i in 0..parts.len() {
        let copy = copy_part(alloc, &parts[i])?;
        copies.push(copy)?;
    }
    Ok(copies)
}

/// A copy of type arguments.
#[cycle(type_copies)]
pub fn copy_args(alloc: Global, args: &[TypeArg]) -> Result<Items<TypeArg>, WantOfMemory>
    ensures { IfOk result (λ copy. copy ≡ args.now) }
{
    let mut copies = Items::new(alloc);
    for i in 0..args.len() {
        let copy = copy_arg(alloc, &args[i])?;
        copies.push(copy)?;
    }
    Ok(copies)
}

#[cycle(type_copies)]
fn copy_arg(alloc: Global, arg: &TypeArg) -> Result<TypeArg, WantOfMemory>
    ensures { IfOk result (λ copy. copy ≡ arg.now) }
{
    match arg {
        TypeArg::Exact(ty) => Ok(TypeArg::Exact(copy_type(alloc, ty)?)),
        TypeArg::Any { at } => Ok(TypeArg::Any { at: *at }),
        TypeArg::Extends { at, bound } => Ok(TypeArg::Extends {
            at: *at,
            bound: copy_type(alloc, bound)?,
        }),
        TypeArg::Super { at, bound } => Ok(TypeArg::Super {
            at: *at,
            bound: copy_type(alloc, bound)?,
        }),
    }
}
