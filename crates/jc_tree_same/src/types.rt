//! Types.
ghost use Rattle.std.specs.Prelude.{◌≡◌, ◌↔◌, IsTrue};

use crate::plain::same_ident;
use jc_tree::{BaseTree, ClassTree, TypeArg, TypePart, TypeTree};

/// Whether two types are the same, at the same places.
#[cycle(same_types)]
pub fn same_type(a: &TypeTree, b: &TypeTree) -> bool
    ensures { IsTrue result ↔ (a.now ≡ b.now) }
{
    a.dims == b.dims && same_base(&a.base, &b.base)
}

#[cycle(same_types)]
pub fn same_base(a: &BaseTree, b: &BaseTree) -> bool
    ensures { IsTrue result ↔ (a.now ≡ b.now) }
{
    match (a, b) {
        (
            BaseTree::Primitive { at, word },
            BaseTree::Primitive {
                at: other_at,
                word: other_word,
            },
        ) => at == other_at && word == other_word,
        (BaseTree::Class(it), BaseTree::Class(other)) => same_class(it, other),
        _ => false,
    }
}

/// Whether two class types are the same, at the same places.
#[cycle(same_types)]
#[tactic(auto, using(crate::proofs::Made::class_made))]
pub fn same_class(a: &ClassTree, b: &ClassTree) -> bool
    ensures { IsTrue result ↔ (a.now ≡ b.now) }
{
    same_part(&a.first, &b.first) && same_parts(a.more.slice(), b.more.slice())
}

#[cycle(same_types)]
fn same_part(a: &TypePart, b: &TypePart) -> bool
    ensures { IsTrue result ↔ (a.now ≡ b.now) }
{
    same_ident(&a.name, &b.name) && same_args(a.args.slice(), b.args.slice())
}

#[cycle(same_types)]
fn same_parts(xs: &[TypePart], ys: &[TypePart]) -> bool
    ensures { IsTrue result ↔ (xs.now ≡ ys.now) }
{
    if xs.len() != ys.len() {
        return false;
    }
    for i in 0..xs.len() {
        if !same_part(&xs[i], &ys[i]) {
            return false;
        }
    }
    true
}

#[cycle(same_types)]
fn same_arg(a: &TypeArg, b: &TypeArg) -> bool
    ensures { IsTrue result ↔ (a.now ≡ b.now) }
{
    match (a, b) {
        (TypeArg::Exact(it), TypeArg::Exact(other)) => same_type(it, other),
        (TypeArg::Any { at }, TypeArg::Any { at: other }) => at == other,
        (
            TypeArg::Extends { at, bound },
            TypeArg::Extends {
                at: other_at,
                bound: other_bound,
            },
        ) => at == other_at && same_type(bound, other_bound),
        (
            TypeArg::Super { at, bound },
            TypeArg::Super {
                at: other_at,
                bound: other_bound,
            },
        ) => at == other_at && same_type(bound, other_bound),
        _ => false,
    }
}

#[cycle(same_types)]
pub fn same_args(xs: &[TypeArg], ys: &[TypeArg]) -> bool
    ensures { IsTrue result ↔ (xs.now ≡ ys.now) }
{
    if xs.len() != ys.len() {
        return false;
    }
    for i in 0..xs.len() {
        if !same_arg(&xs[i], &ys[i]) {
            return false;
        }
    }
    true
}

pub fn same_classes(xs: &[ClassTree], ys: &[ClassTree]) -> bool
    ensures { IsTrue result ↔ (xs.now ≡ ys.now) }
{
    if xs.len() != ys.len() {
        return false;
    }
    for i in 0..xs.len() {
        if !same_class(&xs[i], &ys[i]) {
            return false;
        }
    }
    true
}

pub fn same_some_class(a: &Option<ClassTree>, b: &Option<ClassTree>) -> bool
    ensures { IsTrue result ↔ (a.now ≡ b.now) }
{
    match (a, b) {
        (Some(it), Some(other)) => same_class(it, other),
        (None, None) => true,
        _ => false,
    }
}
