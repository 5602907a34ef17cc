//! Primitive types and their classes (JLS 5.1.7, 5.1.8), and constants that narrow (JLS 5.2).
ghost use Rattle.std.specs.Prelude.{◌≡◌, ◌∷◌, [], Some, IfOk};
ghost use Rattle.std.specs.Option.{option_copied};
ghost use Rattle.jc_judge.specs.Kinds.{primitive_below};
ghost use Rattle.jc_convert.specs.Rows.{checked};
ghost use Rattle.jc_convert.specs.Converting.{box, unboxes, first_unboxed, unboxed, unboxing, up_unless_same, is_small, is_value, constant_fits, narrows, narrows_to_box};

use crate::answer::Converts;
use crate::steps::{one_step, three_steps, two_steps};
use jc_boxes::box_class;
use jc_lub::up_view;
use jc_rules::{Items, WantOfMemory};
use jc_types::{Bounds, Constant, Primitive, Step, Table, Ty, copy_type, same_type};
use std::alloc::Global;

/// The class of a primitive type.
pub fn box_type(alloc: Global, table: &Table, p: Primitive) -> Ty
    ensures { result ≡ box table.now p }
{
    Ty::Class {
        id: box_class(table, p),
        args: Items::new(alloc),
    }
}

/// Whether the first primitive type is below the second, or is it (JLS 4.10.1).
pub fn primitive_below(p: Primitive, q: Primitive) -> bool
    ensures { result ≡ primitive_below p q }
{
    match p {
        Primitive::Boolean => q == Primitive::Boolean,
        Primitive::Byte => q != Primitive::Boolean && q != Primitive::Char,
        Primitive::Short => q == Primitive::Short || q == Primitive::Int || q == Primitive::Long,
        Primitive::Char => q == Primitive::Char || q == Primitive::Int || q == Primitive::Long,
        Primitive::Int => q == Primitive::Int || q == Primitive::Long,
        Primitive::Long => q == Primitive::Long,
    }
}

fn unboxes(
    alloc: Global,
    table: &Table,
    env: &[Bounds],
    t: &Ty,
    p: Primitive,
) -> Result<bool, WantOfMemory>
    ensures { IfOk result (λ r. r ≡ unboxes table.now env.now t.now p) }
{
    let class = box_class(table, p);
    if class.0 == 0 {
        return Ok(false);
    }
    let view = up_view(alloc, table, env, class, t)?;
    Ok(view.is_some())
}

fn first_unboxed(
    alloc: Global,
    table: &Table,
    env: &[Bounds],
    t: &Ty,
    primitives: &[Primitive],
) -> Result<Option<Primitive>, WantOfMemory>
    ensures { IfOk result (λ r. r ≡ first_unboxed table.now env.now t.now primitives.now) }
{
    let mut rest = primitives;
    while let [p, more @ ..] = rest {
        if unboxes(alloc, table, env, t, *p)? {
            return Ok(Some(*p));
        }
        rest = more;
    }
    Ok(None)
}

/// The primitive type that a type unboxes to (JLS 5.1.8): the one whose class it is, or is below, as a type variable may be.
#[tactic(auto, unfolding(crate::specs::Converting::unboxed))]
pub fn unboxed(
    alloc: Global,
    table: &Table,
    env: &[Bounds],
    t: &Ty,
) -> Result<Option<Primitive>, WantOfMemory>
    ensures { IfOk result (λ r. r ≡ unboxed table.now env.now t.now) }
{
    first_unboxed(
        alloc,
        table,
        env,
        t,
        &[
            Primitive::Boolean,
            Primitive::Byte,
            Primitive::Short,
            Primitive::Char,
            Primitive::Int,
            Primitive::Long,
        ],
    )
}

/// Unboxing to `p`, and widening to `q`.
pub fn unboxing(
    alloc: Global,
    table: &Table,
    s: &Ty,
    p: Primitive,
    q: Primitive,
) -> Result<Converts, WantOfMemory>
    ensures { IfOk result (λ r. r ≡ Converts.Yes (checked (unboxing table.now s.now p q))) }
{
    let class = box_type(alloc, table, p);
    if same_type(s, &class) {
        if p == q {
            return one_step(alloc, Step::Unbox);
        }
        return two_steps(alloc, Step::Unbox, Step::Widen(q));
    }
    if p == q {
        return two_steps(alloc, Step::Up(class), Step::Unbox);
    }
    three_steps(alloc, Step::Up(class), Step::Unbox, Step::Widen(q))
}

/// Boxing, and widening to a type above the box.
pub fn boxing(alloc: Global, class: &Ty, t: &Ty) -> Result<Converts, WantOfMemory>
    ensures { IfOk result (λ r. r ≡ Converts.Yes (checked (Step.BoxUp ∷ up_unless_same class.now t.now))) }
{
    if same_type(class, t) {
        return one_step(alloc, Step::BoxUp);
    }
    let t = copy_type(alloc, t)?;
    two_steps(alloc, Step::BoxUp, Step::Up(t))
}

fn is_small(p: Primitive) -> bool
    ensures { result ≡ is_small p }
{
    match p {
        Primitive::Boolean => false,
        Primitive::Byte => true,
        Primitive::Short => true,
        Primitive::Char => true,
        Primitive::Int => true,
        Primitive::Long => false,
    }
}

fn is_value(q: Primitive, n: i64) -> bool
    ensures { result ≡ is_value q n }
{
    match q {
        Primitive::Boolean => false,
        Primitive::Byte => -128 <= n && n <= 127,
        Primitive::Short => -32768 <= n && n <= 32767,
        Primitive::Char => 0 <= n && n <= 65535,
        Primitive::Int => false,
        Primitive::Long => false,
    }
}

fn constant_fits(constant: Option<&Constant>, q: Primitive) -> bool
    ensures { result ≡ constant_fits (option_copied constant.entry) q }
{
    match constant {
        None => false,
        Some(constant) => value_fits(constant, q),
    }
}

fn value_fits(constant: &Constant, q: Primitive) -> bool
    ensures { result ≡ constant_fits (Some constant.now) q }
{
    match constant {
        Constant::Whole { value, .. } => is_value(q, *value),
        Constant::Text(_) => false,
    }
}

/// Whether a constant of type `p` narrows to `q` (JLS 5.2).
pub fn narrows(constant: Option<&Constant>, p: Primitive, q: Primitive) -> bool
    ensures { result ≡ narrows (option_copied constant.entry) p q }
{
    is_small(p) && constant_fits(constant, q)
}

/// Whether a type is the class of `q`, and a constant of type `p` narrows to `q`.
pub fn narrows_to_box(
    alloc: Global,
    table: &Table,
    constant: Option<&Constant>,
    p: Primitive,
    t: &Ty,
    q: Primitive,
) -> bool
    ensures { result ≡ narrows_to_box table.now (option_copied constant.entry) p t.now q }
{
    let class = box_type(alloc, table, q);
    same_type(t, &class) && narrows(constant, p, q)
}
