//! What a question of subtyping leads to (JLS 4.10).
ghost use Rattle.std.specs.Prelude.{◌≡◌, ◌++◌, map, Option, IfOk};
ghost use Rattle.std.specs.Option.{option_copied};
ghost use Rattle.jc_types.specs.declared.form.Ty.{out-Ty};
ghost use Rattle.jc_types.specs.Accessors.{lower_bound_of, uppers_of};
ghost use Rattle.jc_judge.specs.declared.question.Part.TheVariants.{Ask};
ghost use Rattle.jc_judge.specs.Kinds.{class_of};
ghost use Rattle.jc_sub.specs.Reaching.{WayIs};
ghost use Rattle.jc_judge.specs.Asking.{question, to_meet, opened, lower_of, sources, shapes, to_elements, classes, classes_from, by_view, by_arguments};

use crate::capturing::capture_one;
use crate::containing::{ask, push_contained};
use crate::kinds::{class_of, is_null, is_object, is_primitive, primitives_below};
use crate::reaching::{Way, way_to};
use crate::views::view_by;
use jc_judge::{Part, Question};
use jc_rules::{Items, WantOfMemory};
use jc_types::{
    Arg, Bounds, CaptureId, ClassId, Table, Ty, arguments, captured_lower, captured_uppers,
    declared_bounds, element,
};
use std::alloc::Global;

/// What the question whether one type is below another, which isn't the same, leads to. The captured variables are those of
/// `env` and, after them, those of `fresh`.
pub fn question(
    alloc: Global,
    table: &Table,
    env: &[Bounds],
    fresh: &[Bounds],
    s: &Ty,
    t: &Ty,
) -> Result<Question, WantOfMemory>
    ensures { IfOk result (λ q. q ≡ question table.now (env.now ++ fresh.now) s.now t.now) }
{
    let from_primitive = is_primitive(s);
    let to_primitive = is_primitive(t);
    let to_object = is_object(t);
    let from_null = is_null(s);
    if (to_object && !from_primitive) || (from_null && !to_primitive) {
        return Ok(Question::Holds);
    }
    if from_primitive || to_primitive {
        if primitives_below(s, t) {
            return Ok(Question::Holds);
        }
        return Ok(Question::Fails);
    }
    to_meet(alloc, table, env, fresh, s, t)
}

// The target is an intersection, or else the source is opened.
#[tactic(auto, using(jc_types::proofs::Opened::opened), unfolding(jc_judge::specs::Asking::to_meet))]
fn to_meet(
    alloc: Global,
    table: &Table,
    env: &[Bounds],
    fresh: &[Bounds],
    s: &Ty,
    t: &Ty,
) -> Result<Question, WantOfMemory>
    ensures { IfOk result (λ q. q ≡ to_meet table.now (env.now ++ fresh.now) s.now t.now) }
{
    match t {
        Ty::Meet { parts } => {
            let parts = asked_above(alloc, s, parts.slice())?;
            Ok(Question::Every {
                fresh: Items::new(alloc),
                parts,
            })
        }
        _ => opened(alloc, table, env, fresh, s, t),
    }
}

// The source is an intersection or a variable, or the target has a lower bound.
#[tactic(auto, using(jc_types::proofs::Opened::opened), unfolding(jc_judge::specs::Asking::opened))]
fn opened(
    alloc: Global,
    table: &Table,
    env: &[Bounds],
    fresh: &[Bounds],
    s: &Ty,
    t: &Ty,
) -> Result<Question, WantOfMemory>
    ensures { IfOk result (λ q. q ≡ opened table.now (env.now ++ fresh.now) s.now t.now) }
{
    let low = lower_of(env, fresh, t);
    match sources(table, env, fresh, s) {
        Some(types) => {
            let mut parts = asked_below(alloc, types, t)?;
            if let Some(l) = low {
                let part = ask(alloc, s, l)?;
                parts.push(part)?;
            }
            Ok(Question::SomeOf { parts })
        }
        None => match low {
            Some(l) => {
                let mut parts = Items::new(alloc);
                let part = ask(alloc, s, l)?;
                parts.push(part)?;
                Ok(Question::SomeOf { parts })
            }
            None => shapes(alloc, table, env, fresh, s, t),
        },
    }
}

#[tactic(auto, using(jc_types::proofs::Opened::opened), unfolding(jc_judge::specs::Asking::lower_of))]
fn lower_of<'a>(env: &'a [Bounds], fresh: &'a [Bounds], t: &Ty) -> Option<&'a Ty>
    ensures { option_copied result ≡ lower_of (env.now ++ fresh.now) t.now }
{
    match t {
        Ty::Captured(c) => lower_among(env, fresh, *c),
        _ => None,
    }
}

// The lower bound of a captured variable of either list.
#[tactic(auto, using(crate::proofs::Joined::get_front, crate::proofs::Joined::get_back))]
fn lower_among<'a>(env: &'a [Bounds], fresh: &'a [Bounds], c: CaptureId) -> Option<&'a Ty>
    ensures { option_copied result ≡ lower_bound_of (env.now ++ fresh.now) c }
{
    let at = c.0 as usize;
    if at < env.len() {
        captured_lower(env, c)
    } else {
        captured_lower(fresh, CaptureId((at - env.len()) as u64))
    }
}

#[tactic(auto, using(jc_types::proofs::Opened::opened), unfolding(jc_judge::specs::Asking::sources))]
fn sources<'a>(
    table: &'a Table,
    env: &'a [Bounds],
    fresh: &'a [Bounds],
    s: &'a Ty,
) -> Option<&'a [Ty]>
    ensures { option_copied result ≡ sources table.now (env.now ++ fresh.now) s.now }
{
    match s {
        Ty::Meet { parts } => Some(parts.slice()),
        Ty::Variable(v) => Some(declared_bounds(table, *v)),
        Ty::Captured(c) => Some(uppers_among(env, fresh, *c)),
        _ => None,
    }
}

// The upper bounds of a captured variable of either list.
#[tactic(auto, using(crate::proofs::Joined::get_front, crate::proofs::Joined::get_back))]
fn uppers_among<'a>(env: &'a [Bounds], fresh: &'a [Bounds], c: CaptureId) -> &'a [Ty]
    ensures { result.now ≡ uppers_of (env.now ++ fresh.now) c }
{
    let at = c.0 as usize;
    if at < env.len() {
        captured_uppers(env, c)
    } else {
        captured_uppers(fresh, CaptureId((at - env.len()) as u64))
    }
}

// Arrays of references, and else class and raw types.
#[tactic(auto, unfolding(jc_judge::specs::Asking::shapes))]
fn shapes(
    alloc: Global,
    table: &Table,
    env: &[Bounds],
    fresh: &[Bounds],
    s: &Ty,
    t: &Ty,
) -> Result<Question, WantOfMemory>
    ensures { IfOk result (λ q. q ≡ shapes table.now (env.now ++ fresh.now) s.now t.now) }
{
    match element(alloc, s)? {
        Some(below) => to_elements(alloc, below, element(alloc, t)?),
        None => classes(alloc, table, env, fresh, s, t),
    }
}

fn to_elements(alloc: Global, below: Ty, above: Option<Ty>) -> Result<Question, WantOfMemory>
    ensures { IfOk result (λ q. q ≡ to_elements below above) }
{
    match above {
        Some(above) => {
            if is_primitive(&below) || is_primitive(&above) {
                return Ok(Question::Fails);
            }
            let mut parts = Items::new(alloc);
            parts.push(Part::Ask { below, above })?;
            Ok(Question::Every {
                fresh: Items::new(alloc),
                parts,
            })
        }
        None => Ok(Question::Fails),
    }
}

// Class and raw types.
#[tactic(auto, using(crate::proofs::Joined::classes_joined))]
fn classes(
    alloc: Global,
    table: &Table,
    env: &[Bounds],
    fresh: &[Bounds],
    s: &Ty,
    t: &Ty,
) -> Result<Question, WantOfMemory>
    ensures { IfOk result (λ q. q ≡ classes table.now (env.now ++ fresh.now) s.now t.now) }
{
    classes_from(alloc, table, env.len() + fresh.len(), s, t)
}

// The source is viewed as the target's class, where `start` variables were captured before.
fn classes_from(
    alloc: Global,
    table: &Table,
    start: usize,
    s: &Ty,
    t: &Ty,
) -> Result<Question, WantOfMemory>
    ensures { IfOk result (λ q. q ≡ classes_from table.now start s.now t.now (class_of s.now) (class_of t.now)) }
{
    match class_of(s) {
        None => Ok(Question::Fails),
        Some(from) => match class_of(t) {
            None => Ok(Question::Fails),
            Some(to) => classes_between(alloc, table, start, Between { from, to }, s, t),
        },
    }
}

/// The class of a source, and that of a target.
#[derive(Clone, Copy)]
struct Between {
    from: ClassId,
    to: ClassId,
}

// Nothing is captured before a way to the target's class is known.
fn classes_between(
    alloc: Global,
    table: &Table,
    start: usize,
    between: Between,
    s: &Ty,
    t: &Ty,
) -> Result<Question, WantOfMemory>
    requires source { class_of s.now ≡ Some between.from }
    requires target { class_of t.now ≡ Some between.to }
    ensures { IfOk result (λ q. q ≡ classes_from table.now start s.now t.now (class_of s.now) (class_of t.now)) }
{
    let way = way_to(alloc, table, between.to, between.from)?;
    match way {
        Way::Missing => Ok(Question::Fails),
        Way::Found(turns) => by_way(alloc, table, start, Way::Found(turns), between, s, t),
        Way::Unknown => by_way(alloc, table, start, Way::Unknown, between, s, t),
    }
}

// The source is captured, and viewed by the way to the target's class.
fn by_way(
    alloc: Global,
    table: &Table,
    start: usize,
    way: Way,
    between: Between,
    s: &Ty,
    t: &Ty,
) -> Result<Question, WantOfMemory>
    requires way { WayIs table.now between.to between.from.0 way }
    requires source { class_of s.now ≡ Some between.from }
    requires target { class_of t.now ≡ Some between.to }
    ensures { IfOk result (λ q. q ≡ classes_from table.now start s.now t.now (class_of s.now) (class_of t.now)) }
{
    let captured = capture_one(alloc, table, start as u64, s)?;
    let seen = view_by(alloc, table, way, between.to, between.from, &captured.ty)?;
    by_view(alloc, table, captured.fresh, t, seen)
}

fn by_view(
    alloc: Global,
    table: &Table,
    fresh: Items<Bounds>,
    t: &Ty,
    seen: Option<Ty>,
) -> Result<Question, WantOfMemory>
    ensures { IfOk result (λ q. q ≡ by_view table.now fresh t.now seen) }
{
    match seen {
        None => Ok(Question::Fails),
        Some(v) => by_arguments(alloc, fresh, arguments(table, &v), arguments(table, t)),
    }
}

fn by_arguments(
    alloc: Global,
    fresh: Items<Bounds>,
    views: Option<&[Arg]>,
    targets: Option<&[Arg]>,
) -> Result<Question, WantOfMemory>
    ensures { IfOk result (λ q. q ≡ by_arguments fresh (option_copied views.entry) (option_copied targets.entry)) }
{
    match targets {
        None => Ok(Question::Holds),
        Some(targets) => match views {
            None => Ok(Question::Fails),
            Some(views) => {
                let mut parts = Items::new(alloc);
                push_contained(alloc, views, targets, &mut parts)?;
                Ok(Question::Every { fresh, parts })
            }
        },
    }
}

/// Whether one type is below each of others, as parts of a question.
pub fn asked_above(alloc: Global, s: &Ty, targets: &[Ty]) -> Result<Items<Part>, WantOfMemory>
    ensures { IfOk result (λ r. r ≡ map (Ask s.now) targets.now) }
{
    let mut out = Items::new(alloc);
    for i in 0..targets.len() {
        let part = ask(alloc, s, &targets[i])?;
        out.push(part)?;
    }
    Ok(out)
}

fn asked_below(alloc: Global, types: &[Ty], t: &Ty) -> Result<Items<Part>, WantOfMemory>
    ensures { IfOk result (λ r. r ≡ map (λ x. Ask x t.now) types.now) }
{
    let mut out = Items::new(alloc);
    for i in 0..types.len() {
        let part = ask(alloc, &types[i], t)?;
        out.push(part)?;
    }
    Ok(out)
}
