//! Types that are thrown, caught and declared (JLS 11.1.1, 11.2).
ghost use Rattle.std.specs.Prelude.{◌≡◌, ◌++◌, ◌<◌, [], IfOk, OnOk, length};
ghost use Rattle.std.specs.List.{list_any};
ghost use Rattle.jc_types.specs.declared.form.Ty.TheVariants as ty;
ghost use Rattle.jc_types.specs.Accessors.{class_named};
ghost use Rattle.jc_typed.specs.Parts.{catches_of};
ghost use Rattle.jc_flow_spec.specs.Throwing.{is_below, is_below_any, is_caught, is_catch_all, is_checked, is_related, is_thrown, is_undeclared, is_useless, lower, lower_all, rethrown, uncaught};

use crate::listed::types_listed;
use crate::scene::Scene;
use jc_flow_spec::Thrown;
use jc_judge::Answer;
use jc_rules::{Items, WantOfMemory};
use jc_sub::below;
use jc_typed::CatchesNode;
use jc_types::{Ty, class_named, copy_type, same_type};

fn class_type(scene: &Scene, name: &str) -> Ty
    ensures { result ≡ ty.Class (class_named scene.now.table.now name.now) [] }
{
    Ty::Class {
        id: class_named(scene.table, name),
        args: Items::new(scene.alloc),
    }
}

/// Whether a type is a subtype of another one.
#[tactic(auto, unfolding(jc_flow_spec::specs::Throwing::is_below))]
pub fn is_below(scene: &Scene, s: &Ty, t: &Ty) -> Result<bool, WantOfMemory>
    ensures { IfOk result (λ r. r ≡ is_below scene.now.table.now scene.now.env.now.bounds s.now t.now) }
{
    match below(scene.alloc, scene.table, scene.env, s, t)? {
        Answer::Yes => Ok(true),
        Answer::No => Ok(false),
        Answer::Deep => Ok(false),
    }
}

fn is_related(scene: &Scene, s: &Ty, t: &Ty) -> Result<bool, WantOfMemory>
    ensures { IfOk result (λ r. r ≡ is_related scene.now.table.now scene.now.env.now.bounds s.now t.now) }
{
    if is_below(scene, s, t)? {
        return Ok(true);
    }
    is_below(scene, t, s)
}

/// Whether a type is a subtype of one of these.
pub fn is_below_any(scene: &Scene, t: &Ty, types: &[Ty]) -> Result<bool, WantOfMemory>
    ensures { IfOk result (λ r. r ≡ is_below_any scene.now.table.now scene.now.env.now.bounds t.now types.now) }
{
    let mut rest = types;
    while let [u, more @ ..] = rest {
        if is_below(scene, t, u)? {
            return Ok(true);
        }
        rest = more;
    }
    Ok(false)
}

// Whether a type needs a clause where it is thrown.
#[tactic(auto, unfolding(jc_flow_spec::specs::Throwing::is_checked))]
fn is_checked(scene: &Scene, t: &Ty) -> Result<bool, WantOfMemory>
    ensures { IfOk result (λ r. r ≡ is_checked scene.now.table.now scene.now.env.now.bounds t.now) }
{
    let runtime = class_type(scene, "java.lang.RuntimeException");
    if is_below(scene, t, &runtime)? {
        return Ok(false);
    }
    let error = class_type(scene, "java.lang.Error");
    let is_error = is_below(scene, t, &error)?;
    Ok(!is_error)
}

#[tactic(auto, unfolding(jc_flow_spec::specs::Throwing::is_catch_all))]
fn is_catch_all(scene: &Scene, t: &Ty) -> bool
    ensures { result ≡ is_catch_all scene.now.table.now scene.now.env.now.bounds t.now }
{
    let exception = class_type(scene, "java.lang.Exception");
    let throwable = class_type(scene, "java.lang.Throwable");
    same_type(t, &exception) || same_type(t, &throwable)
}

/// Whether a type is thrown that needs a clause, where these are declared.
pub fn is_undeclared(scene: &Scene, declared: &[Ty], t: &Ty) -> Result<bool, WantOfMemory>
    ensures { IfOk result (λ r. r ≡ is_undeclared scene.now.table.now scene.now.env.now.bounds declared.now t.now) }
{
    if !is_checked(scene, t)? {
        return Ok(false);
    }
    let is_declared = is_below_any(scene, t, declared)?;
    Ok(!is_declared)
}

/// Whether a clause of a list catches a type.
pub fn is_caught(scene: &Scene, t: &Ty, at: u32) -> Result<bool, WantOfMemory>
    requires { at < length scene.now.nodes.now }
    ensures { IfOk result (λ r. r ≡ is_caught scene.now.table.now scene.now.env.now.bounds t.now (catches_of scene.now.nodes.now at)) }
{
    let mut list = at;
    'clauses_left: loop {
        match scene.nodes.catches(list) {
            CatchesNode::Empty => return Ok(false),
            CatchesNode::More { before, types, .. } => {
                let types = types_listed(scene.alloc, scene.nodes, types)?;
                if is_below_any(scene, t, types.slice())? {
                    return Ok(true);
                }
                list = before;
            }
        }
    }
}

/// What is thrown on behind the clauses of a list.
pub fn uncaught(scene: &Scene, at: u32, thrown: &[Thrown]) -> Result<Items<Thrown>, WantOfMemory>
    requires { at < length scene.now.nodes.now }
    ensures { IfOk result (λ r. r ≡ uncaught scene.now.table.now scene.now.env.now.bounds (catches_of scene.now.nodes.now at) thrown.now) }
{
    let mut out = Items::new(scene.alloc);
    let mut rest = thrown;
    while let [x, more @ ..] = rest {
        if !is_caught(scene, &x.ty, at)? {
            out.push(Thrown {
                ty: copy_type(scene.alloc, &x.ty)?,
                place: x.place,
            })?;
        }
        rest = more;
    }
    Ok(out)
}

fn is_thrown(scene: &Scene, thrown: &[Thrown], a: &Ty) -> Result<bool, WantOfMemory>
    ensures { IfOk result (λ r. r ≡ is_thrown scene.now.table.now scene.now.env.now.bounds thrown.now a.now) }
{
    let mut rest = thrown;
    while let [x, more @ ..] = rest {
        if is_related(scene, &x.ty, a)? && is_checked(scene, &x.ty)? {
            return Ok(true);
        }
        rest = more;
    }
    Ok(false)
}

// Whether an alternative catches nothing behind the earlier clauses at `before`.
fn is_useless(scene: &Scene, thrown: &[Thrown], before: u32, a: &Ty) -> Result<bool, WantOfMemory>
    requires { before < length scene.now.nodes.now }
    ensures { IfOk result (λ r. r ≡ is_useless scene.now.table.now scene.now.env.now.bounds thrown.now (catches_of scene.now.nodes.now before) a.now) }
{
    if is_caught(scene, a, before)? {
        return Ok(true);
    }
    if is_catch_all(scene, a) || !is_checked(scene, a)? {
        return Ok(false);
    }
    let can_be_thrown = is_thrown(scene, thrown, a)?;
    Ok(!can_be_thrown)
}

/// Whether one of these alternatives catches nothing.
pub fn is_one_useless(
    scene: &Scene,
    thrown: &[Thrown],
    before: u32,
    types: &[Ty],
) -> Result<bool, WantOfMemory>
    requires { before < length scene.now.nodes.now }
    ensures { IfOk result (λ r. r ≡ list_any (is_useless scene.now.table.now scene.now.env.now.bounds thrown.now (catches_of scene.now.nodes.now before)) types.now) }
{
    let mut rest = types;
    while let [a, more @ ..] = rest {
        if is_useless(scene, thrown, before, a)? {
            return Ok(true);
        }
        rest = more;
    }
    Ok(false)
}

// Adds the lower one of two related types.
fn push_lower(scene: &Scene, t: &Ty, a: &Ty, out: &mut Items<Ty>) -> Result<(), WantOfMemory>
    ensures { OnOk result (out.new ≡ out.old ++ lower scene.now.table.now scene.now.env.now.bounds t.now a.now) }
{
    if is_below(scene, t, a)? {
        return out.push(copy_type(scene.alloc, t)?);
    }
    if is_below(scene, a, t)? {
        return out.push(copy_type(scene.alloc, a)?);
    }
    Ok(())
}

fn push_lower_all(
    scene: &Scene,
    t: &Ty,
    types: &[Ty],
    out: &mut Items<Ty>,
) -> Result<(), WantOfMemory>
    ensures { OnOk result (out.new ≡ out.old ++ lower_all scene.now.table.now scene.now.env.now.bounds t.now types.now) }
{
    let mut rest = types;
    while let [a, more @ ..] = rest {
        push_lower(scene, t, a, out)?;
        rest = more;
    }
    Ok(())
}

/// The types that the parameter of a clause is thrown again with.
pub fn rethrown(
    scene: &Scene,
    before: u32,
    types: &[Ty],
    thrown: &[Thrown],
) -> Result<Items<Ty>, WantOfMemory>
    requires { before < length scene.now.nodes.now }
    ensures { IfOk result (λ r. r ≡ rethrown scene.now.table.now scene.now.env.now.bounds (catches_of scene.now.nodes.now before) types.now thrown.now) }
{
    let mut out = Items::new(scene.alloc);
    let mut rest = thrown;
    while let [x, more @ ..] = rest {
        if !is_caught(scene, &x.ty, before)? {
            push_lower_all(scene, &x.ty, types, &mut out)?;
        }
        rest = more;
    }
    Ok(out)
}
