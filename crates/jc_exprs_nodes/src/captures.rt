//! Capture, anew at each occurrence of an expression (JLS 5.1.10).
ghost use Rattle.std.specs.Prelude.{◌≡◌, ◌<◌, ◌+◌, ◌++◌, [], length, Some, IfOk, OnOk};
ghost use Rattle.jc_types.specs.declared.form.Arg.{out-Arg};
ghost use Rattle.jc_types.specs.declared.form.Ty.{out-Ty};
ghost use Rattle.jc_typed.specs.Parts.{BelowForm, Grows, captures_of, form_over, parts, steps_of, type_of};
ghost use Rattle.jc_exprs_nodes_spec.specs.Told.{fine, ran};
ghost use Rattle.jc_exprs_nodes_spec.specs.Typeds.{captured, capturing, named_args, named_at, named_in, named_one, named_parts, node};
ghost use Rattle.jc_exprs_nodes.specs.Walks.{KindBelow, formed_in, has, has_behind, has_kind, kind_of, now};

use crate::breaking::{missing, note, refusal};
use crate::walk::{Formed, KindAt, Walk};
use jc_rules::{Place, Stop, WantOfMemory};
use jc_sub::capture;
use jc_typed::{
    Capture, CapturesNode, ExprForm, ExprNode, Nodes, OperandNode, StepsNode, form_below, same_form,
};
use jc_types::{Arg, CaptureId, ClassId, Table, Ty, class_vars, copy_type};
use std::alloc::Global;

// Captured variables so far, and the number of the next one.
#[derive(Clone, Copy, Debug)]
struct Naming {
    list: u32,
    next: u64,
}

// The variable of an argument, if it has one.
#[tactic(auto, using(jc_types::proofs::Opened::opened, jc_typed::proofs::Growing::growing, crate::proofs::Appending::appended))]
fn push_named_at(
    nodes: &mut Nodes,
    from: Naming,
    class: ClassId,
    at: u32,
    arg: &Arg,
) -> Result<Naming, WantOfMemory>
    requires { from.list < length nodes.old }
    ensures list { IfOk result (λ r. captures_of nodes.new r.list ≡ captures_of nodes.old from.list ++ named_at class from.next at (out-Arg arg.now)) }
    ensures next { IfOk result (λ r. r.next ≡ from.next + length (named_at class from.next at (out-Arg arg.now))) }
    ensures within { IfOk result (λ r. r.list < length nodes.new) }
    ensures grows { Grows nodes.old nodes.new }
{
    if let Arg::Exact(_) = arg {
        return Ok(from);
    }
    let Some(next) = from.next.checked_add(1) else {
        return Err(WantOfMemory);
    };
    let list = nodes.push_captures(CapturesNode::More {
        before: from.list,
        last: Capture {
            capture: CaptureId(from.next),
            class,
            at,
        },
    })?;
    Ok(Naming { list, next })
}

// The variables of the arguments of a class type.
#[tactic(auto, using(jc_typed::proofs::Growing::growing, crate::proofs::Appending::appended, crate::proofs::Appending::append_length))]
fn push_named_args(
    nodes: &mut Nodes,
    from: Naming,
    class: ClassId,
    args: &[Arg],
) -> Result<Naming, WantOfMemory>
    requires { from.list < length nodes.old }
    ensures list { IfOk result (λ r. captures_of nodes.new r.list ≡ captures_of nodes.old from.list ++ named_args class from.next 0 args.now) }
    ensures next { IfOk result (λ r. r.next ≡ from.next + length (named_args class from.next 0 args.now)) }
    ensures within { IfOk result (λ r. r.list < length nodes.new) }
    ensures grows { Grows nodes.old nodes.new }
{
    let mut naming = from;
    let mut i = 0u32;
    let mut rest = args;
    while let [arg, more @ ..] = rest {
        naming = push_named_at(nodes, naming, class, i, arg)?;
        let Some(next) = i.checked_add(1) else {
            return Err(WantOfMemory);
        };
        i = next;
        rest = more;
    }
    Ok(naming)
}

// The variables of the capture of a type that is no intersection.
#[tactic(auto, using(jc_types::proofs::Opened::opened, jc_typed::proofs::Growing::growing, crate::proofs::Appending::appended))]
fn push_named_one(
    nodes: &mut Nodes,
    table: &Table,
    from: Naming,
    ty: &Ty,
) -> Result<Naming, WantOfMemory>
    requires { from.list < length nodes.old }
    ensures list { IfOk result (λ r. captures_of nodes.new r.list ≡ captures_of nodes.old from.list ++ named_one table.now from.next (out-Ty ty.now)) }
    ensures next { IfOk result (λ r. r.next ≡ from.next + length (named_one table.now from.next (out-Ty ty.now))) }
    ensures within { IfOk result (λ r. r.list < length nodes.new) }
    ensures grows { Grows nodes.old nodes.new }
{
    if let Ty::Class { id, args } = ty {
        if args.len() == class_vars(table, *id).len() {
            return push_named_args(nodes, from, *id, args.slice());
        }
    }
    Ok(from)
}

// The variables of the capture of each of several types.
#[tactic(auto, using(jc_typed::proofs::Growing::growing, crate::proofs::Appending::appended))]
fn push_named_parts(
    nodes: &mut Nodes,
    table: &Table,
    from: Naming,
    parts: &[Ty],
) -> Result<u32, WantOfMemory>
    requires { from.list < length nodes.old }
    ensures list { IfOk result (λ r. captures_of nodes.new r ≡ captures_of nodes.old from.list ++ named_parts table.now from.next parts.now) }
    ensures within { IfOk result (λ r. r < length nodes.new) }
    ensures grows { Grows nodes.old nodes.new }
{
    let mut naming = from;
    let mut rest = parts;
    while let [part, more @ ..] = rest {
        naming = push_named_one(nodes, table, naming, part)?;
        rest = more;
    }
    Ok(naming.list)
}

// The variables of the capture of a type.
#[tactic(auto, using(jc_types::proofs::Opened::opened))]
fn push_named(nodes: &mut Nodes, table: &Table, from: Naming, ty: &Ty) -> Result<u32, WantOfMemory>
    requires { from.list < length nodes.old }
    ensures list { IfOk result (λ r. captures_of nodes.new r ≡ captures_of nodes.old from.list ++ named_in table.now from.next (out-Ty ty.now)) }
    ensures within { IfOk result (λ r. r < length nodes.new) }
    ensures grows { Grows nodes.old nodes.new }
{
    match ty {
        Ty::Meet { parts } => push_named_parts(nodes, table, from, parts.slice()),
        _ => {
            let naming = push_named_one(nodes, table, from, ty)?;
            Ok(naming.list)
        }
    }
}

/// A type after capture, whose variables stand behind those of a list; none where two unrelated classes meet (624).
#[tactic(auto, using(jc_typed::proofs::Growing::growing), unfolding(jc_exprs_nodes_spec::specs::Told::ran, jc_exprs_nodes_spec::specs::Typeds::capturing))]
pub fn capturing_behind(
    alloc: Global,
    table: &Table,
    walk: &mut Walk,
    place: Place,
    before: u32,
    ty: &Ty,
) -> Result<Option<KindAt>, WantOfMemory>
    requires { before < length walk.old.nodes }
    ensures state { OnOk result ((ran (capturing table.now place ty.now) (now walk.old)).state ≡ now walk.new) }
    ensures value { IfOk result (λ k. has_behind (captures_of walk.old.nodes before) (ran (capturing table.now place ty.now) (now walk.old)).has ≡ has_kind walk.new.nodes k) }
    ensures below { IfOk result (λ k. KindBelow (length walk.new.nodes) k) }
    ensures grows { Grows walk.old.nodes walk.new.nodes }
{
    let next = walk.env.bounds.len() as u64;
    match capture(alloc, table, &mut walk.env, ty) {
        Ok(to) => {
            let from = Naming { list: before, next };
            let captures = push_named(&mut walk.nodes, table, from, ty)?;
            let ty = walk.nodes.push_type(to)?;
            Ok(Some(KindAt { ty, captures }))
        }
        Err(Stop::Refused(_)) => {
            note(walk, refusal(624, place));
            Ok(None)
        }
        Err(Stop::WantOfMemory) => Err(WantOfMemory),
    }
}

/// A type after capture; none where two unrelated classes meet (624).
#[tactic(auto, using(jc_typed::proofs::Growing::growing, crate::proofs::Forming::behind_none))]
pub fn capturing(
    alloc: Global,
    table: &Table,
    walk: &mut Walk,
    place: Place,
    ty: &Ty,
) -> Result<Option<KindAt>, WantOfMemory>
    ensures state { OnOk result ((ran (capturing table.now place ty.now) (now walk.old)).state ≡ now walk.new) }
    ensures value { IfOk result (λ k. (ran (capturing table.now place ty.now) (now walk.old)).has ≡ has_kind walk.new.nodes k) }
    ensures below { IfOk result (λ k. KindBelow (length walk.new.nodes) k) }
    ensures grows { Grows walk.old.nodes walk.new.nodes }
{
    let none = walk.nodes.push_captures(CapturesNode::Empty)?;
    capturing_behind(alloc, table, walk, place, none, ty)
}

// An expression of a type that is captured.
#[tactic(auto, using(jc_typed::proofs::Growing::growing), unfolding(crate::specs::Walks::typed_in))]
fn push_formed(nodes: &mut Nodes, formed: Formed, kind: KindAt) -> Result<u32, WantOfMemory>
    requires form { BelowForm (length nodes.old) formed.form }
    requires lead { formed.lead < length nodes.old }
    requires kind { KindBelow (length nodes.old) (Some kind) }
    ensures value { IfOk result (λ at. Some (formed_in nodes.old formed (kind_of nodes.old kind)) ≡ has nodes.new at) }
    ensures within { IfOk result (λ at. at < length nodes.new) }
    ensures grows { Grows nodes.old nodes.new }
{
    let of = nodes.push_expr(ExprNode::Expr {
        place: formed.place,
        ty: kind.ty,
        captures: kind.captures,
        form: formed.form,
    })?;
    nodes.push_operand(OperandNode::Operand {
        place: formed.place,
        of,
        steps: formed.lead,
    })
}

/// An expression of a type that is captured there: a variable, field, element, call, creation, cast or conditional.
#[tactic(auto, using(jc_typed::proofs::Growing::growing, jc_exprs_nodes_spec::proofs::Runs::runs, crate::proofs::Forming::kinds))]
pub fn captured(
    alloc: Global,
    table: &Table,
    walk: &mut Walk,
    ty: &Ty,
    formed: Formed,
) -> Result<u32, WantOfMemory>
    requires form { BelowForm (length walk.old.nodes) formed.form }
    requires lead { formed.lead < length walk.old.nodes }
    ensures state { OnOk result ((ran (captured table.now formed.place ty.now (form_over (parts walk.old.nodes) formed.form) (steps_of walk.old.nodes formed.lead)) (now walk.old)).state ≡ now walk.new) }
    ensures value { IfOk result (λ at. (ran (captured table.now formed.place ty.now (form_over (parts walk.old.nodes) formed.form) (steps_of walk.old.nodes formed.lead)) (now walk.old)).has ≡ has walk.new.nodes at) }
    ensures within { IfOk result (λ at. at < length walk.new.nodes) }
    ensures grows { Grows walk.old.nodes walk.new.nodes }
{
    same_form();
    form_below();
    match capturing(alloc, table, walk, formed.place, ty)? {
        None => missing(walk),
        Some(kind) => push_formed(&mut walk.nodes, formed, kind),
    }
}

/// The same of a type in the arena.
#[tactic(auto, using(jc_typed::proofs::Growing::growing))]
pub fn captured_at(
    alloc: Global,
    table: &Table,
    walk: &mut Walk,
    ty: u32,
    formed: Formed,
) -> Result<u32, WantOfMemory>
    requires ty { ty < length walk.old.nodes }
    requires form { BelowForm (length walk.old.nodes) formed.form }
    requires lead { formed.lead < length walk.old.nodes }
    ensures state { OnOk result ((ran (captured table.now formed.place (type_of walk.old.nodes ty) (form_over (parts walk.old.nodes) formed.form) (steps_of walk.old.nodes formed.lead)) (now walk.old)).state ≡ now walk.new) }
    ensures value { IfOk result (λ at. (ran (captured table.now formed.place (type_of walk.old.nodes ty) (form_over (parts walk.old.nodes) formed.form) (steps_of walk.old.nodes formed.lead)) (now walk.old)).has ≡ has walk.new.nodes at) }
    ensures within { IfOk result (λ at. at < length walk.new.nodes) }
    ensures grows { Grows walk.old.nodes walk.new.nodes }
{
    let ty = copy_type(alloc, walk.nodes.ty(ty))?;
    captured(alloc, table, walk, &ty, formed)
}

/// An expression that needs no capture, of a type in the arena, with no lead.
#[tactic(auto, using(jc_typed::proofs::Growing::growing, jc_exprs_nodes_spec::proofs::Runs::runs, crate::proofs::Forming::kinds))]
pub fn uncaptured(
    walk: &mut Walk,
    place: Place,
    ty: u32,
    form: ExprForm,
) -> Result<u32, WantOfMemory>
    requires ty { ty < length walk.old.nodes }
    requires form { BelowForm (length walk.old.nodes) form }
    ensures state { OnOk result ((ran (fine (node place (type_of walk.old.nodes ty) (form_over (parts walk.old.nodes) form))) (now walk.old)).state ≡ now walk.new) }
    ensures value { IfOk result (λ at. (ran (fine (node place (type_of walk.old.nodes ty) (form_over (parts walk.old.nodes) form))) (now walk.old)).has ≡ has walk.new.nodes at) }
    ensures within { IfOk result (λ at. at < length walk.new.nodes) }
    ensures grows { Grows walk.old.nodes walk.new.nodes }
{
    same_form();
    form_below();
    let captures = walk.nodes.push_captures(CapturesNode::Empty)?;
    let lead = walk.nodes.push_steps(StepsNode::Empty)?;
    push_formed(
        &mut walk.nodes,
        Formed { place, form, lead },
        KindAt { ty, captures },
    )
}
