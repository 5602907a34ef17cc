//! Expressions of which members are asked: the bounds of a type variable are taken, and captured, until no variable is left (JLS 4.4, 4.9, 5.1.10).
ghost use Rattle.std.specs.Prelude.{◌≡◌, ◌<◌, length, Some, IfOk, OnOk};
ghost use Rattle.jc_typed.specs.Parts.{BelowForm, Grows, captures_of, form_over, parts, type_of};
ghost use Rattle.jc_exprs_nodes_spec.specs.Told.{onward, ran};
ghost use Rattle.jc_exprs_nodes_spec.specs.Typeds.{capturing, settled, settled_steps, settling, type_of as counted_type};
ghost use Rattle.jc_exprs_nodes.specs.Walks.{IsPart, KindBelow, has_behind, has_kind, kind_of, known, now};
ghost use Rattle.jc_exprs_settling.specs.Settlings.{IsSettled, has_settled, settled_as, with_captures};

use crate::asked::SettledPart;
use crate::opening::{is_by_bounds, is_open, opened};
use jc_exprs_nodes::{Inner, Judging, KindAt, Part, Walk, capturing_behind, inside};
use jc_rules::{Place, WantOfMemory};
use jc_typed::{ExprNode, Nodes, OperandNode, form_below, same_form};
use jc_types::{Table, copy_type};
use std::alloc::Global;

// A type, captured, is settled in at most so many steps.
#[tactic(auto, using(jc_typed::proofs::Growing::growing, crate::proofs::Settles::settling_laws))]
fn settle(
    alloc: Global,
    table: &Table,
    walk: &mut Walk,
    place: Place,
    first: KindAt,
    steps: usize,
) -> Result<Option<KindAt>, WantOfMemory>
    requires { KindBelow (length walk.old.nodes) (Some first) }
    ensures state { OnOk result ((ran (settling table.now place steps (kind_of walk.old.nodes first)) (now walk.old)).state ≡ now walk.new) }
    ensures value { IfOk result (λ k. (ran (settling table.now place steps (kind_of walk.old.nodes first)) (now walk.old)).has ≡ has_kind walk.new.nodes k) }
    ensures below { IfOk result (λ k. KindBelow (length walk.new.nodes) k) }
    ensures grows { Grows walk.old.nodes walk.new.nodes }
{
    let mut kind = first;
    let mut left = steps;
    while 0 < left {
        let judging = Judging {
            table,
            env: &walk.env,
        };
        if !is_open(&judging, walk.nodes.ty(kind.ty)) {
            return Ok(Some(kind));
        }
        let to = opened(alloc, &judging, walk.nodes.ty(kind.ty))?;
        match capturing_behind(alloc, table, walk, place, kind.captures, &to)? {
            None => return Ok(None),
            Some(next) => kind = next,
        }
        left -= 1;
    }
    Ok(Some(kind))
}

// The settled type of a part, with its captured variables and those that this makes behind them.
#[tactic(auto, using(jc_typed::proofs::Growing::growing, jc_exprs_nodes_spec::proofs::Runs::runs, crate::proofs::Settles::first_laws))]
fn settled_kind(
    alloc: Global,
    table: &Table,
    walk: &mut Walk,
    part: Part,
    captures: u32,
) -> Result<Option<KindAt>, WantOfMemory>
    requires part { IsPart walk.old.nodes part }
    requires captures { captures < length walk.old.nodes }
    ensures state { OnOk result ((ran (onward (capturing table.now (known walk.old.nodes part.at).place (counted_type (known walk.old.nodes part.at))) (settling table.now (known walk.old.nodes part.at).place (settled_steps table.now walk.old.env.bounds))) (now walk.old)).state ≡ now walk.new) }
    ensures value { IfOk result (λ k. has_behind (captures_of walk.old.nodes captures) (ran (onward (capturing table.now (known walk.old.nodes part.at).place (counted_type (known walk.old.nodes part.at))) (settling table.now (known walk.old.nodes part.at).place (settled_steps table.now walk.old.env.bounds))) (now walk.old)).has ≡ has_kind walk.new.nodes k) }
    ensures below { IfOk result (λ k. KindBelow (length walk.new.nodes) k) }
    ensures grows { Grows walk.old.nodes walk.new.nodes }
{
    let steps = table.variables.slice().len() + walk.env.bounds.slice().len() + 1;
    let ty = copy_type(alloc, walk.nodes.ty(part.ty))?;
    match capturing_behind(alloc, table, walk, part.place, captures, &ty)? {
        None => Ok(None),
        Some(first) => settle(alloc, table, walk, part.place, first, steps),
    }
}

// A typed part with other captured variables.
#[tactic(auto, using(jc_typed::proofs::Growing::growing), unfolding(jc_exprs_nodes::specs::Walks::typed_in, jc_exprs_nodes::specs::Walks::known))]
fn push_with_captures(
    nodes: &mut Nodes,
    part: Part,
    inside: Inner,
    captures: u32,
) -> Result<Part, WantOfMemory>
    requires part { IsPart nodes.old part }
    requires captures { captures < length nodes.old }
    requires ty { (known nodes.old part.at).ty ≡ type_of nodes.old inside.ty }
    requires form { (known nodes.old part.at).form ≡ form_over (parts nodes.old) inside.form }
    requires below { (inside.ty < length nodes.old) × BelowForm (length nodes.old) inside.form }
    ensures value { IfOk result (λ p. known nodes.new p.at ≡ with_captures (known nodes.old part.at) (captures_of nodes.old captures)) }
    ensures part { IfOk result (λ p. IsPart nodes.new p) }
    ensures grows { Grows nodes.old nodes.new }
{
    let of = nodes.push_expr(ExprNode::Expr {
        place: part.place,
        ty: inside.ty,
        captures,
        form: inside.form,
    })?;
    let at = nodes.push_operand(OperandNode::Operand {
        place: part.start,
        of,
        steps: part.lead,
    })?;
    Ok(Part {
        at,
        start: part.start,
        place: part.place,
        of,
        ty: part.ty,
        lead: part.lead,
    })
}

// A settled part, where its type and captured variables are known.
#[tactic(auto, using(jc_typed::proofs::Growing::growing, jc_exprs_nodes::proofs::Staying::staying))]
fn settled_part(
    nodes: &mut Nodes,
    part: Part,
    inside: Inner,
    kind: KindAt,
    by_bounds: bool,
) -> Result<Option<SettledPart>, WantOfMemory>
    requires part { IsPart nodes.old part }
    requires kind { KindBelow (length nodes.old) (Some kind) }
    requires ty { (known nodes.old part.at).ty ≡ type_of nodes.old inside.ty }
    requires captures { (known nodes.old part.at).captures ≡ captures_of nodes.old inside.captures }
    requires form { (known nodes.old part.at).form ≡ form_over (parts nodes.old) inside.form }
    requires below { (inside.ty < length nodes.old) × BelowForm (length nodes.old) inside.form }
    ensures value { IfOk result (λ s. Some (settled_as by_bounds (known nodes.old part.at) (kind_of nodes.old kind)) ≡ has_settled nodes.new s) }
    ensures within { IfOk result (λ s. IsSettled nodes.new s) }
    ensures grows { Grows nodes.old nodes.new }
{
    if inside.captures == kind.captures {
        return Ok(Some(SettledPart {
            part,
            ty: kind.ty,
            by_bounds,
        }));
    }
    let part = push_with_captures(nodes, part, inside, kind.captures)?;
    Ok(Some(SettledPart {
        part,
        ty: kind.ty,
        by_bounds,
    }))
}

/// A part of which a member is asked: the type whose members it has, and the part with the captured variables that this makes behind its own; none where two unrelated classes meet (624).
#[tactic(auto, using(jc_typed::proofs::Growing::growing, jc_exprs_nodes::proofs::Staying::staying, crate::proofs::Settles::settled_laws))]
pub fn settled(
    alloc: Global,
    table: &Table,
    walk: &mut Walk,
    part: Part,
) -> Result<Option<SettledPart>, WantOfMemory>
    requires { IsPart walk.old.nodes part }
    ensures state { OnOk result ((ran (settled table.now (known walk.old.nodes part.at)) (now walk.old)).state ≡ now walk.new) }
    ensures value { IfOk result (λ s. (ran (settled table.now (known walk.old.nodes part.at)) (now walk.old)).has ≡ has_settled walk.new.nodes s) }
    ensures within { IfOk result (λ s. IsSettled walk.new.nodes s) }
    ensures grows { Grows walk.old.nodes walk.new.nodes }
{
    let inside = inside(&walk.nodes, part);
    let judging = Judging {
        table,
        env: &walk.env,
    };
    let by_bounds = is_by_bounds(&judging, walk.nodes.ty(part.ty));
    same_form();
    form_below();
    match settled_kind(alloc, table, walk, part, inside.captures)? {
        None => Ok(None),
        Some(kind) => settled_part(&mut walk.nodes, part, inside, kind, by_bounds),
    }
}
