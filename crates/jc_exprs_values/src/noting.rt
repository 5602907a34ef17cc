//! Premises of a node that fail, of which a walk keeps the least.
ghost use Rattle.std.specs.Prelude.{◌≡◌, ◌<◌, [], length, Some, IfOk, OnOk};
ghost use Rattle.jc_typed.specs.Parts.{BelowForm, Grows, form_over, operand_of, parts};
ghost use Rattle.jc_exprs_nodes_spec.specs.Told.{fine, ran};
ghost use Rattle.jc_exprs_nodes_spec.specs.Typeds.{captured, converted, fixed, node, type_of as counted_type, unconverted};
ghost use Rattle.jc_convert.specs.Converting.{invocation};
ghost use Rattle.jc_exprs_nodes.specs.Walks.{IsPart, as_breaks, has, known, now};
ghost use Rattle.jc_exprs_constants.specs.Knowing.{KnownBelow, known_at};
ghost use Rattle.jc_exprs_values.specs.Noted.{is_broken, noted};

use jc_convert::invocation;
use jc_exprs_constants::KnownAt;
use jc_exprs_nodes::{Formed, Judging, Part, Walk, converted, note, uncaptured, unconverted};
use jc_rules::{Place, Refusal, WantOfMemory};
use jc_typed::{ExprForm, StepsNode, form_below, same_form};
use jc_types::{Table, Ty, copy_type};
use std::alloc::Global;

/// An operand of a conversion, and whether there is no such conversion.
#[derive(Clone, Copy, Debug)]
pub struct Checked {
    pub at: u32,
    pub is_broken: bool,
}

/// A premise of a node, if it fails: the walk keeps the least break.
pub fn note_some(walk: &mut Walk, found: Option<Refusal>) -> bool
    ensures state { noted (now walk.old) (as_breaks found) ≡ now walk.new }
    ensures nodes { walk.new.nodes ≡ walk.old.nodes }
    ensures value { result ≡ is_broken (as_breaks found) }
{
    match found {
        None => false,
        Some(found) => {
            note(walk, found);
            true
        }
    }
}

/// A part that method invocation conversion takes to a type (JLS 5.3): 607 where there is no such conversion.
#[tactic(auto, using(jc_typed::proofs::Growing::growing))]
pub fn push_invoked(
    alloc: Global,
    table: &Table,
    walk: &mut Walk,
    part: Part,
    to: &Ty,
) -> Result<Checked, WantOfMemory>
    requires { IsPart walk.old.nodes part }
    ensures state { OnOk result (noted (now walk.old) (unconverted 607 (known walk.old.nodes part.at).start (invocation table.now walk.old.env.bounds (counted_type (known walk.old.nodes part.at)) to.now)) ≡ now walk.new) }
    ensures value { IfOk result (λ r. operand_of walk.new.nodes r.at ≡ converted table.now walk.old.env.bounds (known walk.old.nodes part.at) (invocation table.now walk.old.env.bounds (counted_type (known walk.old.nodes part.at)) to.now)) }
    ensures broken { IfOk result (λ r. r.is_broken ≡ is_broken (unconverted 607 (known walk.old.nodes part.at).start (invocation table.now walk.old.env.bounds (counted_type (known walk.old.nodes part.at)) to.now))) }
    ensures within { IfOk result (λ r. r.at < length walk.new.nodes) }
    ensures grows { Grows walk.old.nodes walk.new.nodes }
{
    let converts = invocation(alloc, table, &walk.env, walk.nodes.ty(part.ty), to)?;
    let judging = Judging {
        table,
        env: &walk.env,
    };
    let at = converted(alloc, &mut walk.nodes, &judging, part, &converts)?;
    let found = unconverted(607, part.start, &converts);
    let is_broken = note_some(walk, found);
    Ok(Checked { at, is_broken })
}

/// An expression of a type that needs no capture.
#[tactic(auto, using(jc_typed::proofs::Growing::growing, crate::proofs::Staying::forms))]
pub fn formed(
    alloc: Global,
    walk: &mut Walk,
    place: Place,
    ty: &Ty,
    form: ExprForm,
) -> Result<u32, WantOfMemory>
    requires { BelowForm (length walk.old.nodes) form }
    ensures state { OnOk result ((ran (fine (node place ty.now (form_over (parts walk.old.nodes) form))) (now walk.old)).state ≡ now walk.new) }
    ensures value { IfOk result (λ at. (ran (fine (node place ty.now (form_over (parts walk.old.nodes) form))) (now walk.old)).has ≡ has walk.new.nodes at) }
    ensures within { IfOk result (λ at. at < length walk.new.nodes) }
    ensures grows { Grows walk.old.nodes walk.new.nodes }
{
    same_form();
    form_below();
    let ty = walk.nodes.push_type(copy_type(alloc, ty)?)?;
    uncaptured(walk, place, ty, form)
}

/// An expression of a type that is captured, without a lead.
#[tactic(auto, using(jc_typed::proofs::Growing::growing, crate::proofs::Staying::forms))]
pub fn captured(
    alloc: Global,
    table: &Table,
    walk: &mut Walk,
    place: Place,
    ty: &Ty,
    form: ExprForm,
) -> Result<u32, WantOfMemory>
    requires { BelowForm (length walk.old.nodes) form }
    ensures state { OnOk result ((ran (captured table.now place ty.now (form_over (parts walk.old.nodes) form) []) (now walk.old)).state ≡ now walk.new) }
    ensures value { IfOk result (λ at. (ran (captured table.now place ty.now (form_over (parts walk.old.nodes) form) []) (now walk.old)).has ≡ has walk.new.nodes at) }
    ensures within { IfOk result (λ at. at < length walk.new.nodes) }
    ensures grows { Grows walk.old.nodes walk.new.nodes }
{
    same_form();
    form_below();
    let lead = walk.nodes.push_steps(StepsNode::Empty)?;
    jc_exprs_nodes::captured(alloc, table, walk, ty, Formed { place, form, lead })
}

/// A constant expression of a type.
#[tactic(auto, using(jc_typed::proofs::Growing::growing))]
pub fn fixed(
    alloc: Global,
    walk: &mut Walk,
    place: Place,
    ty: &Ty,
    known: KnownAt,
) -> Result<u32, WantOfMemory>
    requires { KnownBelow (length walk.old.nodes) (Some known) }
    ensures state { OnOk result ((ran (fine (fixed place ty.now (known_at walk.old.nodes known))) (now walk.old)).state ≡ now walk.new) }
    ensures value { IfOk result (λ at. (ran (fine (fixed place ty.now (known_at walk.old.nodes known))) (now walk.old)).has ≡ has walk.new.nodes at) }
    ensures within { IfOk result (λ at. at < length walk.new.nodes) }
    ensures grows { Grows walk.old.nodes walk.new.nodes }
{
    let ty = walk.nodes.push_type(copy_type(alloc, ty)?)?;
    jc_exprs_constants::fixed(walk, place, ty, known)
}
