//! The form of a creation whose constructor is chosen (JLS 15.9.3, 15.9.4).
ghost use Rattle.std.specs.Prelude.{◌≡◌, ◌<◌, ◌&&◌, not, IfOk, length, map, true};
ghost use Rattle.jc_typed.specs.Parts.{BelowForm, Grows, form_over, parts, steps_of};
ghost use Rattle.jc_exprs_nodes.specs.Walks.{known};
ghost use Rattle.jc_exprs_gathering.specs.Gathered.{AllParts};
ghost use Rattle.jc_exprs_spec.specs.Creations.{created_lead, created_type, is_raw_type};
ghost use Rattle.jc_exprs_calls.specs.Creating.{new_form};

use jc_exprs_choosing::is_raw_type;
use jc_exprs_nodes::{Judging, push_step};
use jc_exprs_passing::{push_arguments, push_type_list};
use jc_resolve::Chosen;
use jc_rules::{Place, WantOfMemory};
use jc_typed::{ExprForm, Nodes, StepNode, StepsNode};
use jc_types::{Ty, copy_type, same_type};
use std::alloc::Global;

/// A creation: the place of `new`, the written type of its class, and whether a diamond stands behind that.
#[derive(Clone, Copy)]
pub struct Creating<'a> {
    pub place: Place,
    pub ty: &'a Ty,
    pub diamond: bool,
}

/// The created type: as it is written, or as it was inferred for a diamond.
pub fn created_type(
    alloc: Global,
    creation: &Creating,
    kept: &Option<Ty>,
) -> Result<Ty, WantOfMemory>
    ensures { IfOk result (λ t. t ≡ created_type creation.now.ty.now creation.now.diamond kept.now) }
{
    if !creation.diamond {
        return copy_type(alloc, creation.ty);
    }
    match kept {
        None => copy_type(alloc, creation.ty),
        Some(ty) => copy_type(alloc, ty),
    }
}

// A step up to a type, where it isn't the same.
#[tactic(auto, using(jc_typed::proofs::Growing::growing), unfolding(jc_exprs_spec::specs::Creations::created_lead))]
fn push_raised(alloc: Global, nodes: &mut Nodes, from: &Ty, to: &Ty) -> Result<u32, WantOfMemory>
    ensures value { IfOk result (λ at. steps_of nodes.new at ≡ created_lead from.now true (Some to.now)) }
    ensures within { IfOk result (λ at. at < length nodes.new) }
    ensures grows { Grows nodes.old nodes.new }
{
    let none = nodes.push_steps(StepsNode::Empty)?;
    if same_type(from, to) {
        return Ok(none);
    }
    let ty = nodes.push_type(copy_type(alloc, to)?)?;
    push_step(
        nodes,
        none,
        StepNode::Up {
            ty,
            unchecked: false,
        },
    )
}

/// The lead of a creation: where an unchecked conversion makes a diamond's constructor applicable, the creation counts as one of the raw type (JLS 15.12.2.6).
#[tactic(auto, using(jc_typed::proofs::Growing::growing))]
pub fn push_created_lead(
    alloc: Global,
    nodes: &mut Nodes,
    ty: &Ty,
    diamond: bool,
    raised: &Option<Ty>,
) -> Result<u32, WantOfMemory>
    ensures value { IfOk result (λ at. steps_of nodes.new at ≡ created_lead ty.now diamond raised.now) }
    ensures within { IfOk result (λ at. at < length nodes.new) }
    ensures grows { Grows nodes.old nodes.new }
{
    if !diamond {
        return nodes.push_steps(StepsNode::Empty);
    }
    match raised {
        None => nodes.push_steps(StepsNode::Empty),
        Some(to) => push_raised(alloc, nodes, ty, to),
    }
}

// Whether the created type is raw; behind a diamond it isn't.
fn is_raw_creation(creation: &Creating) -> bool
    ensures { (is_raw_type creation.now.ty.now && not creation.now.diamond) ≡ result }
{
    is_raw_type(creation.ty) && !creation.diamond
}

/// The form of a creation by a chosen constructor.
#[tactic(auto, using(jc_typed::proofs::Growing::growing))]
pub fn push_new_form(
    alloc: Global,
    nodes: &mut Nodes,
    judging: &Judging,
    creation: &Creating,
    args: &[u32],
    chosen: &Chosen,
) -> Result<ExprForm, WantOfMemory>
    requires { AllParts nodes.old args.now }
    ensures value { IfOk result (λ form. form_over (parts nodes.new) form ≡ new_form judging.now.table.now judging.now.env.now.bounds creation.now.place creation.now.ty.now creation.now.diamond (map (known nodes.old) args.now) chosen.now) }
    ensures below { IfOk result (λ form. BelowForm (length nodes.new) form) }
    ensures grows { Grows nodes.old nodes.new }
{
    let args = push_arguments(alloc, nodes, judging, creation.place, args, chosen)?;
    let thrown = push_type_list(alloc, nodes, chosen.thrown.slice())?;
    Ok(ExprForm::New {
        constructor: chosen.member.id,
        args,
        phase: chosen.phase,
        thrown,
        is_raw: is_raw_creation(creation),
    })
}
