//! Constants in the arena.
ghost use Rattle.std.specs.Prelude.{◌≡◌, ◌<◌, ◌∷◌, [], length, IfOk, OnOk};
ghost use Rattle.jc_types.specs.declared.form.Ty.{Ty};
ghost use Rattle.jc_typed.specs.Parts.{BelowForm, Grows, form_over, names_of, operands_of, parts, type_of};
ghost use Rattle.jc_typed.specs.Trees.{Fixed, NoOperands};
ghost use Rattle.jc_exprs_nodes_spec.specs.Told.{fine, ran};
ghost use Rattle.jc_exprs_nodes_spec.specs.Typeds.{fixed};
ghost use Rattle.jc_exprs_nodes.specs.Walks.{has, now};

use jc_exprs_locals::ScopedLocal;
use jc_exprs_nodes::{Walk, uncaptured};
use jc_rules::{Items, Place, WantOfMemory};
use jc_typed::{ExprForm, ListNode, NamesNode, Nodes, PlacesNode};
use jc_types::{Constant, Ty, copy_type};
use std::alloc::Global;

fn copy_constant(alloc: Global, constant: &Constant) -> Result<Constant, WantOfMemory>
    ensures { IfOk result (λ c. c ≡ constant.now) }
{
    match constant {
        Constant::Whole { value, of } => Ok(Constant::Whole {
            value: *value,
            of: *of,
        }),
        Constant::Text(units) => Ok(Constant::Text(Items::of(units.slice().to_vec(alloc)?))),
    }
}

/// A copy of a type in the arena.
pub fn push_copy(alloc: Global, nodes: &mut Nodes, ty: &Ty) -> Result<u32, WantOfMemory>
    ensures value { IfOk result (λ at. type_of nodes.new at ≡ ty.now) }
    ensures within { IfOk result (λ at. at < length nodes.new) }
    ensures grows { Grows nodes.old nodes.new }
{
    nodes.push_type(copy_type(alloc, ty)?)
}

/// A constant that is named through operands, and names locals.
#[tactic(auto, using(jc_typed::proofs::Growing::growing))]
pub fn push_constant(
    alloc: Global,
    nodes: &mut Nodes,
    constant: &Constant,
    before: u32,
    named: u32,
) -> Result<ExprForm, WantOfMemory>
    requires before { before < length nodes.old }
    requires named { named < length nodes.old }
    ensures value { IfOk result (λ form. form_over (parts nodes.new) form ≡ Fixed (operands_of nodes.old before) constant.now (names_of nodes.old named) []) }
    ensures below { IfOk result (λ form. BelowForm (length nodes.new) form) }
    ensures grows { Grows nodes.old nodes.new }
{
    let value = nodes.push_constant(copy_constant(alloc, constant)?)?;
    let casts = nodes.push_places(PlacesNode::Empty)?;
    Ok(ExprForm::Constant {
        before,
        value,
        named,
        casts,
    })
}

#[tactic(auto, using(jc_typed::proofs::Growing::growing))]
fn push_one_name(nodes: &mut Nodes, place: Place, local: u32) -> Result<u32, WantOfMemory>
    ensures value { IfOk result (λ at. names_of nodes.new at ≡ record { place = place; local = local } ∷ []) }
    ensures within { IfOk result (λ at. at < length nodes.new) }
    ensures grows { Grows nodes.old nodes.new }
{
    let before = nodes.push_names(NamesNode::Empty)?;
    nodes.push_names(NamesNode::More {
        before,
        place,
        local,
    })
}

// The value of a local that is a constant variable.
#[tactic(auto, using(jc_typed::proofs::Growing::growing))]
fn push_local_constant(
    alloc: Global,
    nodes: &mut Nodes,
    place: Place,
    local: u32,
    constant: &Constant,
) -> Result<ExprForm, WantOfMemory>
    ensures value { IfOk result (λ form. form_over (parts nodes.new) form ≡ Fixed NoOperands constant.now (record { place = place; local = local } ∷ []) []) }
    ensures below { IfOk result (λ form. BelowForm (length nodes.new) form) }
    ensures grows { Grows nodes.old nodes.new }
{
    let before = nodes.push_operands(ListNode::Empty)?;
    let named = push_one_name(nodes, place, local)?;
    push_constant(alloc, nodes, constant, before, named)
}

/// A local that is a constant variable (JLS 4.12.4).
#[tactic(auto, using(jc_typed::proofs::Growing::growing))]
pub fn known_local(
    alloc: Global,
    walk: &mut Walk,
    place: Place,
    local: &ScopedLocal,
    constant: &Constant,
) -> Result<u32, WantOfMemory>
    ensures state { OnOk result ((ran (fine (fixed place local.now.ty (record { value = constant.now; named = record { place = place; local = local.now.number } ∷ []; casts = [] }))) (now walk.old)).state ≡ now walk.new) }
    ensures value { IfOk result (λ at. (ran (fine (fixed place local.now.ty (record { value = constant.now; named = record { place = place; local = local.now.number } ∷ []; casts = [] }))) (now walk.old)).has ≡ has walk.new.nodes at) }
    ensures within { IfOk result (λ at. at < length walk.new.nodes) }
    ensures grows { Grows walk.old.nodes walk.new.nodes }
{
    let ty = push_copy(alloc, &mut walk.nodes, &local.ty)?;
    let form = push_local_constant(alloc, &mut walk.nodes, place, local.number, constant)?;
    uncaptured(walk, place, ty, form)
}
