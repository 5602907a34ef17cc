//! Constants in the arena.
ghost use Rattle.std.specs.Prelude.{◌≡◌, ◌<◌, [], length, IfOk, OnOk};
ghost use Rattle.jc_typed.specs.Parts.{BelowForm, Grows, form_over, parts};
ghost use Rattle.jc_typed.specs.Trees.{Fixed, NoOperands};
ghost use Rattle.jc_exprs_nodes_spec.specs.Told.{fine, ran};
ghost use Rattle.jc_exprs_nodes_spec.specs.Typeds.{node};
ghost use Rattle.jc_exprs_nodes.specs.Walks.{has, now};

use jc_exprs_nodes::{Walk, uncaptured};
use jc_rules::{Place, WantOfMemory};
use jc_typed::{ExprForm, ListNode, NamesNode, Nodes, PlacesNode};
use jc_types::{Constant, Ty};

// The form of a constant that names no local and has no cast.
#[tactic(auto, using(jc_typed::proofs::Growing::growing))]
fn push_constant_form(nodes: &mut Nodes, constant: Constant) -> Result<ExprForm, WantOfMemory>
    ensures value { IfOk result (λ f. form_over (parts nodes.new) f ≡ Fixed NoOperands constant [] []) }
    ensures below { IfOk result (λ f. BelowForm (length nodes.new) f) }
    ensures grows { Grows nodes.old nodes.new }
{
    let before = nodes.push_operands(ListNode::Empty)?;
    let named = nodes.push_names(NamesNode::Empty)?;
    let casts = nodes.push_places(PlacesNode::Empty)?;
    let value = nodes.push_constant(constant)?;
    Ok(ExprForm::Constant {
        before,
        value,
        named,
        casts,
    })
}

/// A constant of a type, that names no local and has no cast.
#[tactic(auto, using(jc_typed::proofs::Growing::growing))]
pub fn push_fixed(
    walk: &mut Walk,
    place: Place,
    ty: Ty,
    constant: Constant,
) -> Result<u32, WantOfMemory>
    ensures state { OnOk result ((ran (fine (node place ty (Fixed NoOperands constant [] []))) (now walk.old)).state ≡ now walk.new) }
    ensures value { IfOk result (λ at. (ran (fine (node place ty (Fixed NoOperands constant [] []))) (now walk.old)).has ≡ has walk.new.nodes at) }
    ensures within { IfOk result (λ at. at < length walk.new.nodes) }
    ensures grows { Grows walk.old.nodes walk.new.nodes }
{
    let ty = walk.nodes.push_type(ty)?;
    let form = push_constant_form(&mut walk.nodes, constant)?;
    uncaptured(walk, place, ty, form)
}
