//! The values of constant expressions in an arena.
ghost use Rattle.std.specs.Prelude.{◌≡◌, ◌<◌, length, Some, IfOk, OnOk};
ghost use Rattle.std.specs.Option.{option_copied};
ghost use Rattle.jc_typed.specs.Parts.{Grows, operands_of, type_of};
ghost use Rattle.jc_exprs_nodes_spec.specs.Told.{fine, ran};
ghost use Rattle.jc_exprs_nodes_spec.specs.Typeds.{constant_of, fixed, known_of};
ghost use Rattle.jc_exprs_nodes.specs.Walks.{IsPart, has, known, now};
ghost use Rattle.jc_exprs_constants.specs.Knowing.{KnownBelow, has_known, if_unnamed, known_at};

use jc_exprs_nodes::{Part, Walk, inside, uncaptured};
use jc_rules::{Place, WantOfMemory};
use jc_typed::{ExprForm, ListNode, Nodes};
use jc_types::Constant;

/// A constant, the locals that its expression names, and the places of its casts to String, by their places in the arena.
#[derive(Clone, Copy, Debug)]
pub struct KnownAt {
    pub value: u32,
    pub named: u32,
    pub casts: u32,
}

// A constant that is named through an operand is none.
fn if_unnamed(nodes: &Nodes, before: u32, known: KnownAt) -> Option<KnownAt>
    requires before { before < length nodes.now }
    requires known { KnownBelow (length nodes.now) (Some known) }
    ensures value { if_unnamed (operands_of nodes.now before) (known_at nodes.now known) ≡ has_known nodes.now result }
    ensures below { KnownBelow (length nodes.now) result }
{
    match nodes.operands(before) {
        ListNode::Empty => Some(known),
        ListNode::More { .. } => None,
    }
}

/// The constant that a typed part is, if it is one.
pub fn known_part(nodes: &Nodes, part: Part) -> Option<KnownAt>
    requires { IsPart nodes.now part }
    ensures value { known_of (known nodes.now part.at) ≡ has_known nodes.now result }
    ensures below { KnownBelow (length nodes.now) result }
{
    match inside(nodes, part).form {
        ExprForm::Constant {
            before,
            value,
            named,
            casts,
        } => if_unnamed(
            nodes,
            before,
            KnownAt {
                value,
                named,
                casts,
            },
        ),
        _ => None,
    }
}

/// The value of a typed part that is a constant expression.
pub fn constant_part<'a>(nodes: &'a Nodes, part: Part) -> Option<&'a Constant>
    requires { IsPart nodes.now part }
    ensures { constant_of (known nodes.now part.at) ≡ option_copied result }
{
    match known_part(nodes, part) {
        None => None,
        Some(known) => Some(nodes.constant(known.value)),
    }
}

/// A constant expression.
#[tactic(auto, using(jc_typed::proofs::Growing::growing))]
pub fn fixed(walk: &mut Walk, place: Place, ty: u32, known: KnownAt) -> Result<u32, WantOfMemory>
    requires ty { ty < length walk.old.nodes }
    requires known { KnownBelow (length walk.old.nodes) (Some known) }
    ensures state { OnOk result ((ran (fine (fixed place (type_of walk.old.nodes ty) (known_at walk.old.nodes known))) (now walk.old)).state ≡ now walk.new) }
    ensures value { IfOk result (λ at. (ran (fine (fixed place (type_of walk.old.nodes ty) (known_at walk.old.nodes known))) (now walk.old)).has ≡ has walk.new.nodes at) }
    ensures within { IfOk result (λ at. at < length walk.new.nodes) }
    ensures grows { Grows walk.old.nodes walk.new.nodes }
{
    let before = walk.nodes.push_operands(ListNode::Empty)?;
    let form = ExprForm::Constant {
        before,
        value: known.value,
        named: known.named,
        casts: known.casts,
    };
    uncaptured(walk, place, ty, form)
}
