//! Premises that are asked together.
ghost use Rattle.std.specs.Prelude.{◌≡◌, ◌&&◌, ◌++◌, None, true, false, is_none};
ghost use Rattle.jc_types.specs.Breaks.{least};
ghost use Rattle.jc_exprs_nodes_spec.specs.Gates.{stopped};
ghost use Rattle.jc_exprs_nodes_spec.specs.Told.{Run, provided, ran, standing};
ghost use Rattle.jc_exprs_nodes.specs.Walks.{as_breaks, now};
ghost use Rattle.jc_exprs_parts_spec.specs.Names.{Located};

use crate::located::LocatedAt;
use jc_exprs_nodes::{Walk, note};
use jc_rules::Refusal;

/// Whether two premises hold.
pub fn both_hold(first: &Option<Refusal>, second: &Option<Refusal>) -> bool
    ensures value { result ≡ (is_none first.now && is_none second.now) }
    ensures first { result ≡ true → first.now ≡ None }
    ensures second { result ≡ true → second.now ≡ None }
{
    first.is_none() && second.is_none()
}

// The walk keeps the least break.
fn note_some(walk: &mut Walk, break_of: Option<Refusal>)
    ensures state { standing walk.old.env.bounds (least walk.old.found (as_breaks break_of)) ≡ now walk.new }
    ensures nodes { walk.new.nodes ≡ walk.old.nodes }
{
    if let Some(break_of) = break_of {
        note(walk, break_of);
    }
}

#[tactic(auto, using(crate::proofs::Gating::both_noted))]
fn note_both(walk: &mut Walk, first: Option<Refusal>, second: Option<Refusal>)
    ensures state { standing walk.old.env.bounds (least walk.old.found (as_breaks first ++ as_breaks second)) ≡ now walk.new }
    ensures nodes { walk.new.nodes ≡ walk.old.nodes }
{
    note_some(walk, first);
    note_some(walk, second);
}

/// Nothing is found where two premises don't both hold.
pub fn refused_both<'a>(
    walk: &mut Walk,
    first: Option<Refusal>,
    second: Option<Refusal>,
) -> Option<LocatedAt<'a>>
    ensures stops { (m : Run Located) → (is_none first && is_none second) ≡ false → ran (provided (as_breaks first ++ as_breaks second) m) (now walk.old) ≡ stopped (now walk.new) }
    ensures none { result ≡ None }
    ensures nodes { walk.new.nodes ≡ walk.old.nodes }
{
    note_both(walk, first, second);
    None
}
