//! Assignments over what earlier walks have of their parts, if it is there.
ghost use Rattle.std.specs.Prelude.{◌≡◌, ◌<◌, length, IfOk, OnOk};
ghost use Rattle.jc_typed.specs.Parts.{Grows};
ghost use Rattle.jc_exprs_nodes_spec.specs.Gates.{gated, gated_two};
ghost use Rattle.jc_exprs_nodes.specs.Walks.{has, now};
ghost use Rattle.jc_exprs_parts_spec.specs.Assigning.{changed, compound, stored};
ghost use Rattle.jc_exprs_targets.specs.Targets.{TargetBelow, has_target};

use crate::changing::{Change, changed};
use crate::compound::compound;
use crate::storing::stored;
use jc_exprs_nodes::{Walk, missing, part};
use jc_exprs_targets::TargetAt;
use jc_rules::WantOfMemory;
use jc_tree::BinaryOp;
use jc_types::Table;
use std::alloc::Global;

/// `v = e`.
pub fn stored_parts(
    alloc: Global,
    table: &Table,
    walk: &mut Walk,
    target: Option<TargetAt>,
    right: u32,
) -> Result<u32, WantOfMemory>
    requires target { TargetBelow (length walk.old.nodes) target }
    requires right { right < length walk.old.nodes }
    ensures state { OnOk result ((gated_two (stored table.now) (has_target walk.old.nodes target) (has walk.old.nodes right) (now walk.old)).state ≡ now walk.new) }
    ensures value { IfOk result (λ at. (gated_two (stored table.now) (has_target walk.old.nodes target) (has walk.old.nodes right) (now walk.old)).has ≡ has walk.new.nodes at) }
    ensures within { IfOk result (λ at. at < length walk.new.nodes) }
    ensures grows { Grows walk.old.nodes walk.new.nodes }
{
    let value = part(&walk.nodes, right);
    match target {
        None => missing(walk),
        Some(target) => match value {
            None => missing(walk),
            Some(value) => stored(alloc, table, walk, target, value),
        },
    }
}

/// `v op= e`.
pub fn compound_parts(
    alloc: Global,
    table: &Table,
    walk: &mut Walk,
    op: BinaryOp,
    target: Option<TargetAt>,
    right: u32,
) -> Result<u32, WantOfMemory>
    requires target { TargetBelow (length walk.old.nodes) target }
    requires right { right < length walk.old.nodes }
    ensures state { OnOk result ((gated_two (compound table.now op) (has_target walk.old.nodes target) (has walk.old.nodes right) (now walk.old)).state ≡ now walk.new) }
    ensures value { IfOk result (λ at. (gated_two (compound table.now op) (has_target walk.old.nodes target) (has walk.old.nodes right) (now walk.old)).has ≡ has walk.new.nodes at) }
    ensures within { IfOk result (λ at. at < length walk.new.nodes) }
    ensures grows { Grows walk.old.nodes walk.new.nodes }
{
    let value = part(&walk.nodes, right);
    match target {
        None => missing(walk),
        Some(target) => match value {
            None => missing(walk),
            Some(value) => compound(alloc, table, walk, op, target, value),
        },
    }
}

/// `++` and `--`.
pub fn changed_target(
    alloc: Global,
    table: &Table,
    walk: &mut Walk,
    change: Change,
    target: Option<TargetAt>,
) -> Result<u32, WantOfMemory>
    requires { TargetBelow (length walk.old.nodes) target }
    ensures state { OnOk result ((gated (changed table.now change.place change.op change.is_prefix) (has_target walk.old.nodes target) (now walk.old)).state ≡ now walk.new) }
    ensures value { IfOk result (λ at. (gated (changed table.now change.place change.op change.is_prefix) (has_target walk.old.nodes target) (now walk.old)).has ≡ has walk.new.nodes at) }
    ensures within { IfOk result (λ at. at < length walk.new.nodes) }
    ensures grows { Grows walk.old.nodes walk.new.nodes }
{
    match target {
        None => missing(walk),
        Some(target) => changed(alloc, table, walk, change, target),
    }
}
