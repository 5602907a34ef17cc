//! Labels of a `switch` (JLS 14.11).
ghost use Rattle.std.specs.Prelude.{◌≡◌, ◌<◌, ◌++◌, length, not, Some, IfOk, OnOk};
ghost use Rattle.jc_typed.specs.Parts.{Grows};
ghost use Rattle.jc_exprs_nodes_spec.specs.Gates.{gated};
ghost use Rattle.jc_exprs_nodes_spec.specs.Told.{fine, provided, ran, unless};
ghost use Rattle.jc_exprs_nodes.specs.Walks.{IsPart, as_breaks, has, known, now};
ghost use Rattle.jc_stmts_spec.specs.Courses.{is_key, is_number_twice, label_by, label_converts, label_of, number_of};
ghost use Rattle.jc_stmts_wants.specs.Wanting.{FixedBelow, KeyBelow, has_key, key_of, known_at, scope_of};

use crate::answers::{KeyAt, Scope};
use crate::constants::{FixedAt, constant, fixed};
use jc_convert::assignment;
use jc_exprs_nodes::{Judging, Part, Walk, note, part, refusal, unconverted};
use jc_rules::{Place, Refusal, WantOfMemory};
use jc_typed::Nodes;
use jc_types::{Constant, Table};
use std::alloc::Global;

/// Where a label stands: at a place, in the scope of its `switch`.
#[derive(Clone, Copy)]
pub struct Labelling<'a> {
    pub table: &'a Table,
    pub place: Place,
    pub scope: &'a Scope,
}

// Whether a constant is among those of the labels before it.
fn is_key(n: i64, keys: &[i64]) -> bool
    ensures { result ≡ is_key n keys.now }
{
    let mut rest = keys;
    while let [m, more @ ..] = rest {
        if n == *m {
            return true;
        }
        rest = more;
    }
    false
}

// The same of a constant of any type, of which a text is none.
fn is_number_twice(keys: &[i64], constant: &Constant) -> bool
    ensures { result ≡ is_number_twice keys.now constant.now }
{
    match constant {
        Constant::Whole { value, .. } => is_key(*value, keys),
        Constant::Text(_) => false,
    }
}

fn number_of(constant: &Constant) -> i64
    ensures { result ≡ number_of constant.now }
{
    match constant {
        Constant::Whole { value, .. } => *value,
        Constant::Text(_) => 0,
    }
}

// 614 at a constant that stands there twice.
fn twice(labelling: &Labelling, constant: &Constant) -> Option<Refusal>
    ensures { as_breaks result ≡ unless (not (is_number_twice (scope_of labelling.now.scope.now).keys constant.now)) 614 labelling.now.place }
{
    if is_number_twice(labelling.scope.keys.slice(), constant) {
        return Some(refusal(614, labelling.place));
    }
    None
}

// 607 at a constant that doesn't go to the selector's type by assignment.
fn label_converts(
    alloc: Global,
    nodes: &Nodes,
    judging: &Judging,
    labelling: &Labelling,
    part: Part,
) -> Result<Option<Refusal>, WantOfMemory>
    requires { IsPart nodes.now part }
    ensures { IfOk result (λ r. as_breaks r ≡ label_converts judging.now.table.now judging.now.env.now.bounds (known nodes.now part.at) (scope_of labelling.now.scope.now).selector) }
{
    match &labelling.scope.selector {
        None => Ok(None),
        Some(to) => {
            let from = nodes.ty(part.ty);
            let value = constant(nodes, part);
            let converts = assignment(alloc, judging.table, judging.env, from, value, to)?;
            Ok(unconverted(607, part.start, &converts))
        }
    }
}

// A label, where neither of these is broken.
#[tactic(auto, using(jc_typed::proofs::Growing::growing), unfolding(jc_exprs_nodes_spec::specs::Told::ran))]
fn key_unless(
    walk: &mut Walk,
    first: Option<Refusal>,
    second: Option<Refusal>,
    key: KeyAt,
) -> Option<KeyAt>
    requires { KeyBelow (length walk.old.nodes) (Some key) }
    ensures state { (ran (provided (as_breaks first ++ as_breaks second) (fine (key_of walk.old.nodes key))) (now walk.old)).state ≡ now walk.new }
    ensures value { (ran (provided (as_breaks first ++ as_breaks second) (fine (key_of walk.old.nodes key))) (now walk.old)).has ≡ has_key walk.new.nodes result }
    ensures below { KeyBelow (length walk.new.nodes) result }
    ensures nodes { walk.new.nodes ≡ walk.old.nodes }
{
    match (first, second) {
        (None, None) => Some(key),
        (Some(a), None) => {
            note(walk, a);
            None
        }
        (None, Some(b)) => {
            note(walk, b);
            None
        }
        (Some(a), Some(b)) => {
            note(walk, a);
            note(walk, b);
            None
        }
    }
}

// A label that is a constant.
#[tactic(auto, using(jc_typed::proofs::Growing::growing))]
fn label_by(
    alloc: Global,
    labelling: &Labelling,
    walk: &mut Walk,
    part: Part,
    fixed: FixedAt,
) -> Result<Option<KeyAt>, WantOfMemory>
    requires part { IsPart walk.old.nodes part }
    requires fixed { FixedBelow (length walk.old.nodes) (Some fixed) }
    ensures state { OnOk result ((ran (label_by labelling.now.table.now walk.old.env.bounds labelling.now.place (scope_of labelling.now.scope.now) (known walk.old.nodes part.at) (known_at walk.old.nodes (Some fixed))) (now walk.old)).state ≡ now walk.new) }
    ensures value { IfOk result (λ k. (ran (label_by labelling.now.table.now walk.old.env.bounds labelling.now.place (scope_of labelling.now.scope.now) (known walk.old.nodes part.at) (known_at walk.old.nodes (Some fixed))) (now walk.old)).has ≡ has_key walk.new.nodes k) }
    ensures below { IfOk result (λ k. KeyBelow (length walk.new.nodes) k) }
    ensures grows { Grows walk.old.nodes walk.new.nodes }
{
    let judging = Judging {
        table: labelling.table,
        env: &walk.env,
    };
    let first = label_converts(alloc, &walk.nodes, &judging, labelling, part)?;
    let value = walk.nodes.constant(fixed.value);
    let second = twice(labelling, value);
    let key = KeyAt {
        value: number_of(value),
        named: fixed.named,
    };
    Ok(key_unless(walk, first, second, key))
}

// A label: 614 at one that is no constant.
#[tactic(auto, using(jc_typed::proofs::Growing::growing), unfolding(jc_exprs_nodes_spec::specs::Told::ran))]
fn label_of(
    alloc: Global,
    labelling: &Labelling,
    walk: &mut Walk,
    part: Part,
) -> Result<Option<KeyAt>, WantOfMemory>
    requires { IsPart walk.old.nodes part }
    ensures state { OnOk result ((ran (label_of labelling.now.table.now labelling.now.place (scope_of labelling.now.scope.now) (known walk.old.nodes part.at)) (now walk.old)).state ≡ now walk.new) }
    ensures value { IfOk result (λ k. (ran (label_of labelling.now.table.now labelling.now.place (scope_of labelling.now.scope.now) (known walk.old.nodes part.at)) (now walk.old)).has ≡ has_key walk.new.nodes k) }
    ensures below { IfOk result (λ k. KeyBelow (length walk.new.nodes) k) }
    ensures grows { Grows walk.old.nodes walk.new.nodes }
{
    match fixed(&walk.nodes, part) {
        None => {
            note(walk, refusal(614, labelling.place));
            Ok(None)
        }
        Some(of) => label_by(alloc, labelling, walk, part, of),
    }
}

/// A label of a `switch`, where the walk has a typing of it: 614 at one that is no constant or stands there twice, 607 at one that doesn't go to the selector's type by assignment.
pub fn label(
    alloc: Global,
    labelling: &Labelling,
    walk: &mut Walk,
    at: u32,
) -> Result<Option<KeyAt>, WantOfMemory>
    requires { at < length walk.old.nodes }
    ensures state { OnOk result ((gated (label_of labelling.now.table.now labelling.now.place (scope_of labelling.now.scope.now)) (has walk.old.nodes at) (now walk.old)).state ≡ now walk.new) }
    ensures value { IfOk result (λ k. (gated (label_of labelling.now.table.now labelling.now.place (scope_of labelling.now.scope.now)) (has walk.old.nodes at) (now walk.old)).has ≡ has_key walk.new.nodes k) }
    ensures below { IfOk result (λ k. KeyBelow (length walk.new.nodes) k) }
    ensures grows { Grows walk.old.nodes walk.new.nodes }
{
    match part(&walk.nodes, at) {
        None => Ok(None),
        Some(part) => label_of(alloc, labelling, walk, part),
    }
}
