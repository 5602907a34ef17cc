//! Prefix operators, the innermost first (JLS 15.15).
ghost use Rattle.std.specs.Prelude.{◌<◌, ◌≡◌, IfOk, length, OnOk, true};
ghost use Rattle.jc_members.specs.Named.{IsMethodIndex};
ghost use Rattle.jc_typed.specs.Parts.{Grows};
ghost use Rattle.jc_exprs_nodes_spec.specs.Told.{by_rule, fine, onward, ran};
ghost use Rattle.jc_exprs_nodes_spec.specs.Gates.{gated};
ghost use Rattle.jc_exprs_nodes.specs.Walks.{has, now};
ghost use Rattle.jc_exprs_worlds.specs.Scenes.{IsWorldly, world_of};
ghost use Rattle.jc_exprs_forms.specs.Forms.{negated, prefixing, targeted};
ghost use Rattle.jc_exprs_forms.specs.Walking.{op_at, signed_by};
ghost use Rattle.jc_exprs_parts_spec.specs.Chains.{signed, Signed, signing, Unsigned};
ghost use Rattle.jc_exprs_parts_spec.specs.Worlds.{at};
ghost use Rattle.jc_exprs_chains.specs.Chaining.{as_unsigned, has_signed, SignedIn};
ghost use Rattle.jc_exprs_parts_spec.specs.Assigning.{changed};
ghost use Rattle.jc_exprs.specs.Signing.{last_signs, signed_walk};

use crate::typing::typed;
use crate::variables::targeted;
use jc_exprs_assigning::{Change, changed_target};
use jc_exprs_calls::Methods;
use jc_exprs_chains::{SignedAt, first_signed, no_variable, signed_more, signs_finished};
use jc_exprs_nodes::Walk;
use jc_exprs_starts::negated_literal;
use jc_exprs_worlds::{Scene, at};
use jc_rules::{Place, WantOfMemory};
use jc_tree::{Expr, PrefixOp, PrefixSign};
use jc_types::{Op, Table};
use std::alloc::Global;

// The operand of a minus, which allows the greatest literal.
#[cycle(expressions)]
#[tactic(auto, using(jc_typed::proofs::Growing::growing, jc_exprs_nodes_spec::proofs::Runs::runs, jc_exprs_nodes::proofs::Staying::staying, jc_exprs_forms::proofs::ByForms::by_negated))]
fn negated(alloc: Global, methods: &Methods, walk: &mut Walk, e: &Expr) -> Result<u32, WantOfMemory>
    requires index { IsMethodIndex methods.now.scene.now.table.now methods.now.index.now }
    requires scene { IsWorldly methods.now.scene.now }
    ensures state { OnOk result ((ran (negated (world_of methods.now.scene.now) e.now) (now walk.old)).state ≡ now walk.new) }
    ensures value { IfOk result (λ at. (ran (negated (world_of methods.now.scene.now) e.now) (now walk.old)).has ≡ has walk.new.nodes at) }
    ensures within { IfOk result (λ at. at < length walk.new.nodes) }
    ensures grows { Grows walk.old.nodes walk.new.nodes }
{
    let scene = methods.scene;
    match e {
        Expr::Literal { at: n, value } => negated_literal(alloc, scene, walk, at(scene, *n), value),
        _ => typed(alloc, methods, walk, None, e),
    }
}

// The first of prefix operators, at its operand.
fn first_sign(
    alloc: Global,
    table: &Table,
    walk: &mut Walk,
    place: Place,
    op: Op,
    operand: u32,
) -> Result<Option<SignedAt>, WantOfMemory>
    requires { operand < length walk.old.nodes }
    ensures state { OnOk result ((gated (signing table.now place op) (as_unsigned (has walk.old.nodes operand)) (now walk.old)).state ≡ now walk.new) }
    ensures value { IfOk result (λ s. (gated (signing table.now place op) (as_unsigned (has walk.old.nodes operand)) (now walk.old)).has ≡ has_signed walk.new.nodes s) }
    ensures signed { IfOk result (λ s. SignedIn walk.new.nodes s) }
    ensures grows { Grows walk.old.nodes walk.new.nodes }
{
    let operand = first_signed(&walk.nodes, operand);
    signed_more(alloc, table, walk, place, op, operand)
}

// `++` or `--` before a variable.
#[cycle(expressions)]
#[tactic(auto, using(jc_typed::proofs::Growing::growing, jc_exprs_nodes_spec::proofs::Runs::runs, jc_exprs_nodes::proofs::Staying::staying, crate::proofs::Prefixes::signs, jc_exprs_worlds::proofs::Told::worlds))]
fn incremented(
    alloc: Global,
    methods: &Methods,
    walk: &mut Walk,
    variable: &Expr,
    place: Place,
    op: Op,
) -> Result<Option<SignedAt>, WantOfMemory>
    requires index { IsMethodIndex methods.now.scene.now.table.now methods.now.index.now }
    requires scene { IsWorldly methods.now.scene.now }
    ensures state { OnOk result ((ran (onward (onward (targeted (world_of methods.now.scene.now) variable.now) (changed (world_of methods.now.scene.now).table place op true)) (λ t. fine (Unsigned t))) (now walk.old)).state ≡ now walk.new) }
    ensures value { IfOk result (λ s. (ran (onward (onward (targeted (world_of methods.now.scene.now) variable.now) (changed (world_of methods.now.scene.now).table place op true)) (λ t. fine (Unsigned t))) (now walk.old)).has ≡ has_signed walk.new.nodes s) }
    ensures signed { IfOk result (λ s. SignedIn walk.new.nodes s) }
    ensures grows { Grows walk.old.nodes walk.new.nodes }
{
    let target = targeted(alloc, methods, walk, variable)?;
    let change = Change {
        place,
        op,
        is_prefix: true,
    };
    let at = changed_target(alloc, methods.scene.table, walk, change, target)?;
    Ok(first_signed(&walk.nodes, at))
}

// The last prefix operator, which stands at the operand.
#[cycle(expressions)]
#[tactic(auto, using(jc_typed::proofs::Growing::growing, jc_exprs_nodes_spec::proofs::Runs::runs, jc_exprs_nodes::proofs::Staying::staying, crate::proofs::Prefixes::signs, jc_exprs_worlds::proofs::Told::worlds), unfolding(crate::specs::Signing::last_signs))]
fn signed_innermost(
    alloc: Global,
    methods: &Methods,
    walk: &mut Walk,
    e: &Expr,
    op: PrefixOp,
) -> Result<Option<SignedAt>, WantOfMemory>
    requires index { IsMethodIndex methods.now.scene.now.table.now methods.now.index.now }
    requires scene { IsWorldly methods.now.scene.now }
    ensures state { OnOk result ((ran (last_signs (world_of methods.now.scene.now) op e.now) (now walk.old)).state ≡ now walk.new) }
    ensures value { IfOk result (λ s. (ran (last_signs (world_of methods.now.scene.now) op e.now) (now walk.old)).has ≡ has_signed walk.new.nodes s) }
    ensures signed { IfOk result (λ s. SignedIn walk.new.nodes s) }
    ensures grows { Grows walk.old.nodes walk.new.nodes }
{
    let table = methods.scene.table;
    let place = at(methods.scene, op.at);
    match op.sign {
        PrefixSign::Increment => incremented(alloc, methods, walk, e, place, Op::Increment),
        PrefixSign::Decrement => incremented(alloc, methods, walk, e, place, Op::Decrement),
        PrefixSign::Plus => {
            let operand = typed(alloc, methods, walk, None, e)?;
            first_sign(alloc, table, walk, place, Op::Positive, operand)
        }
        PrefixSign::Minus => {
            let operand = negated(alloc, methods, walk, e)?;
            first_sign(alloc, table, walk, place, Op::Negative, operand)
        }
        PrefixSign::Not => {
            let operand = typed(alloc, methods, walk, None, e)?;
            first_sign(alloc, table, walk, place, Op::Not, operand)
        }
        PrefixSign::Complement => {
            let operand = typed(alloc, methods, walk, None, e)?;
            first_sign(alloc, table, walk, place, Op::Complement, operand)
        }
    }
}

// `++` or `--` before what has a prefix operator, which is no variable (610).
#[tactic(auto, unfolding(jc_exprs_nodes_spec::specs::Told::ran))]
fn increments_nothing(walk: &mut Walk, before: &Option<SignedAt>) -> Option<SignedAt>
    requires { SignedIn walk.old.nodes before.now }
    ensures state { (gated (λ s. by_rule {A = Signed} 610 (signed s).place) (has_signed walk.old.nodes before.now) (now walk.old)).state ≡ now walk.new }
    ensures value { (gated (λ s. by_rule {A = Signed} 610 (signed s).place) (has_signed walk.old.nodes before.now) (now walk.old)).has ≡ has_signed walk.new.nodes result }
    ensures signed { SignedIn walk.new.nodes result }
    ensures nodes { walk.new.nodes ≡ walk.old.nodes }
{
    no_variable(walk, before);
    None
}

// A prefix operator before others.
#[tactic(auto, using(jc_typed::proofs::Growing::growing, jc_exprs_worlds::proofs::Told::worlds))]
fn signed_before(
    alloc: Global,
    scene: &Scene,
    walk: &mut Walk,
    op: PrefixOp,
    before: Option<SignedAt>,
) -> Result<Option<SignedAt>, WantOfMemory>
    requires { SignedIn walk.old.nodes before }
    ensures state { OnOk result ((signed_by (world_of scene.now) (at (world_of scene.now) op.at) op.sign (record { state = now walk.old; has = has_signed walk.old.nodes before })).state ≡ now walk.new) }
    ensures value { IfOk result (λ s. (signed_by (world_of scene.now) (at (world_of scene.now) op.at) op.sign (record { state = now walk.old; has = has_signed walk.old.nodes before })).has ≡ has_signed walk.new.nodes s) }
    ensures signed { IfOk result (λ s. SignedIn walk.new.nodes s) }
    ensures grows { Grows walk.old.nodes walk.new.nodes }
{
    let table = scene.table;
    let place = at(scene, op.at);
    match op.sign {
        PrefixSign::Increment => Ok(increments_nothing(walk, &before)),
        PrefixSign::Decrement => Ok(increments_nothing(walk, &before)),
        PrefixSign::Plus => signed_more(alloc, table, walk, place, Op::Positive, before),
        PrefixSign::Minus => signed_more(alloc, table, walk, place, Op::Negative, before),
        PrefixSign::Not => signed_more(alloc, table, walk, place, Op::Not, before),
        PrefixSign::Complement => signed_more(alloc, table, walk, place, Op::Complement, before),
    }
}

// The operator at a place, counted from the first.
fn operator_at(first: PrefixOp, more: &[PrefixOp], i: usize) -> PrefixOp
    ensures { result ≡ op_at first more.now i }
{
    if i == 0 {
        return first;
    }
    match more.get(i - 1) {
        None => first,
        Some(op) => *op,
    }
}

// The operators before the last one, from that on, around what they have at first.
#[tactic(auto, using(jc_typed::proofs::Growing::growing))]
fn signed_all(
    alloc: Global,
    scene: &Scene,
    walk: &mut Walk,
    first: PrefixOp,
    more: &[PrefixOp],
    innermost: Option<SignedAt>,
) -> Result<Option<SignedAt>, WantOfMemory>
    requires { SignedIn walk.old.nodes innermost }
    ensures state { OnOk result ((signed_walk (world_of scene.now) first more.now (length more.now) (record { state = now walk.old; has = has_signed walk.old.nodes innermost })).state ≡ now walk.new) }
    ensures value { IfOk result (λ s. (signed_walk (world_of scene.now) first more.now (length more.now) (record { state = now walk.old; has = has_signed walk.old.nodes innermost })).has ≡ has_signed walk.new.nodes s) }
    ensures signed { IfOk result (λ s. SignedIn walk.new.nodes s) }
    ensures grows { Grows walk.old.nodes walk.new.nodes }
{
    let mut signs = innermost;
    let mut i = more.len();
    while i > 0 {
        i -= 1;
        signs = signed_before(alloc, scene, walk, operator_at(first, more, i), signs)?;
    }
    Ok(signs)
}

/// An operand with its prefix operators.
#[cycle(expressions)]
#[tactic(auto, using(jc_typed::proofs::Growing::growing, jc_exprs_nodes_spec::proofs::Runs::runs, jc_exprs_nodes::proofs::Staying::staying))]
pub fn prefixed(
    alloc: Global,
    methods: &Methods,
    walk: &mut Walk,
    operand: &Expr,
    first: PrefixOp,
    more: &[PrefixOp],
) -> Result<u32, WantOfMemory>
    requires index { IsMethodIndex methods.now.scene.now.table.now methods.now.index.now }
    requires scene { IsWorldly methods.now.scene.now }
    ensures state { OnOk result ((ran (onward (prefixing (world_of methods.now.scene.now) first more.now operand.now).signs (λ s. fine (signed s))) (now walk.old)).state ≡ now walk.new) }
    ensures value { IfOk result (λ at. (ran (onward (prefixing (world_of methods.now.scene.now) first more.now operand.now).signs (λ s. fine (signed s))) (now walk.old)).has ≡ has walk.new.nodes at) }
    ensures within { IfOk result (λ at. at < length walk.new.nodes) }
    ensures grows { Grows walk.old.nodes walk.new.nodes }
{
    let last = operator_at(first, more, more.len());
    let innermost = signed_innermost(alloc, methods, walk, operand, last)?;
    let signs = signed_all(alloc, methods.scene, walk, first, more, innermost)?;
    signs_finished(&mut walk.nodes, signs)
}
