//! What is asked of a typed expression whatever its form.
ghost use Rattle.std.specs.Prelude.{◌≡◌, ◌<◌, length, IfOk, OnOk};
ghost use Rattle.jc_typed.specs.Parts.{Grows};
ghost use Rattle.jc_exprs_nodes_spec.specs.Gates.{gated};
ghost use Rattle.jc_exprs_nodes_spec.specs.Told.{ran};
ghost use Rattle.jc_exprs_nodes_spec.specs.Typeds.{is_void, type_of as counted_type};
ghost use Rattle.jc_exprs_spec.specs.Typing.{restarted, with_value};
ghost use Rattle.jc_exprs_nodes.specs.Walks.{IsPart, has, known, now};

use jc_exprs_nodes::{Part, Walk, broken, inside, part, stepped};
use jc_rules::{Place, WantOfMemory};
use jc_typed::{ExprForm, Nodes};
use jc_types::{Table, method_result};

// The same expression, converted from another token on.
#[tactic(auto, using(jc_typed::proofs::Growing::growing, jc_exprs_nodes_spec::proofs::Runs::runs), unfolding(jc_exprs_nodes::specs::Walks::typed_in))]
fn begun_at(walk: &mut Walk, part: Part, place: Place) -> Result<u32, WantOfMemory>
    requires { IsPart walk.old.nodes part }
    ensures state { OnOk result ((ran (restarted place (known walk.old.nodes part.at)) (now walk.old)).state ≡ now walk.new) }
    ensures value { IfOk result (λ at. (ran (restarted place (known walk.old.nodes part.at)) (now walk.old)).has ≡ has walk.new.nodes at) }
    ensures within { IfOk result (λ at. at < length walk.new.nodes) }
    ensures grows { Grows walk.old.nodes walk.new.nodes }
{
    let part = Part {
        start: place,
        ..part
    };
    stepped(&mut walk.nodes, part, part.lead)
}

/// An expression in parentheses, the first of which stands at a place: where it is converted, it begins with them.
#[tactic(auto, using(jc_typed::proofs::Growing::growing))]
pub fn restarted(walk: &mut Walk, at: u32, place: Place) -> Result<u32, WantOfMemory>
    requires { at < length walk.old.nodes }
    ensures state { OnOk result ((gated (restarted place) (has walk.old.nodes at) (now walk.old)).state ≡ now walk.new) }
    ensures value { IfOk result (λ r. (gated (restarted place) (has walk.old.nodes at) (now walk.old)).has ≡ has walk.new.nodes r) }
    ensures within { IfOk result (λ r. r < length walk.new.nodes) }
    ensures grows { Grows walk.old.nodes walk.new.nodes }
{
    match part(&walk.nodes, at) {
        None => Ok(at),
        Some(part) => begun_at(walk, part, place),
    }
}

// A call of a method without a result.
fn is_void(table: &Table, nodes: &Nodes, part: Part) -> bool
    requires { IsPart nodes.now part }
    ensures { result ≡ is_void table.now (known nodes.now part.at) }
{
    match inside(nodes, part).form {
        ExprForm::Call { method, .. } => method_result(table, method).is_none(),
        _ => false,
    }
}

/// A call whose value is used: 609 at one of a method without a result.
#[tactic(auto, using(jc_typed::proofs::Growing::growing, jc_exprs_nodes_spec::proofs::Runs::runs), unfolding(jc_exprs_nodes_spec::specs::Told::ran))]
pub fn with_value(table: &Table, walk: &mut Walk, at: u32) -> Result<u32, WantOfMemory>
    requires { at < length walk.old.nodes }
    ensures state { OnOk result ((gated (with_value table.now) (has walk.old.nodes at) (now walk.old)).state ≡ now walk.new) }
    ensures value { IfOk result (λ r. (gated (with_value table.now) (has walk.old.nodes at) (now walk.old)).has ≡ has walk.new.nodes r) }
    ensures within { IfOk result (λ r. r < length walk.new.nodes) }
    ensures grows { Grows walk.old.nodes walk.new.nodes }
{
    let Some(part) = part(&walk.nodes, at) else {
        return Ok(at);
    };
    if is_void(table, &walk.nodes, part) {
        return broken(walk, 609, part.place);
    }
    Ok(at)
}
