//! Of each vertex of a graph whether it lies on a cycle.
ghost use Rattle.std.specs.Prelude.{◌<◌, IfOk, length};
ghost use Rattle.jc_components.specs.Reach.{IsClosed};
ghost use Rattle.jc_components.specs.Marks.{AreReached};
ghost use Rattle.jc_components.specs.Claims.{AllProper};

use crate::checking::{are_proper, claim_at};
use crate::claiming::claims;
use crate::claims::Claim;
use crate::searching::is_cyclic;
use jc_rules::{Items, WantOfMemory};
use std::alloc::Global;

/// The marks of the vertices by what is claimed of them.
fn claimed(
    alloc: Global,
    rows: &[Items<u64>],
    claims: &[Claim],
) -> Result<Items<bool>, WantOfMemory>
    requires closed { IsClosed rows.now }
    requires proper { AllProper rows.now claims.now (length rows.now) }
    ensures { IfOk result (λ it. AreReached rows.now it (length rows.now)) }
{
    let mut marks = Items::new(alloc);
    for vertex in 0..rows.len() {
        marks.push(claim_at(claims, vertex as u64).is_cyclic)?;
    }
    Ok(marks)
}

/// The marks of the vertices by a search from each of them.
fn searched(alloc: Global, rows: &[Items<u64>]) -> Result<Items<bool>, WantOfMemory>
    requires { IsClosed rows.now }
    ensures { IfOk result (λ it. AreReached rows.now it (length rows.now)) }
{
    let mut marks = Items::new(alloc);
    for vertex in 0..rows.len() {
        marks.push(is_cyclic(alloc, rows, vertex as u64)?)?;
    }
    Ok(marks)
}

/// Of each vertex of a graph whether it lies on a cycle: whether a way of one edge or more leads from it to itself. Row a has the
/// vertices to which there is an edge from a. Takes time linear in the vertices and edges.
pub fn on_cycles(alloc: Global, rows: &[Items<u64>]) -> Result<Items<bool>, WantOfMemory>
    requires { IsClosed rows.now }
    ensures { IfOk result (λ it. AreReached rows.now it (length rows.now)) }
{
    let claims = claims(alloc, rows)?;
    if are_proper(rows, claims.as_slice()) {
        return claimed(alloc, rows, claims.as_slice());
    }
    searched(alloc, rows)
}
