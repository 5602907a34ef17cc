//! The check of what is claimed. It says yes only where the claims show which vertices lie on a cycle.
ghost use Rattle.std.specs.Prelude.{◌≡◌, IsTrue, length};
ghost use Rattle.jc_components.specs.Reach.{IsIn, row};
ghost use Rattle.jc_components.specs.Claims.{claim_of, LeadOn, LeadsOn, IsBeside, Closes, Onward, Back, Turns, Proper, AllProper};

use crate::claims::{Claim, UNCLAIMED};
use crate::searching::row;
use jc_rules::Items;

/// What is claimed of a vertex.
pub fn claim_at(claims: &[Claim], vertex: u64) -> Claim
    ensures { result ≡ claim_of claims.now vertex }
{
    match claims.get(vertex as usize) {
        Some(claim) => *claim,
        None => UNCLAIMED,
    }
}

fn is_in(vertex: u64, row: &[u64]) -> bool
    ensures { IsTrue result → IsIn vertex row.now }
{
    for member in row {
        if *member == vertex {
            return true;
        }
    }
    false
}

/// Whether an edge leads to a later part, or on inside a part that has a cycle.
fn leads_on(from: Claim, to: Claim) -> bool
    ensures { IsTrue result → LeadsOn from to }
{
    if from.part < to.part {
        return true;
    }
    from.part == to.part && from.is_cyclic
}

/// Whether the edges to these vertices lead on.
fn lead_on(claims: &[Claim], claim: Claim, row: &[u64]) -> bool
    ensures { IsTrue result → LeadOn claims.now claim row.now }
{
    for to in row {
        if !leads_on(claim, claim_at(claims, *to)) {
            return false;
        }
    }
    true
}

fn is_beside(claims: &[Claim], vertex: u64, root: u64) -> bool
    ensures { IsTrue result → IsBeside claims.now vertex root }
{
    let claim = claim_at(claims, vertex);
    claim.is_cyclic && claim.root == root
}

fn closes(rows: &[Items<u64>], claims: &[Claim], vertex: u64, claim: Claim) -> bool
    ensures { IsTrue result → Closes rows.now claims.now vertex claim }
{
    claim.root == vertex
        && is_in(claim.next, row(rows, vertex))
        && is_beside(claims, claim.next, vertex)
}

fn goes_onward(rows: &[Items<u64>], claims: &[Claim], vertex: u64, claim: Claim) -> bool
    ensures { IsTrue result → Onward rows.now claims.now vertex claim }
{
    is_in(claim.next, row(rows, vertex))
        && is_beside(claims, claim.next, claim.root)
        && claim_at(claims, claim.next).next_left < claim.next_left
}

fn comes_back(rows: &[Items<u64>], claims: &[Claim], vertex: u64, claim: Claim) -> bool
    ensures { IsTrue result → Back rows.now claims.now vertex claim }
{
    is_in(vertex, row(rows, claim.before))
        && is_beside(claims, claim.before, claim.root)
        && claim_at(claims, claim.before).before_left < claim.before_left
}

fn turns(rows: &[Items<u64>], claims: &[Claim], vertex: u64, claim: Claim) -> bool
    ensures { IsTrue result → Turns rows.now claims.now vertex claim }
{
    if closes(rows, claims, vertex, claim) {
        return true;
    }
    goes_onward(rows, claims, vertex, claim) && comes_back(rows, claims, vertex, claim)
}

fn is_proper(rows: &[Items<u64>], claims: &[Claim], vertex: u64) -> bool
    ensures { IsTrue result → Proper rows.now claims.now vertex }
{
    let claim = claim_at(claims, vertex);
    lead_on(claims, claim, row(rows, vertex))
        && (!claim.is_cyclic || turns(rows, claims, vertex, claim))
}

/// Whether the claims of all vertices are proper.
pub fn are_proper(rows: &[Items<u64>], claims: &[Claim]) -> bool
    ensures { IsTrue result → AllProper rows.now claims.now (length rows.now) }
{
    for vertex in 0..rows.len() {
        if !is_proper(rows, claims, vertex as u64) {
            return false;
        }
    }
    true
}
