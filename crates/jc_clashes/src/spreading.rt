//! The erasures of what a method overrides or hides, directly or indirectly: each method takes over those of what it overrides or hides directly,
//! again and again, until none has any to take over.
ghost use Rattle.std.specs.Prelude.{◌≡◌, IfOk};
ghost use Rattle.jc_clashes.specs.Spreading.{are_as_many, gathered, spread, widened};

use crate::erasures::{Erasures, copied, joined};
use jc_rules::{Items, WantOfMemory};
use jc_types::Ty;
use std::alloc::Global;

// These erasures, and those of each method that is marked.
fn gathered(
    alloc: Global,
    below: &[bool],
    sets: &[Erasures],
    own: &[Items<Ty>],
) -> Result<Erasures, WantOfMemory>
    ensures { IfOk result (λ r. r ≡ gathered below.now sets.now own.now) }
{
    let mut out = copied(alloc, own)?;
    let mut rest = below;
    let mut left = sets;
    while let [mark, more @ ..] = rest {
        match left {
            [] => return Ok(out),
            [set, others @ ..] => {
                if *mark {
                    out = joined(alloc, out, set.slice())?;
                }
                left = others;
            }
        }
        rest = more;
    }
    Ok(out)
}

// The erasures of each method, and of those that it overrides or hides.
fn widened(
    alloc: Global,
    belows: &[Items<bool>],
    sets: &[Erasures],
) -> Result<Items<Erasures>, WantOfMemory>
    ensures { IfOk result (λ r. r ≡ widened belows.now sets.now sets.now) }
{
    let mut out = Items::new(alloc);
    let mut rest = belows;
    let mut left = sets;
    while let [below, more @ ..] = rest {
        match left {
            [] => return Ok(out),
            [set, others @ ..] => {
                out.push(gathered(alloc, below.slice(), sets, set.slice())?)?;
                left = others;
            }
        }
        rest = more;
    }
    Ok(out)
}

fn are_as_many(sets: &[Erasures], next: &[Erasures]) -> bool
    ensures { result ≡ are_as_many sets.now next.now }
{
    let mut rest = sets;
    let mut left = next;
    while let [set, more @ ..] = rest {
        match left {
            [] => return false,
            [other, others @ ..] => {
                if set.len() != other.len() {
                    return false;
                }
                left = others;
            }
        }
        rest = more;
    }
    left.is_empty()
}

/// The erasures of each method, and of those that it reaches in so many steps. `belows` has marks for what each overrides or hides.
pub fn spread(
    alloc: Global,
    belows: &[Items<bool>],
    own: Items<Erasures>,
    steps: usize,
) -> Result<Items<Erasures>, WantOfMemory>
    ensures { IfOk result (λ r. r ≡ spread belows.now steps own) }
{
    let mut sets = own;
    for step in 0..steps {
        let next = widened(alloc, belows, sets.slice())?;
        if are_as_many(sets.slice(), next.slice()) {
            return Ok(sets);
        }
        sets = next;
    }
    Ok(sets)
}
