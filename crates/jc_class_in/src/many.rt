//! Parts of a file of which many stand in a row.
ghost use Rattle.std.specs.Prelude.{◌≡◌, ℕ, List, Result};
ghost use Rattle.jc_class_out.specs.declared.format.Flaw.{Flaw};
ghost use Rattle.jc_class_out.specs.Reading.{many, listed};
ghost use Rattle.jc_class_in.specs.Gives.{Gives};

use crate::numbers::{Read, u2};
use jc_rules::Items;
use std::alloc::Global;

/// A part of a file, of which many may stand in a row.
pub trait Part {
    type Value: Drop;

    /// How the format reads it.
    ghost reads: { Self → List ℕ → Result (Self.Value × List ℕ) Flaw };

    fn read<'a>(&self, alloc: Global, bytes: &'a [u8]) -> Read<'a, Self::Value>
        ensures { Gives (λ x. (x.0, x.1.now)) result (reads self.now bytes.now) };
}

/// So many parts.
#[tactic(auto, unfolding(jc_class_out::specs::Reading::many), using(crate::proofs::Rows::many_more, crate::proofs::Rows::many_stops, crate::proofs::Rows::many_done))]
pub fn row<'a, P: Part>(
    alloc: Global,
    part: &P,
    count: u16,
    bytes: &'a [u8],
) -> Read<'a, Items<P::Value>>
    ensures { Gives (λ x. (x.0, x.1.now)) result (many (P.reads part.now) count bytes.now) }
{
    let mut list = Items::new(alloc);
    let mut rest = bytes;
    for _ in 0..count {
        let (next, after) = part.read(alloc, rest)?;
        list.push(next)?;
        rest = after;
    }
    Ok((list, rest))
}

/// How many parts there are, and the parts.
#[tactic(auto, unfolding(jc_class_out::specs::Reading::listed))]
pub fn counted_row<'a, P: Part>(
    alloc: Global,
    part: &P,
    bytes: &'a [u8],
) -> Read<'a, Items<P::Value>>
    ensures { Gives (λ x. (x.0, x.1.now)) result (listed (P.reads part.now) bytes.now) }
{
    let (count, rest) = u2(bytes)?;
    row(alloc, part, count, rest)
}
