//! How a walk goes through a chain, and what it has of one where the arena grows.
ghost use Rattle.jc_exprs_chains.specs.Chaining.{Finished, FirstJoined, FirstSigned, JoinedStays, JoinedStaysIn, JoinedStep, SignedStays, SignedStaysIn, SignedStep, SignsFinished, TestedStep};

/// What is joined so far stays what it is.
#[tactic(auto, using(crate::proofs::Staying::has_joined_kept))]
pub fn joined_stays()
    ensures { JoinedStays }
{}

/// .. and stands in the arena.
#[tactic(auto, using(crate::proofs::Staying::joined_in_within))]
pub fn joined_stays_in()
    ensures { JoinedStaysIn }
{}

/// Prefix operators so far stay what they are.
#[tactic(auto, using(crate::proofs::Staying::has_signed_kept))]
pub fn signed_stays()
    ensures { SignedStays }
{}

/// .. and stand in the arena.
#[tactic(auto, using(crate::proofs::Staying::signed_in_within))]
pub fn signed_stays_in()
    ensures { SignedStaysIn }
{}

/// The right operand of a step is asked behind what is joined so far, and the operator where both have typings.
#[tactic(auto, using(crate::proofs::Steps::joined_step))]
pub fn joined_step()
    ensures { JoinedStep }
{}

/// `instanceof` is asked behind what is joined so far.
#[tactic(auto, using(crate::proofs::Steps::tested_step))]
pub fn tested_step()
    ensures { TestedStep }
{}

/// A prefix operator is asked behind what it stands before.
#[tactic(auto, using(crate::proofs::Steps::signed_step))]
pub fn signed_step()
    ensures { SignedStep }
{}

/// A chain is its first operand at first.
#[tactic(auto, using(crate::proofs::Steps::first_joined))]
pub fn chain_begins()
    ensures { FirstJoined }
{}

/// A chain is one expression in the end.
#[tactic(auto, using(crate::proofs::Steps::finished))]
pub fn chain_ends()
    ensures { Finished }
{}

/// An operand has no prefix operators at first.
#[tactic(auto, using(crate::proofs::Steps::first_signed))]
pub fn signs_begin()
    ensures { FirstSigned }
{}

/// An operand with its prefix operators is one expression.
#[tactic(auto, using(crate::proofs::Steps::signs_finished))]
pub fn signs_end()
    ensures { SignsFinished }
{}
