//! Variables that are assigned stay what they are where the arena grows.
ghost use Rattle.jc_exprs_targets.specs.Targets.{TargetStays, TargetStaysBelow};

/// What an assigned variable is stays, and that there is one.
#[tactic(auto, using(crate::proofs::Staying::target_kept))]
pub fn target_stays()
    ensures { TargetStays }
{}

/// Its places stay within the arena.
#[tactic(auto, using(crate::proofs::Staying::target_within))]
pub fn target_stays_below()
    ensures { TargetStaysBelow }
{}
