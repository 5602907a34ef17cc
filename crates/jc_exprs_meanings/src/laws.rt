//! What stands before a point stays what it is where the arena grows.
ghost use Rattle.jc_exprs_meanings.specs.Meant.{MeaningStays, MeaningStaysBelow};

/// What something means stays.
#[tactic(auto, using(crate::proofs::Staying::meanings_stay))]
pub fn meaning_stays()
    ensures { MeaningStays }
{}

/// Its part stays in the arena.
#[tactic(auto, using(crate::proofs::Staying::meanings_stay))]
pub fn meaning_stays_below()
    ensures { MeaningStaysBelow }
{}
