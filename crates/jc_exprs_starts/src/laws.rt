//! The type to which a value is assigned stays what it is where the arena grows.
ghost use Rattle.jc_exprs_starts.specs.Wanted.{WantedStays, WantedStaysBelow};

/// The type stays, and that there is one.
#[tactic(auto, using(crate::proofs::Staying::wanted_stays))]
pub fn wanted_stays()
    ensures { WantedStays }
{}

/// Its place stays within the arena.
#[tactic(auto, using(crate::proofs::Staying::wanted_within))]
pub fn wanted_stays_below()
    ensures { WantedStaysBelow }
{}
