//! The law of erasure.
ghost use Rattle.jc_erase_laws.specs.Theorem.{ErasureKeepsMeaning};

/// Where the methods of an erased program are those of a typed one with their types erased, and the two select the same bodies, every body of
/// the erased program does on the erased state what the typed one does, at every depth and with every number of units.
#[tactic(auto, using(crate::proofs::Kept::keeps_meaning))]
pub fn erasure_keeps_meaning()
    ensures { ErasureKeepsMeaning }
{}
