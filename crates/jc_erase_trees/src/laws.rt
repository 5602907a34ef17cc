//! Laws of erased arenas.
ghost use Rattle.jc_erase_trees.specs.Laws.{BodiesAreErased, BulkStays, PartsAreErased};

/// At each place of an erased arena stands the erased tree.
#[tactic(auto, using(crate::proofs::Erased::parts_erased))]
pub fn parts_are_erased()
    ensures { PartsAreErased }
{}

/// A body over an erased arena has the erased statements.
pub fn bodies_are_erased()
    ensures { BodiesAreErased }
{}

/// Erasure leaves the weight of a method.
pub fn bulk_stays()
    ensures { BulkStays }
{}
