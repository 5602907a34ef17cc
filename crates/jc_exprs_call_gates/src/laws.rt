//! What stands before a point stays what it is where the arena grows.
ghost use Rattle.jc_exprs_call_gates.specs.Staying.{BeforeStays, BeforeStaysThere};

/// It stays, and that it is told.
#[tactic(auto, using(crate::proofs::Staying::before_stays))]
pub fn before_stays()
    ensures { BeforeStays }
{}

/// Its parts stay within the arena.
#[tactic(auto, using(crate::proofs::Staying::before_there))]
pub fn before_stays_there()
    ensures { BeforeStaysThere }
{}
