//! How a walk goes through the parts of a call and of a creation.
ghost use Rattle.jc_exprs_calls.specs.Laws.{BeforeIsGated, CallIsGated, ConstructorIsGated};

/// What stands before a point is asked where the name or value there has a meaning.
#[tactic(auto, using(crate::proofs::Gating::before_gated))]
pub fn before_is_gated()
    ensures { BeforeIsGated }
{}

/// The arguments are asked behind what stands before the point, whether that is told or not, and the call where all are.
#[tactic(auto, using(crate::proofs::Gating::call_gated))]
pub fn call_is_gated()
    ensures { CallIsGated }
{}

/// The arguments are asked one after another, and the constructor where each has a typing.
#[tactic(auto, using(crate::proofs::Creates::constructor_gated))]
pub fn constructor_is_gated()
    ensures { ConstructorIsGated }
{}
