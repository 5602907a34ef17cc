//! How a walk goes through a variable that is assigned.
ghost use Rattle.jc_exprs_assigning.specs.Storing.{BothWithTarget, FeedingTarget, OneTarget};

/// The rule behind a variable is asked where it is known.
#[tactic(auto, using(crate::proofs::Targets::one_target))]
pub fn one_target()
    ensures { OneTarget }
{}

/// A value that is asked by what its variable is: it is asked behind the variable, and the rule where both are known.
#[tactic(auto, using(crate::proofs::Targets::feeding_target))]
pub fn feeding_target()
    ensures { FeedingTarget }
{}

/// A variable and a value.
#[tactic(auto, using(crate::proofs::Targets::both_with_target))]
pub fn both_with_target()
    ensures { BothWithTarget }
{}
