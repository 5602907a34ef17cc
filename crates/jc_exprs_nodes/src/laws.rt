//! How a walk goes through parts together, lists of parts, and parts with the captured variables of them.
ghost use Rattle.jc_exprs_nodes.specs.Laws.{BothParts, FeedingParts, MoreParts, NoParts, SpannedPart};

/// A second part that is asked by what the first one is: it is asked behind the first, and the node's rule where both have typings.
#[tactic(auto, using(crate::proofs::Gathering::ran_feeding))]
pub fn feeding_parts()
    ensures { FeedingParts }
{}

/// Two parts together.
#[tactic(auto, using(crate::proofs::Gathering::ran_both))]
pub fn both_parts()
    ensures { BothParts }
{}

/// A part with the numbers of the captured variables before it and behind it.
#[tactic(auto, using(crate::proofs::Gathering::ran_spanned))]
pub fn spanned_part()
    ensures { SpannedPart }
{}

/// No parts are all asked.
#[tactic(auto, using(crate::proofs::Gathering::ran_every_none))]
pub fn no_parts()
    ensures { NoParts }
{}

/// A part more is asked behind those before it.
#[tactic(auto, using(crate::proofs::Gathering::ran_every_more))]
pub fn more_parts()
    ensures { MoreParts }
{}
