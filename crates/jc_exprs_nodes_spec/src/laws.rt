//! Laws of what is told of a node by its parts.
ghost use Rattle.jc_exprs_nodes_spec.specs.Gates.{FoundIsLeast, OnePart, ThreeParts, TwoParts};

/// A node of one part: a walk goes through it, and where it has a typing the node's rule is asked behind it.
#[tactic(auto, using(crate::proofs::Runs::one_part))]
pub fn one_part()
    ensures { OnePart }
{}

/// The same of two parts, the second of which is asked behind the first, whether that has a typing or not.
#[tactic(auto, using(crate::proofs::Runs::two_of))]
pub fn two_parts()
    ensures { TwoParts }
{}

/// The same of three parts.
#[tactic(auto, using(crate::proofs::Runs::three_of))]
pub fn three_parts()
    ensures { ThreeParts }
{}

/// A walk that keeps the least break has, behind its first node, the least of the breaks that are told of it.
#[tactic(auto, using(crate::proofs::Runs::found))]
pub fn found_is_least()
    ensures { FoundIsLeast }
{}
