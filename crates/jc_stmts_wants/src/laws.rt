//! How a walk goes through the expressions that items ask.
ghost use Rattle.jc_stmts_wants.specs.Laws.{EachPart, LabelPart, WantedPart};

/// An expression is asked by what it is wanted for, and then its rule where it has a typing.
#[tactic(auto, using(crate::proofs::Asking::wanted_after))]
pub fn wanted_part()
    ensures { WantedPart }
{}

/// A label is asked as an expression, and then its rule.
#[tactic(auto, using(crate::proofs::Asking::label_after))]
pub fn label_part()
    ensures { LabelPart }
{}

/// What an enhanced `for` goes over is asked as an expression, and then its rule.
#[tactic(auto, using(crate::proofs::Asking::each_after))]
pub fn each_part()
    ensures { EachPart }
{}
