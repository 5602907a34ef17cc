//! How the steps of a walk stand to the definition's state.
ghost use Rattle.jc_stmts_course.specs.Laws.{AskedResumes, FilledResumes, GoneOverResumes, LabelledResumes, RunsAreLater, StepsAreSeen};

/// The steps make of what a walk has of the state what it has of the state behind the same items.
#[tactic(auto, using(crate::proofs::Seeing::steps_seen))]
pub fn steps_are_seen()
    ensures { StepsAreSeen }
{}

/// A walk never loses what is broken.
#[tactic(auto, using(crate::proofs::Resuming::run_later))]
pub fn runs_are_later()
    ensures { RunsAreLater }
{}

/// An initialiser's step is the same from where the walk stands behind a part of it.
#[tactic(auto, using(crate::proofs::Resuming::filled_on))]
pub fn filled_resumes()
    ensures { FilledResumes }
{}

/// So is the step of an expression by what it is wanted for.
#[tactic(auto, using(crate::proofs::Resuming::asked_on))]
pub fn asked_resumes()
    ensures { AskedResumes }
{}

/// So is that of a label.
#[tactic(auto, using(crate::proofs::Resuming::labelled_on))]
pub fn labelled_resumes()
    ensures { LabelledResumes }
{}

/// So is that of what an enhanced `for` goes over.
#[tactic(auto, using(crate::proofs::Resuming::gone_over_on))]
pub fn gone_over_resumes()
    ensures { GoneOverResumes }
{}
