//! Laws of conversions, each the contract of a function that does nothing.
ghost use Rattle.jc_convert.specs.Steps.{AssignmentsLead, CastsLead};

/// The steps of an assignment's conversion lead from the one type to the other, each by a rule of JLS 5.1 that holds there. A step up is
/// unchecked in an unchecked conversion alone.
pub fn assignments_lead()
    ensures { AssignmentsLead }
{}

/// The steps of a cast's conversion lead from the one type to the other, and what is tested may be.
pub fn casts_lead()
    ensures { CastsLead }
{}
