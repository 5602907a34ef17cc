//! The laws, each the contract of a function that does nothing.
ghost use Rattle.jc_lub_laws.specs.Standing.{OperandsAreBelow};
ghost use Rattle.jc_lub_laws.specs.Under.{OperandsAreUnder};

/// Each of some reference types is under their least upper bound (JLS 15.12.2.7), by its supertypes as they stand: as each class of the bound it has
/// a supertype whose arguments are contained in those of the bound.
pub fn operands_are_under_their_lub()
    ensures { OperandsAreUnder }
{}

/// In a table of checked classes each operand is below the least upper bound at each level of kept types (JLS 4.10, 15.12.2.7), whatever reference types
/// within their upper bounds the variables stand for: each sound kept type that fits the operand fits the bound. The table of sources that break no rule is such a
/// table (`jc_front_laws`).
pub fn operands_are_below_their_lub()
    ensures { OperandsAreBelow }
{}
