//! Laws of expressions.
ghost use Rattle.jc_expr_laws.specs.ExprAnswers.{ExpressionsAreTold};

/// A law of expressions of at most 200 heights: at each place there is one longest expression with a reach, and no other expression has
/// the same tokens; or there is none, and a place where that shows.
pub fn expressions_are_told()
    ensures { ExpressionsAreTold }
{}
