//! A law of the repair, the contract of a function that does nothing.
ghost use Rattle.jc_repair.specs.Looser.{RepairsAreAbove};

/// The repair of a type is above it, by the shapes of both: an exact argument stays as it is or gives way to a wildcard that contains it.
pub fn repairs_are_above()
    ensures { RepairsAreAbove }
{}
