//! Laws of renamed type parameters, each the contract of a function that does nothing.
ghost use Rattle.jc_resolve_sites.specs.Laws.{ArgumentsAreApart, NamesAreBelow};

/// A type names none of the type variables from the number above its own on.
pub fn names_are_below()
    ensures { NamesAreBelow }
{}

/// The arguments of a type don't name a type parameter of a member that is seen by them.
pub fn arguments_are_apart()
    ensures { ArgumentsAreApart }
{}
