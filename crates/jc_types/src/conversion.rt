//! The steps of conversions (JLS 5.1).
use crate::form::{Primitive, Ty};
use jc_rules::Items;

/// The phases in which an applicable member is looked for (JLS 15.12.2.2 to 15.12.2.4).
#[derive(Clone, Copy, Debug, PartialEq, Eq, PartialOrd, Ord, Hash)]
pub enum Phase {
    Subtyping,
    Invocation,
    VariableArity,
}

/// A step of a conversion (JLS 5.1).
///
/// `Widen` and `Narrow` go to that primitive type. `BoxUp` and `Unbox` go between a primitive type and its class. `Up` takes a
/// reference to a type above its own, and `Check` to a type that its value is tested for.
#[derive(Drop)]
pub enum Step {
    Widen(Primitive),
    Narrow(Primitive),
    BoxUp,
    Unbox,
    Up(Ty),
    Check(Ty),
}

/// A conversion: its steps in order, and whether it is unchecked (JLS 5.1.9).
#[derive(Drop)]
pub struct Conversion {
    pub steps: Items<Step>,
    pub unchecked: bool,
}
