//! Why a type has no capture, no greatest lower bound, or isn't well formed.

/// Why a type has no capture, or types have no greatest lower bound: at the argument or type `i` and at no earlier one, counted
/// from 0, two classes of which neither is a subclass of the other meet (JLS 5.1.10).
#[derive(Clone, Copy, Debug, PartialEq, Eq, Hash)]
pub enum CaptureFault {
    ClassesMeet { i: u64 },
}

/// Why a class type isn't well formed (JLS 4.5), at its argument `i`, counted from 0.
#[derive(Clone, Copy, Debug, PartialEq, Eq, Hash)]
pub enum TypeFault {
    /// It has another number of arguments than its class has parameters (rule 401).
    Count,

    /// After capture the argument isn't below a declared bound (rule 402).
    Bound { i: u64 },

    /// The lower bound of a super wildcard isn't below a declared bound (rule 403).
    SuperBound { i: u64 },

    /// The argument, or the bound of a wildcard, is primitive (rule 404).
    PrimitiveArgument { i: u64 },

    /// Two unrelated classes meet in the argument's bound after capture (rule 405).
    ClassesMeet { i: u64 },

    /// One of its questions has no tree of height 64 (rule 406).
    Deep,
}
