//! What inference gives, and why a method isn't applicable by it.
use jc_rules::Items;
use jc_types::{Ty, VarId};

/// Why a method isn't applicable by inference: the answer for its type parameter `i`, counted from 0, isn't below a bound, or isn't a type that is well formed. Where
/// two unrelated classes meet in an answer it is no type either.
#[derive(Clone, Copy, Debug, PartialEq, Eq)]
pub enum Why {
    Bound { i: u64 },
    Ill { i: u64 },
}

/// What inference gives: an argument for each type parameter, in their order; or the first question that isn't proved, which is refuted, or is Deep: it has neither a
/// proof nor a refutation of height 64.
#[derive(Drop)]
pub enum Inference {
    Inferred { args: Items<Ty> },
    NotApplicable { why: Why },
    Deep,
}

/// A type parameter that is to be inferred, its bounds as the method's view has them, and what the constraints of the arguments alone answer for it.
#[derive(Drop)]
pub struct Parameter {
    pub variable: VarId,
    pub bounds: Items<Ty>,
    pub early: Option<Ty>,
}
