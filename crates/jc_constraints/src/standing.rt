//! The forms of constraints (JLS 15.12.2.7).
use jc_types::{Ty, VarId};

/// How an actual type stands to a formal one in a constraint (JLS 15.12.2.7): `Below` is `A << F`, `Same` is `A = F`, and `Above` is `A >> F`.
#[derive(Clone, Copy, Debug, PartialEq, Eq)]
pub enum Standing {
    Below,
    Same,
    Above,
}

/// The forms of a type argument (JLS 4.5.1).
#[derive(Clone, Copy, Debug, PartialEq, Eq)]
pub enum ArgKind {
    Exact,
    Any,
    Extends,
    Super,
}

/// What is implied of one type parameter: how a type stands to it.
#[derive(Drop)]
pub struct Implied {
    pub variable: VarId,
    pub standing: Standing,
    pub ty: Ty,
}
