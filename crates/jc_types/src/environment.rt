//! Captured variables with their bounds (JLS 5.1.10).
use crate::form::Ty;
use jc_rules::Items;

/// The bounds of a captured variable: one upper bound (a Meet where there are several parts), and its lower bound if it
/// stands for a `? super L`.
#[derive(Drop)]
pub struct Bounds {
    pub uppers: Items<Ty>,
    pub lower: Option<Ty>,
}

/// The captured variables that are known, each at the place that its `CaptureId` names.
#[derive(Drop)]
pub struct Env {
    pub bounds: Items<Bounds>,
}
