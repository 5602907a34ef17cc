//! What a running method knows of its types.
use jc_rules::{Items, Place};
use jc_running::Value;
use jc_types::{MethodId, Ty, VarId};

/// What a type variable stands for.
#[derive(Drop)]
pub struct Binding {
    pub variable: VarId,
    pub stands_for: Ty,
}

/// Of a running method: which one it is, what type variables stand for, and what each captured variable stands for, by its place.
#[derive(Drop)]
pub struct Frame {
    pub method: MethodId,
    pub variables: Items<Binding>,
    pub captured: Items<Ty>,
}

/// A value that was read from a variable, a field, an element or a call, or that a written cast or an assignment gave, where this
/// was, and its static type with what its variables stood for.
#[derive(Drop)]
pub struct Read {
    pub place: Place,
    pub value: Value,
    pub ty: Ty,
}
