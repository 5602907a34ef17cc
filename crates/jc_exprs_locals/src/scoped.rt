//! A local in scope.
use jc_rules::Text;
use jc_types::{Constant, Ty};

/// A local variable or parameter in scope, by its number in the method; one that is a constant variable has its value (JLS 4.12.4).
#[derive(Drop)]
pub struct ScopedLocal {
    pub name: Text,
    pub number: u32,
    pub ty: Ty,
    pub is_final: bool,
    pub constant: Option<Constant>,
}

/// A local, and the place of the last one of its name before it.
#[derive(Drop)]
pub struct Entry {
    pub local: ScopedLocal,
    pub before: Option<usize>,
}
