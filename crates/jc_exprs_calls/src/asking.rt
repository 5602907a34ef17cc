//! What a call is asked over, and what it is asked with.
use jc_exprs_worlds::Scene;
use jc_members::MethodIndex;
use jc_rules::{Place, Text};

/// What a place in a body stands in, and the program's methods by their names.
#[derive(Clone, Copy)]
pub struct Methods<'a> {
    pub scene: &'a Scene<'a>,
    pub index: &'a MethodIndex,
}

/// A call by its first token, the method's name, and the places in the arena of its arguments and of the type that its value is assigned to, if it is.
#[derive(Clone, Copy)]
pub struct Named<'a> {
    pub place: Place,
    pub name: &'a Text,
    pub args: &'a [u32],
    pub target: Option<u32>,
}
