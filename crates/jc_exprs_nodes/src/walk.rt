//! A walk over the expressions of a body.
use jc_rules::{Place, Refusal};
use jc_typed::{ExprForm, Nodes};
use jc_types::{Env, Table};

/// The captured variables so far, the least break so far, and the typed trees. After want of memory nothing is said of it.
#[derive(Drop)]
pub struct Walk {
    pub env: Env,
    pub found: Option<Refusal>,
    pub nodes: Nodes,
}

/// What guards and steps are asked over: the table, and the captured variables so far.
#[derive(Clone, Copy)]
pub struct Judging<'a> {
    pub table: &'a Table,
    pub env: &'a Env,
}

/// A typed part: where it stands in the arena; its first tokens, with the parentheses round it and without them; and the places in the arena of its expression, of the type that it counts as, and
/// of what its value goes through wherever it stands.
#[derive(Clone, Copy, Debug)]
pub struct Part {
    pub at: u32,
    pub start: Place,
    pub place: Place,
    pub of: u32,
    pub ty: u32,
    pub lead: u32,
}

/// A type after capture, and the variables that this made, by their places in the arena.
#[derive(Clone, Copy, Debug)]
pub struct KindAt {
    pub ty: u32,
    pub captures: u32,
}

/// What an expression is made of beside its type: its first token, its form, and the lead of its value.
#[derive(Clone, Copy, Debug)]
pub struct Formed {
    pub place: Place,
    pub form: ExprForm,
    pub lead: u32,
}
