//! What is known of 64 variables at once, a bit for each.
use jc_assign_spec::Jump;
use jc_rules::{Items, Refusal};
use jc_types::FieldId;

/// A word for each of two assumptions about the innermost loop around: that a variable isn't definitely unassigned at the begin of
/// a turn, and that it is. A walk carries both, so it goes once through a loop. Outside of loops both are the same.
#[derive(Clone, Copy, Debug)]
pub struct Worlds {
    pub no: u64,
    pub yes: u64,
}

/// Which variables are definitely assigned, and which are definitely unassigned.
#[derive(Clone, Copy, Debug)]
pub struct Marks {
    pub set: u64,
    pub unset: Worlds,
}

/// A jump, and what is known where it leaves.
#[derive(Clone, Copy, Debug)]
pub struct Leaving {
    pub jump: Jump,
    pub marks: Marks,
}

/// A rule that is broken at these variables.
#[derive(Clone, Copy, Debug)]
pub struct Found {
    pub lanes: Worlds,
    pub refusal: Refusal,
}

/// What a walk knows of 64 variables.
#[derive(Drop)]
pub struct State {
    pub marks: Marks,
    pub wrote: u64,
    pub fixed: u64,
    pub exits: Items<Leaving>,
    pub broken: Items<Found>,
}

/// The variables that are walked together: 64 locals from a number on, one blank final field, or those that nothing may assign.
#[derive(Clone, Copy, Debug)]
pub enum Group {
    Locals(u32),
    Field(FieldId),
    Foreign,
}
