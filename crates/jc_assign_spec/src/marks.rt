//! What is known of a variable at a point.
use jc_types::FieldId;

/// A variable of which is asked whether it is assigned: a local variable, or a blank final field of the class whose constructor or
/// initialiser is walked. `Foreign` stands for all other final fields, which nothing may assign there.
#[derive(Clone, Copy, Debug, PartialEq, Eq)]
pub enum Variable {
    Local(u32),
    Own(FieldId),
    Foreign,
}

/// It is definitely assigned, and it is definitely unassigned. Where control can't come both hold.
#[derive(Clone, Copy, Debug, PartialEq, Eq)]
pub struct Mark {
    pub set: bool,
    pub unset: bool,
}

/// A jump, by the statement that it ends or goes on with.
#[derive(Clone, Copy, Debug, PartialEq, Eq)]
pub enum Jump {
    Break(u32),
    Continue(u32),
    Return,
}

/// What is known where a jump leaves.
#[derive(Clone, Copy, Debug, PartialEq, Eq)]
pub struct Exit {
    pub jump: Jump,
    pub mark: Mark,
}
