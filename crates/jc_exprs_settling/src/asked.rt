//! Parts of which a member is asked.
use jc_exprs_nodes::Part;

/// A part of which a member is asked, with the captured variables that this made, and the place in the arena of the type whose members it has. `by_bounds` tells whether they are those of the
/// bounds of a type variable or of an intersection.
#[derive(Clone, Copy, Debug)]
pub struct SettledPart {
    pub part: Part,
    pub ty: u32,
    pub by_bounds: bool,
}
