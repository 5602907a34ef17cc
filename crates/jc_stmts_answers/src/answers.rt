//! What is answered to an item of a body.
use jc_rules::Place;

/// What an enhanced `for` goes over: whether that is an array, and an element's type, captured variables and steps into the
/// variable, by their places in the arena (JLS 14.14.2).
#[derive(Clone, Copy, Debug)]
pub struct ElementsAt {
    pub is_array: bool,
    pub of: u32,
    pub ty: u32,
    pub captures: u32,
    pub steps: u32,
}

/// The operand of an expression, the place in the source and the number of a local, the constant of a label with the locals that it
/// names, the elements of an enhanced `for`, or the list of the types of a catch clause.
#[derive(Clone, Copy, Debug)]
pub enum AnswerAt {
    AnOperand(u32),
    ALocal(Place, u32),
    AKey { value: i32, names: u32 },
    AnEach(ElementsAt),
    SomeTypes(u32),
}
