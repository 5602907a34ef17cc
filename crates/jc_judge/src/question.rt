//! The questions of subtyping, and their answers.
use jc_rules::Items;
use jc_types::{Bounds, Ty};

/// What is known of a question: it has a proof, it has a refutation, or it has neither of the height that was asked for.
#[derive(Clone, Copy, Debug, PartialEq, Eq, Hash)]
pub enum Answer {
    Yes,
    No,
    Deep,
}

/// A question that another one leads to: it is settled, or asks whether one type is below another, or whether two types are
/// the same.
#[derive(Drop)]
pub enum Part {
    Sure,
    Never,
    Ask { below: Ty, above: Ty },
    Same { one: Ty, other: Ty },
}

/// What a question leads to: it is settled at once, or every part has to hold, with further captured variables, or some part
/// has to.
#[derive(Drop)]
pub enum Question {
    Holds,
    Fails,
    Every {
        fresh: Items<Bounds>,
        parts: Items<Part>,
    },
    SomeOf {
        parts: Items<Part>,
    },
}
