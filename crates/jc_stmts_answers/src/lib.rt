//! Answers to the items of a body, over the places of an arena. Contracts see them as the definition has them, by `answer_of`.
#![tactic(auto)]

mod answers;

pub use answers::{AnswerAt, ElementsAt};
