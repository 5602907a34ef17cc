//! The words and the forms of Java 7 that the language leaves out: where the first one stands in a list of tokens, or in a tree.
#![tactic(auto)]

ghost use Rattle.jc_left_out.specs.WorkedLeftOut.{WorkedLeftOut};

mod expressions;
mod least;
mod parts;
mod statements;
mod words;

pub use statements::first_left_out_form;
pub use words::first_left_out_word;

/// A law: in small sources the first word and the forms are left out that are to be.
pub fn left_out_is_worked()
    ensures { WorkedLeftOut }
{}
