//! A machine that runs the instructions of classes (JVMS SE 7, chapters 2 and 6).
#![tactic(auto)]

mod act;
mod frame;
mod load;
mod machine;
mod operands;
mod places;
mod program;
mod rows;
mod run;
mod stack;
mod value;

pub use frame::Active;
pub use machine::{Ending, Machine, Ran, Stepped};
pub use operands::Operands;
pub use program::Program;
pub use stack::Stack;
pub use value::Value;
