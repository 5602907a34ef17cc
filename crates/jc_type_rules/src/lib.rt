//! The first broken rule of the stage of types (JLS 4.4, 4.5, 8.1.2, 8.1.4): 401 to 409.
#![tactic(auto)]

mod depending;
mod stage;
mod variables;
mod written;

pub use stage::first_types_break;
