//! Calls: the arguments that they take from the stack, the frames that they make, and what returns give (JVMS SE 7, 2.6 and 6.5).
#![tactic(auto)]

mod arguments;
mod frames;
mod handlers;
mod members;
mod methods;
mod returns;

pub use arguments::{frame_on, has_arguments};
pub use frames::{code_of, frame_for, method_of};
pub use handlers::handler_for;
pub use members::{find_special_method, find_static_method};
pub use methods::{find_initialiser, find_method, is_static, methods_in};
pub use returns::give_back;
