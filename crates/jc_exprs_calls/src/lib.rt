//! Calls of methods and creations of objects in bodies, over typed parts (JLS 15.9, 15.12), and calls of another constructor (JLS 8.8.7.1).
#![tactic(auto)]

mod asking;
mod breaking;
mod choosing;
mod constructing;
mod creations;
mod explicit;
mod finding;
mod forms;
mod invoking;
mod laws;
mod members;
mod news;
mod objects;
mod receivers;
mod results;
mod searching;

pub use asking::{Methods, Named};
pub use breaking::instance_break;
pub use constructing::constructed;
pub use creations::created;
pub use explicit::{accessible, explicit_break, explicit_types};
pub use finding::{BeforeAt, asked_value, call_here, call_on, call_super};
pub use forms::Calling;
pub use invoking::called;
pub use laws::{before_is_gated, call_is_gated, constructor_is_gated};
pub use news::Creating;
pub use objects::push_this;
pub use receivers::{ReceiverAt, searched};
