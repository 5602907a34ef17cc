//! What a body begins with (JLS 8.4.1, 8.8.7.1): the locals `this` and the parameters, and a constructor's call of another constructor.
#![tactic(auto)]

mod beginning;
mod course;
mod params;

pub use beginning::{begin, begun_form};
pub use course::{first_course, reopen};
pub use params::{first_locals, method_place, param_scope};
