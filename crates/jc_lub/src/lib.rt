//! The least upper bound of types (JLS 15.12.2.7), as this language has it: two levels deep, without a question of subtyping. And
//! provably distinct types (JLS 4.5.1).
#![tactic(auto)]

mod arrays;
mod candidates;
mod columns;
mod distinct;
mod joining;
mod passing;
mod viewing;

pub use distinct::{erased_below, provably_distinct};
pub use jc_sub::glb;
pub use joining::lub;
pub use passing::args_of;
pub use viewing::{object, up_view, view_steps};
