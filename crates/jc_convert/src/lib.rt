//! Conversions (JLS 5): by assignment, by method invocation and by a cast, each the first row of a table whose premise isn't refuted.
#![tactic(auto)]

mod answer;
mod boxing;
mod casting;
mod converting;
mod laws;
mod legal;
mod steps;
mod unchecked;

pub use answer::Converts;
pub use boxing::unboxed;
pub use casting::cast;
pub use converting::{assignment, invocation};
pub use laws::{assignments_lead, casts_lead};
pub use legal::is_legal;
