//! What a written type means (JLS 4.3, 4.5, 4.8, 6.5.5): its type, the places of the class types inside it, and the first broken rule of
//! the names in it.
#![tactic(auto)]

mod breaks;
mod reading;
mod types;

pub use breaks::{base_broken, class_broken, is_own, or_break, type_broken};
pub use reading::{Reading, body_reading, head_reading, method_reading, reading_in_scope};
pub use types::{written_base, written_class, written_type};
