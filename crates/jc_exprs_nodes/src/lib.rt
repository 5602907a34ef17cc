//! Nodes of typed expressions: what each form of the typing of bodies calls to break a rule, to see a typed part, to guard what is read or used, to convert an operand, and to capture a type.
#![tactic(auto)]

mod breaking;
mod captures;
mod insides;
mod laws;
mod lists;
mod parts;
mod stepping;
mod walk;

pub use breaking::{broken, missing, note, refusal, refused, unconverted};
pub use captures::{captured, captured_at, capturing, capturing_behind, uncaptured};
pub use insides::{Inner, inside};
pub use laws::{both_parts, feeding_parts, more_parts, no_parts, spanned_part};
pub use lists::{push_one_operand, push_operand_list};
pub use parts::part;
pub use stepping::{
    Led, converted, push_cast_steps, push_read_guard, push_step, push_steps_by, push_upwards,
    push_use_guard, push_use_guard_at, stepped,
};
pub use walk::{Formed, Judging, KindAt, Part, Walk};
