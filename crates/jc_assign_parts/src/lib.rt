//! The parts of a walk that asks of 64 variables at once whether they are definitely assigned and unassigned (JLS 16): words with a
//! bit for each, and the steps that change what is known.
#![tactic(auto)]

mod lanes;
mod masks;
mod scene;
mod state;
mod words;

pub use lanes::{Found, Group, Leaving, Marks, State, Worlds};
pub use masks::{local_mask, own_mask, written_mask};
pub use scene::Scene;
pub use state::{declare_at, give_at, jump, meet_now, now, set_now, swap_now, use_at, write_at};
pub use words::{
    alike, both, either, entry_marks, free_marks, less, meet_marks, one, over_marks, put,
    put_marks, put_worlds,
};
