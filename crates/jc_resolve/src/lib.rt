//! The member that a call means (JLS 15.12.2): three phases, in each the applicable members, and of these the most specific one.
#![tactic(auto)]

mod apart;
mod applied;
mod applying;
mod choice;
mod choosing;
mod copying;
mod laws;
mod parameters;
mod ranking;
mod resolving;
mod site;
mod sorting;

pub use apart::is_apart;
pub use applied::{Applied, Candidate, Fit};
pub use applying::put_all;
pub use choice::{Choice, Chosen};
pub use choosing::put;
pub use copying::copy_view;
pub use laws::{chosen_is_applicable, no_maximal_member_is_left_out};
pub use resolving::resolve;
pub use site::CallSite;
