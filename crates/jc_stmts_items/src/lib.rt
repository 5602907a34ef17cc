//! The loop over the items of a body (JLS 6.3, 14): the walk goes through the expression of an item, and then the item's step is made.
#![tactic(auto)]

mod asking;
mod scenes;
mod setting;
mod steps;

pub use scenes::{place_in, scene_in};
pub use setting::Setting;
pub use steps::go_through;
