//! What every layer of javag speaks of: places in sources, the rules that a program can break, the answers of a call that
//! may run out of memory, and the lists, boxes and texts that contracts see as their contents.
#![tactic(auto)]

mod boxed;
mod compared;
mod items;
mod lines;
mod rule;
mod stop;
#[cfg(test)]
mod tests;
mod text;
mod words;

pub use boxed::Boxed;
pub use items::Items;
pub use lines::line_of;
pub use rule::{Place, Refusal, Rule, Stage, Warning};
pub use stop::{NoMain, Stop, WantOfMemory};
pub use text::Text;
pub use words::text_of;
