//! The rules on classes of the stage of headers (JLS 8.1.1.1, 8.1.2, 8.1.5, 8.4.8.4, 9.1.3, 9.4.1): 501, 502, 509, 511 and 512 at classes.
#![tactic(auto)]

mod agreeing;
mod classes;
mod climbing;
mod covering;
mod direct;
mod grouping;
mod leaving;
mod meeting;

pub use classes::first_classes_break;
pub use climbing::has_conflict;
pub use grouping::names_agree;
pub use leaving::leaves_open;
