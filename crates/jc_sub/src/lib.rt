//! Capture (JLS 5.1.10), subtyping (JLS 4.10) and containment (JLS 4.5.1), answered exactly by proof trees and refutation
//! trees of height 64, and what these stand on: the views of a type as a class above it, and the greatest lower bound.
#![tactic(auto)]

mod answering;
mod asking;
mod bounding;
mod capturing;
mod containing;
mod kinds;
mod meeting;
mod passing;
mod questions;
mod reaching;
mod views;

pub use answering::every;
pub use asking::{MAX_HEIGHT, below, contained};
pub use bounding::glb;
pub use capturing::{argument_meets, capture, captured_args, fresh_bounds, put_bounds};
pub use jc_judge::{Answer, CaptureFault};
pub use kinds::{class_of, is_null, is_object, is_primitive, primitives_below};
pub use meeting::{as_one, classes_meet, glb_parts};
pub use questions::asked_above;
pub use views::view;
