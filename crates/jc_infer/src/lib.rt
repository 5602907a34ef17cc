//! Inferred type arguments (JLS 15.12.2.7, 15.12.2.8), each asked whether it is within its bounds and well formed.
#![tactic(auto)]

mod answering;
mod asking;
mod collecting;
mod giving;
mod inferring;
mod late;
mod naming;
mod outcome;
mod stretching;

pub use giving::given;
pub use inferring::infer;
pub use naming::names;
pub use outcome::{Inference, Parameter, Why};
pub use stretching::formals;
