//! Laws of calls in erased programs (JLS 15.12.4.4, 15.12.4.5): a call by name and descriptor checks its arguments, runs the body that
//! overriding gives, and checks the result.
#![tactic(auto)]

mod laws;

pub use laws::calls_run_bodies;
