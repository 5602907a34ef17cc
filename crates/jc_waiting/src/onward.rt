//! How a machine goes on.
use jc_jvm::Ending;

/// How a machine goes on.
#[derive(Clone, Copy, Debug)]
pub enum Onward {
    /// Its frame runs.
    Runs,
    Ends(Ending),
}

/// What an exception did to what waited nearest.
#[derive(Clone, Copy, Debug)]
pub enum Passed {
    /// It goes no further.
    Left(Onward),
    /// It goes on, or another one instead, by its class and address.
    Goes { thrown: u64, address: u64 },
}
