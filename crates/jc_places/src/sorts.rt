//! Parts of statements by their places.

/// A test of an `if` and its statement, by their places.
#[derive(Clone, Copy, Debug)]
pub struct ArmPlaces {
    pub test: u32,
    pub then: u32,
}

/// A catch clause: its parameter, and the places of its alternatives and of its block.
#[derive(Clone, Copy, Debug)]
pub struct CatchPlaces {
    pub local: u32,
    pub types: u32,
    pub body: u32,
}
