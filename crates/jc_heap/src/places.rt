//! Where strings keep their text.

/// Where strings are: the class String, and the slot of its char array.
#[derive(Clone, Copy, Debug)]
pub struct StringPlace {
    pub class: u64,
    pub slot: usize,
}
