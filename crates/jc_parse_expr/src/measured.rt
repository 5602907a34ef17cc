//! Trees with their heights.

/// A tree with its height, which is counted as the tree is built.
#[derive(Drop)]
pub struct Measured<T> {
    pub tree: T,
    pub height: u32,
}
