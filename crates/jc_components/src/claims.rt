//! The claims of two searches, which a check then has to find true.

/// What the searches claim of a vertex.
///
/// `part` is the number of its component, in an order in which no edge leads to a smaller one. Where the vertex lies on a cycle,
/// `root` is a vertex that stands for its component, `next` the next vertex on a way to that, `next_left` a number that falls on
/// this way, `before` the vertex before it on a way from the root, and `before_left` a number that falls on this way back. Of the
/// root itself, `next` is any neighbour in its component.
#[derive(Clone, Copy, Debug)]
pub struct Claim {
    pub part: u64,
    pub is_cyclic: bool,
    pub root: u64,
    pub next: u64,
    pub next_left: u64,
    pub before: u64,
    pub before_left: u64,
}

/// What is claimed of a vertex that no search has reached.
pub const UNCLAIMED: Claim = Claim {
    part: 0,
    is_cyclic: false,
    root: 0,
    next: 0,
    next_left: 0,
    before: 0,
    before_left: 0,
};
