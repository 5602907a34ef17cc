//! What a step does.
use jc_waiting::Onward;

/// What a step does.
#[derive(Clone, Copy, Debug)]
pub enum Did {
    Moves(Onward),
    /// A byte goes out.
    Puts { byte: u8, on: Onward },
    /// It asks for a byte of the input. The frame goes on behind its call, at `next`, with the byte, or with -1 at the input's end.
    Asks { next: u32 },
}
