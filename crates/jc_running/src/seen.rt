//! What a run shows.
use jc_rules::{Items, Text};

/// What a check of a reference's class stands for: a cast that the source writes (JLS 15.16), or one that stands where
/// erasure loses a type argument: at a value that is read from a field, an element or a call; at a value that goes where the
/// code has another erased type; at a parameter on entry to an overriding body.
#[derive(Clone, Copy, Debug, PartialEq, Eq)]
pub enum Check {
    WrittenCast,
    ReadGuard,
    UseGuard,
    EntryGuard,
}

/// How a run stands: it still goes on, it has come to its end, it ended with an exception of a class, which is named by its
/// binary name with dots, or it was ended with a code.
#[derive(Drop)]
pub enum Ending {
    Going,
    Ended,
    Threw(Text),
    Exited(i32),
}

/// What a run shows: the bytes that went out, how many bytes it took, and how it stands.
#[derive(Drop)]
pub struct Seen {
    pub output: Items<u8>,
    pub taken: u64,
    pub ending: Ending,
}

/// What a run has shown so far: the bytes that went out, how many were taken, and the checks that failed, all in order.
#[derive(Drop)]
pub struct Shown {
    pub output: Items<u8>,
    pub taken: u64,
    pub failed: Items<Check>,
}
