//! Frames (JVMS 2.6).
use crate::{Operands, Slots, Value};
use std::alloc::Global;

/// A frame (JVMS 2.6): its method by the numbers of the class and of the method, the byte offset of its instruction, its local
/// variables and its operand stack. A local that holds nothing is None, as is the second unit of a long.
#[derive(Debug, Drop)]
pub struct Frame {
    pub class: u64,
    pub method: u64,
    pub at: u32,
    pub locals: Slots<Option<Value>>,
    pub stack: Operands,
}

impl Frame {
    /// A frame without variables and without room, of no method. It takes no memory.
    pub fn empty(alloc: Global) -> Frame {
        Frame {
            class: 0,
            method: 0,
            at: 0,
            locals: Slots::of(Vec::new(alloc)),
            stack: Operands::without_room(alloc),
        }
    }
}

/// What goes on when the frame above it is left.
#[derive(Debug, Drop)]
pub enum Waiting {
    /// A frame that called, or that waits for the initialisation of a class.
    Caller(Frame),
    /// A class whose superclass is being initialised. Its own initialiser hasn't begun.
    Prepared(u64),
    /// A class whose initialiser runs.
    Initialising(u64),
}
