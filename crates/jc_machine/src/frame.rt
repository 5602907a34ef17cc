//! Frames (JVMS 2.6).
use crate::{Operands, Value};
use jc_rules::Items;

/// A frame (JVMS 2.6): its method by the numbers of the class and of the method, the byte offset of its next instruction, its
/// local variables and its operand stack. A local that holds nothing is None, as is the second unit of a long.
#[derive(Debug, Drop)]
pub struct Active {
    pub class: u64,
    pub method: u64,
    pub at: u32,
    pub locals: Items<Option<Value>>,
    pub stack: Operands,
}
