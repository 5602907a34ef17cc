//! The reader of class files of the Java Virtual Machine (JVMS SE 7, chapter 4): the class of which bytes are the file, or
//! the first field that isn't whole or breaks its rule.
#![tactic(auto)]

mod code;
mod descriptors;
mod entries;
mod fault;
mod frames;
mod instructions;
mod lookups;
mod many;
mod marks;
mod members;
mod names;
mod numbers;
mod operands;
mod reader;
mod sorts;
mod switches;
mod texts;

pub use fault::ClassFault;
pub use reader::read_class;
