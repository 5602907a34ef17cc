//! What all frames share.
use crate::{Cells, Literals, Slots, Statics};
use jc_rules::Items;

/// How far the initialisation of a class has come (JVMS 5.5).
#[derive(Clone, Copy, Debug, PartialEq, Eq)]
pub enum ClassState {
    Untouched,
    InProgress,
    Ready,
    Failed,
}

/// A string literal that was used, and the address of its String.
#[derive(Debug, Drop)]
pub struct Interned {
    pub text: Items<u16>,
    pub address: u64,
}

/// What all frames share: the heap, of each class its state and a value for each of its fields, of which only the static ones count,
/// and the String of each literal that was used.
#[derive(Drop)]
pub struct World {
    pub heap: Cells,
    pub states: Slots<ClassState>,
    pub statics: Statics,
    pub interned: Literals,
}

/// An exception that the machine makes (JVMS 2.10, 6.5).
#[derive(Clone, Copy, Debug, PartialEq, Eq)]
pub enum Fault {
    Arithmetic,
    ArrayIndexOutOfBounds,
    ArrayStore,
    ClassCast,
    ExceptionInInitializer,
    NegativeArraySize,
    NoClassDefFound,
    NullPointer,
}

/// A native method of the library.
#[derive(Clone, Copy, Debug, PartialEq, Eq)]
pub enum Native {
    /// `java.lang.Object.hashCode`
    HashCode,
    /// `className` of `java.lang.Object` and of `java.lang.Throwable`
    ClassName,
    /// `java.lang.System.halt`
    Halt,
    /// `java.lang.System.readByte`
    ReadByte,
    /// `java.io.PrintStream.put`
    Put,
}

/// How a machine is over.
#[derive(Clone, Copy, Debug, PartialEq, Eq)]
pub enum Ending {
    /// Its first method returned.
    Ended,
    /// Nothing caught an exception of the class of this number.
    Threw(u64),
    Exited(i32),
    /// The table allows nothing.
    Stuck,
}
