//! What instructions want on the stack.

/// What an instruction wants on the stack (JVMS 4.10.1.9), where its operand doesn't say it.
#[derive(Clone, Copy, Debug)]
pub enum Wanted {
    Whole,
    /// Both units of a long.
    LongPair,
    /// Anything that has one unit.
    OneWord,
    /// Any reference, initialised or not.
    Reference,
    AnyArray,
    /// An array of bytes or of booleans.
    ByteArray,
    IntArray,
    LongArray,
    CharArray,
    ShortArray,
    /// An array of classes or of arrays.
    ObjectArray,
    /// Any object or array that is initialised.
    AnyObject,
    AnyThrowable,
}
