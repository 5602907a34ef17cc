//! What instructions do, by the groups of JVMS 2.11.
use crate::{Sort, Value};

/// What an instruction makes of two ints, or of two longs.
#[derive(Clone, Copy, Debug)]
pub enum Operator {
    Add,
    Subtract,
    Multiply,
    And,
    Or,
    Xor,
}

/// A shift of an int or a long by an int.
#[derive(Clone, Copy, Debug)]
pub enum Shift {
    Left,
    Right,
    /// To the right, with zeros from the left.
    Unsigned,
}

/// What a division gives.
#[derive(Clone, Copy, Debug)]
pub enum Division {
    Quotient,
    Remainder,
}

/// What an instruction makes of an int.
#[derive(Clone, Copy, Debug)]
pub enum IntConversion {
    Negated,
    Widened,
    ToByte,
    ToChar,
    ToShort,
}

/// What an instruction makes of a long.
#[derive(Clone, Copy, Debug)]
pub enum LongConversion {
    LongNegated,
    Narrowed,
}

/// A test of an int against another one.
#[derive(Clone, Copy, Debug)]
pub enum Comparison {
    Equal,
    Unequal,
    Less,
    NotLess,
    Greater,
    NotGreater,
}

/// So many units of the stack: one value or two of one unit each, or a long, which has two.
#[derive(Clone, Copy, Debug)]
pub enum Width {
    NoUnit,
    OneUnit,
    TwoUnits,
}

/// The kinds of element instructions, by the elements that they read and write. Those of bytes serve boolean too.
#[derive(Clone, Copy, Debug)]
pub enum Element {
    OfInt,
    OfLong,
    OfReference,
    OfByte,
    OfChar,
    OfShort,
}

/// An instruction that touches its frame alone, with its operand. `to` is where a jump goes.
#[derive(Clone, Copy)]
pub enum Plain {
    Push(Value),
    Load { sort: Sort, local: u16 },
    Store { sort: Sort, local: u16 },
    /// A local int grows.
    Increment { local: u16, by: i16 },
    /// pop and pop2
    Discard(Width),
    Swap,
    /// dup and its kin: the topmost units once more, beneath those under them.
    Duplicate { copied: Width, under: Width },
    CalculateInt(Operator),
    CalculateLong(Operator),
    ShiftInt(Shift),
    ShiftLong(Shift),
    DivideInt(Division),
    DivideLong(Division),
    ConvertInt(IntConversion),
    ConvertLong(LongConversion),
    CompareLongs,
    /// By a test of an int against zero.
    JumpByInt { test: Comparison, to: u32 },
    JumpByInts { test: Comparison, to: u32 },
    /// Where two references are the same, or where `other`, where they are not.
    JumpByReferences { other: bool, to: u32 },
    /// Where a reference is null, or where `other`, where it is not.
    JumpByNull { other: bool, to: u32 },
    Jump { to: u32 },
}

/// What an instruction takes and gives, without its operand.
#[derive(Clone, Copy)]
pub enum Group {
    /// It touches its frame alone and has no operand.
    Alone(Plain),
    /// The number behind the instruction goes onto the stack.
    Numbers,
    /// An int or a string of the constant pool.
    Literals,
    /// A long of the constant pool.
    Longs,
    /// A local variable onto the stack.
    Loads(Sort),
    /// The topmost value into a local variable.
    Stores(Sort),
    /// A local int grows.
    Steps,
    ElementLoads(Element),
    ElementStores(Element),
    /// Jumps by a test of an int against zero.
    IntJumps(Comparison),
    /// Jumps by a test of two ints.
    IntPairJumps(Comparison),
    /// Jumps where two references are the same, or where they are not.
    PairJumps { other: bool },
    /// Jumps where a reference is null, or where it is not.
    NullJumps { other: bool },
    Jumps,
    /// Jumps by an int.
    Switches,
    /// Returns a value of this sort, or none.
    Returns(Option<Sort>),
    StaticLoads,
    StaticStores,
    FieldLoads,
    FieldStores,
    /// Calls by the object's class.
    VirtualCalls,
    /// Calls of constructors, private methods and those of superclasses.
    SpecialCalls,
    /// Calls without an object.
    StaticCalls,
    /// A new object.
    News,
    /// A new array of a primitive type.
    NewArrays,
    /// A new array of references.
    NewReferenceArrays,
    /// New arrays of several lengths.
    NewNests,
    /// The length of an array.
    Lengths,
    Throws,
    /// Checks the type of a reference.
    Casts,
    /// Tests the type of a reference.
    Tests,
}
