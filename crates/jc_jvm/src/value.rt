//! Values of the machine, and the types of objects and arrays (JVMS 2.2 to 2.4).

/// A value of the machine: an int, which stands for the smaller whole numbers too, a long, a reference to an object or an array,
/// or null (JVMS 2.3, 2.4). An address is the number of objects and arrays that were made before.
#[derive(Clone, Copy, Debug, PartialEq, Eq)]
pub enum Value {
    Whole(i32),
    Long(i64),
    Address(u64),
    NullValue,
}

/// A type without dimensions: a primitive one, or the class or interface of this number (JVMS 2.2).
#[derive(Clone, Copy, Debug, PartialEq, Eq)]
pub enum Base {
    Boolean,
    Char,
    Byte,
    Short,
    Int,
    Long,
    Class(u64),
}

/// A type: a base with so many dimensions around it. Where there are none it is the base itself.
#[derive(Clone, Copy, Debug, PartialEq, Eq)]
pub struct Shape {
    pub base: Base,
    pub dims: u64,
}
