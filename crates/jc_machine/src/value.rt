//! Values of the machine (JVMS 2.3, 2.4).

/// A value of the machine: an int, which stands for the smaller whole numbers too, a long, a reference to an object or an array,
/// or null (JVMS 2.3, 2.4).
#[derive(Clone, Copy, Debug, PartialEq, Eq)]
pub enum Value {
    Whole(i32),
    Long(i64),
    Address(u64),
    NullValue,
}
