//! Variables that are assigned, and the native methods.
use jc_running::Value;
use jc_types::FieldId;

/// A variable that is assigned: what its parts gave (JLS 15.26.1).
#[derive(Clone, Copy, Debug, PartialEq, Eq)]
pub enum Target {
    ToLocal(u32),
    ToStatic(FieldId),
    ToField(Value, FieldId),
    ToElement(Value, Value),
}

/// A native method of the library.
#[derive(Clone, Copy, Debug, PartialEq, Eq)]
pub enum Native {
    HashCode,
    ClassName,
    Put,
    ReadByte,
    Halt,
}
