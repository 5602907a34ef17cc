//! Values of a running program (JLS 4.2, 4.3).

/// A value of a running program (JLS 4.2, 4.3).
///
/// `Whole` has the values of `boolean`, where false is 0 and true is 1, of `byte`, `short`, `char` and `int`. `Address` is a
/// reference to an object or array: its place in the order in which they were made.
#[derive(Clone, Copy, Debug, PartialEq, Eq)]
pub enum Value {
    Whole(i32),
    Long(i64),
    Address(u64),
    Null,
}

/// How far the initialisation of a class or interface has come (JLS 12.4.2).
#[derive(Clone, Copy, Debug, PartialEq, Eq)]
pub enum Readiness {
    Untouched,
    Begun,
    Ready,
    Failed,
}

/// How a statement completes where it throws nothing (JLS 14.1): normally, by a jump to the end or to the next turn of a statement,
/// which has a number, or by a return. A return without a value gives null.
#[derive(Clone, Copy, Debug, PartialEq, Eq)]
pub enum Completion {
    Normal,
    Broke(u32),
    Continued(u32),
    Returned(Value),
}

/// How a turn of a loop ends: there is another one, with this, or the loop completes.
#[derive(Drop)]
pub enum Turn<I> {
    Again(I),
    Last(Completion),
}
