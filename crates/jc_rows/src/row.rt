//! Instructions with what their names mean.
use jc_class_out::SwitchCase;
use jc_jvm::{Element, Plain, Shape, Sort};
use jc_rules::Items;

/// What an instruction does, with what its names mean: fields and methods by the numbers of their class and of themselves there.
#[derive(Drop)]
pub enum Row {
    /// It touches its frame alone.
    Alone(Plain),
    /// The String of this text onto the stack.
    Literal(Items<u16>),
    LoadElement(Element),
    StoreElement(Element),
    Switch {
        otherwise: u32,
        cases: Items<SwitchCase>,
    },
    /// Returns a value of the sort `wanted`, or none, from a method whose result has the sort `given`.
    Return {
        wanted: Option<Sort>,
        given: Option<Sort>,
    },
    Throw,
    LoadStatic {
        sort: Sort,
        class: u64,
        field: u64,
    },
    StoreStatic {
        sort: Sort,
        class: u64,
        field: u64,
    },
    LoadField {
        sort: Sort,
        slot: usize,
    },
    StoreField {
        sort: Sort,
        slot: usize,
    },
    /// A call by the object's class of the method whose name and descriptor have this number, where any method has them; `sorts` are
    /// those of what it takes.
    CallVirtual {
        signature: Option<u64>,
        sorts: Items<Sort>,
    },
    CallSpecial {
        target: Option<(u64, u64)>,
        sorts: Items<Sort>,
    },
    CallStatic {
        class: u64,
        method: u64,
        sorts: Items<Sort>,
    },
    /// A new object.
    New(u64),
    /// A new array of elements of this type.
    NewArray(Shape),
    /// New arrays of several lengths.
    NewNest {
        shape: Shape,
        dims: u8,
    },
    Length,
    Cast(Option<Shape>),
    Test(Option<Shape>),
    /// The table allows nothing.
    Nothing,
}

/// A row at its place in code, and the place behind its instruction.
#[derive(Drop)]
pub struct Placed {
    pub row: Row,
    pub next: u32,
}
