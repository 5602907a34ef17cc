//! What the Java Virtual Machine is (JVMS SE 7, chapters 2, 5 and 6): the data of a machine that runs, and in `specs/` the definition of its
//! start, its steps and its runs, over the models of classes. It is no machine: `jc_core` is one, by this definition.
#![tactic(auto)]

mod cells;
mod frame;
mod groups;
mod literals;
mod operands;
mod slots;
mod statics;
mod texts;
mod value;
mod world;

pub use cells::{Cell, Cells};
pub use frame::{Frame, Waiting};
pub use groups::{
    Comparison, Division, Element, Group, IntConversion, LongConversion, Operator, Plain, Shift,
    Width,
};
pub use literals::Literals;
pub use operands::{Operands, Sort, sort_of};
pub use slots::Slots;
pub use statics::Statics;
pub use texts::Texts;
pub use value::{Base, Shape, Value};
pub use world::{ClassState, Ending, Fault, Interned, Native, World};
