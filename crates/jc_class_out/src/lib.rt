//! Class files of the Java Virtual Machine: their model, their format (JVMS SE 7, chapter 4), and their bytes.
#![tactic(auto)]

mod descriptors;
mod fitting;
mod format;
mod forms;
mod kinds;
mod model;
mod pool;
mod room;
mod sieve;
mod texts;
mod uses;
mod writer;
mod writing;

pub use descriptors::{behind_type, field_descriptor, method_descriptor, units_of_parameters};
pub use fitting::{above, jump_target, without_body};
pub use format::{Constant, Entry, Flaw, Kind, Slot};
pub use kinds::{array_code, kind};
pub use model::{
    ClassModel, CodeModel, FieldModel, Frame, Handler, InnerModel, Ins, Item, Loaded, MethodModel,
    Operand, SwitchCase,
};
pub use room::fits;
pub use writer::class_bytes;
pub use writing::gap;
