//! Verification types and type states (JVMS SE 7, 4.10.1.2 to 4.10.1.4): which types may stand for which, by the superclasses that classes have,
//! and what is known of the locals and of the stack before an instruction.
#![tactic(auto)]

mod below;
mod classes;
mod frames;
mod locals;
mod names;
mod stacks;
mod states;
mod units;
mod wanted;

pub use below::is_name_below;
pub use classes::Supertypes;
pub use locals::store;
pub use names::{array_of, dims_of, names_array};
pub use stacks::{discard, duplicate, push, swap, take, take_as};
pub use states::TypeState;
pub use units::{
    UnitType, element_of, has_one_unit, is_assignable, is_reference, is_same, unit_of, unit_of_type,
};
pub use wanted::Wanted;
