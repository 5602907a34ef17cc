//! What a running typed program does between the runs of its bodies, carried out: frames of calls, captured variables, values as they
//! are noted, arrays, what a statement completes with, and how a program begins and what it shows. Each function does what the
//! computation of its name in jc_meaning does.
#![tactic(auto)]

mod beginning;
mod capturing;
mod classes;
mod completing;
mod frames;
mod leaving;
mod making;
mod operands;

pub use beginning::{argument_array, argument_strings, begun, shown};
pub use capturing::{capture, closed_type, closed_types, forget, is_noted, note, noted};
pub use classes::{as_error, initialiser_of, set_readiness};
pub use completing::{
    broken, default_in, ended, instead, is_any_of, is_before, labelled, numbered, or_else,
    set_first, value_or_null,
};
pub use frames::{
    answered, back, default_answer, entered_all, first_locals, frame_of, led_by, method_class,
    selected,
};
pub use leaving::{left, left_class, left_value};
pub use making::{arrays, give_type, lengths_of, new_array, new_object};
pub use operands::{box_of, constant_at, instance_of, one_value, prefixes, printer_of};
