//! Reads the parts of source files: names, packages, imports, annotations, modifiers, type parameters, formal parameters, variables and
//! heads (JLS 4.4, 6.5, 7.4, 7.5, 8.1, 8.3, 8.4.1, 9.1, 9.6, 9.7). Each call answers what the reader in its clause reads, with the reach,
//! or else want of memory; and what it leaves is no longer than what it was given.
#![tactic(auto)]

/// The least of numbers.
macro_rules! least {
    ($left:expr) => { $left };
    ($left:expr, $($more:expr),+) => { $left.min(least!($($more),+)) };
}

/// What is read behind parts with these reaches; where nothing is, the function answers the least reach.
macro_rules! after {
    ($read:expr, $($left:expr),+) => {
        match $read {
            Ok(found) => found,
            Err(Halt::Stopped(reach)) => return Err(Halt::Stopped(least!($($left),+, reach))),
            Err(Halt::WantOfMemory) => return Err(Halt::WantOfMemory),
        }
    };
}

/// The same, where a value is held, which is let go where nothing is read.
macro_rules! after_holding {
    ($held:expr, $read:expr, $($left:expr),+) => {
        match $read {
            Ok(found) => found,
            Err(Halt::Stopped(reach)) => {
                let left = least!($($left),+, reach);
                return Err(without($held, Halt::Stopped(left)));
            }
            Err(Halt::WantOfMemory) => return Err(without($held, Halt::WantOfMemory)),
        }
    };
}

mod annotations;
mod heads;
mod kinds;
mod lists;
mod names;
mod openings;
mod params;
mod trees;
mod variables;

pub use annotations::{annotation_within, modifier_within, modifiers_within, value_within};
pub use heads::{head_of, head_rest_within};
pub use kinds::{class_within, dims, type_within};
pub use lists::{each, many, row, separated};
pub use names::{
    more_names, name, past_sign, past_sign_at, past_word, past_word_at, sign, sign_at, word,
    word_at,
};
pub use openings::{import, package};
pub use params::{keyed_within, params_of_within, params_within};
pub use variables::{
    formal_within, formals_within, initial_within, more_vars_within, var_within, vars_within,
};
