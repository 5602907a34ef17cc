//! The modifiers of declarations: those that are written or implied, and whether a declaration can have them (JLS 8.1.1, 8.3.1, 8.4.3,
//! 9.1.1, 9.3, 9.4).
#![tactic(auto)]

mod fitting;
mod implied;
mod words;

pub use fitting::{class_fits, field_fits, local_fits, method_fits};
pub use implied::{
    class_modifiers, field_modifiers, implied_constructor_modifiers, method_modifiers,
    static_initialiser_modifiers,
};
pub use words::is_variable_arity;
