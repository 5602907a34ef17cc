//! Fields by their names as classes and types have them (JLS 8.2, 8.3, 9.3), their types (JLS 4.5.2, 4.8), and who may name a member (JLS 6.6.1).
#![tactic(auto)]

mod access;
mod declared;
mod hiding;
mod named;
mod viewing;

pub use access::{is_open_at, is_open_type, may_name_class, may_name_field, may_name_method};
pub use declared::{
    declared_field, field_access, field_class, field_erasure, field_offset, is_private,
    is_static_field,
};
pub use hiding::class_fields;
pub use named::{fields_named, member_fields};
pub use viewing::{field_in, is_raw_as};
