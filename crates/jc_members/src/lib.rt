//! Methods as types have them (JLS 8.4.2, 8.4.8, 9.4.1): views, signatures, overriding, the members of a type by their names, and the body
//! that a class has for a method.
#![tactic(auto)]

mod adapting;
mod belonging;
mod erasing;
mod fixed;
mod kinds;
mod named;
mod overriding;
mod selecting;
mod signatures;
mod supertypes;
mod viewing;
mod walking;

pub use adapting::{adapted, erased_in, erased_within};
pub use belonging::{as_super, candidate_ids, members, remaining_ids, views_of};
pub use erasing::{plain, plain_all};
pub use fixed::{is_fixed, is_own_erasure};
pub use jc_overriding::MethodView;
pub use kinds::{
    access_of, is_abstract, is_inheritable, is_instance, is_method, is_open_to, is_static, owner,
    same_class,
};
pub use named::{MethodIndex, method_index};
pub use overriding::{
    hides, overrides, replaces, replaces_above, signature_below, subsignature_of,
};
pub use selecting::{select, select_in};
pub use signatures::{override_equivalent, same_all, subsignature};
pub use supertypes::{Supertypes, has_view, is_above, method_in, own_supertypes, supertypes_of};
pub use viewing::{declared_view, own_type, view_of_method};
