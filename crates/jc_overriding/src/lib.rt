//! Methods as types have them (JLS 8.4.2, 8.4.8, 9.4.1): signatures, overriding, members and the body that a class has for a method, as
//! definitions. It holds no code but the view of a method.
#![tactic(auto)]

mod view;

pub use view::MethodView;
