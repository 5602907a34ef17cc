//! Methods as types have them.
use jc_rules::Items;
use jc_types::{MethodId, Ty, VarId};

/// A method as a type has it, with that type's arguments for its class's parameters (JLS 4.5, 4.8).
///
/// `bounds` has for each of `vars`, the method's own type parameters, its upper bounds. `result` is None for `void`. `variable` tells
/// that the last parameter takes any number of arguments.
#[derive(Drop)]
pub struct MethodView {
    pub id: MethodId,
    pub vars: Items<VarId>,
    pub bounds: Items<Items<Ty>>,
    pub params: Items<Ty>,
    pub result: Option<Ty>,
    pub thrown: Items<Ty>,
    pub variable: bool,
}
