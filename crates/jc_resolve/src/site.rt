//! What a call says of itself.
use jc_members::MethodView;
use jc_rules::Items;
use jc_types::Ty;

/// A method call or the creation of an object, as far as the choice of its member asks (JLS 15.12.2).
///
/// `members` are the methods of the name, or the constructors, that may be accessed there, as the captured type has them, in the order of the table. `explicit` has the type
/// arguments that the call writes, none where it writes none. `args` has the types of the arguments. `target` is the type that the call's value is assigned to, where it is.
#[derive(Drop)]
pub struct CallSite {
    pub members: Items<MethodView>,
    pub explicit: Items<Ty>,
    pub args: Items<Ty>,
    pub target: Option<Ty>,
}
