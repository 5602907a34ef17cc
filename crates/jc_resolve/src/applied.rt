//! What is said of a member in a phase.
use jc_members::MethodView;
use jc_rules::Items;
use jc_types::Ty;

/// Whether the arguments of a call are converted to parameters, and whether a conversion is unchecked (JLS 5.1.9). `Deep` is said where the first that isn't converted has neither a proof
/// nor a refutation of height 64.
#[derive(Clone, Copy, Debug, PartialEq, Eq)]
pub enum Fit {
    Fits { unchecked: bool },
    Fails,
    Deep,
}

/// Whether a member is applicable, with what stands for its type parameters and the types to which the arguments go.
#[derive(Drop)]
pub enum Applied {
    Applies {
        type_args: Items<Ty>,
        formals: Items<Ty>,
        unchecked: bool,
    },
    Fails,
    Deep,
}

/// A member that is applicable, with the type of the parameter to which each argument goes.
#[derive(Drop)]
pub struct Candidate {
    pub member: MethodView,
    pub type_args: Items<Ty>,
    pub formals: Items<Ty>,
    pub unchecked: bool,
}
