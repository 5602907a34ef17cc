//! What the sources of a program declare (JLS 6 to 9), as a definition: the declarations in their order, what a name means where it
//! stands, the rules of names (301 to 311), and the table of a program. It holds no code but the types of a source and of the heads of
//! declarations; the stage of names stands on it.
#![tactic(auto)]

mod heads;
mod unit;

pub use heads::{
    ClassHead, FieldHead, Heads, ImportHead, MethodPlace, Path, ScopeForm, ScopeHead, Standing,
    UnitHead, VariableHead,
};
pub use unit::SourceUnit;
