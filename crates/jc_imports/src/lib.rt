//! What imports name: types and packages by their canonical names (JLS 6.7, 7.5).
#![tactic(auto)]

mod canonical;
mod imports;

pub use canonical::{Found, imported};
pub use imports::{Imports, UnitImports, imports_of};
