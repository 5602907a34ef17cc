//! A name and its place.
use jc_rules::Text;

/// An identifier, and the offset of its first byte.
#[derive(Debug, Drop)]
pub struct Ident {
    pub at: u32,
    pub text: Text,
}
