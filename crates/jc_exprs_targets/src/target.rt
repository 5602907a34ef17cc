//! A variable that is assigned.
use jc_rules::Place;
use jc_types::Erased;

/// A variable that is assigned: its first tokens, with the parentheses round it and without them; the place in the arena of its type, as its receiver has it and without capture; the erasure of its
/// declared type; its place in the arena; and whether it is a field that is named simply before its declaration, which may be assigned there but not read (JLS 8.3.2.3).
#[derive(Clone, Copy, Debug)]
pub struct TargetAt {
    pub start: Place,
    pub place: Place,
    pub ty: u32,
    pub declared: Erased,
    pub variable: u32,
    pub is_forward: bool,
}
