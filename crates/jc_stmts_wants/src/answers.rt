//! What a walk has of the items of a body.
use jc_rules::Items;
use jc_types::Ty;

/// The constant of a label: its value, and the place in the arena of the locals that it names.
#[derive(Clone, Copy, Debug)]
pub struct KeyAt {
    pub value: i64,
    pub named: u32,
}

/// A scope: how many locals were in scope before it, and of a `switch` the type of its selector and the constants of its labels so far.
#[derive(Drop)]
pub struct Scope {
    pub size: usize,
    pub selector: Option<Ty>,
    pub keys: Items<i64>,
}
