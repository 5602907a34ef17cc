//! Prefix operators so far.
use jc_exprs_nodes::Part;
use jc_rules::{Items, Place};
use jc_types::{Op, Primitive};

/// An operand, or prefix operators before it, the innermost first: the place of the outermost one, and the primitive type that the operand is converted to.
#[derive(Drop)]
pub enum SignedAt {
    Unsigned(Part),
    Under {
        place: Place,
        to: Primitive,
        ops: Items<Op>,
        of: u32,
    },
}
