//! What a name or an expression finds.
use jc_exprs_locals::ScopedLocal;
use jc_rules::Place;
use jc_types::FieldId;

/// A field, by places in the arena: `before` are the operands that are evaluated and dropped before a static one, and `of` is the object of another one; `ty` is its type. `is_raw` tells whether
/// the object is of a raw type as the field's class, and `is_simple` whether the field's simple name alone names it.
#[derive(Clone, Copy, Debug)]
pub struct FieldFound {
    pub place: Place,
    pub field: FieldId,
    pub before: u32,
    pub of: u32,
    pub ty: u32,
    pub is_raw: bool,
    pub is_simple: bool,
}

/// What is found: a local, a field, an element of an array, or an array's length. Operands and types are places in the arena.
#[derive(Clone, Copy)]
pub enum LocatedAt<'a> {
    Local {
        place: Place,
        local: &'a ScopedLocal,
    },
    Field(FieldFound),
    Element {
        place: Place,
        array: u32,
        index: u32,
        ty: u32,
    },
    Length {
        place: Place,
        array: u32,
    },
}
