//! Where names stand, and what they mean.
use crate::inherited::Inherited;
use jc_imports::Imports;
use jc_name_index::Indexed;

/// Where a name of a type stands: in a unit outside of its types, in the head of a class, in its body, or in a method of a class.
#[derive(Clone, Copy)]
pub enum Standing {
    Unit(u64),
    Head(u64),
    Body(u64),
    Method { method: u64, class: u64 },
}

/// What a name of a type means: a class or a type variable by its number, nothing, or several types, where it is ambiguous. It asks for what isn't
/// known yet where a class is in the way of which nothing is known.
#[derive(Clone, Copy)]
pub enum Sight {
    Asks,
    Nothing,
    Class(u64),
    Variable(u64),
    Several,
}

/// What names are looked up in: the declarations with their index, what imports name, and what is known of the member types that each class
/// inherits.
#[derive(Clone, Copy)]
pub struct Scene<'a> {
    pub declared: Indexed<'a>,
    pub imports: &'a Imports,
    pub known: &'a [Option<Inherited>],
}
