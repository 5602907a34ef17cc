//! What names mean.
use jc_rules::Items;
use jc_types::{ClassId, FieldId};

/// What a name means that isn't a local: fields as members of a class, where it is told whether that is the class of the place; a class; a package by its name; or what is no value, no class and no
/// package.
#[derive(Drop)]
pub enum NameSense {
    Fields {
        class: ClassId,
        is_own: bool,
        fields: Items<FieldId>,
    },
    Class(ClassId),
    Package(String),
    Nothing,
}
