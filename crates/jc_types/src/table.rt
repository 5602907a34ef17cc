//! The table of what a program declares.
use crate::declarations::{ClassDecl, FieldDecl, MethodDecl, VariableDecl};
use crate::index::Names;
use crate::scopes::{Scope, Use};
use jc_rules::Items;

/// What a program declares, each list in the order of the sources, those of the prelude first.
///
/// An id is a place in its list. `index` has the places of the classes by their binary names, with dots; where two classes have
/// one name it has the first. `IsTable` of `specs/Tables.antt` says so, and that written types have their places.
#[derive(Drop)]
pub struct Table {
    pub classes: Items<ClassDecl>,
    pub methods: Items<MethodDecl>,
    pub fields: Items<FieldDecl>,
    pub variables: Items<VariableDecl>,
    pub scopes: Items<Scope>,
    pub uses: Items<Use>,
    pub index: Names,
}
