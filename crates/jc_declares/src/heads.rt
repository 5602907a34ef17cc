//! What declarations say before their bodies.
use jc_rules::{Items, Text};
use jc_types::{Access, Kind, Owner};

/// A name of one part or several, with the offset of the first (JLS 6.2).
#[derive(Drop)]
pub struct Path {
    pub at: u32,
    pub first: Text,
    pub more: Items<Text>,
}

/// An import of a type, or on demand (JLS 7.5); `at` is the offset of its keyword.
#[derive(Drop)]
pub struct ImportHead {
    pub at: u32,
    pub path: Path,
    pub on_demand: bool,
}

/// What stands before the types of a source: `package` is its package's name with points, which is empty for the unnamed one, and
/// `at` the offset at which that is declared, or 0.
#[derive(Drop)]
pub struct UnitHead {
    pub file: u64,
    pub at: u32,
    pub package: Text,
    pub imports: Items<ImportHead>,
}

/// A class or interface with what names need of it. `at` is the offset of its first token; `round` has the classes round it, the
/// innermost first; `unit` and `scope` are places in their lists. `superclass` has none or one.
#[derive(Drop)]
pub struct ClassHead {
    pub file: u64,
    pub at: u32,
    pub unit: u64,
    pub round: Items<u64>,
    pub scope: u64,
    pub name: Text,
    pub kind: Kind,
    pub access: Access,
    pub is_final: bool,
    pub superclass: Items<Path>,
    pub interfaces: Items<Path>,
}

/// A method, written or implied, by its class and its scope.
#[derive(Clone, Copy, Debug, PartialEq, Eq)]
pub struct MethodPlace {
    pub class: u64,
    pub scope: u64,
}

/// A field by its class, its name and the offset of that.
#[derive(Drop)]
pub struct FieldHead {
    pub class: u64,
    pub at: u32,
    pub name: Text,
}

/// A type parameter of a class or a method.
#[derive(Drop)]
pub struct VariableHead {
    pub owner: Owner,
    pub at: u32,
    pub name: Text,
}

/// What a scope is the scope of, by its number.
#[derive(Clone, Copy, Debug, PartialEq, Eq)]
pub enum ScopeForm {
    Unit(u64),
    Class(u64),
    Method(u64),
}

#[derive(Clone, Copy, Debug, PartialEq, Eq)]
pub struct ScopeHead {
    pub outer: Option<u64>,
    pub form: ScopeForm,
}

/// Where something is declared: in a unit of a file, in the body of the first of `round`, which has the classes round it from the
/// innermost outwards and is empty outside of all classes; whether that body is one of an interface; and in which scope.
#[derive(Drop)]
pub struct Standing {
    pub file: u64,
    pub unit: u64,
    pub round: Items<u64>,
    pub of_interface: bool,
    pub scope: u64,
}

/// The declarations of a program with what names need of them, in the order of the sources. A number is a place in its list.
#[derive(Drop)]
pub struct Heads {
    pub units: Items<UnitHead>,
    pub classes: Items<ClassHead>,
    pub methods: Items<MethodPlace>,
    pub fields: Items<FieldHead>,
    pub variables: Items<VariableHead>,
    pub scopes: Items<ScopeHead>,
}
