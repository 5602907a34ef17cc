//! Scopes (JLS 6.3).
use crate::declarations::Written;
use crate::ids::{ClassId, MethodId, ScopeId};
use crate::index::Names;
use jc_rules::{Items, Place, Text};

/// An import on demand (JLS 7.5.2): of the types of a package, or of the member types of a type.
#[derive(Drop)]
pub enum Demand {
    Package { place: Place, name: Text },
    Type { place: Place, class: ClassId },
}

/// A member type that a type inherits (JLS 8.5), under its simple name.
#[derive(Drop)]
pub struct Inherited {
    pub name: Text,
    pub class: ClassId,
}

/// What a scope is the scope of, with the names that it adds (JLS 6.3).
#[derive(Drop)]
pub enum ScopeOf {
    /// `own` has the unit's types and single imports, by class; `package` is the name of its package, empty for the unnamed
    /// one.
    Unit {
        own: Names,
        package: Text,
        demands: Items<Demand>,
    },

    /// `round` has the classes round this one, innermost first; `params` its type variables, `declared` its member types.
    Type {
        class: ClassId,
        round: Items<ClassId>,
        params: Names,
        declared: Names,
        inherited: Items<Inherited>,
    },

    /// `params` has the method's type variables.
    Method {
        method: MethodId,
        params: Names,
    },
}

/// The scope of a unit, a type or a method, and the one round it.
#[derive(Drop)]
pub struct Scope {
    pub outer: Option<ScopeId>,
    pub of: ScopeOf,
}

/// What a type that a body writes stands for: the type itself, or the type that is inferred for a diamond (JLS 15.9), of which
/// the class alone is written. A diamond's class stands here as a raw type, and is no raw type that is written.
#[derive(Clone, Copy, Debug, PartialEq, Eq, Hash)]
pub enum UseKind {
    Type,
    Diamond,
}

/// A type that a body writes: the class whose body it is, the scope in which it stands there, and what it stands for.
#[derive(Drop)]
pub struct Use {
    pub class: ClassId,
    pub scope: ScopeId,
    pub ty: Written,
    pub kind: UseKind,
}
