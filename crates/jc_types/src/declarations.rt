//! What a program declares (JLS 8, 9).
use crate::constant::{Constant, ConstantExpr};
use crate::form::Ty;
use crate::ids::{ClassId, FieldId, MethodId, ScopeId, VarId};
use jc_rules::{Items, Place, Text};

/// Where a type is written: the place of its first token, and a place for each class or raw type inside it, itself included,
/// in the order of `class_types`. A type that is implied has the place of what implies it, and no places inside.
#[derive(Drop)]
pub struct TypePlaces {
    pub first: Place,
    pub classes: Items<Place>,
}

/// A type as it is written.
#[derive(Drop)]
pub struct Written {
    pub ty: Ty,
    pub places: TypePlaces,
}

/// Types as they are written, with the places of each.
#[derive(Drop)]
pub struct WrittenTypes {
    pub types: Items<Ty>,
    pub places: Items<TypePlaces>,
}

/// Who may use a declaration (JLS 6.6).
#[derive(Clone, Copy, Debug, PartialEq, Eq, Hash)]
pub enum Access {
    Public,
    Protected,
    Package,
    Private,
}

/// The modifiers of a declaration, with those that are implied (JLS 8.1.1, 8.3.1, 8.4.3, 9.1.1, 9.3, 9.4).
#[derive(Clone, Copy, Debug, PartialEq, Eq)]
pub struct Modifiers {
    pub access: Access,
    pub is_abstract: bool,
    pub is_static: bool,
    pub is_final: bool,
    pub is_native: bool,
    pub is_transient: bool,
    pub is_volatile: bool,

    /// `@Override` stands at the declaration (JLS 9.6.3.4).
    pub says_override: bool,
}

/// What a type declaration declares.
#[derive(Clone, Copy, Debug, PartialEq, Eq, Hash)]
pub enum Kind {
    Class,
    Interface,
}

/// A class or interface (JLS 8 and 9).
///
/// `name` is its simple name, `binary` its binary name with dots (JLS 13.1), and `package` the name of its package, which is
/// empty for the unnamed one. `outer` is the class that it is a member of, and `members` lists its own member types in their
/// order. `scope` is that of its body. The first of `supers` is the superclass, which is `Object` for an interface and where
/// none is written; `Object` alone has no supertype. The superinterfaces follow in the order in which they are written.
/// `methods` and `fields` list what it declares, in their order.
#[derive(Drop)]
pub struct ClassDecl {
    pub place: Place,
    pub name: Text,
    pub binary: Text,
    pub package: Text,
    pub outer: Option<ClassId>,
    pub members: Items<ClassId>,
    pub scope: ScopeId,
    pub modifiers: Modifiers,
    pub kind: Kind,
    pub vars: Items<VarId>,
    pub supers: WrittenTypes,
    pub methods: Items<MethodId>,
    pub fields: Items<FieldId>,
}

/// What a method of the table is.
#[derive(Clone, Copy, Debug, PartialEq, Eq, Hash)]
pub enum MethodKind {
    Method,
    Constructor,

    /// A constructor that no source writes (JLS 8.8.9).
    ImpliedConstructor,

    /// What sets a type's static fields and runs its static blocks (JLS 12.4).
    StaticInitialiser,
}

/// The name of a parameter (JLS 8.4.1), with its place, and whether it is `final`.
#[derive(Drop)]
pub struct ParamName {
    pub place: Place,
    pub name: Text,
    pub is_final: bool,
}

/// A method, constructor or static initialiser (JLS 8.4, 8.8 and 9.4).
///
/// `class` declares it. `param_names` has the name of each parameter of `params`. `result` is None for `void`, for a constructor
/// and for a static initialiser. `is_variable_arity` tells that the last parameter, whose type is an array, was written with
/// dots (JLS 8.4.1).
#[derive(Drop)]
pub struct MethodDecl {
    pub place: Place,
    pub class: ClassId,
    pub name: Text,
    pub kind: MethodKind,
    pub modifiers: Modifiers,
    pub scope: ScopeId,
    pub vars: Items<VarId>,
    pub params: WrittenTypes,
    pub param_names: Items<ParamName>,
    pub result: Option<Written>,
    pub thrown: WrittenTypes,
    pub is_variable_arity: bool,
    pub has_body: bool,
}

/// What is known of a field's value before it runs.
#[derive(Drop)]
pub enum FieldValue {
    /// It is no constant variable (JLS 4.12.4).
    Unknown,

    /// The initialiser of a final field, which has only the forms of a constant expression, and its scope.
    Initialiser { scope: ScopeId, expr: ConstantExpr },

    /// The constant of a field that was read from a class file.
    Known(Constant),
}

/// A field (JLS 8.3 and 9.3). `class` declares it.
#[derive(Drop)]
pub struct FieldDecl {
    pub place: Place,
    pub class: ClassId,
    pub name: Text,
    pub modifiers: Modifiers,
    pub ty: Written,
    pub value: FieldValue,
}

/// What declares a type variable.
#[derive(Clone, Copy, Debug, PartialEq, Eq, Hash)]
pub enum Owner {
    Class(ClassId),
    Method(MethodId),
}

/// A type variable (JLS 4.4), with its bounds in the order in which they are written, or `Object` where none is.
#[derive(Drop)]
pub struct VariableDecl {
    pub place: Place,
    pub name: Text,
    pub owner: Owner,
    pub bounds: WrittenTypes,
}
