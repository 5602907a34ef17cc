//! What the table says of a method: whether it is one, who may inherit it, and which class declares it.
ghost use Rattle.std.specs.Prelude.{◌≡◌};
ghost use Rattle.jc_overriding.specs.Overriding.{access_of, is_abstract, is_instance, is_inheritable, is_method, is_open_to, owner, same_class};
ghost use Rattle.jc_overriding.specs.Viewing.{is_static};

use jc_types::{
    Access, ClassId, MethodId, MethodKind, Table, class_package, method_kind, method_modifiers,
    method_owner,
};

/// Whether a method of the table is one, and no constructor or initialiser.
pub fn is_method(table: &Table, m: MethodId) -> bool
    ensures { result ≡ is_method table.now m }
{
    match method_kind(table, m) {
        Some(kind) => match kind {
            MethodKind::Method => true,
            _ => false,
        },
        None => false,
    }
}

pub fn is_static(table: &Table, m: MethodId) -> bool
    ensures { result ≡ is_static table.now m }
{
    match method_modifiers(table, m) {
        Some(modifiers) => modifiers.is_static,
        None => false,
    }
}

pub fn is_instance(table: &Table, m: MethodId) -> bool
    ensures { result ≡ is_instance table.now m }
{
    is_method(table, m) && !is_static(table, m)
}

/// Whether a method has the modifier `abstract`, or stands in an interface (JLS 8.4.3.1, 9.4).
pub fn is_abstract(table: &Table, m: MethodId) -> bool
    ensures { result ≡ is_abstract table.now m }
{
    match method_modifiers(table, m) {
        Some(modifiers) => modifiers.is_abstract,
        None => false,
    }
}

pub fn access_of(table: &Table, m: MethodId) -> Access
    ensures { result ≡ access_of table.now m }
{
    match method_modifiers(table, m) {
        Some(modifiers) => modifiers.access,
        None => Access::Private,
    }
}

/// The class that declares a method, and Object where there is no such method.
pub fn owner(table: &Table, m: MethodId) -> ClassId
    ensures { result ≡ owner table.now m }
{
    match method_owner(table, m) {
        Some(k) => k,
        None => ClassId(0),
    }
}

pub fn same_class(k: ClassId, l: ClassId) -> bool
    ensures { result ≡ same_class k l }
{
    k.0 == l.0
}

/// Whether a subclass inherits what has this access, where it is of the same package or isn't (JLS 6.6.1, 8.2).
pub fn is_open_to(access: Access, is_same_package: bool) -> bool
    ensures { result ≡ is_open_to access is_same_package }
{
    match access {
        Access::Public => true,
        Access::Protected => true,
        Access::Package => is_same_package,
        Access::Private => false,
    }
}

/// Whether a class may inherit a method (JLS 8.4.8).
pub fn is_inheritable(table: &Table, k: ClassId, m: MethodId) -> bool
    ensures { result ≡ is_inheritable table.now k m }
{
    match access_of(table, m) {
        Access::Public => true,
        Access::Protected => true,
        Access::Package => class_package(table, k) == class_package(table, owner(table, m)),
        Access::Private => false,
    }
}
