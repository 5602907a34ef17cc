//! All modifiers of a declaration, the implied ones among them.
ghost use Rattle.std.specs.Prelude.{◌≡◌, [], true};
ghost use Rattle.jc_declares.specs.Modifiers.{written_modifiers, class_modifiers, field_modifiers, method_modifiers};

use crate::words::annotated;
use jc_heads::{access_with, says, written_access};
use jc_tree::{Modifier, ModifierWord};
use jc_types::{Access, Modifiers};

fn written_modifiers(modifiers: &[Modifier]) -> Modifiers
    ensures { result ≡ written_modifiers modifiers.now }
{
    Modifiers {
        access: written_access(modifiers),
        is_abstract: says(ModifierWord::Abstract, modifiers),
        is_static: says(ModifierWord::Static, modifiers),
        is_final: says(ModifierWord::Final, modifiers),
        is_native: says(ModifierWord::Native, modifiers),
        is_transient: says(ModifierWord::Transient, modifiers),
        is_volatile: says(ModifierWord::Volatile, modifiers),
        says_override: annotated("Override", modifiers),
    }
}

/// The modifiers of a type: an interface is abstract, a member type static, and one of an interface public (JLS 9.1.1.1, 9.5).
pub fn class_modifiers(
    is_interface: bool,
    is_member: bool,
    of_interface: bool,
    modifiers: &[Modifier],
) -> Modifiers
    ensures { result ≡ class_modifiers is_interface is_member of_interface modifiers.now }
{
    let written = written_modifiers(modifiers);
    Modifiers {
        access: access_with(of_interface, modifiers),
        is_abstract: is_interface || written.is_abstract,
        is_static: is_member,
        ..written
    }
}

/// The modifiers of a field: those of an interface are public, static and final (JLS 9.3).
pub fn field_modifiers(of_interface: bool, modifiers: &[Modifier]) -> Modifiers
    ensures { result ≡ field_modifiers of_interface modifiers.now }
{
    let written = written_modifiers(modifiers);
    Modifiers {
        access: access_with(of_interface, modifiers),
        is_static: of_interface || written.is_static,
        is_final: of_interface || written.is_final,
        ..written
    }
}

/// The modifiers of a method: those of an interface are public and abstract (JLS 9.4).
pub fn method_modifiers(of_interface: bool, modifiers: &[Modifier]) -> Modifiers
    ensures { result ≡ method_modifiers of_interface modifiers.now }
{
    let written = written_modifiers(modifiers);
    Modifiers {
        access: access_with(of_interface, modifiers),
        is_abstract: of_interface || written.is_abstract,
        ..written
    }
}

/// The modifiers of a constructor that no source writes, which has the access of its class (JLS 8.8.9).
pub fn implied_constructor_modifiers(access: Access) -> Modifiers
    ensures { result ≡ record (written_modifiers []) { access = access } }
{
    Modifiers {
        access,
        ..written_modifiers(&[])
    }
}

/// The modifiers of a static initialiser (JLS 8.7).
pub fn static_initialiser_modifiers() -> Modifiers
    ensures { result ≡ record (written_modifiers []) { is_static = true } }
{
    Modifiers {
        is_static: true,
        ..written_modifiers(&[])
    }
}
