//! The words among modifiers, and what they say of access.
ghost use Rattle.std.specs.Prelude.{◌≡◌};
ghost use Rattle.jc_declares.specs.Words.{same_word, is_word, says};
ghost use Rattle.jc_declares.specs.Heads.{written_access, access_with, access_of_type};

use jc_tree::{Modifier, ModifierWord};
use jc_types::Access;

fn same_word(a: ModifierWord, b: ModifierWord) -> bool
    ensures { result ≡ same_word a b }
{
    match a {
        ModifierWord::Public => matches!(b, ModifierWord::Public),
        ModifierWord::Protected => matches!(b, ModifierWord::Protected),
        ModifierWord::Private => matches!(b, ModifierWord::Private),
        ModifierWord::Static => matches!(b, ModifierWord::Static),
        ModifierWord::Abstract => matches!(b, ModifierWord::Abstract),
        ModifierWord::Final => matches!(b, ModifierWord::Final),
        ModifierWord::Native => matches!(b, ModifierWord::Native),
        ModifierWord::Volatile => matches!(b, ModifierWord::Volatile),
        ModifierWord::Transient => matches!(b, ModifierWord::Transient),
    }
}

fn is_word(word: ModifierWord, modifier: &Modifier) -> bool
    ensures { result ≡ is_word word modifier.now }
{
    match modifier {
        Modifier::Annotation(_) => false,
        Modifier::Word { word: own, .. } => same_word(word, *own),
    }
}

/// Whether a word stands among modifiers.
pub fn says(word: ModifierWord, modifiers: &[Modifier]) -> bool
    ensures { result ≡ says word modifiers.now }
{
    for modifier in modifiers {
        if is_word(word, modifier) {
            return true;
        }
    }
    false
}

/// The access that words among modifiers give.
pub fn written_access(modifiers: &[Modifier]) -> Access
    ensures { result ≡ written_access modifiers.now }
{
    if says(ModifierWord::Public, modifiers) {
        return Access::Public;
    }
    if says(ModifierWord::Protected, modifiers) {
        return Access::Protected;
    }
    if says(ModifierWord::Private, modifiers) {
        Access::Private
    } else {
        Access::Package
    }
}

/// The access of a declaration, where members of interfaces are public (JLS 9.3 to 9.5).
pub fn access_with(of_interface: bool, modifiers: &[Modifier]) -> Access
    ensures { result ≡ access_with of_interface modifiers.now }
{
    if of_interface {
        Access::Public
    } else {
        written_access(modifiers)
    }
}

/// The access of a type, where one that is a member of no class is public, or else open to its package (JLS 6.6.1).
pub fn access_of_type(is_top: bool, of_interface: bool, modifiers: &[Modifier]) -> Access
    ensures { result ≡ access_of_type is_top of_interface modifiers.now }
{
    if !is_top {
        return access_with(of_interface, modifiers);
    }
    if says(ModifierWord::Public, modifiers) {
        Access::Public
    } else {
        Access::Package
    }
}
