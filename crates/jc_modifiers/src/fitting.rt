//! Whether a declaration can have its modifiers.
ghost use Rattle.std.specs.Prelude.{◌≡◌, ◌++◌};
ghost use Rattle.jc_declares.specs.Modifiers.{place_words, kind_words, class_modifiers_fit, field_words, field_modifiers_fit, method_words, abstract_alone, safe_varargs_fits, words_of_method, override_fits, method_modifiers_fit, local_modifiers_fit};

use crate::words::{
    both, is_consistent, is_variable_arity, no_override, no_safe_varargs, only_words,
};
use jc_heads::says;
use jc_tree::{MethodHead, Modifier, ModifierWord};

/// The words that a type can have: one of a package public alone, a member of a class what else there is for access, and static, a
/// member of an interface public and static; an interface abstract, and a class also final.
fn class_words(is_interface: bool, is_member: bool, of_interface: bool) -> &'static [ModifierWord]
    ensures { result.now ≡ place_words is_member of_interface ++ kind_words is_interface }
{
    use ModifierWord::{Abstract, Final, Private, Protected, Public, Static};
    match (is_interface, is_member, of_interface) {
        (true, false, _) => &[Public, Abstract],
        (false, false, _) => &[Public, Abstract, Final],
        (true, true, false) => &[Public, Protected, Private, Static, Abstract],
        (false, true, false) => &[Public, Protected, Private, Static, Abstract, Final],
        (true, true, true) => &[Public, Static, Abstract],
        (false, true, true) => &[Public, Static, Abstract, Final],
    }
}

/// Whether a type can have these modifiers (JLS 8.1.1, 8.5.1, 9.1.1, 9.5).
pub fn class_fits(
    is_interface: bool,
    is_member: bool,
    of_interface: bool,
    modifiers: &[Modifier],
) -> bool
    ensures { result ≡ class_modifiers_fit is_interface is_member of_interface modifiers.now }
{
    only_words(
        class_words(is_interface, is_member, of_interface),
        modifiers,
    ) && is_consistent(modifiers)
        && !both(ModifierWord::Abstract, ModifierWord::Final, modifiers)
        && no_override(modifiers)
        && no_safe_varargs(modifiers)
}

fn field_words(of_interface: bool) -> &'static [ModifierWord]
    ensures { result.now ≡ field_words of_interface }
{
    use ModifierWord::{Final, Private, Protected, Public, Static, Transient, Volatile};
    if of_interface {
        &[Public, Static, Final]
    } else {
        &[
            Public, Protected, Private, Static, Final, Transient, Volatile,
        ]
    }
}

/// Whether a field can have these modifiers (JLS 8.3.1, 9.3).
pub fn field_fits(of_interface: bool, modifiers: &[Modifier]) -> bool
    ensures { result ≡ field_modifiers_fit of_interface modifiers.now }
{
    only_words(field_words(of_interface), modifiers)
        && is_consistent(modifiers)
        && !both(ModifierWord::Final, ModifierWord::Volatile, modifiers)
        && no_override(modifiers)
        && no_safe_varargs(modifiers)
}

/// The words that a method can have. A constructor has words for access alone (JLS 8.8.3).
fn method_words(constructs: bool, of_interface: bool) -> &'static [ModifierWord]
    ensures { result.now ≡ words_of_method constructs of_interface }
{
    use ModifierWord::{Abstract, Final, Native, Private, Protected, Public, Static};
    match (constructs, of_interface) {
        (true, _) => &[Public, Protected, Private],
        (false, true) => &[Public, Abstract],
        (false, false) => &[Public, Protected, Private, Abstract, Static, Final, Native],
    }
}

/// Whether an abstract method has none of the words that it can't have (JLS 8.4.3.1).
fn abstract_alone(modifiers: &[Modifier]) -> bool
    ensures { result ≡ abstract_alone modifiers.now }
{
    !says(ModifierWord::Abstract, modifiers)
        || !(says(ModifierWord::Private, modifiers)
            || says(ModifierWord::Static, modifiers)
            || says(ModifierWord::Final, modifiers)
            || says(ModifierWord::Native, modifiers))
}

/// Whether `@SafeVarargs` is absent, or stands where it can (JLS 9.6.3.7).
fn safe_varargs_fits(constructs: bool, head: &MethodHead) -> bool
    ensures { result ≡ safe_varargs_fits constructs head.now }
{
    let modifiers = head.modifiers.slice();
    no_safe_varargs(modifiers)
        || (is_variable_arity(head.formals.slice())
            && (constructs
                || says(ModifierWord::Static, modifiers)
                || says(ModifierWord::Final, modifiers)))
}

fn override_fits(constructs: bool, modifiers: &[Modifier]) -> bool
    ensures { result ≡ override_fits constructs modifiers.now }
{
    if constructs {
        no_override(modifiers)
    } else {
        true
    }
}

/// Whether a method or a constructor can have its modifiers (JLS 8.4.3, 8.8.3, 9.4).
pub fn method_fits(of_interface: bool, head: &MethodHead) -> bool
    ensures { result ≡ method_modifiers_fit of_interface head.now }
{
    let constructs = head.result.is_none();
    let modifiers = head.modifiers.slice();
    only_words(method_words(constructs, of_interface), modifiers)
        && is_consistent(modifiers)
        && abstract_alone(modifiers)
        && override_fits(constructs, modifiers)
        && safe_varargs_fits(constructs, head)
}

/// Whether a parameter or a local variable can have these modifiers (JLS 8.4.1, 14.4).
pub fn local_fits(modifiers: &[Modifier]) -> bool
    ensures { result ≡ local_modifiers_fit modifiers.now }
{
    only_words(&[ModifierWord::Final], modifiers)
        && is_consistent(modifiers)
        && no_override(modifiers)
        && no_safe_varargs(modifiers)
}
