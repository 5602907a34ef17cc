//! Words and annotations among modifiers.
ghost use Rattle.std.specs.Prelude.{◌≡◌, List, ◌∷◌, ◌&&◌};
ghost use Rattle.jc_tree.specs.declared.statement.Modifier.{Modifier};
ghost use Rattle.jc_declares.specs.Words.{same_word, says};
ghost use Rattle.jc_declares.specs.Modifiers.{is_annotation, annotated, word_in, only_words, is_again, repeats, both, is_consistent, no_override, no_safe_varargs, last_is_variable};

use jc_heads::says;
use jc_tree::{Formal, Modifier, ModifierWord};

fn same_word(a: ModifierWord, b: ModifierWord) -> bool
    ensures { result ≡ same_word a b }
{
    match a {
        ModifierWord::Public => matches!(b, ModifierWord::Public),
        ModifierWord::Protected => matches!(b, ModifierWord::Protected),
        ModifierWord::Private => matches!(b, ModifierWord::Private),
        ModifierWord::Static => matches!(b, ModifierWord::Static),
        ModifierWord::Abstract => matches!(b, ModifierWord::Abstract),
        ModifierWord::Final => matches!(b, ModifierWord::Final),
        ModifierWord::Native => matches!(b, ModifierWord::Native),
        ModifierWord::Volatile => matches!(b, ModifierWord::Volatile),
        ModifierWord::Transient => matches!(b, ModifierWord::Transient),
    }
}

fn is_annotation(name: &str, modifier: &Modifier) -> bool
    ensures { result ≡ is_annotation name.now modifier.now }
{
    match modifier {
        Modifier::Annotation(annotation) => annotation.first.text.str() == name,
        Modifier::Word { .. } => false,
    }
}

/// Whether an annotation of this name stands among modifiers.
pub fn annotated(name: &str, modifiers: &[Modifier]) -> bool
    ensures { result ≡ annotated name.now modifiers.now }
{
    for modifier in modifiers {
        if is_annotation(name, modifier) {
            return true;
        }
    }
    false
}

fn word_in(word: ModifierWord, words: &[ModifierWord]) -> bool
    ensures { result ≡ word_in word words.now }
{
    for other in words {
        if same_word(word, *other) {
            return true;
        }
    }
    false
}

fn is_allowed(allowed: &[ModifierWord], modifier: &Modifier) -> bool
    ensures { (ms : List Modifier) → only_words allowed.now (modifier.now ∷ ms) ≡ (result && only_words allowed.now ms) }
{
    match modifier {
        Modifier::Annotation(_) => true,
        Modifier::Word { word, .. } => word_in(*word, allowed),
    }
}

/// Whether each word among modifiers is one of these.
pub fn only_words(allowed: &[ModifierWord], modifiers: &[Modifier]) -> bool
    ensures { result ≡ only_words allowed.now modifiers.now }
{
    for modifier in modifiers {
        if !is_allowed(allowed, modifier) {
            return false;
        }
    }
    true
}

fn is_again(modifier: &Modifier, others: &[Modifier]) -> bool
    ensures { result ≡ is_again modifier.now others.now }
{
    match modifier {
        Modifier::Annotation(annotation) => annotated(annotation.first.text.str(), others),
        Modifier::Word { word, .. } => says(*word, others),
    }
}

/// Whether a word or an annotation stands twice among modifiers (JLS 8.1.1, 9.7).
fn repeats(modifiers: &[Modifier]) -> bool
    ensures { result ≡ repeats modifiers.now }
{
    for at in 0..modifiers.len() {
        if is_again(&modifiers[at], &modifiers[at + 1..]) {
            return true;
        }
    }
    false
}

/// Whether both words stand among modifiers.
pub fn both(first: ModifierWord, second: ModifierWord, modifiers: &[Modifier]) -> bool
    ensures { result ≡ both first second modifiers.now }
{
    says(first, modifiers) && says(second, modifiers)
}

/// Whether no word stands twice, and at most one of those for access.
pub fn is_consistent(modifiers: &[Modifier]) -> bool
    ensures { result ≡ is_consistent modifiers.now }
{
    !repeats(modifiers)
        && !both(ModifierWord::Public, ModifierWord::Protected, modifiers)
        && !both(ModifierWord::Public, ModifierWord::Private, modifiers)
        && !both(ModifierWord::Protected, ModifierWord::Private, modifiers)
}

/// Whether `@Override` is absent.
pub fn no_override(modifiers: &[Modifier]) -> bool
    ensures { result ≡ no_override modifiers.now }
{
    !annotated("Override", modifiers)
}

/// Whether `@SafeVarargs` is absent.
pub fn no_safe_varargs(modifiers: &[Modifier]) -> bool
    ensures { result ≡ no_safe_varargs modifiers.now }
{
    !annotated("SafeVarargs", modifiers)
}

/// Whether the last parameter is of variable arity (JLS 8.4.1).
pub fn is_variable_arity(formals: &[Formal]) -> bool
    ensures { result ≡ last_is_variable formals.now }
{
    let mut last = false;
    for formal in formals {
        last = formal.variable_arity;
    }
    last
}
