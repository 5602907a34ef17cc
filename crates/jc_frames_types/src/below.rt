//! Which classes and arrays may stand for which (JVMS 4.10.1.2).
ghost use Rattle.std.specs.Prelude.{◌≡◌, ◌&&◌, ◌==◌, ◌∷◌, IsTrue, length};
ghost use Rattle.std.specs.Option.{option_copied};
ghost use Rattle.jc_frames_types.specs.Names.{class_by_name, superclass_in, superclass_named, is_interface as is_interface_class, is_in_line, is_class_below as class_below, is_type_below as type_below, is_name_below as name_below, is_array_name};

use crate::Supertypes;
use crate::names::{class_part, is_array_super, is_object, names_array};
use jc_class_out::ClassModel;

fn is_interface(class: Option<&ClassModel>) -> bool
    ensures { result ≡ is_interface_class (option_copied class.entry) }
{
    match class {
        Some(class) => class.flags / 0x200 % 2 == 1,
        None => false,
    }
}

fn superclass_of<'a>(class: Option<&'a ClassModel>) -> Option<&'a [u16]>
    ensures { option_copied result ≡ superclass_in (option_copied class.entry) }
{
    match class {
        Some(class) => match &class.superclass {
            Some(name) => Some(name.slice()),
            None => None,
        },
        None => None,
    }
}

/// Whether the name is `to`, or that of one of its superclasses is.
#[tactic(auto, using(crate::proofs::Lines::line_rules))]
fn has_in_line(types: &Supertypes<'_>, name: &[u16], to: &[u16]) -> bool
    ensures { result ≡ is_in_line types.now (length types.now) to.now name.now }
{
    let mut name = name;
    for _ in 0..types.count() {
        if name == to {
            return true;
        }
        match superclass_of(types.named(name)) {
            Some(above) => name = above,
            None => return false,
        }
    }
    name == to
}

/// Whether a class goes where another one is wanted.
#[tactic(auto, unfolding(crate::specs::Names::is_class_below))]
fn is_class_below(types: &Supertypes<'_>, from: &[u16], to: &[u16]) -> bool
    ensures { result ≡ class_below types.now from.now to.now }
{
    is_object(to) || (is_interface(types.named(to)) || has_in_line(types, from, to))
}

#[tactic(auto, unfolding(crate::specs::Names::is_type_below))]
/// The same of types that aren't both arrays, by the first units of their descriptors and by what stands behind those.
fn is_last_below(types: &Supertypes<'_>, from: u16, behind: &[u16], to: u16, after: &[u16]) -> bool
    requires { (IsTrue (from == 91 && to == 91)) → ⊥ }
    ensures { result ≡ type_below types.now (from ∷ behind.now) (to ∷ after.now) }
{
    if from == 91 {
        to == 76 && is_array_super(class_part(after))
    } else if from == 76 && to == 76 {
        is_class_below(types, class_part(behind), class_part(after))
    } else {
        from == to
    }
}

/// Whether a type goes where another one is wanted, by their descriptors.
#[tactic(auto, unfolding(crate::specs::Names::is_type_below))]
fn is_type_below(types: &Supertypes<'_>, from: &[u16], to: &[u16]) -> bool
    ensures { result ≡ type_below types.now from.now to.now }
{
    let mut from = from;
    let mut to = to;
    while let [unit, behind @ ..] = from {
        match to {
            [] => return false,
            [wanted, after @ ..] => {
                if *unit != 91 || *wanted != 91 {
                    return is_last_below(types, *unit, behind, *wanted, after);
                }
                from = behind;
                to = after;
            }
        }
    }
    false
}

/// Whether a class or array goes where another one is wanted.
#[tactic(auto, unfolding(crate::specs::Names::is_name_below))]
pub fn is_name_below(types: &Supertypes<'_>, from: &[u16], to: &[u16]) -> bool
    ensures { result ≡ name_below types.now from.now to.now }
{
    if from == to {
        return true;
    }
    if names_array(from) {
        if names_array(to) {
            is_type_below(types, from, to)
        } else {
            is_array_super(to)
        }
    } else {
        !names_array(to) && is_class_below(types, from, to)
    }
}
