//! The methods that calls without a selection mean.
ghost use Rattle.std.specs.Prelude.{◌≡◌, ◌==◌, option_and_then};
ghost use Rattle.std.specs.List.{list_any};
ghost use Rattle.jc_jvm.specs.Calls.{special_class as class_of_special, own_method_if, special_method};
ghost use Rattle.jc_jvm.specs.Classes.{line_of, method_at, method_of as method_by_name};
ghost use Rattle.jc_jvm.specs.Table.{static_method_if, static_method};

use crate::frames::method_of;
use crate::methods::{find_method, is_static};
use jc_heap::{NamedClasses, class_named, spells, superclass};

fn find_from(
    classes: &NamedClasses,
    class: Option<u64>,
    name: &[u16],
    descriptor: &[u16],
) -> Option<(u64, u64)>
    ensures { result ≡ option_and_then (method_by_name classes.now name.now descriptor.now) class }
{
    match class {
        Some(class) => find_method(classes, class, name, descriptor),
        None => None,
    }
}

fn static_at(classes: &NamedClasses, class: u64, method: u64) -> Option<(u64, u64)>
    ensures { result ≡ static_method_if classes.now (class, method) (method_at classes.now (class, method)) }
{
    match method_of(classes.models(), class, method) {
        Some(found) => {
            if is_static(found) {
                Some((class, method))
            } else {
                None
            }
        }
        None => None,
    }
}

/// The static method that a call means.
pub fn find_static_method(
    classes: &NamedClasses,
    class: &[u16],
    name: &[u16],
    descriptor: &[u16],
) -> Option<(u64, u64)>
    ensures { result ≡ static_method classes.now class.now name.now descriptor.now }
{
    match find_from(classes, class_named(classes, class), name, descriptor) {
        Some((declaring, method)) => static_at(classes, declaring, method),
        None => None,
    }
}

fn own_at(classes: &NamedClasses, class: u64, method: u64) -> Option<(u64, u64)>
    ensures { result ≡ own_method_if (class, method) (method_at classes.now (class, method)) }
{
    match method_of(classes.models(), class, method) {
        Some(found) => {
            if is_static(found) {
                None
            } else {
                Some((class, method))
            }
        }
        None => None,
    }
}

// Whether a class is another one or among its superclasses.
fn is_on_line(classes: &NamedClasses, current: u64, class: u64) -> bool
    ensures { result ≡ list_any (λ k. k == class) (line_of classes.now current) }
{
    let mut here = Some(current);
    for done in 0..classes.len() {
        match here {
            Some(number) => {
                if number == class {
                    return true;
                }
                here = superclass(classes, number);
            }
            None => return false,
        }
    }
    false
}

fn special_from(classes: &NamedClasses, current: u64, name: &[u16], class: u64) -> Option<u64>
    ensures { result ≡ class_of_special classes.now current name.now class }
{
    if !spells(name, "<init>") && class != current && is_on_line(classes, current, class) {
        superclass(classes, current)
    } else {
        Some(class)
    }
}

fn special_named(
    classes: &NamedClasses,
    current: u64,
    name: &[u16],
    class: Option<u64>,
) -> Option<u64>
    ensures { result ≡ option_and_then (class_of_special classes.now current name.now) class }
{
    match class {
        Some(class) => special_from(classes, current, name, class),
        None => None,
    }
}

/// The method that invokespecial means in the class of number `current`: the named one from the named class upward, or, where
/// that is a superclass and the method is no constructor, from the superclass of the current class upward.
pub fn find_special_method(
    classes: &NamedClasses,
    current: u64,
    class: &[u16],
    name: &[u16],
    descriptor: &[u16],
) -> Option<(u64, u64)>
    ensures { result ≡ special_method classes.now current class.now name.now descriptor.now }
{
    let from = special_named(classes, current, name, class_named(classes, class));
    match find_from(classes, from, name, descriptor) {
        Some((declaring, method)) => own_at(classes, declaring, method),
        None => None,
    }
}
