//! Members of superclasses in other packages (JVMS 4.10.1.8, passesProtectedCheck).
ghost use Rattle.std.specs.Prelude.{◌≡◌, ◌≤◌, ◌==◌, if◌then◌else◌, length};
ghost use Rattle.std.specs.List.{list_any};
ghost use Rattle.std.specs.Option.{option_copied};
ghost use Rattle.jc_frames_types.specs.Items.{item_of};
ghost use Rattle.jc_frames_steps.specs.Rules.{last_slash as slash_from, package_of as package_by, is_protected as is_protected_by, is_protected_field, is_protected_method, declares_protected as declares_by, is_guarded as is_guarded_by, passes as passes_by};

use crate::Environment;
use jc_class_out::{ClassModel, FieldModel, MethodModel};
use jc_frames_types::{UnitType, is_assignable, is_name_below};

/// A member by its class, name and descriptor.
#[derive(Clone, Copy)]
pub struct Named<'a> {
    pub class: &'a [u16],
    pub name: &'a [u16],
    pub descriptor: &'a [u16],
}

fn end_of(unit: u16, at: usize, end: usize) -> usize
    ensures { result ≡ (if unit == 47 then at else end) }
{
    if unit == 47 { at } else { end }
}

/// How many units stand before the last `/`.
#[tactic(auto, unfolding(crate::specs::Rules::last_slash))]
fn last_slash(name: &[u16]) -> usize
    ensures value { result ≡ slash_from 0 0 name.now }
    ensures few { result ≤ length name.now }
{
    let mut at = 0;
    let mut end = 0;
    let mut rest = name;
    while let [unit, more @ ..] = rest {
        end = end_of(*unit, at, end);
        at += 1;
        rest = more;
    }
    end
}

fn package_of(name: &[u16]) -> &[u16]
    ensures { result.now ≡ package_by name.now }
{
    &name[..last_slash(name)]
}

fn is_protected(flags: u16) -> bool
    ensures { result ≡ is_protected_by flags }
{
    flags / 4 % 2 == 1
}

fn is_field(field: &FieldModel, name: &[u16], descriptor: &[u16]) -> bool
    ensures { result ≡ is_protected_field name.now descriptor.now field.now }
{
    is_protected(field.flags)
        && (field.name.slice() == name && field.descriptor.slice() == descriptor)
}

fn is_method(method: &MethodModel, name: &[u16], descriptor: &[u16]) -> bool
    ensures { result ≡ is_protected_method name.now descriptor.now method.now }
{
    is_protected(method.flags)
        && (method.name.slice() == name && method.descriptor.slice() == descriptor)
}

fn has_protected_field(fields: &[FieldModel], name: &[u16], descriptor: &[u16]) -> bool
    ensures { result ≡ list_any (is_protected_field name.now descriptor.now) fields.now }
{
    let mut rest = fields;
    while let [field, more @ ..] = rest {
        if is_field(field, name, descriptor) {
            return true;
        }
        rest = more;
    }
    false
}

fn has_protected_method(methods: &[MethodModel], name: &[u16], descriptor: &[u16]) -> bool
    ensures { result ≡ list_any (is_protected_method name.now descriptor.now) methods.now }
{
    let mut rest = methods;
    while let [method, more @ ..] = rest {
        if is_method(method, name, descriptor) {
            return true;
        }
        rest = more;
    }
    false
}

fn declares_protected(class: Option<&ClassModel>, name: &[u16], descriptor: &[u16]) -> bool
    ensures { result ≡ declares_by (option_copied class.entry) name.now descriptor.now }
{
    match class {
        None => false,
        Some(class) => {
            has_protected_field(class.fields.slice(), name, descriptor)
                || has_protected_method(class.methods.slice(), name, descriptor)
        }
    }
}

fn is_guarded(e: &Environment<'_>, member: Named<'_>) -> bool
    ensures { result ≡ is_guarded_by e.now member.entry.class.now member.entry.name.now member.entry.descriptor.now }
{
    let current = e.class().name.slice();
    package_of(member.class) != package_of(current)
        && (is_name_below(e.types(), current, member.class)
            && declares_protected(
                e.types().named(member.class),
                member.name,
                member.descriptor,
            ))
}

/// Whether a member may be used of this object.
pub fn passes(e: &Environment<'_>, member: Named<'_>, target: UnitType<'_>) -> bool
    ensures { result ≡ passes_by e.now member.entry.class.now member.entry.name.now member.entry.descriptor.now (item_of target.entry) }
{
    !is_guarded(e, member)
        || is_assignable(e.types(), target, UnitType::Object(e.class().name.slice()))
}
