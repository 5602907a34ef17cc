//! What the verifier begins a method with, by its descriptor (JVMS 4.3, 4.10.1.6).
ghost use Rattle.std.specs.Prelude.{◌≡◌, ◌++◌, Ok, drop, codes};
ghost use Rattle.std.specs.Str.{bytes_eq};
ghost use Rattle.jc_class_out.specs.Descriptors.{item_of_type, items_on, is_static, this_item, entry_locals};
ghost use Rattle.jc_class_in.specs.Gives.{Gives};

use crate::code::spells;
use crate::names::copy;
use jc_class_out::{Flaw, Item, behind_type};
use jc_rules::{Items, Stop};
use std::alloc::Global;

fn object(alloc: Global, name: &[u16]) -> Result<Item, Stop<Flaw>>
    ensures { Gives (λ x. x) result (Ok (Item.Object name.now)) }
{
    let name = copy(alloc, name)?;
    Ok(Item::Object(name))
}

/// What a value of that type is to the verifier.
fn type_item(alloc: Global, units: &[u16]) -> Result<Item, Stop<Flaw>>
    ensures { Gives (λ x. x) result (Ok (item_of_type units.now)) }
{
    match units {
        [] => Ok(Item::Integer),
        [74, ..] => Ok(Item::Long),
        [76, rest @ ..] => {
            let (name, _) = rest.split_at(rest.len().saturating_sub(1));
            object(alloc, name)
        }
        [91, ..] => object(alloc, units),
        _ => Ok(Item::Integer),
    }
}

/// What the values of so many types at most are, behind those that are there.
fn put_types(
    alloc: Global,
    list: Items<Item>,
    units: &[u16],
    most: usize,
) -> Result<Items<Item>, Stop<Flaw>>
    ensures { Gives (λ x. x) result (Ok (list ++ items_on most units.now)) }
{
    let mut list = list;
    let mut rest = units;
    for _ in 0..most {
        match behind_type(rest) {
            None => return Ok(list),
            Some(after) => {
                let (first, _) = rest.split_at(rest.len().saturating_sub(after.len()));
                let next = type_item(alloc, first)?;
                list.push(next)?;
                rest = after;
            }
        }
    }
    Ok(list)
}

fn behind_bracket(descriptor: &[u16]) -> &[u16]
    ensures { result.now ≡ drop 1 descriptor.now }
{
    match descriptor {
        [] => descriptor,
        [_, rest @ ..] => rest,
    }
}

fn is_object(class: &[u16]) -> bool
    ensures { result ≡ bytes_eq class.now (codes "java/lang/Object") }
{
    spells(class, "java/lang/Object")
}

/// In a constructor `this` isn't initialised yet, but in that of Object.
fn this(alloc: Global, class: &[u16], name: &[u16]) -> Result<Item, Stop<Flaw>>
    ensures { Gives (λ x. x) result (Ok (this_item class.now name.now)) }
{
    if spells(name, "<init>") && !is_object(class) {
        return Ok(Item::UninitializedThis);
    }
    object(alloc, class)
}

fn has_static(flags: u16) -> bool
    ensures { result ≡ is_static flags }
{
    flags / 8 % 2 == 1
}

/// The locals at a method's entry (JVMS 4.10.1.6).
pub fn locals_at_entry(
    alloc: Global,
    class: &[u16],
    flags: u16,
    name: &[u16],
    descriptor: &[u16],
) -> Result<Items<Item>, Stop<Flaw>>
    ensures { Gives (λ x. x) result (Ok (entry_locals class.now flags name.now descriptor.now)) }
{
    let mut list = Items::new(alloc);
    if !has_static(flags) {
        list.push(this(alloc, class, name)?)?;
    }
    let types = behind_bracket(descriptor);
    put_types(alloc, list, types, descriptor.len())
}
