//! Which texts of a pool are descriptors, so that each is read once, however many entries name it.
ghost use Rattle.std.specs.Prelude.{◌≡◌, Ok, map, slice_get};
ghost use Rattle.jc_class_out.specs.Descriptors.{is_field_descriptor, is_method_descriptor};
ghost use Rattle.jc_class_out.specs.Pool.{both, pair_is, text_is, is_descriptor, text_of, pair_of};
ghost use Rattle.jc_class_in.specs.Gives.{Gives};
ghost use Rattle.jc_class_in.specs.Sorts.{sort_of};

use crate::lookups;
use jc_class_out::{Entry, Flaw, Slot, field_descriptor, method_descriptor};
use jc_rules::Stop;
use std::alloc::Global;

/// Whether a text is a descriptor of a field, and whether it is one of a method.
#[derive(Clone, Copy, Debug, PartialEq, Eq)]
pub struct Sort {
    pub field: bool,
    pub method: bool,
}

fn sort_of_slot(slot: &Slot) -> Sort
    ensures { result ≡ sort_of slot.now }
{
    match &slot.entry {
        Entry::Text(units) => Sort {
            field: field_descriptor(units.slice()),
            method: method_descriptor(units.slice()),
        },
        _ => Sort {
            field: false,
            method: false,
        },
    }
}

pub fn sorts(alloc: Global, pool: &[Slot]) -> Result<Vec<Sort>, Stop<Flaw>>
    ensures { Gives (λ x. x.items) result (Ok (map sort_of pool.now)) }
{
    let mut sorts = Vec::new(alloc);
    for slot in pool {
        sorts.push(sort_of_slot(slot))?;
    }
    Ok(sorts)
}

fn sort_in(sorts: &[Sort], place: usize) -> Option<Sort>
    ensures { result ≡ slice_get sorts.now place }
{
    sorts.get(place).copied()
}

/// What sort of descriptor the entry of that number is.
fn sort_at(pool: &[Slot], sorts: &[Sort], index: u16) -> Sort
    requires { sorts.now ≡ map sort_of pool.now }
    ensures field { result.field ≡ text_is is_field_descriptor (text_of pool.now index) }
    ensures method { result.method ≡ text_is is_method_descriptor (text_of pool.now index) }
{
    let neither = Sort {
        field: false,
        method: false,
    };
    if index == 0 {
        return neither;
    }
    match sort_in(sorts, usize::from(index) - 1) {
        Some(sort) => sort,
        None => neither,
    }
}

/// Whether the entry of that number is a descriptor.
pub fn names_descriptor(pool: &[Slot], sorts: &[Sort], index: u16) -> bool
    requires { sorts.now ≡ map sort_of pool.now }
    ensures { result ≡ text_is is_descriptor (text_of pool.now index) }
{
    let sort = sort_at(pool, sorts, index);
    sort.field || sort.method
}

/// Whether the second of two texts is a descriptor of a field, as far as both are there.
fn of_field(pool: &[Slot], sorts: &[Sort], name: u16, descriptor: u16) -> bool
    requires { sorts.now ≡ map sort_of pool.now }
    ensures { result ≡ pair_is is_field_descriptor (both (text_of pool.now name) (text_of pool.now descriptor)) }
{
    match lookups::text(pool, name) {
        None => true,
        Some(_) => match lookups::text(pool, descriptor) {
            None => true,
            Some(_) => sort_at(pool, sorts, descriptor).field,
        },
    }
}

/// The same of a method.
fn of_method(pool: &[Slot], sorts: &[Sort], name: u16, descriptor: u16) -> bool
    requires { sorts.now ≡ map sort_of pool.now }
    ensures { result ≡ pair_is is_method_descriptor (both (text_of pool.now name) (text_of pool.now descriptor)) }
{
    match lookups::text(pool, name) {
        None => true,
        Some(_) => match lookups::text(pool, descriptor) {
            None => true,
            Some(_) => sort_at(pool, sorts, descriptor).method,
        },
    }
}

/// Whether the descriptor of the pair is one of a field, as far as it is there.
pub fn pair_of_field(pool: &[Slot], sorts: &[Sort], index: u16) -> bool
    requires { sorts.now ≡ map sort_of pool.now }
    ensures { result ≡ pair_is is_field_descriptor (pair_of pool.now index) }
{
    match lookups::entry(pool, index) {
        Some(Entry::Pair { name, descriptor }) => of_field(pool, sorts, *name, *descriptor),
        _ => true,
    }
}

/// The same of a method.
pub fn pair_of_method(pool: &[Slot], sorts: &[Sort], index: u16) -> bool
    requires { sorts.now ≡ map sort_of pool.now }
    ensures { result ≡ pair_is is_method_descriptor (pair_of pool.now index) }
{
    match lookups::entry(pool, index) {
        Some(Entry::Pair { name, descriptor }) => of_method(pool, sorts, *name, *descriptor),
        _ => true,
    }
}
