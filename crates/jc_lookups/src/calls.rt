//! The sorts of what calls take.
ghost use Rattle.std.specs.Prelude.{◌≡◌, ◌++◌, ◌-◌, IfOk, OnOk, true, false, take, drop, length};
ghost use Rattle.jc_class_out.specs.Descriptors.{item_of_type};
ghost use Rattle.jc_jvm.specs.Calls.{sorts_of_call};
ghost use Rattle.jc_jvm.specs.Types.{sort_of_item, parameter_sorts};

use jc_class_out::behind_type;
use jc_heap::field_sort;
use jc_jvm::Sort;
use jc_rules::{Items, WantOfMemory};
use std::alloc::Global;

// What stands in front of the rest of a text.
fn in_front<'a>(units: &'a [u16], rest: &[u16]) -> &'a [u16]
    ensures { result.now ≡ take (length units.now - length rest.now) units.now }
{
    let size = units.len().saturating_sub(rest.len());
    &units[..size]
}

fn type_sort(units: &[u16]) -> Sort
    ensures { result ≡ sort_of_item (item_of_type units.now) }
{
    field_sort(units)
}

fn behind_first(units: &[u16]) -> &[u16]
    ensures { result.now ≡ drop 1 units.now }
{
    match units {
        [] => &[],
        [_, behind @ ..] => behind,
    }
}

#[tactic(auto, using(crate::proofs::ParameterSorts::sort_rules))]
fn add_parameters(found: &mut Items<Sort>, descriptor: &[u16]) -> Result<(), WantOfMemory>
    ensures { OnOk result (found.new ≡ found.old ++ parameter_sorts descriptor.now) }
{
    let mut rest = behind_first(descriptor);
    for counted in 0..descriptor.len() {
        match behind_type(rest) {
            Some(behind) => {
                found.push(type_sort(in_front(rest, behind)))?;
                rest = behind;
            }
            None => return Ok(()),
        }
    }
    Ok(())
}

/// The sorts of what a call without an object takes.
pub fn sorts_of_static_call(alloc: Global, descriptor: &[u16]) -> Result<Items<Sort>, WantOfMemory>
    ensures { IfOk result (λ sorts. sorts ≡ sorts_of_call false descriptor.now) }
{
    let mut found = Items::new(alloc);
    add_parameters(&mut found, descriptor)?;
    Ok(found)
}

/// The sorts of what a call with an object takes, the object first.
pub fn sorts_of_object_call(alloc: Global, descriptor: &[u16]) -> Result<Items<Sort>, WantOfMemory>
    ensures { IfOk result (λ sorts. sorts ≡ sorts_of_call true descriptor.now) }
{
    let mut found = Items::new(alloc);
    found.push(Sort::ReferenceSort)?;
    add_parameters(&mut found, descriptor)?;
    Ok(found)
}
