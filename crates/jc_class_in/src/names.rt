//! Names of the pool, each with its rule.
ghost use Rattle.std.specs.Prelude.{◌≡◌, Ok};
ghost use Rattle.jc_class_out.specs.Descriptors.{is_field_descriptor, is_method_descriptor};
ghost use Rattle.jc_class_out.specs.Pool.{named_at, class_named_at, class_or_none_at, name_or_none_at, descriptor_at};
ghost use Rattle.jc_class_in.specs.Gives.{Gives};

use crate::lookups;
use crate::numbers::{Read, u2};
use jc_class_out::{Flaw, Slot, field_descriptor, method_descriptor};
use jc_rules::{Items, Stop};
use std::alloc::Global;

pub fn copy(alloc: Global, text: &[u16]) -> Result<Items<u16>, Stop<Flaw>>
    ensures { Gives (λ x. x) result (Ok text.now) }
{
    Ok(Items::of(Vec::from_slice(alloc, text)?))
}

/// The number of a text.
#[tactic(auto, unfolding(jc_class_out::specs::Pool::named_at))]
pub fn name<'a>(alloc: Global, pool: &[Slot], bytes: &'a [u8]) -> Read<'a, Items<u16>>
    ensures { Gives (λ x. (x.0, x.1.now)) result (named_at pool.now bytes.now) }
{
    let (index, rest) = u2(bytes)?;
    match lookups::text(pool, index) {
        Some(text) => {
            let text = copy(alloc, text)?;
            Ok((text, rest))
        }
        None => Err(Stop::Refused(Flaw::Index(bytes.len()))),
    }
}

/// The number of a class.
#[tactic(auto, unfolding(jc_class_out::specs::Pool::class_named_at))]
pub fn class_name<'a>(alloc: Global, pool: &[Slot], bytes: &'a [u8]) -> Read<'a, Items<u16>>
    ensures { Gives (λ x. (x.0, x.1.now)) result (class_named_at pool.now bytes.now) }
{
    let (index, rest) = u2(bytes)?;
    match lookups::class(pool, index) {
        Some(text) => {
            let text = copy(alloc, text)?;
            Ok((text, rest))
        }
        None => Err(Stop::Refused(Flaw::Index(bytes.len()))),
    }
}

/// 0, or the number of a class.
#[tactic(auto, unfolding(jc_class_out::specs::Pool::class_or_none_at))]
pub fn class_or_none<'a>(
    alloc: Global,
    pool: &[Slot],
    bytes: &'a [u8],
) -> Read<'a, Option<Items<u16>>>
    ensures { Gives (λ x. (x.0, x.1.now)) result (class_or_none_at pool.now bytes.now) }
{
    let (index, rest) = u2(bytes)?;
    if index == 0 {
        return Ok((None, rest));
    }
    match lookups::class(pool, index) {
        Some(text) => {
            let text = copy(alloc, text)?;
            Ok((Some(text), rest))
        }
        None => Err(Stop::Refused(Flaw::Index(bytes.len()))),
    }
}

/// 0, or the number of a text.
#[tactic(auto, unfolding(jc_class_out::specs::Pool::name_or_none_at))]
pub fn name_or_none<'a>(
    alloc: Global,
    pool: &[Slot],
    bytes: &'a [u8],
) -> Read<'a, Option<Items<u16>>>
    ensures { Gives (λ x. (x.0, x.1.now)) result (name_or_none_at pool.now bytes.now) }
{
    let (index, rest) = u2(bytes)?;
    if index == 0 {
        return Ok((None, rest));
    }
    match lookups::text(pool, index) {
        Some(text) => {
            let text = copy(alloc, text)?;
            Ok((Some(text), rest))
        }
        None => Err(Stop::Refused(Flaw::Index(bytes.len()))),
    }
}

/// The number of a field's descriptor.
#[tactic(auto, unfolding(jc_class_out::specs::Pool::descriptor_at))]
pub fn type_of_field<'a>(alloc: Global, pool: &[Slot], bytes: &'a [u8]) -> Read<'a, Items<u16>>
    ensures { Gives (λ x. (x.0, x.1.now)) result (descriptor_at is_field_descriptor pool.now bytes.now) }
{
    let (text, rest) = name(alloc, pool, bytes)?;
    if !field_descriptor(text.slice()) {
        return Err(Stop::Refused(Flaw::Index(bytes.len())));
    }
    Ok((text, rest))
}

/// The number of a method's descriptor.
#[tactic(auto, unfolding(jc_class_out::specs::Pool::descriptor_at))]
pub fn type_of_method<'a>(alloc: Global, pool: &[Slot], bytes: &'a [u8]) -> Read<'a, Items<u16>>
    ensures { Gives (λ x. (x.0, x.1.now)) result (descriptor_at is_method_descriptor pool.now bytes.now) }
{
    let (text, rest) = name(alloc, pool, bytes)?;
    if !method_descriptor(text.slice()) {
        return Err(Stop::Refused(Flaw::Index(bytes.len())));
    }
    Ok((text, rest))
}
