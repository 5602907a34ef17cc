//! The constant pool (JVMS 4.4).
ghost use Rattle.std.specs.Prelude.{◌≡◌, None, map};
ghost use Rattle.jc_class_out.specs.Descriptors.{is_field_descriptor, is_method_descriptor};
ghost use Rattle.jc_class_out.specs.Pool.{two_at, entry_by, entry_at, slot_at, slots_at, check_member, check_slot, checked, pool_at};
ghost use Rattle.jc_class_in.specs.Gives.{Gives};
ghost use Rattle.jc_class_in.specs.Sorts.{sort_of};

use crate::lookups;
use crate::numbers::{Read, u1, u2, u4, u8_of_eight, want};
use crate::sorts::{Sort, names_descriptor, pair_of_field, pair_of_method, sorts};
use crate::texts::text;
use jc_class_out::{Entry, Flaw, Slot};
use jc_rules::Stop;
use std::alloc::Global;

/// Two numbers of entries.
#[tactic(auto, unfolding(jc_class_out::specs::Pool::two_at))]
fn two_numbers(bytes: &[u8]) -> Result<(u16, u16, &[u8]), Stop<Flaw>>
    ensures { Gives (λ x. (x.0, x.1, x.2.now)) result (two_at bytes.now) }
{
    let (first, rest) = u2(bytes)?;
    let (second, rest) = u2(rest)?;
    Ok((first, second, rest))
}

/// The entry behind a tag; so many bytes are left from the tag on.
#[tactic(auto, unfolding(jc_class_out::specs::Pool::entry_by))]
fn entry_behind(alloc: Global, left: usize, tag: u8, bytes: &[u8]) -> Read<'_, Entry>
    ensures { Gives (λ x. (x.0, x.1.now)) result (entry_by left tag bytes.now) }
{
    match tag {
        1 => {
            let (units, rest) = text(alloc, bytes)?;
            Ok((Entry::Text(units), rest))
        }
        3 => {
            let (number, rest) = u4(bytes)?;
            Ok((Entry::Whole(number.cast_signed()), rest))
        }
        5 => {
            let (number, rest) = u8_of_eight(bytes)?;
            Ok((Entry::Long(number.cast_signed()), rest))
        }
        7 => {
            let (name, rest) = u2(bytes)?;
            Ok((Entry::Class(name), rest))
        }
        8 => {
            let (units, rest) = u2(bytes)?;
            Ok((Entry::Literal(units), rest))
        }
        9 => {
            let (class, pair, rest) = two_numbers(bytes)?;
            Ok((Entry::Field { class, pair }, rest))
        }
        10 => {
            let (class, pair, rest) = two_numbers(bytes)?;
            Ok((Entry::Method { class, pair }, rest))
        }
        11 => {
            let (class, pair, rest) = two_numbers(bytes)?;
            Ok((Entry::Interface { class, pair }, rest))
        }
        12 => {
            let (name, descriptor, rest) = two_numbers(bytes)?;
            Ok((Entry::Pair { name, descriptor }, rest))
        }
        _ => Err(Stop::Refused(Flaw::Tag(left))),
    }
}

#[tactic(auto, unfolding(jc_class_out::specs::Pool::entry_at))]
fn tagged_entry(alloc: Global, bytes: &[u8]) -> Read<'_, Entry>
    ensures { Gives (λ x. (x.0, x.1.now)) result (entry_at bytes.now) }
{
    let (tag, rest) = u1(bytes)?;
    entry_behind(alloc, bytes.len(), tag, rest)
}

/// One place of the pool. Behind a Long the place of its tag is pending.
#[tactic(auto, unfolding(jc_class_out::specs::Pool::slot_at))]
fn slot(
    alloc: Global,
    pending: Option<usize>,
    bytes: &[u8],
) -> Result<(Slot, Option<usize>, &[u8]), Stop<Flaw>>
    ensures { Gives (λ x. (x.0, x.1, x.2.now)) result (slot_at pending bytes.now) }
{
    if let Some(left) = pending {
        let entry = Entry::Behind;
        return Ok((Slot { left, entry }, None, bytes));
    }
    let left = bytes.len();
    let (entry, rest) = tagged_entry(alloc, bytes)?;
    let pending = match &entry {
        Entry::Long(_) => Some(left),
        _ => None,
    };
    Ok((Slot { left, entry }, pending, rest))
}

/// So many places of the pool.
#[tactic(auto, unfolding(jc_class_out::specs::Pool::slots_at), using(crate::proofs::Slots::slots_stop, crate::proofs::Slots::slots_done, crate::proofs::Slots::slots_pending))]
fn slots(alloc: Global, count: u16, bytes: &[u8]) -> Read<'_, Vec<Slot>>
    ensures { Gives (λ x. (x.0.items, x.1.now)) result (slots_at count None bytes.now) }
{
    let mut slots = Vec::new(alloc);
    let mut rest = bytes;
    let mut pending = None;
    for _ in 0..count {
        let (next, then_pending, after) = slot(alloc, pending, rest)?;
        slots.push(next)?;
        pending = then_pending;
        rest = after;
    }
    if let Some(left) = pending {
        return Err(Stop::Refused(Flaw::Index(left)));
    }
    Ok((slots, rest))
}

fn check_field(
    pool: &[Slot],
    sorts: &[Sort],
    left: usize,
    class: u16,
    pair: u16,
) -> Result<(), Stop<Flaw>>
    requires { sorts.now ≡ map sort_of pool.now }
    ensures { Gives (λ _. 0) result (check_member pool.now left is_field_descriptor class pair) }
{
    want(lookups::tag(pool, class) == 7, left.saturating_sub(1))?;
    let fits = lookups::tag(pool, pair) == 12 && pair_of_field(pool, sorts, pair);
    want(fits, left.saturating_sub(3))
}

fn check_method(
    pool: &[Slot],
    sorts: &[Sort],
    left: usize,
    class: u16,
    pair: u16,
) -> Result<(), Stop<Flaw>>
    requires { sorts.now ≡ map sort_of pool.now }
    ensures { Gives (λ _. 0) result (check_member pool.now left is_method_descriptor class pair) }
{
    want(lookups::tag(pool, class) == 7, left.saturating_sub(1))?;
    let fits = lookups::tag(pool, pair) == 12 && pair_of_method(pool, sorts, pair);
    want(fits, left.saturating_sub(3))
}

/// Tests the numbers in an entry, from left to right.
#[tactic(auto, unfolding(jc_class_out::specs::Pool::check_slot))]
fn check(pool: &[Slot], sorts: &[Sort], slot: &Slot) -> Result<(), Stop<Flaw>>
    requires { sorts.now ≡ map sort_of pool.now }
    ensures { Gives (λ _. 0) result (check_slot pool.now slot.now) }
{
    let left = slot.left;
    match &slot.entry {
        Entry::Class(name) => want(lookups::tag(pool, *name) == 1, left.saturating_sub(1)),
        Entry::Literal(text) => want(lookups::tag(pool, *text) == 1, left.saturating_sub(1)),
        Entry::Field { class, pair } => check_field(pool, sorts, left, *class, *pair),
        Entry::Method { class, pair } => check_method(pool, sorts, left, *class, *pair),
        Entry::Interface { class, pair } => check_method(pool, sorts, left, *class, *pair),
        Entry::Pair { name, descriptor } => {
            want(lookups::tag(pool, *name) == 1, left.saturating_sub(1))?;
            want(
                names_descriptor(pool, sorts, *descriptor),
                left.saturating_sub(3),
            )
        }
        _ => Ok(()),
    }
}

#[tactic(auto, unfolding(jc_class_out::specs::Pool::checked))]
fn check_all(alloc: Global, pool: &[Slot]) -> Result<(), Stop<Flaw>>
    ensures { Gives (λ _. 0) result (checked pool.now pool.now) }
{
    let sorts = sorts(alloc, pool)?;
    for slot in pool {
        check(pool, &sorts, slot)?;
    }
    Ok(())
}

/// The constant pool.
#[tactic(auto, unfolding(jc_class_out::specs::Pool::pool_at))]
pub fn pool(alloc: Global, bytes: &[u8]) -> Read<'_, Vec<Slot>>
    ensures { Gives (λ x. (x.0.items, x.1.now)) result (pool_at bytes.now) }
{
    let (count, rest) = u2(bytes)?;
    if count == 0 {
        return Err(Stop::Refused(Flaw::Index(bytes.len())));
    }
    let (slots, rest) = slots(alloc, count - 1, rest)?;
    check_all(alloc, &slots)?;
    Ok((slots, rest))
}
