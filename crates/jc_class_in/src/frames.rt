//! Stack map frames (JVMS 4.7.4).
ghost use Rattle.std.specs.Prelude.{◌≡◌, ◌<◌, ◌^◌, IfOk, None, Ok, length};
ghost use Rattle.jc_class_out.specs.Reading.{wants};
ghost use Rattle.jc_class_out.specs.Frames.{begins, offset_item_at, item_by, item_at, place_of, place_at, same_item_at, same_item_extended_at, chop_at, same_extended_at, append_at, full_at, frame_by, frame_at, frames_at, table_at};
ghost use Rattle.jc_class_in.specs.Gives.{Gives};
ghost use Rattle.jc_class_in.specs.Before.{same_at, last_of, place_before, locals_before};

use crate::many::{Part, counted_row, row};
use crate::marks::begins_at;
use crate::names::class_name;
use crate::numbers::{Read, u1, u2, want};
use jc_class_out::{Flaw, Frame, Item, Slot};
use jc_rules::{Items, Stop};
use std::alloc::Global;

/// The place of an instruction that makes an object.
#[tactic(auto, unfolding(jc_class_out::specs::Frames::offset_item_at))]
fn offset_item<'a>(marks: &[bool], bytes: &'a [u8]) -> Read<'a, Item>
    ensures { Gives (λ x. (x.0, x.1.now)) result (offset_item_at marks.now bytes.now) }
{
    let (at, rest) = u2(bytes)?;
    want(begins_at(marks, usize::from(at)), bytes.len())?;
    Ok((Item::Uninitialized(u32::from(at)), rest))
}

/// The item behind a tag; so many bytes are left from the tag on.
#[tactic(auto, unfolding(jc_class_out::specs::Frames::item_by))]
fn item_behind<'a>(
    alloc: Global,
    pool: &[Slot],
    marks: &[bool],
    left: usize,
    tag: u8,
    bytes: &'a [u8],
) -> Read<'a, Item>
    ensures { Gives (λ x. (x.0, x.1.now)) result (item_by pool.now marks.now left tag bytes.now) }
{
    match tag {
        0 => Ok((Item::Top, bytes)),
        1 => Ok((Item::Integer, bytes)),
        4 => Ok((Item::Long, bytes)),
        5 => Ok((Item::NullItem, bytes)),
        6 => Ok((Item::UninitializedThis, bytes)),
        7 => {
            let (class, rest) = class_name(alloc, pool, bytes)?;
            Ok((Item::Object(class), rest))
        }
        8 => offset_item(marks, bytes),
        _ => Err(Stop::Refused(Flaw::Tag(left))),
    }
}

#[tactic(auto, unfolding(jc_class_out::specs::Frames::item_at))]
fn item<'a>(alloc: Global, pool: &[Slot], marks: &[bool], bytes: &'a [u8]) -> Read<'a, Item>
    ensures { Gives (λ x. (x.0, x.1.now)) result (item_at pool.now marks.now bytes.now) }
{
    let (tag, rest) = u1(bytes)?;
    item_behind(alloc, pool, marks, bytes.len(), tag, rest)
}

/// A verification type.
#[derive(Clone, Copy)]
struct ItemPart<'p> {
    pool: &'p [Slot],
    marks: &'p [bool],
}

impl Part for ItemPart<'_> {
    type Value = Item;

    ghost reads = { λ p bytes. item_at p.pool.now p.marks.now bytes };

    fn read<'a>(&self, alloc: Global, bytes: &'a [u8]) -> Read<'a, Item> {
        item(alloc, self.pool, self.marks, bytes)
    }
}

/// Where a frame stands whose delta is so big.
fn place(before: Option<u32>, delta: u16) -> usize
    ensures { result ≡ place_of before delta }
{
    match before {
        None => usize::from(delta),
        Some(before) => before as usize + usize::from(delta) + 1,
    }
}

/// The place of a frame, if an instruction begins there; so many bytes are left from its delta on.
fn place_within(
    marks: &[bool],
    before: Option<u32>,
    delta: u16,
    left: usize,
) -> Result<u32, Stop<Flaw>>
    requires { length marks.now < 65536 }
    ensures begins { Gives (λ _. 0) result (wants (begins marks.now (place_of before delta)) left) }
    ensures place { IfOk result (λ at. at ≡ place_of before delta) }
{
    let place = place(before, delta);
    if !begins_at(marks, place) {
        return Err(Stop::Refused(Flaw::Index(left)));
    }
    Ok(place as u32)
}

/// A delta of two bytes.
#[tactic(auto, unfolding(jc_class_out::specs::Frames::place_at))]
fn wide_place<'a>(marks: &[bool], before: Option<u32>, bytes: &'a [u8]) -> Read<'a, u32>
    requires { length marks.now < 65536 }
    ensures { Gives (λ x. (x.0, x.1.now)) result (place_at marks.now before bytes.now) }
{
    let (delta, rest) = u2(bytes)?;
    let at = place_within(marks, before, delta, bytes.len())?;
    Ok((at, rest))
}

fn copied(item: &Item) -> Result<Item, Stop<Flaw>>
    ensures { Gives (λ x. x) result (Ok item.now) }
{
    Ok(item.clone()?)
}

fn copy_of(alloc: Global, items: &[Item]) -> Result<Items<Item>, Stop<Flaw>>
    ensures { Gives (λ x. x) result (Ok items.now) }
{
    let mut list = Items::new(alloc);
    for item in items {
        list.push(copied(item)?)?;
    }
    Ok(list)
}

/// The same locals, and one item on the stack.
#[tactic(auto, unfolding(jc_class_out::specs::Frames::same_item_at))]
fn same_item<'a>(
    alloc: Global,
    pool: &[Slot],
    marks: &[bool],
    locals: &[Item],
    at: u32,
    bytes: &'a [u8],
) -> Read<'a, Frame>
    ensures { Gives (λ x. (x.0, x.1.now)) result (same_item_at pool.now marks.now locals.now at bytes.now) }
{
    let (item, rest) = item(alloc, pool, marks, bytes)?;
    let mut stack = Items::new(alloc);
    stack.push(item)?;
    let locals = copy_of(alloc, locals)?;
    Ok((Frame { at, locals, stack }, rest))
}

#[tactic(auto, unfolding(jc_class_out::specs::Frames::same_item_extended_at))]
fn same_item_extended<'a>(
    alloc: Global,
    pool: &[Slot],
    marks: &[bool],
    before: Option<u32>,
    locals: &[Item],
    bytes: &'a [u8],
) -> Read<'a, Frame>
    requires { length marks.now < 65536 }
    ensures { Gives (λ x. (x.0, x.1.now)) result (same_item_extended_at pool.now marks.now before locals.now bytes.now) }
{
    let (at, rest) = wide_place(marks, before, bytes)?;
    same_item(alloc, pool, marks, locals, at, rest)
}

/// The last locals go.
#[tactic(auto, unfolding(jc_class_out::specs::Frames::chop_at))]
fn chop<'a>(
    alloc: Global,
    marks: &[bool],
    before: Option<u32>,
    locals: &[Item],
    left: usize,
    fewer: usize,
    bytes: &'a [u8],
) -> Read<'a, Frame>
    requires { length marks.now < 65536 }
    ensures { Gives (λ x. (x.0, x.1.now)) result (chop_at marks.now before locals.now left fewer bytes.now) }
{
    if locals.len() < fewer {
        return Err(Stop::Refused(Flaw::Index(left)));
    }
    let (at, rest) = wide_place(marks, before, bytes)?;
    let (kept, _) = locals.split_at(locals.len() - fewer);
    let locals = copy_of(alloc, kept)?;
    let stack = Items::new(alloc);
    Ok((Frame { at, locals, stack }, rest))
}

#[tactic(auto, unfolding(jc_class_out::specs::Frames::same_extended_at))]
fn same_extended<'a>(
    alloc: Global,
    marks: &[bool],
    before: Option<u32>,
    locals: &[Item],
    bytes: &'a [u8],
) -> Read<'a, Frame>
    requires { length marks.now < 65536 }
    ensures { Gives (λ x. (x.0, x.1.now)) result (same_extended_at marks.now before locals.now bytes.now) }
{
    let (at, rest) = wide_place(marks, before, bytes)?;
    let locals = copy_of(alloc, locals)?;
    let stack = Items::new(alloc);
    Ok((Frame { at, locals, stack }, rest))
}

/// More locals.
#[tactic(auto, unfolding(jc_class_out::specs::Frames::append_at))]
fn append<'a>(
    alloc: Global,
    pool: &[Slot],
    marks: &[bool],
    before: Option<u32>,
    locals: &[Item],
    more: u16,
    bytes: &'a [u8],
) -> Read<'a, Frame>
    requires { length marks.now < 65536 }
    ensures { Gives (λ x. (x.0, x.1.now)) result (append_at pool.now marks.now before locals.now more bytes.now) }
{
    let (at, rest) = wide_place(marks, before, bytes)?;
    let part = ItemPart { pool, marks };
    let (added, rest) = row(alloc, &part, more, rest)?;
    let mut locals = copy_of(alloc, locals)?;
    locals.append(added)?;
    let stack = Items::new(alloc);
    Ok((Frame { at, locals, stack }, rest))
}

#[tactic(auto, unfolding(jc_class_out::specs::Frames::full_at))]
fn full<'a>(
    alloc: Global,
    pool: &[Slot],
    marks: &[bool],
    before: Option<u32>,
    bytes: &'a [u8],
) -> Read<'a, Frame>
    requires { length marks.now < 65536 }
    ensures { Gives (λ x. (x.0, x.1.now)) result (full_at pool.now marks.now before bytes.now) }
{
    let (at, rest) = wide_place(marks, before, bytes)?;
    let part = ItemPart { pool, marks };
    let (locals, rest) = counted_row(alloc, &part, rest)?;
    let (stack, rest) = counted_row(alloc, &part, rest)?;
    Ok((Frame { at, locals, stack }, rest))
}

/// The forms that have a tag of their own.
#[tactic(auto, unfolding(jc_class_out::specs::Frames::frame_by))]
fn frame_behind<'a>(
    alloc: Global,
    pool: &[Slot],
    marks: &[bool],
    before: Option<u32>,
    locals: &[Item],
    left: usize,
    tag: u8,
    bytes: &'a [u8],
) -> Read<'a, Frame>
    requires { length marks.now < 65536 }
    ensures { Gives (λ x. (x.0, x.1.now)) result (frame_by pool.now marks.now before locals.now left tag bytes.now) }
{
    if tag < 247 {
        Err(Stop::Refused(Flaw::Tag(left)))
    } else if tag == 247 {
        same_item_extended(alloc, pool, marks, before, locals, bytes)
    } else if tag < 251 {
        chop(
            alloc,
            marks,
            before,
            locals,
            left,
            251 - usize::from(tag),
            bytes,
        )
    } else if tag == 251 {
        same_extended(alloc, marks, before, locals, bytes)
    } else if tag < 255 {
        append(
            alloc,
            pool,
            marks,
            before,
            locals,
            u16::from(tag) - 251,
            bytes,
        )
    } else {
        full(alloc, pool, marks, before, bytes)
    }
}

/// The frame at that delta, with the same locals and nothing on the stack.
fn same<'a>(
    alloc: Global,
    marks: &[bool],
    before: Option<u32>,
    locals: &[Item],
    left: usize,
    tag: u8,
    bytes: &'a [u8],
) -> Read<'a, Frame>
    requires { length marks.now < 65536 }
    ensures { Gives (λ x. (x.0, x.1.now)) result (same_at marks.now before locals.now left tag bytes.now) }
{
    let at = place_within(marks, before, u16::from(tag), left)?;
    let locals = copy_of(alloc, locals)?;
    let stack = Items::new(alloc);
    Ok((Frame { at, locals, stack }, bytes))
}

/// A frame behind one at that place and with those locals.
#[tactic(auto, unfolding(jc_class_out::specs::Frames::frame_at))]
fn frame<'a>(
    alloc: Global,
    pool: &[Slot],
    marks: &[bool],
    before: Option<u32>,
    locals: &[Item],
    bytes: &'a [u8],
) -> Read<'a, Frame>
    requires { length marks.now < 65536 }
    ensures { Gives (λ x. (x.0, x.1.now)) result (frame_at pool.now marks.now before locals.now bytes.now) }
{
    let (tag, rest) = u1(bytes)?;
    if tag < 64 {
        same(alloc, marks, before, locals, bytes.len(), tag, rest)
    } else if tag < 128 {
        let at = place_within(marks, before, u16::from(tag) - 64, bytes.len())?;
        same_item(alloc, pool, marks, locals, at, rest)
    } else {
        frame_behind(alloc, pool, marks, before, locals, bytes.len(), tag, rest)
    }
}

/// The frame behind those that were read.
fn next_frame<'a>(
    alloc: Global,
    pool: &[Slot],
    marks: &[bool],
    entry: &[Item],
    frames: &[Frame],
    bytes: &'a [u8],
) -> Read<'a, Frame>
    requires { length marks.now < 65536 }
    ensures { Gives (λ x. (x.0, x.1.now)) result (frame_at pool.now marks.now (place_before (last_of frames.now)) (locals_before entry.now (last_of frames.now)) bytes.now) }
{
    match frames.last() {
        None => frame(alloc, pool, marks, None, entry, bytes),
        Some(last) => frame(
            alloc,
            pool,
            marks,
            Some(last.at),
            last.locals.slice(),
            bytes,
        ),
    }
}

#[tactic(auto, using(crate::proofs::Framed::frames_stop, crate::proofs::Framed::frames_done))]
fn frames<'a>(
    alloc: Global,
    pool: &[Slot],
    marks: &[bool],
    entry: &[Item],
    count: u16,
    bytes: &'a [u8],
) -> Read<'a, Items<Frame>>
    requires { length marks.now < 65536 }
    ensures { Gives (λ x. (x.0, x.1.now)) result (frames_at pool.now marks.now count None entry.now bytes.now) }
{
    let mut list = Items::new(alloc);
    let mut rest = bytes;
    for _ in 0..count {
        let (next, after) = next_frame(alloc, pool, marks, entry, list.slice(), rest)?;
        list.push(next)?;
        rest = after;
    }
    Ok((list, rest))
}

/// The content of the attribute StackMapTable.
#[tactic(auto, unfolding(jc_class_out::specs::Frames::table_at))]
pub fn table<'a>(
    alloc: Global,
    pool: &[Slot],
    marks: &[bool],
    entry: &[Item],
    bytes: &'a [u8],
) -> Read<'a, Items<Frame>>
    requires { length marks.now < 65536 }
    ensures { Gives (λ x. (x.0, x.1.now)) result (table_at pool.now marks.now entry.now bytes.now) }
{
    let (count, rest) = u2(bytes)?;
    frames(alloc, pool, marks, entry, count, rest)
}
