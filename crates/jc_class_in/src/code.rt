//! Code, with its instructions and its table of exceptions (JVMS 4.7.3).
ghost use Rattle.std.specs.Prelude.{◌≡◌, ◌<◌, ◌^◌, IfOk, length};
ghost use Rattle.std.specs.Str.{bytes_eq};
ghost use Rattle.jc_class_out.specs.Code.{attribute_at, attribute_ends, no_more_at, code_on, marks_of, body_at, handler_at, frames_of_at, code_attributes_at, code_at};
ghost use Rattle.jc_class_in.specs.Gives.{Gives};

use crate::frames::table;
use crate::instructions::instruction;
use crate::many::{Part, counted_row};
use crate::marks::{begins_at, check_jumps, ends_at, marks};
use crate::names::{class_or_none, name};
use crate::numbers::{Read, u2, u4, want};
use jc_class_out::{CodeModel, Flaw, Frame, Handler, Ins, Item, Slot};
use jc_rules::{Items, Stop};
use std::alloc::Global;

/// Whether the text is this word.
pub fn spells(units: &[u16], word: &str) -> bool
    ensures { result ≡ bytes_eq units.now word.now }
{
    let bytes = word.as_bytes();
    if units.len() != bytes.len() {
        return false;
    }
    for (i, unit) in units.iter().enumerate() {
        if *unit != u16::from(bytes[i]) {
            return false;
        }
    }
    true
}

/// The name of an attribute, which has to be the wanted one, and its length.
#[tactic(auto, unfolding(jc_class_out::specs::Code::attribute_at))]
pub fn attribute<'a>(alloc: Global, pool: &[Slot], word: &str, bytes: &'a [u8]) -> Read<'a, u32>
    ensures { Gives (λ x. (x.0, x.1.now)) result (attribute_at pool.now word.now bytes.now) }
{
    let (name, rest) = name(alloc, pool, bytes)?;
    if !spells(name.slice(), word) {
        return Err(Stop::Refused(Flaw::Tag(bytes.len())));
    }
    u4(rest)
}

/// Tests the length of an attribute whose content stands from one place on up to another.
pub fn check_end(told: u32, start: &[u8], end: &[u8]) -> Result<(), Stop<Flaw>>
    ensures { Gives (λ _. 0) result (attribute_ends told (length start.now) (length end.now)) }
{
    let size = start.len().saturating_sub(end.len());
    if size == told as usize {
        Ok(())
    } else {
        Err(Stop::Refused(Flaw::Index(start.len() + 4)))
    }
}

/// No attribute more; so many are told of.
#[tactic(auto, unfolding(jc_class_out::specs::Code::no_more_at))]
pub fn no_more<'a>(alloc: Global, pool: &[Slot], count: u16, bytes: &'a [u8]) -> Read<'a, u8>
    ensures { Gives (λ x. (x.0, x.1.now)) result (no_more_at pool.now count bytes.now) }
{
    if count == 0 {
        return Ok((0, bytes));
    }
    name(alloc, pool, bytes)?;
    Err(Stop::Refused(Flaw::Tag(bytes.len())))
}

/// Instructions, until their bytes reach the length.
#[tactic(auto, using(crate::proofs::Coded::code_stops, crate::proofs::Coded::code_over, crate::proofs::Coded::code_out))]
fn instructions<'a>(alloc: Global, pool: &[Slot], len: u32, bytes: &'a [u8]) -> Read<'a, Items<Ins>>
    ensures { Gives (λ x. (x.0, x.1.now)) result (code_on pool.now (length bytes.now) len len bytes.now) }
{
    let start = bytes.len();
    let mut list = Items::new(alloc);
    let mut rest = bytes;
    for _ in 0..len {
        let used = start.saturating_sub(rest.len());
        if used >= len as usize {
            return Ok((list, rest));
        }
        let (next, after) = instruction(alloc, pool, used as u32, rest)?;
        list.push(next)?;
        rest = after;
    }
    Ok((list, rest))
}

/// The code and its length, with each jump tested.
#[tactic(auto, unfolding(jc_class_out::specs::Code::body_at))]
fn body<'a>(alloc: Global, pool: &[Slot], bytes: &'a [u8]) -> Read<'a, Items<Ins>>
    ensures read { Gives (λ x. (x.0, x.1.now)) result (body_at pool.now bytes.now) }
    ensures small { IfOk result (λ x. length (marks_of x.0) < 65536) }
{
    let (len, start) = u4(bytes)?;
    let (list, rest) = instructions(alloc, pool, len, start)?;
    let used = start.len().saturating_sub(rest.len());
    if len == 0 || len > 65535 || used != len as usize {
        return Err(Stop::Refused(Flaw::Index(bytes.len())));
    }
    let marks = marks(alloc, list.slice())?;
    check_jumps(&marks, start.len(), list.slice())?;
    Ok((list, rest))
}

#[tactic(auto, unfolding(jc_class_out::specs::Code::handler_at))]
fn handler<'a>(alloc: Global, pool: &[Slot], marks: &[bool], bytes: &'a [u8]) -> Read<'a, Handler>
    ensures { Gives (λ x. (x.0, x.1.now)) result (handler_at pool.now marks.now bytes.now) }
{
    let (from, rest) = u2(bytes)?;
    want(begins_at(marks, usize::from(from)), bytes.len())?;
    let (to, behind) = u2(rest)?;
    want(ends_at(marks, usize::from(to)) && from < to, rest.len())?;
    let (at, last) = u2(behind)?;
    want(begins_at(marks, usize::from(at)), behind.len())?;
    let (class, rest) = class_or_none(alloc, pool, last)?;
    let from = u32::from(from);
    let to = u32::from(to);
    let at = u32::from(at);
    Ok((
        Handler {
            from,
            to,
            at,
            class,
        },
        rest,
    ))
}

/// A row of the exception table.
#[derive(Clone, Copy)]
struct HandlerPart<'p> {
    pool: &'p [Slot],
    marks: &'p [bool],
}

impl Part for HandlerPart<'_> {
    type Value = Handler;

    ghost reads = { λ p bytes. handler_at p.pool.now p.marks.now bytes };

    fn read<'a>(&self, alloc: Global, bytes: &'a [u8]) -> Read<'a, Handler> {
        handler(alloc, self.pool, self.marks, bytes)
    }
}

/// The attribute StackMapTable.
#[tactic(auto, unfolding(jc_class_out::specs::Code::frames_of_at))]
fn stack_map_table<'a>(
    alloc: Global,
    pool: &[Slot],
    marks: &[bool],
    entry: &[Item],
    bytes: &'a [u8],
) -> Read<'a, Items<Frame>>
    requires { length marks.now < 65536 }
    ensures { Gives (λ x. (x.0, x.1.now)) result (frames_of_at pool.now marks.now entry.now bytes.now) }
{
    let (told, start) = attribute(alloc, pool, "StackMapTable", bytes)?;
    let (frames, rest) = table(alloc, pool, marks, entry, start)?;
    check_end(told, start, rest)?;
    Ok((frames, rest))
}

/// None, or the attribute StackMapTable alone.
#[tactic(auto, unfolding(jc_class_out::specs::Code::code_attributes_at))]
fn code_attributes<'a>(
    alloc: Global,
    pool: &[Slot],
    marks: &[bool],
    entry: &[Item],
    bytes: &'a [u8],
) -> Read<'a, Items<Frame>>
    requires { length marks.now < 65536 }
    ensures { Gives (λ x. (x.0, x.1.now)) result (code_attributes_at pool.now marks.now entry.now bytes.now) }
{
    let (count, rest) = u2(bytes)?;
    if count == 0 {
        return Ok((Items::new(alloc), rest));
    }
    let (frames, rest) = stack_map_table(alloc, pool, marks, entry, rest)?;
    let (_, rest) = no_more(alloc, pool, count - 1, rest)?;
    Ok((frames, rest))
}

/// The content of the attribute Code; `entry` is the locals at the method's entry.
#[tactic(auto, unfolding(jc_class_out::specs::Code::code_at))]
pub fn code<'a>(
    alloc: Global,
    pool: &[Slot],
    entry: &[Item],
    bytes: &'a [u8],
) -> Read<'a, CodeModel>
    ensures { Gives (λ x. (x.0, x.1.now)) result (code_at pool.now entry.now bytes.now) }
{
    let (stack, rest) = u2(bytes)?;
    let (locals, rest) = u2(rest)?;
    let (ins, rest) = body(alloc, pool, rest)?;
    let marks = marks(alloc, ins.slice())?;
    let part = HandlerPart {
        pool,
        marks: &marks,
    };
    let (handlers, rest) = counted_row(alloc, &part, rest)?;
    let (frames, rest) = code_attributes(alloc, pool, &marks, entry, rest)?;
    Ok((
        CodeModel {
            stack,
            locals,
            ins,
            handlers,
            frames,
        },
        rest,
    ))
}
