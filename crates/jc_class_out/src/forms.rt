//! The shortest forms of frames (JVMS 4.7.4), without memory.
ghost use Rattle.std.specs.Prelude.{◌≡◌, ◌&&◌, ◌≤◌, length, drop};
ghost use Rattle.jc_class_out.specs.Descriptors.{item_of_type, this_item, parameter_items, is_static, items_on};
ghost use Rattle.jc_class_out.specs.Forms.{start_locals, place_before, locals_before, same_item, first_alike, alike, bare_form, form_by, form_of, last_of, written_locals, written_stack, delta_of, near_length, head_length};
ghost use Rattle.jc_class_out.specs.Spelling.{entry_of_method};

use crate::descriptors::behind_type;
use crate::{Frame, Item, MethodModel};
use jc_rules::Items;

/// What the locals at a method's entry follow from.
#[derive(Clone, Copy)]
pub struct Start<'a> {
    pub class: &'a [u16],
    pub flags: u16,
    pub name: &'a [u16],
    pub descriptor: &'a [u16],
}

pub fn start_of<'a>(class: &'a Items<u16>, method: &'a MethodModel) -> Start<'a>
    ensures { start_locals result ≡ entry_of_method class.now method.now }
{
    Start {
        class: class.slice(),
        flags: method.flags,
        name: method.name.slice(),
        descriptor: method.descriptor.slice(),
    }
}

/// What stands before a frame.
#[derive(Clone, Copy)]
pub enum Before<'a> {
    Entry(Start<'a>),
    Behind(&'a Frame),
}

/// A form of a frame: with the locals before it, with one item on the stack besides, with fewer or more locals, or with all.
#[derive(Clone, Copy)]
pub enum Form {
    Same,
    SameItem,
    Chop(u8),
    Append(u8),
    Full,
}

static OBJECT: [u16; 16] = [
    106, 97, 118, 97, 47, 108, 97, 110, 103, 47, 79, 98, 106, 101, 99, 116,
];

static INIT: [u16; 6] = [60, 105, 110, 105, 116, 62];

fn same(one: &Item, other: &Item) -> bool
    ensures { result ≡ same_item one.now other.now }
{
    match one {
        Item::Top => matches!(other, Item::Top),
        Item::Integer => matches!(other, Item::Integer),
        Item::Long => matches!(other, Item::Long),
        Item::NullItem => matches!(other, Item::NullItem),
        Item::UninitializedThis => matches!(other, Item::UninitializedThis),
        Item::Object(name) => match other {
            Item::Object(of) => name.slice() == of.slice(),
            _ => false,
        },
        Item::Uninitialized(at) => match other {
            Item::Uninitialized(of) => *at == *of,
            _ => false,
        },
    }
}

fn first_same(one: &Item, locals: &[Item]) -> bool
    ensures { result ≡ first_alike one.now locals.now }
{
    match locals {
        [] => true,
        [first, ..] => same(one, first),
    }
}

fn behind_first(locals: &[Item]) -> &[Item]
    ensures { result.now ≡ drop 1 locals.now }
{
    match locals {
        [] => locals,
        [_, behind @ ..] => behind,
    }
}

/// Whether the locals are the same as far as both go.
#[tactic(auto, unfolding(crate::specs::Forms::alike))]
fn same_start(seen: &[Item], locals: &[Item]) -> bool
    ensures { result ≡ alike seen.now locals.now }
{
    let mut left = locals;
    for one in seen {
        if !first_same(one, left) {
            return false;
        }
        left = behind_first(left);
    }
    true
}

fn object_named(name: &[u16], item: &Item) -> bool
    ensures { result ≡ same_item (Item.Object name.now) item.now }
{
    match item {
        Item::Object(of) => name == of.slice(),
        _ => false,
    }
}

/// Whether the item is what a value of the type is to the verifier.
fn of_type(units: &[u16], item: &Item) -> bool
    ensures { result ≡ same_item (item_of_type units.now) item.now }
{
    match units {
        [] => matches!(item, Item::Integer),
        [unit, name @ ..] => match *unit {
            74 => matches!(item, Item::Long),
            76 => object_named(&name[..name.len().saturating_sub(1)], item),
            91 => object_named(units, item),
            _ => matches!(item, Item::Integer),
        },
    }
}

fn first_of_type(units: &[u16], locals: &[Item]) -> bool
    ensures { result ≡ first_alike (item_of_type units.now) locals.now }
{
    match locals {
        [] => true,
        [first, ..] => of_type(units, first),
    }
}

/// Whether the item is what `this` is at the entry.
fn of_this(class: &[u16], name: &[u16], item: &Item) -> bool
    ensures { result ≡ same_item (this_item class.now name.now) item.now }
{
    if name == INIT.as_slice() && class != OBJECT.as_slice() {
        matches!(item, Item::UninitializedThis)
    } else {
        object_named(class, item)
    }
}

fn first_of_this(class: &[u16], name: &[u16], locals: &[Item]) -> bool
    ensures { result ≡ first_alike (this_item class.now name.now) locals.now }
{
    match locals {
        [] => true,
        [first, ..] => of_this(class, name, first),
    }
}

/// How many locals there were, and whether they are the same as far as both go.
#[derive(Clone, Copy)]
struct Compared {
    count: usize,
    alike: bool,
}

fn behind_unit(units: &[u16]) -> &[u16]
    ensures { result.now ≡ drop 1 units.now }
{
    match units {
        [] => units,
        [_, behind @ ..] => behind,
    }
}

/// The parameters beside locals.
#[tactic(auto, unfolding(crate::specs::Forms::alike, crate::specs::Descriptors::items_on))]
fn beside_parameters(descriptor: &[u16], locals: &[Item]) -> Compared
    ensures count { result.count ≡ length (parameter_items descriptor.now) }
    ensures few { result.count ≤ length descriptor.now }
    ensures alike { result.alike ≡ alike (parameter_items descriptor.now) locals.now }
{
    let mut rest = behind_unit(descriptor);
    let mut left = locals;
    let mut count = 0;
    let mut alike = true;
    for _ in 0..descriptor.len() {
        match behind_type(rest) {
            None => return Compared { count, alike },
            Some(behind) => {
                let one = &rest[..rest.len().saturating_sub(behind.len())];
                alike = alike && first_of_type(one, left);
                count += 1;
                left = behind_first(left);
                rest = behind;
            }
        }
    }
    Compared { count, alike }
}

fn is_static(flags: u16) -> bool
    ensures { result ≡ is_static flags }
{
    flags / 8 % 2 == 1
}

/// The locals at the entry beside others.
#[tactic(auto, unfolding(crate::specs::Forms::alike))]
fn beside_entry(start: Start<'_>, locals: &[Item]) -> Compared
    ensures count { result.count ≡ length (start_locals start.entry) }
    ensures alike { result.alike ≡ alike (start_locals start.entry) locals.now }
{
    if is_static(start.flags) {
        return beside_parameters(start.descriptor, locals);
    }
    let behind = beside_parameters(start.descriptor, behind_first(locals));
    Compared {
        count: behind.count + 1,
        alike: first_of_this(start.class, start.name, locals) && behind.alike,
    }
}

/// The locals before a frame beside its own.
fn beside(before: Before<'_>, locals: &[Item]) -> Compared
    ensures count { result.count ≡ length (locals_before before.entry) }
    ensures alike { result.alike ≡ alike (locals_before before.entry) locals.now }
{
    match before {
        Before::Entry(start) => beside_entry(start, locals),
        Before::Behind(frame) => {
            let seen = frame.locals.slice();
            Compared {
                count: seen.len(),
                alike: same_start(seen, locals),
            }
        }
    }
}

/// The form of a frame with nothing on the stack.
fn bare(seen: usize, now: usize) -> Form
    ensures { result ≡ bare_form seen now }
{
    if seen == now {
        Form::Same
    } else if now < seen {
        match seen - now {
            less @ ..=3 => Form::Chop(less as u8),
            _ => Form::Full,
        }
    } else {
        match now - seen {
            more @ ..=3 => Form::Append(more as u8),
            _ => Form::Full,
        }
    }
}

fn by_counts(seen: usize, now: usize, stack: usize) -> Form
    ensures { result ≡ form_by seen now stack }
{
    if stack == 0 {
        bare(seen, now)
    } else if stack == 1 && seen == now {
        Form::SameItem
    } else {
        Form::Full
    }
}

/// The shortest form of a frame.
#[tactic(auto, unfolding(crate::specs::Forms::form_of))]
pub fn shortest(before: Before<'_>, frame: &Frame) -> Form
    ensures { result ≡ form_of (locals_before before.entry) frame.now }
{
    let seen = beside(before, frame.locals.slice());
    if seen.alike {
        by_counts(seen.count, frame.locals.len(), frame.stack.len())
    } else {
        Form::Full
    }
}

fn last(items: &[Item], count: u8) -> &[Item]
    ensures { result.now ≡ last_of count items.now }
{
    &items[items.len().saturating_sub(usize::from(count))..]
}

/// The locals that stand in the form.
pub fn locals_in(frame: &Frame, form: Form) -> &[Item]
    ensures { result.now ≡ written_locals frame.now form }
{
    match form {
        Form::Append(more) => last(frame.locals.slice(), more),
        Form::Full => frame.locals.slice(),
        _ => &[],
    }
}

/// The stack that stands in the form.
pub fn stack_in(frame: &Frame, form: Form) -> &[Item]
    ensures { result.now ≡ written_stack frame.now form }
{
    match form {
        Form::SameItem => frame.stack.slice(),
        Form::Full => frame.stack.slice(),
        _ => &[],
    }
}

pub fn place(before: Before<'_>) -> Option<u32>
    ensures { result ≡ place_before before.entry }
{
    match before {
        Before::Entry(_) => None,
        Before::Behind(frame) => Some(frame.at),
    }
}

/// How far a frame is from the one before it.
pub fn delta(before: Option<u32>, at: u32) -> u32
    ensures { result ≡ delta_of before at }
{
    match before {
        None => at,
        Some(before) => at.saturating_sub(before).saturating_sub(1),
    }
}

fn near_bytes(delta: u32) -> u64
    ensures value { result ≡ near_length delta }
    ensures few { result ≤ 3 }
{
    if delta < 64 { 1 } else { 3 }
}

/// How many bytes a form takes beside its items.
pub fn head_bytes(delta: u32, form: Form) -> u64
    ensures value { result ≡ head_length delta form }
    ensures few { result ≤ 7 }
{
    match form {
        Form::Same => near_bytes(delta),
        Form::SameItem => near_bytes(delta),
        Form::Chop(_) => 3,
        Form::Append(_) => 3,
        Form::Full => 7,
    }
}
