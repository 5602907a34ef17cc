//! Numbers as bytes, the high one first.
ghost use Rattle.std.specs.Prelude.{◌≡◌, ◌++◌, ◌∷◌, [], ◌%◌, ◌^◌, ◌+◌, OnOk, length, replicate, None};
ghost use Rattle.std.specs.List.{flat_map};
ghost use Rattle.std.specs.Int.{w16, w32, w64, to_be_bytes, cast_unsigned};
ghost use Rattle.jc_class_out.specs.Spelling.{knowns, known, number, index, wide_distance, spell_case, spell_switch, interface_tail, spell_number, spell_load, spell_member, spell_operand, spell_wide, spell_ins, spell_code, spell_body, spell_handler, spell_class_or_none, spell_name_or_none, spell_item, counted, spell_near, spell_form, spell_frame, spell_frames, spell_attribute, spell_table, spell_code_attributes, spell_code_model, spell_code_or_none, spell_method, spell_field, spell_inner, spell_inners, spell_interface, spell_members};
ghost use Rattle.jc_class_out.specs.Spelling.{loaded_known, member_known};
ghost use Rattle.jc_class_out.specs.Pool.{KnownText, KnownClass};
ghost use Rattle.jc_class_out.specs.Instructions.{padding};
ghost use Rattle.jc_class_out.specs.Forms.{start_locals, place_before, locals_before};

use crate::descriptors::units_of_parameters;
use crate::forms::{Before, Form, Start, delta, locals_in, place, shortest, start_of};
use crate::kinds::kind;
use crate::pool::{CODE, INNER_CLASSES, Pool, STACK_MAP_TABLE, number};
use crate::{
    ClassModel, CodeModel, Constant, FieldModel, Frame, Handler, InnerModel, Ins, Item, Kind,
    Loaded, MethodModel, Operand, SwitchCase,
};
use jc_rules::{Items, WantOfMemory};
use std::alloc::Global;

pub fn put_u16(out: &mut Vec<u8>, n: u16) -> Result<(), WantOfMemory>
    ensures { OnOk result (out.new.items ≡ out.old.items ++ to_be_bytes w16 n) }
{
    out.extend_from_slice(&n.to_be_bytes())?;
    Ok(())
}

pub fn put_u32(out: &mut Vec<u8>, n: u32) -> Result<(), WantOfMemory>
    ensures { OnOk result (out.new.items ≡ out.old.items ++ to_be_bytes w32 n) }
{
    out.extend_from_slice(&n.to_be_bytes())?;
    Ok(())
}

pub fn put_u64(out: &mut Vec<u8>, n: u64) -> Result<(), WantOfMemory>
    ensures { OnOk result (out.new.items ≡ out.old.items ++ to_be_bytes w64 n) }
{
    out.extend_from_slice(&n.to_be_bytes())?;
    Ok(())
}

pub fn put_u8(out: &mut Vec<u8>, n: u8) -> Result<(), WantOfMemory>
    ensures { OnOk result (out.new.items ≡ out.old.items ++ n ∷ []) }
{
    out.push(n)?;
    Ok(())
}

/// The low byte.
fn low_byte(n: u32) -> u8
    ensures { result ≡ n % 256 }
{
    (n % 256) as u8
}

fn low_u16(n: u32) -> u16
    ensures { result ≡ n % 65536 }
{
    (n % 65536) as u16
}

/// A count of two bytes.
pub fn put_count(out: &mut Vec<u8>, count: usize) -> Result<(), WantOfMemory>
    ensures { OnOk result (out.new.items ≡ out.old.items ++ to_be_bytes w16 (count % 65536)) }
{
    put_u16(out, (count % 65536) as u16)?;
    Ok(())
}

/// A length of four bytes.
fn put_length(out: &mut Vec<u8>, length: usize) -> Result<(), WantOfMemory>
    ensures { OnOk result (out.new.items ≡ out.old.items ++ to_be_bytes w32 (length % 2 ^ 32)) }
{
    put_u32(out, (length % 0x1_0000_0000) as u32)?;
    Ok(())
}

pub fn put_index<'a>(
    out: &mut Vec<u8>,
    pool: &Pool<'a>,
    wanted: Constant<'a>,
) -> Result<(), WantOfMemory>
    ensures { OnOk result (out.new.items ≡ out.old.items ++ index (knowns pool.now.keys) (known wanted.entry)) }
{
    put_u16(out, number(pool, wanted))?;
    Ok(())
}

fn put_class<'a>(
    out: &mut Vec<u8>,
    pool: &Pool<'a>,
    name: &'a Items<u16>,
) -> Result<(), WantOfMemory>
    ensures { OnOk result (out.new.items ≡ out.old.items ++ index (knowns pool.now.keys) (KnownClass name.now)) }
{
    put_index(out, pool, Constant::Class(name.slice()))?;
    Ok(())
}

fn put_name<'a>(
    out: &mut Vec<u8>,
    pool: &Pool<'a>,
    name: &'a Items<u16>,
) -> Result<(), WantOfMemory>
    ensures { OnOk result (out.new.items ≡ out.old.items ++ index (knowns pool.now.keys) (KnownText name.now)) }
{
    put_index(out, pool, Constant::Text(name.slice()))?;
    Ok(())
}

fn put_class_or_none<'a>(
    out: &mut Vec<u8>,
    pool: &Pool<'a>,
    name: &'a Option<Items<u16>>,
) -> Result<(), WantOfMemory>
    ensures { OnOk result (out.new.items ≡ out.old.items ++ spell_class_or_none (knowns pool.now.keys) name.now) }
{
    match name {
        None => put_u16(out, 0),
        Some(name) => put_class(out, pool, name),
    }
}

fn put_name_or_none<'a>(
    out: &mut Vec<u8>,
    pool: &Pool<'a>,
    name: &'a Option<Items<u16>>,
) -> Result<(), WantOfMemory>
    ensures { OnOk result (out.new.items ≡ out.old.items ++ spell_name_or_none (knowns pool.now.keys) name.now) }
{
    match name {
        None => put_u16(out, 0),
        Some(name) => put_name(out, pool, name),
    }
}

/// How far `to` is from `at`, in two's complement.
pub fn way(at: u32, to: u32) -> u32
    ensures { result ≡ wide_distance at to }
{
    to.wrapping_sub(at)
}

#[tactic(auto, unfolding(crate::specs::Spelling::spell_case))]
fn put_case(out: &mut Vec<u8>, at: u32, case: &SwitchCase) -> Result<(), WantOfMemory>
    ensures { OnOk result (out.new.items ≡ out.old.items ++ spell_case at case.now) }
{
    put_u32(out, case.key.cast_unsigned())?;
    put_u32(out, way(at, case.at))?;
    Ok(())
}

fn put_cases(out: &mut Vec<u8>, at: u32, cases: &[SwitchCase]) -> Result<(), WantOfMemory>
    ensures { OnOk result (out.new.items ≡ out.old.items ++ flat_map (spell_case at) cases.now) }
{
    for case in cases {
        put_case(out, at, case)?;
    }
    Ok(())
}

/// How many zeros stand behind the opcode of a switch.
pub fn gap(at: u32) -> u32
    ensures { result ≡ padding at }
{
    3 - at % 4
}

fn put_gap(out: &mut Vec<u8>, at: u32) -> Result<(), WantOfMemory>
    ensures { OnOk result (out.new.items ≡ out.old.items ++ replicate (padding at) 0) }
{
    for _ in 0..gap(at) {
        put_u8(out, 0)?;
    }
    Ok(())
}

#[tactic(auto, unfolding(crate::specs::Spelling::spell_switch))]
fn put_switch(
    out: &mut Vec<u8>,
    at: u32,
    otherwise: u32,
    cases: &[SwitchCase],
) -> Result<(), WantOfMemory>
    ensures { OnOk result (out.new.items ≡ out.old.items ++ spell_switch at otherwise cases.now) }
{
    put_gap(out, at)?;
    put_u32(out, way(at, otherwise))?;
    put_length(out, cases.len())?;
    put_cases(out, at, cases)?;
    Ok(())
}

#[tactic(auto, unfolding(crate::specs::Spelling::spell_number))]
fn put_number(out: &mut Vec<u8>, kind: Kind, n: i32) -> Result<(), WantOfMemory>
    ensures { OnOk result (out.new.items ≡ out.old.items ++ spell_number kind n) }
{
    match kind {
        Kind::Short => put_u16(out, low_u16(n.cast_unsigned())),
        _ => put_u8(out, low_byte(n.cast_unsigned())),
    }
}

fn loaded_constant(loaded: &Loaded) -> Constant<'_>
    ensures { known result ≡ loaded_known loaded.now }
{
    match loaded {
        Loaded::Whole(n) => Constant::Whole(*n),
        Loaded::Long(n) => Constant::Long(*n),
        Loaded::Text(text) => Constant::Literal(text.slice()),
    }
}

#[tactic(auto, unfolding(crate::specs::Spelling::spell_load))]
fn put_load<'a>(
    out: &mut Vec<u8>,
    pool: &Pool<'a>,
    kind: Kind,
    loaded: &'a Loaded,
) -> Result<(), WantOfMemory>
    ensures { OnOk result (out.new.items ≡ out.old.items ++ spell_load (knowns pool.now.keys) kind loaded.now) }
{
    let constant = loaded_constant(loaded);
    match kind {
        Kind::Load => put_u8(out, low_byte(u32::from(number(pool, constant)))),
        _ => put_index(out, pool, constant),
    }
}

pub fn member_constant<'a>(
    kind: Kind,
    class: &'a Items<u16>,
    name: &'a Items<u16>,
    descriptor: &'a Items<u16>,
) -> Constant<'a>
    ensures { known result ≡ member_known kind class.now name.now descriptor.now }
{
    let class = class.slice();
    let name = name.slice();
    let descriptor = descriptor.slice();
    match kind {
        Kind::Field => Constant::Field {
            class,
            name,
            descriptor,
        },
        Kind::Interface => Constant::Interface {
            class,
            name,
            descriptor,
        },
        _ => Constant::Method {
            class,
            name,
            descriptor,
        },
    }
}

fn put_interface_tail(
    out: &mut Vec<u8>,
    kind: Kind,
    descriptor: &Items<u16>,
) -> Result<(), WantOfMemory>
    ensures { OnOk result (out.new.items ≡ out.old.items ++ interface_tail kind descriptor.now) }
{
    match kind {
        Kind::Interface => {
            let units = units_of_parameters(descriptor.slice()).unwrap_or(0);
            put_u8(out, low_byte(u32::from(units) + 1))?;
            put_u8(out, 0)?;
            Ok(())
        }
        _ => Ok(()),
    }
}

#[tactic(auto, unfolding(crate::specs::Spelling::spell_member))]
fn put_member<'a>(
    out: &mut Vec<u8>,
    pool: &Pool<'a>,
    kind: Kind,
    class: &'a Items<u16>,
    name: &'a Items<u16>,
    descriptor: &'a Items<u16>,
) -> Result<(), WantOfMemory>
    ensures { OnOk result (out.new.items ≡ out.old.items ++ spell_member (knowns pool.now.keys) kind class.now name.now descriptor.now) }
{
    put_index(out, pool, member_constant(kind, class, name, descriptor))?;
    put_interface_tail(out, kind, descriptor)?;
    Ok(())
}

#[tactic(auto, unfolding(crate::specs::Spelling::spell_operand))]
fn put_operand<'a>(
    out: &mut Vec<u8>,
    pool: &Pool<'a>,
    at: u32,
    kind: Kind,
    operand: &'a Operand,
) -> Result<(), WantOfMemory>
    ensures { OnOk result (out.new.items ≡ out.old.items ++ spell_operand (knowns pool.now.keys) at kind operand.now) }
{
    match operand {
        Operand::Nothing => Ok(()),
        Operand::Number(n) => put_number(out, kind, *n),
        Operand::Local(n) => put_u8(out, low_byte(u32::from(*n))),
        Operand::Step { local, by } => {
            put_u8(out, low_byte(u32::from(*local)))?;
            put_u8(out, low_byte(u32::from(by.cast_unsigned())))?;
            Ok(())
        }
        Operand::Load(loaded) => put_load(out, pool, kind, loaded),
        Operand::Member {
            class,
            name,
            descriptor,
        } => put_member(out, pool, kind, class, name, descriptor),
        Operand::Class(class) => put_class(out, pool, class),
        Operand::Dims { class, dims } => {
            put_class(out, pool, class)?;
            put_u8(out, *dims)?;
            Ok(())
        }
        Operand::Jump(to) => put_u16(out, low_u16(way(at, *to))),
        Operand::Switch { otherwise, cases } => put_switch(out, at, *otherwise, cases.slice()),
    }
}

#[tactic(auto, unfolding(crate::specs::Spelling::spell_wide))]
fn put_wide(out: &mut Vec<u8>, operand: &Operand) -> Result<(), WantOfMemory>
    ensures { OnOk result (out.new.items ≡ out.old.items ++ spell_wide operand.now) }
{
    match operand {
        Operand::Local(n) => put_u16(out, *n),
        Operand::Step { local, by } => {
            put_u16(out, *local)?;
            put_u16(out, by.cast_unsigned())?;
            Ok(())
        }
        _ => Ok(()),
    }
}

#[tactic(auto, unfolding(crate::specs::Spelling::spell_ins))]
fn put_ins<'a>(
    out: &mut Vec<u8>,
    pool: &Pool<'a>,
    at: u32,
    ins: &'a Ins,
) -> Result<(), WantOfMemory>
    ensures { OnOk result (out.new.items ≡ out.old.items ++ spell_ins (knowns pool.now.keys) at ins.now) }
{
    if ins.wide {
        put_u8(out, 0xc4)?;
        put_u8(out, ins.code)?;
        put_wide(out, &ins.operand)?;
    } else {
        put_u8(out, ins.code)?;
        put_operand(out, pool, at, kind(ins.code), &ins.operand)?;
    }
    Ok(())
}

/// The instructions into an empty `Vec`, so that its length is the place of the next one.
fn put_code<'a>(out: &mut Vec<u8>, pool: &Pool<'a>, list: &'a [Ins]) -> Result<(), WantOfMemory>
    requires { out.old.items ≡ [] }
    ensures { OnOk result (out.new.items ≡ spell_code (knowns pool.now.keys) 0 list.now) }
{
    for ins in list {
        let at = (out.len() % 0x1_0000_0000) as u32;
        put_ins(out, pool, at, ins)?;
    }
    Ok(())
}

#[tactic(auto, unfolding(crate::specs::Spelling::spell_body))]
fn put_body<'a>(
    alloc: Global,
    out: &mut Vec<u8>,
    pool: &Pool<'a>,
    list: &'a [Ins],
) -> Result<(), WantOfMemory>
    ensures { OnOk result (out.new.items ≡ out.old.items ++ spell_body (knowns pool.now.keys) list.now) }
{
    let mut code = Vec::new(alloc);
    put_code(&mut code, pool, list)?;
    put_length(out, code.len())?;
    out.extend_from_slice(&code)?;
    Ok(())
}

#[tactic(auto, unfolding(crate::specs::Spelling::spell_handler))]
fn put_handler<'a>(
    out: &mut Vec<u8>,
    pool: &Pool<'a>,
    handler: &'a Handler,
) -> Result<(), WantOfMemory>
    ensures { OnOk result (out.new.items ≡ out.old.items ++ spell_handler (knowns pool.now.keys) handler.now) }
{
    put_u16(out, low_u16(handler.from))?;
    put_u16(out, low_u16(handler.to))?;
    put_u16(out, low_u16(handler.at))?;
    put_class_or_none(out, pool, &handler.class)?;
    Ok(())
}

#[tactic(auto, unfolding(crate::specs::Spelling::counted))]
fn put_handlers<'a>(
    out: &mut Vec<u8>,
    pool: &Pool<'a>,
    handlers: &'a [Handler],
) -> Result<(), WantOfMemory>
    ensures { OnOk result (out.new.items ≡ out.old.items ++ counted (spell_handler (knowns pool.now.keys)) handlers.now) }
{
    put_count(out, handlers.len())?;
    for handler in handlers {
        put_handler(out, pool, handler)?;
    }
    Ok(())
}

#[tactic(auto, unfolding(crate::specs::Spelling::spell_item))]
fn put_item<'a>(out: &mut Vec<u8>, pool: &Pool<'a>, item: &'a Item) -> Result<(), WantOfMemory>
    ensures { OnOk result (out.new.items ≡ out.old.items ++ spell_item (knowns pool.now.keys) item.now) }
{
    match item {
        Item::Top => put_u8(out, 0),
        Item::Integer => put_u8(out, 1),
        Item::Long => put_u8(out, 4),
        Item::NullItem => put_u8(out, 5),
        Item::UninitializedThis => put_u8(out, 6),
        Item::Object(name) => {
            put_u8(out, 7)?;
            put_class(out, pool, name)?;
            Ok(())
        }
        Item::Uninitialized(at) => {
            put_u8(out, 8)?;
            put_u16(out, low_u16(*at))?;
            Ok(())
        }
    }
}

#[tactic(auto, unfolding(crate::specs::Spelling::counted))]
fn put_items<'a>(out: &mut Vec<u8>, pool: &Pool<'a>, items: &'a [Item]) -> Result<(), WantOfMemory>
    ensures { OnOk result (out.new.items ≡ out.old.items ++ counted (spell_item (knowns pool.now.keys)) items.now) }
{
    put_count(out, items.len())?;
    for item in items {
        put_item(out, pool, item)?;
    }
    Ok(())
}

fn put_each_item<'a>(
    out: &mut Vec<u8>,
    pool: &Pool<'a>,
    items: &'a [Item],
) -> Result<(), WantOfMemory>
    ensures { OnOk result (out.new.items ≡ out.old.items ++ flat_map (spell_item (knowns pool.now.keys)) items.now) }
{
    for item in items {
        put_item(out, pool, item)?;
    }
    Ok(())
}

/// A delta in the tag, where it is below 64, and else behind another tag.
#[tactic(auto, unfolding(crate::specs::Spelling::spell_near))]
fn put_near(out: &mut Vec<u8>, tag: u8, wide: u8, delta: u32) -> Result<(), WantOfMemory>
    ensures { OnOk result (out.new.items ≡ out.old.items ++ spell_near tag wide delta) }
{
    if delta < 64 {
        put_u8(out, low_byte(u32::from(tag) + delta))?;
    } else {
        put_u8(out, wide)?;
        put_u16(out, low_u16(delta))?;
    }
    Ok(())
}

#[tactic(auto, unfolding(crate::specs::Spelling::spell_form))]
fn put_full<'a>(
    out: &mut Vec<u8>,
    pool: &Pool<'a>,
    delta: u32,
    frame: &'a Frame,
) -> Result<(), WantOfMemory>
    ensures { OnOk result (out.new.items ≡ out.old.items ++ spell_form (knowns pool.now.keys) delta frame.now Form.Full) }
{
    put_u8(out, 255)?;
    put_u16(out, low_u16(delta))?;
    put_items(out, pool, frame.locals.slice())?;
    put_items(out, pool, frame.stack.slice())?;
    Ok(())
}

#[tactic(auto, unfolding(crate::specs::Spelling::spell_form))]
fn put_append<'a>(
    out: &mut Vec<u8>,
    pool: &Pool<'a>,
    delta: u32,
    frame: &'a Frame,
    more: u8,
) -> Result<(), WantOfMemory>
    ensures { OnOk result (out.new.items ≡ out.old.items ++ spell_form (knowns pool.now.keys) delta frame.now (Form.Append more)) }
{
    put_u8(out, low_byte(251 + u32::from(more)))?;
    put_u16(out, low_u16(delta))?;
    put_each_item(out, pool, locals_in(frame, Form::Append(more)))?;
    Ok(())
}

#[tactic(auto, unfolding(crate::specs::Spelling::spell_form))]
fn put_form<'a>(
    out: &mut Vec<u8>,
    pool: &Pool<'a>,
    delta: u32,
    frame: &'a Frame,
    form: Form,
) -> Result<(), WantOfMemory>
    ensures { OnOk result (out.new.items ≡ out.old.items ++ spell_form (knowns pool.now.keys) delta frame.now form) }
{
    match form {
        Form::Same => put_near(out, 0, 251, delta),
        Form::SameItem => {
            put_near(out, 64, 247, delta)?;
            put_each_item(out, pool, frame.stack.slice())?;
            Ok(())
        }
        Form::Chop(less) => {
            put_u8(out, 251u8.saturating_sub(less))?;
            put_u16(out, low_u16(delta))?;
            Ok(())
        }
        Form::Append(more) => put_append(out, pool, delta, frame, more),
        Form::Full => put_full(out, pool, delta, frame),
    }
}

#[tactic(auto, unfolding(crate::specs::Spelling::spell_frame))]
fn put_frame<'a>(
    out: &mut Vec<u8>,
    pool: &Pool<'a>,
    before: Before<'a>,
    frame: &'a Frame,
) -> Result<(), WantOfMemory>
    ensures { OnOk result (out.new.items ≡ out.old.items ++ spell_frame (knowns pool.now.keys) (place_before before.entry) (locals_before before.entry) frame.now) }
{
    let by = delta(place(before), frame.at);
    put_form(out, pool, by, frame, shortest(before, frame))?;
    Ok(())
}

#[tactic(auto, unfolding(crate::specs::Spelling::spell_frames))]
fn put_frames<'a>(
    out: &mut Vec<u8>,
    pool: &Pool<'a>,
    start: Start<'a>,
    frames: &'a [Frame],
) -> Result<(), WantOfMemory>
    ensures { OnOk result (out.new.items ≡ out.old.items ++ spell_frames (knowns pool.now.keys) None (start_locals start.entry) frames.now) }
{
    let mut before = Before::Entry(start);
    for frame in frames {
        put_frame(out, pool, before, frame)?;
        before = Before::Behind(frame);
    }
    Ok(())
}

#[tactic(auto, unfolding(crate::specs::Spelling::spell_table))]
fn put_table<'a>(
    out: &mut Vec<u8>,
    pool: &Pool<'a>,
    start: Start<'a>,
    frames: &'a [Frame],
) -> Result<(), WantOfMemory>
    ensures { OnOk result (out.new.items ≡ out.old.items ++ spell_table (knowns pool.now.keys) (start_locals start.entry) frames.now) }
{
    put_count(out, frames.len())?;
    put_frames(out, pool, start, frames)?;
    Ok(())
}

/// An attribute of that name.
#[tactic(auto, unfolding(crate::specs::Spelling::spell_attribute))]
fn put_attribute<'a>(
    out: &mut Vec<u8>,
    pool: &Pool<'a>,
    name: &'a [u16],
    content: &[u8],
) -> Result<(), WantOfMemory>
    ensures { OnOk result (out.new.items ≡ out.old.items ++ spell_attribute (knowns pool.now.keys) name.now content.now) }
{
    put_index(out, pool, Constant::Text(name))?;
    put_length(out, content.len())?;
    out.extend_from_slice(content)?;
    Ok(())
}

fn put_code_attributes<'a>(
    alloc: Global,
    out: &mut Vec<u8>,
    pool: &Pool<'a>,
    start: Start<'a>,
    frames: &'a [Frame],
) -> Result<(), WantOfMemory>
    ensures { OnOk result (out.new.items ≡ out.old.items ++ spell_code_attributes (knowns pool.now.keys) (start_locals start.entry) frames.now) }
{
    match frames {
        [] => put_u16(out, 0),
        [_, ..] => {
            let mut content = Vec::new(alloc);
            put_table(&mut content, pool, start, frames)?;
            put_u16(out, 1)?;
            put_attribute(out, pool, &STACK_MAP_TABLE, &content)?;
            Ok(())
        }
    }
}

#[tactic(auto, unfolding(crate::specs::Spelling::spell_code_model))]
fn put_code_model<'a>(
    alloc: Global,
    out: &mut Vec<u8>,
    pool: &Pool<'a>,
    start: Start<'a>,
    code: &'a CodeModel,
) -> Result<(), WantOfMemory>
    ensures { OnOk result (out.new.items ≡ out.old.items ++ spell_code_model (knowns pool.now.keys) (start_locals start.entry) code.now) }
{
    put_u16(out, code.stack)?;
    put_u16(out, code.locals)?;
    put_body(alloc, out, pool, code.ins.slice())?;
    put_handlers(out, pool, code.handlers.slice())?;
    put_code_attributes(alloc, out, pool, start, code.frames.slice())?;
    Ok(())
}

fn put_code_or_none<'a>(
    alloc: Global,
    out: &mut Vec<u8>,
    pool: &Pool<'a>,
    start: Start<'a>,
    code: &'a Option<CodeModel>,
) -> Result<(), WantOfMemory>
    ensures { OnOk result (out.new.items ≡ out.old.items ++ spell_code_or_none (knowns pool.now.keys) (start_locals start.entry) code.now) }
{
    match code {
        None => put_u16(out, 0),
        Some(code) => {
            let mut content = Vec::new(alloc);
            put_code_model(alloc, &mut content, pool, start, code)?;
            put_u16(out, 1)?;
            put_attribute(out, pool, &CODE, &content)?;
            Ok(())
        }
    }
}

#[tactic(auto, unfolding(crate::specs::Spelling::spell_method))]
fn put_method<'a>(
    alloc: Global,
    out: &mut Vec<u8>,
    pool: &Pool<'a>,
    class: &'a Items<u16>,
    method: &'a MethodModel,
) -> Result<(), WantOfMemory>
    ensures { OnOk result (out.new.items ≡ out.old.items ++ spell_method (knowns pool.now.keys) class.now method.now) }
{
    put_u16(out, method.flags)?;
    put_name(out, pool, &method.name)?;
    put_name(out, pool, &method.descriptor)?;
    put_code_or_none(alloc, out, pool, start_of(class, method), &method.code)?;
    Ok(())
}

#[tactic(auto, unfolding(crate::specs::Spelling::counted))]
fn put_methods<'a>(
    alloc: Global,
    out: &mut Vec<u8>,
    pool: &Pool<'a>,
    class: &'a Items<u16>,
    methods: &'a [MethodModel],
) -> Result<(), WantOfMemory>
    ensures { OnOk result (out.new.items ≡ out.old.items ++ counted (spell_method (knowns pool.now.keys) class.now) methods.now) }
{
    put_count(out, methods.len())?;
    for method in methods {
        put_method(alloc, out, pool, class, method)?;
    }
    Ok(())
}

#[tactic(auto, unfolding(crate::specs::Spelling::spell_field))]
fn put_field<'a>(
    out: &mut Vec<u8>,
    pool: &Pool<'a>,
    field: &'a FieldModel,
) -> Result<(), WantOfMemory>
    ensures { OnOk result (out.new.items ≡ out.old.items ++ spell_field (knowns pool.now.keys) field.now) }
{
    put_u16(out, field.flags)?;
    put_name(out, pool, &field.name)?;
    put_name(out, pool, &field.descriptor)?;
    put_u16(out, 0)?;
    Ok(())
}

#[tactic(auto, unfolding(crate::specs::Spelling::counted))]
fn put_fields<'a>(
    out: &mut Vec<u8>,
    pool: &Pool<'a>,
    fields: &'a [FieldModel],
) -> Result<(), WantOfMemory>
    ensures { OnOk result (out.new.items ≡ out.old.items ++ counted (spell_field (knowns pool.now.keys)) fields.now) }
{
    put_count(out, fields.len())?;
    for field in fields {
        put_field(out, pool, field)?;
    }
    Ok(())
}

#[tactic(auto, unfolding(crate::specs::Spelling::spell_inner))]
fn put_inner<'a>(
    out: &mut Vec<u8>,
    pool: &Pool<'a>,
    row: &'a InnerModel,
) -> Result<(), WantOfMemory>
    ensures { OnOk result (out.new.items ≡ out.old.items ++ spell_inner (knowns pool.now.keys) row.now) }
{
    put_class(out, pool, &row.inner)?;
    put_class_or_none(out, pool, &row.outer)?;
    put_name_or_none(out, pool, &row.name)?;
    put_u16(out, row.flags)?;
    Ok(())
}

#[tactic(auto, unfolding(crate::specs::Spelling::counted))]
fn put_rows<'a>(
    out: &mut Vec<u8>,
    pool: &Pool<'a>,
    rows: &'a [InnerModel],
) -> Result<(), WantOfMemory>
    ensures { OnOk result (out.new.items ≡ out.old.items ++ counted (spell_inner (knowns pool.now.keys)) rows.now) }
{
    put_count(out, rows.len())?;
    for row in rows {
        put_inner(out, pool, row)?;
    }
    Ok(())
}

fn put_inners<'a>(
    alloc: Global,
    out: &mut Vec<u8>,
    pool: &Pool<'a>,
    rows: &'a [InnerModel],
) -> Result<(), WantOfMemory>
    ensures { OnOk result (out.new.items ≡ out.old.items ++ spell_inners (knowns pool.now.keys) rows.now) }
{
    match rows {
        [] => put_u16(out, 0),
        [_, ..] => {
            let mut content = Vec::new(alloc);
            put_rows(&mut content, pool, rows)?;
            put_u16(out, 1)?;
            put_attribute(out, pool, &INNER_CLASSES, &content)?;
            Ok(())
        }
    }
}

#[tactic(auto, unfolding(crate::specs::Spelling::spell_interface))]
fn put_interface<'a>(
    out: &mut Vec<u8>,
    pool: &Pool<'a>,
    name: &'a Items<u16>,
) -> Result<(), WantOfMemory>
    ensures { OnOk result (out.new.items ≡ out.old.items ++ spell_interface (knowns pool.now.keys) name.now) }
{
    put_class(out, pool, name)?;
    Ok(())
}

#[tactic(auto, unfolding(crate::specs::Spelling::counted))]
fn put_interfaces<'a>(
    out: &mut Vec<u8>,
    pool: &Pool<'a>,
    names: &'a [Items<u16>],
) -> Result<(), WantOfMemory>
    ensures { OnOk result (out.new.items ≡ out.old.items ++ counted (spell_interface (knowns pool.now.keys)) names.now) }
{
    put_count(out, names.len())?;
    for name in names {
        put_interface(out, pool, name)?;
    }
    Ok(())
}

/// The class behind its pool.
#[tactic(auto, unfolding(crate::specs::Spelling::spell_members))]
pub fn put_members<'a>(
    alloc: Global,
    out: &mut Vec<u8>,
    pool: &Pool<'a>,
    class: &'a ClassModel,
) -> Result<(), WantOfMemory>
    ensures { OnOk result (out.new.items ≡ out.old.items ++ spell_members (knowns pool.now.keys) class.now) }
{
    put_u16(out, class.flags)?;
    put_class(out, pool, &class.name)?;
    put_class_or_none(out, pool, &class.superclass)?;
    put_interfaces(out, pool, class.interfaces.slice())?;
    put_fields(out, pool, class.fields.slice())?;
    put_methods(alloc, out, pool, &class.name, class.methods.slice())?;
    put_inners(alloc, out, pool, class.inner.slice())?;
    Ok(())
}
