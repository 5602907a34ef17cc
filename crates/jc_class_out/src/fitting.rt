//! Whether what a class says has room in the fields of a file.
ghost use Rattle.std.specs.Prelude.{◌≡◌, ◌≤◌, ◌+◌, ◌*◌, ◌<◌, ◌^◌, ◌&&◌, true, false, nat_lt, MatchOption, None, Some, length, take, replicate, ◌++◌, ◌∷◌, ◌-◌};
ghost use Rattle.std.specs.List.{list_all};
ghost use Rattle.jc_class_out.specs.Instructions.{target, is_above, operand_size, wide_size, ins_size};
ghost use Rattle.jc_class_out.specs.Frames.{begins};
ghost use Rattle.jc_class_out.specs.Code.{marks_of, size_from, ends};
ghost use Rattle.jc_class_out.specs.Format.{is_bodiless};
ghost use Rattle.jc_class_out.specs.Forms.{start_locals, place_before, locals_before};
ghost use Rattle.jc_class_out.specs.Fitting.{IsSize, ItemsTake, FormTakes, FrameTakes, is_u8, is_u16, is_signed, is_nothing, is_number, is_array_number, is_array, is_local_below, is_step_below, is_loaded, is_load_of, is_load_long, is_member, is_interface_member, is_class_operand, is_dims, is_jump_from, cases_ascend, is_switch, operand_fits, wide_fits, ins_fits, all_fit, case_lands, operand_lands, ins_lands, handler_fits, item_fits, is_behind, items_fit, form_fits, frame_fits, frames_fit, item_length, items_length, form_length, frame_length, frames_within, ins_all_fit, tables_fit, code_fits, code_or_none_fits, method_fits, field_fits, inner_fits, counts_fit, members_fit};

use crate::descriptors::{field_descriptor, method_descriptor, units_of_parameters};
use crate::forms::{
    Before, Form, Start, delta, head_bytes, locals_in, place, shortest, stack_in, start_of,
};
use crate::kinds::{array_code, kind};
use crate::writing::{gap, way};
use crate::{
    ClassModel, CodeModel, FieldModel, Frame, Handler, InnerModel, Ins, Item, Kind, Loaded,
    MethodModel, Operand, SwitchCase,
};
use jc_rules::Items;

/// Code has fewer bytes than this (JVMS 4.7.3).
const CODE_LIMIT: usize = 65536;

/// Whether the number has room in two bytes, as each `u16` has.
fn two_bytes(n: u16) -> bool
    ensures { result ≡ is_u16 n }
{
    u32::from(n) < 65536
}

fn one_byte(n: u8) -> bool
    ensures { result ≡ is_u8 n }
{
    u32::from(n) < 256
}

/// Whether a number has room in a field of which `half` is half the range.
pub fn signed(n: i32, half: u32) -> bool
    ensures { result ≡ is_signed half n }
{
    if n < 0 {
        n.unsigned_abs() <= half
    } else {
        n.unsigned_abs() < half
    }
}

fn nothing(operand: &Operand) -> bool
    ensures { result ≡ is_nothing operand.now }
{
    matches!(operand, Operand::Nothing)
}

fn number(operand: &Operand, half: u32) -> bool
    ensures { result ≡ is_number half operand.now }
{
    match operand {
        Operand::Number(n) => signed(*n, half),
        _ => false,
    }
}

fn array_number(n: i32) -> bool
    ensures { result ≡ is_array_number n }
{
    match u8::try_from(n) {
        Ok(code) => array_code(code),
        Err(_) => false,
    }
}

fn array(operand: &Operand) -> bool
    ensures { result ≡ is_array operand.now }
{
    match operand {
        Operand::Number(n) => array_number(*n),
        _ => false,
    }
}

fn local_below(operand: &Operand, limit: u32) -> bool
    ensures { result ≡ is_local_below limit operand.now }
{
    match operand {
        Operand::Local(n) => u32::from(*n) < limit,
        _ => false,
    }
}

fn step_below(operand: &Operand, limit: u32, half: u32) -> bool
    ensures { result ≡ is_step_below limit half operand.now }
{
    match operand {
        Operand::Step { local, by } => u32::from(*local) < limit && signed(i32::from(*by), half),
        _ => false,
    }
}

fn loaded_one_place(loaded: &Loaded) -> bool
    ensures { result ≡ is_loaded loaded.now }
{
    !matches!(loaded, Loaded::Long(_))
}

fn load(operand: &Operand) -> bool
    ensures { result ≡ is_load_of operand.now }
{
    match operand {
        Operand::Load(loaded) => loaded_one_place(loaded),
        _ => false,
    }
}

fn load_long(operand: &Operand) -> bool
    ensures { result ≡ is_load_long operand.now }
{
    match operand {
        Operand::Load(loaded) => !loaded_one_place(loaded),
        _ => false,
    }
}

fn member(operand: &Operand) -> bool
    ensures { result ≡ is_member operand.now }
{
    matches!(operand, Operand::Member { .. })
}

fn interface_member(operand: &Operand) -> bool
    ensures { result ≡ is_interface_member operand.now }
{
    match operand {
        Operand::Member { descriptor, .. } => {
            units_of_parameters(descriptor.slice()).unwrap_or(0) < 255
        }
        _ => false,
    }
}

fn class_operand(operand: &Operand) -> bool
    ensures { result ≡ is_class_operand operand.now }
{
    matches!(operand, Operand::Class(_))
}

fn dims(operand: &Operand) -> bool
    ensures { result ≡ is_dims operand.now }
{
    match operand {
        Operand::Dims { dims, .. } => 0 < *dims && one_byte(*dims),
        _ => false,
    }
}

/// Where a jump goes whose number is `by`.
pub fn jump_target(at: u32, by: u16) -> u32
    ensures { result ≡ target at by }
{
    if by < 32768 {
        at.wrapping_add(u32::from(by))
    } else {
        at.wrapping_add(u32::from(by) + 0xffff_0000)
    }
}

fn jump_from(operand: &Operand, at: u32) -> bool
    ensures { result ≡ is_jump_from at operand.now }
{
    match operand {
        Operand::Jump(to) => jump_target(at, (way(at, *to) % 65536) as u16) == *to,
        _ => false,
    }
}

/// Whether the key is above the one before it.
pub fn above(before: Option<i32>, key: i32) -> bool
    ensures { result ≡ is_above before key }
{
    match before {
        None => true,
        Some(before) => before < key,
    }
}

#[tactic(auto, unfolding(crate::specs::Fitting::cases_ascend))]
fn ascending(cases: &[SwitchCase]) -> bool
    ensures { result ≡ cases_ascend None cases.now }
{
    let mut before = None;
    for case in cases {
        if !signed(case.key, 0x8000_0000) || !above(before, case.key) {
            return false;
        }
        before = Some(case.key);
    }
    true
}

fn switch(operand: &Operand) -> bool
    ensures { result ≡ is_switch operand.now }
{
    match operand {
        Operand::Switch { cases, .. } => {
            cases.slice().len() < 0x8000_0000 && ascending(cases.slice())
        }
        _ => false,
    }
}

/// Whether the operand goes with the opcode, at that place of the code.
#[tactic(auto, unfolding(crate::specs::Fitting::operand_fits))]
fn operand_with(at: u32, kind: Kind, operand: &Operand) -> bool
    ensures { result ≡ operand_fits at kind operand.now }
{
    match kind {
        Kind::Plain => nothing(operand),
        Kind::Byte => number(operand, 0x80),
        Kind::Short => number(operand, 0x8000),
        Kind::ArrayOf => array(operand),
        Kind::Load => load(operand),
        Kind::LoadWide => load(operand),
        Kind::LoadLong => load_long(operand),
        Kind::Local => local_below(operand, 256),
        Kind::Step => step_below(operand, 256, 0x80),
        Kind::Jump => jump_from(operand, at),
        Kind::Switch => switch(operand),
        Kind::Field => member(operand),
        Kind::Method => member(operand),
        Kind::Interface => interface_member(operand),
        Kind::Class => class_operand(operand),
        Kind::Dims => dims(operand),
        Kind::Unknown => false,
    }
}

#[tactic(auto, unfolding(crate::specs::Fitting::wide_fits))]
fn wide_operand_with(kind: Kind, operand: &Operand) -> bool
    ensures { result ≡ wide_fits kind operand.now }
{
    match kind {
        Kind::Local => local_below(operand, 65536),
        Kind::Step => step_below(operand, 65536, 0x8000),
        _ => false,
    }
}

#[tactic(auto, unfolding(crate::specs::Fitting::ins_fits))]
fn instruction(at: u32, ins: &Ins) -> bool
    ensures { result ≡ ins_fits at ins.now }
{
    if ins.wide {
        one_byte(ins.code) && wide_operand_with(kind(ins.code), &ins.operand)
    } else {
        one_byte(ins.code) && ins.code != 0xc4 && operand_with(at, kind(ins.code), &ins.operand)
    }
}

/// How many bytes the operand of a switch takes.
#[tactic(auto, unfolding(crate::specs::Instructions::operand_size))]
fn switch_bytes(at: u32, operand: &Operand) -> u64
    requires { is_switch operand.now ≡ true }
    ensures value { result ≡ operand_size at Kind.Switch operand.now }
    ensures small { result < 2 ^ 40 }
{
    match operand {
        Operand::Switch { cases, .. } => u64::from(gap(at)) + 8 + 8 * (cases.slice().len() as u64),
        _ => 0,
    }
}

#[tactic(auto, unfolding(crate::specs::Instructions::operand_size, crate::specs::Fitting::operand_fits))]
fn operand_bytes(at: u32, kind: Kind, operand: &Operand) -> u64
    requires { operand_fits at kind operand.now ≡ true }
    ensures value { result ≡ operand_size at kind operand.now }
    ensures small { result < 2 ^ 40 }
{
    match kind {
        Kind::Plain => 0,
        Kind::Byte => 1,
        Kind::Short => 2,
        Kind::ArrayOf => 1,
        Kind::Load => 1,
        Kind::LoadWide => 2,
        Kind::LoadLong => 2,
        Kind::Local => 1,
        Kind::Step => 2,
        Kind::Jump => 2,
        Kind::Switch => switch_bytes(at, operand),
        Kind::Field => 2,
        Kind::Method => 2,
        Kind::Interface => 4,
        Kind::Class => 2,
        Kind::Dims => 3,
        Kind::Unknown => 0,
    }
}

fn wide_bytes(operand: &Operand) -> u64
    ensures value { result ≡ wide_size operand.now }
    ensures small { result ≤ 4 }
{
    match operand {
        Operand::Step { .. } => 4,
        _ => 2,
    }
}

/// How many bytes an instruction takes at that place.
#[tactic(auto, unfolding(crate::specs::Fitting::ins_fits))]
fn bytes_of(at: u32, ins: &Ins) -> u64
    requires { ins_fits at ins.now ≡ true }
    ensures value { result ≡ ins_size at ins.now }
    ensures some { 1 ≤ result }
    ensures small { result < 2 ^ 41 }
{
    if ins.wide {
        2 + wide_bytes(&ins.operand)
    } else {
        1 + operand_bytes(at, kind(ins.code), &ins.operand)
    }
}

/// The size of code in which each instruction fits, where it is below 65,536.
#[tactic(auto, unfolding(crate::specs::Fitting::all_fit, crate::specs::Code::size_from))]
fn measured(list: &[Ins]) -> Option<u32>
    ensures { MatchOption result ((all_fit 0 list.now && nat_lt (size_from 0 list.now) 65536) ≡ false) (λ n. IsSize list.now n) }
{
    let mut at: u32 = 0;
    for ins in list {
        if !instruction(at, ins) {
            return None;
        }
        let size = bytes_of(at, ins);
        if u64::from(at) + size > 65535 {
            return None;
        }
        at += size as u32;
    }
    Some(at)
}

/// Marks the bytes of an instruction: it begins at the first of them.
fn mark_one(marks: &mut [bool], at: usize, size: usize)
    requires some { 0 < size }
    requires within { at + size ≤ length marks.old }
    ensures { take (at + size) marks.new ≡ take at marks.old ++ (true ∷ replicate (size - 1) false) }
{
    marks[at] = true;
    for place in at + 1..at + size {
        marks[place] = false;
    }
}

/// Marks the bytes at which instructions begin, so that a place is looked up at once.
#[tactic(auto, unfolding(crate::specs::Fitting::all_fit, crate::specs::Code::size_from))]
fn mark(marks: &mut [bool], size: u32, list: &[Ins])
    requires size { IsSize list.now size }
    requires room { CODE_LIMIT ≤ length marks.old }
    ensures { take size marks.new ≡ marks_of list.now }
{
    let mut at: u32 = 0;
    for ins in list {
        let size = bytes_of(at, ins);
        mark_one(marks, at as usize, size as usize);
        at += size as u32;
    }
}

/// Whether an instruction begins there.
fn begins_at(marks: &[bool], to: u32) -> bool
    ensures { result ≡ begins marks.now to }
{
    let to = to as usize;
    to < marks.len() && marks[to]
}

fn cases_begin(marks: &[bool], cases: &[SwitchCase]) -> bool
    ensures { result ≡ list_all (case_lands marks.now) cases.now }
{
    for case in cases {
        if !begins_at(marks, case.at) {
            return false;
        }
    }
    true
}

/// Whether the operand names places at which instructions begin.
fn goes_to(marks: &[bool], operand: &Operand) -> bool
    ensures { result ≡ operand_lands marks.now operand.now }
{
    match operand {
        Operand::Jump(to) => begins_at(marks, *to),
        Operand::Switch { otherwise, cases } => {
            begins_at(marks, *otherwise) && cases_begin(marks, cases.slice())
        }
        _ => true,
    }
}

fn all_go(marks: &[bool], list: &[Ins]) -> bool
    ensures { result ≡ list_all (ins_lands marks.now) list.now }
{
    for ins in list {
        if !goes_to(marks, &ins.operand) {
            return false;
        }
    }
    true
}

/// Whether an instruction begins there, or the code ends.
fn ends_at(marks: &[bool], to: u32) -> bool
    ensures { result ≡ ends marks.now to }
{
    begins_at(marks, to) || to as usize == marks.len()
}

#[tactic(auto, unfolding(crate::specs::Fitting::handler_fits))]
fn handler(marks: &[bool], row: &Handler) -> bool
    ensures { result ≡ handler_fits marks.now row.now }
{
    begins_at(marks, row.from)
        && ends_at(marks, row.to)
        && row.from < row.to
        && begins_at(marks, row.at)
}

fn handlers(marks: &[bool], rows: &[Handler]) -> bool
    ensures { result ≡ list_all (handler_fits marks.now) rows.now }
{
    for row in rows {
        if !handler(marks, row) {
            return false;
        }
    }
    true
}

fn item(marks: &[bool], item: &Item) -> bool
    ensures { result ≡ item_fits marks.now item.now }
{
    match item {
        Item::Uninitialized(at) => begins_at(marks, *at),
        _ => true,
    }
}

fn each_item(marks: &[bool], items: &[Item]) -> bool
    ensures { result ≡ list_all (item_fits marks.now) items.now }
{
    for one in items {
        if !item(marks, one) {
            return false;
        }
    }
    true
}

fn behind(before: Option<u32>, at: u32) -> bool
    ensures { result ≡ is_behind before at }
{
    match before {
        None => true,
        Some(before) => before < at,
    }
}

fn item_bytes(item: &Item) -> u64
    ensures value { result ≡ item_length item.now }
    ensures few { result ≤ 3 }
{
    match item {
        Item::Object(_) => 3,
        Item::Uninitialized(_) => 3,
        _ => 1,
    }
}

#[tactic(auto, unfolding(crate::specs::Fitting::items_length))]
fn items_bytes(items: &[Item]) -> u64
    requires { length items.now < 65536 }
    ensures value { result ≡ items_length items.now }
    ensures few { result ≤ 3 * 65536 }
{
    let mut total = 0;
    for item in items {
        total += item_bytes(item);
    }
    total
}

/// How many bytes the items take, where they fit.
#[tactic(auto, unfolding(crate::specs::Fitting::items_fit))]
fn items(marks: &[bool], items: &[Item]) -> Option<u64>
    ensures { MatchOption result (items_fit marks.now items.now ≡ false) (λ n. ItemsTake marks.now items.now n) }
{
    if items.len() < 65536 && each_item(marks, items) {
        Some(items_bytes(items))
    } else {
        None
    }
}

/// How many bytes the frame takes in that form, where its items fit.
#[tactic(auto, unfolding(crate::specs::Fitting::form_fits, crate::specs::Fitting::form_length))]
fn form_bytes(marks: &[bool], by: u32, frame: &Frame, form: Form) -> Option<u64>
    ensures { MatchOption result (form_fits marks.now frame.now form ≡ false) (λ n. FormTakes marks.now by frame.now form n) }
{
    let locals = items(marks, locals_in(frame, form))?;
    let stack = items(marks, stack_in(frame, form))?;
    Some(head_bytes(by, form) + (locals + stack))
}

/// How many bytes the frame takes, where it fits.
#[tactic(auto, unfolding(crate::specs::Fitting::frame_fits, crate::specs::Fitting::frame_length))]
fn frame(marks: &[bool], before: Before<'_>, frame: &Frame) -> Option<u64>
    ensures { MatchOption result (frame_fits marks.now (place_before before.entry) (locals_before before.entry) frame.now ≡ false) (λ n. FrameTakes marks.now (place_before before.entry) (locals_before before.entry) frame.now n) }
{
    let at = place(before);
    if !begins_at(marks, frame.at) || !behind(at, frame.at) {
        return None;
    }
    form_bytes(marks, delta(at, frame.at), frame, shortest(before, frame))
}

/// Whether the frames fit, and take at most so many bytes.
#[tactic(auto, unfolding(crate::specs::Fitting::frames_fit, crate::specs::Fitting::frames_within))]
fn frames(marks: &[bool], room: u64, start: Start<'_>, table: &[Frame]) -> bool
    ensures { result ≡ (frames_fit marks.now None (start_locals start.entry) table.now && frames_within room None (start_locals start.entry) table.now) }
{
    let mut left = room;
    let mut before = Before::Entry(start);
    for one in table {
        match frame(marks, before, one) {
            None => return false,
            Some(bytes) => {
                if bytes > left {
                    return false;
                }
                left -= bytes;
            }
        }
        before = Before::Behind(one);
    }
    true
}

/// Whether the exception table and the frames fit in a Code attribute.
#[tactic(auto, unfolding(crate::specs::Fitting::tables_fit))]
fn tables(marks: &[bool], size: u32, start: Start<'_>, code: &CodeModel) -> bool
    requires { IsSize code.now.ins size }
    ensures { result ≡ tables_fit marks.now (start_locals start.entry) code.now }
{
    let rows = code.handlers.slice();
    if rows.len() >= 65536 || code.frames.slice().len() >= 65536 {
        return false;
    }
    let room = 0xffff_ffff - (20 + u64::from(size) + 8 * (rows.len() as u64));
    handlers(marks, rows) && frames(marks, room, start, code.frames.slice())
}

/// Whether code of that size, of which the marks are these, goes where instructions begin, and its tables fit.
fn marked(marks: &[bool], size: u32, start: Start<'_>, code: &CodeModel) -> bool
    requires { IsSize code.now.ins size }
    ensures { result ≡ (nat_lt 0 size && (list_all (ins_lands marks.now) code.now.ins && tables_fit marks.now (start_locals start.entry) code.now)) }
{
    0 < size && all_go(marks, code.ins.slice()) && tables(marks, size, start, code)
}

/// `marks` is room for those of the code.
#[tactic(auto, unfolding(crate::specs::Fitting::code_fits, crate::specs::Fitting::ins_all_fit))]
fn code(marks: &mut [bool], start: Start<'_>, code: &CodeModel) -> bool
    requires { CODE_LIMIT ≤ length marks.old }
    ensures { result ≡ code_fits (start_locals start.entry) code.now }
{
    if !two_bytes(code.stack) || !two_bytes(code.locals) {
        return false;
    }
    match measured(code.ins.slice()) {
        None => false,
        Some(size) => {
            mark(marks, size, code.ins.slice());
            marked(&marks[..size as usize], size, start, code)
        }
    }
}

fn code_or_none(
    marks: &mut [bool],
    bodiless: bool,
    start: Start<'_>,
    code_or_none: &Option<CodeModel>,
) -> bool
    requires { CODE_LIMIT ≤ length marks.old }
    ensures { result ≡ code_or_none_fits bodiless (start_locals start.entry) code_or_none.now }
{
    match code_or_none {
        None => bodiless,
        Some(model) => !bodiless && code(marks, start, model),
    }
}

/// Whether the flags say abstract or native (JVMS 4.6).
pub fn without_body(flags: u16) -> bool
    ensures { result ≡ is_bodiless flags }
{
    flags / 0x100 % 2 == 1 || flags / 0x400 % 2 == 1
}

#[tactic(auto, unfolding(crate::specs::Fitting::method_fits))]
fn method(marks: &mut [bool], class: &Items<u16>, method: &MethodModel) -> bool
    requires { CODE_LIMIT ≤ length marks.old }
    ensures { result ≡ method_fits class.now method.now }
{
    two_bytes(method.flags)
        && method_descriptor(method.descriptor.slice())
        && code_or_none(
            marks,
            without_body(method.flags),
            start_of(class, method),
            &method.code,
        )
}

fn methods(marks: &mut [bool], class: &Items<u16>, list: &[MethodModel]) -> bool
    requires { CODE_LIMIT ≤ length marks.old }
    ensures { result ≡ list_all (method_fits class.now) list.now }
{
    for one in list {
        if !method(marks, class, one) {
            return false;
        }
    }
    true
}

#[tactic(auto, unfolding(crate::specs::Fitting::field_fits))]
fn field(field: &FieldModel) -> bool
    ensures { result ≡ field_fits field.now }
{
    two_bytes(field.flags) && field_descriptor(field.descriptor.slice())
}

fn fields(list: &[FieldModel]) -> bool
    ensures { result ≡ list_all field_fits list.now }
{
    for one in list {
        if !field(one) {
            return false;
        }
    }
    true
}

fn rows(list: &[InnerModel]) -> bool
    ensures { result ≡ list_all inner_fits list.now }
{
    for one in list {
        if !two_bytes(one.flags) {
            return false;
        }
    }
    true
}

#[tactic(auto, unfolding(crate::specs::Fitting::counts_fit))]
fn counts(class: &ClassModel) -> bool
    ensures { result ≡ counts_fit class.now }
{
    class.interfaces.slice().len() < 65536
        && class.fields.slice().len() < 65536
        && class.methods.slice().len() < 65536
        && class.inner.slice().len() < 65536
}

#[tactic(auto, unfolding(crate::specs::Fitting::members_fit))]
fn each_member(marks: &mut [bool], class: &ClassModel) -> bool
    requires { CODE_LIMIT ≤ length marks.old }
    ensures { result ≡ members_fit class.now }
{
    two_bytes(class.flags)
        && counts(class)
        && fields(class.fields.slice())
        && methods(marks, &class.name, class.methods.slice())
        && rows(class.inner.slice())
}

/// Whether the class fits, its pool left out.
pub fn members(class: &ClassModel) -> bool
    ensures { result ≡ members_fit class.now }
{
    let mut marks = [false; CODE_LIMIT];
    each_member(&mut marks, class)
}
