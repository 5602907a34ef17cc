//! What an instruction means.
ghost use Rattle.std.specs.Prelude.{◌≡◌, IfOk};
ghost use Rattle.jc_jvm.specs.Classes.{method_at};
ghost use Rattle.jc_jvm.specs.Table.{group_of as group_by_code, plain_of as plain_by_operand};
ghost use Rattle.jc_rows.specs.Decoded.{return_row, row_without_operand, row_of_constant, row_of_number, row_of_switch, row_by_operand, row_by_plain, row_of};

use crate::Row;
use crate::members::{make_array, read_class, read_dims, read_member};
use jc_calls::method_of;
use jc_class_out::{Ins, Loaded, Operand, SwitchCase};
use jc_heap::NamedClasses;
use jc_jvm::{Group, Shape, Sort};
use jc_lookups::{result_sort_of, shape_by_code};
use jc_opcodes::{Opcode, by_number};
use jc_plain::{group_of, plain_of};
use jc_rules::{Items, WantOfMemory};
use std::alloc::Global;

fn give_back(classes: &NamedClasses, class: u64, method: u64, wanted: Option<Sort>) -> Row
    ensures { result ≡ return_row wanted (method_at classes.now (class, method)) }
{
    match method_of(classes.models(), class, method) {
        Some(model) => Row::Return {
            wanted,
            given: result_sort_of(model.descriptor.slice()),
        },
        None => Row::Nothing,
    }
}

fn without_operand(classes: &NamedClasses, class: u64, method: u64, group: Group) -> Row
    ensures { result ≡ row_without_operand classes.now (class, method) group }
{
    match group {
        Group::ElementLoads(element) => Row::LoadElement(element),
        Group::ElementStores(element) => Row::StoreElement(element),
        Group::Returns(wanted) => give_back(classes, class, method, wanted),
        Group::Throws => Row::Throw,
        Group::Lengths => Row::Length,
        _ => Row::Nothing,
    }
}

fn of_constant(group: Group, constant: &Loaded) -> Result<Row, WantOfMemory>
    ensures { IfOk result (λ row. row ≡ row_of_constant group constant.now) }
{
    match (group, constant) {
        (Group::Literals, Loaded::Text(text)) => Ok(Row::Literal(text.clone()?)),
        _ => Ok(Row::Nothing),
    }
}

fn of_number(group: Group, of: Option<Shape>) -> Row
    ensures { result ≡ row_of_number group of }
{
    match group {
        Group::NewArrays => make_array(of),
        _ => Row::Nothing,
    }
}

fn of_switch(group: Group, otherwise: u32, cases: &Items<SwitchCase>) -> Result<Row, WantOfMemory>
    ensures { IfOk result (λ row. row ≡ row_of_switch group (Row.Switch otherwise cases.now)) }
{
    match group {
        Group::Switches => Ok(Row::Switch {
            otherwise,
            cases: cases.clone()?,
        }),
        _ => Ok(Row::Nothing),
    }
}

fn by_operand(
    alloc: Global,
    classes: &NamedClasses,
    class: u64,
    method: u64,
    group: Group,
    operand: &Operand,
) -> Result<Row, WantOfMemory>
    ensures { IfOk result (λ row. row ≡ row_by_operand classes.now (class, method) group operand.now) }
{
    match operand {
        Operand::Nothing => Ok(without_operand(classes, class, method, group)),
        Operand::Load(constant) => of_constant(group, constant),
        Operand::Number(n) => Ok(of_number(group, shape_by_code(*n))),
        Operand::Switch { otherwise, cases } => of_switch(group, *otherwise, cases),
        Operand::Member {
            class: of,
            name,
            descriptor,
        } => read_member(alloc, classes, class, of, name, descriptor, group),
        Operand::Class(name) => Ok(read_class(classes, name.slice(), group)),
        Operand::Dims { class: name, dims } => Ok(read_dims(classes, name.slice(), *dims, group)),
        Operand::Local(_) | Operand::Step { .. } | Operand::Jump(_) => Ok(Row::Nothing),
    }
}

fn by_code(
    alloc: Global,
    classes: &NamedClasses,
    class: u64,
    method: u64,
    code: Opcode,
    operand: &Operand,
) -> Result<Row, WantOfMemory>
    ensures { IfOk result (λ row. row ≡ row_by_plain (row_by_operand classes.now (class, method) (group_by_code code) operand.now) (plain_by_operand (group_by_code code) operand.now)) }
{
    let group = group_of(code);
    match plain_of(group, operand) {
        Some(plain) => Ok(Row::Alone(plain)),
        None => by_operand(alloc, classes, class, method, group, operand),
    }
}

/// What an instruction of the method of that number in the class of that number does.
pub fn read_row(
    alloc: Global,
    classes: &NamedClasses,
    class: u64,
    method: u64,
    ins: &Ins,
) -> Result<Row, WantOfMemory>
    ensures { IfOk result (λ row. row ≡ row_of classes.now (class, method) ins.now) }
{
    match by_number(ins.code) {
        Some(code) => by_code(alloc, classes, class, method, code, &ins.operand),
        None => Ok(Row::Nothing),
    }
}
