//! Rows of instructions that name a member, a class or an array type.
ghost use Rattle.std.specs.Prelude.{◌≡◌, IfOk, true};
ghost use Rattle.jc_heap.specs.Signatures.{signature_of};
ghost use Rattle.jc_jvm.specs.Calls.{sorts_of_call};
ghost use Rattle.jc_jvm.specs.Classes.{class_has_flag as has_class_flag};
ghost use Rattle.jc_rows.specs.Decoded.{static_load_row, static_store_row, field_load_row, field_store_row, static_call_row, new_row, array_row, nest_row, row_of_member, row_of_class, row_of_dims};

use crate::Row;
use jc_calls::{find_special_method, find_static_method};
use jc_heap::{NamedClasses, class_named, field_sort, find_signature, has_flag};
use jc_jvm::{Group, Shape, Sort};
use jc_lookups::{
    find_slot, find_static_field, shape_by_name, sorts_of_object_call, sorts_of_static_call,
};
use jc_rules::{Items, WantOfMemory};
use std::alloc::Global;

fn load_static(sort: Sort, place: Option<(u64, u64)>) -> Row
    ensures { result ≡ static_load_row sort place }
{
    match place {
        Some((class, field)) => Row::LoadStatic { sort, class, field },
        None => Row::Nothing,
    }
}

fn store_static(sort: Sort, place: Option<(u64, u64)>) -> Row
    ensures { result ≡ static_store_row sort place }
{
    match place {
        Some((class, field)) => Row::StoreStatic { sort, class, field },
        None => Row::Nothing,
    }
}

fn load_field(sort: Sort, slot: Option<usize>) -> Row
    ensures { result ≡ field_load_row sort slot }
{
    match slot {
        Some(slot) => Row::LoadField { sort, slot },
        None => Row::Nothing,
    }
}

fn store_field(sort: Sort, slot: Option<usize>) -> Row
    ensures { result ≡ field_store_row sort slot }
{
    match slot {
        Some(slot) => Row::StoreField { sort, slot },
        None => Row::Nothing,
    }
}

fn call_static(sorts: Items<Sort>, place: Option<(u64, u64)>) -> Row
    ensures { result ≡ static_call_row sorts place }
{
    match place {
        Some((class, method)) => Row::CallStatic {
            class,
            method,
            sorts,
        },
        None => Row::Nothing,
    }
}

fn call_virtual(
    alloc: Global,
    classes: &NamedClasses,
    name: &[u16],
    descriptor: &[u16],
) -> Result<Row, WantOfMemory>
    ensures { IfOk result (λ row. row ≡ Row.CallVirtual (signature_of classes.now name.now descriptor.now) (sorts_of_call true descriptor.now)) }
{
    let signature = find_signature(alloc, classes, name, descriptor)?;
    let sorts = sorts_of_object_call(alloc, descriptor)?;
    Ok(Row::CallVirtual { signature, sorts })
}

/// The row of an instruction that names a field or a method, in the class of number `current`.
pub fn read_member(
    alloc: Global,
    classes: &NamedClasses,
    current: u64,
    class: &Items<u16>,
    name: &Items<u16>,
    descriptor: &Items<u16>,
    group: Group,
) -> Result<Row, WantOfMemory>
    ensures { IfOk result (λ row. row ≡ row_of_member classes.now current class.now name.now descriptor.now group) }
{
    let of = class.slice();
    let named = name.slice();
    let typed = descriptor.slice();
    match group {
        Group::StaticLoads => Ok(load_static(
            field_sort(typed),
            find_static_field(alloc, classes, of, named, typed)?,
        )),
        Group::StaticStores => Ok(store_static(
            field_sort(typed),
            find_static_field(alloc, classes, of, named, typed)?,
        )),
        Group::FieldLoads => {
            let slot = find_slot(alloc, classes, of, named, typed)?;
            Ok(load_field(field_sort(typed), slot))
        }
        Group::FieldStores => {
            let slot = find_slot(alloc, classes, of, named, typed)?;
            Ok(store_field(field_sort(typed), slot))
        }
        Group::VirtualCalls => call_virtual(alloc, classes, named, typed),
        Group::SpecialCalls => {
            let sorts = sorts_of_object_call(alloc, typed)?;
            let target = find_special_method(classes, current, of, named, typed);
            Ok(Row::CallSpecial { target, sorts })
        }
        Group::StaticCalls => {
            let sorts = sorts_of_static_call(alloc, typed)?;
            Ok(call_static(sorts, find_static_method(classes, of, named, typed)))
        }
        _ => Ok(Row::Nothing),
    }
}

fn class_has_flag(classes: &NamedClasses, flag: u16, class: u64) -> bool
    ensures { result ≡ has_class_flag classes.now flag class }
{
    match classes.get(class as usize) {
        Some(model) => has_flag(flag, model.flags),
        None => false,
    }
}

// 1,536 are the flags of interfaces and of abstract classes.
fn make(classes: &NamedClasses, class: Option<u64>) -> Row
    ensures { result ≡ new_row classes.now class }
{
    match class {
        Some(class) => {
            if class_has_flag(classes, 1536, class) {
                Row::Nothing
            } else {
                Row::New(class)
            }
        }
        None => Row::Nothing,
    }
}

/// The row of an instruction that makes an array of elements of a type.
pub fn make_array(of: Option<Shape>) -> Row
    ensures { result ≡ array_row of }
{
    match of {
        Some(of) => Row::NewArray(of),
        None => Row::Nothing,
    }
}

/// The row of an instruction that names a class or an array type.
pub fn read_class(classes: &NamedClasses, name: &[u16], group: Group) -> Row
    ensures { result ≡ row_of_class classes.now name.now group }
{
    match group {
        Group::News => make(classes, class_named(classes, name)),
        Group::NewReferenceArrays => make_array(shape_by_name(classes, name)),
        Group::Casts => Row::Cast(shape_by_name(classes, name)),
        Group::Tests => Row::Test(shape_by_name(classes, name)),
        _ => Row::Nothing,
    }
}

fn make_nest(dims: u8, shape: Option<Shape>) -> Row
    ensures { result ≡ nest_row dims shape }
{
    match shape {
        Some(shape) => Row::NewNest { shape, dims },
        None => Row::Nothing,
    }
}

/// The row of multianewarray.
pub fn read_dims(classes: &NamedClasses, name: &[u16], dims: u8, group: Group) -> Row
    ensures { result ≡ row_of_dims classes.now name.now dims group }
{
    match group {
        Group::NewNests => make_nest(dims, shape_by_name(classes, name)),
        _ => Row::Nothing,
    }
}
