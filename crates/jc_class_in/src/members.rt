//! Interfaces, fields and methods (JVMS 4.5, 4.6).
ghost use Rattle.std.specs.Prelude.{◌≡◌};
ghost use Rattle.jc_class_out.specs.Pool.{class_named_at};
ghost use Rattle.jc_class_out.specs.Format.{field_at, code_attribute_at, with_code_at, without_code_at, method_at, inner_at, inners_at, class_attributes_at, members_at};
ghost use Rattle.jc_class_in.specs.Gives.{Gives};
ghost use Rattle.jc_class_in.specs.Bodies.{body_by};

use crate::code::{attribute, check_end, code, no_more};
use crate::descriptors::locals_at_entry;
use crate::many::{Part, counted_row};
use crate::names::{class_name, class_or_none, name, name_or_none, type_of_field, type_of_method};
use crate::numbers::{Read, u2, want};
use jc_class_out::{
    ClassModel, CodeModel, FieldModel, InnerModel, Item, MethodModel, Slot, without_body,
};
use jc_rules::Items;
use std::alloc::Global;

/// An interface of the class.
#[derive(Clone, Copy)]
struct InterfacePart<'p> {
    pool: &'p [Slot],
}

impl Part for InterfacePart<'_> {
    type Value = Items<u16>;

    ghost reads = { λ p bytes. class_named_at p.pool.now bytes };

    fn read<'a>(&self, alloc: Global, bytes: &'a [u8]) -> Read<'a, Items<u16>> {
        class_name(alloc, self.pool, bytes)
    }
}

/// A field (JVMS 4.5).
#[tactic(auto, unfolding(jc_class_out::specs::Format::field_at))]
fn field<'a>(alloc: Global, pool: &[Slot], bytes: &'a [u8]) -> Read<'a, FieldModel>
    ensures { Gives (λ x. (x.0, x.1.now)) result (field_at pool.now bytes.now) }
{
    let (flags, rest) = u2(bytes)?;
    let (name, rest) = name(alloc, pool, rest)?;
    let (descriptor, rest) = type_of_field(alloc, pool, rest)?;
    let (count, rest) = u2(rest)?;
    let (_, rest) = no_more(alloc, pool, count, rest)?;
    Ok((
        FieldModel {
            flags,
            name,
            descriptor,
        },
        rest,
    ))
}

#[derive(Clone, Copy)]
struct FieldPart<'p> {
    pool: &'p [Slot],
}

impl Part for FieldPart<'_> {
    type Value = FieldModel;

    ghost reads = { λ p bytes. field_at p.pool.now bytes };

    fn read<'a>(&self, alloc: Global, bytes: &'a [u8]) -> Read<'a, FieldModel> {
        field(alloc, self.pool, bytes)
    }
}

/// The attribute Code.
#[tactic(auto, unfolding(jc_class_out::specs::Format::code_attribute_at))]
fn code_attribute<'a>(
    alloc: Global,
    pool: &[Slot],
    entry: &[Item],
    bytes: &'a [u8],
) -> Read<'a, CodeModel>
    ensures { Gives (λ x. (x.0, x.1.now)) result (code_attribute_at pool.now entry.now bytes.now) }
{
    let (told, start) = attribute(alloc, pool, "Code", bytes)?;
    let (code, rest) = code(alloc, pool, entry, start)?;
    check_end(told, start, rest)?;
    Ok((code, rest))
}

/// The Code of a method that has one, and no more.
#[tactic(auto, unfolding(jc_class_out::specs::Format::with_code_at))]
fn with_code<'a>(
    alloc: Global,
    pool: &[Slot],
    entry: &[Item],
    bytes: &'a [u8],
) -> Read<'a, Option<CodeModel>>
    ensures { Gives (λ x. (x.0, x.1.now)) result (with_code_at pool.now entry.now bytes.now) }
{
    let (count, rest) = u2(bytes)?;
    want(count != 0, bytes.len())?;
    let (code, rest) = code_attribute(alloc, pool, entry, rest)?;
    let (_, rest) = no_more(alloc, pool, count.saturating_sub(1), rest)?;
    Ok((Some(code), rest))
}

#[tactic(auto, unfolding(jc_class_out::specs::Format::without_code_at))]
fn without_code<'a>(alloc: Global, pool: &[Slot], bytes: &'a [u8]) -> Read<'a, Option<CodeModel>>
    ensures { Gives (λ x. (x.0, x.1.now)) result (without_code_at pool.now bytes.now) }
{
    let (count, rest) = u2(bytes)?;
    let (_, rest) = no_more(alloc, pool, count, rest)?;
    Ok((None, rest))
}

/// The Code of a method whose flags want one, and else nothing.
fn body<'a>(
    alloc: Global,
    pool: &[Slot],
    class: &[u16],
    flags: u16,
    name: &[u16],
    descriptor: &[u16],
    bytes: &'a [u8],
) -> Read<'a, Option<CodeModel>>
    ensures { Gives (λ x. (x.0, x.1.now)) result (body_by pool.now class.now flags name.now descriptor.now bytes.now) }
{
    if without_body(flags) {
        without_code(alloc, pool, bytes)
    } else {
        let entry = locals_at_entry(alloc, class, flags, name, descriptor)?;
        with_code(alloc, pool, entry.slice(), bytes)
    }
}

/// A method (JVMS 4.6) of the class of that name.
#[tactic(auto, unfolding(jc_class_out::specs::Format::method_at))]
fn method<'a>(alloc: Global, pool: &[Slot], class: &[u16], bytes: &'a [u8]) -> Read<'a, MethodModel>
    ensures { Gives (λ x. (x.0, x.1.now)) result (method_at pool.now class.now bytes.now) }
{
    let (flags, rest) = u2(bytes)?;
    let (name, rest) = name(alloc, pool, rest)?;
    let (descriptor, rest) = type_of_method(alloc, pool, rest)?;
    let (code, rest) = body(
        alloc,
        pool,
        class,
        flags,
        name.slice(),
        descriptor.slice(),
        rest,
    )?;
    Ok((
        MethodModel {
            flags,
            name,
            descriptor,
            code,
        },
        rest,
    ))
}

#[derive(Clone, Copy)]
struct MethodPart<'p> {
    pool: &'p [Slot],
    class: &'p [u16],
}

impl Part for MethodPart<'_> {
    type Value = MethodModel;

    ghost reads = { λ p bytes. method_at p.pool.now p.class.now bytes };

    fn read<'a>(&self, alloc: Global, bytes: &'a [u8]) -> Read<'a, MethodModel> {
        method(alloc, self.pool, self.class, bytes)
    }
}

/// A row of InnerClasses (JVMS 4.7.6).
#[tactic(auto, unfolding(jc_class_out::specs::Format::inner_at))]
fn inner<'a>(alloc: Global, pool: &[Slot], bytes: &'a [u8]) -> Read<'a, InnerModel>
    ensures { Gives (λ x. (x.0, x.1.now)) result (inner_at pool.now bytes.now) }
{
    let (inner, rest) = class_name(alloc, pool, bytes)?;
    let (outer, rest) = class_or_none(alloc, pool, rest)?;
    let (name, rest) = name_or_none(alloc, pool, rest)?;
    let (flags, rest) = u2(rest)?;
    Ok((
        InnerModel {
            inner,
            outer,
            name,
            flags,
        },
        rest,
    ))
}

#[derive(Clone, Copy)]
struct InnerPart<'p> {
    pool: &'p [Slot],
}

impl Part for InnerPart<'_> {
    type Value = InnerModel;

    ghost reads = { λ p bytes. inner_at p.pool.now bytes };

    fn read<'a>(&self, alloc: Global, bytes: &'a [u8]) -> Read<'a, InnerModel> {
        inner(alloc, self.pool, bytes)
    }
}

/// The attribute InnerClasses.
#[tactic(auto, unfolding(jc_class_out::specs::Format::inners_at))]
fn inner_classes<'a>(alloc: Global, pool: &[Slot], bytes: &'a [u8]) -> Read<'a, Items<InnerModel>>
    ensures { Gives (λ x. (x.0, x.1.now)) result (inners_at pool.now bytes.now) }
{
    let (told, start) = attribute(alloc, pool, "InnerClasses", bytes)?;
    let (rows, rest) = counted_row(alloc, &InnerPart { pool }, start)?;
    check_end(told, start, rest)?;
    Ok((rows, rest))
}

/// None, or the attribute InnerClasses alone.
#[tactic(auto, unfolding(jc_class_out::specs::Format::class_attributes_at))]
fn class_attributes<'a>(
    alloc: Global,
    pool: &[Slot],
    bytes: &'a [u8],
) -> Read<'a, Items<InnerModel>>
    ensures { Gives (λ x. (x.0, x.1.now)) result (class_attributes_at pool.now bytes.now) }
{
    let (count, rest) = u2(bytes)?;
    if count == 0 {
        return Ok((Items::new(alloc), rest));
    }
    let (rows, rest) = inner_classes(alloc, pool, rest)?;
    let (_, rest) = no_more(alloc, pool, count - 1, rest)?;
    Ok((rows, rest))
}

/// What stands behind the pool.
#[tactic(auto, unfolding(jc_class_out::specs::Format::members_at))]
pub fn members<'a>(alloc: Global, pool: &[Slot], bytes: &'a [u8]) -> Read<'a, ClassModel>
    ensures { Gives (λ x. (x.0, x.1.now)) result (members_at pool.now bytes.now) }
{
    let (flags, rest) = u2(bytes)?;
    let (name, rest) = class_name(alloc, pool, rest)?;
    let (superclass, rest) = class_or_none(alloc, pool, rest)?;
    let (interfaces, rest) = counted_row(alloc, &InterfacePart { pool }, rest)?;
    let (fields, rest) = counted_row(alloc, &FieldPart { pool }, rest)?;
    let class = name.slice();
    let (methods, rest) = counted_row(alloc, &MethodPart { pool, class }, rest)?;
    let (inner, rest) = class_attributes(alloc, pool, rest)?;
    Ok((
        ClassModel {
            flags,
            name,
            superclass,
            interfaces,
            fields,
            methods,
            inner,
        },
        rest,
    ))
}
