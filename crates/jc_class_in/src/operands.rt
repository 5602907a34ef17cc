//! What the operands of instructions name in the pool.
ghost use Rattle.std.specs.Prelude.{◌≡◌, ◌+◌, ◌^◌, ◌<◌, ◌==◌};
ghost use Rattle.jc_class_out.specs.declared.format.Flaw.TheVariants.{Index};
ghost use Rattle.jc_class_out.specs.Descriptors.{parameter_units, or_zero};
ghost use Rattle.jc_class_out.specs.Pool.{known_of};
ghost use Rattle.jc_class_out.specs.Instructions.{loaded_by, loaded_long_by, field_by, method_by, interface_by, load_op, load_wide_op, load_long_op, field_op, method_op, interface_op, class_op, dims_op, byte_op, short_op, array_op, local_op, step_op, jump_op};
ghost use Rattle.jc_class_in.specs.Gives.{Gives};

use crate::lookups::constant;
use crate::names::{class_name, copy};
use crate::numbers::{Read, u1, u2, want};
use jc_class_out::{
    Constant, Flaw, Loaded, Operand, Slot, array_code, jump_target, units_of_parameters,
};
use jc_rules::Stop;
use std::alloc::Global;

/// The constant that ldc and ldc_w load.
fn loaded(alloc: Global, pool: &[Slot], index: u16, left: usize) -> Result<Loaded, Stop<Flaw>>
    ensures { Gives (λ x. x) result (loaded_by (known_of pool.now index) (Index left)) }
{
    match constant(pool, index) {
        Some(Constant::Whole(n)) => Ok(Loaded::Whole(n)),
        Some(Constant::Literal(text)) => {
            let text = copy(alloc, text)?;
            Ok(Loaded::Text(text))
        }
        _ => Err(Stop::Refused(Flaw::Index(left))),
    }
}

/// The constant that ldc2_w loads.
fn loaded_long(pool: &[Slot], index: u16, left: usize) -> Result<Loaded, Stop<Flaw>>
    ensures { Gives (λ x. x) result (loaded_long_by (known_of pool.now index) (Index left)) }
{
    match constant(pool, index) {
        Some(Constant::Long(n)) => Ok(Loaded::Long(n)),
        _ => Err(Stop::Refused(Flaw::Index(left))),
    }
}

fn member(
    alloc: Global,
    class: &[u16],
    name: &[u16],
    descriptor: &[u16],
) -> Result<Operand, Stop<Flaw>>
    ensures { Gives (λ x. x) result (Ok (Operand.Member class.now name.now descriptor.now)) }
{
    let class = copy(alloc, class)?;
    let name = copy(alloc, name)?;
    let descriptor = copy(alloc, descriptor)?;
    Ok(Operand::Member {
        class,
        name,
        descriptor,
    })
}

fn field(alloc: Global, pool: &[Slot], index: u16, left: usize) -> Result<Operand, Stop<Flaw>>
    ensures { Gives (λ x. x) result (field_by (known_of pool.now index) (Index left)) }
{
    match constant(pool, index) {
        Some(
            Constant::Field {
                class,
                name,
                descriptor,
            },
        ) => member(alloc, class, name, descriptor),
        _ => Err(Stop::Refused(Flaw::Index(left))),
    }
}

fn method(alloc: Global, pool: &[Slot], index: u16, left: usize) -> Result<Operand, Stop<Flaw>>
    ensures { Gives (λ x. x) result (method_by (known_of pool.now index) (Index left)) }
{
    match constant(pool, index) {
        Some(
            Constant::Method {
                class,
                name,
                descriptor,
            },
        ) => member(alloc, class, name, descriptor),
        _ => Err(Stop::Refused(Flaw::Index(left))),
    }
}

fn units_or_zero(descriptor: &[u16]) -> u16
    ensures { result ≡ or_zero (parameter_units descriptor.now) }
{
    units_of_parameters(descriptor).unwrap_or(0)
}

/// A method of an interface, and the units of its parameters.
fn interface(
    alloc: Global,
    pool: &[Slot],
    index: u16,
    left: usize,
) -> Result<(Operand, u16), Stop<Flaw>>
    ensures { Gives (λ x. (x.0, x.1)) result (interface_by (known_of pool.now index) (Index left)) }
{
    match constant(pool, index) {
        Some(
            Constant::Interface {
                class,
                name,
                descriptor,
            },
        ) => {
            let operand = member(alloc, class, name, descriptor)?;
            Ok((operand, units_or_zero(descriptor)))
        }
        _ => Err(Stop::Refused(Flaw::Index(left))),
    }
}

#[tactic(auto, unfolding(jc_class_out::specs::Instructions::load_op))]
pub fn load<'a>(alloc: Global, pool: &[Slot], bytes: &'a [u8]) -> Read<'a, Operand>
    ensures { Gives (λ x. (x.0, x.1.now)) result (load_op pool.now bytes.now) }
{
    let (index, rest) = u1(bytes)?;
    let loaded = loaded(alloc, pool, u16::from(index), bytes.len())?;
    Ok((Operand::Load(loaded), rest))
}

#[tactic(auto, unfolding(jc_class_out::specs::Instructions::load_wide_op))]
pub fn load_wide<'a>(alloc: Global, pool: &[Slot], bytes: &'a [u8]) -> Read<'a, Operand>
    ensures { Gives (λ x. (x.0, x.1.now)) result (load_wide_op pool.now bytes.now) }
{
    let (index, rest) = u2(bytes)?;
    let loaded = loaded(alloc, pool, index, bytes.len())?;
    Ok((Operand::Load(loaded), rest))
}

#[tactic(auto, unfolding(jc_class_out::specs::Instructions::load_long_op))]
pub fn load_long<'a>(pool: &[Slot], bytes: &'a [u8]) -> Read<'a, Operand>
    ensures { Gives (λ x. (x.0, x.1.now)) result (load_long_op pool.now bytes.now) }
{
    let (index, rest) = u2(bytes)?;
    let loaded = loaded_long(pool, index, bytes.len())?;
    Ok((Operand::Load(loaded), rest))
}

#[tactic(auto, unfolding(jc_class_out::specs::Instructions::field_op))]
pub fn field_operand<'a>(alloc: Global, pool: &[Slot], bytes: &'a [u8]) -> Read<'a, Operand>
    ensures { Gives (λ x. (x.0, x.1.now)) result (field_op pool.now bytes.now) }
{
    let (index, rest) = u2(bytes)?;
    let operand = field(alloc, pool, index, bytes.len())?;
    Ok((operand, rest))
}

#[tactic(auto, unfolding(jc_class_out::specs::Instructions::method_op))]
pub fn method_operand<'a>(alloc: Global, pool: &[Slot], bytes: &'a [u8]) -> Read<'a, Operand>
    ensures { Gives (λ x. (x.0, x.1.now)) result (method_op pool.now bytes.now) }
{
    let (index, rest) = u2(bytes)?;
    let operand = method(alloc, pool, index, bytes.len())?;
    Ok((operand, rest))
}

/// Behind the index the units of the arguments, the object among them, and a zero.
#[tactic(auto, unfolding(jc_class_out::specs::Instructions::interface_op))]
pub fn interface_operand<'a>(alloc: Global, pool: &[Slot], bytes: &'a [u8]) -> Read<'a, Operand>
    ensures { Gives (λ x. (x.0, x.1.now)) result (interface_op pool.now bytes.now) }
{
    let (index, told) = u2(bytes)?;
    let (operand, units) = interface(alloc, pool, index, bytes.len())?;
    let (count, zero) = u1(told)?;
    want(u32::from(count) == u32::from(units) + 1, told.len())?;
    let (zeros, rest) = u1(zero)?;
    want(zeros == 0, zero.len())?;
    Ok((operand, rest))
}

#[tactic(auto, unfolding(jc_class_out::specs::Instructions::class_op))]
pub fn class_operand<'a>(alloc: Global, pool: &[Slot], bytes: &'a [u8]) -> Read<'a, Operand>
    ensures { Gives (λ x. (x.0, x.1.now)) result (class_op pool.now bytes.now) }
{
    let (class, rest) = class_name(alloc, pool, bytes)?;
    Ok((Operand::Class(class), rest))
}

/// A class, and how many dimensions are made.
#[tactic(auto, unfolding(jc_class_out::specs::Instructions::dims_op))]
pub fn dims_operand<'a>(alloc: Global, pool: &[Slot], bytes: &'a [u8]) -> Read<'a, Operand>
    ensures { Gives (λ x. (x.0, x.1.now)) result (dims_op pool.now bytes.now) }
{
    let (class, told) = class_name(alloc, pool, bytes)?;
    let (dims, rest) = u1(told)?;
    want(dims != 0, told.len())?;
    Ok((Operand::Dims { class, dims }, rest))
}

#[tactic(auto, unfolding(jc_class_out::specs::Instructions::byte_op))]
pub fn byte_operand(bytes: &[u8]) -> Read<'_, Operand>
    ensures { Gives (λ x. (x.0, x.1.now)) result (byte_op bytes.now) }
{
    let (number, rest) = u1(bytes)?;
    Ok((Operand::Number(i32::from(number.cast_signed())), rest))
}

#[tactic(auto, unfolding(jc_class_out::specs::Instructions::short_op))]
pub fn short_operand(bytes: &[u8]) -> Read<'_, Operand>
    ensures { Gives (λ x. (x.0, x.1.now)) result (short_op bytes.now) }
{
    let (number, rest) = u2(bytes)?;
    Ok((Operand::Number(i32::from(number.cast_signed())), rest))
}

/// The type of an array's elements.
#[tactic(auto, unfolding(jc_class_out::specs::Instructions::array_op))]
pub fn array_operand(bytes: &[u8]) -> Read<'_, Operand>
    ensures { Gives (λ x. (x.0, x.1.now)) result (array_op bytes.now) }
{
    let (number, rest) = u1(bytes)?;
    if !array_code(number) {
        return Err(Stop::Refused(Flaw::Tag(bytes.len())));
    }
    Ok((Operand::Number(i32::from(number)), rest))
}

#[tactic(auto, unfolding(jc_class_out::specs::Instructions::local_op))]
pub fn local_operand(bytes: &[u8]) -> Read<'_, Operand>
    ensures { Gives (λ x. (x.0, x.1.now)) result (local_op bytes.now) }
{
    let (local, rest) = u1(bytes)?;
    Ok((Operand::Local(u16::from(local)), rest))
}

#[tactic(auto, unfolding(jc_class_out::specs::Instructions::step_op))]
pub fn step_operand(bytes: &[u8]) -> Read<'_, Operand>
    ensures { Gives (λ x. (x.0, x.1.now)) result (step_op bytes.now) }
{
    let (local, rest) = u1(bytes)?;
    let (by, rest) = u1(rest)?;
    let local = u16::from(local);
    let by = i16::from(by.cast_signed());
    Ok((Operand::Step { local, by }, rest))
}

/// Where a jump goes from that place of the code.
#[tactic(auto, unfolding(jc_class_out::specs::Instructions::jump_op))]
pub fn jump_operand(at: u32, bytes: &[u8]) -> Read<'_, Operand>
    ensures { Gives (λ x. (x.0, x.1.now)) result (jump_op at bytes.now) }
{
    let (by, rest) = u2(bytes)?;
    Ok((Operand::Jump(jump_target(at, by)), rest))
}
