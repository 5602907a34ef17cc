//! Instructions with their operands (JVMS 6.5).
ghost use Rattle.std.specs.Prelude.{◌≡◌};
ghost use Rattle.jc_class_out.specs.Instructions.{operand_at, wide_operand_at, wide_at, narrow_at, ins_at};
ghost use Rattle.jc_class_in.specs.Gives.{Gives};

use crate::numbers::{Read, u1, u2};
use crate::operands::{
    array_operand, byte_operand, class_operand, dims_operand, field_operand, interface_operand,
    jump_operand, load, load_long, load_wide, local_operand, method_operand, short_operand,
    step_operand,
};
use crate::switches::switch_operand;
use jc_class_out::{Flaw, Ins, Kind, Operand, Slot, kind};
use jc_rules::Stop;
use std::alloc::Global;

/// What stands behind an opcode of that kind; so many bytes are left from the opcode on.
#[tactic(auto, unfolding(jc_class_out::specs::Instructions::operand_at))]
fn operand<'a>(
    alloc: Global,
    pool: &[Slot],
    left: usize,
    at: u32,
    kind: Kind,
    bytes: &'a [u8],
) -> Read<'a, Operand>
    ensures { Gives (λ x. (x.0, x.1.now)) result (operand_at pool.now left at kind bytes.now) }
{
    match kind {
        Kind::Plain => Ok((Operand::Nothing, bytes)),
        Kind::Byte => byte_operand(bytes),
        Kind::Short => short_operand(bytes),
        Kind::ArrayOf => array_operand(bytes),
        Kind::Load => load(alloc, pool, bytes),
        Kind::LoadWide => load_wide(alloc, pool, bytes),
        Kind::LoadLong => load_long(pool, bytes),
        Kind::Local => local_operand(bytes),
        Kind::Step => step_operand(bytes),
        Kind::Jump => jump_operand(at, bytes),
        Kind::Switch => switch_operand(alloc, at, bytes),
        Kind::Field => field_operand(alloc, pool, bytes),
        Kind::Method => method_operand(alloc, pool, bytes),
        Kind::Interface => interface_operand(alloc, pool, bytes),
        Kind::Class => class_operand(alloc, pool, bytes),
        Kind::Dims => dims_operand(alloc, pool, bytes),
        Kind::Unknown => Err(Stop::Refused(Flaw::Opcode(left))),
    }
}

/// Behind `wide` the numbers of locals, and that of iinc, have two bytes.
#[tactic(auto, unfolding(jc_class_out::specs::Instructions::wide_operand_at))]
fn wide_operand(left: usize, kind: Kind, bytes: &[u8]) -> Read<'_, Operand>
    ensures { Gives (λ x. (x.0, x.1.now)) result (wide_operand_at left kind bytes.now) }
{
    match kind {
        Kind::Local => {
            let (local, rest) = u2(bytes)?;
            Ok((Operand::Local(local), rest))
        }
        Kind::Step => {
            let (local, rest) = u2(bytes)?;
            let (by, rest) = u2(rest)?;
            let by = by.cast_signed();
            Ok((Operand::Step { local, by }, rest))
        }
        _ => Err(Stop::Refused(Flaw::Opcode(left))),
    }
}

#[tactic(auto, unfolding(jc_class_out::specs::Instructions::wide_at))]
fn wide(bytes: &[u8]) -> Read<'_, Ins>
    ensures { Gives (λ x. (x.0, x.1.now)) result (wide_at bytes.now) }
{
    let (code, rest) = u1(bytes)?;
    let (operand, rest) = wide_operand(bytes.len(), kind(code), rest)?;
    let wide = true;
    Ok((
        Ins {
            code,
            wide,
            operand,
        },
        rest,
    ))
}

#[tactic(auto, unfolding(jc_class_out::specs::Instructions::narrow_at))]
fn narrow<'a>(
    alloc: Global,
    pool: &[Slot],
    left: usize,
    at: u32,
    code: u8,
    bytes: &'a [u8],
) -> Read<'a, Ins>
    ensures { Gives (λ x. (x.0, x.1.now)) result (narrow_at pool.now left at code bytes.now) }
{
    let (operand, rest) = operand(alloc, pool, left, at, kind(code), bytes)?;
    let wide = false;
    Ok((
        Ins {
            code,
            wide,
            operand,
        },
        rest,
    ))
}

/// The instruction at that place of its code.
#[tactic(auto, unfolding(jc_class_out::specs::Instructions::ins_at))]
pub fn instruction<'a>(alloc: Global, pool: &[Slot], at: u32, bytes: &'a [u8]) -> Read<'a, Ins>
    ensures { Gives (λ x. (x.0, x.1.now)) result (ins_at pool.now at bytes.now) }
{
    let (code, rest) = u1(bytes)?;
    if code == 0xc4 {
        wide(rest)
    } else {
        narrow(alloc, pool, bytes.len(), at, code, rest)
    }
}
