//! The size of an instruction by what stands behind its opcode.
ghost use Rattle.std.specs.Prelude.{◌≡◌, ◌≤◌, ◌<◌, ◌+◌, ◌^◌};
ghost use Rattle.jc_class_out.specs.Instructions.{operand_size, wide_size, ins_size};

use jc_class_out::{Ins, Kind, Operand, kind};

#[tactic(auto, unfolding(jc_class_out::specs::Instructions::operand_size))]
fn switch_bytes(at: usize, operand: &Operand) -> usize
    ensures value { result ≡ operand_size at Kind.Switch operand.now }
    ensures small { result < 2 ^ 63 + 16 }
{
    match operand {
        Operand::Switch { cases, .. } => 3 - at % 4 + 8 + 8 * cases.slice().len(),
        _ => 0,
    }
}

/// How many bytes the operand takes, at that place of the code.
#[tactic(auto, unfolding(jc_class_out::specs::Instructions::operand_size))]
fn operand_bytes(at: usize, kind: Kind, operand: &Operand) -> usize
    ensures value { result ≡ operand_size at kind operand.now }
    ensures small { result < 2 ^ 63 + 16 }
{
    match kind {
        Kind::Plain => 0,
        Kind::Byte => 1,
        Kind::Short => 2,
        Kind::ArrayOf => 1,
        Kind::Load => 1,
        Kind::LoadWide => 2,
        Kind::LoadLong => 2,
        Kind::Local => 1,
        Kind::Step => 2,
        Kind::Jump => 2,
        Kind::Switch => switch_bytes(at, operand),
        Kind::Field => 2,
        Kind::Method => 2,
        Kind::Interface => 4,
        Kind::Class => 2,
        Kind::Dims => 3,
        Kind::Unknown => 0,
    }
}

fn wide_bytes(operand: &Operand) -> usize
    ensures value { result ≡ wide_size operand.now }
    ensures small { result ≤ 4 }
{
    match operand {
        Operand::Step { .. } => 4,
        _ => 2,
    }
}

/// How many bytes the instruction takes, at that place of the code.
pub fn ins_bytes(at: usize, ins: &Ins) -> usize
    ensures value { result ≡ ins_size at ins.now }
    ensures some { 1 ≤ result }
{
    if ins.wide {
        2 + wide_bytes(&ins.operand)
    } else {
        1 + operand_bytes(at, kind(ins.code), &ins.operand)
    }
}
