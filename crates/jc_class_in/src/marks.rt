//! The places at which instructions begin.
ghost use Rattle.std.specs.Prelude.{◌≡◌, ◌++◌, ◌<◌, OnOk, Ok, false, length, replicate};
ghost use Rattle.std.specs.Bool.{OnTrue};
ghost use Rattle.jc_class_out.specs.Frames.{begins};
ghost use Rattle.jc_class_out.specs.Code.{marks_of, lands, cases_land, all_land, ends};
ghost use Rattle.jc_class_in.specs.Gives.{Gives};

use crate::numbers::want;
use jc_class_out::{Flaw, Ins, Operand, SwitchCase};
use jc_rules::{Stop, WantOfMemory};
use jc_sizes::ins_bytes;
use std::alloc::Global;

/// Whether an instruction begins there.
pub fn begins_at(marks: &[bool], to: usize) -> bool
    ensures value { result ≡ begins marks.now to }
    ensures within { OnTrue result (to < length marks.now) }
{
    match marks.get(to) {
        Some(mark) => *mark,
        None => false,
    }
}

/// Whether an instruction begins there, or the code ends.
pub fn ends_at(marks: &[bool], to: usize) -> bool
    ensures { result ≡ ends marks.now to }
{
    begins_at(marks, to) || to == marks.len()
}

fn put_unmarked(marks: &mut Vec<bool>, count: usize) -> Result<(), WantOfMemory>
    ensures { OnOk result (marks.new.items ≡ marks.old.items ++ replicate count false) }
{
    for _ in 0..count {
        marks.push(false)?;
    }
    Ok(())
}

/// Of each byte of the code, whether an instruction begins there.
pub fn marks(alloc: Global, list: &[Ins]) -> Result<Vec<bool>, Stop<Flaw>>
    ensures { Gives (λ m. m.items) result (Ok (marks_of list.now)) }
{
    let mut marks = Vec::new(alloc);
    for ins in list {
        let size = ins_bytes(marks.len(), ins);
        marks.push(true)?;
        put_unmarked(&mut marks, size - 1)?;
    }
    Ok(marks)
}

#[tactic(auto, unfolding(jc_class_out::specs::Code::cases_land))]
fn check_cases(marks: &[bool], left: usize, cases: &[SwitchCase]) -> Result<(), Stop<Flaw>>
    ensures { Gives (λ _. 0) result (cases_land marks.now left cases.now) }
{
    let mut left = left;
    for case in cases {
        want(begins_at(marks, case.at as usize), left.saturating_sub(4))?;
        left = left.saturating_sub(8);
    }
    Ok(())
}

/// Tests where the instruction goes; so many bytes are left from it on.
fn check_jump(marks: &[bool], left: usize, at: usize, operand: &Operand) -> Result<(), Stop<Flaw>>
    ensures { Gives (λ _. 0) result (lands marks.now left at operand.now) }
{
    match operand {
        Operand::Jump(to) => want(begins_at(marks, *to as usize), left.saturating_sub(1)),
        Operand::Switch { otherwise, cases } => {
            let padding = 3 - at % 4;
            let first = left.saturating_sub(1).saturating_sub(padding);
            want(begins_at(marks, *otherwise as usize), first)?;
            let rows = left.saturating_sub(9).saturating_sub(padding);
            check_cases(marks, rows, cases.slice())
        }
        _ => Ok(()),
    }
}

/// Tests where the instructions of a code go.
#[tactic(auto, unfolding(jc_class_out::specs::Code::all_land), using(crate::proofs::Marked::size_whole))]
pub fn check_jumps(marks: &[bool], left: usize, list: &[Ins]) -> Result<(), Stop<Flaw>>
    requires { marks.now ≡ marks_of list.now }
    ensures { Gives (λ _. 0) result (all_land marks.now left 0 list.now) }
{
    let mut left = left;
    let mut at = 0;
    for ins in list {
        check_jump(marks, left, at, &ins.operand)?;
        let size = ins_bytes(at, ins);
        left = left.saturating_sub(size);
        at += size;
    }
    Ok(())
}
