//! The operands of `lookupswitch` (JVMS 6.5).
ghost use Rattle.std.specs.Prelude.{◌≡◌, ◌+◌, ◌^◌, ◌<◌, None};
ghost use Rattle.jc_class_out.specs.Instructions.{wide_target, zeros_at, case_at, cases_at, switch_op};
ghost use Rattle.jc_class_in.specs.Gives.{Gives};

use crate::numbers::{Read, u1, u4, want};
use jc_class_out::{Operand, SwitchCase, above, gap};
use jc_rules::Items;
use std::alloc::Global;

/// So many zeros.
#[tactic(auto, unfolding(jc_class_out::specs::Instructions::zeros_at), using(crate::proofs::Cases::zeros_more))]
fn zeros(count: u32, bytes: &[u8]) -> Read<'_, u8>
    ensures { Gives (λ x. (x.0, x.1.now)) result (zeros_at count bytes.now) }
{
    let mut rest = bytes;
    for _ in 0..count {
        let (byte, behind) = u1(rest)?;
        want(byte == 0, rest.len())?;
        rest = behind;
    }
    Ok((0, rest))
}

fn goes_to(at: u32, by: u32) -> u32
    ensures { result ≡ wide_target at by }
{
    at.wrapping_add(by)
}

/// A case of a switch at that place of the code, behind the case of the key before it.
#[tactic(auto, unfolding(jc_class_out::specs::Instructions::case_at))]
fn case(at: u32, before: Option<i32>, bytes: &[u8]) -> Read<'_, SwitchCase>
    ensures { Gives (λ x. (x.0, x.1.now)) result (case_at at before bytes.now) }
{
    let (key, rest) = u4(bytes)?;
    let key = key.cast_signed();
    want(above(before, key), bytes.len())?;
    let (by, rest) = u4(rest)?;
    let to = goes_to(at, by);
    Ok((SwitchCase { key, at: to }, rest))
}

fn key_of(case: &SwitchCase) -> Option<i32>
    ensures { result ≡ Some case.now.key }
{
    Some(case.key)
}

#[tactic(auto, using(crate::proofs::Cases::cases_stop, crate::proofs::Cases::cases_done))]
fn cases(alloc: Global, count: u32, at: u32, bytes: &[u8]) -> Read<'_, Items<SwitchCase>>
    ensures { Gives (λ x. (x.0, x.1.now)) result (cases_at count at None bytes.now) }
{
    let mut list = Items::new(alloc);
    let mut rest = bytes;
    let mut before = None;
    for _ in 0..count {
        let (next, after) = case(at, before, rest)?;
        let key = key_of(&next);
        list.push(next)?;
        before = key;
        rest = after;
    }
    Ok((list, rest))
}

/// What stands behind lookupswitch.
#[tactic(auto, unfolding(jc_class_out::specs::Instructions::switch_op))]
pub fn switch_operand(alloc: Global, at: u32, bytes: &[u8]) -> Read<'_, Operand>
    ensures { Gives (λ x. (x.0, x.1.now)) result (switch_op at bytes.now) }
{
    let (_, rest) = zeros(gap(at), bytes)?;
    let (by, told) = u4(rest)?;
    let (count, rest) = u4(told)?;
    want(count < 0x8000_0000, told.len())?;
    let (cases, rest) = cases(alloc, count, at, rest)?;
    let otherwise = goes_to(at, by);
    Ok((Operand::Switch { otherwise, cases }, rest))
}
