//! The arguments of a call, and the frame that it begins with (JVMS 2.6).
ghost use Rattle.std.specs.Prelude.{◌≡◌, ◌≤◌, take, drop, length, reverse, IfOk, MatchBool, Some, None};
ghost use Rattle.jc_jvm.specs.Calls.{all_of_sorts, arguments_of};
ghost use Rattle.jc_jvm.specs.Frames.{frame_of};

use crate::frame_for;
use jc_class_out::ClassModel;
use jc_jvm::{Frame, Operands, Sort, Value};
use jc_plain::is_of_sort;
use jc_rules::WantOfMemory;
use std::alloc::Global;

#[tactic(auto, using(crate::proofs::Laid::not_long))]
fn are_of_sorts(sorts: &[Sort], values: &[Value]) -> bool
    ensures { result ≡ all_of_sorts sorts.now values.now }
{
    if sorts.len() != values.len() {
        return false;
    }
    for (i, sort) in sorts.iter().enumerate() {
        if !is_of_sort(*sort, values[i]) {
            return false;
        }
    }
    true
}

#[tactic(auto, using(crate::proofs::Laid::too_few, crate::proofs::Laid::arguments_are, crate::proofs::Laid::arguments_are_not))]
/// Whether the arguments of a call stand on top of the stack.
pub fn has_arguments(sorts: &[Sort], stack: &Operands) -> bool
    ensures { MatchBool result ((arguments_of sorts.now stack.now.values ≡ Some (reverse (take (length sorts.now) stack.now.values), drop (length sorts.now) stack.now.values)) × (length sorts.now ≤ length stack.now.values)) (arguments_of sorts.now stack.now.values ≡ None) }
{
    match stack.top(sorts.len()) {
        Some(values) => are_of_sorts(sorts, values),
        None => false,
    }
}

/// The frame of a method with so many arguments from the top of a stack, before its first instruction, where the method has code and
/// room for them.
pub fn frame_on(
    alloc: Global,
    classes: &[ClassModel],
    class: u64,
    method: u64,
    count: usize,
    stack: &Operands,
) -> Result<Option<Frame>, WantOfMemory>
    requires { count ≤ length stack.now.values }
    ensures { IfOk result (λ frame. frame ≡ frame_of classes.now (class, method) (reverse (take count stack.now.values))) }
{
    match stack.top(count) {
        Some(arguments) => frame_for(alloc, classes, class, method, arguments),
        None => Ok(None),
    }
}
