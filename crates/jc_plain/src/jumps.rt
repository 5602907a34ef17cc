//! Jumps (JVMS 2.11.7).
ghost use Rattle.std.specs.Prelude.{◌≡◌, if◌then◌else◌};
ghost use Rattle.jc_jvm.specs.Plain.{same_reference, is_null};
ghost use Rattle.jc_jvm.specs.Table.{turned, reference_jumps, int_jumps, int_pair_jumps, pair_jumps, null_jumps};
ghost use Rattle.jc_plain.specs.Acted.{acted};

use crate::numbers::passes;
use crate::{Act, go_to};
use jc_jvm::{Comparison, Frame, Value};

#[inline(always)]
fn target(test: bool, to: u32, next: u32) -> u32
    ensures { result ≡ (if test then to else next) }
{
    if test { to } else { next }
}

/// By a test of an int against zero.
#[inline(always)]
pub fn jump_by_int(test: Comparison, to: u32, next: u32, now: &mut Frame) -> Act
    ensures { int_jumps test to next now.old now.old.stack.values ≡ acted result now.new }
{
    match now.stack.pop() {
        Some(Value::Whole(n)) => go_to(target(passes(test, n, 0), to, next), now),
        _ => Act::Fails,
    }
}

/// By a test of two ints.
#[inline(always)]
pub fn jump_by_ints(test: Comparison, to: u32, next: u32, now: &mut Frame) -> Act
    ensures { int_pair_jumps test to next now.old now.old.stack.values ≡ acted result now.new }
{
    match (now.stack.pop(), now.stack.pop()) {
        (Some(Value::Whole(b)), Some(Value::Whole(a))) => {
            go_to(target(passes(test, a, b), to, next), now)
        }
        _ => Act::Fails,
    }
}

#[inline(always)]
fn are_same(a: Value, b: Value) -> Option<bool>
    ensures { result ≡ same_reference a b }
{
    match (a, b) {
        (Value::Address(a), Value::Address(b)) => Some(a == b),
        (Value::NullValue, Value::NullValue) => Some(true),
        (Value::Address(_), Value::NullValue) | (Value::NullValue, Value::Address(_)) => Some(
            false,
        ),
        _ => None,
    }
}

#[inline(always)]
fn is_no_object(value: Value) -> Option<bool>
    ensures { result ≡ is_null value }
{
    match value {
        Value::Address(_) => Some(false),
        Value::NullValue => Some(true),
        Value::Whole(_) | Value::Long(_) => None,
    }
}

#[inline(always)]
fn turn(other: bool, test: bool) -> bool
    ensures { result ≡ turned other test }
{
    if other { !test } else { test }
}

#[inline(always)]
fn jump_by_test(other: bool, test: Option<bool>, to: u32, next: u32, now: &mut Frame) -> Act
    ensures { reference_jumps other to next now.old now.old.stack.values test ≡ acted result now.new }
{
    match test {
        Some(test) => go_to(target(turn(other, test), to, next), now),
        None => Act::Fails,
    }
}

/// Where two references are the same, or where they are not.
#[inline(always)]
pub fn jump_by_references(other: bool, to: u32, next: u32, now: &mut Frame) -> Act
    ensures { pair_jumps other to next now.old now.old.stack.values ≡ acted result now.new }
{
    match (now.stack.pop(), now.stack.pop()) {
        (Some(b), Some(a)) => jump_by_test(other, are_same(a, b), to, next, now),
        _ => Act::Fails,
    }
}

/// Where a reference is null, or where it is not.
#[inline(always)]
pub fn jump_by_null(other: bool, to: u32, next: u32, now: &mut Frame) -> Act
    ensures { null_jumps other to next now.old now.old.stack.values ≡ acted result now.new }
{
    match now.stack.pop() {
        Some(value) => jump_by_test(other, is_no_object(value), to, next, now),
        None => Act::Fails,
    }
}
