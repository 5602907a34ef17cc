//! Instructions of arithmetic (JVMS 2.11.3).
ghost use Rattle.std.specs.Prelude.{◌≡◌};
ghost use Rattle.jc_jvm.specs.Table.{int_pairs, long_pairs, int_shifts, long_shifts, int_quotients, long_quotients, of_ints, of_longs, comparisons};
ghost use Rattle.jc_plain.specs.Acted.{acted};

use crate::numbers::{
    no_int, no_long, of_int_division, of_long_division, of_one_int, of_one_long, of_two_ints,
    of_two_longs, order_of, shifted_int, shifted_long,
};
use crate::{Act, push, throw_in};
use jc_jvm::{Division, Fault, Frame, IntConversion, LongConversion, Operator, Shift, Value};

#[inline(always)]
pub fn calculate_int(how: Operator, next: u32, now: &mut Frame) -> Act
    ensures { int_pairs how next now.old now.old.stack.values ≡ acted result now.new }
{
    match (now.stack.pop(), now.stack.pop()) {
        (Some(Value::Whole(b)), Some(Value::Whole(a))) => {
            push(next, now, Value::Whole(of_two_ints(how, a, b)))
        }
        _ => Act::Fails,
    }
}

#[inline(always)]
pub fn calculate_long(how: Operator, next: u32, now: &mut Frame) -> Act
    ensures { long_pairs how next now.old now.old.stack.values ≡ acted result now.new }
{
    match (now.stack.pop(), now.stack.pop()) {
        (Some(Value::Long(b)), Some(Value::Long(a))) => {
            push(next, now, Value::Long(of_two_longs(how, a, b)))
        }
        _ => Act::Fails,
    }
}

#[inline(always)]
pub fn shift_int(how: Shift, next: u32, now: &mut Frame) -> Act
    ensures { int_shifts how next now.old now.old.stack.values ≡ acted result now.new }
{
    match (now.stack.pop(), now.stack.pop()) {
        (Some(Value::Whole(b)), Some(Value::Whole(a))) => {
            push(next, now, Value::Whole(shifted_int(how, a, b)))
        }
        _ => Act::Fails,
    }
}

#[inline(always)]
pub fn shift_long(how: Shift, next: u32, now: &mut Frame) -> Act
    ensures { long_shifts how next now.old now.old.stack.values ≡ acted result now.new }
{
    match (now.stack.pop(), now.stack.pop()) {
        (Some(Value::Whole(b)), Some(Value::Long(a))) => {
            push(next, now, Value::Long(shifted_long(how, a, b)))
        }
        _ => Act::Fails,
    }
}

pub fn divide_int(how: Division, next: u32, now: &mut Frame) -> Act
    ensures { int_quotients how next now.old now.old.stack.values ≡ acted result now.new }
{
    match (now.stack.pop(), now.stack.pop()) {
        (Some(Value::Whole(b)), Some(Value::Whole(a))) => {
            if no_int(b) {
                throw_in(Fault::Arithmetic, now)
            } else {
                push(next, now, Value::Whole(of_int_division(how, a, b)))
            }
        }
        _ => Act::Fails,
    }
}

pub fn divide_long(how: Division, next: u32, now: &mut Frame) -> Act
    ensures { long_quotients how next now.old now.old.stack.values ≡ acted result now.new }
{
    match (now.stack.pop(), now.stack.pop()) {
        (Some(Value::Long(b)), Some(Value::Long(a))) => {
            if no_long(b) {
                throw_in(Fault::Arithmetic, now)
            } else {
                push(next, now, Value::Long(of_long_division(how, a, b)))
            }
        }
        _ => Act::Fails,
    }
}

#[inline(always)]
pub fn convert_int(how: IntConversion, next: u32, now: &mut Frame) -> Act
    ensures { of_ints how next now.old now.old.stack.values ≡ acted result now.new }
{
    match now.stack.pop() {
        Some(Value::Whole(n)) => push(next, now, of_one_int(how, n)),
        _ => Act::Fails,
    }
}

#[inline(always)]
pub fn convert_long(how: LongConversion, next: u32, now: &mut Frame) -> Act
    ensures { of_longs how next now.old now.old.stack.values ≡ acted result now.new }
{
    match now.stack.pop() {
        Some(Value::Long(n)) => push(next, now, of_one_long(how, n)),
        _ => Act::Fails,
    }
}

#[inline(always)]
pub fn compare_longs(next: u32, now: &mut Frame) -> Act
    ensures { comparisons next now.old now.old.stack.values ≡ acted result now.new }
{
    match (now.stack.pop(), now.stack.pop()) {
        (Some(Value::Long(b)), Some(Value::Long(a))) => {
            push(next, now, Value::Whole(order_of(a, b)))
        }
        _ => Act::Fails,
    }
}
