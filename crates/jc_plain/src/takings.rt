//! Values taken from a stack, and the instructions that move them (JVMS 2.11.6).
ghost use Rattle.std.specs.Prelude.{◌≡◌, ◌∷◌, ◌≤◌, Some, None, MatchOption, MatchBool, nat_le};
ghost use Rattle.jc_jvm.specs.Plain.{is_one_unit, one_unit, second_unit, two_units, units_taken};
ghost use Rattle.jc_jvm.specs.Stacked.{units_in};
ghost use Rattle.jc_jvm.specs.Table.{discards, swaps, copies_by, copies_under, copies};
ghost use Rattle.jc_plain.specs.Acted.{acted};
ghost use Rattle.jc_plain.specs.Takings.{values_of, values_on};

use crate::{Act, go_to};
use jc_jvm::{Frame, Operands, Value, Width};

/// Values that were taken from a stack, from the top.
#[derive(Clone, Copy, Debug)]
pub enum Taken {
    NoValue,
    OneValue(Value),
    TwoValues(Value, Value),
}

fn has_one_unit(value: Value) -> bool
    ensures { result ≡ is_one_unit value }
{
    match value {
        Value::Long(_) => false,
        Value::Whole(_) | Value::Address(_) | Value::NullValue => true,
    }
}

fn take_one(stack: &mut Operands) -> Option<Taken>
    ensures limit { stack.new.limit ≡ stack.old.limit }
    ensures values { MatchOption result (one_unit stack.old.values ≡ None) (λ t. one_unit stack.old.values ≡ Some (values_of t, stack.new.values)) }
{
    match stack.pop() {
        Some(value) => {
            if has_one_unit(value) {
                Some(Taken::OneValue(value))
            } else {
                None
            }
        }
        None => None,
    }
}

fn take_second(first: Value, stack: &mut Operands) -> Option<Taken>
    ensures limit { stack.new.limit ≡ stack.old.limit }
    ensures values { MatchOption result (second_unit first stack.old.values ≡ None) (λ t. second_unit first stack.old.values ≡ Some (values_of t, stack.new.values)) }
{
    match stack.pop() {
        Some(second) => {
            if has_one_unit(second) {
                Some(Taken::TwoValues(first, second))
            } else {
                None
            }
        }
        None => None,
    }
}

fn take_two(stack: &mut Operands) -> Option<Taken>
    ensures limit { stack.new.limit ≡ stack.old.limit }
    ensures values { MatchOption result (two_units stack.old.values ≡ None) (λ t. two_units stack.old.values ≡ Some (values_of t, stack.new.values)) }
{
    match stack.pop() {
        Some(value) => {
            if has_one_unit(value) {
                take_second(value, stack)
            } else {
                Some(Taken::OneValue(value))
            }
        }
        None => None,
    }
}

/// So many units from the top of a stack.
pub fn take(units: Width, stack: &mut Operands) -> Option<Taken>
    ensures limit { stack.new.limit ≡ stack.old.limit }
    ensures values { MatchOption result (units_taken units stack.old.values ≡ None) (λ t. units_taken units stack.old.values ≡ Some (values_of t, stack.new.values)) }
{
    match units {
        Width::NoUnit => Some(Taken::NoValue),
        Width::OneUnit => take_one(stack),
        Width::TwoUnits => take_two(stack),
    }
}

fn put_two(upper: Value, lower: Value, stack: &mut Operands) -> bool
    ensures limit { stack.new.limit ≡ stack.old.limit }
    ensures there { MatchBool result (stack.new.values ≡ upper ∷ lower ∷ stack.old.values) (Unit {0}) }
    ensures room { result ≡ nat_le (units_in (upper ∷ lower ∷ stack.old.values)) stack.old.limit }
{
    stack.push(lower) && stack.push(upper)
}

/// Values on top of a stack, where there is room for them.
pub fn put(taken: Taken, stack: &mut Operands) -> bool
    ensures limit { stack.new.limit ≡ stack.old.limit }
    ensures there { MatchBool result (stack.new.values ≡ values_on taken stack.old.values) (Unit {0}) }
    ensures room { result ≡ nat_le (units_in (values_on taken stack.old.values)) stack.old.limit }
{
    match taken {
        Taken::NoValue => {
            stack.is_within();
            true
        }
        Taken::OneValue(value) => stack.push(value),
        Taken::TwoValues(upper, lower) => put_two(upper, lower, stack),
    }
}

/// The topmost units go away.
pub fn discard(units: Width, next: u32, now: &mut Frame) -> Act
    ensures { discards next now.old (units_taken units now.old.stack.values) ≡ acted result now.new }
{
    match take(units, &mut now.stack) {
        Some(_) => go_to(next, now),
        None => Act::Fails,
    }
}

fn put_swapped(upper: Value, lower: Value, next: u32, now: &mut Frame) -> Act
    requires { units_in (upper ∷ lower ∷ now.old.stack.values) ≤ now.old.stack.limit }
    ensures { swaps next now.old (upper ∷ lower ∷ now.old.stack.values) ≡ acted result now.new }
{
    if has_one_unit(upper) && has_one_unit(lower) && put_two(lower, upper, &mut now.stack) {
        go_to(next, now)
    } else {
        Act::Fails
    }
}

/// The two values on top change places.
pub fn swap(next: u32, now: &mut Frame) -> Act
    ensures { swaps next now.old now.old.stack.values ≡ acted result now.new }
{
    match (now.stack.pop(), now.stack.pop()) {
        (Some(upper), Some(lower)) => put_swapped(upper, lower, next, now),
        _ => Act::Fails,
    }
}

fn put_copies(copied: Taken, under: Taken, next: u32, now: &mut Frame) -> Act
    ensures { copies_by next now.old (values_on copied (values_on under (values_on copied now.old.stack.values))) ≡ acted result now.new }
{
    if put(copied, &mut now.stack) && put(under, &mut now.stack) && put(copied, &mut now.stack) {
        go_to(next, now)
    } else {
        Act::Fails
    }
}

fn copy_under(copied: Taken, under: Width, next: u32, now: &mut Frame) -> Act
    ensures { copies_under next now.old (values_of copied) (units_taken under now.old.stack.values) ≡ acted result now.new }
{
    match take(under, &mut now.stack) {
        Some(under) => put_copies(copied, under, next, now),
        None => Act::Fails,
    }
}

/// The topmost units once more, beneath those under them.
pub fn duplicate(copied: Width, under: Width, next: u32, now: &mut Frame) -> Act
    ensures { copies under next now.old (units_taken copied now.old.stack.values) ≡ acted result now.new }
{
    match take(copied, &mut now.stack) {
        Some(copied) => copy_under(copied, under, next, now),
        None => Act::Fails,
    }
}
