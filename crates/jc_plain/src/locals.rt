//! Loads and stores of local variables (JVMS 2.11.2).
ghost use Rattle.std.specs.Prelude.{◌≡◌, ◌<◌, ◌^◌, Some, None, MatchBool, slice_get};
ghost use Rattle.jc_jvm.specs.Frames.{with_local, last_unit, without_long_before, units_behind, is_long, local_of_sort};
ghost use Rattle.jc_jvm.specs.Table.{gives, loads, keeps, stores, steps};
ghost use Rattle.jc_jvm.specs.Types.{is_of_sort as sort_fits};
ghost use Rattle.jc_plain.specs.Acted.{acted};

use crate::{Act, go_to, push};
use jc_jvm::{Frame, Slots, Sort, Value};

/// Whether a value is of a sort.
#[inline(always)]
pub fn is_of_sort(sort: Sort, value: Value) -> bool
    ensures { result ≡ sort_fits sort value }
{
    match (sort, value) {
        (Sort::WholeSort, Value::Whole(_)) => true,
        (Sort::LongSort, Value::Long(_)) => true,
        (Sort::ReferenceSort, Value::Address(_)) => true,
        (Sort::ReferenceSort, Value::NullValue) => true,
        _ => false,
    }
}

#[inline(always)]
fn of_sort(sort: Sort, local: Option<Option<Value>>) -> Option<Value>
    ensures { result ≡ local_of_sort sort local }
{
    match local {
        Some(Some(value)) => {
            if is_of_sort(sort, value) {
                Some(value)
            } else {
                None
            }
        }
        _ => None,
    }
}

#[inline(always)]
fn give(next: u32, now: &mut Frame, value: Option<Value>) -> Act
    ensures { gives next now.old now.old.stack.values value ≡ acted result now.new }
{
    match value {
        Some(value) => push(next, now, value),
        None => Act::Fails,
    }
}

/// A local variable onto the stack.
#[inline(always)]
pub fn load(sort: Sort, local: u16, next: u32, now: &mut Frame) -> Act
    ensures { loads sort local next now.old ≡ acted result now.new }
{
    let value = of_sort(sort, now.locals.get(local as usize));
    give(next, now, value)
}

#[inline(always)]
fn holds_long(local: Option<Option<Value>>) -> bool
    ensures { result ≡ is_long local }
{
    match local {
        Some(Some(Value::Long(_))) => true,
        _ => false,
    }
}

#[inline(always)]
fn last_of(local: usize, value: Value) -> usize
    requires { local < 2 ^ 16 }
    ensures { result ≡ last_unit local value }
{
    match value {
        Value::Long(_) => local + 1,
        Value::Whole(_) | Value::Address(_) | Value::NullValue => local,
    }
}

#[inline(always)]
fn lose_long_before(local: usize, locals: &mut Slots<Option<Value>>)
    ensures { locals.new ≡ without_long_before local locals.old }
{
    if local > 0 && holds_long(locals.get(local - 1)) {
        locals.set(local - 1, None);
    }
}

#[inline(always)]
fn take_behind(local: usize, value: Value, locals: &mut Slots<Option<Value>>)
    requires { local < 2 ^ 16 }
    ensures { locals.new ≡ units_behind local value locals.old }
{
    match value {
        Value::Long(_) => {
            locals.set(local + 1, None);
        }
        Value::Whole(_) | Value::Address(_) | Value::NullValue => (),
    }
}

// A long also takes the local behind its own, and what it covers of another long is lost.
#[inline(always)]
fn keep(local: usize, value: Value, locals: &mut Slots<Option<Value>>) -> bool
    requires { local < 2 ^ 16 }
    ensures { MatchBool result (with_local local value locals.old ≡ Some locals.new) (with_local local value locals.old ≡ None) }
{
    if last_of(local, value) < locals.len() {
        lose_long_before(local, locals);
        locals.set(local, Some(value));
        take_behind(local, value, locals);
        true
    } else {
        false
    }
}

#[inline(always)]
fn keep_in(local: u16, value: Value, next: u32, now: &mut Frame) -> Act
    ensures { keeps next now.old now.old.stack.values (with_local local value now.old.locals) ≡ acted result now.new }
{
    if keep(local as usize, value, &mut now.locals) {
        go_to(next, now)
    } else {
        Act::Fails
    }
}

/// The topmost value into a local variable.
#[inline(always)]
pub fn store(sort: Sort, local: u16, next: u32, now: &mut Frame) -> Act
    ensures { stores sort local next now.old now.old.stack.values ≡ acted result now.new }
{
    match now.stack.pop() {
        Some(value) => {
            if is_of_sort(sort, value) {
                keep_in(local, value, next, now)
            } else {
                Act::Fails
            }
        }
        None => Act::Fails,
    }
}

/// A local int grows.
#[inline(always)]
pub fn increment(local: u16, by: i16, next: u32, now: &mut Frame) -> Act
    ensures { steps local by next now.old (slice_get now.old.locals local) ≡ acted result now.new }
{
    match now.locals.get(local as usize) {
        Some(Some(Value::Whole(n))) => {
            keep_in(
                local,
                Value::Whole(n.wrapping_add(i32::from(by))),
                next,
                now,
            )
        }
        _ => Act::Fails,
    }
}
