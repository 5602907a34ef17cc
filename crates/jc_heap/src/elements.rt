//! Elements of arrays: null is tested first, then the range, and for references that are stored the type.
ghost use Rattle.std.specs.Prelude.{◌≡◌, option_and_then, slice_get};
ghost use Rattle.jc_jvm.specs.Objects.{is_element_base as element_base, is_array_of as array_of, place_in as place_of, element_pushed, element_of, element_loaded, narrowed_to, kept as kept_in, may_stand as stands, element_put, element_kept, sort_of_element, element_stored};
ghost use Rattle.jc_plain.specs.Acted.{acted};

use crate::Classes;
use crate::kinds::fits;
use crate::names::shape_sort;
use jc_jvm::{Base, Cell, Element, Fault, Frame, Shape, Slots, Sort, Value, World};
use jc_plain::{Act, go_to, is_of_sort, low_byte, low_char, low_short, push, throw_in};

fn is_element_base(element: Element, base: Base) -> bool
    ensures { result ≡ element_base element base }
{
    match (element, base) {
        (Element::OfInt, Base::Int)
        | (Element::OfLong, Base::Long)
        | (Element::OfReference, Base::Class(_))
        | (Element::OfByte, Base::Byte)
        | (Element::OfByte, Base::Boolean)
        | (Element::OfChar, Base::Char)
        | (Element::OfShort, Base::Short) => true,
        _ => false,
    }
}

fn is_array_of(element: Element, of: Shape) -> bool
    ensures { result ≡ array_of element of }
{
    if of.dims == 0 {
        is_element_base(element, of.base)
    } else {
        matches!(element, Element::OfReference)
    }
}

fn place_in(items: &Slots<Value>, index: i32) -> Option<usize>
    ensures { result ≡ place_of items.now index }
{
    if index >= 0 && (index as usize) < items.len() {
        Some(index as usize)
    } else {
        None
    }
}

fn item_at(items: &Slots<Value>, index: i32) -> Option<Value>
    ensures { result ≡ option_and_then (slice_get items.now) (place_of items.now index) }
{
    match place_in(items, index) {
        Some(place) => items.get(place),
        None => None,
    }
}

fn push_item(next: u32, now: &mut Frame, item: Option<Value>) -> Act
    ensures { element_pushed next now.old now.old.stack.values item ≡ acted result now.new }
{
    match item {
        Some(value) => push(next, now, value),
        None => throw_in(Fault::ArrayIndexOutOfBounds, now),
    }
}

fn load_at(element: Element, world: &World, at: u64, index: i32, next: u32, now: &mut Frame) -> Act
    ensures { element_of element (slice_get world.now.heap at) index next now.old now.old.stack.values ≡ acted result now.new }
{
    match world.heap.get(at) {
        Some(Cell::Array { of, items }) => {
            if is_array_of(element, *of) {
                push_item(next, now, item_at(items, index))
            } else {
                Act::Fails
            }
        }
        _ => Act::Fails,
    }
}

/// iaload and its kin.
pub fn load_element(element: Element, world: &World, next: u32, now: &mut Frame) -> Act
    ensures { element_loaded element world.now next now.old now.old.stack.values ≡ acted result now.new }
{
    match (now.stack.pop(), now.stack.pop()) {
        (Some(Value::Whole(index)), Some(Value::Address(at))) => {
            load_at(element, world, at, index, next, now)
        }
        (Some(Value::Whole(_)), Some(Value::NullValue)) => throw_in(Fault::NullPointer, now),
        _ => Act::Fails,
    }
}

fn narrowed(base: Base, n: i32) -> i32
    ensures { result ≡ narrowed_to base n }
{
    match base {
        Base::Boolean => (n.cast_unsigned() % 2) as i32,
        Base::Byte => low_byte(n),
        Base::Char => low_char(n),
        Base::Short => low_short(n),
        Base::Int | Base::Long | Base::Class(_) => n,
    }
}

fn kept(of: Shape, value: Value) -> Value
    ensures { result ≡ kept_in of value }
{
    match value {
        Value::Whole(n) => Value::Whole(narrowed(of.base, n)),
        Value::Long(_) | Value::Address(_) | Value::NullValue => value,
    }
}

fn may_stand(classes: &Classes, world: &World, of: Shape, value: Value) -> bool
    ensures { result ≡ stands classes.now world.now of value }
{
    match value {
        Value::Address(_) => fits(classes, &world.heap, of, value),
        Value::Whole(_) | Value::Long(_) | Value::NullValue => true,
    }
}

fn put_in(
    classes: &Classes,
    world: &mut World,
    at: u64,
    of: Shape,
    value: Value,
    place: Option<usize>,
    next: u32,
    now: &mut Frame,
) -> Act
    ensures { element_put classes.now world.old at of value next now.old now.old.stack.values place ≡ (world.new, acted result now.new) }
{
    match place {
        Some(place) => {
            if may_stand(classes, world, of, value) {
                world.heap.set(at, place, kept(of, value));
                go_to(next, now)
            } else {
                throw_in(Fault::ArrayStore, now)
            }
        }
        None => throw_in(Fault::ArrayIndexOutOfBounds, now),
    }
}

fn store_at(
    classes: &Classes,
    element: Element,
    world: &mut World,
    at: u64,
    index: i32,
    value: Value,
    next: u32,
    now: &mut Frame,
) -> Act
    ensures { element_kept classes.now element world.old (slice_get world.old.heap at) at index value next now.old now.old.stack.values ≡ (world.new, acted result now.new) }
{
    match world.heap.get(at) {
        Some(Cell::Array { of, items }) => {
            let of = *of;
            if is_array_of(element, of) && is_of_sort(shape_sort(of), value) {
                let place = place_in(items, index);
                put_in(classes, world, at, of, value, place, next, now)
            } else {
                Act::Fails
            }
        }
        _ => Act::Fails,
    }
}

fn element_sort(element: Element) -> Sort
    ensures { result ≡ sort_of_element element }
{
    match element {
        Element::OfLong => Sort::LongSort,
        Element::OfReference => Sort::ReferenceSort,
        Element::OfInt | Element::OfByte | Element::OfChar | Element::OfShort => Sort::WholeSort,
    }
}

/// iastore and its kin.
pub fn store_element(
    classes: &Classes,
    element: Element,
    world: &mut World,
    next: u32,
    now: &mut Frame,
) -> Act
    ensures { element_stored classes.now element world.old next now.old now.old.stack.values ≡ (world.new, acted result now.new) }
{
    match (now.stack.pop(), now.stack.pop(), now.stack.pop()) {
        (Some(value), Some(Value::Whole(index)), Some(Value::Address(at))) => {
            store_at(classes, element, world, at, index, value, next, now)
        }
        (Some(value), Some(Value::Whole(_)), Some(Value::NullValue)) => {
            if is_of_sort(element_sort(element), value) {
                throw_in(Fault::NullPointer, now)
            } else {
                Act::Fails
            }
        }
        _ => Act::Fails,
    }
}
