//! Types of objects and arrays.
ghost use Rattle.std.specs.Prelude.{◌≡◌, ◌∷◌, ◌≤◌, slice_get};
ghost use Rattle.jc_jvm.specs.Objects.{cast_to, truth};
ghost use Rattle.jc_jvm.specs.Table.{casts, tests};
ghost use Rattle.jc_jvm.specs.Frames.{leaves};
ghost use Rattle.jc_jvm.specs.Stacked.{units_in};
ghost use Rattle.jc_jvm.specs.Types.{fits as value_fits, is_cell_below};
ghost use Rattle.jc_plain.specs.Acted.{acted};

use crate::Classes;
use jc_jvm::{Base, Cell, Cells, Fault, Frame, Shape, Value, World};
use jc_plain::{Act, go_to, push, throw_in};

fn fits_cell(classes: &Classes, heap: &Cells, shape: Shape, at: u64) -> bool
    ensures { result ≡ is_cell_below classes.now shape (slice_get heap.now at) }
{
    match heap.get(at) {
        Some(Cell::Instance { class, .. }) => {
            let own = Shape {
                base: Base::Class(*class),
                dims: 0,
            };
            classes.is_shape_below(own, shape)
        }
        Some(Cell::Array { of, .. }) => classes.is_array_below(*of, shape),
        None => false,
    }
}

/// Whether a value may go where a reference of this type is wanted: null may everywhere.
pub fn fits(classes: &Classes, heap: &Cells, shape: Shape, value: Value) -> bool
    ensures { result ≡ value_fits classes.now heap.now shape value }
{
    match value {
        Value::Address(at) => fits_cell(classes, heap, shape, at),
        Value::NullValue => true,
        Value::Whole(_) | Value::Long(_) => false,
    }
}

// What was taken from the stack goes back onto it.
fn put_back(next: u32, now: &mut Frame, value: Value) -> Act
    requires { units_in (value ∷ now.old.stack.values) ≤ now.old.stack.limit }
    ensures { leaves next now.old (value ∷ now.old.stack.values) ≡ acted result now.new }
{
    if now.stack.push(value) {
        go_to(next, now)
    } else {
        Act::Fails
    }
}

fn cast_object(
    classes: &Classes,
    shape: Shape,
    world: &World,
    at: u64,
    next: u32,
    now: &mut Frame,
) -> Act
    requires { units_in (Value.Address at ∷ now.old.stack.values) ≤ now.old.stack.limit }
    ensures { cast_to classes.now shape world.now next now.old at now.old.stack.values ≡ acted result now.new }
{
    if fits(classes, &world.heap, shape, Value::Address(at)) {
        put_back(next, now, Value::Address(at))
    } else {
        throw_in(Fault::ClassCast, now)
    }
}

/// checkcast. Null passes before the type is asked for.
pub fn cast(
    classes: &Classes,
    shape: Option<Shape>,
    world: &World,
    next: u32,
    now: &mut Frame,
) -> Act
    ensures { casts classes.now world.now next now.old shape now.old.stack.values ≡ acted result now.new }
{
    match (now.stack.pop(), shape) {
        (Some(Value::NullValue), _) => put_back(next, now, Value::NullValue),
        (Some(Value::Address(at)), Some(shape)) => cast_object(
            classes, shape, world, at, next, now,
        ),
        _ => Act::Fails,
    }
}

fn truth_of(test: bool) -> Value
    ensures { result ≡ truth test }
{
    if test {
        Value::Whole(1)
    } else {
        Value::Whole(0)
    }
}

/// instanceof. Null is of no type.
pub fn test_kind(
    classes: &Classes,
    shape: Option<Shape>,
    world: &World,
    next: u32,
    now: &mut Frame,
) -> Act
    ensures { tests classes.now world.now next now.old shape now.old.stack.values ≡ acted result now.new }
{
    match (now.stack.pop(), shape) {
        (Some(Value::NullValue), _) => push(next, now, truth_of(false)),
        (Some(Value::Address(at)), Some(shape)) => {
            push(
                next,
                now,
                truth_of(fits(classes, &world.heap, shape, Value::Address(at))),
            )
        }
        _ => Act::Fails,
    }
}
