//! The library's native methods, whose calls are a step each.
ghost use Rattle.std.specs.Prelude.{◌≡◌, ◌≤◌, ◌∷◌, [], ◌%◌, ◌&&◌, IfOk, IsTrue, OnErr, drop, is_some, length, reverse, slice_get, take};
ghost use Rattle.std.specs.Int.{w32, cast_unsigned};
ghost use Rattle.std.specs.Option.{option_map};
ghost use Rattle.jc_jvm.specs.Calls.{Moves, Quiet, identity_hash, named, name_made, native_call};
ghost use Rattle.jc_jvm.specs.Types.{shape_of_cell, name_of_shape};
ghost use Rattle.jc_jvm.specs.Worlds.{with_string};
ghost use Rattle.jc_stepping.specs.Done.{KeptWhenAsks, NeverAsks, step_done};
ghost use Rattle.jc_stepping.specs.Makes.{have_strings, native_makes};
ghost use Rattle.jc_waiting.specs.Onwards.{state_of};

use crate::Did;
use crate::act::stuck;
use jc_heap::{Classes, make_string};
use jc_jvm::{Base, Cell, Ending, Frame, Native, Shape, Value, Waiting, World};
use jc_lookups::type_name;
use jc_rules::WantOfMemory;
use jc_waiting::{Onward, Stack, go_on_with};
use std::alloc::Global;

fn hash_of(address: u64) -> Value
    ensures { result ≡ identity_hash address }
{
    Value::Whole((address % 2147483648) as i32)
}

// Want of memory where the dimensions are as many as can be counted: no name is so long.
fn shape_of(cell: &Cell) -> Result<Shape, WantOfMemory>
    ensures { IfOk result (λ shape. shape ≡ shape_of_cell cell.now) }
{
    match cell {
        Cell::Instance { class, .. } => Ok(Shape {
            base: Base::Class(*class),
            dims: 0,
        }),
        Cell::Array { of, .. } => match of.dims.checked_add(1) {
            Some(dims) => Ok(Shape {
                base: of.base,
                dims,
            }),
            None => Err(WantOfMemory),
        },
    }
}

fn shape_at(world: &World, address: u64) -> Result<Option<Shape>, WantOfMemory>
    ensures shape { IfOk result (λ shape. shape ≡ option_map shape_of_cell (slice_get world.now.heap address)) }
    ensures there { OnErr result (IsTrue (is_some (slice_get world.now.heap address))) }
{
    match world.heap.get(address) {
        Some(cell) => {
            let shape = shape_of(cell)?;
            Ok(Some(shape))
        }
        None => Ok(None),
    }
}

fn push_name(
    alloc: Global,
    classes: &Classes,
    shape: Shape,
    next: u32,
    now: &mut Frame,
    world: &mut World,
    waiting: &Stack<Waiting>,
) -> Result<Onward, WantOfMemory>
    ensures step { IfOk result (λ on. name_made classes.now world.old next now.old waiting.now now.old.stack.values (with_string classes.now (name_of_shape classes.now shape) world.old) ≡ Moves Quiet (state_of on world.new now.new waiting.now)) }
{
    let name = type_name(alloc, classes.models(), shape)?;
    match make_string(alloc, classes, name.slice(), world)? {
        Some(string) => Ok(go_on_with(classes, Value::Address(string), next, now, world, waiting)),
        None => Ok(Onward::Ends(Ending::Stuck)),
    }
}

#[tactic(auto, using(crate::proofs::NativeCalls::name_rules))]
fn tell_name(
    alloc: Global,
    classes: &Classes,
    address: u64,
    next: u32,
    now: &mut Frame,
    world: &mut World,
    waiting: &Stack<Waiting>,
) -> Result<Onward, WantOfMemory>
    ensures step { IfOk result (λ on. named classes.now world.old next now.old waiting.now now.old.stack.values (slice_get world.old.heap address) ≡ Moves Quiet (state_of on world.new now.new waiting.now)) }
    ensures memory { OnErr result (IsTrue (have_strings classes.now && is_some (slice_get world.old.heap address))) }
{
    let Some(_place) = classes.string() else {
        return Ok(Onward::Ends(Ending::Stuck));
    };
    match shape_at(world, address)? {
        Some(shape) => push_name(alloc, classes, shape, next, now, world, waiting),
        None => Ok(Onward::Ends(Ending::Stuck)),
    }
}

fn output_byte(n: i32) -> u8
    ensures { result ≡ cast_unsigned w32 n % 256 }
{
    (n.cast_unsigned() % 256) as u8
}

fn call_with_one(
    alloc: Global,
    classes: &Classes,
    native: Native,
    argument: Value,
    next: u32,
    now: &mut Frame,
    world: &mut World,
    waiting: &Stack<Waiting>,
) -> Result<Did, WantOfMemory>
    ensures step { IfOk result (λ did. native_call classes.now world.old next now.old waiting.now native (argument ∷ []) now.old.stack.values ≡ step_done classes.now did world.new now.new waiting.now) }
    ensures kept { IfOk result (λ did. NeverAsks did) }
    ensures memory { OnErr result (IsTrue (native_makes classes.now world.old native (argument ∷ []))) }
{
    match (native, argument) {
        (Native::HashCode, Value::Address(at)) => {
            let on = go_on_with(classes, hash_of(at), next, now, world, waiting);
            Ok(Did::Moves(on))
        }
        (Native::ClassName, Value::Address(at)) => {
            let on = tell_name(alloc, classes, at, next, now, world, waiting)?;
            Ok(Did::Moves(on))
        }
        (Native::Halt, Value::Whole(code)) => Ok(Did::Moves(Onward::Ends(Ending::Exited(code)))),
        (Native::Put, Value::Whole(n)) => {
            now.at = next;
            Ok(Did::Puts {
                byte: output_byte(n),
                on: Onward::Runs,
            })
        }
        _ => Ok(stuck()),
    }
}

fn call_with_none(
    classes: &Classes,
    native: Native,
    next: u32,
    now: &Frame,
    world: &World,
    waiting: &Stack<Waiting>,
) -> Did
    ensures { native_call classes.now world.now next now.now waiting.now native [] now.now.stack.values ≡ step_done classes.now result world.now now.now waiting.now }
{
    match native {
        Native::ReadByte => Did::Asks { next },
        Native::HashCode | Native::ClassName | Native::Halt | Native::Put => stuck(),
    }
}

#[tactic(auto, using(crate::proofs::NativeCalls::native_rules))]
/// The call of a native method with so many arguments from the top of the frame's stack.
pub fn call_native(
    alloc: Global,
    classes: &Classes,
    native: Native,
    count: usize,
    next: u32,
    now: &mut Frame,
    world: &mut World,
    waiting: &Stack<Waiting>,
) -> Result<Did, WantOfMemory>
    requires { count ≤ length now.old.stack.values }
    ensures step { IfOk result (λ did. native_call classes.now world.old next now.old waiting.now native (reverse (take count now.old.stack.values)) (drop count now.old.stack.values) ≡ step_done classes.now did world.new now.new waiting.now) }
    ensures kept { IfOk result (λ did. KeptWhenAsks did world.old now.old waiting.now world.new now.new waiting.now) }
    ensures memory { OnErr result (IsTrue (native_makes classes.now world.old native (reverse (take count now.old.stack.values)))) }
{
    if count == 0 {
        return Ok(call_with_none(classes, native, next, now, world, waiting));
    }
    if count > 1 {
        return Ok(stuck());
    }
    match now.stack.pop() {
        Some(argument) => {
            let did = call_with_one(alloc, classes, native, argument, next, now, world, waiting)?;
            Ok(did)
        }
        None => Ok(stuck()),
    }
}
