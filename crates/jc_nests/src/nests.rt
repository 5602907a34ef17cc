//! Arrays of arrays.
ghost use Rattle.std.specs.Prelude.{◌≡◌, ◌++◌, ◌+◌, ◌-◌, ◌∷◌, [], length, IfOk, OnOk};
ghost use Rattle.jc_jvm.specs.Objects.{addresses, naturals, nest, nest_made, arrays_made};
ghost use Rattle.jc_jvm.specs.Types.{shallower};
ghost use Rattle.jc_jvm.specs.Worlds.{zeros as zeros_of};
ghost use Rattle.jc_plain.specs.Acted.{acted};

use crate::lengths::{count_arrays, take_lengths, to_naturals};
use jc_heap::{shape_sort, zero};
use jc_jvm::{Cell, Cells, Fault, Frame, Shape, Slots, Value, World};
use jc_plain::{Act, push, throw_in};
use jc_rules::WantOfMemory;
use std::alloc::Global;

fn with_less_dims(shape: Shape) -> Shape
    ensures { result ≡ shallower shape }
{
    Shape {
        base: shape.base,
        dims: shape.dims.saturating_sub(1),
    }
}

fn zeros(alloc: Global, of: Shape, count: usize) -> Result<Slots<Value>, WantOfMemory>
    ensures { IfOk result (λ items. items ≡ zeros_of of count) }
{
    let value = zero(shape_sort(of));
    let mut items = Vec::with_capacity(alloc, count)?;
    for made in 0..count {
        items.push(value)?;
    }
    Ok(Slots::of(items))
}

#[tactic(auto, using(crate::proofs::Taken::addresses_more))]
// So many addresses, each so far behind the one before.
fn addresses_from(
    alloc: Global,
    count: usize,
    far: usize,
    first: usize,
) -> Result<Slots<Value>, WantOfMemory>
    ensures { IfOk result (λ items. items ≡ addresses count far first) }
{
    let mut items = Vec::with_capacity(alloc, count)?;
    let mut at = first;
    for made in 0..count {
        items.push(Value::Address(at as u64))?;
        match at.checked_add(far) {
            Some(next) => at = next,
            None => return Err(WantOfMemory),
        }
    }
    Ok(Slots::of(items))
}

fn make_last(alloc: Global, of: Shape, count: usize, heap: &mut Cells) -> Result<(), WantOfMemory>
    ensures { OnOk result (heap.new ≡ heap.old ++ Cell.Array of (zeros_of of count) ∷ []) }
{
    let items = zeros(alloc, of, count)?;
    heap.push(Cell::Array { of, items })
}

fn make_outer(
    alloc: Global,
    of: Shape,
    count: usize,
    far: usize,
    heap: &mut Cells,
) -> Result<(), WantOfMemory>
    ensures { OnOk result (heap.new ≡ heap.old ++ Cell.Array of (addresses count far (length heap.old + 1)) ∷ []) }
{
    let Some(first) = heap.len().checked_add(1) else {
        return Err(WantOfMemory);
    };
    let items = addresses_from(alloc, count, far, first)?;
    heap.push(Cell::Array { of, items })
}

// The arrays that stand from the heap's end on for an array of these lengths, whose elements have this type.
#[tactic(auto, using(crate::proofs::Nested::nest_lemmas))]
fn make_nest(
    alloc: Global,
    of: Shape,
    lengths: &[usize],
    heap: &mut Cells,
) -> Result<(), WantOfMemory>
    ensures { OnOk result (heap.new ≡ heap.old ++ nest lengths.now of (length heap.old)) }
{
    match lengths {
        [] => Ok(()),
        [count] => make_last(alloc, of, *count, heap),
        [count, _, ..] => {
            let rest = &lengths[1..];
            let inner = with_less_dims(of);
            let many = *count;
            let far = count_arrays(rest)?;
            make_outer(alloc, of, many, far, heap)?;
            for made in 0..many {
                make_nest(alloc, inner, rest, heap)?;
            }
            Ok(())
        }
    }
}

fn push_nest(
    alloc: Global,
    of: Shape,
    lengths: &[i32],
    world: &mut World,
    next: u32,
    now: &mut Frame,
) -> Result<Act, WantOfMemory>
    ensures { IfOk result (λ act. nest_made of world.old next now.old now.old.stack.values (naturals lengths.now) ≡ (world.new, acted act now.new)) }
{
    match to_naturals(alloc, lengths)? {
        Some(numbers) => {
            let address = world.heap.len() as u64;
            make_nest(alloc, of, &numbers, &mut world.heap)?;
            Ok(push(next, now, Value::Address(address)))
        }
        None => Ok(throw_in(Fault::NegativeArraySize, now)),
    }
}

/// multianewarray of an array type, by so many of its dimensions.
pub fn new_nest(
    alloc: Global,
    shape: Shape,
    dims: u8,
    world: &mut World,
    next: u32,
    now: &mut Frame,
) -> Result<Act, WantOfMemory>
    ensures { IfOk result (λ act. arrays_made shape dims world.old next now.old ≡ (world.new, acted act now.new)) }
{
    if dims < 1 || u64::from(dims) > shape.dims {
        return Ok(Act::Fails);
    }
    match take_lengths(alloc, &mut now.stack, usize::from(dims))? {
        Some(lengths) => push_nest(alloc, with_less_dims(shape), &lengths, world, next, now),
        None => Ok(Act::Fails),
    }
}
