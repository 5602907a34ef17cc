//! New objects.
ghost use Rattle.std.specs.Prelude.{◌≡◌, IfOk, OnErr};
ghost use Rattle.jc_jvm.specs.Objects.{object_made};
ghost use Rattle.jc_jvm.specs.Worlds.{with_object, next_address};
ghost use Rattle.jc_plain.specs.Acted.{acted};

use crate::Classes;
use jc_jvm::{Cell, Frame, Slots, Value, World};
use jc_plain::{Act, push};
use jc_rules::WantOfMemory;
use std::alloc::Global;

/// A new object of a class, whose fields hold their zeros, and its address. Where memory is lacking nothing is made.
pub fn make_object(
    alloc: Global,
    classes: &Classes,
    class: u64,
    world: &mut World,
) -> Result<u64, WantOfMemory>
    ensures ok { IfOk result (λ at. (at ≡ next_address world.old) × (world.new ≡ with_object classes.now class world.old)) }
    ensures err { OnErr result (world.new ≡ world.old) }
{
    let fields = classes.new_fields(class).to_vec(alloc)?;
    let address = world.heap.len() as u64;
    world.heap.push(Cell::Instance {
        class,
        fields: Slots::of(fields),
    })?;
    Ok(address)
}

/// new of a class that may have objects and is initialised.
pub fn new_object(
    alloc: Global,
    classes: &Classes,
    class: u64,
    world: &mut World,
    next: u32,
    now: &mut Frame,
) -> Result<Act, WantOfMemory>
    ensures { IfOk result (λ act. object_made classes.now class world.old next now.old ≡ (world.new, acted act now.new)) }
{
    let address = make_object(alloc, classes, class, world)?;
    Ok(push(next, now, Value::Address(address)))
}
