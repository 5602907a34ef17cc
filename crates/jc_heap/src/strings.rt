//! Strings, and those of literals.
ghost use Rattle.std.specs.Prelude.{◌≡◌, IfOk, None};
ghost use Rattle.jc_jvm.specs.Objects.{literal_made, literal_pushed};
ghost use Rattle.jc_jvm.specs.Worlds.{with_cell, with_string, string_cell, string_address, chars_cell, next_address, interned_in};
ghost use Rattle.jc_plain.specs.Acted.{acted};
ghost use Rattle.jc_heap.specs.Strings.{StringMade};

use crate::{Classes, StringPlace};
use jc_jvm::{Base, Cell, Frame, Interned, Shape, Slots, Value, World};
use jc_plain::{Act, push};
use jc_rules::{Items, WantOfMemory};
use std::alloc::Global;

fn chars_of(alloc: Global, text: &[u16]) -> Result<Cell, WantOfMemory>
    ensures { IfOk result (λ cell. cell ≡ chars_cell text.now) }
{
    let mut items = Vec::with_capacity(alloc, text.len())?;
    for unit in text {
        items.push(Value::Whole(i32::from(*unit)))?;
    }
    Ok(Cell::Array {
        of: Shape {
            base: Base::Char,
            dims: 0,
        },
        items: Slots::of(items),
    })
}

fn make_string_at(
    alloc: Global,
    classes: &Classes,
    place: StringPlace,
    text: &[u16],
    world: &mut World,
) -> Result<u64, WantOfMemory>
    ensures address { IfOk result (λ at. at ≡ string_address world.old) }
    ensures world { IfOk result (λ at. world.new ≡ with_cell (string_cell classes.now place.class place.slot (next_address world.old)) (with_cell (chars_cell text.now) world.old)) }
{
    let mut fields = Slots::of(classes.new_fields(place.class).to_vec(alloc)?);
    let chars = world.heap.len() as u64;
    fields.set(place.slot, Value::Address(chars));
    world.heap.push(chars_of(alloc, text)?)?;
    let string = world.heap.len() as u64;
    world.heap.push(Cell::Instance {
        class: place.class,
        fields,
    })?;
    Ok(string)
}

/// A new String of a text, and its address; None, and nothing new, where the classes have no String that could hold it.
#[tactic(auto, using(crate::proofs::StringPlaces::no_string))]
pub fn make_string(
    alloc: Global,
    classes: &Classes,
    text: &[u16],
    world: &mut World,
) -> Result<Option<u64>, WantOfMemory>
    ensures { IfOk result (λ made. StringMade classes.now text.now world.old made world.new) }
{
    match classes.string() {
        Some(place) => {
            let string = make_string_at(alloc, classes, place, text, world)?;
            Ok(Some(string))
        }
        None => Ok(None),
    }
}

/// The String of a literal that was used before.
pub fn interned(world: &World, text: &[u16]) -> Option<u64>
    ensures { result ≡ interned_in world.now.interned text.now }
{
    world.interned.find(text)
}

// A string of the constant pool that wasn't used before.
#[tactic(auto, using(crate::proofs::StringPlaces::new_literal))]
fn make_literal(
    alloc: Global,
    classes: &Classes,
    text: &Items<u16>,
    world: &mut World,
    next: u32,
    now: &mut Frame,
) -> Result<Act, WantOfMemory>
    requires { interned_in world.old.interned text.now ≡ None }
    ensures { IfOk result (λ act. literal_made text.now world.old next now.old (with_string classes.now text.now world.old) ≡ (world.new, acted act now.new)) }
{
    match make_string(alloc, classes, text.slice(), world)? {
        Some(address) => {
            world.interned.add(Interned {
                text: text.clone()?,
                address,
            })?;
            Ok(push(next, now, Value::Address(address)))
        }
        None => Ok(Act::Fails),
    }
}

/// A string of the constant pool: equal ones are one object, made at the first use.
pub fn push_literal(
    alloc: Global,
    classes: &Classes,
    text: &Items<u16>,
    world: &mut World,
    next: u32,
    now: &mut Frame,
) -> Result<Act, WantOfMemory>
    ensures { IfOk result (λ act. literal_pushed classes.now text.now world.old next now.old ≡ (world.new, acted act now.new)) }
{
    match interned(world, text.slice()) {
        Some(address) => Ok(push(next, now, Value::Address(address))),
        None => make_literal(alloc, classes, text, world, next, now),
    }
}
