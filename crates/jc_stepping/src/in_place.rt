//! What a row does in place: on the frame and on what all frames share, where they lie.
ghost use Rattle.std.specs.Prelude.{◌≡◌, MatchOption, Some, None};
ghost use Rattle.jc_jvm.specs.Objects.{field_pushed};
ghost use Rattle.jc_jvm.specs.Table.{static_kept};
ghost use Rattle.jc_jvm.specs.Worlds.{interned_in, state_of_class, statics_at};
ghost use Rattle.jc_plain.specs.Acted.{acted};
ghost use Rattle.jc_stepping.specs.InPlace.{if_open, literal_known, in_place};
ghost use Rattle.jc_waiting.specs.Readying.{is_open as open_by};

use crate::fields::keep_static;
use crate::switches::switch;
use jc_heap::{
    Classes, array_length, cast, interned, load_element, load_field, push_field, store_element,
    store_field, test_kind,
};
use jc_jvm::{Frame, Sort, Value, World};
use jc_plain::{Act, act_plain, push};
use jc_rows::Row;
use jc_waiting::is_open;

fn push_known(text: &[u16], next: u32, now: &mut Frame, world: &World) -> Option<Act>
    ensures { MatchOption result ((literal_known world.now next now.old (interned_in world.now.interned text.now) ≡ None) × (now.new ≡ now.old)) (λ act. literal_known world.now next now.old (interned_in world.now.interned text.now) ≡ Some (world.now, acted act now.new)) }
{
    match interned(world, text) {
        Some(address) => Some(push(next, now, Value::Address(address))),
        None => None,
    }
}

fn push_static(
    sort: Sort,
    class: u64,
    field: u64,
    next: u32,
    now: &mut Frame,
    world: &World,
) -> Option<Act>
    ensures { let done = if_open (open_by (state_of_class world.now class)) (world.now, field_pushed sort next now.old now.old.stack.values (statics_at world.now (class, field))) in MatchOption result ((done ≡ None) × (now.new ≡ now.old)) (λ act. done ≡ Some (world.now, acted act now.new)) }
{
    if is_open(world, class) {
        let value = world.statics.get(class, field);
        Some(push_field(sort, next, now, value))
    } else {
        None
    }
}

fn pop_static(
    sort: Sort,
    class: u64,
    field: u64,
    next: u32,
    now: &mut Frame,
    world: &mut World,
) -> Option<Act>
    ensures { let done = if_open (open_by (state_of_class world.old class)) (static_kept sort world.old next now.old (class, field) now.old.stack.values) in MatchOption result ((done ≡ None) × (world.new ≡ world.old) × (now.new ≡ now.old)) (λ act. done ≡ Some (world.new, acted act now.new)) }
{
    if is_open(world, class) {
        Some(keep_static(sort, class, field, world, next, now))
    } else {
        None
    }
}

/// What a row does in place, which takes no memory; None, and nothing done, where it isn't done so.
#[inline(always)]
pub fn act_in_place(
    classes: &Classes,
    row: &Row,
    next: u32,
    now: &mut Frame,
    world: &mut World,
) -> Option<Act>
    ensures { MatchOption result ((in_place classes.now world.old next now.old row.now ≡ None) × (world.new ≡ world.old) × (now.new ≡ now.old)) (λ act. in_place classes.now world.old next now.old row.now ≡ Some (world.new, acted act now.new)) }
{
    match row {
        Row::Alone(plain) => Some(act_plain(*plain, next, now)),
        Row::Literal(text) => push_known(text.slice(), next, now, world),
        Row::LoadElement(element) => Some(load_element(*element, world, next, now)),
        Row::StoreElement(element) => Some(store_element(classes, *element, world, next, now)),
        Row::Switch { otherwise, cases } => Some(switch(*otherwise, cases.slice(), now)),
        Row::LoadStatic { sort, class, field } => {
            push_static(*sort, *class, *field, next, now, world)
        }
        Row::StoreStatic { sort, class, field } => {
            pop_static(*sort, *class, *field, next, now, world)
        }
        Row::LoadField { sort, slot } => Some(load_field(*sort, *slot, world, next, now)),
        Row::StoreField { sort, slot } => Some(store_field(*sort, *slot, world, next, now)),
        Row::Length => Some(array_length(world, next, now)),
        Row::Cast(shape) => Some(cast(classes, *shape, world, next, now)),
        Row::Test(shape) => Some(test_kind(classes, *shape, world, next, now)),
        _ => None,
    }
}
