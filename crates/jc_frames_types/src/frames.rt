//! Frames beside type states (JVMS 4.10.1.4, 4.10.1.6).
ghost use Rattle.std.specs.Prelude.{◌≡◌, map};
ghost use Rattle.std.specs.List.{list_any};
ghost use Rattle.jc_frames_types.specs.Items.{item_of};
ghost use Rattle.jc_frames_types.specs.States.{is_empty, is_this_pending, are_locals_assignable, is_stack_assignable};
ghost use Rattle.jc_frames_types.specs.Taken.{units_used, Goes};

use crate::units::{is_assignable, unit_of};
use crate::{Supertypes, UnitType};
use jc_class_out::Item;

/// How many units an item takes, beside those behind its first one.
fn units_of_item(item: &Item, behind: &[UnitType<'_>]) -> Option<usize>
    ensures { result ≡ units_used item.now behind.now }
{
    match (item, behind) {
        (Item::Long, []) => None,
        (Item::Long, [..]) => Some(2),
        _ => Some(1),
    }
}

/// How many units go where the item is wanted; None where the first ones don't.
#[tactic(auto, using(crate::proofs::Going::going_rules))]
fn units_going(types: &Supertypes<'_>, item: &Item, units: &[UnitType<'_>]) -> Option<usize>
    ensures { Goes types.now item.now units.now result }
{
    match units {
        [] => None,
        [unit, behind @ ..] => {
            if is_assignable(types, *unit, unit_of(item)) {
                units_of_item(item, behind)
            } else {
                None
            }
        }
    }
}

/// Whether an item says that `this` isn't initialised yet.
pub fn tells_pending(items: &[Item]) -> bool
    ensures { result ≡ list_any is_this_pending items.now }
{
    let mut rest = items;
    while let [item, more @ ..] = rest {
        if matches!(item, Item::UninitializedThis) {
            return true;
        }
        rest = more;
    }
    false
}

/// Whether the types of locals may stand where those of a frame are wanted.
#[tactic(auto, unfolding(crate::specs::States::are_locals_assignable))]
pub fn locals_go(types: &Supertypes<'_>, locals: &[UnitType<'_>], items: &[Item]) -> bool
    ensures { result ≡ are_locals_assignable types.now (map item_of locals.now) items.now }
{
    let mut left = locals;
    let mut rest = items;
    while let [item, more @ ..] = rest {
        match units_going(types, item, left) {
            None => return false,
            Some(used) => {
                left = &left[used..];
                rest = more;
            }
        }
    }
    true
}

fn nothing_left(units: &[UnitType<'_>]) -> bool
    ensures { result ≡ is_empty (map item_of units.now) }
{
    match units {
        [] => true,
        [..] => false,
    }
}

/// Whether the types of a stack, the topmost one last, may stand where those of a frame are wanted.
#[tactic(auto, unfolding(crate::specs::States::is_stack_assignable))]
pub fn stack_goes(types: &Supertypes<'_>, stack: &[UnitType<'_>], items: &[Item]) -> bool
    ensures { result ≡ is_stack_assignable types.now (map item_of stack.now) items.now }
{
    let mut left = stack;
    let mut rest = items;
    while let [item, more @ ..] = rest {
        match units_going(types, item, left) {
            None => return false,
            Some(used) => {
                left = &left[used..];
                rest = more;
            }
        }
    }
    nothing_left(left)
}
