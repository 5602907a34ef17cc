//! Type states (JVMS 4.10.1.4).
ghost use Rattle.std.specs.Prelude.{◌≡◌, ◌∷◌, [], ◌+◌, ◌≤◌, ◌++◌, IfOk, MatchOption, Some, None, length, map, nat_le, reverse, slice_get, slice_set, vec_capacity, false};
ghost use Rattle.std.specs.Bool.{OnTrue};
ghost use Rattle.std.specs.List.{list_any};
ghost use Rattle.std.specs.Option.{option_map};
ghost use Rattle.jc_class_out.specs.Forms.{same_item};
ghost use Rattle.jc_frames_types.specs.Items.{item_of};
ghost use Rattle.jc_frames_types.specs.States.{Does, with_stack, with_locals, within_limit, all_units, units_of as units_in, locals_from, swapped, substituted, state_of, goes_to as goes_by};

use crate::frames::{locals_go, stack_goes, tells_pending};
use crate::units::{is_same, unit_of};
use crate::{Supertypes, UnitType};
use jc_class_out::{Frame, Item};
use jc_rules::WantOfMemory;
use std::alloc::Global;
use std::marker::Model;

/// What is known of the locals and of the stack before an instruction (JVMS 4.10.1.4), one type for each unit. The room for the stack is made
/// with it, so a push takes no memory.
#[derive(Debug, Drop)]
pub struct TypeState<'a> {
    locals: Vec<UnitType<'a>>,
    stack: Vec<UnitType<'a>>,
    limit: usize,
    pending: bool,
}

impl<'a> Model for TypeState<'a> {
    ghost use Rattle.std.specs.Prelude.{◌≤◌, length, map, reverse, vec_capacity};
    ghost use Rattle.jc_frames_types.specs.Items.{item_of};
    ghost use Rattle.jc_frames_types.specs.States.{TypeState as State};

    ghost Value = { State };

    ghost view = { λ s. record { locals = map item_of s.locals.items; stack = reverse (map item_of s.stack.items); limit = s.limit; pending = s.pending } };

    ghost invariant = { λ s. (length s.stack.items ≤ s.limit) × (s.limit ≤ vec_capacity s.stack) };
}

/// The units of a type at the end, where there are at most so many then.
fn put_one<'a>(units: &mut Vec<UnitType<'a>>, most: usize, unit: UnitType<'a>) -> bool
    requires room { most ≤ vec_capacity units.old }
    requires few { length units.old.items ≤ most }
    ensures room { vec_capacity units.new ≡ vec_capacity units.old }
    ensures few { length units.new.items ≤ most }
    ensures fits { result ≡ nat_le (length units.old.items + length (units_in (item_of unit.entry))) most }
    ensures units { OnTrue result (map item_of units.new.items ≡ map item_of units.old.items ++ units_in (item_of unit.entry)) }
{
    if most - units.len() < 1 {
        return false;
    }
    if !matches!(unit, UnitType::Long) {
        units.push_reserved(unit);
        return true;
    }
    if most - units.len() < 2 {
        return false;
    }
    units.push_reserved(unit);
    units.push_reserved(UnitType::Top);
    true
}

/// The units of all items, where there are at most so many.
fn put_units<'a>(units: &mut Vec<UnitType<'a>>, most: usize, items: &'a [Item]) -> bool
    requires room { most ≤ vec_capacity units.old }
    requires empty { units.old.items ≡ [] }
    ensures room { vec_capacity units.new ≡ vec_capacity units.old }
    ensures few { length units.new.items ≤ most }
    ensures fits { result ≡ nat_le (length (all_units items.now)) most }
    ensures units { OnTrue result (map item_of units.new.items ≡ all_units items.now) }
{
    let mut rest = items;
    while let [item, more @ ..] = rest {
        if !put_one(units, most, unit_of(item)) {
            return false;
        }
        rest = more;
    }
    true
}

/// Tops at the end, until there are so many units.
fn fill(units: &mut Vec<UnitType<'_>>, count: usize)
    requires { count ≤ vec_capacity units.old }
    ensures room { vec_capacity units.new ≡ vec_capacity units.old }
    ensures units { map item_of units.new.items ≡ locals_from count (map item_of units.old.items) }
{
    let missing = count.saturating_sub(units.len());
    for filled in 0..missing {
        units.push_reserved(UnitType::Top);
    }
}

fn has_unit(units: &[UnitType<'_>], unit: UnitType<'_>) -> bool
    ensures { result ≡ list_any (same_item (item_of unit.entry)) (map item_of units.now) }
{
    let mut rest = units;
    while let [other, more @ ..] = rest {
        if is_same(unit, *other) {
            return true;
        }
        rest = more;
    }
    false
}

/// Another type in place of one.
fn replace<'a>(units: &mut Vec<UnitType<'a>>, old: UnitType<'a>, new: UnitType<'a>)
    ensures room { vec_capacity units.new ≡ vec_capacity units.old }
    ensures units { map item_of units.new.items ≡ map (swapped (item_of old.entry) (item_of new.entry)) (map item_of units.old.items) }
{
    for at in 0..units.len() {
        if is_same(units[at], old) {
            units[at] = new;
        }
    }
}

impl<'a> TypeState<'a> {
    /// The state that a frame tells, in code with so many locals and so many units of stack; None where the frame has no room.
    #[tactic(auto, unfolding(crate::specs::States::state_of), using(crate::proofs::Seen::unit_rules))]
    pub fn of_frame(
        alloc: Global,
        count: usize,
        limit: usize,
        frame: &'a Frame,
    ) -> Result<Option<TypeState<'a>>, WantOfMemory>
        ensures { IfOk result (λ state. MatchOption state (state_of count limit frame.now ≡ None) (λ s. state_of count limit frame.now ≡ Some s)) }
    {
        let mut locals = Vec::with_capacity(alloc, count)?;
        let mut stack = Vec::with_capacity(alloc, limit)?;
        if !put_units(&mut locals, count, frame.locals.slice()) {
            return Ok(None);
        }
        if !put_units(&mut stack, limit, frame.stack.slice()) {
            return Ok(None);
        }
        fill(&mut locals, count);
        Ok(Some(TypeState {
            locals,
            stack,
            limit,
            pending: tells_pending(frame.locals.slice()),
        }))
    }

    pub fn is_pending(&self) -> bool
        ensures { result ≡ self.now.pending }
    {
        self.pending
    }

    /// Says that `this` is initialised now.
    pub fn settle(&mut self)
        ensures { self.new ≡ record self.old { pending = false } }
    {
        self.pending = false;
    }

    /// Puts a unit on top, and tells whether there was room for it.
    #[tactic(auto, using(crate::proofs::Seen::unit_rules))]
    pub fn push_unit(&mut self, unit: UnitType<'a>) -> bool
        ensures { Does result (within_limit (item_of unit.entry ∷ self.old.stack) self.old) self.new }
    {
        if self.stack.len() >= self.limit {
            return false;
        }
        self.stack.push_reserved(unit);
        true
    }

    /// Takes the unit on top.
    #[tactic(auto, using(crate::proofs::Seen::unit_rules))]
    pub fn pop_unit(&mut self) -> Option<UnitType<'a>>
        ensures kept { self.new ≡ with_stack self.new.stack self.old }
        ensures top { MatchOption result ((self.old.stack ≡ []) × (self.new.stack ≡ [])) (λ u. self.old.stack ≡ item_of u ∷ self.new.stack) }
    {
        self.stack.pop()
    }

    /// Takes all units of the stack away.
    pub fn clear(&mut self)
        ensures { self.new ≡ with_stack [] self.old }
    {
        self.stack.clear();
    }

    /// How many units the locals have.
    #[tactic(auto, using(crate::proofs::Seen::unit_rules))]
    pub fn local_count(&self) -> usize
        ensures { result ≡ length self.now.locals }
    {
        self.locals.len()
    }

    /// The type of a local.
    #[tactic(auto, using(crate::proofs::Seen::unit_rules))]
    pub fn local(&self, at: usize) -> Option<UnitType<'a>>
        ensures { option_map item_of result ≡ slice_get self.now.locals at }
    {
        self.locals.get(at).copied()
    }

    /// Whether the state goes where the frame stands.
    #[tactic(auto, using(crate::proofs::Seen::unit_rules))]
    pub fn goes_to(&self, types: &Supertypes<'_>, frame: &Frame) -> bool
        ensures { result ≡ goes_by types.now frame.now self.now }
    {
        locals_go(types, self.locals.as_slice(), frame.locals.slice())
            && (stack_goes(types, self.stack.as_slice(), frame.stack.slice())
                && (!self.pending || tells_pending(frame.locals.slice())))
    }

    /// Whether such a unit is on the stack.
    #[tactic(auto, using(crate::proofs::Seen::unit_rules))]
    pub fn has_on_stack(&self, unit: UnitType<'_>) -> bool
        ensures { result ≡ list_any (same_item (item_of unit.entry)) (reverse self.now.stack) }
    {
        has_unit(self.stack.as_slice(), unit)
    }

    /// Another type in place of one.
    #[tactic(auto, using(crate::proofs::Seen::mapped_rules))]
    pub fn substitute(&mut self, old: UnitType<'a>, new: UnitType<'a>)
        ensures { self.new ≡ substituted (item_of old.entry) (item_of new.entry) self.old }
    {
        replace(&mut self.locals, old, new);
        replace(&mut self.stack, old, new);
    }

    /// Whether the stack has room for a unit.
    pub fn has_room(&self) -> bool
        ensures { result ≡ nat_le 1 self.now.limit }
    {
        1 <= self.limit
    }

    /// Whether the state goes where the frame stands with an exception of this class alone on its stack, and with `this` as pending as that says.
    #[tactic(auto, using(crate::proofs::Seen::unit_rules))]
    pub fn throws_to(
        &self,
        types: &Supertypes<'_>,
        pending: bool,
        class: &[u16],
        frame: &Frame,
    ) -> bool
        ensures { result ≡ goes_by types.now frame.now (record self.now { stack = Item.Object class.now ∷ []; pending = pending }) }
    {
        let thrown = [UnitType::Object(class)];
        locals_go(types, self.locals.as_slice(), frame.locals.slice())
            && (stack_goes(types, thrown.as_slice(), frame.stack.slice())
                && (!pending || tells_pending(frame.locals.slice())))
    }

    /// Changes the type of a local, if there is such a local.
    #[tactic(auto, using(crate::proofs::Seen::unit_rules))]
    pub fn set_local(&mut self, at: usize, unit: UnitType<'a>)
        ensures { self.new ≡ with_locals (slice_set self.old.locals at (item_of unit.entry)) self.old }
    {
        if at < self.locals.len() {
            self.locals[at] = unit;
        }
    }
}
