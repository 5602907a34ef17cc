//! Operand stacks (JVMS 2.6.2).
ghost use Rattle.std.specs.Prelude.{◌≡◌, ◌≤◌, ◌<◌, [], ◌∷◌, drop, length, reverse, take, MatchOption, MatchBool, IfOk, Some, None};
ghost use Rattle.jc_jvm.specs.Stacked.{pushed, units_of, units_in};
ghost use Rattle.jc_jvm.specs.Types.{sort_of_value};

use crate::Value;
use jc_rules::WantOfMemory;
use std::alloc::Global;
use std::marker::Model;

/// The operand stack of a frame (JVMS 2.6.2). The room for all its units is made with it, so a push takes no memory.
#[derive(Debug, Drop)]
pub struct Operands {
    values: Vec<Value>,
    units: usize,
    limit: usize,
}

impl Model for Operands {
    ghost use Rattle.std.specs.Prelude.{◌≡◌, ◌≤◌, reverse, vec_capacity};
    ghost use Rattle.jc_jvm.specs.Stacked.{Stacked, units_in};

    ghost Value = { Stacked };

    ghost view = { λ s. record { values = reverse s.values.items; limit = s.limit } };

    ghost invariant = { λ s. (s.units ≡ units_in (reverse s.values.items)) × (s.units ≤ s.limit) × (s.limit ≤ vec_capacity s.values) };
}

/// The sorts of values that instructions tell apart.
#[derive(Clone, Copy, Debug, PartialEq, Eq)]
pub enum Sort {
    WholeSort,
    LongSort,
    ReferenceSort,
}

/// The sort of a value.
#[inline(always)]
pub fn sort_of(value: Value) -> Sort
    ensures { result ≡ sort_of_value value }
{
    match value {
        Value::Whole(_) => Sort::WholeSort,
        Value::Long(_) => Sort::LongSort,
        Value::Address(_) | Value::NullValue => Sort::ReferenceSort,
    }
}

#[inline(always)]
fn units(value: Value) -> usize
    ensures { result ≡ units_of value }
{
    match value {
        Value::Long(_) => 2,
        Value::Whole(_) | Value::Address(_) | Value::NullValue => 1,
    }
}

impl Operands {
    /// An empty stack without room.
    pub fn without_room(alloc: Global) -> Operands
        ensures { result ≡ record { values = []; limit = 0 } }
    {
        Operands {
            values: Vec::new(alloc),
            units: 0,
            limit: 0,
        }
    }

    /// An empty stack with room for so many units.
    pub fn with_room(alloc: Global, limit: usize) -> Result<Operands, WantOfMemory>
        ensures { IfOk result (λ s. s ≡ record { values = []; limit = limit }) }
    {
        Ok(Operands {
            values: Vec::with_capacity(alloc, limit)?,
            units: 0,
            limit,
        })
    }

    #[tactic(auto, using(crate::proofs::Units::length_le_units))]
    /// Puts a value on top, and tells whether there was room for it.
    #[inline(always)]
    pub fn push(&mut self, value: Value) -> bool
        ensures { MatchBool result (pushed self.old value ≡ Some self.new) ((pushed self.old value ≡ None) × (self.new ≡ self.old)) }
    {
        let size = units(value);
        if size > self.limit - self.units {
            return false;
        }
        self.values.push_reserved(value);
        self.units += size;
        true
    }

    #[tactic(auto, using(crate::proofs::Units::length_le_units))]
    /// Takes the value on top.
    #[inline(always)]
    pub fn pop(&mut self) -> Option<Value>
        ensures limit { self.new.limit ≡ self.old.limit }
        ensures room { units_in self.old.values ≤ self.old.limit }
        ensures values { MatchOption result ((self.old.values ≡ []) × (self.new.values ≡ [])) (λ top. self.old.values ≡ top ∷ self.new.values) }
    {
        let top = self.values.pop()?;
        self.units -= units(top);
        Some(top)
    }

    /// So many values from the top, the topmost one last; None where there are fewer.
    pub fn top(&self, count: usize) -> Option<&[Value]>
        ensures { MatchOption result (length self.now.values < count) (λ values. (values.now ≡ reverse (take count self.now.values)) × (count ≤ length self.now.values)) }
    {
        let values = self.values.as_slice();
        if count <= values.len() {
            Some(&values[values.len() - count..])
        } else {
            None
        }
    }

    /// Takes so many values from the top away, or all where there are fewer.
    pub fn discard(&mut self, count: usize)
        ensures { self.new ≡ record self.old { values = drop count self.old.values } }
    {
        for taken in 0..count {
            let _top = self.pop();
        }
    }

    /// Says that a stack is within its limit, and does nothing.
    pub fn is_within(&self)
        ensures { units_in self.now.values ≤ self.now.limit }
    {
        let _units = &self.units;
    }

    /// Takes all values away.
    #[inline(always)]
    pub fn clear(&mut self)
        ensures { self.new ≡ record self.old { values = [] } }
    {
        self.values.clear();
        self.units = 0;
    }
}
