//! Operand stacks (JVMS 2.6.2).
ghost use Rattle.std.specs.Prelude.{◌≡◌, [], ◌∷◌, MatchOption, MatchBool, IfOk, Some, None};
ghost use Rattle.jc_machine.specs.Stacked.{pushed, units_of};

use crate::Value;
use jc_rules::WantOfMemory;
use std::alloc::Global;
use std::marker::Model;

/// The operand stack of a frame (JVMS 2.6.2). The room for all its units is made with it, so a push takes no memory.
#[derive(Debug, Drop)]
pub struct Operands {
    values: Vec<Value>,
    units: usize,
    limit: usize,
}

impl Model for Operands {
    ghost use Rattle.std.specs.Prelude.{◌≡◌, ◌≤◌, reverse, vec_capacity};
    ghost use Rattle.jc_machine.specs.Stacked.{Stacked, units_in};

    ghost Value = { Stacked };

    ghost view = { λ s. record { values = reverse s.values.items; limit = s.limit } };

    ghost invariant = { λ s. (s.units ≡ units_in (reverse s.values.items)) × (s.units ≤ s.limit) × (s.limit ≤ vec_capacity s.values) };
}

fn units(value: Value) -> usize
    ensures { result ≡ units_of value }
{
    match value {
        Value::Long(_) => 2,
        Value::Whole(_) | Value::Address(_) | Value::NullValue => 1,
    }
}

impl Operands {
    /// An empty stack with room for so many units.
    pub fn with_room(alloc: Global, limit: usize) -> Result<Operands, WantOfMemory>
        ensures { IfOk result (λ s. s ≡ record { values = []; limit = limit }) }
    {
        Ok(Operands {
            values: Vec::with_capacity(alloc, limit)?,
            units: 0,
            limit,
        })
    }

    #[tactic(auto, using(crate::proofs::Units::length_le_units))]
    /// Puts a value on top, and tells whether there was room for it.
    pub fn push(&mut self, value: Value) -> bool
        ensures { MatchBool result (pushed self.old value ≡ Some self.new) ((pushed self.old value ≡ None) × (self.new ≡ self.old)) }
    {
        let size = units(value);
        if size > self.limit - self.units {
            return false;
        }
        self.values.push_reserved(value);
        self.units += size;
        true
    }

    #[tactic(auto, using(crate::proofs::Units::length_le_units))]
    /// Takes the value on top.
    pub fn pop(&mut self) -> Option<Value>
        ensures limit { self.new.limit ≡ self.old.limit }
        ensures values { MatchOption result ((self.old.values ≡ []) × (self.new.values ≡ [])) (λ top. self.old.values ≡ top ∷ self.new.values) }
    {
        let top = self.values.pop()?;
        self.units -= units(top);
        Some(top)
    }
}
