//! Objects, arrays, and the state of a running program.
ghost use Rattle.std.specs.Prelude.{◌≡◌, ◌↔◌, [], ◌∷◌, IsTrue, MatchOption};

use jc_rules::Items;
use jc_running::{Readiness, Shown, Value};
use std::marker::Model;

/// What can still be taken of an input. Contracts see the bytes that are left.
#[derive(Drop)]
pub struct Input {
    bytes: Items<u8>,
    at: usize,
}

impl Model for Input {
    ghost use Rattle.std.specs.Prelude.{List, ℕ, drop};
    ghost use Rattle.std.specs.Coded.{codes};

    ghost Value = { List ℕ };

    ghost coded = { Prim.hlevel codes };

    ghost view = { λ i. drop i.at i.bytes };
}

impl Input {
    pub fn of(bytes: Items<u8>) -> Input
        ensures { result ≡ bytes }
    {
        Input { bytes, at: 0 }
    }

    pub fn is_empty(&self) -> bool
        ensures { IsTrue result ↔ (self.now ≡ []) }
    {
        match self.bytes.slice().get(self.at) {
            Some(_) => false,
            None => true,
        }
    }

    /// Takes the first of the bytes that are left.
    pub fn take(&mut self) -> Option<u8>
        ensures { MatchOption result ((self.old ≡ []) × (self.new ≡ [])) (λ b. self.old ≡ b ∷ self.new) }
    {
        match self.bytes.slice().get(self.at) {
            Some(b) => {
                let byte = *b;
                self.at += 1;
                Some(byte)
            }
            None => None,
        }
    }
}

/// An object with its fields, those of its superclasses first, or an array with its elements. `K` is what it keeps of its type.
#[derive(Drop)]
pub struct Object<K> {
    pub kept: K,
    pub parts: Items<Value>,
}

/// A string that stands for all equal constants (JLS 3.10.5): its UTF-16 units and its address.
#[derive(Drop)]
pub struct Interned {
    pub units: Items<u16>,
    pub address: u64,
}

/// The state of a running program. `K` is what an object keeps of its type, `F` what a running method keeps beside its variables,
/// and `R` what is recorded on the way.
///
/// `locals` are the variables of the running method by their numbers; in an instance method or constructor number 0 is `this`. An
/// address is a place in `heap`, the objects and arrays in the order in which they were made. `classes` tells of each class how
/// far its initialisation is, `statics` has the value of each static field at the field's place.
#[derive(Drop)]
pub struct State<K, F, R> {
    pub locals: Items<Value>,
    pub frame: F,
    pub heap: Items<Object<K>>,
    pub classes: Items<Readiness>,
    pub statics: Items<Value>,
    pub strings: Items<Interned>,
    pub input: Input,
    pub shown: Shown,
    pub record_of: R,
}
