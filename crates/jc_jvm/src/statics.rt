//! The static fields of classes.
ghost use Rattle.std.specs.Prelude.{◌≡◌, ◌∷◌, ◌++◌, [], OnOk, OnErr};
ghost use Rattle.jc_jvm.specs.Slotted.{static_in, statics_with};

use crate::{Slots, Value};
use jc_rules::WantOfMemory;
use std::alloc::Global;
use std::marker::Model;

/// A value for each field of each class, of which only the static ones count. Contracts see a list for each class.
#[derive(Debug, Drop)]
pub struct Statics {
    classes: Vec<Slots<Value>>,
}

impl Model for Statics {
    ghost use Rattle.std.specs.Prelude.{List};
    ghost use Rattle.jc_jvm.specs.declared.value.Value.{Value as OneValue};

    ghost Value = { List (List OneValue) };

    ghost view = { λ s. s.classes.items };
}

impl Statics {
    pub fn new(alloc: Global) -> Statics
        ensures { result ≡ [] }
    {
        Statics {
            classes: Vec::new(alloc),
        }
    }

    /// Adds the fields of a class.
    pub fn push(&mut self, fields: Slots<Value>) -> Result<(), WantOfMemory>
        ensures ok { OnOk result (self.new ≡ self.old ++ fields ∷ []) }
        ensures err { OnErr result (self.new ≡ self.old) }
    {
        self.classes.push(fields)?;
        Ok(())
    }

    /// The value of the field of this number in the class of that number.
    pub fn get(&self, class: u64, field: u64) -> Option<Value>
        ensures { result ≡ static_in self.now class field }
    {
        match self.classes.get(class as usize) {
            Some(fields) => fields.get(field as usize),
            None => None,
        }
    }

    pub fn set(&mut self, class: u64, field: u64, value: Value)
        ensures { self.new ≡ statics_with self.old class field value }
    {
        match self.classes.get_mut(class as usize) {
            Some(fields) => {
                fields.set(field as usize, value);
            }
            None => (),
        }
    }
}
