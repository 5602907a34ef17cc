//! Superclasses and methods by number, with what each class selects.
ghost use Rattle.std.specs.Prelude.{◌≡◌, IfOk, Some, length};
ghost use Rattle.jc_selecting.specs.Found.{found_on};

use crate::Table;
use crate::tables::tables_of;
use crate::walk::walk;
use jc_rules::{Items, WantOfMemory};
use std::alloc::Global;
use std::marker::Model;

/// Of each class its superclass, and of each of its methods the number that stands for its name and descriptor, where it may be
/// selected. Contracts see both lists.
#[derive(Drop)]
pub struct Selecting {
    parents: Items<Option<u64>>,
    own: Items<Items<Option<u64>>>,
    tables: Vec<Option<Table>>,
}

impl Model for Selecting {
    ghost use Rattle.std.specs.Prelude.{ℕ, List, Option};
    ghost use Rattle.jc_selecting.specs.Found.{AreTables};

    ghost Value = { List (Option ℕ) × List (List (Option ℕ)) };

    ghost view = { λ s. (s.parents, s.own) };

    ghost invariant = { λ s. AreTables s.parents s.own s.tables.items };
}

impl Selecting {
    /// Finds what each class selects.
    pub fn of(
        alloc: Global,
        parents: Items<Option<u64>>,
        own: Items<Items<Option<u64>>>,
    ) -> Result<Selecting, WantOfMemory>
        ensures { IfOk result (λ s. s ≡ (parents, own)) }
    {
        let tables = tables_of(alloc, parents.slice(), own.slice())?;
        Ok(Selecting {
            parents,
            own,
            tables,
        })
    }

    /// The method of this number that an object of a class selects: the first one in the class or else in its superclasses.
    pub fn select(&self, class: u64, number: u64) -> Option<(u64, u64)>
        ensures { result ≡ found_on self.now.0 self.now.1 number (length self.now.0) (Some class) }
    {
        match self.tables.get(class as usize) {
            Some(Some(table)) => table.map.find(number),
            _ => walk(self.parents.slice(), self.own.slice(), class, number),
        }
    }
}
