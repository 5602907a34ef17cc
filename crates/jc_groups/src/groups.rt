//! Numbers in numbered groups.
ghost use Rattle.std.specs.Prelude.{◌≡◌, ◌++◌, ◌∷◌, [], OnOk};
ghost use Rattle.jc_groups.specs.Groups.{group_in, padded, grouped};

use jc_rules::{Items, WantOfMemory};
use std::alloc::Global;
use std::marker::Model;

/// Of each number some others, in the order in which they were added.
#[derive(Drop)]
pub struct Groups {
    groups: Vec<Items<u64>>,
}

impl Model for Groups {
    ghost use Rattle.std.specs.Prelude.{ℕ, List};
    ghost use Rattle.std.specs.Coded.{coded_list, coded_ℕ};

    ghost Value = { List (List ℕ) };

    ghost coded = { coded_list (coded_list coded_ℕ) };

    ghost view = { λ g. g.groups.items };
}

/// Makes empty groups until there is this one.
#[tactic(auto, using(crate::proofs::Padded::padded_push))]
fn make(alloc: Global, groups: &mut Vec<Items<u64>>, group: u64) -> Result<(), WantOfMemory>
    ensures { OnOk result (groups.new.items ≡ padded group groups.old.items) }
{
    'groups: while groups.len() as u64 <= group {
        groups.push(Items::new(alloc))?;
    }
    Ok(())
}

impl Groups {
    /// No groups.
    pub fn new(alloc: Global) -> Groups
        ensures { result ≡ [] }
    {
        Groups {
            groups: Vec::new(alloc),
        }
    }

    /// The numbers of a group.
    pub fn group(&self, group: u64) -> &[u64]
        ensures { result.now ≡ group_in self.now group }
    {
        match self.groups.get(group as usize) {
            Some(numbers) => numbers.slice(),
            None => &[],
        }
    }

    /// Adds a number to a group.
    pub fn add(&mut self, alloc: Global, group: u64, number: u64) -> Result<(), WantOfMemory>
        ensures { OnOk result (self.new ≡ grouped group number self.old) }
    {
        make(alloc, &mut self.groups, group)?;
        match self.groups.get_mut(group as usize) {
            Some(numbers) => numbers.push(number),
            None => Ok(()),
        }
    }
}
