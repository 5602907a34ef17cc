//! Names in numbered spaces.
ghost use Rattle.std.specs.Prelude.{◌≡◌, ◌∷◌, [], ℕ, IfOk, OnOk, replicate, slice_get};
ghost use Rattle.jc_name_index.specs.Spaces.{space_named, has_some, padded, noted, with_first};

use jc_rules::{Text, WantOfMemory};
use jc_types::Names;
use std::alloc::Global;
use std::marker::Model;

/// Of each number some names, each with its first place.
#[derive(Drop)]
pub struct Spaces {
    spaces: Vec<Names>,
}

impl Model for Spaces {
    ghost use Rattle.std.specs.Prelude.{ℕ, List};
    ghost use Rattle.std.specs.Coded.{coded_list, coded_ℕ, coded×};

    ghost Value = { List (List (List ℕ × ℕ)) };

    ghost coded = { coded_list (coded_list (coded× (coded_list coded_ℕ) coded_ℕ)) };

    ghost view = { λ s. s.spaces.items };
}

/// Adds a name to others, unless it is there.
fn add_first(alloc: Global, names: &mut Names, name: &Text, place: u64) -> Result<(), WantOfMemory>
    ensures { OnOk result (names.new ≡ with_first name.now place names.old) }
{
    if names.find(name.str()).is_some() {
        return Ok(());
    }
    names.add(String::from_str(alloc, name.str())?, place)
}

/// Makes spaces without a name until there is this one.
#[tactic(auto, using(crate::proofs::Padded::padded_push))]
fn make(alloc: Global, spaces: &mut Vec<Names>, space: u64) -> Result<(), WantOfMemory>
    ensures { OnOk result (spaces.new.items ≡ padded space spaces.old.items) }
{
    'spaces: while spaces.len() as u64 <= space {
        spaces.push(Names::new(alloc))?;
    }
    Ok(())
}

impl Spaces {
    /// So many spaces without a name.
    pub fn new(alloc: Global, count: usize) -> Result<Spaces, WantOfMemory>
        ensures { IfOk result (λ it. it ≡ replicate count []) }
    {
        let mut spaces = Vec::new(alloc);
        for _ in 0..count {
            spaces.push(Names::new(alloc))?;
        }
        Ok(Spaces { spaces })
    }

    /// The first place that was noted for a name in a space.
    pub fn find(&self, space: u64, name: &str) -> Option<u64>
        ensures { result ≡ space_named self.now space name.now }
    {
        match self.spaces.get(space as usize) {
            Some(names) => names.find(name),
            None => None,
        }
    }

    /// Whether a name was noted in a space.
    pub fn has_names(&self, space: u64) -> bool
        ensures { result ≡ has_some (slice_get self.now space) }
    {
        match self.spaces.get(space as usize) {
            Some(names) => names.len() != 0,
            None => false,
        }
    }

    /// Notes a name in a space, unless it is there.
    pub fn note(
        &mut self,
        alloc: Global,
        space: u64,
        name: &Text,
        place: u64,
    ) -> Result<(), WantOfMemory>
        ensures { OnOk result (self.new ≡ noted space name.now place self.old) }
    {
        make(alloc, &mut self.spaces, space)?;
        match self.spaces.get_mut(space as usize) {
            Some(names) => add_first(alloc, names, name, place),
            None => Ok(()),
        }
    }
}
