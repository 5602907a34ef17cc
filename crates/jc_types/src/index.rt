//! Names and their places.
ghost use Rattle.std.specs.Prelude.{◌≡◌, [], ◌++◌, ◌∷◌, None, OnOk, OnErr, length, string_bytes};
ghost use Rattle.indexmap.specs.IndexMap.{get_by_text};
ghost use Rattle.jc_types.specs.Names.{named};

use indexmap::IndexMap;
use jc_rules::WantOfMemory;
use std::alloc::Global;
use std::marker::Model;

/// Names and their places, in the order in which they were added. A name is found without walking over the others.
#[derive(Drop)]
pub struct Names {
    entries_by_name: IndexMap<String, u64>,
}

impl Model for Names {
    ghost use Rattle.std.specs.Prelude.{ℕ, List, map, string_bytes};
    ghost use Rattle.std.specs.Coded.{coded_list, coded_ℕ, coded×};

    ghost Value = { List (List ℕ × ℕ) };

    ghost coded = { coded_list (coded× (coded_list coded_ℕ) coded_ℕ) };

    ghost view = { λ n. map (λ e. (string_bytes e.0, e.1)) n.entries_by_name.entries };
}

impl Names {
    pub fn new(alloc: Global) -> Names
        ensures { result ≡ [] }
    {
        Names {
            entries_by_name: IndexMap::new(alloc),
        }
    }

    /// The first place that was added for the name.
    pub fn find(&self, name: &str) -> Option<u64>
        ensures { result ≡ named name.now self.now }
    {
        look_up(&self.entries_by_name, name)
    }

    pub fn len(&self) -> usize
        ensures { result ≡ length self.now }
    {
        count(&self.entries_by_name)
    }

    /// Adds a name that isn't there yet.
    pub fn add(&mut self, name: String, place: u64) -> Result<(), WantOfMemory>
        requires { named (string_bytes name) self.old ≡ None }
        ensures ok { OnOk result (self.new ≡ self.old ++ (string_bytes name, place) ∷ []) }
        ensures err { OnErr result (self.new ≡ self.old) }
    {
        insert_new(&mut self.entries_by_name, name, place)
    }
}

fn look_up(entries: &IndexMap<String, u64>, name: &str) -> Option<u64>
    ensures { result ≡ get_by_text entries.now name.now }
{
    entries.get(name).copied()
}

fn count(entries: &IndexMap<String, u64>) -> usize
    ensures { result ≡ length entries.now.entries }
{
    entries.len()
}

#[tactic(auto, using(crate::proofs::Finds::new_entry))]
fn insert_new(
    entries: &mut IndexMap<String, u64>,
    name: String,
    place: u64,
) -> Result<(), WantOfMemory>
    requires { get_by_text entries.old (string_bytes name) ≡ None }
    ensures ok { OnOk result (entries.new.entries ≡ entries.old.entries ++ (name, place) ∷ []) }
    ensures err { OnErr result (entries.new.entries ≡ entries.old.entries) }
{
    match entries.insert(name, place) {
        Ok(_) => Ok(()),
        Err(_) => Err(WantOfMemory),
    }
}
