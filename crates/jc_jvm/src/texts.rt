//! Texts with their numbers.
ghost use Rattle.std.specs.Prelude.{◌≡◌, ◌∷◌, ◌++◌, [], None, OnOk, OnErr};
ghost use Rattle.std.specs.Str.{bytes_eq};
ghost use Rattle.indexmap.specs.IndexMap.{get_by};
ghost use Rattle.jc_jvm.specs.Numbered.{numbered};

use indexmap::IndexMap;
use jc_rules::WantOfMemory;
use std::alloc::Global;
use std::marker::Model;

/// Texts, each with a number, in the order in which they were added. Contracts see the list. A text is found without walking over the
/// others.
#[derive(Drop)]
pub struct Texts {
    numbers: IndexMap<Vec<u16>, u64>,
}

impl Model for Texts {
    ghost use Rattle.std.specs.Prelude.{ℕ, List, map};
    ghost use Rattle.std.specs.Coded.{coded_list, coded_ℕ, coded×};

    ghost Value = { List (List ℕ × ℕ) };

    ghost coded = { coded_list (coded× (coded_list coded_ℕ) coded_ℕ) };

    ghost view = { λ t. map (λ e. (e.0.items, e.1)) t.numbers.entries };
}

impl Texts {
    pub fn new(alloc: Global) -> Texts
        ensures { result ≡ [] }
    {
        Texts {
            numbers: IndexMap::new(alloc),
        }
    }

    /// The first number of a text.
    pub fn find(&self, text: &[u16]) -> Option<u64>
        ensures { result ≡ numbered text.now self.now }
    {
        look_up(&self.numbers, text)
    }

    /// Adds a text that isn't there yet.
    pub fn add(&mut self, text: Vec<u16>, number: u64) -> Result<(), WantOfMemory>
        requires { numbered text.items self.old ≡ None }
        ensures ok { OnOk result (self.new ≡ self.old ++ (text.items, number) ∷ []) }
        ensures err { OnErr result (self.new ≡ self.old) }
    {
        insert_new(&mut self.numbers, text, number)
    }
}

fn look_up(numbers: &IndexMap<Vec<u16>, u64>, text: &[u16]) -> Option<u64>
    ensures { result ≡ get_by (λ k. bytes_eq text.now k.items) numbers.now }
{
    numbers.get(text).copied()
}

#[tactic(auto, using(crate::proofs::Finds::new_entry))]
fn insert_new(
    numbers: &mut IndexMap<Vec<u16>, u64>,
    text: Vec<u16>,
    number: u64,
) -> Result<(), WantOfMemory>
    requires { get_by (λ k. bytes_eq text.items k.items) numbers.old ≡ None }
    ensures ok { OnOk result (numbers.new.entries ≡ numbers.old.entries ++ (text, number) ∷ []) }
    ensures err { OnErr result (numbers.new.entries ≡ numbers.old.entries) }
{
    match numbers.insert(text, number) {
        Ok(_) => Ok(()),
        Err(_) => Err(WantOfMemory),
    }
}
