//! Inherited member types.
ghost use Rattle.std.specs.Prelude.{◌≡◌, ◌∷◌, [], ◌++◌, IfOk, OnOk};
ghost use Rattle.jc_declares.specs.Looking.{classes, all_named};
ghost use Rattle.jc_name_index.specs.Spaces.{with_first};
ghost use Rattle.jc_types.specs.Names.{named};
ghost use Rattle.jc_looking.specs.Members.{with_repeated};
ghost use Rattle.jc_looking.specs.Sights.{sight_of, class_sight};

use crate::scene::Sight;
use jc_rules::{Items, Text, WantOfMemory};
use jc_tree::copy_text;
use jc_types::Names;
use std::alloc::Global;
use std::marker::Model;

/// The member types that a class inherits (JLS 8.5), with their names, in the order in which they are found. What a name means among them is
/// found without a walk over them.
#[derive(Drop)]
pub struct Inherited {
    members: Items<(Text, u64)>,
    firsts: Names,
    repeated: Names,
}

impl Model for Inherited {
    ghost use Rattle.std.specs.Prelude.{ℕ, List};
    ghost use Rattle.std.specs.Coded.{coded_list, coded_ℕ, coded×};
    ghost use Rattle.jc_looking.specs.Members.{AreNoted};

    ghost Value = { List (List ℕ × ℕ) };

    ghost coded = { coded_list (coded× (coded_list coded_ℕ) coded_ℕ) };

    ghost view = { λ s. s.members };

    ghost invariant = { λ s. AreNoted s.members s.firsts s.repeated };
}

/// Notes a name among the first ones, or else among those that are repeated.
fn note(
    alloc: Global,
    firsts: &mut Names,
    repeated: &mut Names,
    name: &Text,
    class: u64,
) -> Result<(), WantOfMemory>
    ensures firsts { OnOk result (firsts.new ≡ with_first name.now class firsts.old) }
    ensures repeated { OnOk result (repeated.new ≡ with_repeated (named name.now firsts.old) name.now class repeated.old) }
{
    if firsts.find(name.str()).is_none() {
        return firsts.add(String::from_str(alloc, name.str())?, class);
    }
    if repeated.find(name.str()).is_none() {
        return repeated.add(String::from_str(alloc, name.str())?, class);
    }
    Ok(())
}

/// A class, or nothing.
pub fn class_sight(class: Option<u64>) -> Sight
    ensures { result ≡ class_sight class }
{
    match class {
        Some(class) => Sight::Class(class),
        None => Sight::Nothing,
    }
}

impl Inherited {
    pub fn new(alloc: Global) -> Inherited
        ensures { result ≡ [] }
    {
        Inherited {
            members: Items::new(alloc),
            firsts: Names::new(alloc),
            repeated: Names::new(alloc),
        }
    }

    /// These and one more.
    pub fn with(self, alloc: Global, name: &Text, class: u64) -> Result<Inherited, WantOfMemory>
        ensures { IfOk result (λ it. it ≡ self ++ (name.now, class) ∷ []) }
    {
        let Inherited {
            mut members,
            mut firsts,
            mut repeated,
        } = self;
        note(alloc, &mut firsts, &mut repeated, name, class)?;
        let text = copy_text(alloc, name)?;
        members.push((text, class))?;
        Ok(Inherited {
            members,
            firsts,
            repeated,
        })
    }

    /// The member types with their names.
    pub fn members(&self) -> &[(Text, u64)]
        ensures { result.now ≡ self.now }
    {
        self.members.slice()
    }

    /// What a name means among them.
    pub fn sight(&self, name: &str) -> Sight
        ensures { result ≡ sight_of (classes (all_named name.now self.now)) }
    {
        match self.repeated.find(name) {
            Some(_) => Sight::Several,
            None => class_sight(self.firsts.find(name)),
        }
    }
}
