//! Inherited member types, as they are gathered.
ghost use Rattle.std.specs.Prelude.{◌≡◌, ℕ, nat_eq};
ghost use Rattle.std.specs.HashSet.{contains};
ghost use Rattle.jc_declares.specs.Knowing.{has_class};

use jc_looking::Inherited;
use jc_rules::{Text, WantOfMemory};
use std::alloc::Global;
use std::collections::HashSet;

/// The member types found so far, and their numbers.
#[derive(Drop)]
pub struct Gathering {
    pub found: Inherited,
    pub classes: HashSet<u64>,
    ghost same: { (q : ℕ) → contains nat_eq classes q ≡ has_class q found },
}

impl Gathering {
    ghost use Rattle.std.specs.Prelude.{◌∷◌, [], ◌++◌, IfOk};

    /// Nothing found.
    pub fn new(alloc: Global) -> Gathering
        ensures { result.found ≡ [] }
    {
        Gathering {
            found: Inherited::new(alloc),
            classes: HashSet::new(alloc),
        }
    }

    /// Whether the class is among them.
    pub fn has(&self, class: u64) -> bool
        ensures { result ≡ has_class class self.now.found }
    {
        self.classes.contains(&class)
    }

    /// These and one more.
    #[tactic(auto, using(crate::proofs::Gathered::class_pushed))]
    pub fn with(self, alloc: Global, name: &Text, class: u64) -> Result<Gathering, WantOfMemory>
        ensures { IfOk result (λ it. it.found ≡ self.found ++ (name.now, class) ∷ []) }
    {
        let Gathering { found, mut classes } = self;
        classes.insert(class)?;
        let found = found.with(alloc, name, class)?;
        Ok(Gathering { found, classes })
    }
}
