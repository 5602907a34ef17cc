//! The Strings of literals.
ghost use Rattle.std.specs.Prelude.{◌≡◌, ◌∷◌, ◌++◌, [], None, OnOk, OnErr};
ghost use Rattle.jc_jvm.specs.Worlds.{interned_in};

use crate::{Interned, Texts};
use jc_rules::WantOfMemory;
use std::alloc::Global;
use std::marker::Model;

/// The literals that were used, in the order of their first uses, with the addresses of their Strings. Contracts see the list. A literal is
/// found without walking over the others.
#[derive(Drop)]
pub struct Literals {
    texts: Texts,
}

impl Model for Literals {
    ghost use Rattle.std.specs.Prelude.{List, map};
    ghost use Rattle.jc_jvm.specs.declared.world.Interned.{Interned};

    ghost Value = { List Interned };

    ghost view = { λ l. map (λ e. record { text = e.0; address = e.1 }) l.texts };
}

impl Literals {
    pub fn new(alloc: Global) -> Literals
        ensures { result ≡ [] }
    {
        Literals {
            texts: Texts::new(alloc),
        }
    }

    /// The address of the String of a literal that was used before.
    pub fn find(&self, text: &[u16]) -> Option<u64>
        ensures { result ≡ interned_in self.now text.now }
    {
        self.texts.find(text)
    }

    /// Adds a literal that wasn't used before.
    pub fn add(&mut self, literal: Interned) -> Result<(), WantOfMemory>
        requires { interned_in self.old literal.text ≡ None }
        ensures ok { OnOk result (self.new ≡ self.old ++ literal ∷ []) }
        ensures err { OnErr result (self.new ≡ self.old) }
    {
        let Interned { text, address } = literal;
        self.texts.add(text.into_vec(), address)
    }
}
