//! Locals in scope.
ghost use Rattle.std.specs.Prelude.{◌≡◌, ◌++◌, ◌∷◌, [], None, IfOk, OnErr, OnOk, is_some, length, option_map, take};
ghost use Rattle.std.specs.Option.{option_copied};
ghost use Rattle.jc_exprs_parts_spec.specs.Worlds.{local_in};
ghost use Rattle.jc_exprs_locals.specs.Scoped.{is_named, last_constant, last_type, local_of, locals_of};

use crate::links::{cut, local_named, place_of, push, set_last};
use crate::scoped::{Entry, ScopedLocal};
use jc_rules::WantOfMemory;
use jc_types::{Constant, Ty, copy_type};
use std::alloc::Global;
use std::collections::HashMap;
use std::marker::Model;

/// The locals in scope, in the order in which they were declared.
#[derive(Drop)]
pub struct Locals {
    entries: Vec<Entry>,
    newest: HashMap<String, Option<usize>>,
}

impl Model for Locals {
    ghost use Rattle.std.specs.Prelude.{List};
    ghost use Rattle.std.specs.Coded.{codes};
    ghost use Rattle.std.specs.HashMap.{get_by_text};
    ghost use Rattle.jc_types.specs.contracts.form.Ty as ty;
    ghost use Rattle.jc_exprs_locals.specs.declared.scoped.ScopedLocal.{ScopedLocal};
    ghost use Rattle.jc_exprs_locals.specs.Links.{IsIndexed, locals_in};

    ghost Value = { List ScopedLocal };

    ghost coded = { Prim.hlevel (codes, ty.the_row.coded) };

    ghost view = { λ s. locals_in s.entries.items };

    ghost invariant = { λ s. IsIndexed s.entries.items (get_by_text s.newest) };
}

impl Locals {
    /// No locals.
    pub fn new(alloc: Global) -> Locals
        ensures { result ≡ [] }
    {
        Locals {
            entries: Vec::new(alloc),
            newest: HashMap::new(alloc),
        }
    }

    /// How many are in scope.
    pub fn len(&self) -> usize
        ensures { result ≡ length self.now }
    {
        self.entries.len()
    }

    /// The last one of a name.
    pub fn find(&self, name: &str) -> Option<&ScopedLocal>
        ensures { option_map local_of (option_copied result) ≡ local_in name.now (locals_of self.now) None }
    {
        local_named(self.entries.as_slice(), &self.newest, name)
    }

    /// Whether one of a name is in scope.
    #[tactic(auto, using(crate::proofs::Linked::declared_at))]
    pub fn is_declared(&self, name: &str) -> bool
        ensures { result ≡ is_named name.now (locals_of self.now) }
    {
        place_of(&self.newest, name).is_some()
    }

    /// One more, behind the others. Where memory is lacking, all stay as they were.
    pub fn declare(&mut self, alloc: Global, local: ScopedLocal) -> Result<(), WantOfMemory>
        ensures ok { OnOk result (self.new ≡ self.old ++ local ∷ []) }
        ensures err { OnErr result (self.new ≡ self.old) }
    {
        push(alloc, &mut self.entries, &mut self.newest, local)
    }

    /// Where a scope ends, before which so many were in scope.
    pub fn leave(&mut self, size: usize)
        ensures { self.new ≡ take size self.old }
    {
        cut(&mut self.entries, &mut self.newest, size);
    }

    /// The value of the last one, which keeps it if it is final.
    #[tactic(auto, using(crate::proofs::Linked::last_laws))]
    pub fn set_constant(&mut self, constant: Option<Constant>)
        ensures { locals_of self.new ≡ last_constant constant (locals_of self.old) }
    {
        set_last(&mut self.entries, constant);
    }

    /// The type of the last one.
    #[tactic(auto, using(crate::proofs::Linked::last_typed))]
    pub fn last_type(&self, alloc: Global) -> Result<Ty, WantOfMemory>
        ensures { IfOk result (λ t. t ≡ last_type (locals_of self.now)) }
    {
        match self.entries.last() {
            Some(entry) => copy_type(alloc, &entry.local.ty),
            None => Ok(Ty::NullTy),
        }
    }
}
