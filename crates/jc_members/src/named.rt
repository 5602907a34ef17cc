//! Methods by their names.
ghost use Rattle.std.specs.Prelude.{◌≡◌, ◌++◌, ◌∷◌, [], ◌<◌, ℕ, List, cond, IfOk, OnOk, length};
ghost use Rattle.std.specs.Str.{bytes_eq};
ghost use Rattle.jc_types.specs.declared.ids.MethodId.{MethodId};
ghost use Rattle.jc_members.specs.Named.{IsMethodIndex, IsNumbered, ids_in, pushed_at};

use jc_rules::{Items, WantOfMemory};
use jc_types::{MethodId, Names, Table, method_name};
use std::alloc::Global;

/// The methods of each name, in the order of the table.
#[derive(Drop)]
pub struct MethodIndex {
    pub names: Names,
    pub groups: Items<Items<MethodId>>,
}

fn push_at(groups: &mut Vec<Items<MethodId>>, group: u64, id: MethodId) -> Result<(), WantOfMemory>
    ensures { OnOk result (groups.new.items ≡ pushed_at group id groups.old.items) }
{
    match groups.get_mut(group as usize) {
        Some(ids) => ids.push(id),
        None => Ok(()),
    }
}

fn one(alloc: Global, id: MethodId) -> Result<Items<MethodId>, WantOfMemory>
    ensures { IfOk result (λ r. r ≡ id ∷ []) }
{
    let mut ids = Items::new(alloc);
    ids.push(id)?;
    Ok(ids)
}

// Notes a method by its name.
#[tactic(auto, using(crate::proofs::Numbering::numbering))]
fn note(
    alloc: Global,
    names: &mut Names,
    groups: &mut Vec<Items<MethodId>>,
    name: &str,
    id: MethodId,
) -> Result<(), WantOfMemory>
    requires { IsNumbered names.old (length groups.old.items) }
    ensures numbered { OnOk result (IsNumbered names.new (length groups.new.items)) }
    ensures ids { OnOk result ((q : List ℕ) → ids_in names.new groups.new.items q ≡ ids_in names.old groups.old.items q ++ cond (bytes_eq name.now q) (id ∷ []) []) }
{
    match names.find(name) {
        Some(group) => push_at(groups, group, id),
        None => {
            let group = one(alloc, id)?;
            names.add(String::from_str(alloc, name)?, groups.len() as u64)?;
            groups.push(group)?;
            Ok(())
        }
    }
}

/// The methods of a table by their names.
pub fn method_index(alloc: Global, table: &Table) -> Result<MethodIndex, WantOfMemory>
    ensures { IfOk result (λ index. IsMethodIndex table.now index) }
{
    let mut names = Names::new(alloc);
    let mut groups = Vec::new(alloc);
    for i in 0..table.methods.len() {
        let id = MethodId(i as u64);
        note(alloc, &mut names, &mut groups, method_name(table, id), id)?;
    }
    Ok(MethodIndex {
        names,
        groups: Items::of(groups),
    })
}

impl MethodIndex {
    /// The methods of a name.
    pub fn named(&self, name: &str) -> &[MethodId]
        ensures { result.now ≡ ids_in self.now.names self.now.groups name.now }
    {
        match self.names.find(name) {
            Some(group) => match self.groups.get(group as usize) {
                Some(ids) => ids.slice(),
                None => &[],
            },
            None => &[],
        }
    }
}
