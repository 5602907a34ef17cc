//! What all declarations are warned of.
ghost use Rattle.std.specs.Prelude.{◌≡◌, IfOk, OnOk};
ghost use Rattle.jc_overriding.specs.Viewing.{own_type};
ghost use Rattle.jc_members.specs.Named.{IsMethodIndex};
ghost use Rattle.jc_members.specs.Supertypes.{IsSupertypes};
ghost use Rattle.jc_method_rules.specs.Owned.{IsOwnerIndex, standing};
ghost use Rattle.jc_unchecked_spec.specs.Heads.{class_warned, method_warned};
ghost use Rattle.jc_unchecked_list.specs.Telling.{each_told};

use crate::classes::tell_class;
use crate::methods::tell_method;
use jc_members::{MethodIndex, Supertypes, method_index, own_supertypes, owner};
use jc_method_rules::{OwnerIndex, owner_index, standing};
use jc_rules::{Items, WantOfMemory};
use jc_types::{ClassId, MethodId, Table};
use jc_unchecked_spec::Warning;
use std::alloc::Global;

fn tell_classes(
    alloc: Global,
    table: &Table,
    index: &MethodIndex,
    owners: &OwnerIndex,
    out: &mut Items<Warning>,
) -> Result<(), WantOfMemory>
    requires index { IsMethodIndex table.now index.now }
    requires owners { IsOwnerIndex table.now owners.now }
    ensures { OnOk result (out.new ≡ each_told (class_warned table.now) 0 table.now.classes out.old) }
{
    let classes = table.classes.slice();
    for number in 0..classes.len() {
        let k = ClassId(number as u64);
        tell_class(alloc, table, index, owners, k, &classes[number], out)?;
    }
    Ok(())
}

// The supertypes of class k: the last ones, where they are those of it.
fn supertypes_or(
    alloc: Global,
    table: &Table,
    last: Supertypes,
    of: ClassId,
    k: ClassId,
) -> Result<Supertypes, WantOfMemory>
    requires known { IsSupertypes table.now last }
    requires own { last.of ≡ own_type table.now of }
    ensures known { IfOk result (λ s. IsSupertypes table.now s) }
    ensures own { IfOk result (λ s. s.of ≡ own_type table.now k) }
{
    if of.0 == k.0 {
        return Ok(last);
    }
    own_supertypes(alloc, table, k)
}

// The methods of class k and of those above it: the last ones, where they are those of it.
fn standing_or(
    alloc: Global,
    table: &Table,
    owners: &OwnerIndex,
    above: &Supertypes,
    last: Items<MethodId>,
    of: ClassId,
    k: ClassId,
) -> Result<Items<MethodId>, WantOfMemory>
    requires owners { IsOwnerIndex table.now owners.now }
    requires known { IsSupertypes table.now above.now }
    requires own { above.now.of ≡ own_type table.now k }
    requires last { last ≡ standing table.now of }
    ensures { IfOk result (λ r. r ≡ standing table.now k) }
{
    if of.0 == k.0 {
        return Ok(last);
    }
    standing(alloc, table, owners, above, k)
}

fn tell_methods(
    alloc: Global,
    table: &Table,
    index: &MethodIndex,
    owners: &OwnerIndex,
    out: &mut Items<Warning>,
) -> Result<(), WantOfMemory>
    requires index { IsMethodIndex table.now index.now }
    requires owners { IsOwnerIndex table.now owners.now }
    ensures { OnOk result (out.new ≡ each_told (method_warned table.now) 0 table.now.methods out.old) }
{
    let mut of = ClassId(0);
    let mut above = own_supertypes(alloc, table, of)?;
    let mut all = standing(alloc, table, owners, &above, of)?;
    let methods = table.methods.slice();
    for number in 0..methods.len() {
        let m = MethodId(number as u64);
        let k = owner(table, m);
        above = supertypes_or(alloc, table, above, of, k)?;
        all = standing_or(alloc, table, owners, &above, all, of, k)?;
        of = k;
        let method = &methods[number];
        tell_method(alloc, table, index, &above, all.slice(), m, method, out)?;
    }
    Ok(())
}

/// What all declarations of a table are warned of.
pub fn tell_heads(
    alloc: Global,
    table: &Table,
    out: &mut Items<Warning>,
) -> Result<(), WantOfMemory>
    ensures { OnOk result (out.new ≡ each_told (method_warned table.now) 0 table.now.methods (each_told (class_warned table.now) 0 table.now.classes out.old)) }
{
    let owners = owner_index(alloc, table)?;
    let index = method_index(alloc, table)?;
    tell_classes(alloc, table, &index, &owners, out)?;
    tell_methods(alloc, table, &index, &owners, out)
}
