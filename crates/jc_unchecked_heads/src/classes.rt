//! What a class or an interface is warned of.
ghost use Rattle.std.specs.Prelude.{◌≡◌, ◌&&◌, not, IfOk, OnOk};
ghost use Rattle.jc_members.specs.Named.{IsMethodIndex};
ghost use Rattle.jc_method_rules.specs.Owned.{IsOwnerIndex};
ghost use Rattle.jc_types.specs.Accessors.{is_interface};
ghost use Rattle.jc_unchecked_spec.specs.Heads.{class_warned, has_raw, selects_open};
ghost use Rattle.jc_unchecked_list.specs.Telling.{told};

use crate::selections::selects_open;
use jc_members::{MethodIndex, own_supertypes};
use jc_method_rules::{OwnerIndex, standing};
use jc_rules::{Items, WantOfMemory};
use jc_types::{ClassDecl, ClassId, Table, Ty, arguments, is_interface};
use jc_unchecked_list::tell_if;
use jc_unchecked_spec::{Warning, WarningKind};
use std::alloc::Global;

fn has_raw(table: &Table, types: &[Ty]) -> bool
    ensures { result ≡ has_raw table.now types.now }
{
    let mut rest = types;
    while let [t, more @ ..] = rest {
        if arguments(table, t).is_none() {
            return true;
        }
        rest = more;
    }
    false
}

// Whether a class, which is no interface, has such a body for a method.
fn is_open_class(
    alloc: Global,
    table: &Table,
    index: &MethodIndex,
    owners: &OwnerIndex,
    k: ClassId,
) -> Result<bool, WantOfMemory>
    requires index { IsMethodIndex table.now index.now }
    requires owners { IsOwnerIndex table.now owners.now }
    ensures { IfOk result (λ r. r ≡ (not (is_interface table.now k) && selects_open table.now k 0 table.now.methods)) }
{
    if is_interface(table, k) {
        return Ok(false);
    }
    let above = own_supertypes(alloc, table, k)?;
    let all = standing(alloc, table, owners, &above, k)?;
    selects_open(alloc, table, index, &above, k, all.slice())
}

/// What a class is warned of.
#[tactic(auto, using(jc_unchecked_list::proofs::Told::telling))]
pub fn tell_class(
    alloc: Global,
    table: &Table,
    index: &MethodIndex,
    owners: &OwnerIndex,
    k: ClassId,
    class: &ClassDecl,
    out: &mut Items<Warning>,
) -> Result<(), WantOfMemory>
    requires index { IsMethodIndex table.now index.now }
    requires owners { IsOwnerIndex table.now owners.now }
    ensures { OnOk result (out.new ≡ told (class_warned table.now k.0 class.now) out.old) }
{
    let raw = has_raw(table, class.supers.types.slice());
    tell_if(raw, WarningKind::RawSupertype, class.place, out)?;
    let open = is_open_class(alloc, table, index, owners, k)?;
    tell_if(open, WarningKind::Result, class.place, out)
}
