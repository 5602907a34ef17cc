//! The methods that a method overrides.
ghost use Rattle.std.specs.Prelude.{◌≡◌, ◌++◌, IfOk, OnOk};
ghost use Rattle.std.specs.Option.{option_copied};
ghost use Rattle.jc_overriding.specs.Overriding.{owner};
ghost use Rattle.jc_overriding.specs.Viewing.{class_view, own_type};
ghost use Rattle.jc_types.specs.Accessors.{method_name_of};
ghost use Rattle.jc_members.specs.Named.{IsMethodIndex, all_named};
ghost use Rattle.jc_members.specs.Supertypes.{IsSupertypes};
ghost use Rattle.jc_entering.specs.Checked.{if_overridden, overridden};

use jc_members::{
    MethodIndex, MethodView, Supertypes, is_instance, method_in, own_supertypes, owner,
    signature_below,
};
use jc_rules::{Items, WantOfMemory};
use jc_types::{MethodId, Table, method_name};
use std::alloc::Global;

// An instance method with the supertypes of its class, and as its class has it.
#[derive(Clone, Copy)]
struct Overriding<'a> {
    table: &'a Table,
    above: &'a Supertypes,
    method: MethodId,
    view: Option<&'a MethodView>,
}

// Adds a method, where that is overridden.
#[tactic(auto, using(jc_members::proofs::Replacing::replacing))]
fn push_if_overridden(
    alloc: Global,
    by: &Overriding,
    n: MethodId,
    out: &mut Items<MethodId>,
) -> Result<(), WantOfMemory>
    requires known { IsSupertypes by.now.table.now by.now.above.now }
    requires own { by.now.above.now.of ≡ own_type by.now.table.now (owner by.now.table.now by.now.method) }
    requires is { option_copied by.now.view ≡ class_view by.now.table.now (owner by.now.table.now by.now.method) by.now.method }
    ensures { OnOk result (out.new ≡ out.old ++ if_overridden by.now.table.now by.now.method n) }
{
    if !is_instance(by.table, by.method) || !is_instance(by.table, n) {
        return Ok(());
    }
    let class = owner(by.table, by.method);
    if !signature_below(alloc, by.table, by.above, class, by.view, n)? {
        return Ok(());
    }
    out.push(n)
}

// Of these methods those that are overridden.
fn overridden_of(
    alloc: Global,
    by: &Overriding,
    ids: &[MethodId],
) -> Result<Items<MethodId>, WantOfMemory>
    requires known { IsSupertypes by.now.table.now by.now.above.now }
    requires own { by.now.above.now.of ≡ own_type by.now.table.now (owner by.now.table.now by.now.method) }
    requires is { option_copied by.now.view ≡ class_view by.now.table.now (owner by.now.table.now by.now.method) by.now.method }
    ensures { IfOk result (λ r. r ≡ overridden by.now.table.now by.now.method ids.now) }
{
    let mut out = Items::new(alloc);
    let mut rest = ids;
    while let [n, more @ ..] = rest {
        push_if_overridden(alloc, by, *n, &mut out)?;
        rest = more;
    }
    Ok(out)
}

/// The methods that a method overrides, which have its name. `index` has the table's methods by their names.
#[tactic(auto, using(crate::proofs::Named::none_overridden))]
pub fn overridden(
    alloc: Global,
    table: &Table,
    index: &MethodIndex,
    method: MethodId,
) -> Result<Items<MethodId>, WantOfMemory>
    requires { IsMethodIndex table.now index.now }
    ensures { IfOk result (λ r. r ≡ overridden table.now method (all_named table.now (method_name_of table.now method))) }
{
    if !is_instance(table, method) {
        return Ok(Items::new(alloc));
    }
    let above = own_supertypes(alloc, table, owner(table, method))?;
    let own = method_in(alloc, table, &above, method)?;
    let view = own.as_ref();
    let by = Overriding {
        table,
        above: &above,
        method,
        view,
    };
    overridden_of(alloc, &by, index.named(method_name(table, method)))
}
