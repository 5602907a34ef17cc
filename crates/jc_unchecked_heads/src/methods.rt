//! What a method is warned of.
ghost use Rattle.std.specs.Prelude.{◌≡◌, Some, IfOk, OnOk, slice_get};
ghost use Rattle.std.specs.List.{list_any};
ghost use Rattle.std.specs.Option.{option_copied};
ghost use Rattle.jc_overriding.specs.Overriding.{overrides, owner};
ghost use Rattle.jc_overriding.specs.Viewing.{class_view, own_type};
ghost use Rattle.jc_members.specs.Named.{IsMethodIndex};
ghost use Rattle.jc_members.specs.Supertypes.{IsSupertypes};
ghost use Rattle.jc_method_rules.specs.Owned.{standing};
ghost use Rattle.jc_unchecked_spec.specs.Heads.{method_warned, overrides_open};
ghost use Rattle.jc_unchecked_list.specs.Telling.{told};
ghost use Rattle.jc_unchecked_heads.specs.Asked.{is_over_open};

use crate::picking::shorter;
use crate::results::are_open;
use jc_members::{
    MethodIndex, MethodView, Supertypes, is_instance, method_in, owner, signature_below,
};
use jc_rules::{Items, WantOfMemory};
use jc_types::{MethodDecl, MethodId, Table, method_name};
use jc_unchecked_list::tell_if;
use jc_unchecked_spec::{Warning, WarningKind};
use std::alloc::Global;

// Whether method m, which its class has as `a`, overrides method n. The supertypes are those of that class.
#[tactic(auto, using(jc_members::proofs::Replacing::replacing, jc_method_rules::proofs::Paired::overrides_no_other))]
fn overrides_in(
    alloc: Global,
    table: &Table,
    above: &Supertypes,
    a: Option<&MethodView>,
    m: MethodId,
    n: MethodId,
) -> Result<bool, WantOfMemory>
    requires known { IsSupertypes table.now above.now }
    requires own { above.now.of ≡ own_type table.now (owner table.now m) }
    requires is { option_copied a ≡ class_view table.now (owner table.now m) m }
    ensures { IfOk result (λ r. r ≡ overrides table.now m n) }
{
    if method_name(table, n) != method_name(table, m) {
        return Ok(false);
    }
    if !is_instance(table, m) || !is_instance(table, n) {
        return Ok(false);
    }
    signature_below(alloc, table, above, owner(table, m), a, n)
}

// Whether method m overrides method n with a result that isn't below n's.
#[tactic(auto, unfolding(crate::specs::Asked::is_over_open))]
fn is_over_open(
    alloc: Global,
    table: &Table,
    above: &Supertypes,
    a: Option<&MethodView>,
    m: MethodId,
    n: MethodId,
) -> Result<bool, WantOfMemory>
    requires known { IsSupertypes table.now above.now }
    requires own { above.now.of ≡ own_type table.now (owner table.now m) }
    requires is { option_copied a ≡ class_view table.now (owner table.now m) m }
    ensures { IfOk result (λ r. r ≡ is_over_open table.now m n) }
{
    if !overrides_in(alloc, table, above, a, m, n)? {
        return Ok(false);
    }
    are_open(alloc, table, above, owner(table, m), m, n)
}

// Whether method m overrides a method with a result that isn't below that one's. `ids` are enough to tell it.
fn overrides_open_one(
    alloc: Global,
    table: &Table,
    above: &Supertypes,
    a: Option<&MethodView>,
    m: MethodId,
    ids: &[MethodId],
) -> Result<bool, WantOfMemory>
    requires known { IsSupertypes table.now above.now }
    requires own { above.now.of ≡ own_type table.now (owner table.now m) }
    requires is { option_copied a ≡ class_view table.now (owner table.now m) m }
    requires enough { list_any (is_over_open table.now m) ids.now ≡ overrides_open table.now m 0 table.now.methods }
    ensures { IfOk result (λ r. r ≡ overrides_open table.now m 0 table.now.methods) }
{
    let mut rest = ids;
    while let [n, more @ ..] = rest {
        if is_over_open(alloc, table, above, a, m, *n)? {
            return Ok(true);
        }
        rest = more;
    }
    Ok(false)
}

// The same, where `all` are the methods of its class and of those above it.
fn overrides_open(
    alloc: Global,
    table: &Table,
    index: &MethodIndex,
    above: &Supertypes,
    all: &[MethodId],
    m: MethodId,
    method: &MethodDecl,
) -> Result<bool, WantOfMemory>
    requires index { IsMethodIndex table.now index.now }
    requires known { IsSupertypes table.now above.now }
    requires own { above.now.of ≡ own_type table.now (owner table.now m) }
    requires all { all.now ≡ standing table.now (owner table.now m) }
    requires at { slice_get table.now.methods m.0 ≡ Some method.now }
    ensures { IfOk result (λ r. r ≡ overrides_open table.now m 0 table.now.methods) }
{
    let a = method_in(alloc, table, above, m)?;
    let named = index.named(method.name.str());
    let ids = shorter(named, all);
    overrides_open_one(alloc, table, above, a.as_ref(), m, ids)
}

/// What a method is warned of, of whose class these are the supertypes, and `all` the methods of it and of the classes above it.
pub fn tell_method(
    alloc: Global,
    table: &Table,
    index: &MethodIndex,
    above: &Supertypes,
    all: &[MethodId],
    m: MethodId,
    method: &MethodDecl,
    out: &mut Items<Warning>,
) -> Result<(), WantOfMemory>
    requires index { IsMethodIndex table.now index.now }
    requires known { IsSupertypes table.now above.now }
    requires own { above.now.of ≡ own_type table.now (owner table.now m) }
    requires all { all.now ≡ standing table.now (owner table.now m) }
    requires at { slice_get table.now.methods m.0 ≡ Some method.now }
    ensures { OnOk result (out.new ≡ told (method_warned table.now m.0 method.now) out.old) }
{
    let open = overrides_open(alloc, table, index, above, all, m, method)?;
    tell_if(open, WarningKind::Result, method.place, out)
}
