//! Which method overrides or hides which (JLS 8.4.8, 9.4.1).
ghost use Rattle.std.specs.Prelude.{◌≡◌, ◌||◌, IfOk};
ghost use Rattle.std.specs.Option.{option_copied};
ghost use Rattle.jc_overriding.specs.Overriding.{hides, overrides, owner, subsignature_of};
ghost use Rattle.jc_overriding.specs.Viewing.{class_view, own_type};
ghost use Rattle.jc_members.specs.Below.{signature_below, replaces};
ghost use Rattle.jc_members.specs.Supertypes.{IsSupertypes};

use crate::fixed::{is_below, is_own_below};
use crate::kinds::{is_inheritable, is_instance, is_method, is_static, owner};
use crate::signatures::subsignature;
use crate::supertypes::{Supertypes, is_above, method_in, own_supertypes};
use jc_overriding::MethodView;
use jc_rules::WantOfMemory;
use jc_types::{ClassId, MethodId, Table};
use std::alloc::Global;

pub fn subsignature_of(
    alloc: Global,
    table: &Table,
    a: Option<&MethodView>,
    b: Option<&MethodView>,
) -> Result<bool, WantOfMemory>
    ensures { IfOk result (λ r. r ≡ subsignature_of table.now (option_copied a.entry) (option_copied b.entry)) }
{
    match a {
        Some(a) => match b {
            Some(b) => subsignature(alloc, table, a, b),
            None => Ok(false),
        },
        None => Ok(false),
    }
}

/// Whether the class of method n is above class k, which may inherit n, and a's signature is a subsignature of n's there. The supertypes
/// are those of class k.
pub fn signature_below(
    alloc: Global,
    table: &Table,
    above: &Supertypes,
    k: ClassId,
    a: Option<&MethodView>,
    n: MethodId,
) -> Result<bool, WantOfMemory>
    requires known { IsSupertypes table.now above.now }
    requires own { above.now.of ≡ own_type table.now k }
    ensures { IfOk result (λ r. r ≡ signature_below table.now k (option_copied a.entry) n) }
{
    if !is_above(alloc, table, above, k, owner(table, n))? {
        return Ok(false);
    }
    if !is_inheritable(table, k, n) {
        return Ok(false);
    }
    is_below(alloc, table, above, k, a, n)
}

// The same of method m's signature as class k has it.
fn own_signature_below(
    alloc: Global,
    table: &Table,
    above: &Supertypes,
    k: ClassId,
    m: MethodId,
    n: MethodId,
) -> Result<bool, WantOfMemory>
    requires known { IsSupertypes table.now above.now }
    requires own { above.now.of ≡ own_type table.now k }
    ensures { IfOk result (λ r. r ≡ signature_below table.now k (class_view table.now k m) n) }
{
    if !is_above(alloc, table, above, k, owner(table, n))? {
        return Ok(false);
    }
    if !is_inheritable(table, k, n) {
        return Ok(false);
    }
    is_own_below(alloc, table, above, k, m, n)
}

/// Whether method m overrides or hides method n. The supertypes are those of m's class.
#[tactic(auto, using(crate::proofs::Replacing::replacing))]
pub fn replaces_above(
    alloc: Global,
    table: &Table,
    above: &Supertypes,
    m: MethodId,
    n: MethodId,
) -> Result<bool, WantOfMemory>
    requires known { IsSupertypes table.now above.now }
    requires own { above.now.of ≡ own_type table.now (owner table.now m) }
    ensures { IfOk result (λ r. r ≡ replaces table.now m n) }
{
    if !is_method(table, m) || !is_method(table, n) {
        return Ok(false);
    }
    if is_static(table, n) != is_static(table, m) {
        return Ok(false);
    }
    own_signature_below(alloc, table, above, owner(table, m), m, n)
}

/// Whether method m overrides or hides method n. The supertypes are those of m's class, and `a` is m as its class has it.
#[tactic(auto, using(crate::proofs::Replacing::replacing))]
pub fn replaces(
    alloc: Global,
    table: &Table,
    above: &Supertypes,
    a: Option<&MethodView>,
    m: MethodId,
    n: MethodId,
) -> Result<bool, WantOfMemory>
    requires known { IsSupertypes table.now above.now }
    requires own { above.now.of ≡ own_type table.now (owner table.now m) }
    requires is { option_copied a ≡ class_view table.now (owner table.now m) m }
    ensures { IfOk result (λ r. r ≡ replaces table.now m n) }
{
    if !is_method(table, m) || !is_method(table, n) {
        return Ok(false);
    }
    if is_static(table, m) != is_static(table, n) {
        return Ok(false);
    }
    signature_below(alloc, table, above, owner(table, m), a, n)
}

// Whether m's signature is a subsignature of that of n, which is declared above m's class.
fn is_own_signature_below(
    alloc: Global,
    table: &Table,
    m: MethodId,
    n: MethodId,
) -> Result<bool, WantOfMemory>
    ensures { IfOk result (λ r. r ≡ signature_below table.now (owner table.now m) (class_view table.now (owner table.now m) m) n) }
{
    let k = owner(table, m);
    let above = own_supertypes(alloc, table, k)?;
    let a = method_in(alloc, table, &above, m)?;
    signature_below(alloc, table, &above, k, a.as_ref(), n)
}

/// Whether method m overrides method n.
#[tactic(auto, using(crate::proofs::Replacing::replacing))]
pub fn overrides(
    alloc: Global,
    table: &Table,
    m: MethodId,
    n: MethodId,
) -> Result<bool, WantOfMemory>
    ensures { IfOk result (λ r. r ≡ overrides table.now m n) }
{
    if !is_instance(table, m) || !is_instance(table, n) {
        return Ok(false);
    }
    is_own_signature_below(alloc, table, m, n)
}

/// Whether static method m hides method n.
#[tactic(auto, using(crate::proofs::Replacing::replacing))]
pub fn hides(alloc: Global, table: &Table, m: MethodId, n: MethodId) -> Result<bool, WantOfMemory>
    ensures { IfOk result (λ r. r ≡ hides table.now m n) }
{
    if !is_method(table, m) || !is_method(table, n) {
        return Ok(false);
    }
    if !is_static(table, m) || !is_static(table, n) {
        return Ok(false);
    }
    is_own_signature_below(alloc, table, m, n)
}
