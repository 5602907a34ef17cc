//! Methods that have the same parameters in each class: a signature is compared with theirs without a view of them.
ghost use Rattle.std.specs.Prelude.{◌≡◌, ◌&&◌, true, Some, IfOk, is_some};
ghost use Rattle.std.specs.Option.{option_copied};
ghost use Rattle.jc_types.specs.declared.form.Ty.{Ty};
ghost use Rattle.jc_types.specs.Accessors.{method_owner_of};
ghost use Rattle.jc_overriding.specs.Overriding.{is_above, owner, subsignature_of};
ghost use Rattle.jc_overriding.specs.Viewing.{class_view, own_type};
ghost use Rattle.jc_members.specs.Fixed.{are_declared_alike, are_own_erasures, has_none, is_declared_so, is_fixed, is_own_erasure};
ghost use Rattle.jc_members.specs.Supertypes.{IsSupertypes};

use crate::erasing::plain;
use crate::kinds::owner;
use crate::signatures::{same_all, subsignature};
use crate::supertypes::{Supertypes, has_view, method_in};
use jc_overriding::MethodView;
use jc_rules::WantOfMemory;
use jc_types::{
    Arg, ClassId, MethodId, Table, Ty, VarId, class_vars, method_name, method_owner, method_params,
    method_vars, same_type,
};
use std::alloc::Global;

fn has_none(vars: &[VarId]) -> bool
    ensures { result ≡ has_none vars.now }
{
    match vars {
        [] => true,
        [_, ..] => false,
    }
}

#[tactic(auto, using(crate::proofs::Unchanged::own_laws))]
fn is_simple_class(table: &Table, id: ClassId, args: &[Arg]) -> bool
    ensures { result ≡ true → is_own_erasure table.now (Ty.Class id args.now) ≡ true }
{
    if !has_none(class_vars(table, id)) {
        return false;
    }
    match args {
        [] => true,
        [_, ..] => false,
    }
}

// Whether a type is primitive, or a class that has no type parameters: then it is its own erasure.
#[tactic(auto, using(jc_types::proofs::Opened::opened, crate::proofs::Unchanged::own_laws))]
fn is_simple(table: &Table, t: &Ty) -> bool
    ensures { result ≡ true → is_own_erasure table.now t.now ≡ true }
{
    match t {
        Ty::Prim(_) => true,
        Ty::Class { id, args } => is_simple_class(table, *id, args.slice()),
        Ty::Raw { .. } => false,
        Ty::Array { .. } => false,
        Ty::Variable(_) => false,
        Ty::Captured(_) => false,
        Ty::Meet { .. } => false,
        Ty::NullTy => false,
    }
}

/// Whether a type is its own erasure (JLS 4.6).
pub fn is_own_erasure(alloc: Global, table: &Table, t: &Ty) -> Result<bool, WantOfMemory>
    ensures { IfOk result (λ r. r ≡ is_own_erasure table.now t.now) }
{
    if is_simple(table, t) {
        return Ok(true);
    }
    has_own_erasure(alloc, table, t)
}

#[tactic(auto, unfolding(crate::specs::Fixed::is_own_erasure))]
fn has_own_erasure(alloc: Global, table: &Table, t: &Ty) -> Result<bool, WantOfMemory>
    ensures { IfOk result (λ r. r ≡ is_own_erasure table.now t.now) }
{
    let erased = plain(alloc, table, t)?;
    Ok(same_type(&erased, t))
}

fn are_own_erasures(alloc: Global, table: &Table, types: &[Ty]) -> Result<bool, WantOfMemory>
    ensures { IfOk result (λ r. r ≡ are_own_erasures table.now types.now) }
{
    let mut rest = types;
    while let [t, more @ ..] = rest {
        if !is_own_erasure(alloc, table, t)? {
            return Ok(false);
        }
        rest = more;
    }
    Ok(true)
}

fn has_owner(table: &Table, m: MethodId) -> bool
    ensures { result ≡ is_some (method_owner_of table.now m) }
{
    method_owner(table, m).is_some()
}

/// Whether a method of a class has no type parameters, and each of its parameters' types is its own erasure.
#[tactic(auto, unfolding(crate::specs::Fixed::is_fixed))]
pub fn is_fixed(alloc: Global, table: &Table, m: MethodId) -> Result<bool, WantOfMemory>
    ensures { IfOk result (λ r. r ≡ is_fixed table.now m) }
{
    if !has_owner(table, m) || !has_none(method_vars(table, m)) {
        return Ok(false);
    }
    are_own_erasures(alloc, table, method_params(table, m))
}

fn are_fixed(alloc: Global, table: &Table, m: MethodId, n: MethodId) -> Result<bool, WantOfMemory>
    ensures { IfOk result (λ r. r ≡ (is_fixed table.now m && is_fixed table.now n)) }
{
    if !is_fixed(alloc, table, m)? {
        return Ok(false);
    }
    is_fixed(alloc, table, n)
}

fn is_declared_so(table: &Table, a: &MethodView, n: MethodId) -> bool
    ensures { result ≡ is_declared_so table.now a.now n }
{
    method_name(table, a.id) == method_name(table, n)
        && a.vars.len() == 0
        && same_all(a.params.slice(), method_params(table, n))
}

fn are_declared_alike(table: &Table, m: MethodId, n: MethodId) -> bool
    ensures { result ≡ are_declared_alike table.now m n }
{
    method_name(table, m) == method_name(table, n)
        && same_all(method_params(table, m), method_params(table, n))
}

// Whether a's signature is a subsignature of method n's, as a class below n's has it.
#[tactic(auto, using(crate::proofs::Unchanged::fixed_laws))]
fn is_signature_of(
    alloc: Global,
    table: &Table,
    above: &Supertypes,
    k: ClassId,
    a: &MethodView,
    n: MethodId,
) -> Result<bool, WantOfMemory>
    requires known { IsSupertypes table.now above.now }
    requires own { above.now.of ≡ own_type table.now k }
    requires below { is_above table.now k (owner table.now n) ≡ true }
    ensures { IfOk result (λ r. r ≡ subsignature_of table.now (Some a.now) (class_view table.now k n)) }
{
    if is_fixed(alloc, table, n)? {
        return Ok(is_declared_so(table, a, n));
    }
    match method_in(alloc, table, above, n)? {
        None => Ok(false),
        Some(b) => subsignature(alloc, table, a, &b),
    }
}

/// The same, where there is a signature.
pub fn is_below(
    alloc: Global,
    table: &Table,
    above: &Supertypes,
    k: ClassId,
    a: Option<&MethodView>,
    n: MethodId,
) -> Result<bool, WantOfMemory>
    requires known { IsSupertypes table.now above.now }
    requires own { above.now.of ≡ own_type table.now k }
    requires below { is_above table.now k (owner table.now n) ≡ true }
    ensures { IfOk result (λ r. r ≡ subsignature_of table.now (option_copied a.entry) (class_view table.now k n)) }
{
    match a {
        None => Ok(false),
        Some(a) => is_signature_of(alloc, table, above, k, a, n),
    }
}

/// Whether method m's signature is a subsignature of method n's, as m's class has both, which is below n's. The supertypes are those of class k.
#[tactic(auto, using(crate::proofs::Unchanged::fixed_laws))]
pub fn is_own_below(
    alloc: Global,
    table: &Table,
    above: &Supertypes,
    k: ClassId,
    m: MethodId,
    n: MethodId,
) -> Result<bool, WantOfMemory>
    requires known { IsSupertypes table.now above.now }
    requires own { above.now.of ≡ own_type table.now k }
    requires below { is_above table.now k (owner table.now n) ≡ true }
    ensures { IfOk result (λ r. r ≡ subsignature_of table.now (class_view table.now k m) (class_view table.now k n)) }
{
    if are_fixed(alloc, table, m, n)? && has_view(alloc, table, above, owner(table, m))? {
        return Ok(are_declared_alike(table, m, n));
    }
    let a = method_in(alloc, table, above, m)?;
    is_below(alloc, table, above, k, a.as_ref(), n)
}
