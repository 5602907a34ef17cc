//! The stage of headers at methods.
ghost use Rattle.std.specs.Prelude.{◌≡◌, ◌⊎◌, Some, IfOk, slice_get};
ghost use Rattle.std.specs.Option.{option_copied};
ghost use Rattle.jc_types.specs.Breaks.{least};
ghost use Rattle.jc_overriding.specs.Overriding.{is_method_kind, overrides, owner};
ghost use Rattle.jc_overriding.specs.Viewing.{class_view, declared_view, own_type};
ghost use Rattle.jc_members.specs.Named.{IsMethodIndex};
ghost use Rattle.jc_members.specs.Supertypes.{IsSupertypes};
ghost use Rattle.jc_header_rules.specs.Headers.{method_breaks, pair_broken, says_wrongly, thrown_broken, wants_body};
ghost use Rattle.jc_header_rules.specs.Places.{of_each, of_written};
ghost use Rattle.jc_method_rules.specs.Owned.{IsOwnerIndex, standing};
ghost use Rattle.jc_method_rules.specs.Pairs.{AreEnough, overrides_one, pairs_breaks};

use crate::owned::{OwnerIndex, owner_index, standing};
use crate::pairs::{differ, pair_broken};
use crate::throwing::{is_throwable, thrown_class};
use jc_header_rules::if_broken;
use jc_members::{
    MethodIndex, MethodView, Supertypes, declared_view, is_instance, method_in, own_supertypes,
    owner, signature_below,
};
use jc_rules::{Items, Place, Refusal, Rule, WantOfMemory};
use jc_types::{ClassId, MethodDecl, MethodId, MethodKind, Table, Ty, TypePlaces, method_name};
use std::alloc::Global;

// What method m breaks beside each of these.
fn pairs_broken(
    alloc: Global,
    table: &Table,
    found: Option<Refusal>,
    place: Place,
    above: &Supertypes,
    a: Option<&MethodView>,
    m: MethodId,
    ids: &[MethodId],
) -> Result<Option<Refusal>, WantOfMemory>
    requires known { IsSupertypes table.now above.now }
    requires own { above.now.of ≡ own_type table.now (owner table.now m) }
    requires is { option_copied a ≡ class_view table.now (owner table.now m) m }
    ensures { IfOk result (λ r. r ≡ least found (pairs_breaks table.now m place ids.now)) }
{
    let declared = declared_view(alloc, table, m)?;
    let mut found = found;
    let mut rest = ids;
    while let [n, more @ ..] = rest {
        found = pair_broken(alloc, table, found, place, above, a, &declared, m, *n)?;
        rest = more;
    }
    Ok(found)
}

#[tactic(auto, using(jc_members::proofs::Replacing::replacing, crate::proofs::Paired::overrides_no_other))]
fn overrides_in(
    alloc: Global,
    table: &Table,
    above: &Supertypes,
    a: Option<&MethodView>,
    m: MethodId,
    n: MethodId,
) -> Result<bool, WantOfMemory>
    requires known { IsSupertypes table.now above.now }
    requires own { above.now.of ≡ own_type table.now (owner table.now m) }
    requires is { option_copied a ≡ class_view table.now (owner table.now m) m }
    ensures { IfOk result (λ r. r ≡ overrides table.now m n) }
{
    if method_name(table, n) != method_name(table, m) {
        return Ok(false);
    }
    if !is_instance(table, m) || !is_instance(table, n) {
        return Ok(false);
    }
    signature_below(alloc, table, above, owner(table, m), a, n)
}

// Whether method m overrides one of these.
fn overrides_one(
    alloc: Global,
    table: &Table,
    above: &Supertypes,
    a: Option<&MethodView>,
    m: MethodId,
    ids: &[MethodId],
) -> Result<bool, WantOfMemory>
    requires known { IsSupertypes table.now above.now }
    requires own { above.now.of ≡ own_type table.now (owner table.now m) }
    requires is { option_copied a ≡ class_view table.now (owner table.now m) m }
    ensures { IfOk result (λ r. r ≡ overrides_one table.now m ids.now) }
{
    let mut rest = ids;
    while let [n, more @ ..] = rest {
        if overrides_in(alloc, table, above, a, m, *n)? {
            return Ok(true);
        }
        rest = more;
    }
    Ok(false)
}

// Whether `@Override` stands at a method that overrides none.
fn says_wrongly(
    alloc: Global,
    table: &Table,
    above: &Supertypes,
    a: Option<&MethodView>,
    m: MethodId,
    method: &MethodDecl,
    ids: &[MethodId],
) -> Result<bool, WantOfMemory>
    requires known { IsSupertypes table.now above.now }
    requires own { above.now.of ≡ own_type table.now (owner table.now m) }
    requires is { option_copied a ≡ class_view table.now (owner table.now m) m }
    requires enough { AreEnough table.now m ids.now }
    ensures { IfOk result (λ r. r ≡ says_wrongly table.now m method.now) }
{
    if !method.modifiers.says_override {
        return Ok(false);
    }
    let one = overrides_one(alloc, table, above, a, m, ids)?;
    Ok(!one)
}

// Thrown types that are no Throwable.
fn thrown_broken(
    alloc: Global,
    table: &Table,
    found: Option<Refusal>,
    declared: &MethodView,
    m: MethodId,
    t: &Ty,
    places: &TypePlaces,
) -> Result<Option<Refusal>, WantOfMemory>
    requires { declared.now ≡ declared_view table.now m }
    ensures { IfOk result (λ r. r ≡ least found (thrown_broken table.now m t.now places.now)) }
{
    let k = thrown_class(alloc, table, declared, t)?;
    let throwable = is_throwable(alloc, table, k)?;
    Ok(if_broken(found, !throwable, Rule::known(513), places.first))
}

fn all_thrown_broken(
    alloc: Global,
    table: &Table,
    found: Option<Refusal>,
    m: MethodId,
    types: &[Ty],
    places: &[TypePlaces],
) -> Result<Option<Refusal>, WantOfMemory>
    ensures { IfOk result (λ r. r ≡ least found (of_written (thrown_broken table.now m) types.now places.now)) }
{
    let declared = declared_view(alloc, table, m)?;
    let mut found = found;
    let mut rest = types;
    let mut left = places;
    while let [t, more @ ..] = rest {
        match left {
            [] => return Ok(found),
            [at, others @ ..] => {
                found = thrown_broken(alloc, table, found, &declared, m, t, at)?;
                left = others;
            }
        }
        rest = more;
    }
    Ok(found)
}

fn is_method_kind(kind: MethodKind) -> bool
    ensures { result ≡ is_method_kind kind }
{
    match kind {
        MethodKind::Method => true,
        MethodKind::Constructor => false,
        MethodKind::ImpliedConstructor => false,
        MethodKind::StaticInitialiser => false,
    }
}

// Whether a method is to have a body.
fn wants_body(method: &MethodDecl) -> bool
    ensures { result ≡ wants_body method.now }
{
    !is_method_kind(method.kind) || !(method.modifiers.is_abstract || method.modifiers.is_native)
}

// What a method breaks, of which these are its class's supertypes, and which its class has as `a`. It is told by `ids` alone.
fn method_broken_in(
    alloc: Global,
    table: &Table,
    found: Option<Refusal>,
    above: &Supertypes,
    a: Option<&MethodView>,
    m: MethodId,
    method: &MethodDecl,
    ids: &[MethodId],
) -> Result<Option<Refusal>, WantOfMemory>
    requires known { IsSupertypes table.now above.now }
    requires own { above.now.of ≡ own_type table.now (owner table.now m) }
    requires is { option_copied a ≡ class_view table.now (owner table.now m) m }
    requires enough { AreEnough table.now m ids.now }
    ensures { IfOk result (λ r. r ≡ least found (method_breaks table.now m.0 method.now)) }
{
    let paired = pairs_broken(alloc, table, found, method.place, above, a, m, ids)?;
    let wrongly = says_wrongly(alloc, table, above, a, m, method, ids)?;
    let said = if_broken(paired, wrongly, Rule::known(510), method.place);
    let types = method.thrown.types.slice();
    let places = method.thrown.places.slice();
    let thrown = all_thrown_broken(alloc, table, said, m, types, places)?;
    let differs = differ(wants_body(method), method.has_body);
    let last = if_broken(thrown, differs, Rule::known(514), method.place);
    Ok(last)
}

// The supertypes of class k: the last ones, where they are those of it.
fn supertypes_or(
    alloc: Global,
    table: &Table,
    last: Supertypes,
    of: ClassId,
    k: ClassId,
) -> Result<Supertypes, WantOfMemory>
    requires known { IsSupertypes table.now last }
    requires own { last.of ≡ own_type table.now of }
    ensures known { IfOk result (λ s. IsSupertypes table.now s) }
    ensures own { IfOk result (λ s. s.of ≡ own_type table.now k) }
{
    if of.0 == k.0 {
        return Ok(last);
    }
    own_supertypes(alloc, table, k)
}

// The methods of class k and of those above it: the last ones, where they are those of it.
fn standing_or(
    alloc: Global,
    table: &Table,
    owners: &OwnerIndex,
    above: &Supertypes,
    last: Items<MethodId>,
    of: ClassId,
    k: ClassId,
) -> Result<Items<MethodId>, WantOfMemory>
    requires owners { IsOwnerIndex table.now owners.now }
    requires known { IsSupertypes table.now above.now }
    requires own { above.now.of ≡ own_type table.now k }
    requires last { last ≡ standing table.now of }
    ensures { IfOk result (λ r. r ≡ standing table.now k) }
{
    if of.0 == k.0 {
        return Ok(last);
    }
    standing(alloc, table, owners, above, k)
}

fn shorter<'a>(named: &'a [MethodId], all: &'a [MethodId]) -> &'a [MethodId]
    ensures { (result.now ≡ named.now) ⊎ (result.now ≡ all.now) }
{
    if named.len() <= all.len() { named } else { all }
}

// What a method breaks, of which these are its class's supertypes, and `all` the methods of that class and of those above it.
fn method_broken(
    alloc: Global,
    table: &Table,
    index: &MethodIndex,
    found: Option<Refusal>,
    above: &Supertypes,
    all: &[MethodId],
    m: MethodId,
    method: &MethodDecl,
) -> Result<Option<Refusal>, WantOfMemory>
    requires index { IsMethodIndex table.now index.now }
    requires known { IsSupertypes table.now above.now }
    requires own { above.now.of ≡ own_type table.now (owner table.now m) }
    requires all { all.now ≡ standing table.now (owner table.now m) }
    requires at { slice_get table.now.methods m.0 ≡ Some method.now }
    ensures { IfOk result (λ r. r ≡ least found (method_breaks table.now m.0 method.now)) }
{
    let a = method_in(alloc, table, above, m)?;
    let named = index.named(method.name.str());
    let ids = shorter(named, all);
    method_broken_in(alloc, table, found, above, a.as_ref(), m, method, ids)
}

/// The first rule that methods break in the stage of headers, or what was found before.
pub fn first_methods_break(
    alloc: Global,
    table: &Table,
    index: &MethodIndex,
    found: Option<Refusal>,
) -> Result<Option<Refusal>, WantOfMemory>
    requires { IsMethodIndex table.now index.now }
    ensures { IfOk result (λ r. r ≡ least found (of_each (method_breaks table.now) 0 table.now.methods)) }
{
    let owners = owner_index(alloc, table)?;
    let mut found = found;
    let mut of = ClassId(0);
    let mut above = own_supertypes(alloc, table, of)?;
    let mut all = standing(alloc, table, &owners, &above, of)?;
    let methods = table.methods.slice();
    for number in 0..methods.len() {
        let m = MethodId(number as u64);
        let k = owner(table, m);
        above = supertypes_or(alloc, table, above, of, k)?;
        all = standing_or(alloc, table, &owners, &above, all, of, k)?;
        of = k;
        let method = &methods[number];
        found = method_broken(alloc, table, index, found, &above, all.slice(), m, method)?;
    }
    Ok(found)
}
