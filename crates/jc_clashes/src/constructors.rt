//! Constructors of one class whose parameters have the same erasures (JLS 8.8.2).
ghost use Rattle.std.specs.Prelude.{◌≡◌, [], IfOk, OnOk};
ghost use Rattle.jc_types.specs.Accessors.{method_place_of};
ghost use Rattle.jc_types.specs.Breaks.{least};
ghost use Rattle.jc_header_rules.specs.Clashes.{place_or};
ghost use Rattle.jc_header_rules.specs.Places.{broken_if};
ghost use Rattle.jc_clashes.specs.Constructors.{constructors_breaks, constructors_from, is_constructor, is_constructor_kind, is_repeated, with_erasure};

use crate::erasures::{erased_params, is_one};
use crate::places::place_or;
use jc_header_rules::if_broken;
use jc_rules::{Items, Place, Refusal, Rule, WantOfMemory};
use jc_types::{MethodId, MethodKind, Table, Ty, method_kind};
use std::alloc::Global;

fn is_constructor_kind(kind: MethodKind) -> bool
    ensures { result ≡ is_constructor_kind kind }
{
    match kind {
        MethodKind::Constructor => true,
        MethodKind::ImpliedConstructor => true,
        MethodKind::Method => false,
        MethodKind::StaticInitialiser => false,
    }
}

fn is_constructor(table: &Table, m: MethodId) -> bool
    ensures { result ≡ is_constructor table.now m }
{
    match method_kind(table, m) {
        Some(kind) => is_constructor_kind(kind),
        None => false,
    }
}

// What a method breaks beside the constructors before it, whose erased parameters these are.
fn constructor_broken(
    alloc: Global,
    table: &Table,
    found: Option<Refusal>,
    place: Place,
    m: MethodId,
    earlier: &mut Items<Items<Ty>>,
) -> Result<Option<Refusal>, WantOfMemory>
    ensures least { IfOk result (λ r. r ≡ least found (broken_if (is_repeated table.now earlier.old m) 801 (place_or place (method_place_of table.now m)))) }
    ensures earlier { OnOk result (earlier.new ≡ with_erasure table.now earlier.old m) }
{
    if !is_constructor(table, m) {
        return Ok(found);
    }
    let erased = erased_params(alloc, table, m)?;
    let is_repeated = is_one(erased.slice(), earlier.slice());
    earlier.push(erased)?;
    let at = place_or(table, place, m);
    Ok(if_broken(found, is_repeated, Rule::known(801), at))
}

// What these methods of a class break.
fn constructors_from(
    alloc: Global,
    table: &Table,
    found: Option<Refusal>,
    place: Place,
    ids: &[MethodId],
) -> Result<Option<Refusal>, WantOfMemory>
    ensures { IfOk result (λ r. r ≡ least found (constructors_from table.now place [] ids.now)) }
{
    let mut found = found;
    let mut earlier = Items::new(alloc);
    let mut rest = ids;
    while let [m, more @ ..] = rest {
        found = constructor_broken(alloc, table, found, place, *m, &mut earlier)?;
        rest = more;
    }
    Ok(found)
}

/// The first clash of constructors, or what was found before.
pub fn constructors_broken(
    alloc: Global,
    table: &Table,
    found: Option<Refusal>,
) -> Result<Option<Refusal>, WantOfMemory>
    ensures { IfOk result (λ r. r ≡ least found (constructors_breaks table.now)) }
{
    let mut found = found;
    let classes = table.classes.slice();
    for number in 0..classes.len() {
        let class = &classes[number];
        found = constructors_from(alloc, table, found, class.place, class.methods.slice())?;
    }
    Ok(found)
}
