//! The stage of headers at classes.
ghost use Rattle.std.specs.Prelude.{◌≡◌, ◌&&◌, IfOk};
ghost use Rattle.jc_types.specs.Breaks.{least};
ghost use Rattle.jc_overriding.specs.Viewing.{own_type};
ghost use Rattle.jc_members.specs.Named.{IsMethodIndex};
ghost use Rattle.jc_members.specs.Supertypes.{IsSupertypes};
ghost use Rattle.jc_header_rules.specs.Inheriting.{agreement_broken, class_breaks, is_concrete, is_generic_throwable, leaves_open};
ghost use Rattle.jc_header_rules.specs.Places.{of_each};
ghost use Rattle.jc_method_rules.specs.Owned.{IsOwnerIndex, standing};

use crate::climbing::has_conflict;
use crate::grouping::names_agree;
use crate::leaving::leaves_open;
use jc_header_rules::{if_broken, or_break};
use jc_judge::Answer;
use jc_members::{MethodIndex, Supertypes, own_supertypes};
use jc_method_rules::{OwnerIndex, is_throwable, owner_index, standing};
use jc_rules::{Place, Refusal, Rule, WantOfMemory};
use jc_types::{ClassDecl, ClassId, MethodId, Table, class_vars, is_interface};
use std::alloc::Global;

// Whether a class has type parameters, and is Throwable or below it.
fn is_generic_throwable(alloc: Global, table: &Table, k: ClassId) -> Result<bool, WantOfMemory>
    ensures { IfOk result (λ r. r ≡ is_generic_throwable table.now k) }
{
    match class_vars(table, k) {
        [] => Ok(false),
        [_, ..] => is_throwable(alloc, table, k),
    }
}

// Whether a class may be made objects of.
fn is_concrete(table: &Table, k: ClassId, class: &ClassDecl) -> bool
    ensures { result ≡ is_concrete table.now k class.now }
{
    !class.modifiers.is_abstract && !is_interface(table, k)
}

fn is_incomplete(
    alloc: Global,
    table: &Table,
    above: &Supertypes,
    k: ClassId,
    class: &ClassDecl,
    all: &[MethodId],
) -> Result<bool, WantOfMemory>
    requires known { IsSupertypes table.now above.now }
    requires own { above.now.of ≡ own_type table.now k }
    requires all { all.now ≡ standing table.now k }
    ensures { IfOk result (λ r. r ≡ (is_concrete table.now k class.now && leaves_open table.now k 0 table.now.methods)) }
{
    if !is_concrete(table, k, class) {
        return Ok(false);
    }
    leaves_open(alloc, table, above, k, all)
}

fn agreement_broken(found: Option<Refusal>, answer: Answer, place: Place) -> Option<Refusal>
    ensures { result ≡ least found (agreement_broken answer place) }
{
    match answer {
        Answer::Yes => found,
        Answer::No => or_break(found, Rule::known(511), place),
        Answer::Deep => or_break(found, Rule::known(512), place),
    }
}

// What a class breaks, of which these are the supertypes, and `all` the methods of it and of those above it.
fn class_broken_in(
    alloc: Global,
    table: &Table,
    index: &MethodIndex,
    all: &[MethodId],
    found: Option<Refusal>,
    above: &Supertypes,
    k: ClassId,
    class: &ClassDecl,
) -> Result<Option<Refusal>, WantOfMemory>
    requires index { IsMethodIndex table.now index.now }
    requires known { IsSupertypes table.now above.now }
    requires own { above.now.of ≡ own_type table.now k }
    requires all { all.now ≡ standing table.now k }
    ensures { IfOk result (λ r. r ≡ least found (class_breaks table.now k.0 class.now)) }
{
    let generic = is_generic_throwable(alloc, table, k)?;
    let first = if_broken(found, generic, Rule::known(501), class.place);
    let conflict = has_conflict(alloc, table, k)?;
    let second = if_broken(first, conflict, Rule::known(502), class.place);
    let incomplete = is_incomplete(alloc, table, above, k, class, all)?;
    let third = if_broken(second, incomplete, Rule::known(509), class.place);
    let answer = names_agree(alloc, table, index, above, k, all)?;
    let last = agreement_broken(third, answer, class.place);
    Ok(last)
}

fn class_broken(
    alloc: Global,
    table: &Table,
    index: &MethodIndex,
    owners: &OwnerIndex,
    found: Option<Refusal>,
    k: ClassId,
    class: &ClassDecl,
) -> Result<Option<Refusal>, WantOfMemory>
    requires index { IsMethodIndex table.now index.now }
    requires owners { IsOwnerIndex table.now owners.now }
    ensures { IfOk result (λ r. r ≡ least found (class_breaks table.now k.0 class.now)) }
{
    let above = own_supertypes(alloc, table, k)?;
    let all = standing(alloc, table, owners, &above, k)?;
    class_broken_in(alloc, table, index, all.slice(), found, &above, k, class)
}

/// The first rule that classes break in the stage of headers, or what was found before.
pub fn first_classes_break(
    alloc: Global,
    table: &Table,
    index: &MethodIndex,
    found: Option<Refusal>,
) -> Result<Option<Refusal>, WantOfMemory>
    requires { IsMethodIndex table.now index.now }
    ensures { IfOk result (λ r. r ≡ least found (of_each (class_breaks table.now) 0 table.now.classes)) }
{
    let owners = owner_index(alloc, table)?;
    let mut found = found;
    let classes = table.classes.slice();
    for number in 0..classes.len() {
        let k = ClassId(number as u64);
        found = class_broken(alloc, table, index, &owners, found, k, &classes[number])?;
    }
    Ok(found)
}
