//! Whether a class has two different supertypes of one class (JLS 8.1.5, 9.1.3): 502.
ghost use Rattle.std.specs.Prelude.{◌≡◌, ◌++◌, ℕ, [], nat_eq, IfOk, OnOk};
ghost use Rattle.std.specs.HashMap.{get};
ghost use Rattle.std.specs.Option.{option_copied};
ghost use Rattle.jc_judge.specs.Kinds.{class_of};
ghost use Rattle.jc_header_rules.specs.Inheriting.{all_above, has_conflict};
ghost use Rattle.jc_class_rules.specs.Climbing.{AreFirsts, all_new, all_supers, first_with, if_new, is_other, meets_other, met_as, some_other};

use crate::direct::all_supers;
use jc_members::own_type;
use jc_rules::{Items, WantOfMemory};
use jc_sub::class_of;
use jc_types::{ClassId, Table, Ty, copy_type, same_type};
use std::alloc::Global;
use std::collections::HashMap;

// The first of the types that were met that is of the class of s.
#[tactic(auto, using(crate::proofs::Firsts::met_none))]
fn met_as<'a>(firsts: &'a HashMap<u64, Ty>, met: &[Ty], s: &Ty) -> Option<&'a Ty>
    requires { AreFirsts (λ l. get nat_eq firsts.now l) met.now }
    ensures { option_copied result ≡ met_as met.now s.now }
{
    let _met = met;
    match class_of(s) {
        None => None,
        Some(k) => firsts.get(&k.0),
    }
}

// Notes the first type of its class.
fn put_first(alloc: Global, s: &Ty, firsts: &mut HashMap<u64, Ty>) -> Result<(), WantOfMemory>
    ensures { OnOk result ((l : ℕ) → get nat_eq firsts.new l ≡ first_with (λ l. get nat_eq firsts.old l) (class_of s.now) s.now l) }
{
    match class_of(s) {
        None => Ok(()),
        Some(k) => {
            firsts.insert(k.0, copy_type(alloc, s)?)?;
            Ok(())
        }
    }
}

// Notes a supertype that is the first one of its class, and tells whether another type of that class was met.
fn note(
    alloc: Global,
    s: &Ty,
    firsts: &mut HashMap<u64, Ty>,
    met: &mut Items<Ty>,
    new: &mut Items<Ty>,
) -> Result<bool, WantOfMemory>
    requires firsts { AreFirsts (λ l. get nat_eq firsts.old l) met.old }
    ensures firsts { OnOk result (AreFirsts (λ l. get nat_eq firsts.new l) met.new) }
    ensures other { IfOk result (λ r. r ≡ is_other met.old s.now) }
    ensures met { OnOk result (met.new ≡ met.old ++ if_new met.old s.now) }
    ensures new { OnOk result (new.new ≡ new.old ++ if_new met.old s.now) }
{
    match met_as(firsts, met.slice(), s) {
        Some(v) => Ok(!same_type(s, v)),
        None => {
            put_first(alloc, s, firsts)?;
            met.push(copy_type(alloc, s)?)?;
            new.push(copy_type(alloc, s)?)?;
            Ok(false)
        }
    }
}

// Notes each of these.
fn note_all(
    alloc: Global,
    types: &[Ty],
    firsts: &mut HashMap<u64, Ty>,
    met: &mut Items<Ty>,
    new: &mut Items<Ty>,
) -> Result<bool, WantOfMemory>
    requires firsts { AreFirsts (λ l. get nat_eq firsts.old l) met.old }
    ensures firsts { OnOk result (AreFirsts (λ l. get nat_eq firsts.new l) met.new) }
    ensures other { IfOk result (λ r. r ≡ some_other met.old types.now) }
    ensures met { OnOk result (met.new ≡ met.old ++ all_new met.old types.now) }
    ensures new { OnOk result (new.new ≡ new.old ++ all_new met.old types.now) }
{
    let mut found = false;
    let mut rest = types;
    while let [s, more @ ..] = rest {
        let is_other = note(alloc, s, firsts, met, new)?;
        found = found || is_other;
        rest = more;
    }
    Ok(found)
}

// Notes the supertypes of a level.
fn climb(
    alloc: Global,
    table: &Table,
    level: &[Ty],
    firsts: &mut HashMap<u64, Ty>,
    met: &mut Items<Ty>,
    new: &mut Items<Ty>,
) -> Result<bool, WantOfMemory>
    requires firsts { AreFirsts (λ l. get nat_eq firsts.old l) met.old }
    ensures firsts { OnOk result (AreFirsts (λ l. get nat_eq firsts.new l) met.new) }
    ensures other { IfOk result (λ r. r ≡ some_other met.old (all_supers table.now level.now)) }
    ensures met { OnOk result (met.new ≡ met.old ++ all_new met.old (all_supers table.now level.now)) }
    ensures new { OnOk result (new.new ≡ new.old ++ all_new met.old (all_supers table.now level.now)) }
{
    let above = all_supers(alloc, table, level)?;
    note_all(alloc, above.slice(), firsts, met, new)
}

// Whether two different types of one class are met in so many steps upwards from these.
#[tactic(auto, using(crate::proofs::Climbed::climbing))]
fn meets_other(
    alloc: Global,
    table: &Table,
    steps: usize,
    from: Items<Ty>,
) -> Result<bool, WantOfMemory>
    ensures { IfOk result (λ r. r ≡ meets_other table.now steps [] from) }
{
    let mut firsts: HashMap<u64, Ty> = HashMap::new(alloc);
    let mut met = Items::new(alloc);
    let mut level = from;
    let mut left = steps;
    while left > 0 {
        if level.is_empty() {
            return Ok(false);
        }
        let mut new = Items::new(alloc);
        let found = climb(alloc, table, level.slice(), &mut firsts, &mut met, &mut new)?;
        if found {
            return Ok(true);
        }
        left -= 1;
        level = new;
    }
    Ok(false)
}

/// Whether a class has two different supertypes of one class, a raw one beside one with arguments included.
#[tactic(auto, using(crate::proofs::Climbed::conflict_told))]
pub fn has_conflict(alloc: Global, table: &Table, k: ClassId) -> Result<bool, WantOfMemory>
    ensures { IfOk result (λ r. r ≡ has_conflict (all_above table.now k)) }
{
    let mut from = Items::new(alloc);
    from.push(own_type(alloc, table, k)?)?;
    meets_other(alloc, table, table.classes.slice().len(), from)
}
