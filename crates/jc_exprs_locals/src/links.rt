//! Locals in the order in which they were declared, and for each name the place of its last one.
ghost use Rattle.std.specs.Prelude.{◌≡◌, ◌<◌, ◌-◌, ◌++◌, ◌∷◌, [], ℕ, List, None, Some, IsSome, OnErr, OnOk, if◌then◌else◌, length, option_map, string_bytes, take};
ghost use Rattle.std.specs.HashMap.{get_by_text};
ghost use Rattle.std.specs.Option.{option_copied};
ghost use Rattle.std.specs.Str.{bytes_eq};
ghost use Rattle.jc_exprs_parts_spec.specs.Worlds.{local_in};
ghost use Rattle.jc_exprs_locals.specs.Links.{IsIndexed, local_in_entry, locals_in, or_none, with_last};
ghost use Rattle.jc_exprs_locals.specs.Scoped.{local_of, locals_of};

use crate::scoped::{Entry, ScopedLocal};
use jc_rules::WantOfMemory;
use jc_types::Constant;
use std::alloc::Global;
use std::collections::HashMap;

/// The place of the last local of a name.
pub fn place_of(newest: &HashMap<String, Option<usize>>, name: &str) -> Option<usize>
    ensures { result ≡ or_none (get_by_text newest.now name.now) }
{
    match newest.get(name) {
        Some(place) => *place,
        None => None,
    }
}

// Another place for a name that has one.
fn relink(newest: &mut HashMap<String, Option<usize>>, name: &str, to: Option<usize>)
    requires { IsSome (get_by_text newest.old name.now) }
    ensures { (q : List ℕ) → or_none (get_by_text newest.new q) ≡ (if bytes_eq q name.now then to else or_none (get_by_text newest.old q)) }
{
    if let Some(place) = newest.get_mut(name) {
        *place = to;
    }
}

// The place of a name, whether it has one or not.
fn link(
    newest: &mut HashMap<String, Option<usize>>,
    name: String,
    to: usize,
) -> Result<(), WantOfMemory>
    ensures ok { OnOk result ((q : List ℕ) → or_none (get_by_text newest.new q) ≡ (if bytes_eq q (string_bytes name) then Some to else or_none (get_by_text newest.old q))) }
    ensures err { OnErr result ((q : List ℕ) → get_by_text newest.new q ≡ get_by_text newest.old q) }
{
    newest.insert(name, Some(to))?;
    Ok(())
}

fn local_at(entries: &[Entry], at: usize) -> Option<&ScopedLocal>
    ensures { option_map local_of (option_copied result) ≡ local_in_entry entries.now (Some at) }
{
    match entries.get(at) {
        None => None,
        Some(entry) => Some(&entry.local),
    }
}

/// The last local of a name.
#[tactic(auto, using(crate::proofs::Linked::found_at))]
pub fn local_named<'a>(
    entries: &'a [Entry],
    newest: &HashMap<String, Option<usize>>,
    name: &str,
) -> Option<&'a ScopedLocal>
    requires { IsIndexed entries.now (get_by_text newest.now) }
    ensures { option_map local_of (option_copied result) ≡ local_in name.now (locals_of (locals_in entries.now)) None }
{
    match place_of(newest, name) {
        None => None,
        Some(at) => local_at(entries, at),
    }
}

/// One local more. Where memory is lacking, all stay as they were.
#[tactic(auto, using(crate::proofs::Linked::more_laws))]
pub fn push(
    alloc: Global,
    entries: &mut Vec<Entry>,
    newest: &mut HashMap<String, Option<usize>>,
    local: ScopedLocal,
) -> Result<(), WantOfMemory>
    requires { IsIndexed entries.old.items (get_by_text newest.old) }
    ensures ok { OnOk result (locals_in entries.new.items ≡ locals_in entries.old.items ++ local ∷ []) }
    ensures err { OnErr result (locals_in entries.new.items ≡ locals_in entries.old.items) }
    ensures indexed { IsIndexed entries.new.items (get_by_text newest.new) }
{
    let name = String::from_str(alloc, local.name.str())?;
    let before = place_of(newest, local.name.str());
    let at = entries.len();
    entries.push(Entry { local, before })?;
    match link(newest, name, at) {
        Ok(()) => Ok(()),
        Err(error) => {
            let _unlinked = entries.pop();
            Err(error)
        }
    }
}

#[tactic(auto, using(crate::proofs::Linked::less_laws))]
fn pop(entries: &mut Vec<Entry>, newest: &mut HashMap<String, Option<usize>>)
    requires some { 0 < length entries.old.items }
    requires indexed { IsIndexed entries.old.items (get_by_text newest.old) }
    ensures items { entries.new.items ≡ take (length entries.old.items - 1) entries.old.items }
    ensures indexed { IsIndexed entries.new.items (get_by_text newest.new) }
{
    if let Some(entry) = entries.pop() {
        relink(newest, entry.local.name.str(), entry.before);
    }
}

/// The first locals alone, so many of them.
#[tactic(auto, using(crate::proofs::Linked::takes))]
pub fn cut(entries: &mut Vec<Entry>, newest: &mut HashMap<String, Option<usize>>, size: usize)
    requires { IsIndexed entries.old.items (get_by_text newest.old) }
    ensures items { entries.new.items ≡ take size entries.old.items }
    ensures indexed { IsIndexed entries.new.items (get_by_text newest.new) }
{
    while entries.len() > size {
        pop(entries, newest);
    }
}

fn if_final(is_final: bool, constant: Option<Constant>) -> Option<Constant>
    ensures { result ≡ (if is_final then constant else None) }
{
    if is_final { constant } else { None }
}

/// The value of the last local, if it is final.
#[tactic(auto, using(crate::proofs::Linked::set_with_last))]
pub fn set_last(entries: &mut Vec<Entry>, constant: Option<Constant>)
    ensures { entries.new.items ≡ with_last constant entries.old.items }
{
    let size = entries.len();
    if size == 0 {
        return;
    }
    let last = &mut entries[size - 1];
    last.local.constant = if_final(last.local.is_final, constant);
}
