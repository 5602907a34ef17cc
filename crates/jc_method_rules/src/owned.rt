//! The methods of a class and of the classes above it, by an index of methods by their classes.
ghost use Rattle.std.specs.Prelude.{◌≡◌, ◌++◌, ◌∷◌, ℕ, [], cond, IfOk, OnOk, IsPermutation, is_some, length, nat_eq, replicate};
ghost use Rattle.std.specs.HashMap.{get};
ghost use Rattle.std.specs.Set.{is_member};
ghost use Rattle.jc_overriding.specs.Viewing.{own_type};
ghost use Rattle.jc_members.specs.Supertypes.{IsSupertypes};
ghost use Rattle.jc_method_rules.specs.Owned.{IsOwnerIndex, all_below, are_all, ascends, ascends_from, gathered, ids_of, is_standing, numbers_at, pushed_at, standing, standing_numbers};

use jc_members::{Supertypes, has_view, owner, same_class};
use jc_rules::{Items, WantOfMemory};
use jc_types::{ClassId, MethodId, Table};
use std::alloc::Global;

/// The numbers of the methods that each class declares, in the order of the table.
#[derive(Drop)]
pub struct OwnerIndex {
    pub groups: Items<Items<u64>>,
}

// A group for each class.
fn no_groups(alloc: Global, table: &Table) -> Result<Vec<Items<u64>>, WantOfMemory>
    ensures { IfOk result (λ groups. groups.items ≡ replicate (length table.now.classes) []) }
{
    let mut groups = Vec::new(alloc);
    for _class in 0..table.classes.len() {
        groups.push(Items::new(alloc))?;
    }
    Ok(groups)
}

fn push_at(groups: &mut Vec<Items<u64>>, class: u64, number: u64) -> Result<(), WantOfMemory>
    ensures { OnOk result (groups.new.items ≡ pushed_at class number groups.old.items) }
{
    match groups.get_mut(class as usize) {
        Some(numbers) => numbers.push(number),
        None => Ok(()),
    }
}

/// The methods of a table by their classes.
pub fn owner_index(alloc: Global, table: &Table) -> Result<OwnerIndex, WantOfMemory>
    ensures { IfOk result (λ index. IsOwnerIndex table.now index) }
{
    let mut groups = no_groups(alloc, table)?;
    for i in 0..table.methods.len() {
        let class = owner(table, MethodId(i as u64));
        push_at(&mut groups, class.0, i as u64)?;
    }
    Ok(OwnerIndex {
        groups: Items::of(groups),
    })
}

// The classes of the supertypes that were found.
fn classes_in(alloc: Global, above: &Supertypes) -> Result<Vec<u64>, WantOfMemory>
    ensures { IfOk result (λ classes. (l : ℕ) → is_some (get nat_eq above.now.views l) ≡ is_member nat_eq classes.items l) }
{
    let classes = above.views.keys().copied().collect(alloc)?;
    Ok(classes)
}

// The same in order.
fn ordered_classes(alloc: Global, above: &Supertypes) -> Result<Vec<u64>, WantOfMemory>
    ensures { IfOk result (λ classes. (l : ℕ) → is_some (get nat_eq above.now.views l) ≡ is_member nat_eq classes.items l) }
{
    let mut classes = classes_in(alloc, above)?;
    classes.sort_unstable();
    Ok(classes)
}

fn push_group(index: &OwnerIndex, class: u64, out: &mut Vec<u64>) -> Result<(), WantOfMemory>
    ensures { OnOk result (out.new.items ≡ out.old.items ++ numbers_at index.now.groups class) }
{
    match index.groups.get(class as usize) {
        Some(numbers) => {
            out.extend_from_slice(numbers.slice())?;
            Ok(())
        }
        None => Ok(()),
    }
}

// The methods of each of these classes.
fn gathered(alloc: Global, index: &OwnerIndex, classes: &[u64]) -> Result<Vec<u64>, WantOfMemory>
    ensures { IfOk result (λ numbers. numbers.items ≡ gathered index.now.groups classes.now) }
{
    let mut out = Vec::new(alloc);
    let mut rest = classes;
    while let [class, more @ ..] = rest {
        push_group(index, *class, &mut out)?;
        rest = more;
    }
    Ok(out)
}

// The same in order.
fn ordered_numbers(
    alloc: Global,
    index: &OwnerIndex,
    classes: &[u64],
) -> Result<Vec<u64>, WantOfMemory>
    ensures { IfOk result (λ numbers. IsPermutation (gathered index.now.groups classes.now) numbers.items) }
{
    let mut numbers = gathered(alloc, index, classes)?;
    numbers.sort_unstable();
    Ok(numbers)
}

// Whether each of these classes has a group.
fn all_below(count: usize, classes: &[u64]) -> bool
    ensures { result ≡ all_below count classes.now }
{
    let mut rest = classes;
    while let [class, more @ ..] = rest {
        if *class >= count as u64 {
            return false;
        }
        rest = more;
    }
    true
}

fn ascends_from(first: u64, numbers: &[u64]) -> bool
    ensures { result ≡ ascends_from first numbers.now }
{
    let mut last = first;
    let mut rest = numbers;
    while let [number, more @ ..] = rest {
        if *number <= last {
            return false;
        }
        last = *number;
        rest = more;
    }
    true
}

// Whether each number is greater than the one before it.
fn ascends(numbers: &[u64]) -> bool
    ensures { result ≡ ascends numbers.now }
{
    match numbers {
        [] => true,
        [first, rest @ ..] => ascends_from(*first, rest),
    }
}

fn push_standing(
    alloc: Global,
    table: &Table,
    above: &Supertypes,
    k: ClassId,
    number: u64,
    out: &mut Vec<u64>,
) -> Result<(), WantOfMemory>
    requires known { IsSupertypes table.now above.now }
    requires own { above.now.of ≡ own_type table.now k }
    ensures { OnOk result (out.new.items ≡ out.old.items ++ cond (is_standing table.now k number) (number ∷ []) []) }
{
    let class = owner(table, MethodId(number));
    if !same_class(class, k) && !has_view(alloc, table, above, class)? {
        return Ok(());
    }
    out.push(number)?;
    Ok(())
}

// The methods of a class and of those above it, looked for among all.
fn all_standing(
    alloc: Global,
    table: &Table,
    above: &Supertypes,
    k: ClassId,
) -> Result<Vec<u64>, WantOfMemory>
    requires known { IsSupertypes table.now above.now }
    requires own { above.now.of ≡ own_type table.now k }
    ensures { IfOk result (λ r. r.items ≡ standing_numbers table.now k) }
{
    let mut out = Vec::new(alloc);
    for number in 0..table.methods.len() {
        push_standing(alloc, table, above, k, number as u64, &mut out)?;
    }
    Ok(out)
}

// Whether these classes are the one and all above it, and each has a group.
fn are_all(index: &OwnerIndex, above: &Supertypes, k: ClassId, classes: &[u64]) -> bool
    ensures { result ≡ are_all index.now above.now k classes.now }
{
    above.is_whole && above.views.contains_key(&k.0) && all_below(index.groups.len(), classes)
}

// The methods of a class and of those above it, where `numbers` are those of these classes. They come in order, once each, unless the table is odd.
fn standing_by(
    alloc: Global,
    table: &Table,
    index: &OwnerIndex,
    above: &Supertypes,
    k: ClassId,
    classes: &[u64],
    numbers: Vec<u64>,
) -> Result<Vec<u64>, WantOfMemory>
    requires index { IsOwnerIndex table.now index.now }
    requires known { IsSupertypes table.now above.now }
    requires own { above.now.of ≡ own_type table.now k }
    requires classes { (l : ℕ) → is_some (get nat_eq above.now.views l) ≡ is_member nat_eq classes.now l }
    requires numbers { IsPermutation (gathered index.now.groups classes.now) numbers.items }
    ensures { IfOk result (λ r. r.items ≡ standing_numbers table.now k) }
{
    if are_all(index, above, k, classes) && ascends(numbers.as_slice()) {
        return Ok(numbers);
    }
    all_standing(alloc, table, above, k)
}

fn ids_of(alloc: Global, numbers: &[u64]) -> Result<Items<MethodId>, WantOfMemory>
    ensures { IfOk result (λ r. r ≡ ids_of numbers.now) }
{
    let mut out = Items::new(alloc);
    let mut rest = numbers;
    while let [number, more @ ..] = rest {
        out.push(MethodId(*number))?;
        rest = more;
    }
    Ok(out)
}

/// The methods of a class and of those above it, in the order of the table. The supertypes are those of the class.
pub fn standing(
    alloc: Global,
    table: &Table,
    index: &OwnerIndex,
    above: &Supertypes,
    k: ClassId,
) -> Result<Items<MethodId>, WantOfMemory>
    requires index { IsOwnerIndex table.now index.now }
    requires known { IsSupertypes table.now above.now }
    requires own { above.now.of ≡ own_type table.now k }
    ensures { IfOk result (λ r. r ≡ standing table.now k) }
{
    let classes = ordered_classes(alloc, above)?;
    let numbers = ordered_numbers(alloc, index, classes.as_slice())?;
    let all = standing_by(alloc, table, index, above, k, classes.as_slice(), numbers)?;
    ids_of(alloc, all.as_slice())
}
