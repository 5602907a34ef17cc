//! The variables that a name stands for.
ghost use Rattle.std.specs.Prelude.{◌≡◌, ◌==◌, ◌+◌, ◌%◌, ◌||◌};
ghost use Rattle.jc_assign_spec.specs.Expressions.{is_local, is_own, is_refused};
ghost use Rattle.jc_assign_spec.specs.Methods.{foreign_to, has_field, is_final_field};
ghost use Rattle.jc_assign_parts.specs.Lanes.{var_at, word, word_of};

use crate::lanes::Group;
use crate::scene::Scene;
use crate::words::one;
use jc_types::{FieldId, Table};

fn spread(holds: bool) -> u64
    ensures { word result ≡ word_of (λ i. holds) }
{
    if holds { 18446744073709551615 } else { 0 }
}

fn mask_from(first: u32, n: u32) -> u64
    ensures { word result ≡ word_of (λ i. n == first + i % 64) }
{
    if n >= first && n - first < 64 {
        one(n - first)
    } else {
        0
    }
}

/// The bit of a local variable.
pub fn local_mask(group: Group, n: u32) -> u64
    ensures { word result ≡ word_of (λ i. is_local n (var_at group i)) }
{
    match group {
        Group::Locals(first) => mask_from(first, n),
        Group::Field(_) => spread(false),
        Group::Foreign => spread(false),
    }
}

/// The bits of a field that is named by its simple name or through `this`.
pub fn own_mask(group: Group, named: bool, field: FieldId) -> u64
    ensures { word result ≡ word_of (λ i. is_own named field (var_at group i)) }
{
    match group {
        Group::Locals(_) => spread(false),
        Group::Field(own) => spread(named && field.0 == own.0),
        Group::Foreign => spread(false),
    }
}

fn has_field(field: FieldId, list: &[FieldId]) -> bool
    ensures { result ≡ has_field field list.now }
{
    let mut rest = list;
    while let [f, more @ ..] = rest {
        if field.0 == f.0 {
            return true;
        }
        rest = more;
    }
    false
}

fn is_final_field(table: &Table, field: FieldId) -> bool
    ensures { result ≡ is_final_field table.now field }
{
    match table.fields.get(field.0 as usize) {
        None => false,
        Some(d) => d.modifiers.is_final,
    }
}

fn is_foreign(scene: &Scene, named: bool, field: FieldId) -> bool
    ensures { result ≡ foreign_to scene.now.table.now scene.now.own.now named field }
{
    let is_own = named && has_field(field, scene.own);
    is_final_field(scene.table, field) && !is_own
}

/// The bits of the variables at which the assignment of a field counts.
#[tactic(auto, using(crate::proofs::Marking::or_false))]
pub fn written_mask(scene: &Scene, group: Group, named: bool, field: FieldId) -> u64
    ensures { word result ≡ word_of (λ i. is_own named field (var_at group i) || is_refused (var_at group i) ((word scene.now.finals).each i) (foreign_to scene.now.table.now scene.now.own.now) (var_at group i) named field) }
{
    match group {
        Group::Locals(_) => spread(false),
        Group::Field(own) => spread(named && field.0 == own.0),
        Group::Foreign => spread(is_foreign(scene, named, field)),
    }
}
