//! The stage of types, and behind it that of headers.
ghost use Rattle.std.specs.Prelude.{◌≡◌, None, IfErr, IfOk, OnOk};
ghost use Rattle.jc_types.specs.Breaks.{least};
ghost use Rattle.jc_header_rules.specs.Clashes.{headers_breaks};
ghost use Rattle.jc_headers.specs.Stages.{IsFirst, IsHeadersStop, IsUnbroken};

use jc_class_rules::first_classes_break;
use jc_members::method_index;
use jc_method_rules::first_methods_break;
use jc_rules::{Refusal, Stop, WantOfMemory};
use jc_type_rules::first_types_break;
use jc_types::Table;
use std::alloc::Global;

// The first broken rule of the stage of headers, at methods or at classes.
#[tactic(auto, using(jc_header_rules::proofs::Turning::turning))]
fn first_headers_break(alloc: Global, table: &Table) -> Result<Option<Refusal>, WantOfMemory>
    ensures { IfOk result (λ r. r ≡ least None (headers_breaks table.now)) }
{
    let index = method_index(alloc, table)?;
    let found = first_methods_break(alloc, table, &index, None)?;
    first_classes_break(alloc, table, &index, found)
}

// The first broken rule of the first stage that has one.
#[tactic(auto, using(crate::proofs::Told::first_told))]
fn first_break(alloc: Global, table: &Table) -> Result<Option<Refusal>, WantOfMemory>
    ensures { IfOk result (λ r. IsFirst table.now r) }
{
    match first_types_break(alloc, table)? {
        Some(refusal) => Ok(Some(refusal)),
        None => first_headers_break(alloc, table),
    }
}

/// Refuses a table by the first rule of types that it breaks, or else by the first one of headers.
pub fn check_headers(alloc: Global, table: &Table) -> Result<(), Stop<Refusal>>
    ensures unbroken { OnOk result (IsUnbroken table.now) }
    ensures refused { IfErr result (λ stop. IsHeadersStop table.now stop) }
{
    match first_break(alloc, table)? {
        Some(refusal) => Err(Stop::Refused(refusal)),
        None => Ok(()),
    }
}
