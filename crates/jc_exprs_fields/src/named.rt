//! The fields of a name that a settled type has (JLS 4.9).
ghost use Rattle.std.specs.Prelude.{◌≡◌, ◌++◌, [], IfOk, OnOk};
ghost use Rattle.jc_exprs_parts_spec.specs.Fields.{fields_by_class, fields_named, fields_of_parts, member_fields, merged, not_private};

use crate::declared::{field_access, is_private};
use crate::hiding::{class_fields, is_among};
use jc_rules::{Items, WantOfMemory};
use jc_sub::class_of;
use jc_types::{ClassId, FieldId, Table, Ty};
use std::alloc::Global;

fn fields_by_class(
    alloc: Global,
    table: &Table,
    name: &str,
    class: Option<ClassId>,
) -> Result<Items<FieldId>, WantOfMemory>
    ensures { IfOk result (λ fields. fields ≡ fields_by_class table.now name.now class) }
{
    match class {
        None => Ok(Items::new(alloc)),
        Some(class) => class_fields(alloc, table, class, name),
    }
}

// These as well, each once.
fn merge(found: &mut Items<FieldId>, fields: &[FieldId]) -> Result<(), WantOfMemory>
    ensures { OnOk result (found.new ≡ merged found.old fields.now) }
{
    let mut rest = fields;
    while let [field, more @ ..] = rest {
        if !is_among(*field, found.slice()) {
            found.push(*field)?;
        }
        rest = more;
    }
    Ok(())
}

fn fields_of_parts(
    alloc: Global,
    table: &Table,
    name: &str,
    parts: &[Ty],
) -> Result<Items<FieldId>, WantOfMemory>
    ensures { IfOk result (λ fields. fields ≡ fields_of_parts table.now name.now parts.now []) }
{
    let mut found = Items::new(alloc);
    let mut rest = parts;
    while let [part, more @ ..] = rest {
        let fields = fields_by_class(alloc, table, name, class_of(part))?;
        merge(&mut found, fields.slice())?;
        rest = more;
    }
    Ok(found)
}

/// The fields of a name that a settled type has: an intersection has those of its parts.
#[tactic(auto, using(jc_types::proofs::Opened::opened), unfolding(jc_exprs_parts_spec::specs::Fields::fields_named))]
pub fn fields_named(
    alloc: Global,
    table: &Table,
    ty: &Ty,
    name: &str,
) -> Result<Items<FieldId>, WantOfMemory>
    ensures { IfOk result (λ fields. fields ≡ fields_named table.now ty.now name.now) }
{
    match ty {
        Ty::Meet { parts } => fields_of_parts(alloc, table, name, parts.slice()),
        _ => fields_by_class(alloc, table, name, class_of(ty)),
    }
}

// Of these fields the ones that aren't private.
fn push_not_private(
    table: &Table,
    fields: &[FieldId],
    out: &mut Items<FieldId>,
) -> Result<(), WantOfMemory>
    ensures { OnOk result (out.new ≡ out.old ++ not_private table.now fields.now) }
{
    let mut rest = fields;
    while let [field, more @ ..] = rest {
        if !is_private(field_access(table, *field)) {
            out.push(*field)?;
        }
        rest = more;
    }
    Ok(())
}

/// The fields of a name that are members of a settled type: where they are those of bounds, none of them is private (JLS 4.4, 4.9).
pub fn member_fields(
    alloc: Global,
    table: &Table,
    ty: &Ty,
    by_bounds: bool,
    name: &str,
) -> Result<Items<FieldId>, WantOfMemory>
    ensures { IfOk result (λ fields. fields ≡ member_fields table.now ty.now by_bounds name.now) }
{
    let fields = fields_named(alloc, table, ty, name)?;
    if !by_bounds {
        return Ok(fields);
    }
    let mut open = Items::new(alloc);
    push_not_private(table, fields.slice(), &mut open)?;
    Ok(open)
}
