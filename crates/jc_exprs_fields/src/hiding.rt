//! The fields of a name that a class has (JLS 8.2, 8.3, 9.2, 9.3).
ghost use Rattle.std.specs.Prelude.{◌≡◌, ◌++◌, [], IfOk, OnOk, slice_get};
ghost use Rattle.jc_exprs_parts_spec.specs.Fields.{class_fields, field_name_in, fields_above, fields_within, inherited, is_among, is_inherited, named_fields, of_supers};
ghost use Rattle.std.specs.Str.{bytes_eq};
ghost use Rattle.jc_types.specs.Accessors.{supers_of};

use crate::declared::{field_access, field_class};
use jc_members::is_open_to;
use jc_rules::{Items, WantOfMemory};
use jc_sub::class_of;
use jc_types::{
    ClassId, FieldId, Table, Ty, class_fields as own_fields, class_package, class_supers, field_at,
};
use std::alloc::Global;

fn has_name(table: &Table, field: FieldId, name: &str) -> bool
    ensures { result ≡ bytes_eq name.now (field_name_in (slice_get table.now.fields field.0)) }
{
    match field_at(table, field) {
        Some(declaration) => name == declaration.name.str(),
        None => name == "",
    }
}

// Of these fields those of a name.
fn push_named(
    table: &Table,
    name: &str,
    fields: &[FieldId],
    out: &mut Items<FieldId>,
) -> Result<(), WantOfMemory>
    ensures { OnOk result (out.new ≡ out.old ++ named_fields table.now name.now fields.now) }
{
    let mut rest = fields;
    while let [field, more @ ..] = rest {
        if has_name(table, *field, name) {
            out.push(*field)?;
        }
        rest = more;
    }
    Ok(())
}

// Whether a class inherits a field: private fields aren't inherited, and those of a package only in it.
fn is_inherited(table: &Table, class: ClassId, field: FieldId) -> bool
    ensures { result ≡ is_inherited table.now class field }
{
    let of = field_class(table, field);
    let same_package = class_package(table, class) == class_package(table, of);
    is_open_to(field_access(table, field), same_package)
}

/// Whether a field is one of these.
pub fn is_among(field: FieldId, fields: &[FieldId]) -> bool
    ensures { result ≡ is_among field fields.now }
{
    let mut rest = fields;
    while let [other, more @ ..] = rest {
        if field.0 == other.0 {
            return true;
        }
        rest = more;
    }
    false
}

// What a class inherits of these, each once.
fn inherit(
    table: &Table,
    class: ClassId,
    fields: &[FieldId],
    found: &mut Items<FieldId>,
) -> Result<(), WantOfMemory>
    ensures { OnOk result (found.new ≡ inherited table.now class found.old fields.now) }
{
    let mut rest = fields;
    while let [field, more @ ..] = rest {
        if is_inherited(table, class, *field) && !is_among(*field, found.slice()) {
            found.push(*field)?;
        }
        rest = more;
    }
    Ok(())
}

// The fields of a name that a class has, in so many steps upwards.
#[cycle(fields)]
#[tactic(auto, using(crate::proofs::Within::within_laws))]
fn fields_within(
    alloc: Global,
    table: &Table,
    name: &str,
    steps: usize,
    class: ClassId,
) -> Result<Items<FieldId>, WantOfMemory>
    ensures { IfOk result (λ fields. fields ≡ fields_within table.now name.now steps class) }
{
    let mut found = Items::new(alloc);
    if steps == 0 {
        return Ok(found);
    }
    push_named(table, name, own_fields(table, class), &mut found)?;
    if !found.is_empty() {
        return Ok(found);
    }
    inherited_fields(alloc, table, name, steps - 1, class)
}

// .. of a class that declares none itself.
#[cycle(fields)]
fn inherited_fields(
    alloc: Global,
    table: &Table,
    name: &str,
    steps: usize,
    class: ClassId,
) -> Result<Items<FieldId>, WantOfMemory>
    ensures { IfOk result (λ fields. fields ≡ of_supers table.now (fields_above (fields_within table.now name.now steps)) class (supers_of table.now class) []) }
{
    let mut found = Items::new(alloc);
    let mut rest = class_supers(table, class);
    while let [ty, more @ ..] = rest {
        let fields = fields_above(alloc, table, name, steps, class_of(ty))?;
        inherit(table, class, fields.slice(), &mut found)?;
        rest = more;
    }
    Ok(found)
}

#[cycle(fields)]
fn fields_above(
    alloc: Global,
    table: &Table,
    name: &str,
    steps: usize,
    class: Option<ClassId>,
) -> Result<Items<FieldId>, WantOfMemory>
    ensures { IfOk result (λ fields. fields ≡ fields_above (fields_within table.now name.now steps) class) }
{
    match class {
        None => Ok(Items::new(alloc)),
        Some(class) => fields_within(alloc, table, name, steps, class),
    }
}

/// The fields of a name that are members of a class: several where it inherits them from several types.
#[tactic(auto, unfolding(jc_exprs_parts_spec::specs::Fields::class_fields))]
pub fn class_fields(
    alloc: Global,
    table: &Table,
    class: ClassId,
    name: &str,
) -> Result<Items<FieldId>, WantOfMemory>
    ensures { IfOk result (λ fields. fields ≡ class_fields table.now class name.now) }
{
    fields_within(alloc, table, name, table.classes.slice().len() + 1, class)
}
