//! The stage of types.
ghost use Rattle.std.specs.Prelude.{◌≡◌, IfOk, None};
ghost use Rattle.std.specs.Option.{option_copied};
ghost use Rattle.jc_types.specs.Breaks.{least};
ghost use Rattle.jc_header_rules.specs.Places.{of_each};
ghost use Rattle.jc_header_rules.specs.Types.{class_broken, field_broken, method_broken, types_breaks, use_broken, variable_broken, written_broken};
ghost use Rattle.jc_type_rules.specs.Depending.{AreDepending};

use crate::depending::{depending, is_marked};
use crate::variables::variable_broken;
use crate::written::{supertypes_broken, type_broken, types_broken};
use jc_rules::{Refusal, WantOfMemory};
use jc_types::{ClassDecl, FieldDecl, MethodDecl, Table, Use, UseKind, VariableDecl, Written};
use std::alloc::Global;

#[tactic(auto, using(jc_header_rules::proofs::Turning::turning))]
fn class_broken(
    alloc: Global,
    table: &Table,
    found: Option<Refusal>,
    number: u64,
    class: &ClassDecl,
) -> Result<Option<Refusal>, WantOfMemory>
    ensures { IfOk result (λ r. r ≡ least found (class_broken table.now number class.now)) }
{
    let found = types_broken(alloc, table, found, &class.supers)?;
    Ok(supertypes_broken(found, &class.supers))
}

fn written_broken(
    alloc: Global,
    table: &Table,
    found: Option<Refusal>,
    written: Option<&Written>,
) -> Result<Option<Refusal>, WantOfMemory>
    ensures { IfOk result (λ r. r ≡ least found (written_broken table.now (option_copied written.entry))) }
{
    match written {
        None => Ok(found),
        Some(w) => type_broken(alloc, table, found, &w.ty, &w.places),
    }
}

#[tactic(auto, using(jc_header_rules::proofs::Turning::turning))]
fn method_broken(
    alloc: Global,
    table: &Table,
    found: Option<Refusal>,
    number: u64,
    method: &MethodDecl,
) -> Result<Option<Refusal>, WantOfMemory>
    ensures { IfOk result (λ r. r ≡ least found (method_broken table.now number method.now)) }
{
    let found = types_broken(alloc, table, found, &method.params)?;
    let found = written_broken(alloc, table, found, method.result.as_ref())?;
    types_broken(alloc, table, found, &method.thrown)
}

fn field_broken(
    alloc: Global,
    table: &Table,
    found: Option<Refusal>,
    number: u64,
    field: &FieldDecl,
) -> Result<Option<Refusal>, WantOfMemory>
    ensures { IfOk result (λ r. r ≡ least found (field_broken table.now number field.now)) }
{
    type_broken(alloc, table, found, &field.ty.ty, &field.ty.places)
}

fn use_broken(
    alloc: Global,
    table: &Table,
    found: Option<Refusal>,
    number: u64,
    written: &Use,
) -> Result<Option<Refusal>, WantOfMemory>
    ensures { IfOk result (λ r. r ≡ least found (use_broken table.now number written.now)) }
{
    match written.kind {
        UseKind::Type => type_broken(alloc, table, found, &written.ty.ty, &written.ty.places),
        UseKind::Diamond => Ok(found),
    }
}

fn classes_broken(
    alloc: Global,
    table: &Table,
    found: Option<Refusal>,
    classes: &[ClassDecl],
) -> Result<Option<Refusal>, WantOfMemory>
    ensures { IfOk result (λ r. r ≡ least found (of_each (class_broken table.now) 0 classes.now)) }
{
    let mut found = found;
    for number in 0..classes.len() {
        found = class_broken(alloc, table, found, number as u64, &classes[number])?;
    }
    Ok(found)
}

fn methods_broken(
    alloc: Global,
    table: &Table,
    found: Option<Refusal>,
    methods: &[MethodDecl],
) -> Result<Option<Refusal>, WantOfMemory>
    ensures { IfOk result (λ r. r ≡ least found (of_each (method_broken table.now) 0 methods.now)) }
{
    let mut found = found;
    for number in 0..methods.len() {
        found = method_broken(alloc, table, found, number as u64, &methods[number])?;
    }
    Ok(found)
}

fn fields_broken(
    alloc: Global,
    table: &Table,
    found: Option<Refusal>,
    fields: &[FieldDecl],
) -> Result<Option<Refusal>, WantOfMemory>
    ensures { IfOk result (λ r. r ≡ least found (of_each (field_broken table.now) 0 fields.now)) }
{
    let mut found = found;
    for number in 0..fields.len() {
        found = field_broken(alloc, table, found, number as u64, &fields[number])?;
    }
    Ok(found)
}

fn variables_broken(
    alloc: Global,
    table: &Table,
    found: Option<Refusal>,
    marks: &[bool],
    variables: &[VariableDecl],
) -> Result<Option<Refusal>, WantOfMemory>
    requires same { variables.now ≡ table.now.variables }
    requires marks { AreDepending table.now marks.now }
    ensures { IfOk result (λ r. r ≡ least found (of_each (variable_broken table.now) 0 variables.now)) }
{
    let mut found = found;
    for number in 0..variables.len() {
        let depends = is_marked(marks, number);
        found = variable_broken(
            alloc,
            table,
            found,
            number as u64,
            &variables[number],
            depends,
        )?;
    }
    Ok(found)
}

fn uses_broken(
    alloc: Global,
    table: &Table,
    found: Option<Refusal>,
    uses: &[Use],
) -> Result<Option<Refusal>, WantOfMemory>
    ensures { IfOk result (λ r. r ≡ least found (of_each (use_broken table.now) 0 uses.now)) }
{
    let mut found = found;
    for number in 0..uses.len() {
        found = use_broken(alloc, table, found, number as u64, &uses[number])?;
    }
    Ok(found)
}

/// The first broken rule of the stage of types, if one is broken: 401 to 409.
#[tactic(auto, using(jc_header_rules::proofs::Turning::turning))]
pub fn first_types_break(alloc: Global, table: &Table) -> Result<Option<Refusal>, WantOfMemory>
    ensures { IfOk result (λ r. r ≡ least None (types_breaks table.now)) }
{
    let marks = depending(alloc, table)?;
    let found = classes_broken(alloc, table, None, table.classes.slice())?;
    let found = methods_broken(alloc, table, found, table.methods.slice())?;
    let found = fields_broken(alloc, table, found, table.fields.slice())?;
    let found = variables_broken(alloc, table, found, marks.slice(), table.variables.slice())?;
    uses_broken(alloc, table, found, table.uses.slice())
}
