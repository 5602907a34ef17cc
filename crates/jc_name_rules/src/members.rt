//! Fields and type parameters of one name (JLS 8.1.2, 8.3, 8.4.4).
ghost use Rattle.std.specs.Prelude.{◌≡◌, [], slice_get, IfOk};
ghost use Rattle.jc_types.specs.Breaks.{least};
ghost use Rattle.jc_declares.specs.HeadBreaks.{of_each, class_file, owner_file, twice_field, twice_variable};
ghost use Rattle.jc_name_index.specs.Index.{IsIndex};
ghost use Rattle.jc_name_index.specs.Spaces.{noted_all};
ghost use Rattle.jc_name_rules.specs.Numbers.{as_field, owner_named};

use crate::classes::is_first;
use jc_declares::{FieldHead, Heads, VariableHead};
use jc_name_index::{Indexed, Spaces};
use jc_rules::{Place, Refusal, Rule, WantOfMemory};
use jc_types::Owner;
use jc_written::or_break;
use std::alloc::Global;

/// The file of a class.
pub fn class_file(heads: &Heads, class: u64) -> u64
    ensures { result ≡ class_file heads.now class }
{
    match heads.classes.get(class as usize) {
        Some(head) => head.file,
        None => 0,
    }
}

fn owner_file(heads: &Heads, owner: Owner) -> u64
    ensures { result ≡ owner_file heads.now owner }
{
    match owner {
        Owner::Class(class) => class_file(heads, class.0),
        Owner::Method(method) => match heads.methods.get(method.0 as usize) {
            Some(place) => class_file(heads, place.class),
            None => class_file(heads, 0),
        },
    }
}

/// The fields, by their classes and names.
fn fields_noted(alloc: Global, fields: &[FieldHead]) -> Result<Spaces, WantOfMemory>
    ensures { IfOk result (λ it. it ≡ noted_all as_field 0 fields.now []) }
{
    let mut noted = Spaces::new(alloc, 0)?;
    for number in 0..fields.len() {
        let field = &fields[number];
        noted.note(alloc, field.class, &field.name, number as u64)?;
    }
    Ok(noted)
}

/// The rule that a field breaks whose class has an earlier one of its name.
#[tactic(auto, using(crate::proofs::Firsts::field_told))]
fn field_broken(
    heads: &Heads,
    noted: &Spaces,
    number: u64,
    field: &FieldHead,
    found: Option<Refusal>,
) -> Option<Refusal>
    requires noted { noted.now ≡ noted_all as_field 0 heads.now.fields [] }
    requires is { slice_get heads.now.fields number ≡ Some field.now }
    ensures { result ≡ least found (twice_field heads.now number field.now) }
{
    if is_first(noted.find(field.class, field.name.str()), number) {
        return found;
    }
    let place = Place {
        file: class_file(heads, field.class),
        at: field.at,
    };
    or_break(found, Rule::known(307), place)
}

/// The first of the fields that are declared twice.
#[tactic(auto, using(crate::proofs::Counting::counting))]
pub fn fields_broken(
    alloc: Global,
    heads: &Heads,
    found: Option<Refusal>,
) -> Result<Option<Refusal>, WantOfMemory>
    ensures { IfOk result (λ it. it ≡ least found (of_each (twice_field heads.now) 0 heads.now.fields)) }
{
    let noted = fields_noted(alloc, heads.fields.slice())?;
    let mut found = found;
    let fields = heads.fields.slice();
    for number in 0..fields.len() {
        found = field_broken(heads, &noted, number as u64, &fields[number], found);
    }
    Ok(found)
}

/// The first type parameter of a name and an owner.
fn first_variable(declared: &Indexed, variable: &VariableHead) -> Option<u64>
    requires { IsIndex declared.now.heads.now declared.now.index.now }
    ensures { result ≡ owner_named declared.now.heads.now variable.now.owner variable.now.name }
{
    match variable.owner {
        Owner::Class(class) => declared.class_variable(class.0, variable.name.str()),
        Owner::Method(method) => declared.method_variable(method.0, variable.name.str()),
    }
}

/// The rule that a type parameter breaks where its owner has an earlier one of its name.
#[tactic(auto, using(crate::proofs::Firsts::variable_told))]
fn variable_broken(
    declared: &Indexed,
    number: u64,
    variable: &VariableHead,
    found: Option<Refusal>,
) -> Option<Refusal>
    requires index { IsIndex declared.now.heads.now declared.now.index.now }
    requires is { slice_get declared.now.heads.now.variables number ≡ Some variable.now }
    ensures { result ≡ least found (twice_variable declared.now.heads.now number variable.now) }
{
    if is_first(first_variable(declared, variable), number) {
        return found;
    }
    let place = Place {
        file: owner_file(declared.heads, variable.owner),
        at: variable.at,
    };
    or_break(found, Rule::known(307), place)
}

/// The first of the type parameters that are declared twice.
#[tactic(auto, using(crate::proofs::Counting::counting))]
pub fn variables_broken(declared: &Indexed, found: Option<Refusal>) -> Option<Refusal>
    requires { IsIndex declared.now.heads.now declared.now.index.now }
    ensures { result ≡ least found (of_each (twice_variable declared.now.heads.now) 0 declared.now.heads.now.variables) }
{
    let mut found = found;
    let variables = declared.heads.variables.slice();
    for number in 0..variables.len() {
        found = variable_broken(declared, number as u64, &variables[number], found);
    }
    found
}
