//! Names with the classes and type parameters that they name.
ghost use Rattle.std.specs.Prelude.{◌≡◌, OnOk, slice_get};
ghost use Rattle.jc_declares.specs.Heads.{name_of};
ghost use Rattle.jc_declares.specs.Making.{first_names};
ghost use Rattle.jc_scopes.specs.Entries.{with_entry, class_entries, variable_name, variable_entries};

use jc_declares::Heads;
use jc_rules::WantOfMemory;
use jc_types::Names;
use std::alloc::Global;

/// Adds a name, unless it is there.
pub fn add_first(
    alloc: Global,
    names: &mut Names,
    name: &str,
    place: u64,
) -> Result<(), WantOfMemory>
    ensures { OnOk result (names.new ≡ with_entry name.now place names.old) }
{
    if names.find(name).is_some() {
        return Ok(());
    }
    names.add(String::from_str(alloc, name)?, place)
}

/// The simple name of a class.
pub fn name_of(heads: &Heads, class: u64) -> &str
    ensures { result.now ≡ name_of heads.now class }
{
    match heads.classes.get(class as usize) {
        Some(head) => head.name.str(),
        None => "",
    }
}

fn variable_name(heads: &Heads, variable: u64) -> &str
    ensures { result.now ≡ variable_name (slice_get heads.now.variables variable) }
{
    match heads.variables.get(variable as usize) {
        Some(head) => head.name.str(),
        None => "",
    }
}

/// Adds the names of classes, each once, where it stands first.
pub fn add_classes(
    alloc: Global,
    names: &mut Names,
    heads: &Heads,
    numbers: &[u64],
) -> Result<(), WantOfMemory>
    ensures { OnOk result (names.new ≡ first_names names.old (class_entries heads.now numbers.now)) }
{
    for number in numbers {
        add_first(alloc, names, name_of(heads, *number), *number)?;
    }
    Ok(())
}

/// Adds the names of type parameters, each once, where it stands first.
pub fn add_variables(
    alloc: Global,
    names: &mut Names,
    heads: &Heads,
    numbers: &[u64],
) -> Result<(), WantOfMemory>
    ensures { OnOk result (names.new ≡ first_names names.old (variable_entries heads.now numbers.now)) }
{
    for number in numbers {
        add_first(alloc, names, variable_name(heads, *number), *number)?;
    }
    Ok(())
}
