//! Classes that are added to a table.
ghost use Rattle.std.specs.Prelude.{◌≡◌, ◌∷◌, ◌++◌, [], None, Some, IsTrue, length, string_bytes, IfOk, OnOk, OnErr};
ghost use Rattle.std.specs.Option.{option_map};
ghost use Rattle.jc_types.specs.Names.{named};
ghost use Rattle.jc_types.specs.Tables.{IsTable};
ghost use Rattle.jc_tables.specs.Making.{with_class, class_stands, IsNewName};

use jc_rules::WantOfMemory;
use jc_types::{ClassDecl, ClassId, Names, Table};
use std::alloc::Global;

/// Adds a class or interface. The index gets its binary name, if no earlier class has that.
pub fn push_class(
    alloc: Global,
    table: &mut Table,
    class: ClassDecl,
) -> Result<ClassId, WantOfMemory>
    ensures id { IfOk result (λ id. id.0 ≡ length table.old.classes) }
    ensures made { OnOk result (table.new ≡ with_class table.old class) }
    ensures kept { OnOk result (IsTable table.old → IsTrue (class_stands table.new class) → IsTable table.new) }
    ensures unchanged { OnErr result (table.new ≡ table.old) }
{
    let id = ClassId(table.classes.len() as u64);
    put_class(alloc, table, class)?;
    Ok(id)
}

fn put_class(alloc: Global, table: &mut Table, class: ClassDecl) -> Result<(), WantOfMemory>
    ensures ok { OnOk result (table.new ≡ with_class table.old class) }
    ensures err { OnErr result (table.new ≡ table.old) }
{
    match new_name(alloc, &table.index, &class)? {
        Some(name) => push_named(table, class, name),
        None => table.classes.push(class),
    }
}

// A class's binary name, if the index doesn't have it.
fn new_name(alloc: Global, index: &Names, class: &ClassDecl) -> Result<Option<String>, WantOfMemory>
    ensures { IfOk result (λ r. IsNewName index.now class.now.binary (option_map string_bytes r)) }
{
    let name = class.binary.str();
    if index.find(name).is_some() {
        return Ok(None);
    }
    Ok(Some(String::from_str(alloc, name)?))
}

// Adds a class of a name that isn't there.
fn push_named(table: &mut Table, class: ClassDecl, name: String) -> Result<(), WantOfMemory>
    requires { named (string_bytes name) table.old.index ≡ None }
    ensures ok { OnOk result (table.new ≡ record table.old { classes = table.old.classes ++ class ∷ []; index = table.old.index ++ (string_bytes name, length table.old.classes) ∷ [] }) }
    ensures err { OnErr result (table.new ≡ table.old) }
{
    let place = table.classes.len() as u64;
    table.classes.push(class)?;
    match table.index.add(name, place) {
        Ok(()) => Ok(()),
        Err(want) => {
            let _last = table.classes.pop();
            Err(want)
        }
    }
}
