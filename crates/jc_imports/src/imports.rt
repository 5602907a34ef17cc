//! The imports of units.
ghost use Rattle.std.specs.Prelude.{◌≡◌, IfOk, OnOk, map, ◌++◌};
ghost use Rattle.jc_declares.specs.Looking.{single_of, last_part};
ghost use Rattle.jc_name_index.specs.Spaces.{with_first};
ghost use Rattle.jc_name_index.specs.Index.{IsIndex};
ghost use Rattle.jc_imports.specs.Founds.{found_of};
ghost use Rattle.jc_imports.specs.Imported.{with_firsts, demand_of, imports_by, imports_seen, IsImports};

use crate::canonical::{Found, imported};
use jc_declares::{ImportHead, Path};
use jc_name_index::Indexed;
use jc_rules::{Items, Text, WantOfMemory};
use jc_types::Names;
use std::alloc::Global;

/// What the imports of a unit name (JLS 7.5): all of them in their order, the types that single ones import by their simple names, and
/// what those on demand import from.
#[derive(Drop)]
pub struct UnitImports {
    pub found: Items<Found>,
    pub singles: Names,
    pub demands: Items<Found>,
}

/// What the imports of each unit name.
#[derive(Drop)]
pub struct Imports {
    pub units: Items<UnitImports>,
}

/// The last part of a name.
fn last_part(path: &Path) -> &Text
    ensures { result.now ≡ last_part path.now.first path.now.more }
{
    let mut last = &path.first;
    for part in path.more.slice() {
        last = part;
    }
    last
}

/// Adds a name to others, unless it is there.
fn add_first(alloc: Global, names: &mut Names, name: &Text, place: u64) -> Result<(), WantOfMemory>
    ensures { OnOk result (names.new ≡ with_first name.now place names.old) }
{
    if names.find(name.str()).is_some() {
        return Ok(());
    }
    names.add(String::from_str(alloc, name.str())?, place)
}

fn note_single(
    alloc: Global,
    singles: &mut Names,
    import: &ImportHead,
    found: &Found,
) -> Result<(), WantOfMemory>
    ensures { OnOk result (singles.new ≡ with_firsts (single_of import.now (found_of found.now)) singles.old) }
{
    if import.on_demand {
        return Ok(());
    }
    match found {
        Found::AtClass(class) => add_first(alloc, singles, last_part(&import.path), *class),
        Found::InPackage(_) => Ok(()),
        Found::Nowhere => Ok(()),
    }
}

fn copy_found(alloc: Global, found: &Found) -> Result<Found, WantOfMemory>
    ensures { IfOk result (λ copy. found_of copy ≡ found_of found.now) }
{
    match found {
        Found::InPackage(package) => Ok(Found::InPackage(Text::copied(alloc, package.str())?)),
        Found::AtClass(class) => Ok(Found::AtClass(*class)),
        Found::Nowhere => Ok(Found::Nowhere),
    }
}

fn note_demand(
    alloc: Global,
    demands: &mut Items<Found>,
    import: &ImportHead,
    found: &Found,
) -> Result<(), WantOfMemory>
    ensures { OnOk result (map found_of demands.new ≡ map found_of demands.old ++ demand_of import.now (found_of found.now)) }
{
    if !import.on_demand {
        return Ok(());
    }
    demands.push(copy_found(alloc, found)?)
}

/// What the imports of a unit name.
fn unit_imports(
    alloc: Global,
    declared: &Indexed,
    imports: &[ImportHead],
) -> Result<UnitImports, WantOfMemory>
    requires { IsIndex declared.now.heads.now declared.now.index.now }
    ensures { IfOk result (λ it. imports_seen it ≡ imports_by declared.now.heads.now imports.now) }
{
    let mut found = Items::new(alloc);
    let mut singles = Names::new(alloc);
    let mut demands = Items::new(alloc);
    for import in imports {
        let named = imported(alloc, declared, import)?;
        note_single(alloc, &mut singles, import, &named)?;
        note_demand(alloc, &mut demands, import, &named)?;
        found.push(named)?;
    }
    Ok(UnitImports {
        found,
        singles,
        demands,
    })
}

/// What the imports of these heads name.
pub fn imports_of(alloc: Global, declared: &Indexed) -> Result<Imports, WantOfMemory>
    requires { IsIndex declared.now.heads.now declared.now.index.now }
    ensures { IfOk result (λ it. IsImports declared.now.heads.now it) }
{
    let mut units = Items::new(alloc);
    for unit in declared.heads.units.slice() {
        units.push(unit_imports(alloc, declared, unit.imports.slice())?)?;
    }
    Ok(Imports { units })
}
