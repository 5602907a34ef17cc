//! What units add: their types and single imports by their names, and their imports on demand (JLS 7.5).
ghost use Rattle.std.specs.Prelude.{◌≡◌, ◌++◌, [], IfOk, OnOk};
ghost use Rattle.jc_declares.specs.Heads.{imports_of, types_of_unit};
ghost use Rattle.jc_declares.specs.Looking.{single_of, last_part, singles};
ghost use Rattle.jc_declares.specs.Making.{first_names, demand_by, demands};
ghost use Rattle.jc_name_index.specs.Index.{IsIndex};
ghost use Rattle.jc_groups.specs.Members.{AreMembers};
ghost use Rattle.jc_imports.specs.Founds.{found_of};

use crate::entries::{add_classes, add_first};
use jc_declares::{ImportHead, Path};
use jc_groups::Members;
use jc_imports::{Found, imported};
use jc_name_index::Indexed;
use jc_rules::{Items, Place, Text, WantOfMemory};
use jc_types::{ClassId, Demand, Names};
use std::alloc::Global;

/// The imports of a unit.
pub fn imports_of<'a>(declared: &Indexed<'a>, unit: u64) -> &'a [ImportHead]
    ensures { result.now ≡ imports_of declared.now.heads.now unit }
{
    match declared.heads.units.get(unit as usize) {
        Some(head) => head.imports.slice(),
        None => &[],
    }
}

/// The last part of a name.
fn last_part(path: &Path) -> &Text
    ensures { result.now ≡ last_part path.now.first path.now.more }
{
    let mut last = &path.first;
    for part in path.more.slice() {
        last = part;
    }
    last
}

/// Adds the name under which a single import imports a type, unless it is there.
fn add_single(
    alloc: Global,
    names: &mut Names,
    import: &ImportHead,
    found: &Found,
) -> Result<(), WantOfMemory>
    ensures { OnOk result (names.new ≡ first_names names.old (single_of import.now (found_of found.now))) }
{
    if import.on_demand {
        return Ok(());
    }
    match found {
        Found::AtClass(class) => add_first(alloc, names, last_part(&import.path).str(), *class),
        Found::InPackage(_) => Ok(()),
        Found::Nowhere => Ok(()),
    }
}

#[tactic(auto, using(crate::proofs::FirstNames::firsts))]
fn add_singles(
    alloc: Global,
    names: &mut Names,
    declared: &Indexed,
    imports: &[ImportHead],
) -> Result<(), WantOfMemory>
    requires { IsIndex declared.now.heads.now declared.now.index.now }
    ensures { OnOk result (names.new ≡ first_names names.old (singles declared.now.heads.now imports.now)) }
{
    for import in imports {
        let found = imported(alloc, declared, import)?;
        add_single(alloc, names, import, &found)?;
    }
    Ok(())
}

/// The types of a unit and its single imports, by their names.
#[tactic(auto, using(crate::proofs::FirstNames::firsts, crate::proofs::Entered::tops_entered))]
pub fn own_names(
    alloc: Global,
    declared: &Indexed,
    members: &Members,
    unit: u64,
) -> Result<Names, WantOfMemory>
    requires index { IsIndex declared.now.heads.now declared.now.index.now }
    requires members { AreMembers declared.now.heads.now members.now }
    ensures { let H = declared.now.heads.now in IfOk result (λ it. it ≡ first_names [] (singles H (imports_of H unit) ++ types_of_unit H unit)) }
{
    let mut names = Names::new(alloc);
    add_singles(alloc, &mut names, declared, imports_of(declared, unit))?;
    add_classes(alloc, &mut names, declared.heads, members.tops.group(unit))?;
    Ok(names)
}

/// Adds what an import on demand imports from.
fn push_demand(
    list: &mut Items<Demand>,
    file: u64,
    import: &ImportHead,
    found: Found,
) -> Result<(), WantOfMemory>
    ensures { OnOk result (list.new ≡ list.old ++ demand_by file import.now (found_of found)) }
{
    if !import.on_demand {
        return Ok(());
    }
    let place = Place {
        file,
        at: import.at,
    };
    match found {
        Found::InPackage(name) => list.push(Demand::Package { place, name }),
        Found::AtClass(class) => list.push(Demand::Type {
            place,
            class: ClassId(class),
        }),
        Found::Nowhere => Ok(()),
    }
}

/// What the imports on demand of a unit import from.
pub fn demands(
    alloc: Global,
    declared: &Indexed,
    file: u64,
    imports: &[ImportHead],
) -> Result<Items<Demand>, WantOfMemory>
    requires { IsIndex declared.now.heads.now declared.now.index.now }
    ensures { IfOk result (λ it. it ≡ demands declared.now.heads.now file imports.now) }
{
    let mut list = Items::new(alloc);
    for import in imports {
        let found = imported(alloc, declared, import)?;
        push_demand(&mut list, file, import, found)?;
    }
    Ok(list)
}
