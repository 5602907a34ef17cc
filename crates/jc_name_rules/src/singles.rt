//! What single imports import, by their simple names.
ghost use Rattle.std.specs.Prelude.{◌≡◌, ◌++◌, [], OnOk, IfOk};
ghost use Rattle.jc_declares.specs.Heads.{Named};
ghost use Rattle.jc_declares.specs.HeadBreaks.{some_in};
ghost use Rattle.jc_declares.specs.Looking.{single_of, last_part, singles};
ghost use Rattle.jc_name_index.specs.Index.{IsIndex};
ghost use Rattle.jc_imports.specs.Founds.{found_of};
ghost use Rattle.jc_name_rules.specs.Singles.{AreSingles, other_by, other_in, entry_of, with_single, with_entries};

use jc_declares::{ImportHead, Path};
use jc_imports::{Found, imported};
use jc_name_index::Indexed;
use jc_rules::{Text, WantOfMemory};
use jc_types::Names;
use std::alloc::Global;

/// The first type of each simple name that single imports import, and the names under which they import several.
#[derive(Drop)]
pub struct Singles {
    firsts: Names,
    several: Names,
}

/// Whether no single import was noted.
pub fn no_singles(alloc: Global) -> Singles
    ensures { AreSingles [] result }
{
    Singles {
        firsts: Names::new(alloc),
        several: Names::new(alloc),
    }
}

/// The last part of a name.
fn last_part(path: &Path) -> &Text
    ensures { result.now ≡ last_part path.now.first path.now.more }
{
    let mut last = &path.first;
    for part in path.more.slice() {
        last = part;
    }
    last
}

/// The class that a single import imports.
fn single_class(import: &ImportHead, found: &Found) -> Option<u64>
    ensures { single_of import.now (found_of found.now) ≡ entry_of (last_part import.now.path.first import.now.path.more) result }
{
    if import.on_demand {
        return None;
    }
    match found {
        Found::AtClass(class) => Some(*class),
        Found::InPackage(_) => None,
        Found::Nowhere => None,
    }
}

fn add_entry(
    alloc: Global,
    singles: &mut Singles,
    name: &Text,
    class: u64,
) -> Result<(), WantOfMemory>
    ensures { OnOk result (singles.new ≡ with_single name.now class singles.old) }
{
    let Some(first) = singles.firsts.find(name.str()) else {
        return singles
            .firsts
            .add(String::from_str(alloc, name.str())?, class);
    };
    if first == class || singles.several.find(name.str()).is_some() {
        return Ok(());
    }
    singles
        .several
        .add(String::from_str(alloc, name.str())?, class)
}

/// Notes what a single import imports.
pub fn note(
    alloc: Global,
    singles: &mut Singles,
    import: &ImportHead,
    found: &Found,
) -> Result<(), WantOfMemory>
    ensures { OnOk result (singles.new ≡ with_entries (single_of import.now (found_of found.now)) singles.old) }
{
    match single_class(import, found) {
        Some(class) => add_entry(alloc, singles, last_part(&import.path), class),
        None => Ok(()),
    }
}

fn other_by(first: Option<u64>, several: bool, class: u64) -> bool
    ensures { result ≡ other_by first several class }
{
    match first {
        None => several,
        Some(first) => several || first != class,
    }
}

/// Whether another type is imported under a name.
pub fn has_other(singles: &Singles, name: &Text, class: u64) -> bool
    ensures { (es : Named) → AreSingles es singles.now → result ≡ other_in name.now class es }
{
    let several = singles.several.find(name.str()).is_some();
    other_by(singles.firsts.find(name.str()), several, class)
}

/// Whether another type is imported under the name of what an import imports.
pub fn is_imported_twice(singles: &Singles, import: &ImportHead, found: &Found) -> bool
    ensures { (es : Named) → AreSingles es singles.now → result ≡ some_in (λ e. other_in e.0 e.1 es) (single_of import.now (found_of found.now)) }
{
    match single_class(import, found) {
        Some(class) => has_other(singles, last_part(&import.path), class),
        None => false,
    }
}

/// What the single imports of a unit import.
#[tactic(auto, using(crate::proofs::Singled::entries))]
pub fn singles_of(
    alloc: Global,
    declared: &Indexed,
    imports: &[ImportHead],
) -> Result<Singles, WantOfMemory>
    requires { IsIndex declared.now.heads.now declared.now.index.now }
    ensures { IfOk result (λ it. AreSingles (singles declared.now.heads.now imports.now) it) }
{
    let mut singles = no_singles(alloc);
    for import in imports {
        let found = imported(alloc, declared, import)?;
        note(alloc, &mut singles, import, &found)?;
    }
    Ok(singles)
}
