//! Imports (JLS 7.5): types that are imported twice (301), what isn't there (306), and what can't be named (310).
ghost use Rattle.std.specs.Prelude.{◌≡◌, ℕ, ◌&&◌, not, IfOk, drop};
ghost use Rattle.jc_types.specs.Breaks.{least};
ghost use Rattle.jc_declares.specs.Looking.{InPackage, AtClass, single_of, is_accessible};
ghost use Rattle.jc_declares.specs.Heads.{Named};
ghost use Rattle.jc_declares.specs.HeadBreaks.{of_each, unless, broken_at, import_fits, import_breaks};
ghost use Rattle.jc_name_index.specs.Index.{IsIndex};
ghost use Rattle.jc_imports.specs.Founds.{found_of};
ghost use Rattle.jc_looking.specs.Standings.{asking};
ghost use Rattle.jc_name_rules.specs.Opened.{parts_open};
ghost use Rattle.jc_name_rules.specs.Singles.{AreSingles, twice_in, is_twice_among};

use crate::packages::is_package;
use crate::singles::{Singles, is_imported_twice, no_singles, note};
use jc_declares::{Heads, ImportHead, UnitHead};
use jc_imports::{Found, imported};
use jc_looking::is_accessible;
use jc_name_index::Indexed;
use jc_rules::{Place, Refusal, Rule, Text, WantOfMemory};
use jc_written::or_break;
use std::alloc::Global;

/// The rule that an import breaks under whose name another one of those that are noted imports another type.
fn again_broken(
    singles: &Singles,
    file: u64,
    import: &ImportHead,
    named: &Found,
    found: Option<Refusal>,
) -> Option<Refusal>
    ensures { (es : Named) → AreSingles es singles.now → result ≡ least found (unless (not (is_twice_among es (single_of import.now (found_of named.now)))) (broken_at 301 file import.now.at)) }
{
    if !is_imported_twice(singles, import, named) {
        return found;
    }
    let at = import.at;
    or_break(found, Rule::known(301), Place { file, at })
}

/// The first of the imports of a unit under whose name an earlier one imports another type.
pub fn twice_broken(
    alloc: Global,
    declared: &Indexed,
    file: u64,
    imports: &[ImportHead],
    found: Option<Refusal>,
) -> Result<Option<Refusal>, WantOfMemory>
    requires { IsIndex declared.now.heads.now declared.now.index.now }
    ensures { IfOk result (λ it. it ≡ least found (of_each (twice_in declared.now.heads.now file imports.now) 0 imports.now)) }
{
    let mut found = found;
    let mut singles = no_singles(alloc);
    for number in 0..imports.len() {
        let import = &imports[number];
        let named = imported(alloc, declared, import)?;
        found = again_broken(&singles, file, import, &named, found);
        note(alloc, &mut singles, import, &named)?;
    }
    Ok(found)
}

/// Whether each of the member types that parts name, from one on, may be named from a package.
#[tactic(auto, using(crate::proofs::PartsOpen::nowhere_open))]
fn members_open(declared: &Indexed, package: &str, class: u64, parts: &[Text], from: usize) -> bool
    requires { IsIndex declared.now.heads.now declared.now.index.now }
    ensures { result ≡ parts_open declared.now.heads.now (asking «package».now None) (AtClass class) (drop from parts.now) }
{
    let mut outer = class;
    for at in from..parts.len() {
        match declared.member(outer, parts[at].str()) {
            None => return true,
            Some(class) => {
                if !is_accessible(declared.heads, package, None, class) {
                    return false;
                }
                outer = class;
            }
        }
    }
    true
}

/// Whether a class, and each of the member types that parts name from one on, may be named from a package.
fn class_open(declared: &Indexed, package: &str, class: u64, parts: &[Text], from: usize) -> bool
    requires { IsIndex declared.now.heads.now declared.now.index.now }
    ensures { let a = asking «package».now None in result ≡ (is_accessible declared.now.heads.now a class && parts_open declared.now.heads.now a (AtClass class) (drop from parts.now)) }
{
    is_accessible(declared.heads, package, None, class)
        && members_open(declared, package, class, parts, from)
}

/// Whether each class that parts name behind a package may be named from a package (JLS 6.6).
fn parts_open(
    alloc: Global,
    declared: &Indexed,
    package: &str,
    first: &Text,
    parts: &[Text],
) -> Result<bool, WantOfMemory>
    requires { IsIndex declared.now.heads.now declared.now.index.now }
    ensures { IfOk result (λ it. it ≡ parts_open declared.now.heads.now (asking «package».now None) (InPackage first.now) parts.now) }
{
    let mut prefix = String::from_str(alloc, first.str())?;
    for at in 0..parts.len() {
        let part = parts[at].str();
        let named = declared.type_of_package(prefix.as_str(), part);
        if let Some(class) = named {
            return Ok(class_open(declared, package, class, parts, at + 1));
        }
        prefix.push_str(".")?;
        prefix.push_str(part)?;
    }
    Ok(true)
}

/// Whether what an import names is there.
fn is_there(
    alloc: Global,
    heads: &Heads,
    import: &ImportHead,
    found: &Found,
) -> Result<bool, WantOfMemory>
    ensures { IfOk result (λ it. it ≡ import_fits heads.now import.now (found_of found.now)) }
{
    match found {
        Found::AtClass(_) => Ok(true),
        Found::InPackage(package) if import.on_demand => is_package(alloc, heads, package),
        _ => Ok(false),
    }
}

/// The rule that an import breaks.
#[tactic(auto, using(crate::proofs::PartsOpen::open_told))]
fn import_broken(
    alloc: Global,
    declared: &Indexed,
    unit: &UnitHead,
    import: &ImportHead,
    found: Option<Refusal>,
) -> Result<Option<Refusal>, WantOfMemory>
    requires { IsIndex declared.now.heads.now declared.now.index.now }
    ensures { (k : ℕ) → IfOk result (λ it. it ≡ least found (import_breaks declared.now.heads.now unit.now k import.now)) }
{
    let place = Place {
        file: unit.file,
        at: import.at,
    };
    if !parts_open(
        alloc,
        declared,
        unit.package.str(),
        &import.path.first,
        import.path.more.slice(),
    )? {
        return Ok(or_break(found, Rule::known(310), place));
    }
    let named = imported(alloc, declared, import)?;
    if is_there(alloc, declared.heads, import, &named)? {
        Ok(found)
    } else {
        Ok(or_break(found, Rule::known(306), place))
    }
}

/// The first rule that the imports of a unit break, each for itself.
#[tactic(auto, using(crate::proofs::Counting::counting))]
pub fn imports_broken(
    alloc: Global,
    declared: &Indexed,
    unit: &UnitHead,
    found: Option<Refusal>,
) -> Result<Option<Refusal>, WantOfMemory>
    requires { IsIndex declared.now.heads.now declared.now.index.now }
    ensures { IfOk result (λ it. it ≡ least found (of_each (import_breaks declared.now.heads.now unit.now) 0 unit.now.imports)) }
{
    let mut found = found;
    for import in unit.imports.slice() {
        found = import_broken(alloc, declared, unit, import, found)?;
    }
    Ok(found)
}
