//! Packages (JLS 7.1, 7.4).
ghost use Rattle.std.specs.Prelude.{◌≡◌, ◌++◌, ◌==◌, IfOk, codes, string_bytes};
ghost use Rattle.jc_declares.specs.declared.heads.Heads.{Heads};
ghost use Rattle.std.specs.List.{starts_with};
ghost use Rattle.jc_types.specs.Breaks.{least};
ghost use Rattle.jc_declares.specs.HeadBreaks.{is_package, first_package, package_fits, package_breaks};

use jc_declares::{Heads, UnitHead};
use jc_rules::{Place, Refusal, Rule, Text, WantOfMemory};
use jc_written::or_break;
use std::alloc::Global;

/// A package's name with a point behind it.
fn pointed(alloc: Global, package: &str) -> Result<String, WantOfMemory>
    ensures { IfOk result (λ it. string_bytes it ≡ «package».now ++ codes ".") }
{
    let mut text = String::from_str(alloc, package)?;
    text.push_str(".")?;
    Ok(text)
}

/// Whether a text begins with another.
fn begins_with(text: &str, start: &str) -> bool
    ensures { result ≡ starts_with (λ a b. a == b) text.now start.now }
{
    text.as_bytes().starts_with(start.as_bytes())
}

/// Whether a package is that of a unit, or one that such a package lies in (JLS 7.4.3).
pub fn is_package(alloc: Global, heads: &Heads, package: &Text) -> Result<bool, WantOfMemory>
    ensures { IfOk result (λ it. it ≡ is_package heads.now «package».now) }
{
    let start = pointed(alloc, package.str())?;
    for unit in heads.units.slice() {
        if package.str() == unit.package.str() || begins_with(unit.package.str(), start.as_str()) {
            return Ok(true);
        }
    }
    Ok(false)
}

/// The package of the first source, behind the prelude.
pub fn first_package(units: &[UnitHead]) -> &str
    ensures { result.now ≡ first_package units.now }
{
    for unit in units {
        if unit.file != 0 {
            return unit.package.str();
        }
    }
    ""
}

/// Whether a source is of that package, and not of one that begins with `java`.
fn package_fits(first: &str, unit: &UnitHead) -> bool
    ensures { (heads : Heads) → first.now ≡ first_package heads.units → result ≡ package_fits heads unit.now }
{
    let package = unit.package.str();
    unit.file == 0 || (package == first && !(package == "java" || begins_with(package, "java.")))
}

/// The rule that the package of a source breaks.
pub fn package_broken(first: &str, unit: &UnitHead, found: Option<Refusal>) -> Option<Refusal>
    ensures { (heads : Heads) → first.now ≡ first_package heads.units → result ≡ least found (package_breaks heads unit.now) }
{
    if package_fits(first, unit) {
        return found;
    }
    let place = Place {
        file: unit.file,
        at: unit.at,
    };
    or_break(found, Rule::known(308), place)
}
