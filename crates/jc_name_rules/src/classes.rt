//! Types that are declared twice (JLS 7.5.1, 7.6, 8.1, 8.5).
ghost use Rattle.std.specs.Prelude.{◌≡◌, ◌&&◌, slice_get};
ghost use Rattle.std.specs.Str.{bytes_eq};
ghost use Rattle.jc_types.specs.Breaks.{least};
ghost use Rattle.jc_declares.specs.Heads.{name_of, imports_of};
ghost use Rattle.jc_declares.specs.Looking.{is_number, singles};
ghost use Rattle.jc_declares.specs.HeadBreaks.{some_before, same_place, named_like_outer, other_single, is_declared_twice, twice_class};
ghost use Rattle.jc_name_index.specs.Index.{IsIndex};
ghost use Rattle.jc_name_rules.specs.Singles.{AllSingles};

use crate::singles::{Singles, has_other};
use jc_declares::{ClassHead, Heads};
use jc_name_index::Indexed;
use jc_rules::{Items, Place, Refusal, Rule};
use jc_written::or_break;

/// Whether what was found first is this.
pub fn is_first(found: Option<u64>, number: u64) -> bool
    ensures { result ≡ is_number found number }
{
    match found {
        Some(first) => first == number,
        None => false,
    }
}

/// Whether an earlier type of the same package has the name of this one, which is a member of no class.
#[tactic(auto, using(crate::proofs::Firsts::class_told))]
fn is_repeated_top(declared: &Indexed, number: u64, class: &ClassHead) -> bool
    requires index { IsIndex declared.now.heads.now declared.now.index.now }
    requires is { slice_get declared.now.heads.now.classes number ≡ Some class.now }
    requires top { slice_get class.now.round 0 ≡ None }
    ensures { result ≡ some_before (λ d. same_place declared.now.heads.now class.now d && bytes_eq class.now.name d.name) number declared.now.heads.now.classes }
{
    let name = class.name.str();
    match declared.heads.units.get(class.unit as usize) {
        Some(unit) => !is_first(declared.type_of_package(unit.package.str(), name), number),
        None => false,
    }
}

/// Whether an earlier type of the same place has the name of this one.
#[tactic(auto, using(crate::proofs::Firsts::class_told))]
fn is_repeated(declared: &Indexed, number: u64, class: &ClassHead) -> bool
    requires index { IsIndex declared.now.heads.now declared.now.index.now }
    requires is { slice_get declared.now.heads.now.classes number ≡ Some class.now }
    ensures { result ≡ some_before (λ d. same_place declared.now.heads.now class.now d && bytes_eq class.now.name d.name) number declared.now.heads.now.classes }
{
    match class.round.slice().first() {
        Some(outer) => !is_first(declared.member(*outer, class.name.str()), number),
        None => is_repeated_top(declared, number, class),
    }
}

fn name_of(heads: &Heads, class: u64) -> &str
    ensures { result.now ≡ name_of heads.now class }
{
    match heads.classes.get(class as usize) {
        Some(head) => head.name.str(),
        None => "",
    }
}

/// Whether a type round this one has its name.
fn is_like_outer(heads: &Heads, class: &ClassHead) -> bool
    ensures { result ≡ named_like_outer heads.now class.now }
{
    for outer in class.round.slice() {
        if name_of(heads, *outer) == class.name.str() {
            return true;
        }
    }
    false
}

/// Whether a single import of its unit imports another type under the name of a type.
fn is_imported(heads: &Heads, singles: &Items<Singles>, number: u64, class: &ClassHead) -> bool
    requires { AllSingles heads.now singles.now }
    ensures { result ≡ other_single heads.now class.now.name number (imports_of heads.now class.now.unit) }
{
    match singles.get(class.unit as usize) {
        Some(singles) => has_other(singles, &class.name, number),
        None => false,
    }
}

/// Whether a type is declared twice.
fn is_declared_twice(
    declared: &Indexed,
    singles: &Items<Singles>,
    number: u64,
    class: &ClassHead,
) -> bool
    requires index { IsIndex declared.now.heads.now declared.now.index.now }
    requires singles { AllSingles declared.now.heads.now singles.now }
    requires is { slice_get declared.now.heads.now.classes number ≡ Some class.now }
    ensures { result ≡ is_declared_twice declared.now.heads.now number class.now }
{
    is_repeated(declared, number, class)
        || is_like_outer(declared.heads, class)
        || (class.round.slice().is_empty() && is_imported(declared.heads, singles, number, class))
}

/// The rule that a type breaks which is declared twice.
pub fn twice_broken(
    declared: &Indexed,
    singles: &Items<Singles>,
    number: u64,
    class: &ClassHead,
    found: Option<Refusal>,
) -> Option<Refusal>
    requires index { IsIndex declared.now.heads.now declared.now.index.now }
    requires singles { AllSingles declared.now.heads.now singles.now }
    requires is { slice_get declared.now.heads.now.classes number ≡ Some class.now }
    ensures { result ≡ least found (twice_class declared.now.heads.now number class.now) }
{
    if !is_declared_twice(declared, singles, number, class) {
        return found;
    }
    let place = Place {
        file: class.file,
        at: class.at,
    };
    or_break(found, Rule::known(301), place)
}
