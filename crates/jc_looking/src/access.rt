//! Access (JLS 6.6).
ghost use Rattle.std.specs.Prelude.{◌≡◌};
ghost use Rattle.jc_declares.specs.Heads.{access_of, unit_of, unit_package, package_of, round_of, top_of_class};
ghost use Rattle.jc_declares.specs.Looking.{is_number, is_open, is_accessible};
ghost use Rattle.jc_looking.specs.Standings.{asking};

use jc_declares::Heads;
use jc_types::Access;

pub fn unit_of(heads: &Heads, class: u64) -> u64
    ensures { result ≡ unit_of heads.now class }
{
    match heads.classes.get(class as usize) {
        Some(head) => head.unit,
        None => 0,
    }
}

pub fn unit_package(heads: &Heads, unit: u64) -> &str
    ensures { result.now ≡ unit_package heads.now unit }
{
    match heads.units.get(unit as usize) {
        Some(head) => head.package.str(),
        None => "",
    }
}

pub fn package_of(heads: &Heads, class: u64) -> &str
    ensures { result.now ≡ package_of heads.now class }
{
    unit_package(heads, unit_of(heads, class))
}

/// The classes round a class, from the innermost outwards.
pub fn round_of(heads: &Heads, class: u64) -> &[u64]
    ensures { result.now ≡ round_of heads.now class }
{
    match heads.classes.get(class as usize) {
        Some(head) => head.round.slice(),
        None => &[],
    }
}

/// The type of a unit that a class is, or is inside of.
pub fn top_of_class(heads: &Heads, class: u64) -> u64
    ensures { result ≡ top_of_class heads.now class }
{
    let mut top = class;
    for outer in round_of(heads, class) {
        top = *outer;
    }
    top
}

pub fn access_of(heads: &Heads, class: u64) -> Access
    ensures { result ≡ access_of heads.now class }
{
    match heads.classes.get(class as usize) {
        Some(head) => head.access,
        None => Access::Package,
    }
}

fn is_open(access: Access, same_package: bool, same_top: bool) -> bool
    ensures { result ≡ is_open access same_package same_top }
{
    match access {
        Access::Public => true,
        Access::Protected => same_package,
        Access::Package => same_package,
        Access::Private => same_top,
    }
}

fn is_number(number: Option<u64>, other: u64) -> bool
    ensures { result ≡ is_number number other }
{
    match number {
        Some(number) => number == other,
        None => false,
    }
}

/// Whether a class may be named by one who asks from a package, inside of the type `top` of a unit or outside of all types.
pub fn is_accessible(heads: &Heads, package: &str, top: Option<u64>, class: u64) -> bool
    ensures { result ≡ is_accessible heads.now (asking «package».now top) class }
{
    let same_package = package_of(heads, class) == package;
    let same_top = is_number(top, top_of_class(heads, class));
    is_open(access_of(heads, class), same_package, same_top)
}
