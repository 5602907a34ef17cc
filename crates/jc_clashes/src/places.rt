//! Where a clash stands: at a method that the class declares, the later one of two; where it declares neither, at one of its methods that overrides the other;
//! and else at the class.
ghost use Rattle.std.specs.Prelude.{◌≡◌};
ghost use Rattle.jc_types.specs.Accessors.{method_place_of};
ghost use Rattle.jc_header_rules.specs.Clashes.{clash_place_or, place_of_some, place_or};
ghost use Rattle.jc_clashes.specs.Clashing.{own_among, shape_place};

use crate::shapes::Shape;
use jc_members::{owner, same_class};
use jc_rules::Place;
use jc_types::{ClassId, MethodId, Table, method_at};

/// The place of a method.
pub fn place_or(table: &Table, place: Place, m: MethodId) -> Place
    ensures { result ≡ place_or place (method_place_of table.now m) }
{
    match method_at(table, m) {
        Some(method) => method.place,
        None => place,
    }
}

// The first of these methods that a class declares.
fn own_among(table: &Table, k: ClassId, ids: &[MethodId]) -> Option<MethodId>
    ensures { result ≡ own_among table.now k ids.now }
{
    let mut rest = ids;
    while let [m, more @ ..] = rest {
        if same_class(owner(table, *m), k) {
            return Some(*m);
        }
        rest = more;
    }
    None
}

fn place_of_some(table: &Table, place: Place, m: Option<MethodId>) -> Place
    ensures { result ≡ place_of_some table.now place m }
{
    match m {
        Some(m) => place_or(table, place, m),
        None => place,
    }
}

// The place of the method that a class declares, of two the later one, and `other` where it declares neither.
fn clash_place_or(
    table: &Table,
    k: ClassId,
    place: Place,
    m: MethodId,
    n: MethodId,
    other: Place,
) -> Place
    ensures { result ≡ clash_place_or table.now k place m n other }
{
    if same_class(owner(table, m), k) {
        if same_class(owner(table, n), k) && m.0 < n.0 {
            return place_or(table, place, n);
        }
        return place_or(table, place, m);
    }
    if same_class(owner(table, n), k) {
        return place_or(table, place, n);
    }
    other
}

/// Where a clash of a member of a class with another method, whose shape is `u`, is named.
pub fn shape_place(table: &Table, k: ClassId, place: Place, m: MethodId, u: &Shape) -> Place
    ensures { result ≡ shape_place table.now k place m u.now }
{
    let over = own_among(table, k, u.above.slice());
    let other = place_of_some(table, place, over);
    clash_place_or(table, k, place, m, u.id, other)
}
