//! Selection class by class upward, for classes without a map.
ghost use Rattle.std.specs.Prelude.{◌≡◌, Some, length, position};
ghost use Rattle.jc_selecting.specs.Found.{found_on, is_number as number_is, own_of, parent_of};

use jc_rules::Items;

fn is_number(number: u64, own: Option<u64>) -> bool
    ensures { result ≡ number_is number own }
{
    match own {
        Some(found) => found == number,
        None => false,
    }
}

/// The superclass of a class.
pub fn parent_at(parents: &[Option<u64>], class: u64) -> Option<u64>
    ensures { result ≡ parent_of parents.now class }
{
    match parents.get(class as usize) {
        Some(parent) => *parent,
        None => None,
    }
}

/// The numbers of a class's methods.
pub fn row_at(own: &[Items<Option<u64>>], class: u64) -> &[Option<u64>]
    ensures { result.now ≡ own_of own.now class }
{
    match own.get(class as usize) {
        Some(row) => row.slice(),
        None => &[],
    }
}

fn place_in(row: &[Option<u64>], number: u64) -> Option<usize>
    ensures { result ≡ position (number_is number) row.now }
{
    row.iter().position(|own| is_number(number, *own))
}

/// The method of this number in a class or else in its superclasses.
pub fn walk(
    parents: &[Option<u64>],
    own: &[Items<Option<u64>>],
    class: u64,
    number: u64,
) -> Option<(u64, u64)>
    ensures { result ≡ found_on parents.now own.now number (length parents.now) (Some class) }
{
    let mut here = Some(class);
    for done in 0..parents.len() {
        match here {
            Some(k) => match place_in(row_at(own, k), number) {
                Some(place) => return Some((k, place as u64)),
                None => here = parent_at(parents, k),
            },
            None => return None,
        }
    }
    None
}
