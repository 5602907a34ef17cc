//! The room that numbers and texts take in a file.
ghost use Rattle.std.specs.Prelude.{◌≡◌, ◌+◌, ◌-◌, ◌^◌, ◌<◌, ◌&&◌, ◌||◌, min, true, length, take, nat_lt, nat_le, ◌↔◌, IsTrue};
ghost use Rattle.std.specs.List.{list_all};
ghost use Rattle.jc_class_out.specs.Texts.{unit_bytes};
ghost use Rattle.jc_class_out.specs.Pool.{is_descriptor};
ghost use Rattle.jc_class_out.specs.Spelling.{known, same_known, has, loads_of, uses};
ghost use Rattle.jc_class_out.specs.Format.{HasClassFile};
ghost use Rattle.jc_class_out.specs.Fitting.{is_signed, text_fits, known_fits, places, members_fit, pool_fits, fits_of};

use crate::descriptors::{field_descriptor, method_descriptor};
use crate::fitting::{members, signed};
use crate::sieve::{counted_uses, sifted_loads};
use crate::uses::{Visitor, tell_uses};
use crate::{ClassModel, Constant};
use std::convert::Infallible;

/// How many bytes a unit takes in modified UTF-8.
fn unit_size(unit: u16) -> usize
    ensures value { result ≡ length (unit_bytes unit) }
    ensures few { result < 4 }
{
    if unit == 0 {
        2
    } else if unit < 0x80 {
        1
    } else if unit < 0x800 {
        2
    } else {
        3
    }
}

/// Whether the length of the text has two bytes.
#[tactic(auto, unfolding(crate::specs::Fitting::text_fits))]
fn text(units: &[u16]) -> bool
    ensures { result ≡ text_fits units.now }
{
    let mut total = 0;
    for unit in units {
        total += unit_size(*unit);
        if total >= 65536 {
            return false;
        }
    }
    true
}

fn signed_long(n: i64) -> bool
    ensures { result ≡ is_signed (2 ^ 63) n }
{
    if n < 0 {
        n.unsigned_abs() <= 0x8000_0000_0000_0000
    } else {
        n.unsigned_abs() < 0x8000_0000_0000_0000
    }
}

fn any_descriptor(units: &[u16]) -> bool
    ensures { result ≡ is_descriptor units.now }
{
    field_descriptor(units) || method_descriptor(units)
}

/// Whether the constant can stand in a pool.
fn constant_fits(constant: Constant<'_>) -> bool
    ensures { result ≡ known_fits (known constant.entry) }
{
    match constant {
        Constant::Text(units) => text(units),
        Constant::Whole(n) => signed(n, 0x8000_0000),
        Constant::Long(n) => signed_long(n),
        Constant::Behind(_) => true,
        Constant::Class(_) => true,
        Constant::Literal(_) => true,
        Constant::Field { descriptor, .. } => field_descriptor(descriptor),
        Constant::Method { descriptor, .. } => method_descriptor(descriptor),
        Constant::Interface { descriptor, .. } => method_descriptor(descriptor),
        Constant::Pair(_, descriptor) => any_descriptor(descriptor),
    }
}

/// Tells whether each constant fits.
#[derive(Drop)]
struct Checker {
    fits: bool,
}

impl<'a> Visitor<'a> for Checker {
    type Stop = Infallible;

    ghost use Rattle.std.specs.Prelude.{◌≡◌, ◌&&◌};
    ghost use Rattle.jc_class_out.specs.Fitting.{known_fits};

    ghost sees = { λ s k t. t.fits ≡ (s.fits && known_fits k) };

    fn visit(&mut self, constant: Constant<'a>) -> Result<(), Infallible> {
        self.fits = self.fits && constant_fits(constant);
        Ok(())
    }
}

/// Counts constants, up to a limit that is past all room.
#[derive(Drop)]
struct Counter {
    count: u32,
}

impl<'a> Visitor<'a> for Counter {
    type Stop = Infallible;

    ghost use Rattle.std.specs.Prelude.{◌≡◌, ◌+◌, min};

    ghost sees = { λ s k t. t.count ≡ min (s.count + 1) 65535 };

    fn visit(&mut self, _constant: Constant<'a>) -> Result<(), Infallible> {
        self.count = (self.count.min(65535) + 1).min(65535);
        Ok(())
    }
}

/// Looks for a constant among the first so many.
#[derive(Drop)]
struct Finder<'a> {
    wanted: Constant<'a>,
    left: u64,
    found: bool,
}

impl<'a> Visitor<'a> for Finder<'a> {
    type Stop = Infallible;

    ghost use Rattle.std.specs.Prelude.{◌≡◌, ◌-◌, ◌&&◌, ◌||◌, nat_lt};
    ghost use Rattle.jc_class_out.specs.Spelling.{known, same_known};
    ghost use Rattle.jc_class_out.specs.FinderSees.{FinderSees};

    ghost sees = { λ s k t. FinderSees (known s.wanted) s.left s.found k (known t.wanted) t.left t.found };

    fn visit(&mut self, constant: Constant<'a>) -> Result<(), Infallible> {
        if self.left > 0 {
            self.found = self.found || constant == self.wanted;
            self.left -= 1;
        }
        Ok(())
    }
}

/// Whether the constant is among the first so many that the class uses.
fn used_before<'a>(class: &'a ClassModel, at: u64, wanted: Constant<'a>) -> bool
    ensures { result ≡ has (take at (uses class.now)) (known wanted.entry) }
{
    let mut finder = Finder {
        wanted,
        left: at,
        found: false,
    };
    match tell_uses(&mut finder, class) {
        Ok(()) => finder.found,
        Err(never) => match never {},
    }
}

/// Counts constants that weren't used before.
#[derive(Drop)]
struct Census<'a> {
    class: &'a ClassModel,
    at: u64,
    count: u64,
}

impl<'a> Visitor<'a> for Census<'a> {
    type Stop = Infallible;

    ghost use Rattle.jc_class_out.specs.FinderSees.{CensusSees};

    ghost sees = { λ s k t. CensusSees s.class.now s.at s.count k t.class.now t.at t.count };

    fn visit(&mut self, constant: Constant<'a>) -> Result<(), Infallible> {
        if !used_before(self.class, self.at, constant) {
            self.count = self.count.saturating_add(1);
        }
        self.at = self.at.saturating_add(1);
        Ok(())
    }
}

/// Whether each constant that the class uses can stand in a pool.
fn constants_fit(class: &ClassModel) -> bool
    ensures { result ≡ list_all known_fits (uses class.now) }
{
    let mut checker = Checker { fits: true };
    match tell_uses(&mut checker, class) {
        Ok(()) => checker.fits,
        Err(never) => match never {},
    }
}

/// How often the class uses a constant, up to a limit.
fn count_of_uses(class: &ClassModel) -> u32
    ensures { result ≡ min (length (uses class.now)) 65535 }
{
    let mut counter = Counter { count: 0 };
    match tell_uses(&mut counter, class) {
        Ok(()) => counter.count,
        Err(never) => match never {},
    }
}

fn distinct_uses(class: &ClassModel) -> u64
    requires { members_fit class.now ≡ true }
    ensures { result ≡ places (uses class.now) }
{
    let mut census = Census {
        class,
        at: 0,
        count: 0,
    };
    match tell_uses(&mut census, class) {
        Ok(()) => census.count,
        Err(never) => match never {},
    }
}

/// Whether one byte is enough for the number of each constant that ldc loads.
#[tactic(auto, using(crate::proofs::Sieves::few_sifted))]
fn few_loads(class: &ClassModel) -> bool
    ensures { result ≡ nat_le (places (loads_of class.now)) 255 }
{
    sifted_loads(class) <= 255
}

/// Whether the pool has room.
#[tactic(auto, using(crate::proofs::Census::places_few))]
fn few_uses(class: &ClassModel) -> bool
    requires { members_fit class.now ≡ true }
    ensures { result ≡ nat_le (places (uses class.now)) 65534 }
{
    if count_of_uses(class) <= 65534 {
        return true;
    }
    match counted_uses(class) {
        Some(count) => count <= 65534,
        None => distinct_uses(class) <= 65534,
    }
}

/// Whether each number has room in its field, operands go with their opcodes, jumps, handlers and frames name instructions,
/// descriptors are well formed, and the pool has room for the constants, each once.
#[tactic(auto, unfolding(crate::specs::Fitting::fits_of, crate::specs::Fitting::pool_fits))]
fn each_fits(class: &ClassModel) -> bool
    ensures { result ≡ fits_of class.now }
{
    members(class) && constants_fit(class) && few_loads(class) && few_uses(class)
}

/// Whether the class has a class file: exactly where some bytes are its file, and then `class_bytes` writes one.
///
/// It takes no memory. It goes over the class a few times, and 128 times more where the plain number of uses of constants is
/// above 65,534. Where so many constants have the same number to spread them by that a room for 1,024 is full, uses are
/// compared with each other.
pub fn fits(class: &ClassModel) -> bool
    ensures { IsTrue result ↔ HasClassFile class.now }
{
    each_fits(class)
}
