//! Distinct constants, counted without memory: in one bucket after the other, each kept in one room.
ghost use Rattle.std.specs.Prelude.{◌≡◌, [], length, take, IfSome, None, Some};
ghost use Rattle.jc_class_out.specs.Spelling.{known, knowns, has, loads_of, uses};
ghost use Rattle.jc_class_out.specs.Sifting.{mix, spread, is_of, sift, sifted};
ghost use Rattle.jc_class_out.specs.Fitting.{places};
ghost use Rattle.jc_class_out.specs.Pool.{KnownLong};

use crate::uses::{Visitor, tell_loads, tell_uses};
use crate::{ClassModel, Constant};
use std::convert::Infallible;

/// The most constants that are kept at a time.
const ROOM: usize = 1024;

#[tactic(auto, unfolding(crate::specs::Sifting::mix))]
fn mix(start: u32, units: &[u16]) -> u32
    ensures { result ≡ mix start units.now }
{
    let mut mixed = start;
    for unit in units {
        mixed = mixed.wrapping_mul(31).wrapping_add(u32::from(*unit));
    }
    mixed
}

#[tactic(auto, unfolding(crate::specs::Sifting::spread))]
fn low_half(n: i64) -> u32
    ensures { result ≡ spread (KnownLong n) }
{
    (n.cast_unsigned() % 0x1_0000_0000) as u32
}

/// A number that spreads constants.
#[tactic(auto, unfolding(crate::specs::Sifting::spread))]
fn spread(constant: Constant<'_>) -> u32
    ensures { result ≡ spread (known constant.entry) }
{
    match constant {
        Constant::Text(units) => mix(1, units),
        Constant::Whole(n) => n.cast_unsigned(),
        Constant::Long(n) => low_half(n),
        Constant::Behind(n) => low_half(n),
        Constant::Class(name) => mix(2, name),
        Constant::Literal(text) => mix(3, text),
        Constant::Field {
            class,
            name,
            descriptor,
        } => mix(mix(mix(4, class), name), descriptor),
        Constant::Method {
            class,
            name,
            descriptor,
        } => mix(mix(mix(5, class), name), descriptor),
        Constant::Interface {
            class,
            name,
            descriptor,
        } => mix(mix(mix(6, class), name), descriptor),
        Constant::Pair(name, descriptor) => mix(mix(7, name), descriptor),
    }
}

/// Whether the constant is of that one of 128 buckets, or of any.
fn is_of(bucket: Option<u32>, constant: Constant<'_>) -> bool
    ensures { result ≡ is_of bucket (known constant.entry) }
{
    match bucket {
        None => true,
        Some(bucket) => spread(constant) % 128 == bucket,
    }
}

#[tactic(auto, unfolding(crate::specs::Spelling::has))]
fn among(kept: &[Constant<'_>], constant: Constant<'_>) -> bool
    ensures { result ≡ has (knowns kept.now) (known constant.entry) }
{
    for one in kept {
        if constant == *one {
            return true;
        }
    }
    false
}

/// Keeps a constant of the bucket behind the first so many, if it isn't among them and there is room.
#[tactic(auto, unfolding(crate::specs::Sifting::sift))]
fn sift<'a>(
    bucket: Option<u32>,
    kept: &mut [Constant<'a>],
    count: usize,
    constant: Constant<'a>,
) -> usize
    requires { length kept.old ≡ ROOM }
    ensures { knowns (take result kept.new) ≡ sift bucket (knowns (take count kept.old)) (known constant.entry) }
{
    if !is_of(bucket, constant) || count >= ROOM || among(&kept[..count], constant) {
        return count;
    }
    kept[count] = constant;
    count + 1
}

fn kept_len(kept: &[Constant<'_>], count: usize) -> usize
    ensures { result ≡ length (knowns (take count kept.now)) }
{
    kept.len().min(count)
}

/// Keeps the constants of a bucket, each once.
#[derive(Drop)]
struct Sieve<'a> {
    bucket: Option<u32>,
    count: usize,
    kept: [Constant<'a>; ROOM],
}

impl<'a> Sieve<'a> {
    fn new(bucket: Option<u32>) -> Self
        ensures none { knowns (take result.count result.kept) ≡ [] }
        ensures bucket { result.bucket ≡ bucket }
    {
        Sieve {
            bucket,
            count: 0,
            kept: [Constant::Whole(0); ROOM],
        }
    }

    fn len(&self) -> usize
        ensures { result ≡ length (knowns (take self.now.count self.now.kept)) }
    {
        kept_len(&self.kept, self.count)
    }
}

impl<'a> Visitor<'a> for Sieve<'a> {
    type Stop = Infallible;

    ghost use Rattle.std.specs.Prelude.{take};
    ghost use Rattle.jc_class_out.specs.Spelling.{knowns};
    ghost use Rattle.jc_class_out.specs.Sifting.{SieveSees};

    ghost sees = { λ s k t. SieveSees s.bucket (knowns (take s.count s.kept)) k t.bucket (knowns (take t.count t.kept)) };

    fn visit(&mut self, constant: Constant<'a>) -> Result<(), Infallible> {
        let bucket = self.bucket;
        let count = self.count;
        self.count = sift(bucket, &mut self.kept, count, constant);
        Ok(())
    }
}

/// How many distinct constants of the bucket the class uses, as far as there is room.
fn sifted_uses(class: &ClassModel, bucket: u32) -> usize
    ensures { result ≡ length (sifted (Some bucket) [] (uses class.now)) }
{
    let mut sieve = Sieve::new(Some(bucket));
    match tell_uses(&mut sieve, class) {
        Ok(()) => sieve.len(),
        Err(never) => match never {},
    }
}

/// How many distinct constants ldc loads, as far as there is room.
pub fn sifted_loads(class: &ClassModel) -> usize
    ensures { result ≡ length (sifted None [] (loads_of class.now)) }
{
    let mut sieve = Sieve::new(None);
    match tell_loads(&mut sieve, class) {
        Ok(()) => sieve.len(),
        Err(never) => match never {},
    }
}

/// How many distinct constants the class uses, unless one of the buckets runs full.
pub fn counted_uses(class: &ClassModel) -> Option<u32>
    ensures { IfSome result (λ n. n ≡ places (uses class.now)) }
{
    let mut total = 0;
    for bucket in 0..128 {
        let count = sifted_uses(class, bucket);
        if count >= ROOM {
            return None;
        }
        total += count as u32;
    }
    Some(total)
}
