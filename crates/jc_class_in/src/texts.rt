//! Modified UTF-8 (JVMS 4.4.7).
ghost use Rattle.std.specs.Prelude.{◌≡◌, ◌≤◌, ◌<◌, MatchOption, None, Some, Ok};
ghost use Rattle.jc_class_out.specs.Texts.{is_more, two, three, unit_at, text_of_bytes};
ghost use Rattle.jc_class_out.specs.Reading.{or_flaw};
ghost use Rattle.jc_class_out.specs.Pool.{text_at};
ghost use Rattle.jc_class_in.specs.Gives.{Gives};

use crate::numbers::{Read, u2};
use jc_class_out::Flaw;
use jc_rules::{Items, Stop};
use std::alloc::Global;

/// Whether the byte is a second or third one of a unit.
fn more(byte: u8) -> bool
    ensures { result ≡ is_more byte }
{
    0x80 <= byte && byte < 0xC0
}

/// A unit of two bytes.
fn unit_of_two(first: u8, behind: &[u8]) -> Option<(u16, &[u8])>
    requires low { 0xC0 ≤ first }
    requires high { first < 0xE0 }
    ensures { MatchOption result (two first behind.now ≡ None) (λ u. two first behind.now ≡ Some (u.0, u.1.now)) }
{
    match behind {
        [] => None,
        [second, rest @ ..] => {
            let second = *second;
            if more(second) && ((first == 0xC0 && second == 0x80) || 0xC2 <= first) {
                let unit = u16::from(first - 0xC0) * 64 + u16::from(second - 0x80);
                return Some((unit, rest));
            }
            None
        }
    }
}

/// A unit of three bytes.
fn unit_of_three(first: u8, behind: &[u8]) -> Option<(u16, &[u8])>
    requires low { 0xE0 ≤ first }
    requires high { first < 0xF0 }
    ensures { MatchOption result (three first behind.now ≡ None) (λ u. three first behind.now ≡ Some (u.0, u.1.now)) }
{
    match behind {
        [] => None,
        [_] => None,
        [second, third, rest @ ..] => {
            let second = *second;
            let third = *third;
            if more(second) && more(third) && (0xE1 <= first || 0xA0 <= second) {
                let unit = u16::from(first - 0xE0) * 4096
                    + u16::from(second - 0x80) * 64
                    + u16::from(third - 0x80);
                return Some((unit, rest));
            }
            None
        }
    }
}

/// The first unit, and the bytes behind it.
fn unit(bytes: &[u8]) -> Option<(u16, &[u8])>
    ensures { MatchOption result (unit_at bytes.now ≡ None) (λ u. unit_at bytes.now ≡ Some (u.0, u.1.now)) }
{
    match bytes {
        [] => None,
        [first, rest @ ..] => {
            let first = *first;
            if 1 <= first && first < 0x80 {
                Some((u16::from(first), rest))
            } else if 0xC0 <= first && first < 0xE0 {
                unit_of_two(first, rest)
            } else if 0xE0 <= first && first < 0xF0 {
                unit_of_three(first, rest)
            } else {
                None
            }
        }
    }
}

/// The text that is spelled so in modified UTF-8 (JVMS 4.4.7), if there is one; so many bytes are left from it on.
#[tactic(auto, using(crate::proofs::Spelled::units_more, crate::proofs::Spelled::units_bad, crate::proofs::Spelled::units_over, crate::proofs::Spelled::units_out))]
fn units(alloc: Global, bytes: &[u8], left: usize) -> Result<Items<u16>, Stop<Flaw>>
    ensures { Gives (λ x. x) result (or_flaw (text_of_bytes bytes.now) (Flaw.Text left)) }
{
    let mut units = Items::new(alloc);
    let mut rest = bytes;
    for _ in 0..bytes.len() {
        if rest.is_empty() {
            return Ok(units);
        }
        match unit(rest) {
            None => return Err(Stop::Refused(Flaw::Text(left))),
            Some((next, behind)) => {
                units.push(next)?;
                rest = behind;
            }
        }
    }
    if !rest.is_empty() {
        return Err(Stop::Refused(Flaw::Text(left)));
    }
    Ok(units)
}

/// A length of two bytes, and a text of so many.
#[tactic(auto, unfolding(jc_class_out::specs::Pool::text_at))]
pub fn text(alloc: Global, bytes: &[u8]) -> Read<'_, Items<u16>>
    ensures { Gives (λ x. (x.0, x.1.now)) result (text_at bytes.now) }
{
    let (len, rest) = u2(bytes)?;
    let len = usize::from(len);
    if rest.len() < len {
        return Err(Stop::Refused(Flaw::Short));
    }
    let (spelled, after) = rest.split_at(len);
    let units = units(alloc, spelled, rest.len())?;
    Ok((units, after))
}
