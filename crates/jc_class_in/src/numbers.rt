//! Numbers of one, two, four and eight bytes.
ghost use Rattle.std.specs.Prelude.{◌≡◌};
ghost use Rattle.std.specs.Int.{w16, w32, w64};
ghost use Rattle.jc_class_out.specs.Reading.{wants, u8_at, number_at};
ghost use Rattle.jc_class_in.specs.Gives.{Gives};

use jc_class_out::Flaw;
use jc_rules::Stop;

/// What a reader of a part answers: the part, and the bytes behind it.
pub type Read<'a, T> = Result<(T, &'a [u8]), Stop<Flaw>>;

pub fn u1(bytes: &[u8]) -> Read<'_, u8>
    ensures { Gives (λ x. (x.0, x.1.now)) result (u8_at bytes.now) }
{
    match bytes {
        [] => Err(Stop::Refused(Flaw::Short)),
        [first, rest @ ..] => Ok((*first, rest)),
    }
}

pub fn u2(bytes: &[u8]) -> Read<'_, u16>
    ensures { Gives (λ x. (x.0, x.1.now)) result (number_at w16 bytes.now) }
{
    if bytes.len() < 2 {
        return Err(Stop::Refused(Flaw::Short));
    }
    let (front, rest) = bytes.split_at(2);
    let number = u16::from_be_bytes([front[0], front[1]]);
    Ok((number, rest))
}

pub fn u4(bytes: &[u8]) -> Read<'_, u32>
    ensures { Gives (λ x. (x.0, x.1.now)) result (number_at w32 bytes.now) }
{
    if bytes.len() < 4 {
        return Err(Stop::Refused(Flaw::Short));
    }
    let (front, rest) = bytes.split_at(4);
    let number = u32::from_be_bytes([front[0], front[1], front[2], front[3]]);
    Ok((number, rest))
}

pub fn u8_of_eight(bytes: &[u8]) -> Read<'_, u64>
    ensures { Gives (λ x. (x.0, x.1.now)) result (number_at w64 bytes.now) }
{
    if bytes.len() < 8 {
        return Err(Stop::Refused(Flaw::Short));
    }
    let (front, rest) = bytes.split_at(8);
    let number = u64::from_be_bytes([
        front[0], front[1], front[2], front[3], front[4], front[5], front[6], front[7],
    ]);
    Ok((number, rest))
}

/// An index, an offset, a count or a length that has to fit; so many bytes are left from it on.
pub fn want(holds: bool, left: usize) -> Result<(), Stop<Flaw>>
    ensures { Gives (λ _. 0) result (wants holds left) }
{
    if holds {
        Ok(())
    } else {
        Err(Stop::Refused(Flaw::Index(left)))
    }
}
