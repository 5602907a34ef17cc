//! A sign behind what was read.
ghost use Rattle.std.specs.Prelude.{◌≤◌, length, IfOk};
ghost use Rattle.jc_reading.specs.Giving.{Gives};
ghost use Rattle.jc_parse_heads.specs.Closing.{closing};

use jc_lexer::Sign;
use jc_parse_parts::past_sign;
use jc_reading::{Found, Halt};

/// A value and a sign behind it.
pub fn closed<'a, T: Drop>(sign: Sign, first: Found<'a, T>) -> Result<Found<'a, T>, Halt>
    ensures read { Gives result (closing sign first.entry) }
    ensures shorter { IfOk result (λ f. length f.rest.now ≤ length first.entry.rest.now) }
{
    match past_sign(sign, first.rest) {
        Some(rest) => Ok(Found {
            value: first.value,
            rest,
            left: first.left.min(rest.len()),
        }),
        None => Err(Halt::Stopped(first.left.min(first.rest.len()))),
    }
}
