//! The library of every program, as Java source: `java.lang`, `java.io` and `java.util`.
//!
//! Its natives are `Object.hashCode`, the two private `className` of `Object` and `Throwable` (the binary name with dots),
//! `System.halt`, `System.readByte` (-1 at the end of the input) and `PrintStream.put` (the low byte of its argument).
#![tactic(auto)]

ghost use Rattle.std.specs.Prelude.{◌≡◌, map};
ghost use Rattle.jc_prelude.specs.Texts.{texts};

mod collections;
mod lang;
mod streams;
mod thrown;

use collections::COLLECTIONS;
use lang::LANG;
use streams::STREAMS;
use thrown::THROWN;

static SOURCES: [&str; 4] = [LANG, THROWN, STREAMS, COLLECTIONS];

#[tactic(auto, unfolding(crate::specs::Texts::texts))]
/// The texts of the library, each a unit of its own, `java.lang.Object` first.
pub fn sources() -> &'static [&'static str]
    ensures { map (λ text. text.now) result.now ≡ texts }
{
    &SOURCES
}

#[cfg(test)]
mod tests;
