//! Lists that are read turn by turn.
ghost use Rattle.std.specs.Prelude.{◌≡◌, ◌<◌, ◌≤◌, [], ◌∷◌, length, map, IfOk};
ghost use Rattle.jc_reading.specs.Giving.{Gives, Is};
ghost use Rattle.jc_reading.specs.Kinds.{sign_code};
ghost use Rattle.jc_reading.specs.Reading.{Run, any_number, as_new, becoming, behind_it, each_behind, first_and_more, in_turn, noting, of_kind};
ghost use Rattle.jc_reading.specs.Reach.{GoesAhead, Near, onto};

use jc_lexer::{Sign, Token};
use jc_reading::{Found, Halt, behind_sign};
use jc_rules::{Items, WantOfMemory};
use std::alloc::Global;

/// An empty list, with a reach.
pub fn no_list<T>(alloc: Global, rest: &[Token], left: usize) -> Found<'_, Items<T>>
    ensures { (result.value ≡ []) × (result.rest.now ≡ rest.now) × (result.left ≡ left) }
{
    Found {
        value: Items::new(alloc),
        rest,
        left,
    }
}

/// Reads on, as often as something is read, behind what a list holds already.
fn grow<'a, T: Drop, F: Fn(&'a [Token]) -> Result<Found<'a, T>, Halt>>(
    items: Items<T>,
    left: usize,
    tokens: &'a [Token],
    read: F,
) -> Result<Found<'a, Items<T>>, WantOfMemory>
    requires callable { (ts : _) → length ts.now ≤ length tokens.now → F.pre read ts }
    requires reads { (run : Run T) × GoesAhead run × ((ts : _) (r : _) → F.post read ts r → Gives r (run ts.now)) }
    ensures read { (run : Run T) → GoesAhead run → ((ts : _) (r : _) → F.post read ts r → Gives r (run ts.now)) → IfOk result (λ f. Is f (onto items left (any_number run tokens.now))) }
    ensures shorter { IfOk result (λ f. length f.rest.now ≤ length tokens.now) }
{
    let mut items = items;
    let mut rest = tokens;
    let mut left = left;
    'turns: loop {
        match read(rest) {
            Ok(found) => {
                items.push(found.value)?;
                left = left.min(found.left);
                rest = found.rest;
            }
            Err(Halt::Stopped(reach)) => {
                return Ok(Found {
                    value: items,
                    rest,
                    left: left.min(reach),
                });
            }
            Err(Halt::WantOfMemory) => return Err(WantOfMemory),
        }
    }
}

/// Reads as often as something is read.
pub fn many<'a, T: Drop, F: Fn(&'a [Token]) -> Result<Found<'a, T>, Halt>>(
    alloc: Global,
    tokens: &'a [Token],
    read: F,
) -> Result<Found<'a, Items<T>>, WantOfMemory>
    requires callable { (ts : _) → length ts.now ≤ length tokens.now → F.pre read ts }
    requires reads { (run : Run T) × GoesAhead run × ((ts : _) (r : _) → F.post read ts r → Gives r (run ts.now)) }
    ensures read { (run : Run T) → GoesAhead run → ((ts : _) (r : _) → F.post read ts r → Gives r (run ts.now)) → IfOk result (λ f. Is f (any_number run tokens.now)) }
    ensures shorter { IfOk result (λ f. length f.rest.now ≤ length tokens.now) }
{
    grow(Items::new(alloc), tokens.len(), tokens, read)
}

/// Reads on behind a first one.
pub fn row<'a, T: Drop, F: Fn(&'a [Token]) -> Result<Found<'a, T>, Halt>>(
    alloc: Global,
    first: Found<'a, T>,
    read: F,
) -> Result<Found<'a, Items<T>>, WantOfMemory>
    requires callable { (ts : _) → length ts.now ≤ length first.rest.now → F.pre read ts }
    requires reads { (run : Run T) × GoesAhead run × ((ts : _) (r : _) → F.post read ts r → Gives r (run ts.now)) }
    ensures read { (run : Run T) → GoesAhead run → ((ts : _) (r : _) → F.post read ts r → Gives r (run ts.now)) → IfOk result (λ f. Is f (noting first.entry.left (becoming (λ more. first.entry.value ∷ more) (any_number run first.entry.rest.now)))) }
    ensures shorter { IfOk result (λ f. length f.rest.now ≤ length first.entry.rest.now) }
{
    let mut items = Items::new(alloc);
    items.push(first.value)?;
    grow(items, first.left, first.rest, read)
}

/// What stands behind a sign.
fn behind<'a, T, F: Fn(&'a [Token]) -> Result<Found<'a, T>, Halt>>(
    sign: Sign,
    tokens: &'a [Token],
    read: &F,
) -> Result<Found<'a, T>, Halt>
    requires callable { (ts : _) → length ts.now ≤ length tokens.now → F.pre read.now ts }
    ensures { (run : Run T) → Near run → ((ts : _) (r : _) → F.post read.now ts r → Gives r (run ts.now)) → Gives result (as_new behind_it (in_turn (of_kind (sign_code sign)) run) tokens.now) }
{
    match behind_sign(sign, tokens) {
        Some(after) => read(after),
        None => Err(Halt::Stopped(tokens.len())),
    }
}

/// Reads on, as often as a sign and something behind it is read, behind what a list holds already.
fn trail<'a, T: Drop, F: Fn(&'a [Token]) -> Result<Found<'a, T>, Halt>>(
    items: Items<T>,
    left: usize,
    sign: Sign,
    tokens: &'a [Token],
    read: F,
) -> Result<Found<'a, Items<T>>, WantOfMemory>
    requires callable { (ts : _) → length ts.now ≤ length tokens.now → F.pre read ts }
    requires reads { (run : Run T) × Near run × ((ts : _) (r : _) → F.post read ts r → Gives r (run ts.now)) }
    ensures read { (run : Run T) → Near run → ((ts : _) (r : _) → F.post read ts r → Gives r (run ts.now)) → IfOk result (λ f. Is f (onto items left (any_number (as_new behind_it (in_turn (of_kind (sign_code sign)) run)) tokens.now))) }
    ensures shorter { IfOk result (λ f. length f.rest.now ≤ length tokens.now) }
{
    let mut items = items;
    let mut rest = tokens;
    let mut left = left;
    'turns: loop {
        match behind(sign, rest, &read) {
            Ok(found) => {
                items.push(found.value)?;
                left = left.min(found.left);
                rest = found.rest;
            }
            Err(Halt::Stopped(reach)) => {
                return Ok(Found {
                    value: items,
                    rest,
                    left: left.min(reach),
                });
            }
            Err(Halt::WantOfMemory) => return Err(WantOfMemory),
        }
    }
}

/// Any number, each behind a sign.
pub fn each<'a, T: Drop, F: Fn(&'a [Token]) -> Result<Found<'a, T>, Halt>>(
    alloc: Global,
    sign: Sign,
    tokens: &'a [Token],
    read: F,
) -> Result<Found<'a, Items<T>>, WantOfMemory>
    requires callable { (ts : _) → length ts.now ≤ length tokens.now → F.pre read ts }
    requires reads { (run : Run T) × Near run × ((ts : _) (r : _) → F.post read ts r → Gives r (run ts.now)) }
    ensures read { (run : Run T) → Near run → ((ts : _) (r : _) → F.post read ts r → Gives r (run ts.now)) → IfOk result (λ f. Is f (as_new (map behind_it) (each_behind sign run) tokens.now)) }
    ensures shorter { IfOk result (λ f. length f.rest.now ≤ length tokens.now) }
{
    trail(Items::new(alloc), tokens.len(), sign, tokens, read)
}

/// One or more, with a sign between them.
pub fn separated<'a, T: Drop, F: Fn(&'a [Token]) -> Result<Found<'a, T>, Halt>>(
    alloc: Global,
    sign: Sign,
    tokens: &'a [Token],
    read: F,
) -> Result<Found<'a, Items<T>>, Halt>
    requires callable { (ts : _) → length ts.now ≤ length tokens.now → F.pre read ts }
    requires reads { (run : Run T) × Near run × ((ts : _) (r : _) → F.post read ts r → Gives r (run ts.now)) }
    ensures read { (run : Run T) → Near run → ((ts : _) (r : _) → F.post read ts r → Gives r (run ts.now)) → Gives result (as_new first_and_more (in_turn run (each_behind sign run)) tokens.now) }
    ensures shorter { IfOk result (λ f. length f.rest.now ≤ length tokens.now) }
{
    let first = read(tokens)?;
    let mut items = Items::new(alloc);
    items.push(first.value)?;
    Ok(trail(items, first.left, sign, first.rest, read)?)
}
