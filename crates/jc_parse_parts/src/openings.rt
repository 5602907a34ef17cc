//! Packages and imports (JLS 7.4, 7.5).
ghost use Rattle.std.specs.Prelude.{◌≤◌, length, IfOk};
ghost use Rattle.jc_lexer.specs.declared.token.Key.TheVariants as key_of;
ghost use Rattle.jc_reading.specs.Giving.{Gives, Is};
ghost use Rattle.jc_reading.specs.Kinds.{key_code};
ghost use Rattle.jc_reading.specs.Reading.{of_kind, perhaps};
ghost use Rattle.jc_unit_laws.specs.MemberReading.{import_run, package_run};
ghost use Rattle.jc_parse_parts.specs.Parts.{import_end_run};

use crate::names::{more_names, name, past_sign, past_word, past_word_at};
use jc_lexer::{Key, Sign, Token};
use jc_reading::{Found, Halt};
use jc_tree::{Import, Package};
use std::alloc::Global;

/// The package of a source file.
#[tactic(auto, unfolding(jc_unit_laws::specs::MemberReading::package_run))]
pub fn package(alloc: Global, tokens: &[Token]) -> Result<Found<'_, Package>, Halt>
    ensures read { Gives result (package_run tokens.now) }
    ensures shorter { IfOk result (λ f. length f.rest.now ≤ length tokens.now) }
{
    let Some((at, after)) = past_word_at(Key::Package, tokens) else {
        return Err(Halt::Stopped(tokens.len()));
    };
    let first = after!(name(alloc, after), after.len());
    let more = more_names(alloc, first.rest)?;
    match past_sign(Sign::Semicolon, more.rest) {
        Some(rest) => Ok(Found {
            value: Package {
                at,
                first: first.value,
                more: more.value,
            },
            rest,
            left: least!(after.len(), first.left, more.left, rest.len()),
        }),
        None => Err(Halt::Stopped(least!(after.len(), first.left, more.left, more.rest.len()))),
    }
}

/// The word of a static import, where it stands there.
fn static_word(tokens: &[Token]) -> Found<'_, Option<()>>
    ensures read { Is result (perhaps (of_kind (key_code key_of.Static)) tokens.now) }
    ensures shorter { length result.rest.now ≤ length tokens.now }
{
    match past_word(Key::Static, tokens) {
        Some(rest) => Found {
            value: Some(()),
            rest,
            left: rest.len(),
        },
        None => Found {
            value: None,
            rest: tokens,
            left: tokens.len(),
        },
    }
}

/// The end of an import, and whether it is one on demand.
fn import_end(tokens: &[Token]) -> Result<Found<'_, bool>, Halt>
    ensures read { Gives result (import_end_run tokens.now) }
    ensures shorter { IfOk result (λ f. length f.rest.now ≤ length tokens.now) }
{
    let Some(after) = past_sign(Sign::Dot, tokens) else {
        return match past_sign(Sign::Semicolon, tokens) {
            Some(rest) => Ok(Found {
                value: false,
                rest,
                left: rest.len(),
            }),
            None => Err(Halt::Stopped(tokens.len())),
        };
    };
    let Some(behind) = past_sign(Sign::Star, after) else {
        return Err(Halt::Stopped(after.len()));
    };
    match past_sign(Sign::Semicolon, behind) {
        Some(rest) => Ok(Found {
            value: true,
            rest,
            left: rest.len(),
        }),
        None => Err(Halt::Stopped(behind.len())),
    }
}

/// An import.
#[tactic(auto, using(crate::proofs::HeadSteps::import_shut, crate::proofs::HeadSteps::import_unnamed, crate::proofs::HeadSteps::import_open, crate::proofs::HeadSteps::import_found))]
pub fn import(alloc: Global, tokens: &[Token]) -> Result<Found<'_, Import>, Halt>
    ensures read { Gives result (import_run tokens.now) }
    ensures shorter { IfOk result (λ f. length f.rest.now ≤ length tokens.now) }
{
    let Some((at, after)) = past_word_at(Key::Import, tokens) else {
        return Err(Halt::Stopped(tokens.len()));
    };
    let word = static_word(after);
    let first = after!(name(alloc, word.rest), after.len(), word.left);
    let more = more_names(alloc, first.rest)?;
    let end = after!(
        import_end(more.rest),
        after.len(),
        word.left,
        first.left,
        more.left
    );
    Ok(Found {
        value: Import {
            at,
            is_static: word.value.is_some(),
            first: first.value,
            more: more.value,
            on_demand: end.value,
        },
        rest: end.rest,
        left: least!(after.len(), word.left, first.left, more.left, end.left),
    })
}
