//! The texts of a job's sources.
ghost use Rattle.std.specs.Prelude.{◌≡◌, ◌≤◌, ◌⊎◌, ◌+◌, ◌^◌, ◌<◌, IfOk, IsErrOf, ℕ};
ghost use Rattle.jc_outside.specs.Told.{Rose, IsMissing};
ghost use Rattle.javag.specs.Objects.{HasBytes, HaveTexts, IsUnread};

use jc_outside::{OutsideError, Shelf};
use jc_rules::{Items, Stop, Text};
use std::alloc::Global;

/// A source that can't be read, by its number, counted from 1.
#[derive(Clone, Copy, Debug, PartialEq, Eq)]
pub struct Unread {
    pub file: u64,
}

fn read_source<S: Shelf>(
    alloc: Global,
    shelf: &mut S,
    name: &Text,
) -> Result<Items<u8>, OutsideError>
    ensures ok { IfOk result (λ text. HasBytes (S.files shelf.old) name.now text) }
    ensures cause { IsErrOf result OutsideError.Failed → Rose (S.faults shelf.old) (S.faults shelf.new) ⊎ IsMissing (S.files shelf.old) name.now }
    ensures files { S.files shelf.new ≡ S.files shelf.old }
    ensures later { S.faults shelf.old ≤ S.faults shelf.new }
{
    let mut text = Vec::new(alloc);
    shelf.read(name.str(), &mut text)?;
    Ok(Items::of(text))
}

/// The texts of the sources of these names, in their order.
pub fn read_sources<S: Shelf>(
    alloc: Global,
    shelf: &mut S,
    names: &[Text],
) -> Result<Items<Items<u8>>, Stop<Unread>>
    ensures ok { IfOk result (λ texts. HaveTexts (S.files shelf.old) names.now texts) }
    ensures fault { (n : ℕ) → result ≡ Err (Stop.Refused (record { file = n })) → IsUnread (S.files shelf.old) names.now (S.faults shelf.old) (S.faults shelf.new) n }
{
    let mut texts = Items::new(alloc);
    for (at, name) in names.iter().enumerate() {
        match read_source(alloc, shelf, name) {
            Ok(text) => texts.push(text)?,
            Err(OutsideError::Failed) => {
                let file = (at as u64).saturating_add(1);
                return Err(Stop::Refused(Unread { file }));
            }
            Err(OutsideError::WantOfMemory) => return Err(Stop::WantOfMemory),
        }
    }
    Ok(texts)
}
