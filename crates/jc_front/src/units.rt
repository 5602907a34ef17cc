//! The trees of a job.
ghost use Rattle.std.specs.Prelude.{◌≡◌, ◌++◌, IfErr, IfOk, OnOk, Ok};
ghost use Rattle.jc_lexer.specs.Files.{lexed_files};
ghost use Rattle.jc_front.specs.Stages.{HaveTrees, IsBreak, numbered_from};

use crate::texts::library_units;
use jc_declares::SourceUnit;
use jc_lexer::Token;
use jc_rules::{Items, Refusal, Stop, WantOfMemory};
use jc_syntax::units_of;
use jc_tree::SourceFile;
use std::alloc::Global;

/// Adds files with their numbers, which count from 1.
fn add_numbered(units: &mut Items<SourceUnit>, files: Items<SourceFile>) -> Result<(), WantOfMemory>
    ensures { OnOk result (units.new ≡ units.old ++ numbered_from 1 files) }
{
    let count = files.len();
    let mut file = 0usize;
    for unit in files.into_vec() {
        file += 1;
        units.push(SourceUnit {
            file: file as u64,
            unit,
        })?;
    }
    Ok(())
}

/// The units of the library and of the sources with these texts and tokens, or the rule of the syntax that one of them breaks.
pub fn all_units(
    alloc: Global,
    texts: &[Items<u8>],
    lists: &[Items<Token>],
) -> Result<Items<SourceUnit>, Stop<Refusal>>
    requires { lexed_files 1 0 texts.now ≡ Ok lists.now }
    ensures units { IfOk result (λ units. HaveTrees texts.now lists.now units) }
    ensures refused { IfErr result (λ stop. IsBreak texts.now stop) }
{
    let mut units = library_units(alloc)?;
    let files = units_of(alloc, texts, lists)?;
    add_numbered(&mut units, files)?;
    Ok(units)
}
