//! Sources as units.
use jc_declares::SourceUnit;
use jc_lexer::lex_all;
use jc_rules::{Items, Refusal, Stop, WantOfMemory};
use jc_syntax::units_of;
use jc_tree::SourceFile;
use std::alloc::Global;

/// Files with their numbers, which count from 1.
fn numbered(alloc: Global, files: Items<SourceFile>) -> Result<Items<SourceUnit>, WantOfMemory> {
    let mut units = Items::new(alloc);
    let mut file = 0u64;
    for unit in files.into_vec() {
        file = file.wrapping_add(1);
        units.push(SourceUnit { file, unit })?;
    }
    Ok(units)
}

/// The units of sources, or the rule of words or of syntax that one breaks.
pub fn source_units(
    alloc: Global,
    texts: &[Items<u8>],
) -> Result<Items<SourceUnit>, Stop<Refusal>> {
    let lists = lex_all(alloc, texts)?;
    let files = units_of(alloc, texts, lists.slice())?;
    Ok(numbered(alloc, files)?)
}
