//! The texts one behind the other.
ghost use Rattle.std.specs.Prelude.{◌≡◌, ◌+◌, ◌≤◌, length, IfErr, IfOk};
ghost use Rattle.jc_lexer.specs.Faults.{rule_of, place_of};
ghost use Rattle.jc_syntax.specs.Stage.{refusal};
ghost use Rattle.jc_front.specs.Library.{HasTokens, HasTree, IsWordsStop, IsTextStop, AreLibrary, IsLibraryStop};

use crate::moving::all_moved;
use jc_declares::SourceUnit;
use jc_lexer::{LexFault, Token, tokens};
use jc_parse_unit::unit;
use jc_prelude::sources;
use jc_rules::{Items, Place, Refusal, Rule, Stop, WantOfMemory};
use jc_syntax::refusal_of;
use jc_tree::SourceFile;
use std::alloc::Global;

/// The greatest number of bytes of a text, and of tokens and bytes before one.
const MOST: usize = 16_777_216;

/// A fault of the words of a text as a refusal.
fn words_refusal(fault: LexFault, before: usize) -> Result<Refusal, WantOfMemory>
    ensures { IfOk result (λ it. it ≡ refusal (rule_of fault) 0 (before + place_of fault)) }
{
    let Ok(before) = u32::try_from(before) else {
        return Err(WantOfMemory);
    };
    match before.checked_add(fault.at()) {
        Some(at) => Ok(Refusal {
            rule: Rule::known(fault.rule()),
            place: Place { file: 0, at },
            have: 0,
        }),
        None => Err(WantOfMemory),
    }
}

/// The tokens of a text, before which there are so many bytes.
fn text_tokens(alloc: Global, text: &str, before: usize) -> Result<Items<Token>, Stop<Refusal>>
    requires short { length text.now ≤ MOST }
    requires before { before ≤ MOST }
    ensures tokens { IfOk result (λ list. HasTokens before text.now list) }
    ensures refused { IfErr result (λ stop. IsWordsStop before text.now stop) }
{
    match tokens(alloc, text.as_bytes()) {
        Ok(own) => Ok(all_moved(alloc, own, before as u32)?),
        Err(Stop::Refused(fault)) => Err(Stop::Refused(words_refusal(fault, before)?)),
        Err(Stop::WantOfMemory) => Err(Stop::WantOfMemory),
    }
}

/// The tree of a text. One of more than 16,777,216 bytes, like one behind so many, is too large.
fn text_tree(alloc: Global, text: &str, before: usize) -> Result<SourceFile, Stop<Refusal>>
    ensures short { IfOk result (λ _. before + length text.now ≤ MOST + MOST) }
    ensures tree { IfOk result (λ tree. HasTree before text.now tree) }
    ensures refused { IfErr result (λ stop. IsTextStop before text.now stop) }
{
    if text.len() > MOST || before > MOST {
        return Err(Stop::WantOfMemory);
    }
    let list = text_tokens(alloc, text, before)?;
    let end = before + text.len();
    if list.len() > MOST {
        return Err(Stop::WantOfMemory);
    }
    match unit(alloc, list.slice(), true) {
        Ok(tree) => Ok(tree),
        Err(Stop::Refused(fault)) => {
            Err(Stop::Refused(refusal_of(0, list.slice(), end, &fault)))
        }
        Err(Stop::WantOfMemory) => Err(Stop::WantOfMemory),
    }
}

/// The units of the library, `java.lang.Object` first. A text that is no unit would be refused like a source, in file 0.
pub fn library_units(alloc: Global) -> Result<Items<SourceUnit>, Stop<Refusal>>
    ensures units { IfOk result (λ units. AreLibrary units) }
    ensures refused { IfErr result (λ stop. IsLibraryStop stop) }
{
    let mut units = Items::new(alloc);
    let mut before = 0usize;
    let texts = sources();
    for n in 0..texts.len() {
        let unit = text_tree(alloc, texts[n], before)?;
        units.push(SourceUnit { file: 0, unit })?;
        before += texts[n].len();
    }
    Ok(units)
}
