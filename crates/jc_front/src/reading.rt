//! The stages one behind the other.
ghost use Rattle.std.specs.Prelude.{◌↔◌, IfErr, IfOk, IsTrue};
ghost use Rattle.jc_front.specs.Stages.{AreRead, AreSources, AreUnbroken, BeginsWithObject, IsBreak, StopsUnits};

use crate::units::all_units;
use jc_clashes::check_clashes;
use jc_declares::SourceUnit;
use jc_headers::check_headers;
use jc_lexer::{Token, lex_all};
use jc_names::names;
use jc_rules::{Items, Refusal, Stop};
use jc_types::{ClassId, Table, class_supers, class_vars};
use std::alloc::Global;
use std::mem::forget;

/// What sources are that break no rule of a stage that is built: the tokens of each, the trees of the library and of the sources, and the table of
/// what they declare.
#[derive(Drop)]
pub struct Sources {
    pub tokens: Items<Items<Token>>,
    pub units: Items<SourceUnit>,
    pub table: Table,
}

/// Whether the first class has no supertypes and no type parameters, and there are others. It is the library's Object, which alone has no supertypes
/// (JLS 8.1.4).
fn begins_with_object(table: &Table) -> bool
    ensures { IsTrue result ↔ BeginsWithObject table.now }
{
    let object = ClassId(0);
    class_supers(table, object).is_empty()
        && class_vars(table, object).is_empty()
        && table.classes.len() > 1
}

/// The table of what units declare, where it breaks no rule of a stage that is built. Want of memory would stand for a library that doesn't begin
/// with Object.
#[tactic(auto, using(crate::proofs::Reached::are_unbroken, crate::proofs::Reached::short_of_memory, crate::proofs::Reached::names_stop, crate::proofs::Reached::headers_stop, crate::proofs::Reached::clashes_stop))]
fn unbroken_table(alloc: Global, units: &[SourceUnit]) -> Result<Table, Stop<Refusal>>
    ensures table { IfOk result (λ table. AreUnbroken units.now table) }
    ensures refused { IfErr result (λ stop. StopsUnits units.now stop) }
{
    let table = names(alloc, units)?;
    if !begins_with_object(&table) {
        return Err(Stop::WantOfMemory);
    }
    check_headers(alloc, &table)?;
    check_clashes(alloc, &table)?;
    Ok(table)
}

/// Reads the sources with these texts through all stages that are built. A refusal is the least break of the first stage that has one. Where a stage
/// behind the trees refuses, tokens and trees stay in memory until the program ends: to free those of a large source takes as long as a stage.
#[tactic(auto, using(crate::proofs::Reached::are_sources))]
pub fn sources_of(alloc: Global, texts: &[Items<u8>]) -> Result<Sources, Stop<Refusal>>
    ensures sources { IfOk result (λ sources. AreSources texts.now sources) }
    ensures refused { IfErr result (λ stop. IsBreak texts.now stop) }
{
    let tokens = lex_all(alloc, texts)?;
    let units = all_units(alloc, texts, tokens.slice())?;
    match unbroken_table(alloc, units.slice()) {
        Ok(table) => Ok(Sources {
            tokens,
            units,
            table,
        }),
        Err(stop) => {
            forget((tokens, units));
            Err(stop)
        }
    }
}

/// The tokens of sources that break no rule of a stage that is built, where nothing else of them is asked. Trees and table stay in memory, as do those
/// of sources that are refused.
pub fn tokens_of(alloc: Global, texts: &[Items<u8>]) -> Result<Items<Items<Token>>, Stop<Refusal>>
    ensures tokens { IfOk result (λ lists. AreRead texts.now lists) }
    ensures refused { IfErr result (λ stop. IsBreak texts.now stop) }
{
    let Sources {
        tokens,
        units,
        table,
    } = sources_of(alloc, texts)?;
    forget((units, table));
    Ok(tokens)
}
