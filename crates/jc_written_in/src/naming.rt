//! What the names of a program are looked up in, made once of its units.
ghost use Rattle.std.specs.Prelude.{◌≡◌, IfOk};
ghost use Rattle.jc_written_in.specs.Namings.{IsNaming, IsNamingOf};

use jc_declares::{Heads, SourceUnit};
use jc_heads::heads;
use jc_imports::{Imports, imports_of};
use jc_looking::Inherited;
use jc_name_index::{Index, Indexed, index_of};
use jc_rules::{Items, WantOfMemory};
use jc_settling::settle;
use std::alloc::Global;

/// The heads of a program's declarations with their index, what its imports name, and the member types that each class inherits.
#[derive(Drop)]
pub struct Naming {
    pub heads: Heads,
    pub index: Index,
    pub imports: Imports,
    pub known: Items<Option<Inherited>>,
}

/// Where the heads of the declarations are known.
fn with_heads(alloc: Global, heads: Heads) -> Result<Naming, WantOfMemory>
    ensures { IfOk result (λ it. IsNamingOf heads it) }
{
    let index = index_of(alloc, &heads)?;
    let declared = Indexed {
        heads: &heads,
        index: &index,
    };
    let imports = imports_of(alloc, &declared)?;
    let known = settle(alloc, &declared, &imports)?;
    Ok(Naming {
        heads,
        index,
        imports,
        known,
    })
}

/// What the names of these units are looked up in.
pub fn naming_of(alloc: Global, units: &[SourceUnit]) -> Result<Naming, WantOfMemory>
    ensures { IfOk result (λ it. IsNaming units.now it) }
{
    let heads = heads(alloc, units)?;
    with_heads(alloc, heads)
}
