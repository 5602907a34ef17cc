//! Programs after erasure.
ghost use Rattle.std.specs.Prelude.{◌≡◌};
ghost use Rattle.jc_typed.specs.Bulk.{capped, method_bulk};

use jc_bridges_spec::Bridge;
use jc_rules::Items;
use jc_typed::{Known, Selection, TypedMethod};
use jc_types::{MethodId, Table};

/// A method under the name that it has in its class file, by its UTF-16 units. Each type in `tree` is its own erasure; what its
/// expressions capture and the type arguments of its calls say nothing.
#[derive(Drop)]
pub struct ErasedMethod {
    pub id: MethodId,
    pub name: Items<u16>,
    pub tree: TypedMethod,
}

/// An erased program: `methods` has a method for each one of the table, `selections` are those of the typed program, and `bridges`
/// has a list for each class.
#[derive(Drop)]
pub struct ErasedProgram {
    pub table: Table,
    pub known: Known,
    pub methods: Items<ErasedMethod>,
    pub selections: Items<Items<Selection>>,
    pub bridges: Items<Items<Bridge>>,
}

/// What a method weighs, which bounds the size of its code. The greatest u64 where it is more.
pub fn bulk(method: &ErasedMethod) -> u64
    ensures { result ≡ capped (method_bulk method.now.tree) }
{
    jc_typed::bulk(&method.tree)
}
