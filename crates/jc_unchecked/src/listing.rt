//! The list of all warnings.
ghost use Rattle.std.specs.Prelude.{◌≡◌, IfOk, OnOk};
ghost use Rattle.jc_unchecked_spec.specs.Warnings.{warnings};
ghost use Rattle.jc_unchecked.specs.All.{bodies_told};

use jc_rules::{Items, WantOfMemory};
use jc_typed::{TypedMethod, TypedProgram};
use jc_types::Table;
use jc_unchecked_bodies::tell_method;
use jc_unchecked_heads::tell_heads;
use jc_unchecked_list::in_order;
use jc_unchecked_spec::Warning;
use std::alloc::Global;

fn tell_bodies(
    alloc: Global,
    table: &Table,
    methods: &[TypedMethod],
    out: &mut Items<Warning>,
) -> Result<(), WantOfMemory>
    ensures { OnOk result (out.new ≡ bodies_told table.now methods.now out.old) }
{
    let mut rest = methods;
    while let [method, more @ ..] = rest {
        tell_method(alloc, table, method, out)?;
        rest = more;
    }
    Ok(())
}

/// The unchecked warnings of a program (JLS 4.8, 5.1.9, 5.5.2, 8.4.5, 15.12.4.2): by file, then by offset, then by the number of the kind, and each once.
#[tactic(auto, using(crate::proofs::Found::all_found))]
pub fn warnings(alloc: Global, program: &TypedProgram) -> Result<Items<Warning>, WantOfMemory>
    ensures { IfOk result (λ r. r ≡ warnings program.now) }
{
    let mut found = Items::new(alloc);
    tell_heads(alloc, &program.table, &mut found)?;
    tell_bodies(alloc, &program.table, program.methods.slice(), &mut found)?;
    in_order(alloc, found.slice())
}
