//! Texts that get numbers.
ghost use Rattle.std.specs.Prelude.{◌≡◌, OnOk};
ghost use Rattle.jc_heap.specs.Named.{NamesMore};

use jc_jvm::Texts;
use jc_rules::WantOfMemory;
use std::alloc::Global;

/// Adds a number for a text, unless the text has one.
#[tactic(auto, using(crate::proofs::Numbering::name_rules))]
pub fn add_name(
    alloc: Global,
    numbers: &mut Texts,
    name: &[u16],
    number: u64,
) -> Result<(), WantOfMemory>
    ensures { OnOk result (NamesMore numbers.old numbers.new name.now number) }
{
    match numbers.find(name) {
        Some(_) => Ok(()),
        None => numbers.add(name.to_vec(alloc)?, number),
    }
}
