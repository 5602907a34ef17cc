//! Laws of erasures.
ghost use Rattle.jc_types.specs.declared.ids.ClassId.{ClassId};
ghost use Rattle.jc_types.specs.declared.table.Table.{Table};
ghost use Rattle.jc_typed.specs.declared.program.Known.{Known};
ghost use Rattle.jc_erase_spec.specs.Meeting.{ErasuresRunAlike};
ghost use Rattle.jc_erase_spec.specs.Small.{HasSmallErasure};

/// An erasure ends each run of a static method without parameters, and of a main method, as the typed program does, with as many
/// units left and as many failed checks, and shows the same.
#[tactic(auto, using(crate::proofs::Alike::runs_alike))]
pub fn erasures_run_alike()
    ensures { ErasuresRunAlike }
{}

/// Over each table there is a program with an erasure: one method declares a variable of a class type with an argument.
#[tactic(auto, using(crate::proofs::Small::has_erasure))]
pub fn a_small_erasure()
    ensures { (T : Table) (known : Known) (c k : ClassId) → HasSmallErasure T known c k }
{}
