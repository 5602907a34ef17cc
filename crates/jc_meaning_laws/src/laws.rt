//! What more units do to a run.
ghost use Rattle.std.specs.Prelude.{ℕ, ◌+◌, List};
ghost use Rattle.jc_types.specs.declared.ids.MethodId.{MethodId};
ghost use Rattle.jc_typed.specs.declared.program.TypedProgram.{TypedProgram};
ghost use Rattle.jc_meaning.specs.Meaning.{main_outcome, outcome};
ghost use Rattle.jc_meaning_laws.specs.FirstParts.{GoesOn, shown_by};

/// More units only go on: what a run has shown with some units is the first part of what it shows with more, of a static method
/// without parameters and of a main method.
pub fn more_units_go_on()
    ensures methods { (P : TypedProgram) (m : MethodId) (input : List ℕ) (n k : ℕ) → GoesOn (shown_by (outcome P m input n)) (shown_by (outcome P m input (n + k))) }
    ensures mains { (P : TypedProgram) (m : MethodId) (args : List (List ℕ)) (input : List ℕ) (n k : ℕ) → GoesOn (shown_by (main_outcome P m args input n)) (shown_by (main_outcome P m args input (n + k))) }
{}
