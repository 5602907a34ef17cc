//! Laws of runs of erased programs.
ghost use Rattle.std.specs.Prelude.{◌≡◌, ℕ, suc, ◌+◌, true, List};
ghost use Rattle.jc_types.specs.declared.ids.MethodId.{MethodId};
ghost use Rattle.jc_running.specs.declared.value.Value.{Value};
ghost use Rattle.jc_running.specs.declared.value.Value.TheVariants.{Address};
ghost use Rattle.jc_running.specs.Outcomes.{WithOneUnitMore, wrong};
ghost use Rattle.jc_heaps.specs.Erases.{ErasedState};
ghost use Rattle.jc_heaps.specs.States.{shown_of};
ghost use Rattle.jc_erased.specs.declared.program.ErasedProgram.{ErasedProgram};
ghost use Rattle.jc_erased.specs.Calls.{Bodies, IsUnselected, call_virtual};
ghost use Rattle.jc_erased.specs.Meaning.{is_over, main_outcome, outcome, seen};

/// A run of an erased program with one unit more, of a static method without parameters and of a main method: one that had come to
/// an end is the same; one that was going on shows the same or one thing more, or it comes to its end and shows nothing more.
pub fn one_unit_more_of_erased()
    ensures methods { (P : ErasedProgram) (m : MethodId) (input : List ℕ) (n : ℕ) → WithOneUnitMore shown_of (outcome P m input n) (outcome P m input (suc n)) }
    ensures mains { (P : ErasedProgram) (m : MethodId) (args : List (List ℕ)) (input : List ℕ) (n : ℕ) → WithOneUnitMore shown_of (main_outcome P m args input n) (main_outcome P m args input (suc n)) }
{}

/// A run of an erased program that is over shows the same with any number of units more.
pub fn ended_erased_runs_stay()
    ensures methods { (P : ErasedProgram) (m : MethodId) (input : List ℕ) (n k : ℕ) → is_over (outcome P m input n) ≡ true → seen P (outcome P m input (n + k)) ≡ seen P (outcome P m input n) }
    ensures mains { (P : ErasedProgram) (m : MethodId) (args : List (List ℕ)) (input : List ℕ) (n k : ℕ) → is_over (main_outcome P m args input n) ≡ true → seen P (main_outcome P m args input (n + k)) ≡ seen P (main_outcome P m args input n) }
{}

/// A call by the class of an object is Wrong where that class selects no body for the called method, whatever stands in it under the
/// method's name and descriptor (JLS 15.12.4.4).
#[tactic(auto, using(crate::proofs::Unselected::unselected_wrong))]
pub fn unselected_calls_are_wrong()
    ensures { (P : ErasedProgram) (body : Bodies) (m : MethodId) (a : ℕ) (args : List Value) (u : ℕ) (s : ErasedState) → IsUnselected P m a s → call_virtual P body m (Address a) args u s ≡ wrong u s }
{}
