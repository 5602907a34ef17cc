//! Laws of runs of typed programs.
ghost use Rattle.std.specs.Prelude.{◌≡◌, ℕ, suc, ◌+◌, true, List};
ghost use Rattle.jc_types.specs.declared.form.Ty.{Ty};
ghost use Rattle.jc_types.specs.declared.ids.MethodId.{MethodId};
ghost use Rattle.jc_types.specs.declared.table.Table.{Table};
ghost use Rattle.jc_typed.specs.declared.program.TypedProgram.{TypedProgram};
ghost use Rattle.jc_running.specs.Outcomes.{WithOneUnitMore};
ghost use Rattle.jc_heaps.specs.States.{shown_of};
ghost use Rattle.jc_meaning.specs.Meaning.{is_over, main_outcome, outcome, seen};
ghost use Rattle.jc_meaning.specs.Levels.{BelowAt, FitsAt, SoundAt};

/// A run with one unit more, of a static method without parameters and of a main method: one that had come to an end is the same;
/// one that was going on shows the same or one thing more, a byte out, a byte in or a failed check, or it comes to its end and
/// shows nothing more.
pub fn one_unit_more()
    ensures methods { (P : TypedProgram) (m : MethodId) (input : List ℕ) (n : ℕ) → WithOneUnitMore shown_of (outcome P m input n) (outcome P m input (suc n)) }
    ensures mains { (P : TypedProgram) (m : MethodId) (args : List (List ℕ)) (input : List ℕ) (n : ℕ) → WithOneUnitMore shown_of (main_outcome P m args input n) (main_outcome P m args input (suc n)) }
{}

/// A run that is over shows the same with any number of units more.
pub fn ended_runs_stay()
    ensures methods { (P : TypedProgram) (m : MethodId) (input : List ℕ) (n k : ℕ) → is_over (outcome P m input n) ≡ true → seen P (outcome P m input (n + k)) ≡ seen P (outcome P m input n) }
    ensures mains { (P : TypedProgram) (m : MethodId) (args : List (List ℕ)) (input : List ℕ) (n k : ℕ) → is_over (main_outcome P m args input n) ≡ true → seen P (main_outcome P m args input (n + k)) ≡ seen P (main_outcome P m args input n) }
{}

/// Below is transitive at each level, and what is below, fits or is sound at a level is so at the smaller one.
#[tactic(auto, using(crate::proofs::Levels::below_trans, crate::proofs::Levels::below_smaller, crate::proofs::Levels::fits_smaller, crate::proofs::Levels::sound_smaller))]
pub fn levels_go_down()
    ensures transitive { (T : Table) (n : ℕ) (s t u : Ty) → BelowAt T n s t → BelowAt T n t u → BelowAt T n s u }
    ensures below { (T : Table) (n : ℕ) (s t : Ty) → BelowAt T (suc n) s t → BelowAt T n s t }
    ensures fits { (T : Table) (n : ℕ) (k t : Ty) → FitsAt T (suc n) k t → FitsAt T n k t }
    ensures sound { (T : Table) (n : ℕ) (k : Ty) → SoundAt T (suc n) k → SoundAt T n k }
{}
