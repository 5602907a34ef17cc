//! Laws of runs of the machine.
ghost use Rattle.std.specs.Prelude.{◌≡◌, ◌≤◌, ◌+◌, ℕ, List, length, drop};
ghost use Rattle.jc_class_out.specs.declared.model.ClassModel.{ClassModel};
ghost use Rattle.jc_jvm.specs.Runs.{rests, run_of};
ghost use Rattle.jc_jvm.specs.Thrown.{State, Over};
ghost use Rattle.jc_jvm.specs.declared.world.Ending.{Ending};
ghost use Rattle.jc_jvm_laws.specs.Joined.{joined};

/// Says what runs are, and does nothing. The table never moves from a state in two ways: a run of more steps is the run of the first ones,
/// and then the run of the others from where that one came to, on the rest of its input. One step shows one thing at most: a byte that goes
/// out, or one that is taken. A machine that is over shows nothing more, so its ending is that of the step that came to it.
pub fn runs_are_steps()
    ensures joined { (classes : List ClassModel) (m n : ℕ) (s : State) (input : List ℕ) → run_of classes (m + n) s input ≡ joined (run_of classes m s input) (run_of classes n (run_of classes m s input).after (drop (run_of classes m s input).taken input)) }
    ensures one { (classes : List ClassModel) (s : State) (input : List ℕ) → length (run_of classes 1 s input).output + (run_of classes 1 s input).taken ≤ 1 }
    ensures over { (classes : List ClassModel) (n : ℕ) (ending : Ending) (input : List ℕ) → run_of classes n (Over ending) input ≡ rests (Over ending) }
{}
