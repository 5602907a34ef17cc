//! The answers to questions of subtyping are right.
ghost use Rattle.std.specs.Prelude.{◌≡◌, ◌↔◌, ℕ, List, Option};
ghost use Rattle.jc_types.specs.declared.form.Ty.{Ty};
ghost use Rattle.jc_types.specs.declared.form.Arg.{Arg};
ghost use Rattle.jc_types.specs.declared.table.Table.{Table};
ghost use Rattle.jc_types.specs.declared.environment.Bounds.{Bounds};
ghost use Rattle.jc_judge.specs.declared.question.Answer.{Answer};
ghost use Rattle.jc_judge.specs.declared.faults.TypeFault.{TypeFault};
ghost use Rattle.jc_judge.specs.WellFormed.{IsChecked};
ghost use Rattle.jc_judge.specs.Trees.{Answers, Proof, Refute, Contains, Excludes};
ghost use Rattle.jc_judge.specs.Deciding.{answer_of, contained_answer};
ghost use Rattle.jc_judge.specs.Forming.{IsWellFormed, IsIllFormed, formed_answer, first_fault, type_faults};

/// Whether one type is below another: the answer is Yes exactly where there is a proof of the height, and No exactly where there
/// is a refutation of it (JLS 4.10).
pub fn answers_are_right()
    ensures { (T : Table) (d : ℕ) (env : List Bounds) (s t : Ty) → Answers (Proof T d env s t) (Refute T d env s t) (answer_of T d env s t) }
{}

/// The same of the question whether an argument contains another (JLS 4.5.1).
pub fn containments_are_right()
    ensures { (T : Table) (d : ℕ) (env : List Bounds) (a b : Arg) → Answers (Contains T d env a b) (Excludes T d env a b) (contained_answer T d env a b) }
{}

/// The same of the question whether a type is well formed (JLS 4.5).
pub fn forming_is_right()
    ensures { (T : Table) (d : ℕ) (env : List Bounds) (t : Ty) → Answers (IsWellFormed T d env t) (IsIllFormed T d env t) (formed_answer T d env t) }
{}

/// One answer is right at most.
pub fn answers_are_single()
    ensures { (T : Table) (d : ℕ) (env : List Bounds) (s t : Ty) (a : Answer) → Answers (Proof T d env s t) (Refute T d env s t) a → a ≡ answer_of T d env s t }
{}

/// The fault that a check of a type answers is the first of the faults of the class types inside it, and there is none exactly where
/// they have none (JLS 4.5).
pub fn checked_fault_is_the_first()
    ensures { (T : Table) (env : List Bounds) (t : Ty) (found : Option TypeFault) → IsChecked T env t found ↔ (found ≡ first_fault (type_faults T env t)) }
{}
