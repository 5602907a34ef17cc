//! Laws of proofs and refutations of subtyping (JLS 4.10).
ghost use Rattle.std.specs.Prelude.{◌≡◌, ◌+◌, ℕ, suc, List, Some};
ghost use Rattle.jc_types.specs.declared.form.Ty.{Ty};
ghost use Rattle.jc_types.specs.declared.ids.ClassId.{ClassId};
ghost use Rattle.jc_types.specs.declared.table.Table.{Table};
ghost use Rattle.jc_types.specs.declared.environment.Bounds.{Bounds};
ghost use Rattle.jc_judge.specs.Kinds.{class_of};
ghost use Rattle.jc_judge.specs.Views.{view};
ghost use Rattle.jc_judge.specs.Supers.{HasNoCycle, IsAbove, numbered};
ghost use Rattle.jc_judge.specs.Trees.{Proof, Refute};

/// No question has a proof and a refutation, of whatever heights.
pub fn never_both()
    ensures { (T : Table) (d e : ℕ) (env : List Bounds) (s t : Ty) → Proof T d env s t → Refute T e env s t → ⊥ }
{}

/// A tree of a height is one of each greater height.
pub fn trees_grow()
    ensures proofs { (T : Table) (d : ℕ) (env : List Bounds) (s t : Ty) → Proof T d env s t → Proof T (suc d) env s t }
    ensures refutations { (T : Table) (d : ℕ) (env : List Bounds) (s t : Ty) → Refute T d env s t → Refute T (suc d) env s t }
{}

/// Where no class is among its own supertypes, a class or raw type has a view as each class that is above its own.
pub fn views_are_found()
    ensures { (T : Table) → HasNoCycle T → (k : ClassId) (t : Ty) (a : ℕ) → class_of t ≡ Some (numbered a) → IsAbove T a k.0 → (v : Ty) × (view T k t ≡ Some v) }
{}
