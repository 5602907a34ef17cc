//! Laws of views, the supertypes of a class (JLS 4.10.2).
ghost use Rattle.std.specs.Prelude.{◌≡◌, ◌↔◌, ◌<◌, ℕ, List, Some, []};
ghost use Rattle.jc_types.specs.declared.form.Ty.{Ty, Ty-F, out-Ty};
ghost use Rattle.jc_types.specs.declared.form.Ty.TheVariants.{Class};
ghost use Rattle.jc_types.specs.declared.ids.ClassId.{ClassId};
ghost use Rattle.jc_types.specs.declared.table.Table.{Table};
ghost use Rattle.jc_judge.specs.Kinds.{class_of};
ghost use Rattle.jc_judge.specs.Meeting.{glb};
ghost use Rattle.jc_judge.specs.Supers.{numbered};
ghost use Rattle.jc_types.specs.Accessors.{class_count};
ghost use Rattle.jc_judge.specs.Views.{view, view_within};
ghost use Rattle.jc_judge_laws.specs.Hierarchy.{IsHierarchy, IsFlat, AreFlat, HasSupertype};

/// A view has the class that was asked for.
pub fn view_has_the_class()
    ensures { (T : Table) (k : ClassId) (t v : Ty) → view T k t ≡ Some v → class_of v ≡ Some k }
{}

/// A type has a view as a class exactly where the class is its own or above it (JLS 4.10.2, 4.10.3).
pub fn views_are_exact()
    ensures { (T : Table) → IsHierarchy T → (k : ClassId) (t : Ty) → IsFlat t → ((v : Ty) × (view T k t ≡ Some v)) ↔ HasSupertype T k t }
{}

/// A view stays the same with more steps than the table has classes.
pub fn views_are_stable()
    ensures { (T : Table) → IsHierarchy T → (k : ClassId) (t : Ty) (n : ℕ) → IsFlat t → class_count T < n → view_within T n k t ≡ view T k t }
{}

/// The view of an array as `Object` is `Object` (JLS 4.10.3).
pub fn array_is_an_object()
    ensures { (T : Table) (t u : Ty) (n : ℕ) → 0 < class_count T → out-Ty t ≡ Ty-F.Array u n → view T (numbered 0) t ≡ Some (Class (numbered 0) []) }
{}

/// A greatest lower bound of types has no intersection as a part of one, where none of them has (JLS 5.1.10).
pub fn bounds_are_flat()
    ensures { (T : Table) (types : List Ty) → AreFlat types → IsFlat (glb T types) }
{}
