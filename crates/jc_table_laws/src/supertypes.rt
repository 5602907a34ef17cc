//! The parameters of classes, and their declared supertypes.
ghost use Rattle.std.specs.Prelude.{◌≡◌, ◌⊎◌, ◌<◌, ℕ, List, [], Some, length, slice_get};
ghost use Rattle.jc_rules.specs.declared.rule.Refusal.{Refusal};
ghost use Rattle.jc_types.specs.declared.declarations.ClassDecl.{ClassDecl};
ghost use Rattle.jc_types.specs.declared.declarations.TypePlaces.{TypePlaces};
ghost use Rattle.jc_types.specs.declared.form.Ty.{Ty};
ghost use Rattle.jc_types.specs.declared.ids.ClassId.{ClassId};
ghost use Rattle.jc_types.specs.Accessors.{class_count, supers_of, vars_of};
ghost use Rattle.jc_types.specs.Inside.{inside};
ghost use Rattle.jc_judge.specs.Supers.{IsIn, numbered};
ghost use Rattle.jc_judge_laws.specs.Hierarchy.{IsHierarchy};
ghost use Rattle.jc_header_rules.specs.Checked.{AreDistinct, IsAmong, IsOver};
ghost use Rattle.jc_declares.specs.declared.unit.SourceUnit.{SourceUnit};
ghost use Rattle.jc_declares.specs.Breaks.{BreaksNames};
ghost use Rattle.jc_declares.specs.Making.{object, table_of};
ghost use Rattle.jc_declares.specs.Sites.{Sites, sites_of};
ghost use Rattle.jc_table_laws.specs.Supertypes.{IsClassType};

/// The parameters of a class are distinct type variables.
pub fn parameters_are_distinct()
    ensures { (S : Sites) (id : ClassId) → AreDistinct (vars_of (table_of S) id) }
{}

/// Where the names break no rule, the declared supertypes of a class speak of its own parameters alone, and of no other type variable (JLS 8.1.2, 8.5.1).
pub fn supertypes_speak_of_own_parameters()
    ensures { (units : List SourceUnit) → ((broken : Refusal) → BreaksNames (sites_of units) broken → ⊥) → (id : ClassId) (t : Ty) → IsIn t (supers_of (table_of (sites_of units)) id) → IsOver (λ v. IsAmong v (vars_of (table_of (sites_of units)) id)) t }
{}

/// .. each of them is a type of a class of the table and no type variable, and a raw one only where the class has parameters (JLS 4.8, 8.1.4, 8.1.5).
pub fn supertypes_are_class_types()
    ensures { (units : List SourceUnit) → ((broken : Refusal) → BreaksNames (sites_of units) broken → ⊥) → (id : ClassId) (t : Ty) → IsIn t (supers_of (table_of (sites_of units)) id) → IsClassType (table_of (sites_of units)) t }
{}

/// .. and each is Object, as where none is written, or has a place for each class or raw type inside it.
pub fn supertypes_have_places()
    ensures { (units : List SourceUnit) → ((broken : Refusal) → BreaksNames (sites_of units) broken → ⊥) → (c n : ℕ) (class : ClassDecl) (t : Ty) → slice_get (table_of (sites_of units)).classes c ≡ Some class → slice_get class.supers.types n ≡ Some t → (places : TypePlaces) × (slice_get class.supers.places n ≡ Some places) × ((t ≡ object) ⊎ (length places.classes ≡ length (inside t))) }
{}

/// Where the first class, Object, has no supertypes, and there are others, the table is a hierarchy.
pub fn tables_are_hierarchies()
    ensures { (units : List SourceUnit) → ((broken : Refusal) → BreaksNames (sites_of units) broken → ⊥) → supers_of (table_of (sites_of units)) (numbered 0) ≡ [] → 1 < class_count (table_of (sites_of units)) → IsHierarchy (table_of (sites_of units)) }
{}
