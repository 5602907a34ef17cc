//! The laws.
ghost use Rattle.std.specs.Prelude.{◌≡◌, ◌≢◌, [], false, length, Some, ℕ};
ghost use Rattle.jc_types.specs.declared.declarations.ClassDecl.{ClassDecl};
ghost use Rattle.jc_types.specs.declared.declarations.MethodDecl.{MethodDecl};
ghost use Rattle.jc_types.specs.declared.declarations.TypePlaces.{TypePlaces};
ghost use Rattle.jc_types.specs.declared.form.Ty.{Ty, out-Ty};
ghost use Rattle.jc_types.specs.declared.form.Ty.TheVariants.{Raw};
ghost use Rattle.jc_types.specs.declared.ids.ClassId.{ClassId};
ghost use Rattle.jc_types.specs.declared.ids.MethodId.{MethodId};
ghost use Rattle.jc_types.specs.declared.table.Table.{Table};
ghost use Rattle.jc_types.specs.Accessors.{vars_of};
ghost use Rattle.jc_types.specs.Inside.{inside};
ghost use Rattle.jc_judge.specs.Forming.{IsWellFormed};
ghost use Rattle.jc_judge.specs.Kinds.{class_of};
ghost use Rattle.jc_judge_laws.specs.Hierarchy.{IsHierarchy};
ghost use Rattle.jc_header_rules.specs.Checked.{IsSupertype};
ghost use Rattle.jc_header_rules.specs.Headers.{wants_body};
ghost use Rattle.jc_header_rules.specs.Types.{has_wildcard_at};
ghost use Rattle.jc_headers.specs.Stages.{IsUnbroken};
ghost use Rattle.jc_clashes.specs.Stage.{HasNoClash};
ghost use Rattle.jc_header_laws.specs.Facts.{AreOne, ErasuresDiffer, ErasuresStand, Fit, FindsBody, IsNumber, IsPair, IsWritten, OneBody, OneChosen, OneDeclaration, OneSelected, OverridesBeyond, ReplacesReached, SignsReached};

/// Where the stages of types and of headers have no break, each written type is well formed: its arguments have proof trees of their bounds (JLS 4.5). An implied one, such as the
/// superclass Object, has no places and isn't asked.
pub fn written_types_are_well_formed()
    ensures { (T : Table) → IsUnbroken T → (t : Ty) (places : TypePlaces) → IsWritten T t places → length places.classes ≡ length (inside t) → IsWellFormed T 64 [] t }
{}

/// .. and no supertype has a wildcard as one of its own arguments (JLS 8.1.4, 9.1.3).
pub fn supertypes_are_exact()
    ensures { (T : Table) → IsUnbroken T → (n : ℕ) (c : ClassDecl) → IsNumber 0 n c T.classes → (t : Ty) (places : TypePlaces) → IsPair t places c.supers.types c.supers.places → has_wildcard_at (out-Ty t) ≡ false }
{}

/// .. a written supertype that is of a class has an exact argument for each parameter of that class, or is raw (JLS 4.5, 4.8, 8.1.4, 8.1.5).
pub fn written_supertypes_are_supertypes()
    ensures { (T : Table) → IsUnbroken T → (n : ℕ) (c : ClassDecl) → IsNumber 0 n c T.classes → (t : Ty) (places : TypePlaces) → IsPair t places c.supers.types c.supers.places → length places.classes ≡ length (inside t) → (k : ClassId) → class_of t ≡ Some k → (t ≡ Raw k → vars_of T k ≢ []) → IsSupertype T t }
{}

/// .. the supertypes of a class that have one class are one type (JLS 8.1.5, 9.1.3).
pub fn supertypes_of_one_class_are_one()
    ensures { (T : Table) → IsUnbroken T → (n : ℕ) (c : ClassDecl) → IsNumber 0 n c T.classes → AreOne T (record { 0 = n }) }
{}

/// .. a method that overrides or hides another one fits it: that one isn't final, and it isn't less open, its result converts, and it throws no more
/// (JLS 8.4.3.3, 8.4.5, 8.4.8.3).
pub fn overriding_methods_fit()
    ensures { (T : Table) → IsUnbroken T → (m n : ℕ) (d e : MethodDecl) → IsNumber 0 m d T.methods → IsNumber 0 n e T.methods → Fit T (record { 0 = m }) (record { 0 = n }) }
{}

/// .. and a class that isn't abstract has a body for each abstract method that it declares or inherits (JLS 8.1.1.1, 8.4.8).
pub fn selection_finds_a_body()
    ensures { (T : Table) → IsUnbroken T → (n m : ℕ) (c : ClassDecl) (d : MethodDecl) → IsNumber 0 n c T.classes → IsNumber 0 m d T.methods → FindsBody T (record { 0 = n }) c (record { 0 = m }) }
{}

/// .. two methods, or two constructors, that a class declares with override-equivalent signatures are one (JLS 8.4.2, 8.8.2).
pub fn declared_signatures_differ()
    ensures { (T : Table) → IsUnbroken T → (m n : ℕ) (d e : MethodDecl) → IsNumber 0 m d T.methods → IsNumber 0 n e T.methods → OneDeclaration T (record { 0 = m }) (record { 0 = n }) }
{}

/// .. of the methods that a class declares, and of those that it inherits, two with bodies and override-equivalent signatures are one (JLS 8.4.2, 8.4.8.4). An
/// inherited one counts where no other method of the class overrides or hides it.
pub fn bodies_of_members_are_one()
    ensures { (T : Table) → IsUnbroken T → (n : ℕ) (c : ClassDecl) → IsNumber 0 n c T.classes → OneBody T (record { 0 = n }) }
{}

/// .. and so are two of these that stand in the class for one method that is called, whose order then decides nothing (JLS 15.12.4.4). A called method with type
/// parameters of its own has to be one of the two.
pub fn bodies_that_stand_are_one()
    ensures { (T : Table) → IsUnbroken T → (n : ℕ) (c : ClassDecl) → IsNumber 0 n c T.classes → OneSelected T (record { 0 = n }) }
{}

/// .. a method has a body where it is neither abstract nor native, and only there, and a constructor has one (JLS 8.4.7, 8.8.7, 9.4).
pub fn methods_have_their_bodies()
    ensures { (T : Table) → IsUnbroken T → (n : ℕ) (d : MethodDecl) → IsNumber 0 n d T.methods → d.has_body ≡ wants_body d }
{}

/// .. so where the body that is selected is of a method that the class declares, or that is a member there, it is the only one: no other such method with a body, native
/// ones included, stands there for the one that is called.
pub fn selected_body_is_one()
    ensures { (T : Table) → IsUnbroken T → (n : ℕ) (c : ClassDecl) → IsNumber 0 n c T.classes → OneChosen T (record { 0 = n }) }
{}

/// Where the stage of clashes has no break, of two methods of one name and one erasure that a class declares or may inherit, of which the first is a member, the
/// first is the second, has a subsignature of it, or is inherited and the second stands in its place (JLS 8.4.8.3).
pub fn members_of_one_erasure_stand_for_each_other()
    ensures { (T : Table) → HasNoClash T → (n : ℕ) (c : ClassDecl) → IsNumber 0 n c T.classes → ErasuresStand T (record { 0 = n }) }
{}

/// .. so a member of a class has there a subsignature of each method of the class that it overrides or hides, directly or indirectly, or is inherited and that one
/// stands in its place.
pub fn members_sign_what_they_reach()
    ensures { (T : Table) → HasNoClash T → (n : ℕ) (c : ClassDecl) → IsNumber 0 n c T.classes → SignsReached T (record { 0 = n }) }
{}

/// .. and each method that a method overrides or hides indirectly, by way of others, it overrides or hides outright, where its class may inherit that (JLS 8.4.8.1 to
/// 8.4.8.3). No class may be above itself, and all supertypes have to be classes of the table, as in that of sources that break no rule (`jc_front_laws`).
pub fn what_is_reached_is_replaced()
    ensures { (T : Table) → IsHierarchy T → HasNoClash T → (m p : MethodId) → ReplacesReached T m p }
{}

/// .. so overriding is transitive as far as classes may inherit.
pub fn overriding_is_transitive()
    ensures { (T : Table) → IsHierarchy T → HasNoClash T → (m n p : MethodId) → OverridesBeyond T m n p }
{}

/// .. and two constructors that a class lists have different erasures (JLS 8.8.2).
pub fn erasures_of_constructors_differ()
    ensures { (T : Table) → HasNoClash T → (n : ℕ) (c : ClassDecl) → IsNumber 0 n c T.classes → ErasuresDiffer T c.methods }
{}
