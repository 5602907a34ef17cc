//! No class is above itself.
ghost use Rattle.std.specs.Prelude.{◌≡◌, []};
ghost use Rattle.jc_rules.specs.declared.rule.Refusal.{Refusal};
ghost use Rattle.jc_types.specs.Accessors.{supers_of};
ghost use Rattle.jc_declares.specs.Breaks.{BreaksNames};
ghost use Rattle.jc_declares.specs.Making.{table_of};
ghost use Rattle.jc_declares.specs.Sites.{Sites};
ghost use Rattle.jc_judge.specs.Supers.{HasNoCycle, numbered};

/// No class is among its own supertypes (JLS 8.1.4, 9.1.3) where the names break no rule, and the first class, Object, has no supertypes.
pub fn no_class_is_its_own_supertype()
    ensures { (S : Sites) → ((broken : Refusal) → BreaksNames S broken → ⊥) → supers_of (table_of S) (numbered 0) ≡ [] → HasNoCycle (table_of S) }
{}
