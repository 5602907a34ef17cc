//! The types that bodies write are those that the table lists.
ghost use Rattle.std.specs.Prelude.{◌≡◌};
ghost use Rattle.jc_rules.specs.declared.rule.Refusal.{Refusal};
ghost use Rattle.jc_tree.specs.declared.types.TypeTree.{TypeTree};
ghost use Rattle.jc_types.specs.Breaks.{IsOf};
ghost use Rattle.jc_declares.specs.Breaks.{BreaksNames};
ghost use Rattle.jc_declares.specs.Heads.{heads_of};
ghost use Rattle.jc_declares.specs.Knowing.{known};
ghost use Rattle.jc_declares.specs.Making.{table_of};
ghost use Rattle.jc_declares.specs.Sites.{OfType, Sites, UseSite};
ghost use Rattle.jc_written_in.specs.Bodies.{IsAmong, spot_of, use_of};
ghost use Rattle.jc_written_in.specs.Writings.{rules_in};

/// A type that a body writes stands in the table as what its tree means in the scope where it stands.
pub fn types_of_bodies_are_written()
    ensures { (S : Sites) (u : UseSite) (tree : TypeTree) → IsAmong u S.uses → u.part ≡ OfType tree → IsAmong (use_of (heads_of S) (known (heads_of S)) u tree) (table_of S).uses }
{}

/// Its names break no rule where no names of the program do.
pub fn types_of_bodies_break_no_rule()
    ensures { (S : Sites) → ((broken : Refusal) → BreaksNames S broken → ⊥) → (u : UseSite) (tree : TypeTree) → IsAmong u S.uses → u.part ≡ OfType tree → (broken : Refusal) → IsOf broken (rules_in (heads_of S) (known (heads_of S)) (spot_of (heads_of S) u) tree) → ⊥ }
{}
