//! The index of a table.
ghost use Rattle.std.specs.Prelude.{◌≡◌, List, ℕ};
ghost use Rattle.jc_types.specs.Names.{named};
ghost use Rattle.jc_types.specs.Tables.{first_named};
ghost use Rattle.jc_declares.specs.Making.{table_of};
ghost use Rattle.jc_declares.specs.Sites.{Sites};

/// The index of a table has the first class of each binary name, and no other name.
pub fn index_has_the_first_classes()
    ensures { (S : Sites) (name : List ℕ) → named name (table_of S).index ≡ first_named name 0 (table_of S).classes }
{}
