//! The scopes of classes.
ghost use Rattle.std.specs.Prelude.{◌≡◌, ℕ, List, Some, slice_get};
ghost use Rattle.jc_types.specs.declared.declarations.ClassDecl.{ClassDecl};
ghost use Rattle.jc_declares.specs.declared.unit.SourceUnit.{SourceUnit};
ghost use Rattle.jc_declares.specs.Making.{table_of};
ghost use Rattle.jc_declares.specs.Sites.{sites_of};
ghost use Rattle.jc_table_laws.specs.Chains.{EndsAtUnit};

/// The scope of each class is a scope of the table, and the scopes round it are, up to that of a unit of the class's package (JLS 6.3).
pub fn scopes_of_classes_end_at_their_units()
    ensures { (units : List SourceUnit) (c : ℕ) (class : ClassDecl) → slice_get (table_of (sites_of units)).classes c ≡ Some class → EndsAtUnit (table_of (sites_of units)).scopes class.«package» class.scope.0 }
{}
