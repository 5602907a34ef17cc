//! The ids and written types of a table.
ghost use Rattle.std.specs.Prelude.{List, IsTrue};
ghost use Rattle.jc_rules.specs.declared.rule.Refusal.{Refusal};
ghost use Rattle.jc_types.specs.Tables.{IsTable, ids_fit};
ghost use Rattle.jc_declares.specs.declared.unit.SourceUnit.{SourceUnit};
ghost use Rattle.jc_declares.specs.Breaks.{BreaksNames};
ghost use Rattle.jc_declares.specs.Making.{table_of};
ghost use Rattle.jc_declares.specs.Sites.{sites_of};

/// Every id in the table of a program, also in the types that heads and bodies write, is a place in its list.
pub fn ids_are_places()
    ensures { (units : List SourceUnit) → IsTrue (ids_fit (table_of (sites_of units))) }
{}

/// Where the names break no rule, the ids of the table are places in it, every written type has its places, one for each class or raw type inside it
/// in the order in which they are written, and the index has the first class of each binary name.
pub fn names_make_a_table()
    ensures { (units : List SourceUnit) → ((broken : Refusal) → BreaksNames (sites_of units) broken → ⊥) → IsTable (table_of (sites_of units)) }
{}
