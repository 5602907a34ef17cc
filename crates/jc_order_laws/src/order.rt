//! Ids ascend with places.
ghost use Rattle.std.specs.Prelude.{List};
ghost use Rattle.jc_declares.specs.declared.unit.SourceUnit.{SourceUnit};
ghost use Rattle.jc_declares.specs.Making.{table_of};
ghost use Rattle.jc_declares.specs.Sites.{sites_of};
ghost use Rattle.jc_order_laws.specs.Order.{AreJob, IdsAscend};

/// Of two classes, methods, fields or type variables of a job's sources the one with the lesser id comes first, by file and offset. Methods that no
/// source writes stand at their class.
pub fn ids_ascend_with_places()
    ensures { (units : List SourceUnit) → AreJob 0 units → IdsAscend (table_of (sites_of units)) }
{}
