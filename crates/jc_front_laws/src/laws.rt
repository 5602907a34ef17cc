//! Laws of what the front end gives.
ghost use Rattle.std.specs.Prelude.{ℕ, List};
ghost use Rattle.jc_types.specs.Tables.{IsTable};
ghost use Rattle.jc_judge.specs.Supers.{HasNoCycle};
ghost use Rattle.jc_judge_laws.specs.Hierarchy.{IsHierarchy};
ghost use Rattle.jc_header_rules.specs.Checked.{HasHeaders};
ghost use Rattle.jc_order_laws.specs.Order.{IdsAscend};
ghost use Rattle.jc_front.specs.declared.reading.Sources.{Sources};
ghost use Rattle.jc_front.specs.Stages.{AreSources};

/// The ids in the table are places in it, every written type has its places, and the index has the first class of each binary name.
pub fn sources_have_a_table()
    ensures { (texts : List (List ℕ)) (sources : Sources) → AreSources texts sources → IsTable sources.table }
{}

/// No class is among its own supertypes (JLS 8.1.4, 9.1.3).
pub fn no_class_is_its_own_supertype()
    ensures { (texts : List (List ℕ)) (sources : Sources) → AreSources texts sources → HasNoCycle sources.table }
{}

/// The classes form a hierarchy: each declared supertype is of a class of the table, no class is above itself, Object alone has no supertypes, and there are others
/// (JLS 8.1.4, 9.1.3). So the laws of hierarchies hold of the table.
pub fn sources_form_a_hierarchy()
    ensures { (texts : List (List ℕ)) (sources : Sources) → AreSources texts sources → IsHierarchy sources.table }
{}

/// .. and the headers of all classes are checked: the parameters of each are distinct, its declared supertypes speak of these alone, each has an exact argument for
/// each parameter of its class or is raw, and its supertypes of one class are one type (JLS 4.5, 8.1.2, 8.1.4, 8.1.5, 9.1.3). So the laws of least upper bounds hold of
/// the table.
pub fn sources_have_headers()
    ensures { (texts : List (List ℕ)) (sources : Sources) → AreSources texts sources → HasHeaders sources.table }
{}

/// Of two classes, methods, fields or type variables that sources declare the one with the lesser id comes first, by file and offset. What the library
/// declares comes before them, and methods that no source writes stand at their class.
pub fn ids_ascend_with_places()
    ensures { (texts : List (List ℕ)) (sources : Sources) → AreSources texts sources → IdsAscend sources.table }
{}
