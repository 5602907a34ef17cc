//! Laws of bridges.
ghost use Rattle.std.specs.Prelude.{◌≡◌, false};
ghost use Rattle.jc_types.specs.Accessors.{is_interface};
ghost use Rattle.jc_types.specs.declared.ids.ClassId.{ClassId};
ghost use Rattle.jc_types.specs.declared.ids.MethodId.{MethodId};
ghost use Rattle.jc_types.specs.declared.table.Table.{Table};
ghost use Rattle.jc_bridges_laws.specs.Bodies.{HasBodies, IsBody, LeadsTo};

/// A call by name and descriptor comes to the body that a class has for the called method: at once, or by way of one bridge that has the
/// name and descriptor of the called method, and calls by those of the body.
pub fn bridges_lead_to_bodies()
    ensures { (T : Table) → HasBodies T → (k : ClassId) (m own : MethodId) → is_interface T k ≡ false → IsBody T k m own → LeadsTo T k m own }
{}
