//! Laws of calls in erased programs.
ghost use Rattle.std.specs.Prelude.{◌≡◌, ℕ, false, List};
ghost use Rattle.jc_types.specs.declared.erased.Erased.{Erased};
ghost use Rattle.jc_types.specs.declared.ids.MethodId.{MethodId};
ghost use Rattle.jc_types.specs.Accessors.{is_interface};
ghost use Rattle.jc_running.specs.declared.value.Value.{Value};
ghost use Rattle.jc_heaps.specs.declared.state.Object.{Object};
ghost use Rattle.jc_heaps.specs.Classes.{methods_class};
ghost use Rattle.jc_erased.specs.declared.program.ErasedProgram.{ErasedProgram};
ghost use Rattle.jc_erased.specs.Calls.{Bodies};
ghost use Rattle.jc_bridges_laws.specs.Bodies.{HasBodies, IsBody};
ghost use Rattle.jc_bridges_call_laws.specs.Calls.{HasBridges, RunsBody};

/// A call by name and descriptor for an object checks each argument where the body's parameter has another erasure, runs the body that the
/// object's class has for the called method, and checks the result where its erasure isn't below that of the called method's.
pub fn calls_run_bodies()
    ensures { (E : ErasedProgram) → HasBridges E → HasBodies E.table → (body : Bodies) (a : ℕ) (o : Object Erased) (m own : MethodId) (args : List Value)
        → is_interface E.table (methods_class o.kept) ≡ false → IsBody E.table (methods_class o.kept) m own → RunsBody E body a o m own args }
{}
