//! Laws of erasure (JLS 4.6).
ghost use Rattle.std.specs.Prelude.{◌≡◌, ◌++◌, List, Some};
ghost use Rattle.jc_types.specs.declared.form.Ty.{Ty};
ghost use Rattle.jc_types.specs.declared.table.Table.{Table};
ghost use Rattle.jc_types.specs.declared.environment.Bounds.{Bounds};
ghost use Rattle.jc_types.specs.Erasing.{erasure, variable_bounds};
ghost use Rattle.jc_judge_laws.specs.Leftmost.{IsGrounded, IsClosed, IsKnown, source, bound_erasure};

/// The erasure of a variable, declared or captured, is that of its leftmost bound (JLS 4.6), where no variable depends on itself.
pub fn variable_erases_to_leftmost_bound()
    ensures { (T : Table) (env : List Bounds) → IsGrounded T env → (t : Ty) (bounds : List Ty) → variable_bounds T env t ≡ Some bounds → erasure T env t ≡ bound_erasure T env bounds }
{}

/// Further captured variables change no erasure of a type that speaks of none of them.
pub fn longer_env_erases_alike()
    ensures { (T : Table) (env more : List Bounds) → IsGrounded T env → IsClosed T env → (t : Ty) → IsKnown env (source t) → erasure T (env ++ more) t ≡ erasure T env t }
{}
