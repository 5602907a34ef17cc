//! Laws of the list of warnings.
ghost use Rattle.jc_typed.specs.declared.program.TypedProgram.{TypedProgram};
ghost use Rattle.jc_unchecked_spec.specs.Warnings.{warnings};
ghost use Rattle.jc_unchecked_spec.specs.declared.warning.Warning.{Warning};
ghost use Rattle.jc_unchecked_laws.specs.Told.{Ascends, IsTold, IsToldAnywhere, PartsAreTold};

/// A warning is in the list exactly where the program is warned of it anywhere.
pub fn list_is_told()
    ensures to { (P : TypedProgram) (w : Warning) → IsTold w (warnings P) → IsToldAnywhere P w }
    ensures back { (P : TypedProgram) (w : Warning) → IsToldAnywhere P w → IsTold w (warnings P) }
{}

/// The list ascends by file, offset and kind: so no warning is in it twice.
pub fn list_ascends()
    ensures { (P : TypedProgram) → Ascends (warnings P) }
{}

/// What is warned of in two parts is warned of in one of them, and a warning on a condition is told exactly where the condition holds.
pub fn parts_are_told()
    ensures { PartsAreTold }
{}
