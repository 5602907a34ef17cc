//! Members whose types erasure changes (JLS 4.6, 4.8).
ghost use Rattle.std.specs.Prelude.{◌≡◌, ◌<◌, not, IfOk, length};
ghost use Rattle.jc_types.specs.Sameness.{same};
ghost use Rattle.jc_typed.specs.Parts.{variable_of};
ghost use Rattle.jc_overriding.specs.Viewing.{plain};
ghost use Rattle.jc_unchecked_spec.specs.Bodies.{erasure_changes, field_changes, is_raw_field, is_variable_phase, some_erased};

use crate::walk::Walk;
use jc_members::plain;
use jc_rules::WantOfMemory;
use jc_typed::VariableNode;
use jc_types::{FieldId, MethodId, Phase, Ty, field_type, method_params, same_type};

fn changes(walk: &Walk, t: &Ty) -> Result<bool, WantOfMemory>
    ensures { IfOk result (λ r. r ≡ not (same t.now (plain walk.now.table.now t.now))) }
{
    let erased = plain(walk.alloc, walk.table, t)?;
    Ok(!same_type(t, &erased))
}

fn some_changes(walk: &Walk, types: &[Ty]) -> Result<bool, WantOfMemory>
    ensures { IfOk result (λ r. r ≡ some_erased walk.now.table.now types.now) }
{
    let mut rest = types;
    while let [t, more @ ..] = rest {
        if changes(walk, t)? {
            return Ok(true);
        }
        rest = more;
    }
    Ok(false)
}

/// Whether erasure changes the type of a parameter of a method.
pub fn erasure_changes(walk: &Walk, m: MethodId) -> Result<bool, WantOfMemory>
    ensures { IfOk result (λ r. r ≡ erasure_changes walk.now.table.now m) }
{
    some_changes(walk, method_params(walk.table, m))
}

fn field_changes(walk: &Walk, f: FieldId) -> Result<bool, WantOfMemory>
    ensures { IfOk result (λ r. r ≡ field_changes walk.now.table.now f) }
{
    match field_type(walk.table, f) {
        Some(t) => changes(walk, t),
        None => Ok(false),
    }
}

/// Whether a variable is a field of a raw type, whose type erasure changes.
pub fn is_raw_field(walk: &Walk, at: u32) -> Result<bool, WantOfMemory>
    requires { at < length walk.now.nodes.now }
    ensures { IfOk result (λ r. r ≡ is_raw_field walk.now.table.now (variable_of walk.now.nodes.now at)) }
{
    match walk.nodes.variable(at) {
        VariableNode::Field { field, is_raw, .. } => {
            if !is_raw {
                return Ok(false);
            }
            field_changes(walk, field)
        }
        VariableNode::Local { .. } => Ok(false),
        VariableNode::StaticField { .. } => Ok(false),
        VariableNode::Element { .. } => Ok(false),
    }
}

/// Whether a call passes arguments of a variable number (JLS 15.12.2.4).
pub fn is_variable_phase(phase: Phase) -> bool
    ensures { result ≡ is_variable_phase phase }
{
    match phase {
        Phase::Subtyping => false,
        Phase::Invocation => false,
        Phase::VariableArity => true,
    }
}
