//! Descriptors of methods (JVMS 4.3.3) as verification types.
ghost use Rattle.std.specs.Prelude.{◌≡◌, IfOk, map, drop};
ghost use Rattle.jc_class_out.specs.Descriptors.{parameter_items};
ghost use Rattle.jc_jvm.specs.Types.{behind_parameters};
ghost use Rattle.jc_frames_types.specs.Items.{item_of};
ghost use Rattle.jc_frames_steps.specs.Rules.{is_void as is_void_result};

use jc_class_out::behind_type;
use jc_frames_types::{UnitType, unit_of_type};
use jc_rules::WantOfMemory;
use std::alloc::Global;

fn behind_first(units: &[u16]) -> &[u16]
    ensures { result.now ≡ drop 1 units.now }
{
    match units {
        [] => units,
        [_, rest @ ..] => rest,
    }
}

/// The descriptor of the result.
pub fn result_of(descriptor: &[u16]) -> &[u16]
    ensures { result.now ≡ behind_parameters descriptor.now }
{
    let mut rest = descriptor;
    while let [unit, behind @ ..] = rest {
        if *unit == 41 {
            return behind;
        }
        rest = behind;
    }
    rest
}

/// Whether a method with this descriptor of its result gives none.
pub fn is_void(result_type: &[u16]) -> bool
    ensures { result ≡ is_void_result result_type.now }
{
    matches!(result_type, [86])
}

/// The types of the parameters, the first one first.
#[tactic(auto, using(crate::proofs::Arguments::item_rules))]
pub fn parameters_of<'a>(
    alloc: Global,
    descriptor: &'a [u16],
) -> Result<Vec<UnitType<'a>>, WantOfMemory>
    ensures { IfOk result (λ units. map item_of units.items ≡ parameter_items descriptor.now) }
{
    let mut units = Vec::new(alloc);
    let mut rest = behind_first(descriptor);
    for _ in 0..descriptor.len() {
        match behind_type(rest) {
            None => return Ok(units),
            Some(behind) => {
                let size = rest.len().saturating_sub(behind.len());
                units.push(unit_of_type(&rest[..size]))?;
                rest = behind;
            }
        }
    }
    Ok(units)
}
