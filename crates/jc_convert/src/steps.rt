//! The steps of a conversion.
ghost use Rattle.std.specs.Prelude.{◌≡◌, ◌∷◌, [], IfOk};
ghost use Rattle.jc_convert.specs.Rows.{checked, unchecked};

use crate::answer::Converts;
use jc_rules::{Items, WantOfMemory};
use jc_types::{Conversion, Step};
use std::alloc::Global;

/// The identity conversion.
pub fn identity(alloc: Global) -> Converts
    ensures { result ≡ Converts.Yes (checked []) }
{
    Converts::Yes(Conversion {
        steps: Items::new(alloc),
        unchecked: false,
    })
}

/// A conversion of one step.
pub fn one_step(alloc: Global, step: Step) -> Result<Converts, WantOfMemory>
    ensures { IfOk result (λ r. r ≡ Converts.Yes (checked (step ∷ []))) }
{
    let mut steps = Items::new(alloc);
    steps.push(step)?;
    Ok(Converts::Yes(Conversion {
        steps,
        unchecked: false,
    }))
}

/// A conversion of two steps.
pub fn two_steps(alloc: Global, first: Step, second: Step) -> Result<Converts, WantOfMemory>
    ensures { IfOk result (λ r. r ≡ Converts.Yes (checked (first ∷ second ∷ []))) }
{
    let mut steps = Items::new(alloc);
    steps.push(first)?;
    steps.push(second)?;
    Ok(Converts::Yes(Conversion {
        steps,
        unchecked: false,
    }))
}

/// A conversion of three steps.
pub fn three_steps(
    alloc: Global,
    first: Step,
    second: Step,
    third: Step,
) -> Result<Converts, WantOfMemory>
    ensures { IfOk result (λ r. r ≡ Converts.Yes (checked (first ∷ second ∷ third ∷ []))) }
{
    let mut steps = Items::new(alloc);
    steps.push(first)?;
    steps.push(second)?;
    steps.push(third)?;
    Ok(Converts::Yes(Conversion {
        steps,
        unchecked: false,
    }))
}

/// The same conversion as an unchecked one (JLS 5.1.9).
pub fn unchecked_step(alloc: Global, step: Step) -> Result<Converts, WantOfMemory>
    ensures { IfOk result (λ r. r ≡ Converts.Yes (unchecked (step ∷ []))) }
{
    let mut steps = Items::new(alloc);
    steps.push(step)?;
    Ok(Converts::Yes(Conversion {
        steps,
        unchecked: true,
    }))
}

/// An unchecked conversion of two steps.
pub fn unchecked_steps(alloc: Global, first: Step, second: Step) -> Result<Converts, WantOfMemory>
    ensures { IfOk result (λ r. r ≡ Converts.Yes (unchecked (first ∷ second ∷ []))) }
{
    let mut steps = Items::new(alloc);
    steps.push(first)?;
    steps.push(second)?;
    Ok(Converts::Yes(Conversion {
        steps,
        unchecked: true,
    }))
}
