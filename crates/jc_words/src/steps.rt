//! The number of steps.
ghost use Rattle.std.specs.Prelude.{◌≡◌, IfOk, MatchOption};
ghost use Rattle.jc_words.specs.Job.{AreSteps};
ghost use Rattle.std.specs.Prelude.{ℕ};

use jc_rules::WantOfMemory;
use std::alloc::Global;

/// The greatest number of steps that a job may ask for.
const MOST: u64 = 9223372036854775807;

/// The number that a text spells in decimal, without a needless zero, if it is a number of steps.
pub fn steps_of(alloc: Global, text: &str) -> Result<Option<u64>, WantOfMemory>
    ensures { IfOk result (λ steps. MatchOption steps ((n : ℕ) → AreSteps text.now n → ⊥) (λ n. AreSteps text.now n)) }
{
    let Ok(steps) = text.parse::<u64>() else {
        return Ok(None);
    };
    if steps > MOST {
        return Ok(None);
    }
    let spelled = format!(in alloc; "{steps}")?;
    if spelled.as_str() == text {
        Ok(Some(steps))
    } else {
        Ok(None)
    }
}
