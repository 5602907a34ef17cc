//! Whether modifiers are low.
ghost use Rattle.std.specs.Prelude.{◌≡◌};
ghost use Rattle.jc_unit_laws.specs.MemberReading.{is_low};

use jc_tree::{Modifier, modifiers_height};

/// Whether modifiers are less high than this.
#[tactic(auto, using(crate::proofs::Lowness::low_by))]
pub fn are_low(modifiers: &[Modifier], height: u32) -> bool
    ensures { result ≡ is_low height modifiers.now }
{
    modifiers_height(modifiers) < height
}
