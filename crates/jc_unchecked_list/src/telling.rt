//! How a warning is told.
ghost use Rattle.std.specs.Prelude.{◌≡◌, OnOk};
ghost use Rattle.jc_unchecked_spec.specs.Kinds.{warned_if};
ghost use Rattle.jc_unchecked_list.specs.Telling.{told};

use jc_rules::{Items, Place, WantOfMemory};
use jc_unchecked_spec::{Warning, WarningKind};

/// Tells a warning where a condition holds.
pub fn tell_if(
    holds: bool,
    kind: WarningKind,
    place: Place,
    out: &mut Items<Warning>,
) -> Result<(), WantOfMemory>
    ensures { OnOk result (out.new ≡ told (warned_if holds kind place) out.old) }
{
    if holds {
        return out.push(Warning { place, kind });
    }
    Ok(())
}
