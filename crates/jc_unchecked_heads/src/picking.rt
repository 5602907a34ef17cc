//! Methods among which a test is enough.
ghost use Rattle.std.specs.Prelude.{◌≡◌, ◌⊎◌};

use jc_types::MethodId;

/// The shorter one of two lists of methods.
pub fn shorter<'a>(named: &'a [MethodId], all: &'a [MethodId]) -> &'a [MethodId]
    ensures { (result.now ≡ named.now) ⊎ (result.now ≡ all.now) }
{
    if named.len() <= all.len() { named } else { all }
}
