//! The sorts of what methods give.
ghost use Rattle.std.specs.Prelude.{◌≡◌};
ghost use Rattle.jc_jvm.specs.Types.{behind_parameters, result_sort};

use jc_heap::{field_sort, spells};
use jc_jvm::Sort;

// What stands behind the `)`; nothing where there is none.
fn behind(descriptor: &[u16]) -> &[u16]
    ensures { result.now ≡ behind_parameters descriptor.now }
{
    for i in 0..descriptor.len() {
        if descriptor[i] == 41 {
            return &descriptor[i + 1..];
        }
    }
    &[]
}

/// The sort of a method's result, by its descriptor; none for `V`.
pub fn result_sort_of(descriptor: &[u16]) -> Option<Sort>
    ensures { result ≡ result_sort descriptor.now }
{
    let result_type = behind(descriptor);
    if spells(result_type, "V") {
        None
    } else {
        Some(field_sort(result_type))
    }
}
