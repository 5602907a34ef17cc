//! What returns give.
ghost use Rattle.std.specs.Prelude.{◌≡◌};
ghost use Rattle.jc_jvm.specs.Table.{top_of_sort, given_back};

use jc_jvm::{Operands, Sort, Value};
use jc_plain::is_of_sort;

fn top_of(sort: Sort, stack: &mut Operands) -> Option<Option<Value>>
    ensures { result ≡ top_of_sort sort stack.old.values }
{
    match stack.pop() {
        Some(value) => {
            if is_of_sort(sort, value) {
                Some(Some(value))
            } else {
                None
            }
        }
        None => None,
    }
}

/// The value that a return of this sort gives, from the stack, where the method's result is of that sort; None where the table
/// allows nothing.
pub fn give_back(
    wanted: Option<Sort>,
    result_sort: Option<Sort>,
    stack: &mut Operands,
) -> Option<Option<Value>>
    ensures { result ≡ given_back wanted result_sort stack.old.values }
{
    match (wanted, result_sort) {
        (None, None) => Some(None),
        (Some(Sort::WholeSort), Some(Sort::WholeSort)) => top_of(Sort::WholeSort, stack),
        (Some(Sort::LongSort), Some(Sort::LongSort)) => top_of(Sort::LongSort, stack),
        (Some(Sort::ReferenceSort), Some(Sort::ReferenceSort)) => {
            top_of(Sort::ReferenceSort, stack)
        }
        _ => None,
    }
}
